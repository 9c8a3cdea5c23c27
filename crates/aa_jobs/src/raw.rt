//! What stands in a job.
// An item's texts are borrowed from the job's bytes, or, where they have escapes, from the reader's scratch. All that is kept of a job has texts of
// its own, since the scratch is as long as the job, and is let go before tasks are made.

use crate::job::EventName;
use aa_base::{Cap, Family, SockType, Text};
use aa_model::{ChangeRequest, ExecRequest, FileRequest, LinkRequest};
use aa_words::Include;

/// An item of a task's list, as it is written.
#[derive(Drop)]
pub enum RawItem<'v> {
    Exit,
    File {
        owned: bool,
        path: &'v str,
        letters: &'v str,
    },
    Link {
        owned: bool,
        path: &'v str,
        target: &'v str,
    },
    Exec {
        owned: bool,
        path: &'v str,
    },
    Cap {
        name: &'v str,
    },
    Net {
        family: &'v str,
        kind: &'v str,
    },
    Change {
        name: &'v str,
    },
    Reload {
        policy: u64,
    },
}

/// What an item asks, or that the task ends. It has one tag where a `Work` has two, and so is a word shorter.
#[derive(Drop)]
pub enum KeptWork {
    Exit,
    File(FileRequest),
    Link(LinkRequest),
    Exec(ExecRequest),
    Cap(Cap),
    Net(Family, SockType),
    Change(ChangeRequest),
    Reload(u16),
}

/// What the items of a task's list ask, in a job of as many policies as there may be.
// An item becomes a request as soon as it is read, so no list of items is made beside that of requests. The first fault is still that of
// the whole job: shape, then limits, then meaning. So the items are counted on behind one that can't be asked for, in whose place an exit stands.
#[derive(Drop)]
pub struct RawItems {
    pub works: Vec<KeptWork>,
    /// Whether all of them can be asked for.
    pub are_good: bool,
}

/// A task's label, its policy's number, and what the items of its list ask.
#[derive(Drop)]
pub struct RawTask {
    pub label: Text,
    pub policy: u64,
    pub items: RawItems,
}

/// An event's task and name, if there is an event of that name.
#[derive(Drop)]
pub struct RawEvent {
    pub task: u64,
    pub name: Option<EventName>,
}

/// The texts of a job's policies, and those that they may include.
#[derive(Drop)]
pub struct RawTexts {
    pub policies: Vec<Text>,
    pub includes: Vec<Include>,
}

/// What a job does with its policies.
#[derive(Drop)]
pub struct RawRun {
    pub tasks: Vec<RawTask>,
    pub states: u64,
    pub capacity: u64,
    pub events: Vec<RawEvent>,
}

/// All that stands in a job.
#[derive(Drop)]
pub struct RawJob {
    pub policies: Vec<Text>,
    pub several: bool,
    pub includes: Vec<Include>,
    pub tasks: Vec<RawTask>,
    pub states: u64,
    pub capacity: u64,
    pub events: Vec<RawEvent>,
}
