//! Jobs: the texts of policies, and tasks with what they ask.

ghost use Rattle.std.specs.Prelude.{IsTrue};
ghost use Rattle.aa_jobs.specs.Limits.{keeps_limits};

use aa_base::{Seq, Text};
use aa_model::Request;
use aa_words::Include;

/// An item of a task's list.
#[derive(Drop)]
pub enum Work {
    Ask(Request),
    /// The task ends.
    Exit,
}

/// A task, confined as its label says, and what it asks, in order.
#[derive(Drop)]
pub struct Task {
    /// `unconfined`, or the full name of a profile of its policy.
    pub label: Text,
    /// The number of the policy that decides for it, counted from 0.
    pub policy: u16,
    pub requests: Seq<Work>,
}

/// What happens at a task's lane.
#[derive(Clone, Copy, Debug, PartialEq, Eq)]
pub enum EventName {
    Send,
    Take,
    Finish,
    Collect,
    Shut,
}

/// An event at the task of that number, counted from 0.
#[derive(Clone, Copy, Debug, PartialEq, Eq)]
pub struct Event {
    pub task: u32,
    pub name: EventName,
}

/// A job. It keeps the limits: 1 to 16 policies, 1 to 1,000,000 states, a capacity of 1 to 1,024, at most 1,024 tasks with 65,536 items each,
/// 4,095 included texts, 1,000,000 events, 1,048,576 bytes of each text; and each event's task and each task's policy is there.
#[derive(Drop)]
pub struct Job {
    /// The policies, numbered from 0.
    pub policies: Seq<Text>,
    /// Whether they were written as a list.
    pub several: bool,
    /// The files 1, 2, .. in byte order of their names.
    pub includes: Seq<Include>,
    pub tasks: Seq<Task>,
    /// How many states an automaton may have.
    pub states: u32,
    /// How many requests a lane holds.
    pub capacity: u32,
    pub events: Seq<Event>,
    ghost limits: { IsTrue (keeps_limits policies includes tasks states capacity events) },
}
