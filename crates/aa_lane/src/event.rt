//! What can happen at a lane, and what it answers.

use aa_machine::Machine;

// How many requests a lane accepts in all.
pub(crate) const MOST_ACCEPTED: u64 = (1 << 62) - 1;

// How many slots a lane has at most.
pub(crate) const MOST_SLOTS: u32 = 1024;

/// Why a request wasn't accepted. Where several hold, the first of them is answered.
#[derive(Clone, Copy, PartialEq, Eq, Debug)]
pub enum SendFault {
    /// The lane has accepted 2^62 - 1 requests, the most that its gate word counts.
    Spent,
    /// As many requests as the capacity aren't collected yet.
    Full,
    /// The lane was shut.
    Closed,
}

/// One step of one of a lane's ends.
#[derive(Drop)]
pub enum Event<M: Machine> {
    /// The owner sends a request.
    Send(M::Request),
    /// The server looks for the next request.
    Take,
    /// The server answers the request that it has in hand.
    Finish,
    /// The owner looks for the next answer.
    Collect,
    /// The lane is shut.
    Shut,
}

/// What an event is answered. Requests and answers are numbered from 0.
#[derive(Drop)]
pub enum Reply<M: Machine> {
    /// The request was accepted, and this is its number.
    Accepted(u64),
    /// The request wasn't accepted.
    Unsent(SendFault, M::Request),
    /// The request of this number was taken.
    Taken(u64),
    /// There was no request to take.
    Idle,
    /// The lane is shut, and every accepted request is answered.
    Settled,
    /// A taken request isn't answered yet.
    Held,
    /// The request of this number was answered.
    Finished(u64),
    /// No request was taken.
    NoJob,
    /// The answer of this number was collected.
    Given(u64),
    /// There was no answer to collect.
    Nothing,
    /// The lane is shut after it accepted so many requests.
    Count(u64),
}

/// Why a lane or a world wasn't made.
#[derive(Clone, Copy, PartialEq, Eq, Debug)]
pub enum LaneFault {
    /// A growth was refused.
    NoMemory,
    /// The capacity was 0 or over 1,024.
    BadCapacity,
}

/// A growth was refused.
#[derive(Clone, Copy, PartialEq, Eq, Debug)]
pub struct NoMemory;

/// An event that didn't happen, since a growth was refused.
#[derive(Drop)]
pub struct Unapplied<M: Machine> {
    pub event: Event<M>,
}
