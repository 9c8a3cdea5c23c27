//! What happens at lanes of a machine that adds numbers, as plain data.

use crate::sum::Sum;
use aa_lane::{Event, Reply, SendFault};

/// An event of a lane of `Sum`, as data that can be compared and copied.
#[derive(Clone, Copy, PartialEq, Eq, Debug)]
pub enum Happening {
    Send(u64),
    Take,
    Finish,
    Collect,
    Shut,
}

impl Happening {
    pub fn event(self) -> Event<Sum> {
        match self {
            Happening::Send(request) => Event::Send(request),
            Happening::Take => Event::Take,
            Happening::Finish => Event::Finish,
            Happening::Collect => Event::Collect,
            Happening::Shut => Event::Shut,
        }
    }
}

/// A reply of a lane of `Sum`, as data that can be compared and copied.
#[derive(Clone, Copy, PartialEq, Eq, Debug)]
pub enum Said {
    Accepted(u64),
    Unsent(SendFault, u64),
    Taken(u64),
    Idle,
    Settled,
    Held,
    Finished(u64),
    NoJob,
    Given(u64),
    Nothing,
    Count(u64),
    NoMemory,
}

impl Said {
    pub fn of(reply: Reply<Sum>) -> Said {
        match reply {
            Reply::Accepted(number) => Said::Accepted(number),
            Reply::Unsent(fault, request) => Said::Unsent(fault, request),
            Reply::Taken(number) => Said::Taken(number),
            Reply::Idle => Said::Idle,
            Reply::Settled => Said::Settled,
            Reply::Held => Said::Held,
            Reply::Finished(number) => Said::Finished(number),
            Reply::NoJob => Said::NoJob,
            Reply::Given(number) => Said::Given(number),
            Reply::Nothing => Said::Nothing,
            Reply::Count(count) => Said::Count(count),
        }
    }
}
