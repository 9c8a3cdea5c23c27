//! Why bytes are no job.

ghost use Rattle.std.specs.Prelude.{◌≡◌};
ghost use Rattle.aa_jobs.specs.declared.job_fault.JobFault.TheVariants.{NoMemory};

use std::alloc::{AllocError, AllocFailed};
use thiserror::Error;

/// Why a job can't be read. Of several faults the first counts: too many bytes, then `NotJson`, `BadShape`, the other
/// limits, `BadRequest`; want of memory may come before any of them but the first.
#[derive(Clone, Copy, Debug, PartialEq, Eq, Error)]
pub enum JobFault {
    #[error("job 1 NoMemory")]
    NoMemory,
    /// The bytes are no UTF-8, or no JSON that nests at most 127 deep.
    #[error("job 2 NotJson")]
    NotJson,
    /// A key is missing or unknown, `policy` and `policies` stand both or neither, a value is of another kind, or a number
    /// isn't held as a `u64`.
    #[error("job 3 BadShape")]
    BadShape,
    /// A path, mask or name that can't be asked for, an unknown letter or name, a policy that isn't there, or an event of a
    /// task that isn't there.
    #[error("job 4 BadRequest")]
    BadRequest,
    /// The bytes, a text, a list or a number is over its limit.
    #[error("job 5 TooLarge")]
    TooLarge,
}

impl JobFault {
    ghost use Rattle.aa_jobs.specs.Steps.{fault_number};

    /// The number that the fault is reported by.
    pub fn number(self) -> u8
        ensures { result ≡ fault_number self }
    {
        match self {
            JobFault::NoMemory => 1,
            JobFault::NotJson => 2,
            JobFault::BadShape => 3,
            JobFault::BadRequest => 4,
            JobFault::TooLarge => 5,
        }
    }
}

impl From<AllocError> for JobFault {
    ghost from_gives = { λ _ e. e ≡ NoMemory };

    fn from(_e: AllocError) -> JobFault {
        JobFault::NoMemory
    }
}

impl<T: Drop> From<AllocFailed<T>> for JobFault {
    ghost from_gives = { λ _ e. e ≡ NoMemory };

    fn from(_e: AllocFailed<T>) -> JobFault {
        JobFault::NoMemory
    }
}
