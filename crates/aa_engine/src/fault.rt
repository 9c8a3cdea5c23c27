//! Why a job isn't answered.

ghost use Rattle.std.specs.Prelude.{◌≡◌};
ghost use Rattle.aa_engine.specs.Faults.{job_cause, policy_cause, mediate_cause, exit_status};

use crate::tasks::MediateFault;
use aa_base::PolicyKind;
use aa_jobs::JobFault;
use aa_policies::RefusedPolicy;
use std::alloc::{AllocError, AllocFailed};
use thiserror::Error;

/// Why an engine gave up. Want of memory in any layer is `NoMemory`, and never `Job` or `Policy`.
#[derive(Clone, Copy, Debug, PartialEq, Eq, Error)]
pub enum RunFault {
    #[error("no memory")]
    NoMemory,
    /// The reader failed, or didn't come to an end within 33,554,432 calls.
    #[error("read failed")]
    Read,
    /// The writer failed, or took nothing: a front of the text was written.
    #[error("write failed")]
    Write,
    /// The input is no job.
    #[error("{0}")]
    Job(JobFault),
    /// One of the job's policies is refused, the first such one.
    #[error("{0}")]
    Policy(RefusedPolicy),
    /// The label of the task of that number, the first such one, names no profile.
    #[error("task {0} has no profile")]
    UnknownProfile(usize),
}

impl RunFault {
    /// The exit status of a program that ends by this fault: 1 where the job is at fault, else 3.
    pub fn status(self) -> u8
        ensures { result ≡ exit_status self }
    {
        match self {
            RunFault::Job(_) | RunFault::Policy(_) | RunFault::UnknownProfile(_) => 1,
            RunFault::NoMemory | RunFault::Read | RunFault::Write => 3,
        }
    }
}

/// The engine's fault where no job was read.
pub fn job_fault(fault: JobFault) -> RunFault
    ensures { result ≡ job_cause fault }
{
    match fault {
        JobFault::NoMemory => RunFault::NoMemory,
        other => RunFault::Job(other),
    }
}

/// The engine's fault where a policy is refused.
pub fn policy_fault(refused: RefusedPolicy) -> RunFault
    ensures { result ≡ policy_cause refused }
{
    match refused.fault.kind {
        PolicyKind::NoMemory => RunFault::NoMemory,
        _ => RunFault::Policy(refused),
    }
}

/// The engine's fault where a job's tasks aren't answered.
pub fn mediate_fault(fault: MediateFault) -> RunFault
    ensures { result ≡ mediate_cause fault }
{
    match fault {
        MediateFault::NoMemory => RunFault::NoMemory,
        MediateFault::UnknownProfile(task) => RunFault::UnknownProfile(task),
    }
}

impl From<AllocError> for RunFault {
    ghost use Rattle.aa_engine.specs.declared.fault.RunFault.TheVariants.{NoMemory};

    ghost from_gives = { λ _ e. e ≡ NoMemory };

    fn from(_e: AllocError) -> RunFault {
        RunFault::NoMemory
    }
}

impl<T: Drop> From<AllocFailed<T>> for RunFault {
    ghost use Rattle.aa_engine.specs.declared.fault.RunFault.TheVariants.{NoMemory};

    ghost from_gives = { λ _ e. e ≡ NoMemory };

    fn from(_e: AllocFailed<T>) -> RunFault {
        RunFault::NoMemory
    }
}
