//! The labels that the tasks of a job open with.

ghost use Rattle.std.specs.Prelude.{◌≡◌, is_none};
ghost use Rattle.aa_engine.specs.Answers.{task_label, first_unknown};

use aa_compile::{Compiled, label_of};
use aa_jobs::Task;
use aa_model::Label;
use std::alloc::{AllocError, AllocFailed};

/// Why a job's tasks aren't answered: an unknown profile comes before want of memory.
#[derive(Clone, Copy, Debug, PartialEq, Eq)]
pub enum MediateFault {
    NoMemory,
    /// The label of the task of that number, the first such one, names no profile.
    UnknownProfile(usize),
}

impl From<AllocError> for MediateFault {
    ghost use Rattle.aa_engine.specs.declared.tasks.MediateFault.TheVariants.{NoMemory};

    ghost from_gives = { λ _ e. e ≡ NoMemory };

    fn from(_e: AllocError) -> MediateFault {
        MediateFault::NoMemory
    }
}

impl<T: Drop> From<AllocFailed<T>> for MediateFault {
    ghost use Rattle.aa_engine.specs.declared.tasks.MediateFault.TheVariants.{NoMemory};

    ghost from_gives = { λ _ e. e ≡ NoMemory };

    fn from(_e: AllocFailed<T>) -> MediateFault {
        MediateFault::NoMemory
    }
}

/// The label that a task opens with, in the policy that it names.
pub fn opening_label(policies: &[Compiled], task: &Task) -> Option<Label>
    ensures { result ≡ task_label policies.now task.now }
{
    label_of(policies, task.policy, task.label.as_slice())
}

fn is_unknown(policies: &[Compiled], task: &Task) -> bool
    ensures { result ≡ is_none (task_label policies.now task.now) }
{
    opening_label(policies, task).is_none()
}

/// The first task whose label names no profile.
// The number is a `usize`, as the search gives it: no cast, so no bound that would have to be proved.
pub fn unknown_task(policies: &[Compiled], tasks: &[Task]) -> Option<usize>
    ensures { result ≡ first_unknown policies.now tasks.now }
{
    tasks.iter().position(|task| is_unknown(policies, task))
}
