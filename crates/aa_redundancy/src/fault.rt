//! Why rules can't be looked through.

ghost use Rattle.std.specs.Prelude.{◌≡◌, IfOk};
ghost use Rattle.aa_redundancy.specs.Faults.{fault_by};

use aa_auto::BuildFault;
use std::alloc::{AllocError, AllocFailed};

/// Why the redundant rules of a profile can't be told.
#[derive(Clone, Copy)]
pub enum RedundancyFault {
    NoMemory,
    /// There are more patterns than can be matched together.
    TooManyPatterns,
    /// The patterns need more states than the limit.
    TooManyStates,
}

impl From<AllocError> for RedundancyFault {
    ghost use Rattle.std.specs.Prelude.{◌≡◌};
    ghost use Rattle.aa_redundancy.specs.declared.fault.RedundancyFault.TheVariants.{NoMemory};

    ghost from_gives = { λ _ e. e ≡ NoMemory };

    fn from(_: AllocError) -> Self {
        RedundancyFault::NoMemory
    }
}

impl<T: Drop> From<AllocFailed<T>> for RedundancyFault {
    ghost use Rattle.std.specs.Prelude.{◌≡◌};
    ghost use Rattle.aa_redundancy.specs.declared.fault.RedundancyFault.TheVariants.{NoMemory};

    ghost from_gives = { λ _ e. e ≡ NoMemory };

    fn from(_: AllocFailed<T>) -> Self {
        RedundancyFault::NoMemory
    }
}

impl From<BuildFault> for RedundancyFault {
    ghost use Rattle.std.specs.Prelude.{◌≡◌};
    ghost use Rattle.aa_redundancy.specs.Faults.{fault_of};

    ghost from_gives = { λ b e. e ≡ fault_of b };

    fn from(fault: BuildFault) -> Self {
        match fault {
            BuildFault::NoMemory => RedundancyFault::NoMemory,
            BuildFault::TooManyStates => RedundancyFault::TooManyStates,
        }
    }
}

/// What a profile has too much of for its redundant rules to be told.
#[derive(Clone, Copy, Debug, PartialEq, Eq)]
pub enum Excess {
    /// More patterns than can be matched together.
    Patterns,
    /// Patterns that need more states than the limit.
    States,
}

/// A profile of which it can't be told which rules are redundant, by its number, and what it has too much of.
#[derive(Clone, Copy, Debug, PartialEq, Eq)]
pub struct UntoldProfile {
    pub number: usize,
    pub why: Excess,
}

/// What a profile has too much of, if it isn't memory that there is too little of.
pub(crate) fn excess_of(fault: RedundancyFault) -> Result<Excess, AllocError>
    ensures { IfOk result (λ why. fault ≡ fault_by why) }
{
    match fault {
        RedundancyFault::NoMemory => Err(AllocError),
        RedundancyFault::TooManyPatterns => Ok(Excess::Patterns),
        RedundancyFault::TooManyStates => Ok(Excess::States),
    }
}
