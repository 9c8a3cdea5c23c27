//! Why nothing can be found.

use aa_auto::BuildFault;
use std::alloc::{AllocError, AllocFailed};

/// Why nothing can be found.
#[derive(Clone, Copy)]
pub enum FindingsFault {
    NoMemory,
    /// There are more patterns than can be matched together.
    TooManyPatterns,
    /// The patterns need more states than the limit.
    TooManyStates,
}

impl From<AllocError> for FindingsFault {
    ghost use Rattle.std.specs.Prelude.{◌≡◌};
    ghost use Rattle.aa_findings.specs.declared.fault.FindingsFault.TheVariants.{NoMemory};

    ghost from_gives = { λ _ e. e ≡ NoMemory };

    fn from(_: AllocError) -> Self {
        FindingsFault::NoMemory
    }
}

impl<T: Drop> From<AllocFailed<T>> for FindingsFault {
    ghost use Rattle.std.specs.Prelude.{◌≡◌};
    ghost use Rattle.aa_findings.specs.declared.fault.FindingsFault.TheVariants.{NoMemory};

    ghost from_gives = { λ _ e. e ≡ NoMemory };

    fn from(_: AllocFailed<T>) -> Self {
        FindingsFault::NoMemory
    }
}

impl From<BuildFault> for FindingsFault {
    ghost use Rattle.std.specs.Prelude.{◌≡◌};
    ghost use Rattle.aa_findings.specs.Faults.{fault_of};

    ghost from_gives = { λ b e. e ≡ fault_of b };

    fn from(fault: BuildFault) -> Self {
        match fault {
            BuildFault::NoMemory => FindingsFault::NoMemory,
            BuildFault::TooManyStates => FindingsFault::TooManyStates,
        }
    }
}
