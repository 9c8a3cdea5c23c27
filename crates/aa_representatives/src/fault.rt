//! Why there are no representatives.

use aa_auto::BuildFault;
use std::alloc::AllocError;

/// Why there are no representatives.
#[derive(Clone, Copy, Debug, PartialEq, Eq)]
pub enum RepresentativesFault {
    NoMemory,
    /// More patterns decide at the label than can be matched together.
    TooManyPatterns,
    /// The patterns need more states than the limit.
    TooManyStates,
}

impl From<AllocError> for RepresentativesFault {
    ghost use Rattle.std.specs.Prelude.{◌≡◌};
    ghost use Rattle.aa_representatives.specs.declared.fault.RepresentativesFault.TheVariants.{NoMemory};

    ghost from_gives = { λ _ e. e ≡ NoMemory };

    fn from(_: AllocError) -> Self {
        RepresentativesFault::NoMemory
    }
}

impl From<BuildFault> for RepresentativesFault {
    ghost use Rattle.std.specs.Prelude.{◌≡◌};
    ghost use Rattle.aa_representatives.specs.Faults.{fault_of};

    ghost from_gives = { λ b e. e ≡ fault_of b };

    fn from(fault: BuildFault) -> Self {
        match fault {
            BuildFault::NoMemory => RepresentativesFault::NoMemory,
            BuildFault::TooManyStates => RepresentativesFault::TooManyStates,
        }
    }
}
