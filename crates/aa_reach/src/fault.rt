//! Why it isn't told which labels a text names.

use aa_text::NoMemory;
use std::alloc::{AllocError, AllocFailed};

/// Why it isn't told which labels texts name.
#[derive(Drop)]
pub(crate) enum NameFault {
    NoMemory,
    /// What is said of it.
    Refused(Vec<u8>),
}

impl From<AllocError> for NameFault {
    ghost use Rattle.std.specs.Prelude.{◌≡◌};
    ghost use Rattle.aa_reach.specs.declared.fault.NameFault.TheVariants as fault;

    ghost from_gives = { λ _ e. e ≡ fault.NoMemory };

    fn from(_e: AllocError) -> NameFault {
        NameFault::NoMemory
    }
}

impl<T: Drop> From<AllocFailed<T>> for NameFault {
    ghost use Rattle.std.specs.Prelude.{◌≡◌};
    ghost use Rattle.aa_reach.specs.declared.fault.NameFault.TheVariants as fault;

    ghost from_gives = { λ _ e. e ≡ fault.NoMemory };

    fn from(_e: AllocFailed<T>) -> NameFault {
        NameFault::NoMemory
    }
}

impl From<NoMemory> for NameFault {
    fn from(_e: NoMemory) -> NameFault {
        NameFault::NoMemory
    }
}
