//! Why texts are no policy.

ghost use Rattle.std.specs.Prelude.{◌≡◌, ◌≢◌, ◌⊎◌};

use aa_base::{PolicyFault, PolicyKind, Spot};
use std::alloc::{AllocError, AllocFailed};

/// A profile that has the name of one of earlier texts.
#[derive(Clone, Copy, Debug, PartialEq, Eq)]
pub struct RepeatedName {
    /// The number of its texts.
    pub number: usize,
    /// Where its name stands.
    pub at: Spot,
    /// The number of the earlier ones.
    pub earlier: usize,
    /// Where the name stands there.
    pub earlier_at: Spot,
}

/// Why main texts with their sources are no policy. They count from 0.
#[derive(Clone, Copy, Debug, PartialEq, Eq)]
pub enum LoadingFault {
    NoMemory,
    /// These spell no policy, or are refused by themselves.
    OfTexts(usize, PolicyFault),
    Repeated(RepeatedName),
    /// With these a count passes a limit.
    TooLarge(usize),
    /// None are refused by themselves, but all together are.
    Together(PolicyFault),
}

impl From<AllocError> for LoadingFault {
    ghost use Rattle.aa_load.specs.declared.fault.LoadingFault.TheVariants.{NoMemory};

    ghost from_gives = { λ _ e. e ≡ NoMemory };

    fn from(_e: AllocError) -> LoadingFault {
        LoadingFault::NoMemory
    }
}

impl<T: Drop> From<AllocFailed<T>> for LoadingFault {
    ghost use Rattle.aa_load.specs.declared.fault.LoadingFault.TheVariants.{NoMemory};

    ghost from_gives = { λ _ e. e ≡ NoMemory };

    fn from(_e: AllocFailed<T>) -> LoadingFault {
        LoadingFault::NoMemory
    }
}

/// The fault of texts, unless memory ran out.
pub(crate) fn of_texts(number: usize, fault: PolicyFault) -> LoadingFault
    ensures { ((fault.kind ≡ PolicyKind.NoMemory) × (result ≡ LoadingFault.NoMemory)) ⊎ ((fault.kind ≢ PolicyKind.NoMemory) × (result ≡ LoadingFault.OfTexts number fault)) }
{
    if fault.kind == PolicyKind::NoMemory {
        return LoadingFault::NoMemory;
    }
    LoadingFault::OfTexts(number, fault)
}
