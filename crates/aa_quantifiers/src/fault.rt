//! Why it isn't told how many requests are granted.

use aa_representatives::RepresentativesFault;
use std::alloc::AllocError;

/// Why it isn't told how many of a word's requests are granted.
#[derive(Clone, Copy, Debug, PartialEq, Eq)]
pub enum QuantityFault {
    NoMemory,
    /// More patterns decide at the label, with that of the word, than can be matched together.
    TooManyPatterns,
    /// These patterns need more states than the limit.
    TooManyStates,
    /// No request is asked by the word: its pattern matches no path that can be asked for, or no mask can be.
    NoRequest,
}

impl From<AllocError> for QuantityFault {
    ghost use Rattle.std.specs.Prelude.{◌≡◌};
    ghost use Rattle.aa_quantifiers.specs.declared.fault.QuantityFault.TheVariants.{NoMemory};

    ghost from_gives = { λ _ e. e ≡ NoMemory };

    fn from(_: AllocError) -> Self {
        QuantityFault::NoMemory
    }
}

impl From<RepresentativesFault> for QuantityFault {
    ghost use Rattle.std.specs.Prelude.{◌≡◌};
    ghost use Rattle.aa_quantifiers.specs.Faults.{fault_of};

    ghost from_gives = { λ r e. e ≡ fault_of r };

    fn from(fault: RepresentativesFault) -> Self {
        match fault {
            RepresentativesFault::NoMemory => QuantityFault::NoMemory,
            RepresentativesFault::TooManyPatterns => QuantityFault::TooManyPatterns,
            RepresentativesFault::TooManyStates => QuantityFault::TooManyStates,
        }
    }
}
