//! Why a word isn't answered.

use aa_text::NoMemory;
use std::alloc::{AllocError, AllocFailed};

/// Why a word is read as no requests.
#[derive(Drop)]
pub enum Misread {
    NoMemory,
    /// It is no request: why, and the words that may have been meant.
    NoRequest(Vec<u8>),
    /// Its path is no pattern.
    NoPattern,
}

impl From<AllocError> for Misread {
    ghost use Rattle.std.specs.Prelude.{◌≡◌};
    ghost use Rattle.aa_who.specs.declared.fault.Misread.TheVariants as misread;

    ghost from_gives = { λ _ e. e ≡ misread.NoMemory };

    fn from(_e: AllocError) -> Misread {
        Misread::NoMemory
    }
}

/// Why words aren't answered.
#[derive(Drop)]
pub enum WhoFault {
    NoMemory,
    /// What is said of it.
    Refused(Vec<u8>),
}

impl From<AllocError> for WhoFault {
    ghost use Rattle.std.specs.Prelude.{◌≡◌};
    ghost use Rattle.aa_who.specs.declared.fault.WhoFault.TheVariants as fault;

    ghost from_gives = { λ _ e. e ≡ fault.NoMemory };

    fn from(_e: AllocError) -> WhoFault {
        WhoFault::NoMemory
    }
}

impl<T: Drop> From<AllocFailed<T>> for WhoFault {
    ghost use Rattle.std.specs.Prelude.{◌≡◌};
    ghost use Rattle.aa_who.specs.declared.fault.WhoFault.TheVariants as fault;

    ghost from_gives = { λ _ e. e ≡ fault.NoMemory };

    fn from(_e: AllocFailed<T>) -> WhoFault {
        WhoFault::NoMemory
    }
}

impl From<NoMemory> for WhoFault {
    fn from(_e: NoMemory) -> WhoFault {
        WhoFault::NoMemory
    }
}
