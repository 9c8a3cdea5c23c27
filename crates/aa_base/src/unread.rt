//! Why a path can't be read.

ghost use Rattle.std.specs.Prelude.{◌≡◌};

use std::alloc::{AllocError, AllocFailed};
use std::io::{self, ErrorKind};

/// Why a path can't be read.
#[derive(Clone, Copy, Debug, PartialEq, Eq)]
pub enum Unread {
    NoMemory,
    NotFound,
    NotAllowed,
    NotAFile,
    Failed,
    TooLarge,
}

impl From<AllocError> for Unread {
    ghost use Rattle.aa_base.specs.declared.unread.Unread.TheVariants.{NoMemory};

    ghost from_gives = { λ _ e. e ≡ NoMemory };

    fn from(_e: AllocError) -> Unread {
        Unread::NoMemory
    }
}

impl<T: Drop> From<AllocFailed<T>> for Unread {
    ghost use Rattle.aa_base.specs.declared.unread.Unread.TheVariants.{NoMemory};

    ghost from_gives = { λ _ e. e ≡ NoMemory };

    fn from(_e: AllocFailed<T>) -> Unread {
        Unread::NoMemory
    }
}

impl From<io::Error> for Unread {
    fn from(e: io::Error) -> Unread {
        match e.kind() {
            ErrorKind::OutOfMemory => Unread::NoMemory,
            ErrorKind::NotFound | ErrorKind::NotADirectory => Unread::NotFound,
            ErrorKind::PermissionDenied => Unread::NotAllowed,
            ErrorKind::IsADirectory => Unread::NotAFile,
            _ => Unread::Failed,
        }
    }
}

impl Unread {
    /// Why, as it is printed behind the sentence.
    pub fn reason(self) -> &'static str {
        match self {
            Unread::NoMemory => "no memory",
            Unread::NotFound => "not found",
            Unread::NotAllowed => "not allowed",
            Unread::NotAFile => "not a file",
            Unread::Failed => "failed",
            Unread::TooLarge => "over 1,048,576 bytes",
        }
    }
}
