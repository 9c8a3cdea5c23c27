//! Parts of a word, as they are read.

ghost use Rattle.std.specs.Prelude.{◌≡◌, option_map};
ghost use Rattle.std.specs.Str.{bytes_eq};
ghost use Rattle.aa_notation.specs.Read.{path_in, letter_in, letters_in, fault_of, made_of, Reads};

use crate::digits::from_hex;
use aa_base::Perms;
use aa_model::{Request, RequestFault};
use bitflags::Flags;
use std::alloc::{AllocError, AllocFailed, Global};

/// Why a word is no request.
#[derive(Clone, Copy, Debug, PartialEq, Eq)]
pub enum WordFault {
    NoMemory,
    /// It has none of the forms, or asks for what can't be asked for.
    NoRequest,
}

impl From<AllocError> for WordFault {
    ghost use Rattle.std.specs.Prelude.{◌≡◌};
    ghost use Rattle.aa_notation.specs.declared.read.WordFault.TheVariants.{NoMemory};

    ghost from_gives = { λ _ e. e ≡ NoMemory };

    fn from(_e: AllocError) -> WordFault {
        WordFault::NoMemory
    }
}

impl<T: Drop> From<AllocFailed<T>> for WordFault {
    ghost use Rattle.std.specs.Prelude.{◌≡◌};
    ghost use Rattle.aa_notation.specs.declared.read.WordFault.TheVariants.{NoMemory};

    ghost from_gives = { λ _ e. e ≡ NoMemory };

    fn from(_e: AllocFailed<T>) -> WordFault {
        WordFault::NoMemory
    }
}

/// A path: it begins with `/`, else it stands in upper-case hexadecimal digits.
pub(crate) fn path_of(alloc: Global, text: &[u8]) -> Result<Vec<u8>, WordFault>
    ensures { Reads (λ path. path.items) result (path_in text.now) }
{
    match text {
        [b'/', ..] => Ok(Vec::from_slice(alloc, text)?),
        _ => from_hex(alloc, text),
    }
}

fn letter(b: u8) -> Option<Perms>
    ensures { option_map (λ p. p.0) result ≡ letter_in b }
{
    match b {
        b'r' => Some(Perms::READ),
        b'w' => Some(Perms::WRITE),
        b'a' => Some(Perms::APPEND),
        b'k' => Some(Perms::LOCK),
        b'm' => Some(Perms::MMAP),
        _ => None,
    }
}

/// What letters ask for beside these permissions; none where one of them is no letter of a mask.
pub(crate) fn letters_of(before: Perms, letters: &[u8]) -> Option<Perms>
    ensures { option_map (λ p. p.0) result ≡ letters_in before.0 letters.now }
{
    let mut perms = before;
    for b in letters {
        let Some(bits) = letter(*b) else {
            return None;
        };
        perms.insert(bits);
    }
    Some(perms)
}

fn fault_of(fault: RequestFault) -> WordFault
    ensures { result ≡ fault_of fault }
{
    match fault {
        RequestFault::NoMemory => WordFault::NoMemory,
        RequestFault::BadPath | RequestFault::BadMask | RequestFault::BadName => {
            WordFault::NoRequest
        }
    }
}

/// A request that can't be made is none.
pub(crate) fn made(request: Result<Request, RequestFault>) -> Result<Request, WordFault>
    ensures { result ≡ made_of request }
{
    match request {
        Ok(request) => Ok(request),
        Err(fault) => Err(fault_of(fault)),
    }
}

pub(crate) fn is_word(text: &[u8], wanted: &str) -> bool
    ensures { result ≡ bytes_eq text.now wanted.now }
{
    text == wanted.as_bytes()
}
