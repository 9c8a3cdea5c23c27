//! Paths that tasks use.

ghost use Rattle.std.specs.Prelude.{◌≡◌, ◌↔◌, ◌==◌, true, false, IfOk, IsErrOf};
ghost use Rattle.std.specs.List.{list_any};
ghost use Rattle.aa_model.specs.Requests.{begins_with, is_path};

use crate::fault::RequestFault;
use aa_base::Text;
use std::alloc::{AllocError, Global};
use std::marker::Model;

/// How many bytes a path may have.
const MAX_PATH: usize = 4095;

/// The path of a file: it begins with `/`, holds no zero byte, and has at most 4,095 bytes.
#[derive(Drop)]
pub struct FilePath {
    bytes: Text,
}

impl Model for FilePath {
    ghost use Rattle.std.specs.Prelude.{◌≡◌, true, ℕ, List};
    ghost use Rattle.aa_model.specs.Requests.{is_path};

    ghost Value = { List ℕ };

    ghost view = { λ p. p.bytes };

    ghost invariant = { λ p. is_path p.bytes ≡ true };
}

fn begins_with_slash(path: &[u8]) -> bool
    ensures { result ≡ begins_with 47 path.now }
{
    match path {
        [first, ..] => *first == b'/',
        [] => false,
    }
}

/// Whether a text holds a zero byte.
pub(crate) fn holds_zero(text: &[u8]) -> bool
    ensures { result ≡ list_any (λ b. b == 0) text.now }
{
    text.contains(&0)
}

/// Whether it can be a path.
pub(crate) fn is_good_path(path: &[u8]) -> bool
    ensures { result ≡ is_path path.now }
{
    begins_with_slash(path) && !holds_zero(path) && path.len() <= MAX_PATH
}

impl FilePath {
    /// A path of these bytes. Refused in this order: `BadPath`, `NoMemory`.
    pub fn copy_of(alloc: Global, path: &[u8]) -> Result<FilePath, RequestFault>
        ensures ok { IfOk result (λ p. p ≡ path.now) }
        ensures bad_path { IsErrOf result RequestFault.BadPath ↔ (is_path path.now ≡ false) }
        ensures no_mask { IsErrOf result RequestFault.BadMask → ⊥ }
        ensures no_name { IsErrOf result RequestFault.BadName → ⊥ }
    {
        if !is_good_path(path) {
            return Err(RequestFault::BadPath);
        }
        let Ok(bytes) = Text::copy_of(alloc, path) else {
            return Err(RequestFault::NoMemory);
        };
        Ok(FilePath { bytes })
    }

    /// The bytes of the path.
    pub fn as_slice(&self) -> &[u8]
        ensures path { result.now ≡ self.now }
        ensures is_one { is_path result.now ≡ true }
    {
        self.bytes.as_slice()
    }

    /// A copy, in memory of the same allocator.
    pub fn try_clone(&self) -> Result<FilePath, AllocError>
        ensures { IfOk result (λ p. p ≡ self.now) }
    {
        Ok(FilePath {
            bytes: self.bytes.try_clone()?,
        })
    }
}
