//! Requests to use a file.

ghost use Rattle.std.specs.Prelude.{◌≡◌, ◌↔◌, true, false, IfOk, IsErrOf};
ghost use Rattle.aa_model.specs.Requests.{is_path, is_mask};

use crate::fault::RequestFault;
use crate::path::{FilePath, is_good_path};
use aa_base::Perms;
use bitflags::Flags;
use std::alloc::{AllocError, Global};
use std::marker::Model;

/// The bits of all permissions.
const MAX_MASK: u8 = 127;

/// A request to use a file. Its path is one, and so is its mask.
#[derive(Drop)]
pub struct FileRequest {
    path: FilePath,
    mask: Perms,
    owned: bool,
}

impl Model for FileRequest {
    ghost use Rattle.std.specs.Prelude.{◌≡◌, true};
    ghost use Rattle.aa_model.specs.Requests.{RequestedFile, is_mask};

    ghost Value = { RequestedFile };

    ghost view = { λ r. record { path = r.path; mask = r.mask; owned = r.owned } };

    ghost invariant = { λ r. is_mask r.mask.0 ≡ true };
}

fn is_good_mask(mask: Perms) -> bool
    ensures { result ≡ is_mask mask.0 }
{
    !mask.is_empty() && !mask.intersects(Perms::LINK.union(Perms::EXEC)) && mask.bits() <= MAX_MASK
}

impl FileRequest {
    /// Refused in this order: `BadPath`, `BadMask`, `NoMemory`.
    pub(crate) fn new(
        alloc: Global,
        path: &[u8],
        mask: Perms,
        owned: bool,
    ) -> Result<FileRequest, RequestFault>
        ensures ok { IfOk result (λ r. r ≡ record { path = path.now; mask = mask; owned = owned }) }
        ensures bad_path { IsErrOf result RequestFault.BadPath ↔ (is_path path.now ≡ false) }
        ensures bad_mask { IsErrOf result RequestFault.BadMask ↔ ((is_path path.now ≡ true) × (is_mask mask.0 ≡ false)) }
        ensures no_name { IsErrOf result RequestFault.BadName → ⊥ }
    {
        if !is_good_mask(mask) && is_good_path(path) {
            return Err(RequestFault::BadMask);
        }
        let path = FilePath::copy_of(alloc, path)?;
        Ok(FileRequest { path, mask, owned })
    }

    /// The path of the file.
    pub fn path(&self) -> &[u8]
        ensures path { result.now ≡ self.now.path }
        ensures is_one { is_path result.now ≡ true }
    {
        self.path.as_slice()
    }

    /// The permissions that are asked for.
    pub fn mask(&self) -> Perms
        ensures mask { result ≡ self.now.mask }
        ensures is_one { is_mask result.0 ≡ true }
    {
        self.mask
    }

    /// Whether the task's user owns the file.
    pub fn owned(&self) -> bool
        ensures { result ≡ self.now.owned }
    {
        self.owned
    }

    pub(crate) fn try_clone(&self) -> Result<FileRequest, AllocError>
        ensures { IfOk result (λ r. r ≡ self.now) }
    {
        Ok(FileRequest {
            path: self.path.try_clone()?,
            mask: self.mask,
            owned: self.owned,
        })
    }
}
