//! Requests to execute a file.

ghost use Rattle.std.specs.Prelude.{◌≡◌, ◌↔◌, true, false, IfOk, IsErrOf};
ghost use Rattle.aa_model.specs.Requests.{is_path};

use crate::fault::RequestFault;
use crate::path::FilePath;
use std::alloc::{AllocError, Global};
use std::marker::Model;

/// A request to execute a file. Its path is one.
#[derive(Drop)]
pub struct ExecRequest {
    path: FilePath,
    owned: bool,
}

impl Model for ExecRequest {
    ghost use Rattle.aa_model.specs.Requests.{RequestedExec};

    ghost Value = { RequestedExec };

    ghost view = { λ r. record { path = r.path; owned = r.owned } };
}

impl ExecRequest {
    /// Refused in this order: `BadPath`, `NoMemory`.
    pub(crate) fn new(alloc: Global, path: &[u8], owned: bool) -> Result<ExecRequest, RequestFault>
        ensures ok { IfOk result (λ r. r ≡ record { path = path.now; owned = owned }) }
        ensures bad_path { IsErrOf result RequestFault.BadPath ↔ (is_path path.now ≡ false) }
        ensures no_mask { IsErrOf result RequestFault.BadMask → ⊥ }
        ensures no_name { IsErrOf result RequestFault.BadName → ⊥ }
    {
        let path = FilePath::copy_of(alloc, path)?;
        Ok(ExecRequest { path, owned })
    }

    /// The path of the file.
    pub fn path(&self) -> &[u8]
        ensures path { result.now ≡ self.now.path }
        ensures is_one { is_path result.now ≡ true }
    {
        self.path.as_slice()
    }

    /// Whether the task's user owns the file.
    pub fn owned(&self) -> bool
        ensures { result ≡ self.now.owned }
    {
        self.owned
    }

    pub(crate) fn try_clone(&self) -> Result<ExecRequest, AllocError>
        ensures { IfOk result (λ r. r ≡ self.now) }
    {
        Ok(ExecRequest {
            path: self.path.try_clone()?,
            owned: self.owned,
        })
    }
}
