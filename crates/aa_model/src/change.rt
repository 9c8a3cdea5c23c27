//! Requests to change the profile.

ghost use Rattle.std.specs.Prelude.{◌≡◌, ◌↔◌, true, false, IfOk, IsErrOf};
ghost use Rattle.aa_model.specs.Requests.{is_wanted_name};

use crate::fault::RequestFault;
use crate::path::holds_zero;
use aa_base::Text;
use std::alloc::{AllocError, Global};
use std::marker::Model;

/// How many bytes a name may have.
const MAX_NAME: usize = 1024;

/// A request to change the profile (aa_change_profile(2)), by the name that is asked for: `unconfined`, or a full profile name.
#[derive(Drop)]
pub struct ChangeRequest {
    name: Text,
}

impl Model for ChangeRequest {
    ghost use Rattle.std.specs.Prelude.{◌≡◌, true, ℕ, List};
    ghost use Rattle.aa_model.specs.Requests.{is_wanted_name};

    ghost Value = { List ℕ };

    ghost view = { λ r. r.name };

    ghost invariant = { λ r. is_wanted_name r.name ≡ true };
}

fn is_good_name(name: &[u8]) -> bool
    ensures { result ≡ is_wanted_name name.now }
{
    !name.is_empty() && !holds_zero(name) && name.len() <= MAX_NAME
}

impl ChangeRequest {
    /// Refused in this order: `BadName`, `NoMemory`.
    pub(crate) fn new(alloc: Global, name: &[u8]) -> Result<ChangeRequest, RequestFault>
        ensures ok { IfOk result (λ r. r ≡ name.now) }
        ensures bad_name { IsErrOf result RequestFault.BadName ↔ (is_wanted_name name.now ≡ false) }
        ensures no_path { IsErrOf result RequestFault.BadPath → ⊥ }
        ensures no_mask { IsErrOf result RequestFault.BadMask → ⊥ }
    {
        if !is_good_name(name) {
            return Err(RequestFault::BadName);
        }
        let Ok(name) = Text::copy_of(alloc, name) else {
            return Err(RequestFault::NoMemory);
        };
        Ok(ChangeRequest { name })
    }

    /// The name that is asked for.
    pub fn name(&self) -> &[u8]
        ensures name { result.now ≡ self.now }
        ensures is_one { is_wanted_name result.now ≡ true }
    {
        self.name.as_slice()
    }

    pub(crate) fn try_clone(&self) -> Result<ChangeRequest, AllocError>
        ensures { IfOk result (λ r. r ≡ self.now) }
    {
        Ok(ChangeRequest {
            name: self.name.try_clone()?,
        })
    }
}
