//! What a task asks.

ghost use Rattle.std.specs.Prelude.{◌≡◌, ◌↔◌, ◌&&◌, false, true, Ok, IfOk, IsErrOf};
ghost use Rattle.aa_model.specs.Copies.{holds_text};
ghost use Rattle.aa_model.specs.Requests.{is_path, is_mask, is_wanted_name};

use crate::change::ChangeRequest;
use crate::exec::ExecRequest;
use crate::fault::RequestFault;
use crate::file::FileRequest;
use crate::link::LinkRequest;
use aa_base::{Cap, Family, Perms, SockType};
use std::alloc::{AllocError, Global};

/// What a task asks for.
#[derive(Drop)]
pub enum Request {
    File(FileRequest),
    Link(LinkRequest),
    Exec(ExecRequest),
    Cap(Cap),
    Net(Family, SockType),
    Change(ChangeRequest),
    /// To be decided by the policy of that number from now on.
    Reload(u16),
}

impl Request {
    /// A request to use the file at a path. Refused in this order: `BadPath`, `BadMask`, `NoMemory`.
    pub fn file(
        alloc: Global,
        path: &[u8],
        mask: Perms,
        owned: bool,
    ) -> Result<Request, RequestFault>
        ensures ok { IfOk result (λ r. r ≡ Request.File (record { path = path.now; mask = mask; owned = owned })) }
        ensures bad_path { IsErrOf result RequestFault.BadPath ↔ (is_path path.now ≡ false) }
        ensures bad_mask { IsErrOf result RequestFault.BadMask ↔ ((is_path path.now ≡ true) × (is_mask mask.0 ≡ false)) }
        ensures no_name { IsErrOf result RequestFault.BadName → ⊥ }
    {
        Ok(Request::File(FileRequest::new(alloc, path, mask, owned)?))
    }

    /// A request to make a hard link at a path to the file at another. Refused in this order: `BadPath`, `NoMemory`.
    pub fn link(
        alloc: Global,
        link: &[u8],
        target: &[u8],
        owned: bool,
    ) -> Result<Request, RequestFault>
        ensures ok { IfOk result (λ r. r ≡ Request.Link (record { link = link.now; target = target.now; owned = owned })) }
        ensures bad_path { IsErrOf result RequestFault.BadPath ↔ ((is_path link.now && is_path target.now) ≡ false) }
        ensures no_mask { IsErrOf result RequestFault.BadMask → ⊥ }
        ensures no_name { IsErrOf result RequestFault.BadName → ⊥ }
    {
        Ok(Request::Link(LinkRequest::new(alloc, link, target, owned)?))
    }

    /// A request to execute the file at a path. Refused in this order: `BadPath`, `NoMemory`.
    pub fn exec(alloc: Global, path: &[u8], owned: bool) -> Result<Request, RequestFault>
        ensures ok { IfOk result (λ r. r ≡ Request.Exec (record { path = path.now; owned = owned })) }
        ensures bad_path { IsErrOf result RequestFault.BadPath ↔ (is_path path.now ≡ false) }
        ensures no_mask { IsErrOf result RequestFault.BadMask → ⊥ }
        ensures no_name { IsErrOf result RequestFault.BadName → ⊥ }
    {
        Ok(Request::Exec(ExecRequest::new(alloc, path, owned)?))
    }

    /// A request to use a capability.
    pub fn cap(cap: Cap) -> Request
        ensures { result ≡ Request.Cap cap }
    {
        Request::Cap(cap)
    }

    /// A request to make a socket of a family and a type.
    pub fn net(family: Family, kind: SockType) -> Request
        ensures { result ≡ Request.Net family kind }
    {
        Request::Net(family, kind)
    }

    /// A request to change the profile. Refused in this order: `BadName`, `NoMemory`.
    pub fn change(alloc: Global, name: &[u8]) -> Result<Request, RequestFault>
        ensures ok { IfOk result (λ r. r ≡ Request.Change name.now) }
        ensures bad_name { IsErrOf result RequestFault.BadName ↔ (is_wanted_name name.now ≡ false) }
        ensures no_path { IsErrOf result RequestFault.BadPath → ⊥ }
        ensures no_mask { IsErrOf result RequestFault.BadMask → ⊥ }
    {
        Ok(Request::Change(ChangeRequest::new(alloc, name)?))
    }

    /// A request to be decided by another policy.
    pub fn reload(policy: u16) -> Request
        ensures { result ≡ Request.Reload policy }
    {
        Request::Reload(policy)
    }

    /// The same request again. One without a path and without a name takes no memory.
    pub fn try_clone(&self) -> Result<Request, AllocError>
        ensures same { IfOk result (λ r. r ≡ self.now) }
        ensures never_refused { holds_text self.now ≡ false → result ≡ Ok self.now }
    {
        Ok(match self {
            Request::File(request) => Request::File(request.try_clone()?),
            Request::Link(request) => Request::Link(request.try_clone()?),
            Request::Exec(request) => Request::Exec(request.try_clone()?),
            Request::Cap(cap) => Request::Cap(*cap),
            Request::Net(family, kind) => Request::Net(*family, *kind),
            Request::Change(request) => Request::Change(request.try_clone()?),
            Request::Reload(policy) => Request::Reload(*policy),
        })
    }
}
