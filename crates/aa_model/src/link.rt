//! Requests to make a hard link.

ghost use Rattle.std.specs.Prelude.{◌≡◌, ◌↔◌, ◌&&◌, true, false, IfOk, IsErrOf};
ghost use Rattle.aa_model.specs.Requests.{is_path};

use crate::fault::RequestFault;
use crate::path::{FilePath, is_good_path};
use std::alloc::{AllocError, Global};
use std::marker::Model;

#[derive(Drop)]
struct Paths {
    link: FilePath,
    target: FilePath,
}

/// A request to make a hard link. Both of its paths are paths. They lie apart, so that a request of any kind is as long as one path.
#[derive(Drop)]
pub struct LinkRequest {
    paths: Box<Paths>,
    owned: bool,
}

impl Model for LinkRequest {
    ghost use Rattle.aa_model.specs.Requests.{RequestedLink};

    ghost Value = { RequestedLink };

    ghost view = { λ r. record { link = r.paths.value.link; target = r.paths.value.target; owned = r.owned } };
}

impl LinkRequest {
    /// Refused in this order: `BadPath`, `NoMemory`.
    pub(crate) fn new(
        alloc: Global,
        link: &[u8],
        target: &[u8],
        owned: bool,
    ) -> Result<LinkRequest, RequestFault>
        ensures ok { IfOk result (λ r. r ≡ record { link = link.now; target = target.now; owned = owned }) }
        ensures bad_path { IsErrOf result RequestFault.BadPath ↔ ((is_path link.now && is_path target.now) ≡ false) }
        ensures no_mask { IsErrOf result RequestFault.BadMask → ⊥ }
        ensures no_name { IsErrOf result RequestFault.BadName → ⊥ }
    {
        if !is_good_path(link) || !is_good_path(target) {
            return Err(RequestFault::BadPath);
        }
        let link = FilePath::copy_of(alloc, link)?;
        let target = FilePath::copy_of(alloc, target)?;
        let Ok(paths) = Box::new(alloc, Paths { link, target }) else {
            return Err(RequestFault::NoMemory);
        };
        Ok(LinkRequest { paths, owned })
    }

    /// The path that the link is to have.
    pub fn link(&self) -> &[u8]
        ensures path { result.now ≡ self.now.link }
        ensures is_one { is_path result.now ≡ true }
    {
        self.paths.link.as_slice()
    }

    /// The path of the file that is linked to.
    pub fn target(&self) -> &[u8]
        ensures path { result.now ≡ self.now.target }
        ensures is_one { is_path result.now ≡ true }
    {
        self.paths.target.as_slice()
    }

    /// Whether the task's user owns the file, at both paths.
    pub fn owned(&self) -> bool
        ensures { result ≡ self.now.owned }
    {
        self.owned
    }

    pub(crate) fn try_clone(&self) -> Result<LinkRequest, AllocError>
        ensures { IfOk result (λ r. r ≡ self.now) }
    {
        let paths = Paths {
            link: self.paths.link.try_clone()?,
            target: self.paths.target.try_clone()?,
        };
        Ok(LinkRequest {
            paths: Box::new(*Box::allocator(&self.paths), paths)?,
            owned: self.owned,
        })
    }
}
