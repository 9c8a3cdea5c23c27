//! Requests to use files.

ghost use Rattle.std.specs.Prelude.{◌≡◌, ◌<◌, ◌≤◌, true, Some, None, IfOk, OnOk, Contains, if◌then◌else◌};
ghost use Rattle.aa_model.specs.Requests.{is_path, is_mask};
ghost use Rattle.aa_model.specs.declared.request.Request.{Request};
ghost use Rattle.aa_regions.specs.declared.regions.Region.{Region};
ghost use Rattle.aa_regions.specs.Regions.{IsAsked};
ghost use Rattle.aa_compile.specs.Said.{perms_of};
ghost use Rattle.aa_representatives.specs.Askable.{IsFile};
ghost use Rattle.aa_representatives.specs.Representatives.{Adds, HasFiles};

use aa_base::Perms;
use aa_model::{Request, RequestFault};
use aa_regions::Region;
use std::alloc::{AllocError, Global};

/// The request to use a file, where the permissions can be asked for.
fn file_if(
    alloc: Global,
    path: &[u8],
    mask: Perms,
    owned: bool,
) -> Result<Option<Request>, AllocError>
    requires { is_path path.now ≡ true }
    ensures { IfOk result (λ o. o ≡ (if is_mask mask.0 then Some (Request.File (record { path = path.now; mask = mask; owned = owned })) else None)) }
{
    match Request::file(alloc, path, mask, owned) {
        Ok(request) => Ok(Some(request)),
        Err(RequestFault::BadMask) => Ok(None),
        Err(_) => Err(AllocError),
    }
}

/// Adds the request to use a file, where the permissions can be asked for.
fn add_file(
    alloc: Global,
    requests: &mut Vec<Request>,
    path: &[u8],
    mask: Perms,
    owned: bool,
) -> Result<(), AllocError>
    requires { IsAsked path.now }
    ensures adds { OnOk result (Adds IsFile requests.old.items requests.new.items) }
    ensures has { OnOk result (is_mask mask.0 ≡ true → Contains requests.new.items (Request.File (record { path = path.now; mask = mask; owned = owned }))) }
{
    if let Some(request) = file_if(alloc, path, mask, owned)? {
        requests.push(request)?;
    }
    Ok(())
}

/// Adds the requests to use the file at a path by each mask, of the owner and of others.
fn add_files_at(alloc: Global, requests: &mut Vec<Request>, path: &[u8]) -> Result<(), AllocError>
    requires { IsAsked path.now }
    ensures adds { OnOk result (Adds IsFile requests.old.items requests.new.items) }
    ensures has { OnOk result (HasFiles path.now 128 requests.new.items) }
{
    for bits in 0..128 {
        add_file(alloc, requests, path, Perms(bits), true)?;
        add_file(alloc, requests, path, Perms(bits), false)?;
    }
    Ok(())
}

/// Adds these requests at the path of each region.
pub(crate) fn add_files(
    alloc: Global,
    requests: &mut Vec<Request>,
    regions: &[Region],
) -> Result<(), AllocError>
    requires { (r : Region) → Contains regions.now r → IsAsked r.witness }
    ensures adds { OnOk result (Adds IsFile requests.old.items requests.new.items) }
    ensures has { OnOk result ((r : Region) → Contains regions.now r → HasFiles r.witness 128 requests.new.items) }
{
    for region in regions {
        add_files_at(alloc, requests, region.witness.as_slice())?;
    }
    Ok(())
}
