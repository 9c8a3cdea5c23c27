//! Requests to execute files.

ghost use Rattle.std.specs.Prelude.{◌≡◌, true, IfOk, OnOk, Contains};
ghost use Rattle.aa_model.specs.Requests.{is_path};
ghost use Rattle.aa_model.specs.declared.request.Request.{Request};
ghost use Rattle.aa_regions.specs.declared.regions.Region.{Region};
ghost use Rattle.aa_regions.specs.Regions.{IsAsked};
ghost use Rattle.aa_representatives.specs.Askable.{IsExec};
ghost use Rattle.aa_representatives.specs.Representatives.{Adds, HasExecs};

use aa_model::Request;
use aa_regions::Region;
use std::alloc::{AllocError, Global};

/// Adds the request to execute a file.
fn add_exec(
    alloc: Global,
    requests: &mut Vec<Request>,
    path: &[u8],
    owned: bool,
) -> Result<(), AllocError>
    requires { IsAsked path.now }
    ensures adds { OnOk result (Adds IsExec requests.old.items requests.new.items) }
    ensures has { OnOk result (Contains requests.new.items (Request.Exec (record { path = path.now; owned = owned }))) }
{
    match Request::exec(alloc, path, owned) {
        Ok(request) => {
            requests.push(request)?;
            Ok(())
        }
        Err(_) => Err(AllocError),
    }
}

/// Adds the requests to execute the file at a path, of the owner and of others.
fn add_execs_at(alloc: Global, requests: &mut Vec<Request>, path: &[u8]) -> Result<(), AllocError>
    requires { IsAsked path.now }
    ensures adds { OnOk result (Adds IsExec requests.old.items requests.new.items) }
    ensures has { OnOk result (HasExecs path.now requests.new.items) }
{
    add_exec(alloc, requests, path, true)?;
    add_exec(alloc, requests, path, false)?;
    Ok(())
}

/// Adds these requests at the path of each region.
pub(crate) fn add_execs(
    alloc: Global,
    requests: &mut Vec<Request>,
    regions: &[Region],
) -> Result<(), AllocError>
    requires { (r : Region) → Contains regions.now r → IsAsked r.witness }
    ensures adds { OnOk result (Adds IsExec requests.old.items requests.new.items) }
    ensures has { OnOk result ((r : Region) → Contains regions.now r → HasExecs r.witness requests.new.items) }
{
    for region in regions {
        add_execs_at(alloc, requests, region.witness.as_slice())?;
    }
    Ok(())
}
