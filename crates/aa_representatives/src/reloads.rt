//! Requests to be decided by another policy.

ghost use Rattle.std.specs.Prelude.{◌≡◌, ◌<◌, ◌≤◌, ℕ, IfOk, OnOk, Contains};
ghost use Rattle.aa_model.specs.declared.label.Label.{Label};
ghost use Rattle.aa_model.specs.declared.request.Request.{Request};
ghost use Rattle.aa_representatives.specs.Askable.{IsReload};
ghost use Rattle.aa_representatives.specs.Representatives.{AreRepresentatives, Adds};

use aa_compile::Compiled;
use aa_model::Request;
use std::alloc::{AllocError, Global};

/// The highest number of a policy.
pub(crate) const MAX_POLICY: usize = 65535;

/// Adds the requests to be decided by each of the first policies.
pub(crate) fn add_reloads(requests: &mut Vec<Request>, count: usize) -> Result<(), AllocError>
    requires { count ≤ 65536 }
    ensures adds { OnOk result (Adds IsReload requests.old.items requests.new.items) }
    ensures has { OnOk result ((m : ℕ) → m < count → Contains requests.new.items (Request.Reload m)) }
{
    for number in 0..count {
        requests.push(Request::reload(number as u16))?;
    }
    Ok(())
}

/// Requests to be decided by another policy, such that at any label each other gets the reply of one of them: by each policy that
/// is there, and by one that isn't.
pub fn reload_representatives(
    alloc: Global,
    policies: &[Compiled],
) -> Result<Vec<Request>, AllocError>
    ensures { IfOk result (λ rs. (label : Label) → AreRepresentatives policies.now label IsReload rs.items) }
{
    let count = policies.len().min(MAX_POLICY) + 1;
    let mut requests = Vec::new(alloc);
    add_reloads(&mut requests, count)?;
    Ok(requests)
}
