//! Lists of requests that lead to labels.

ghost use Rattle.std.specs.Prelude.{◌≡◌, ◌<◌, IfOk, List, length, reverse};
ghost use Rattle.aa_model.specs.declared.request.Request.{Request};
ghost use Rattle.aa_reachability.specs.Reach.{AreWays, HaveWays, way_at};

use crate::trail::Arrival;
use aa_model::Request;
use std::alloc::{AllocError, Global};

/// The requests by which an arrival is got to, last first.
fn way_back(alloc: Global, arrivals: &[Arrival], number: usize) -> Result<Vec<Request>, AllocError>
    requires number { number < length arrivals.now }
    requires ways { HaveWays arrivals.now }
    ensures { IfOk result (λ way. (ways : List (List Request)) → AreWays arrivals.now ways → reverse way.items ≡ way_at ways number) }
{
    let mut way = Vec::new(alloc);
    let mut at = number;
    while let Some(step) = &arrivals[at].step {
        way.push(step.request.try_clone()?)?;
        at = step.from;
    }
    Ok(way)
}

/// The requests by which an arrival is got to, from the label on where the task begins.
pub fn way_to(
    alloc: Global,
    arrivals: &[Arrival],
    number: usize,
) -> Result<Vec<Request>, AllocError>
    requires number { number < length arrivals.now }
    requires ways { HaveWays arrivals.now }
    ensures { IfOk result (λ way. (ways : List (List Request)) → AreWays arrivals.now ways → way.items ≡ way_at ways number) }
{
    let mut way = way_back(alloc, arrivals, number)?;
    way.reverse();
    Ok(way)
}
