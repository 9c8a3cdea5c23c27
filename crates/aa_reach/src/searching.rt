//! What is found from a label, where clean paths alone count or all.

ghost use Rattle.std.specs.Prelude.{◌≡◌, ◌<◌, ◌≤◌, [], IfOk};
ghost use Rattle.aa_pattern.specs.Limits.{most_states};
ghost use Rattle.aa_reachability.specs.Reach.{AreUntoldFor};
ghost use Rattle.aa_reach.specs.Doubts.{IsBeside};
ghost use Rattle.aa_reach.specs.Routes.{AreFound, IsNearBy};

use crate::beside::Beside;
use aa_model::Label;
use aa_reachability::{Arrival, Course, Reached, Why, arrivals_beside, near_beside};
use aa_representatives::RepresentativesFault;
use std::alloc::{AllocError, Global};

/// The labels that a task can get to by requests that count.
pub(crate) fn reached_from(
    alloc: Global,
    beside: Beside<'_>,
    only_clean: bool,
    limit: usize,
    from: Label,
) -> Result<Reached, AllocError>
    requires some { 0 < limit }
    requires bounded { limit ≤ most_states }
    requires beside { IsBeside beside }
    ensures found { IfOk result (λ r. AreFound only_clean beside.entry.course.going.as_enforced beside.entry.course.going.policies.now beside.entry.skipped.now r.untold.items from r.arrivals.items) }
    ensures untold { IfOk result (λ r. AreUntoldFor only_clean beside.entry.course.going.policies.now limit r.arrivals.items r.untold.items) }
{
    let course = Course {
        going: beside.course.going,
        unreads: beside.course.unreads,
        openings: beside.course.openings,
        only_clean,
    };
    let reached = arrivals_beside(alloc, course, from, limit)?;
    Ok(reached)
}

/// None.
pub(crate) fn none_reached(alloc: Global) -> Reached
    ensures arrivals { result.arrivals.items ≡ [] }
    ensures untold { result.untold.items ≡ [] }
{
    Reached {
        arrivals: Vec::new(alloc),
        untold: Vec::new(alloc),
    }
}

/// The labels to which one request leads, or why that isn't told.
#[derive(Drop)]
pub(crate) enum Near {
    Told(Vec<Arrival>),
    NotTold(Why),
}

/// Those to which one leads that counts.
pub(crate) fn near_from(
    alloc: Global,
    beside: Beside<'_>,
    only_clean: bool,
    limit: usize,
    from: Label,
) -> Result<Near, AllocError>
    requires some { 0 < limit }
    requires bounded { limit ≤ most_states }
    requires beside { IsBeside beside }
    ensures { IfOk result (IsNearBy only_clean beside.entry.course.going.as_enforced beside.entry.course.going.policies.now beside.entry.skipped.now limit from) }
{
    let course = Course {
        going: beside.course.going,
        unreads: beside.course.unreads,
        openings: beside.course.openings,
        only_clean,
    };
    match near_beside(alloc, course, from, limit) {
        Ok(arrivals) => Ok(Near::Told(arrivals)),
        Err(RepresentativesFault::TooManyPatterns) => Ok(Near::NotTold(Why::TooManyPatterns)),
        Err(RepresentativesFault::TooManyStates) => Ok(Near::NotTold(Why::TooManyStates)),
        Err(RepresentativesFault::NoMemory) => Err(AllocError),
    }
}
