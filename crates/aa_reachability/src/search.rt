//! The search for all labels that a task can get to, shorter lists of requests first.

ghost use Rattle.std.specs.Prelude.{◌≡◌, ◌+◌, ◌<◌, ◌≤◌, true, Err, IfOk, OnOk, Contains, length};
ghost use Rattle.aa_pattern.specs.Limits.{most_states};
ghost use Rattle.aa_model.specs.declared.request.Request.{Request};
ghost use Rattle.aa_representatives.specs.Askable.{IsAskable};
ghost use Rattle.aa_reachability.specs.Extents.{IsExtent};
ghost use Rattle.aa_reachability.specs.Granted.{AreGranted};
ghost use Rattle.aa_reachability.specs.Order.{IsInOrder};
ghost use Rattle.aa_reachability.specs.Moves.{label_going, label_in, LeadAllBy, HaveManyPatternsAt, HaveManyPatternsFor, HavePlacesAt, HavePlacesFor, IsWhyFor};
ghost use Rattle.aa_reachability.specs.Reach.{IsOpen, AreArrivals, AreUntold, AreUntoldFor, AreNear};
ghost use Rattle.aa_reachability.specs.Beside.{IsSure, LeadAllOn, AreArrivalsBeside, AreNearBeside};
ghost use Rattle.aa_reachability.specs.Course.{label_on, IsSureOn, IsDecidedOn, IsTakenOn, HasOpenings};
ghost use Rattle.aa_reachability.specs.Trail.{arrival_at, IsTrail, IsLevel, Extends, AreFollowedBy, AreFirst, AreFollowed};

use crate::beside::{Course, is_sure};
use crate::codes::MAX_LABELS;
use crate::extent::{Extent, extent_at};
use crate::going::Going;
use crate::moves::{Moves, moves_at};
use crate::reached::{Reached, Untold, Why};
use crate::trail::{Arrival, Trail};
use aa_compile::Compiled;
use aa_model::{Label, Request};
use aa_representatives::RepresentativesFault;
use std::alloc::{AllocError, Global};

/// Requests that lead from a label to each that one request leads to, or why there are none.
fn moves_of(
    alloc: Global,
    course: Course<'_>,
    extent: Extent,
    label: Label,
    limit: usize,
) -> Result<Moves, RepresentativesFault>
    requires some { 0 < limit }
    requires limit { limit ≤ most_states }
    requires extent { IsExtent course.going.policies.now extent }
    ensures lead { IfOk result (λ ms. LeadAllBy course.entry.only_clean course.entry.going label ms.requests.items) }
    ensures ordered { IfOk result (λ ms. IsInOrder ms.requests.items) }
    ensures granted { IfOk result (λ ms. AreGranted course.entry.going.policies.now label ms.are_granted ms.requests.items) }
    ensures many_patterns { result ≡ Err RepresentativesFault.TooManyPatterns → HaveManyPatternsFor course.entry.only_clean course.entry.going.policies.now label }
    ensures few_patterns { IfOk result (λ _. HaveManyPatternsAt course.entry.going.policies.now label → ⊥) }
    ensures many_states { result ≡ Err RepresentativesFault.TooManyStates → HavePlacesFor course.entry.only_clean course.entry.going.policies.now label (limit + 1) }
{
    let policies = course.going.policies;
    let moves = moves_at(alloc, policies, extent, label, course.only_clean, limit)?;
    Ok(moves)
}

/// Goes on from an arrival by each of these requests.
fn follow_each(
    alloc: Global,
    trail: &mut Trail,
    course: Course<'_>,
    from: Label,
    number: usize,
    requests: &[Request],
    are_granted: bool,
    are_sure: bool,
) -> Result<(), AllocError>
    requires trail { IsTrail (label_on course) from trail.old.known.keys trail.old.arrivals.items }
    requires within { number < length trail.old.arrivals.items }
    requires level { IsLevel trail.old.arrivals.items number }
    requires asked { (r : Request) → Contains requests.now r → IsAskable r }
    requires granted { AreGranted course.going.policies.now (arrival_at trail.old.arrivals.items number).label are_granted requests.now }
    requires sure { are_sure ≡ true → (r : Request) → IsDecidedOn course (arrival_at trail.old.arrivals.items number).label r }
    ensures trail { OnOk result (IsTrail (label_on course.entry) from trail.new.known.keys trail.new.arrivals.items) }
    ensures level { OnOk result (IsLevel trail.new.arrivals.items number) }
    ensures extends { OnOk result (Extends number trail.old.arrivals.items trail.new.arrivals.items) }
    ensures followed { OnOk result (AreFollowedBy (label_on course.entry) trail.new.arrivals.items number (λ r. Contains requests.now r)) }
    ensures first { OnOk result (AreFirst (label_on course.entry) (arrival_at trail.old.arrivals.items number).label requests.now (length trail.old.arrivals.items) trail.new.arrivals.items) }
{
    for request in requests {
        trail.follow(alloc, course, from, number, request, are_granted, are_sure)?;
    }
    Ok(())
}

/// Goes on from an arrival by requests that lead to each label to which one request leads.
fn follow_all(
    alloc: Global,
    trail: &mut Trail,
    course: Course<'_>,
    from: Label,
    number: usize,
    requests: &[Request],
    are_granted: bool,
    are_sure: bool,
) -> Result<(), AllocError>
    requires trail { IsTrail (label_on course) from trail.old.known.keys trail.old.arrivals.items }
    requires within { number < length trail.old.arrivals.items }
    requires level { IsLevel trail.old.arrivals.items number }
    requires lead { LeadAllBy course.only_clean course.going (arrival_at trail.old.arrivals.items number).label requests.now }
    requires granted { AreGranted course.going.policies.now (arrival_at trail.old.arrivals.items number).label are_granted requests.now }
    requires sure { are_sure ≡ true → (r : Request) → IsDecidedOn course (arrival_at trail.old.arrivals.items number).label r }
    ensures trail { OnOk result (IsTrail (label_on course.entry) from trail.new.known.keys trail.new.arrivals.items) }
    ensures level { OnOk result (IsLevel trail.new.arrivals.items number) }
    ensures extends { OnOk result (Extends number trail.old.arrivals.items trail.new.arrivals.items) }
    ensures followed { OnOk result (are_sure ≡ true → AreFollowedBy (label_on course.entry) trail.new.arrivals.items number IsAskable) }
    ensures first { OnOk result (AreFirst (label_on course.entry) (arrival_at trail.old.arrivals.items number).label requests.now (length trail.old.arrivals.items) trail.new.arrivals.items) }
{
    follow_each(
        alloc,
        trail,
        course,
        from,
        number,
        requests,
        are_granted,
        are_sure,
    )?;
    Ok(())
}

/// Goes on from the next arrival, or adds why it isn't told where requests lead on from there.
fn follow_next(
    alloc: Global,
    trail: &mut Trail,
    untold: &mut Vec<Untold>,
    course: Course<'_>,
    extent: Extent,
    from: Label,
    number: usize,
    limit: usize,
) -> Result<(), AllocError>
    requires some { 0 < limit }
    requires limit { limit ≤ most_states }
    requires extent { IsExtent course.going.policies.now extent }
    requires openings { HasOpenings course }
    requires trail { IsTrail (label_on course) from trail.old.known.keys trail.old.arrivals.items }
    requires within { number < length trail.old.arrivals.items }
    requires level { IsLevel trail.old.arrivals.items number }
    requires followed { AreFollowed (label_on course) (IsSureOn course) course.only_clean course.going.policies.now limit trail.old.arrivals.items untold.old.items number }
    ensures trail { OnOk result (IsTrail (label_on course.entry) from trail.new.known.keys trail.new.arrivals.items) }
    ensures level { OnOk result (IsLevel trail.new.arrivals.items (number + 1)) }
    ensures followed { OnOk result (AreFollowed (label_on course.entry) (IsSureOn course.entry) course.entry.only_clean course.entry.going.policies.now limit trail.new.arrivals.items untold.new.items (number + 1)) }
{
    let label = trail.arrivals[number].label;
    match moves_of(alloc, course, extent, label, limit) {
        Ok(moves) => {
            let are_sure = is_sure(course, label);
            let requests = moves.requests.as_slice();
            follow_all(
                alloc,
                trail,
                course,
                from,
                number,
                requests,
                moves.are_granted,
                are_sure,
            )?;
            Ok(())
        }
        Err(RepresentativesFault::TooManyPatterns) => {
            let why = Why::TooManyPatterns;
            untold.push(Untold { number, label, why })?;
            Ok(())
        }
        Err(RepresentativesFault::TooManyStates) => {
            let why = Why::TooManyStates;
            untold.push(Untold { number, label, why })?;
            Ok(())
        }
        Err(RepresentativesFault::NoMemory) => Err(AllocError),
    }
}

/// What is found, before it is handed out.
#[derive(Drop)]
struct Found {
    trail: Trail,
    untold: Vec<Untold>,
}

/// The arrivals at all labels to which requests lead.
fn found_from(
    alloc: Global,
    course: Course<'_>,
    from: Label,
    limit: usize,
) -> Result<Found, AllocError>
    requires some { 0 < limit }
    requires limit { limit ≤ most_states }
    requires openings { HasOpenings course }
    ensures trail { IfOk result (λ f. IsTrail (label_on course.entry) from f.trail.known.keys f.trail.arrivals.items) }
    ensures followed { IfOk result (λ f. AreFollowed (label_on course.entry) (IsSureOn course.entry) course.entry.only_clean course.entry.going.policies.now limit f.trail.arrivals.items f.untold.items (length f.trail.arrivals.items)) }
{
    let extent = extent_at(course.going.policies, from);
    let mut trail = Trail::started(alloc, course, from)?;
    let mut untold = Vec::new(alloc);
    for number in 0..MAX_LABELS {
        if number == trail.arrivals.len() {
            return Ok(Found { trail, untold });
        }
        follow_next(
            alloc,
            &mut trail,
            &mut untold,
            course,
            extent,
            from,
            number,
            limit,
        )?;
    }
    Ok(Found { trail, untold })
}

/// The labels that a task can get to from this one by requests that can be asked and that no profile which wasn't read could decide, itself
/// first, each once, with such a list of requests; those with shorter lists first. From labels at which no request may be doubted
/// each request is gone on by, so that no shorter list leads there that leads on from such labels alone. Where the patterns on paths
/// or those on names that decide at a label are too many, or need more than `limit` states, it isn't told where requests lead on. Where
/// clean paths alone count, requests at such are meant, and two patterns more are matched, of which one tells unclean paths.
pub fn arrivals_beside(
    alloc: Global,
    course: Course<'_>,
    from: Label,
    limit: usize,
) -> Result<Reached, AllocError>
    requires some { 0 < limit }
    requires limit { limit ≤ most_states }
    requires openings { HasOpenings course }
    ensures arrivals { IfOk result (λ r. AreArrivalsBeside (label_on course.entry) (IsOpen r.untold.items) (IsSure r.untold.items (IsSureOn course.entry)) (IsTakenOn course.entry) from r.arrivals.items) }
    ensures untold { IfOk result (λ r. AreUntoldFor course.entry.only_clean course.entry.going.policies.now limit r.arrivals.items r.untold.items) }
{
    let found = found_from(alloc, course, from, limit)?;
    Ok(Reached {
        arrivals: found.trail.into_arrivals(),
        untold: found.untold,
    })
}

/// The labels that a task can get to from this one by requests that can be asked, itself first, each once, with a shortest list of
/// requests that lead there; those with shorter lists first. Where the patterns on paths or those on names that decide at one of them
/// are too many, or need more than `limit` states, it isn't told where requests lead on from there: such labels are named, and only
/// lists of requests count that lead on from others.
pub fn arrivals_from(
    alloc: Global,
    going: Going<'_>,
    from: Label,
    limit: usize,
) -> Result<Reached, AllocError>
    requires some { 0 < limit }
    requires limit { limit ≤ most_states }
    ensures arrivals { IfOk result (λ r. AreArrivals (label_going going.entry.as_enforced going.entry.policies.now) (IsOpen r.untold.items) from r.arrivals.items) }
    ensures untold { IfOk result (λ r. AreUntold going.entry.policies.now limit r.arrivals.items r.untold.items) }
{
    let course = Course {
        going,
        unreads: &[],
        openings: &[],
        only_clean: false,
    };
    let reached = arrivals_beside(alloc, course, from, limit)?;
    Ok(reached)
}

/// The labels to which one request leads from this one that can be asked and that no profile which wasn't read could decide, each once,
/// with such a request, and this one itself, first. Where no request may be doubted at this label they are all of them, and none that leads
/// there comes before its request: executions come first, then changes, and shorter paths or names. The errors are
/// `TooManyPatterns` and `TooManyStates`, of the patterns on paths or those on names that decide at this label, and `NoMemory`; an
/// automaton may have at most `limit` states.
pub fn near_beside(
    alloc: Global,
    course: Course<'_>,
    from: Label,
    limit: usize,
) -> Result<Vec<Arrival>, RepresentativesFault>
    requires some { 0 < limit }
    requires limit { limit ≤ most_states }
    requires openings { HasOpenings course }
    ensures near { IfOk result (λ found. AreNearBeside (label_on course.entry) (IsSureOn course.entry) (IsTakenOn course.entry) from found.items) }
    ensures many_patterns { result ≡ Err RepresentativesFault.TooManyPatterns → HaveManyPatternsFor course.entry.only_clean course.entry.going.policies.now from }
    ensures few_patterns { IfOk result (λ _. HaveManyPatternsAt course.entry.going.policies.now from → ⊥) }
    ensures many_states { result ≡ Err RepresentativesFault.TooManyStates → HavePlacesFor course.entry.only_clean course.entry.going.policies.now from (limit + 1) }
{
    let extent = extent_at(course.going.policies, from);
    let moves = moves_of(alloc, course, extent, from, limit)?;
    let are_sure = is_sure(course, from);
    let mut trail = Trail::started(alloc, course, from)?;
    let requests = moves.requests.as_slice();
    let are_granted = moves.are_granted;
    follow_all(
        alloc,
        &mut trail,
        course,
        from,
        0,
        requests,
        are_granted,
        are_sure,
    )?;
    Ok(trail.into_arrivals())
}

/// The labels to which one request that can be asked leads from this one, each once, with the first such request, and this one itself, first.
/// The errors are `TooManyPatterns` and `TooManyStates`, of the patterns on paths or those on names that decide at this label, and
/// `NoMemory`; an automaton may have at most `limit` states.
pub fn near_arrivals(
    alloc: Global,
    going: Going<'_>,
    from: Label,
    limit: usize,
) -> Result<Vec<Arrival>, RepresentativesFault>
    requires some { 0 < limit }
    requires limit { limit ≤ most_states }
    ensures near { IfOk result (λ found. AreNear (label_going going.entry.as_enforced going.entry.policies.now) from found.items) }
    ensures many_patterns { result ≡ Err RepresentativesFault.TooManyPatterns → HaveManyPatternsAt going.entry.policies.now from }
    ensures few_patterns { IfOk result (λ _. HaveManyPatternsAt going.entry.policies.now from → ⊥) }
    ensures many_states { result ≡ Err RepresentativesFault.TooManyStates → HavePlacesAt going.entry.policies.now from (limit + 1) }
{
    let course = Course {
        going,
        unreads: &[],
        openings: &[],
        only_clean: false,
    };
    let near = near_beside(alloc, course, from, limit)?;
    Ok(near)
}
