//! Whether a task comes to some labels.

ghost use Rattle.std.specs.Prelude.{◌≡◌, ◌≤◌, ◌<◌, ◌++◌, false, IfOk, IfSome, OnOk, codes, decimal, length, position};
ghost use Rattle.aa_pattern.specs.Limits.{most_states};
ghost use Rattle.aa_load.specs.UnitPolicy.{limit_of};
ghost use Rattle.aa_reachability.specs.declared.trail.Arrival.{Arrival};
ghost use Rattle.aa_assert.specs.Passages.{is_elsewhere, do_count, why_text, untold_line, lead_past, IsShortestWay, IsLead, IsPassage};

use aa_ask::is_same;
use aa_compile::Compiled;
use aa_model::{Label, Request};
use aa_quantifiers::Labels;
use aa_reachability::{Arrival, Course, Going, Untold, Why, arrivals_beside, way_to};
use aa_text::{push_number, push_text};
use aa_unclean_paths::does_request_count;
use aa_who::push_asker;
use std::alloc::{AllocError, Global};

/// Whether requests lead to some labels, those at clean paths alone or all.
#[derive(Drop)]
enum Lead {
    /// These do, one after another.
    Through(Vec<Request>),
    Nowhere,
    /// It can't be told, since it isn't told where requests lead on from this label, for this reason.
    Untold(Label, Why),
}

/// Whether a task comes to some labels.
#[derive(Drop)]
pub(crate) enum Passage {
    /// By these requests, one after another.
    Through(Vec<Request>),
    Nowhere,
    /// It can't be told, since it isn't told where requests lead on from this label, for this reason.
    Untold(Label, Why),
    /// By these requests, of which one is at an unclean path. Whether by such at clean paths alone it can't be told, since it isn't told where
    /// they lead on from this label, for this reason.
    CleanUntold(Vec<Request>, Label, Why),
}

/// How many states an automaton may have.
fn limit_of(states: u32) -> usize
    ensures is { result ≡ limit_of states }
    ensures some { 0 < result }
    ensures bounded { result ≤ most_states }
{
    states.max(1).min(1_000_000) as usize
}

/// Whether a label is another than that where the task begins, and one of these.
fn is_elsewhere(labels: &Labels, from: Label, label: Label) -> bool
    ensures { result ≡ is_elsewhere labels.now from label }
{
    !is_same(from, label) && labels.has(label)
}

/// The number of the first arrival at one of these labels.
fn first_elsewhere(arrivals: &[Arrival], labels: &Labels, from: Label) -> Option<usize>
    ensures found { result ≡ position (λ (a : Arrival). is_elsewhere labels.now from a.label) arrivals.now }
    ensures within { IfSome result (λ n. n < length arrivals.now) }
{
    arrivals
        .iter()
        .position(|arrival| is_elsewhere(labels, from, arrival.label))
}

/// Appends that more states are needed than there may be.
fn push_states(out: &mut Vec<u8>, limit: usize) -> Result<(), AllocError>
    ensures { OnOk result (out.new.items ≡ out.old.items ++ codes "need more than " ++ decimal limit ++ codes " states together; --states allows more\n") }
{
    push_text(out, "need more than ")?;
    push_number(out, limit)?;
    push_text(out, " states together; --states allows more\n")
}

fn push_why(out: &mut Vec<u8>, limit: usize, why: Why) -> Result<(), AllocError>
    ensures { OnOk result (out.new.items ≡ out.old.items ++ why_text limit why) }
{
    match why {
        Why::TooManyPatterns => push_text(out, "have more than 65535 patterns together\n"),
        Why::TooManyStates => push_states(out, limit),
    }
}

/// At which label it isn't told where requests lead on, and why.
pub(crate) fn untold_line(
    alloc: Global,
    policies: &[Compiled],
    states: u32,
    at: Label,
    why: Why,
) -> Result<Vec<u8>, AllocError>
    ensures { IfOk result (λ line. line.items ≡ untold_line policies.now (limit_of states) at why) }
{
    let mut line = Vec::new(alloc);
    push_text(&mut line, "error: at ")?;
    push_asker(&mut line, alloc, policies, at)?;
    push_text(&mut line, " the rules ")?;
    push_why(&mut line, limit_of(states), why)?;
    Ok(line)
}

/// By no list of requests that is known of; or that isn't known, where it isn't told of a label where requests lead on.
fn lead_past(untold: &[Untold]) -> Lead
    ensures { result ≡ lead_past untold.now }
{
    match untold {
        [] => Lead::Nowhere,
        [one, ..] => Lead::Untold(one.label, one.why),
    }
}

/// Whether each of the requests counts: it is at a clean path, or unclean ones count as others.
pub(crate) fn do_count(unclean: bool, requests: &[Request]) -> bool
    ensures { result ≡ do_count unclean requests.now }
{
    requests
        .iter()
        .all(|request| does_request_count(unclean, request))
}

/// Whether executions and changes lead a task with that label to one of these labels, where rules are enforced: such at clean paths alone, or
/// all.
fn lead_to(
    alloc: Global,
    policies: &[Compiled],
    limit: usize,
    only_clean: bool,
    from: Label,
    labels: &Labels,
) -> Result<Lead, AllocError>
    requires some { 0 < limit }
    requires bounded { limit ≤ most_states }
    ensures { IfOk result (λ lead. IsLead only_clean policies.now limit from labels.now lead) }
{
    let going = Going {
        policies,
        as_enforced: true,
    };
    let course = Course {
        going,
        unreads: &[],
        openings: &[],
        only_clean,
    };
    let found = arrivals_beside(alloc, course, from, limit)?;
    let arrivals = found.arrivals.as_slice();
    match first_elsewhere(arrivals, labels, from) {
        Some(number) => Ok(Lead::Through(way_to(alloc, arrivals, number)?)),
        None => Ok(lead_past(found.untold.as_slice())),
    }
}

/// The first list of requests that leads to one of these labels, where this is a shortest: one at clean paths, if there is any. Where that
/// can't be told, it is this one.
fn first_through(
    alloc: Global,
    policies: &[Compiled],
    limit: usize,
    from: Label,
    labels: &Labels,
    way: Vec<Request>,
) -> Result<Passage, AllocError>
    requires some { 0 < limit }
    requires bounded { limit ≤ most_states }
    requires shortest { IsShortestWay false policies.now limit from labels.now way.items }
    ensures { IfOk result (λ p. IsPassage policies.now limit from labels.now p) }
{
    if do_count(false, way.as_slice()) {
        return Ok(Passage::Through(way));
    }
    match lead_to(alloc, policies, limit, true, from, labels)? {
        Lead::Through(clean) => Ok(Passage::Through(clean)),
        Lead::Nowhere => Ok(Passage::Through(way)),
        Lead::Untold(at, why) => Ok(Passage::CleanUntold(way, at, why)),
    }
}

/// Whether a task with that label comes to one of these labels by executions and changes, where rules are enforced. Clean paths are looked at
/// alone only where a shortest list of requests has an unclean one.
pub(crate) fn passage_of(
    alloc: Global,
    policies: &[Compiled],
    states: u32,
    from: Label,
    labels: &Labels,
) -> Result<Passage, AllocError>
    ensures { IfOk result (λ p. IsPassage policies.now (limit_of states) from labels.now p) }
{
    let limit = limit_of(states);
    match lead_to(alloc, policies, limit, false, from, labels)? {
        Lead::Through(way) => first_through(alloc, policies, limit, from, labels, way),
        Lead::Nowhere => Ok(Passage::Nowhere),
        Lead::Untold(at, why) => Ok(Passage::Untold(at, why)),
    }
}
