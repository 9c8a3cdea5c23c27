//! The labels that a task can get to, each with the requests that lead there.

ghost use Rattle.std.specs.Prelude.{◌≡◌, ◌++◌, ◌<◌, List, map, option_map, length, reverse, IfOk, IfErr, OnOk};
ghost use Rattle.std.specs.List.{list_any, slice_get};
ghost use Rattle.aa_model.specs.declared.label.Label.{Label};
ghost use Rattle.aa_model.specs.declared.request.Request.{Request};
ghost use Rattle.aa_ask.specs.Told.{is_same};
ghost use Rattle.aa_reachability.specs.Reach.{HaveWays, way_at};
ghost use Rattle.aa_reach.specs.Names.{name_of};
ghost use Rattle.aa_reach.specs.Doubts.{is_reached_by};
ghost use Rattle.aa_reach.specs.Routes.{turned, as_others, is_granted_alike, is_alike, plain, turn_by, turns_by, IsStepWithin, IsLast, AreLasts, LeadThere, routed, is_sought, is_wanted, route_to, route_if, all_routes};

use crate::doubts::is_reached_by;
use crate::naming::{Named, name_of};
use aa_ask::is_same;
use aa_compile::Compiled;
use aa_model::{Answer, Label, Request};
use aa_notation::word_of;
use aa_reachability::{Arrival, Going, Step, answer_of, complains_by, is_by_complain};
use std::alloc::{AllocError, Global};
use std::rc::Rc;

/// A request of a list.
#[derive(Drop)]
pub(crate) struct Turn {
    /// The request as one word, which the lists that go on by it share.
    word: Rc<Vec<u8>, Global>,
    /// Whether it is granted by complain mode alone.
    pub(crate) complains: bool,
}

impl Turn {
    /// The request as one word.
    pub(crate) fn word(&self) -> &[u8]
        ensures { result.now ≡ (turned self.now).word }
    {
        self.word.as_slice()
    }
}

/// A label, and requests that lead there.
#[derive(Drop)]
pub(crate) struct Route {
    pub(crate) to: Named,
    pub(crate) turns: Vec<Turn>,
}

/// To execute a file of others, where it is one of the task's user's; all else as it is.
fn as_others(alloc: Global, request: &Request) -> Result<Request, AllocError>
    ensures { IfOk result (λ r. r ≡ as_others request.now) }
{
    match request {
        Request::Exec(exec) => match Request::exec(alloc, exec.path(), false) {
            Ok(other) => Ok(other),
            Err(_) => Err(AllocError),
        },
        _ => request.try_clone(),
    }
}

fn is_granted_alike(one: &Answer, other: &Answer) -> bool
    ensures { result ≡ is_granted_alike one.now other.now }
{
    if is_by_complain(one) {
        is_by_complain(other)
    } else {
        !is_by_complain(other)
    }
}

/// Whether two answers leave a task with one label, both by complain mode alone or neither.
fn is_alike(one: &Answer, other: &Answer) -> bool
    ensures { result ≡ is_alike one.now other.now }
{
    is_same(one.label, other.label) && is_granted_alike(one, other)
}

/// The request as others own the file, where that is answered alike.
fn plain_exec(
    alloc: Global,
    policies: &[Compiled],
    label: Label,
    request: &Request,
) -> Result<Request, AllocError>
    ensures { IfOk result (λ r. r ≡ plain policies.now label request.now) }
{
    let other = as_others(alloc, request)?;
    let answer = answer_of(policies, label, request);
    if is_alike(&answer_of(policies, label, &other), &answer) {
        Ok(other)
    } else {
        request.try_clone()
    }
}

/// The same; what is no execution is asked as it is.
fn plain_of(
    alloc: Global,
    policies: &[Compiled],
    label: Label,
    request: &Request,
) -> Result<Request, AllocError>
    ensures { IfOk result (λ r. r ≡ plain policies.now label request.now) }
{
    match request {
        Request::Exec(_) => plain_exec(alloc, policies, label, request),
        _ => request.try_clone(),
    }
}

fn turn_of(
    alloc: Global,
    policies: &[Compiled],
    label: Label,
    request: &Request,
) -> Result<Turn, AllocError>
    ensures { IfOk result (λ t. turned t ≡ turn_by policies.now label (plain policies.now label request.now)) }
{
    let request = plain_of(alloc, policies, label, request)?;
    Ok(Turn {
        word: Rc::new(alloc, word_of(alloc, &request)?)?,
        complains: complains_by(policies, label, &request),
    })
}

/// The last request of a list, as it is told, asked where those before it lead; an empty one, where there is none.
fn last_of(
    alloc: Global,
    policies: &[Compiled],
    arrivals: &[Arrival],
    step: &Option<Step>,
) -> Result<Turn, AllocError>
    requires { IsStepWithin (length arrivals.now) step.now }
    ensures { IfOk result (λ t. IsLast policies.now arrivals.now step.now t) }
{
    match step {
        Some(step) => turn_of(alloc, policies, arrivals[step.from].label, &step.request),
        None => Ok(Turn {
            word: Rc::new(alloc, Vec::new(alloc))?,
            complains: false,
        }),
    }
}

/// The last request of the list of each arrival. So each is asked once, in how many lists it may be.
fn lasts_of(
    alloc: Global,
    policies: &[Compiled],
    arrivals: &[Arrival],
) -> Result<Vec<Turn>, AllocError>
    requires { HaveWays arrivals.now }
    ensures { IfOk result (λ lasts. AreLasts policies.now arrivals.now lasts.items) }
{
    let mut lasts = Vec::new(alloc);
    for arrival in arrivals {
        lasts.push(last_of(alloc, policies, arrivals, &arrival.step)?)?;
    }
    Ok(lasts)
}

/// The same request for another list: its word isn't made anew.
fn share_of(turn: &Turn) -> Result<Turn, AllocError>
    ensures { IfOk result (λ t. turned t ≡ turned turn.now) }
{
    Ok(Turn {
        word: turn.word.clone()?,
        complains: turn.complains,
    })
}

/// The requests by which an arrival is got to, as they are told, last first.
fn turns_back(
    alloc: Global,
    going: Going<'_>,
    arrivals: &[Arrival],
    lasts: &[Turn],
    number: usize,
) -> Result<Vec<Turn>, AllocError>
    requires number { number < length arrivals.now }
    requires ways { HaveWays arrivals.now }
    requires lasts { AreLasts going.policies.now arrivals.now lasts.now }
    ensures { IfOk result (λ turns. (from : Label) (ways : List (List Request)) → LeadThere going.entry.as_enforced going.entry.policies.now from arrivals.now ways
        → map turned (reverse turns.items) ≡ turns_by going.entry.as_enforced going.entry.policies.now from (way_at ways number)) }
{
    let mut turns = Vec::with_capacity(alloc, arrivals[number].length)?;
    let mut at = number;
    while let Some(step) = &arrivals[at].step {
        turns.push(share_of(&lasts[at])?)?;
        at = step.from;
    }
    Ok(turns)
}

/// The requests by which an arrival is got to, as they are told.
fn turns_to(
    alloc: Global,
    going: Going<'_>,
    arrivals: &[Arrival],
    lasts: &[Turn],
    number: usize,
) -> Result<Vec<Turn>, AllocError>
    requires number { number < length arrivals.now }
    requires ways { HaveWays arrivals.now }
    requires lasts { AreLasts going.policies.now arrivals.now lasts.now }
    ensures { IfOk result (λ turns. (from : Label) (ways : List (List Request)) → LeadThere going.entry.as_enforced going.entry.policies.now from arrivals.now ways
        → map turned turns.items ≡ turns_by going.entry.as_enforced going.entry.policies.now from (way_at ways number)) }
{
    let mut turns = turns_back(alloc, going, arrivals, lasts, number)?;
    turns.reverse();
    Ok(turns)
}

fn is_among(label: Label, targets: &[Label]) -> bool
    ensures { result ≡ list_any (is_same label) targets.now }
{
    targets.iter().any(|target| is_same(label, *target))
}

/// Whether a label is sought: one of those that are asked for, or where none are, another than that where the task begins.
fn is_sought(from: Label, targets: Option<&[Label]>, label: Label) -> bool
    ensures { result ≡ is_sought from (option_map (λ ts. ts.now) targets.entry) label }
{
    match targets {
        Some(targets) => is_among(label, targets),
        None => !is_same(from, label),
    }
}

/// Whether a label is wanted: it is sought, and none of these arrivals is there.
fn is_wanted(from: Label, targets: Option<&[Label]>, but: &[Arrival], label: Label) -> bool
    ensures { result ≡ is_wanted from (option_map (λ ts. ts.now) targets.entry) but.now label }
{
    is_sought(from, targets, label) && !is_reached_by(but, label)
}

/// Adds the route to the arrival of that number, where its label is wanted.
fn push_route(
    routes: &mut Vec<Route>,
    alloc: Global,
    going: Going<'_>,
    from: Label,
    targets: Option<&[Label]>,
    but: &[Arrival],
    arrivals: &[Arrival],
    lasts: &[Turn],
    number: usize,
) -> Result<(), AllocError>
    requires ways { HaveWays arrivals.now }
    requires lasts { AreLasts going.policies.now arrivals.now lasts.now }
    ensures { OnOk result ((ways : List (List Request)) → LeadThere going.entry.as_enforced going.entry.policies.now from arrivals.now ways
        → map routed routes.new.items ≡ map routed routes.old.items ++ route_if going.entry.as_enforced going.entry.policies.now from (option_map (λ ts. ts.now) targets.entry) but.now (slice_get arrivals.now number) (way_at ways number)) }
{
    let Some(arrival) = arrivals.get(number) else {
        return Ok(());
    };
    if !is_wanted(from, targets, but, arrival.label) {
        return Ok(());
    }
    let to = name_of(alloc, going.policies, arrival.label)?;
    let turns = turns_to(alloc, going, arrivals, lasts, number)?;
    routes.push(Route { to, turns })?;
    Ok(())
}

/// The routes to the arrivals whose labels are wanted, but where others are.
pub(crate) fn routes_to(
    alloc: Global,
    going: Going<'_>,
    from: Label,
    targets: Option<&[Label]>,
    but: &[Arrival],
    arrivals: &[Arrival],
) -> Result<Vec<Route>, AllocError>
    requires { HaveWays arrivals.now }
    ensures { IfOk result (λ routes. (ways : List (List Request)) → LeadThere going.entry.as_enforced going.entry.policies.now from arrivals.now ways
        → map routed routes.items ≡ all_routes going.entry.as_enforced going.entry.policies.now from (option_map (λ ts. ts.now) targets.entry) but.now arrivals.now ways) }
{
    let found = lasts_of(alloc, going.policies, arrivals)?;
    let lasts = found.as_slice();
    let mut routes = Vec::new(alloc);
    for number in 0..arrivals.len() {
        push_route(
            &mut routes,
            alloc,
            going,
            from,
            targets,
            but,
            arrivals,
            lasts,
            number,
        )?;
    }
    Ok(routes)
}
