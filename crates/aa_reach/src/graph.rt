//! The graph of all labels.

ghost use Rattle.std.specs.Prelude.{◌≡◌, ◌<◌, ◌≤◌, ◌∷◌, [], List, None, false, map, IfOk, if◌then◌else◌};
ghost use Rattle.std.specs.List.{AllZip};
ghost use Rattle.aa_pattern.specs.Limits.{most_states};
ghost use Rattle.aa_model.specs.declared.request.Request.{Request};
ghost use Rattle.aa_reachability.specs.Moves.{HaveManyPatternsAt};
ghost use Rattle.aa_reachability.specs.Reach.{HaveWays};
ghost use Rattle.aa_reach.specs.Names.{name_in, name_of};
ghost use Rattle.aa_reach.specs.Routes.{routed, barred, LeadThere, all_routes, AreFoundNear, AreEdges};
ghost use Rattle.aa_reach.specs.Doubts.{doubted, doubted_at, IsBeside};
ghost use Rattle.aa_reach.specs.Answers.{complains_at, IsVertex, first_labels, all_labels, AreVertices};

use crate::answering::Answer;
use crate::beside::Beside;
use crate::doubts::{Doubt, doubts_at};
use crate::naming::name_of;
use crate::parts::{Told, bar_at, none_told};
use crate::routes::routes_to;
use crate::searching::{Near, near_from};
use aa_command::count_of;
use aa_compile::{Compiled, profile_of};
use aa_model::Label;
use aa_reachability::{Arrival, Going, Why, are_clean};
use std::alloc::{AllocError, Global};

/// A label, and what leads from it to others by one request.
#[derive(Drop)]
pub(crate) struct Vertex {
    /// Whether it is a profile's in complain mode, and that counts.
    pub(crate) complains: bool,
    pub(crate) edges: Answer,
}

fn complains_at(going: Going<'_>, label: Label) -> bool
    ensures { result ≡ complains_at going.entry.as_enforced going.entry.policies.now label }
{
    let Label::Confined(policy, number) = label else {
        return false;
    };
    if going.as_enforced {
        return false;
    }
    match profile_of(going.policies, policy, number) {
        Some(profile) => profile.complain,
        None => false,
    }
}

/// No request, since it isn't told which lead from a label.
fn no_edges(
    alloc: Global,
    policies: &[Compiled],
    label: Label,
    why: Why,
    doubts: Vec<Doubt>,
) -> Result<Answer, AllocError>
    ensures from { IfOk result (λ a. name_in a.from ≡ name_of policies.now label) }
    ensures none { IfOk result (λ a. a.routes.items ≡ []) }
    ensures bars { IfOk result (λ a. map barred a.bars.items ≡ record { at = name_of policies.now label; why = why } ∷ []) }
    ensures doubts { IfOk result (λ a. a.doubts.items ≡ doubts.items) }
    ensures apart { IfOk result (λ a. a.unclean.routes.items ≡ []) }
{
    let from = name_of(alloc, policies, label)?;
    let routes = Vec::new(alloc);
    let unclean = none_told(alloc);
    let mut bars = Vec::new(alloc);
    bars.push(bar_at(alloc, policies, label, why)?)?;
    Ok(Answer {
        from,
        routes,
        bars,
        doubts,
        unclean,
    })
}

/// The request that leads to each of the first labels, and apart those that lead to others alone.
fn edges_to(
    alloc: Global,
    going: Going<'_>,
    label: Label,
    clean: &[Arrival],
    others: &[Arrival],
    doubts: Vec<Doubt>,
) -> Result<Answer, AllocError>
    requires ways { HaveWays clean.now }
    requires others { HaveWays others.now }
    ensures from { IfOk result (λ a. name_in a.from ≡ name_of going.entry.policies.now label) }
    ensures routes { IfOk result (λ a. (ways : List (List Request)) → LeadThere going.entry.as_enforced going.entry.policies.now label clean.now ways
        → map routed a.routes.items ≡ all_routes going.entry.as_enforced going.entry.policies.now label None [] clean.now ways) }
    ensures apart { IfOk result (λ a. (ways : List (List Request)) → LeadThere going.entry.as_enforced going.entry.policies.now label others.now ways
        → map routed a.unclean.routes.items ≡ all_routes going.entry.as_enforced going.entry.policies.now label None clean.now others.now ways) }
    ensures bars { IfOk result (λ a. a.bars.items ≡ []) }
    ensures doubts { IfOk result (λ a. a.doubts.items ≡ doubts.items) }
{
    let routes = routes_to(alloc, going, label, None, &[], clean)?;
    let unclean = Told {
        routes: routes_to(alloc, going, label, None, clean, others)?,
        bars: Vec::new(alloc),
        doubts: Vec::new(alloc),
    };
    let from = name_of(alloc, going.policies, label)?;
    let bars = Vec::new(alloc);
    Ok(Answer {
        from,
        routes,
        bars,
        doubts,
        unclean,
    })
}

/// The arrivals, where unclean paths count; else none.
fn counted(unclean: bool, arrivals: &[Arrival]) -> &[Arrival]
    ensures { result.now ≡ (if unclean then arrivals.now else []) }
{
    if unclean { arrivals } else { &[] }
}

/// Those, where requests at clean paths alone may lead to fewer labels than all, which are these.
fn edges_apart(
    alloc: Global,
    beside: Beside<'_>,
    limit: usize,
    unclean: bool,
    label: Label,
    all: &[Arrival],
    doubts: Vec<Doubt>,
) -> Result<Answer, AllocError>
    requires some { 0 < limit }
    requires bounded { limit ≤ most_states }
    requires beside { IsBeside beside }
    requires found { AreFoundNear false beside.course.going.as_enforced beside.course.going.policies.now beside.skipped.now label all.now }
    requires few { HaveManyPatternsAt beside.course.going.policies.now label → ⊥ }
    ensures from { IfOk result (λ a. name_in a.from ≡ name_of beside.entry.course.going.policies.now label) }
    ensures edges { IfOk result (λ a. AreEdges unclean beside.entry.course.going.as_enforced beside.entry.course.going.policies.now beside.entry.skipped.now limit label (map routed a.routes.items) (map barred a.bars.items) (map routed a.unclean.routes.items)) }
    ensures doubts { IfOk result (λ a. a.doubts.items ≡ doubts.items) }
{
    let going = beside.course.going;
    match near_from(alloc, beside, true, limit, label)? {
        Near::Told(clean) => {
            let others = counted(unclean, all);
            let answer = edges_to(alloc, going, label, clean.as_slice(), others, doubts)?;
            Ok(answer)
        }
        Near::NotTold(why) => no_edges(alloc, going.policies, label, why, doubts),
    }
}

/// Those, apart only where a request at an unclean path is the first that leads to one of the labels, which are these.
fn edges_among(
    alloc: Global,
    beside: Beside<'_>,
    limit: usize,
    unclean: bool,
    label: Label,
    all: &[Arrival],
    doubts: Vec<Doubt>,
) -> Result<Answer, AllocError>
    requires some { 0 < limit }
    requires bounded { limit ≤ most_states }
    requires beside { IsBeside beside }
    requires found { AreFoundNear false beside.course.going.as_enforced beside.course.going.policies.now beside.skipped.now label all.now }
    requires few { HaveManyPatternsAt beside.course.going.policies.now label → ⊥ }
    ensures from { IfOk result (λ a. name_in a.from ≡ name_of beside.entry.course.going.policies.now label) }
    ensures edges { IfOk result (λ a. AreEdges unclean beside.entry.course.going.as_enforced beside.entry.course.going.policies.now beside.entry.skipped.now limit label (map routed a.routes.items) (map barred a.bars.items) (map routed a.unclean.routes.items)) }
    ensures doubts { IfOk result (λ a. a.doubts.items ≡ doubts.items) }
{
    if !are_clean(all) {
        let apart = edges_apart(alloc, beside, limit, unclean, label, all, doubts)?;
        return Ok(apart);
    }
    let answer = edges_to(alloc, beside.course.going, label, all, &[], doubts)?;
    Ok(answer)
}

/// A request that leads to each other label to which one leads, or why that can't be told; with these labels at which something is undecided.
fn edges_by(
    alloc: Global,
    beside: Beside<'_>,
    limit: usize,
    unclean: bool,
    label: Label,
    doubts: Vec<Doubt>,
) -> Result<Answer, AllocError>
    requires some { 0 < limit }
    requires bounded { limit ≤ most_states }
    requires beside { IsBeside beside }
    ensures from { IfOk result (λ a. name_in a.from ≡ name_of beside.entry.course.going.policies.now label) }
    ensures edges { IfOk result (λ a. AreEdges unclean beside.entry.course.going.as_enforced beside.entry.course.going.policies.now beside.entry.skipped.now limit label (map routed a.routes.items) (map barred a.bars.items) (map routed a.unclean.routes.items)) }
    ensures doubts { IfOk result (λ a. a.doubts.items ≡ doubts.items) }
{
    match near_from(alloc, beside, false, limit, label)? {
        Near::Told(all) => {
            let found = all.as_slice();
            let answer = edges_among(alloc, beside, limit, unclean, label, found, doubts)?;
            Ok(answer)
        }
        Near::NotTold(why) => no_edges(alloc, beside.course.going.policies, label, why, doubts),
    }
}

/// The same, with this label where something is undecided there.
fn edges_of(
    alloc: Global,
    beside: Beside<'_>,
    limit: usize,
    unclean: bool,
    label: Label,
) -> Result<Answer, AllocError>
    requires some { 0 < limit }
    requires bounded { limit ≤ most_states }
    requires beside { IsBeside beside }
    ensures from { IfOk result (λ a. name_in a.from ≡ name_of beside.entry.course.going.policies.now label) }
    ensures edges { IfOk result (λ a. AreEdges unclean beside.entry.course.going.as_enforced beside.entry.course.going.policies.now beside.entry.skipped.now limit label (map routed a.routes.items) (map barred a.bars.items) (map routed a.unclean.routes.items)) }
    ensures doubts { IfOk result (λ a. map doubted a.doubts.items ≡ doubted_at beside.entry.course.going.policies.now beside.entry.skipped.now label) }
{
    let doubts = doubts_at(alloc, beside.course.going.policies, beside.skipped, label)?;
    edges_by(alloc, beside, limit, unclean, label, doubts)
}

fn vertex_of(
    alloc: Global,
    beside: Beside<'_>,
    limit: usize,
    unclean: bool,
    label: Label,
) -> Result<Vertex, AllocError>
    requires some { 0 < limit }
    requires bounded { limit ≤ most_states }
    requires beside { IsBeside beside }
    ensures { IfOk result (λ v. IsVertex unclean beside.entry.course.going.as_enforced beside.entry.course.going.policies.now beside.entry.skipped.now limit label v) }
{
    Ok(Vertex {
        complains: complains_at(beside.course.going, label),
        edges: edges_of(alloc, beside, limit, unclean, label)?,
    })
}

/// All labels: of tasks without a profile, and of each profile.
fn all_labels(alloc: Global, policies: &[Compiled]) -> Result<Vec<Label>, AllocError>
    ensures { IfOk result (λ labels. labels.items ≡ all_labels policies.now) }
{
    let mut labels = Vec::new(alloc);
    labels.push(Label::Unconfined(0))?;
    for number in 0..count_of(policies) {
        labels.push(Label::Confined(0, number))?;
    }
    Ok(labels)
}

/// Labels, and what leads from each to others.
fn vertices_at(
    alloc: Global,
    beside: Beside<'_>,
    limit: usize,
    unclean: bool,
    labels: &[Label],
) -> Result<Vec<Vertex>, AllocError>
    requires some { 0 < limit }
    requires bounded { limit ≤ most_states }
    requires beside { IsBeside beside }
    ensures { IfOk result (λ list. AllZip (IsVertex unclean beside.entry.course.going.as_enforced beside.entry.course.going.policies.now beside.entry.skipped.now limit) labels.now list.items) }
{
    let mut vertices = Vec::new(alloc);
    for label in labels {
        vertices.push(vertex_of(alloc, beside, limit, unclean, *label)?)?;
    }
    Ok(vertices)
}

/// All labels, and what leads from each to others.
pub(crate) fn vertices_of(
    alloc: Global,
    beside: Beside<'_>,
    limit: usize,
    unclean: bool,
) -> Result<Vec<Vertex>, AllocError>
    requires some { 0 < limit }
    requires bounded { limit ≤ most_states }
    requires beside { IsBeside beside }
    ensures { IfOk result (λ list. AreVertices unclean beside.entry.course.going.as_enforced beside.entry.course.going.policies.now beside.entry.skipped.now limit list.items) }
{
    let labels = all_labels(alloc, beside.course.going.policies)?;
    vertices_at(alloc, beside, limit, unclean, labels.as_slice())
}
