//! Requests that lead to each label to which one request leads.

ghost use Rattle.std.specs.Prelude.{◌≡◌, ◌+◌, ◌<◌, ◌≤◌, Err, IfOk};
ghost use Rattle.aa_pattern.specs.Limits.{most_states};
ghost use Rattle.aa_reachability.specs.Extents.{IsExtent};
ghost use Rattle.aa_reachability.specs.Granted.{AreGranted};
ghost use Rattle.aa_reachability.specs.Order.{IsInOrder};
ghost use Rattle.aa_reachability.specs.Moves.{LeadAll, HaveManyPatternsAt, HaveManyPatternsFor, HavePlacesFor};

use crate::changes::{Changes, changes_at};
use crate::execs::execs_at;
use crate::extent::Extent;
use crate::order::in_order;
use aa_compile::Compiled;
use aa_model::{Label, Request};
use aa_representatives::{RepresentativesFault, reload_representatives};
use std::alloc::Global;

/// Requests, and whether rules are known to grant each change of profile among them.
#[derive(Drop)]
pub(crate) struct Moves {
    pub(crate) requests: Vec<Request>,
    pub(crate) are_granted: bool,
}

/// Requests that can be asked, such that to each label to which some request leads, one of them does that comes no later, but for the label
/// itself: executions first, then changes, those with shorter paths or names before others. Where clean paths alone count, so of requests at such. The errors are `TooManyPatterns`, `TooManyStates` and `NoMemory`.
pub(crate) fn moves_at(
    alloc: Global,
    policies: &[Compiled],
    extent: Extent,
    label: Label,
    only_clean: bool,
    limit: usize,
) -> Result<Moves, RepresentativesFault>
    requires some { 0 < limit }
    requires limit { limit ≤ most_states }
    requires extent { IsExtent policies.now extent }
    ensures lead { IfOk result (λ ms. LeadAll only_clean policies.now label ms.requests.items) }
    ensures ordered { IfOk result (λ ms. IsInOrder ms.requests.items) }
    ensures granted { IfOk result (λ ms. AreGranted policies.now label ms.are_granted ms.requests.items) }
    ensures many_patterns { result ≡ Err RepresentativesFault.TooManyPatterns → HaveManyPatternsFor only_clean policies.now label }
    ensures few_patterns { IfOk result (λ _. HaveManyPatternsAt policies.now label → ⊥) }
    ensures many_states { result ≡ Err RepresentativesFault.TooManyStates → HavePlacesFor only_clean policies.now label (limit + 1) }
{
    let execs = execs_at(alloc, policies, extent, label, only_clean, limit)?;
    let found = changes_at(alloc, policies, label)?;
    let Changes {
        requests: changes,
        are_granted,
    } = found;
    let mut requests = in_order(execs)?;
    let mut changes = in_order(changes)?;
    let mut reloads = reload_representatives(alloc, policies)?;
    requests.append(&mut changes)?;
    requests.append(&mut reloads)?;
    Ok(Moves {
        requests,
        are_granted,
    })
}
