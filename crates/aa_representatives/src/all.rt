//! Requests that stand for all others.

ghost use Rattle.std.specs.Prelude.{◌≡◌, ◌+◌, ◌<◌, ◌≤◌, [], Err, IfOk};
ghost use Rattle.aa_pattern.specs.Limits.{most_states};
ghost use Rattle.aa_model.specs.declared.label.Label.{Label};
ghost use Rattle.aa_representatives.specs.Apart.{RepresentApart, HaveManyPatternsAnd, HavePlacesAnd};
ghost use Rattle.aa_representatives.specs.Both.{RepresentBoth, Represent, HaveManyPatterns, HavePlaces};

use crate::both::{at_names, at_paths, at_paths_and, by_numbers};
use crate::fault::RepresentativesFault;
use aa_compile::Compiled;
use aa_model::{Label, Request};
use aa_pattern::Pattern;
use std::alloc::Global;

/// Requests such that each other that can be asked is answered as one of its kind among them, at each of two labels, each of
/// policies of its own. The errors are `TooManyPatterns` and `TooManyStates`, of the patterns on paths of both or of those on names, and `NoMemory`.
pub fn representatives_of_both(
    alloc: Global,
    one: &[Compiled],
    from: Label,
    other: &[Compiled],
    to: Label,
    limit: usize,
) -> Result<Vec<Request>, RepresentativesFault>
    requires some { 0 < limit }
    requires limit { limit ≤ most_states }
    ensures representatives { IfOk result (λ rs. RepresentBoth one.now from other.now to rs.items) }
    ensures many_patterns { result ≡ Err RepresentativesFault.TooManyPatterns → HaveManyPatterns one.now from other.now to }
    ensures few_patterns { IfOk result (λ _. HaveManyPatterns one.now from other.now to → ⊥) }
    ensures many_states { result ≡ Err RepresentativesFault.TooManyStates → HavePlaces one.now from other.now to (limit + 1) }
{
    let mut requests = at_paths(alloc, one, from, other, to, limit)?;
    let mut changes = at_names(alloc, one, from, other, to, limit)?;
    let mut others = by_numbers(alloc, one, other)?;
    requests.append(&mut changes)?;
    requests.append(&mut others)?;
    Ok(requests)
}

/// The same, where of a request that stands for another one more pattern matches a path only where it matches one of the other's. The
/// errors are those of the patterns with this one.
pub fn representatives_of_both_and(
    alloc: Global,
    one: &[Compiled],
    from: Label,
    other: &[Compiled],
    to: Label,
    pattern: &Pattern,
    limit: usize,
) -> Result<Vec<Request>, RepresentativesFault>
    requires some { 0 < limit }
    requires limit { limit ≤ most_states }
    ensures representatives { IfOk result (λ rs. RepresentApart one.now from other.now to pattern.now rs.items) }
    ensures many_patterns { result ≡ Err RepresentativesFault.TooManyPatterns → HaveManyPatternsAnd one.now from other.now to }
    ensures few_patterns { IfOk result (λ _. HaveManyPatterns one.now from other.now to → ⊥) }
    ensures many_states { result ≡ Err RepresentativesFault.TooManyStates → HavePlacesAnd one.now from other.now to pattern.now (limit + 1) }
{
    let mut requests = at_paths_and(alloc, one, from, other, to, pattern, limit)?;
    let mut names = at_names(alloc, one, from, other, to, limit)?;
    let mut numbers = by_numbers(alloc, one, other)?;
    requests.append(&mut names)?;
    requests.append(&mut numbers)?;
    Ok(requests)
}

/// Requests such that each other that can be asked at the label is answered as one of its kind among them. The errors are as above.
pub fn representatives(
    alloc: Global,
    policies: &[Compiled],
    label: Label,
    limit: usize,
) -> Result<Vec<Request>, RepresentativesFault>
    requires some { 0 < limit }
    requires limit { limit ≤ most_states }
    ensures representatives { IfOk result (λ rs. Represent policies.now label rs.items) }
    ensures many_patterns { result ≡ Err RepresentativesFault.TooManyPatterns → HaveManyPatterns policies.now label [] (Label.Unconfined 0) }
    ensures few_patterns { IfOk result (λ _. HaveManyPatterns policies.now label [] (Label.Unconfined 0) → ⊥) }
    ensures many_states { result ≡ Err RepresentativesFault.TooManyStates → HavePlaces policies.now label [] (Label.Unconfined 0) (limit + 1) }
{
    representatives_of_both(alloc, policies, label, &[], Label::Unconfined(0), limit)
}
