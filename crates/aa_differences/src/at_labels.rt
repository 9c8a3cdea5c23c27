//! Differences at two labels.

ghost use Rattle.std.specs.Prelude.{◌≡◌, ◌+◌, ◌<◌, ◌≤◌, true, Err, IfOk, OnOk, Contains};
ghost use Rattle.aa_pattern.specs.Limits.{most_states};
ghost use Rattle.aa_model.specs.declared.request.Request.{Request};
ghost use Rattle.aa_representatives.specs.Askable.{IsAskable};
ghost use Rattle.aa_representatives.specs.Both.{RepresentBoth, HaveManyPatterns};
ghost use Rattle.aa_representatives.specs.Apart.{HaveManyPatternsAnd, HavePlacesAnd};
ghost use Rattle.aa_unclean_paths.specs.Told.{TellsUnclean};
ghost use Rattle.aa_unclean_paths.specs.Requests.{IsAtUncleanPath};
ghost use Rattle.aa_differences.specs.declared.at_labels.Difference.{Difference};
ghost use Rattle.aa_differences.specs.Same.{SameLabel};
ghost use Rattle.aa_differences.specs.Differences.{IsDifference, IsListedAt, ListAllAt, AddsAt, HavePlacesClean};

use crate::answers::{answer_of, same_answer};
use aa_compile::Compiled;
use aa_model::{Answer, Label, Request};
use aa_pattern::Pattern;
use aa_representatives::{
    RepresentativesFault, representatives_of_both, representatives_of_both_and,
};
use aa_unclean_paths::{is_at_unclean_path, unclean_pattern};
use std::alloc::{AllocError, Global};

/// A request that is answered differently at labels that are called the same, and both answers.
#[derive(Drop)]
pub struct Difference {
    pub from: Label,
    pub to: Label,
    pub request: Request,
    pub old: Answer,
    pub new: Answer,
}

/// Adds the difference of a request, where its answers differ.
fn add_difference(
    differences: &mut Vec<Difference>,
    old: &[Compiled],
    from: Label,
    new: &[Compiled],
    to: Label,
    request: &Request,
) -> Result<(), AllocError>
    requires labels { SameLabel old.now new.now from to }
    requires asked { IsAskable request.now }
    ensures { OnOk result (AddsAt old.now new.now from to request.now differences.old.items differences.new.items) }
{
    let before = answer_of(old, from, request);
    let after = answer_of(new, to, request);
    if same_answer(old, before, new, after) {
        return Ok(());
    }
    differences.push(Difference {
        from,
        to,
        request: request.try_clone()?,
        old: before,
        new: after,
    })?;
    Ok(())
}

/// The differences of these requests.
fn differences_of(
    alloc: Global,
    old: &[Compiled],
    from: Label,
    new: &[Compiled],
    to: Label,
    requests: &[Request],
) -> Result<Vec<Difference>, AllocError>
    requires labels { SameLabel old.now new.now from to }
    requires asked { (r : Request) → Contains requests.now r → IsAskable r }
    ensures each { IfOk result (λ ds. (d : Difference) → Contains ds.items d → IsDifference old.now new.now d) }
    ensures all { IfOk result (λ ds. (r : Request) → Contains requests.now r → IsListedAt old.now new.now from to r ds.items) }
{
    let mut differences = Vec::new(alloc);
    for request in requests {
        add_difference(&mut differences, old, from, new, to, request)?;
    }
    Ok(differences)
}

/// Whether all of them are at clean paths.
fn are_clean(differences: &[Difference]) -> bool
    ensures { result ≡ true → (d : Difference) → Contains differences.now d → IsAtUncleanPath d.request → ⊥ }
{
    for difference in differences {
        if is_at_unclean_path(&difference.request) {
            return false;
        }
    }
    true
}

/// The differences of requests that stand for all, those at unclean paths for such alone.
fn differences_apart(
    alloc: Global,
    old: &[Compiled],
    from: Label,
    new: &[Compiled],
    to: Label,
    unclean: &Pattern,
    limit: usize,
) -> Result<Vec<Difference>, RepresentativesFault>
    requires labels { SameLabel old.now new.now from to }
    requires unclean { TellsUnclean unclean.now }
    requires some { 0 < limit }
    requires limit { limit ≤ most_states }
    ensures each { IfOk result (λ ds. (d : Difference) → Contains ds.items d → IsDifference old.now new.now d) }
    ensures all { IfOk result (λ ds. ListAllAt old.now new.now from to ds.items) }
    ensures many_patterns { result ≡ Err RepresentativesFault.TooManyPatterns → HaveManyPatternsAnd old.now from new.now to }
    ensures many_states { result ≡ Err RepresentativesFault.TooManyStates → HavePlacesAnd old.now from new.now to unclean.now (limit + 1) }
{
    let requests = representatives_of_both_and(alloc, old, from, new, to, unclean, limit)?;
    let differences = differences_of(alloc, old, from, new, to, requests.as_slice())?;
    Ok(differences)
}

/// Those of these requests, or, where one of them is at an unclean path, of such as tell unclean paths apart.
fn differences_by(
    alloc: Global,
    old: &[Compiled],
    from: Label,
    new: &[Compiled],
    to: Label,
    requests: &[Request],
    limit: usize,
) -> Result<Vec<Difference>, RepresentativesFault>
    requires labels { SameLabel old.now new.now from to }
    requires requests { RepresentBoth old.now from new.now to requests.now }
    requires some { 0 < limit }
    requires limit { limit ≤ most_states }
    ensures each { IfOk result (λ ds. (d : Difference) → Contains ds.items d → IsDifference old.now new.now d) }
    ensures all { IfOk result (λ ds. ListAllAt old.now new.now from to ds.items) }
    ensures many_patterns { result ≡ Err RepresentativesFault.TooManyPatterns → HaveManyPatternsAnd old.now from new.now to }
    ensures many_states { result ≡ Err RepresentativesFault.TooManyStates → HavePlacesClean old.now from new.now to (limit + 1) }
{
    let differences = differences_of(alloc, old, from, new, to, requests)?;
    if are_clean(differences.as_slice()) {
        return Ok(differences);
    }
    let unclean = unclean_pattern(alloc)?;
    differences_apart(alloc, old, from, new, to, &unclean, limit)
}

/// The requests that are answered differently at two labels that are called the same, finitely many: each other has the answers of
/// one of its kind among them, and one at a clean path has those of one at a clean path. Unclean paths are told apart only where one
/// would be among them. The errors are `TooManyPatterns` and `TooManyStates`, of the patterns on paths of both policies, maybe with one
/// that tells unclean paths, or of those on names, and `NoMemory`; an automaton of the patterns may have at most `limit` states.
pub fn label_differences(
    alloc: Global,
    old: &[Compiled],
    from: Label,
    new: &[Compiled],
    to: Label,
    limit: usize,
) -> Result<Vec<Difference>, RepresentativesFault>
    requires labels { SameLabel old.now new.now from to }
    requires some { 0 < limit }
    requires limit { limit ≤ most_states }
    ensures each { IfOk result (λ ds. (d : Difference) → Contains ds.items d → IsDifference old.now new.now d) }
    ensures all { IfOk result (λ ds. ListAllAt old.now new.now from to ds.items) }
    ensures many_patterns { result ≡ Err RepresentativesFault.TooManyPatterns → HaveManyPatternsAnd old.now from new.now to }
    ensures few_patterns { IfOk result (λ _. HaveManyPatterns old.now from new.now to → ⊥) }
    ensures many_states { result ≡ Err RepresentativesFault.TooManyStates → HavePlacesClean old.now from new.now to (limit + 1) }
{
    let requests = representatives_of_both(alloc, old, from, new, to, limit)?;
    differences_by(alloc, old, from, new, to, requests.as_slice(), limit)
}
