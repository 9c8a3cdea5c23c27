//! The paths at which profiles tie, by the parent of these.

ghost use Rattle.std.specs.Prelude.{◌≡◌, ◌<◌, ◌≤◌, ◌+◌, ◌++◌, ◌∷◌, [], ℕ, map, flat_map, length, IfOk, IfErr, OnOk};
ghost use Rattle.std.specs.List.{slice_get};
ghost use Rattle.aa_pattern.specs.Limits.{most_states};
ghost use Rattle.aa_compile.specs.Attached.{numbers_below};
ghost use Rattle.aa_findings.specs.declared.below.Below.{Below};
ghost use Rattle.aa_findings.specs.Places.{lists, list_at};
ghost use Rattle.aa_findings.specs.Below.{parent_at, place_of, row_of_parent, IsBelow, AreBelow, ShowsBelow, ExceedsBelow, AreAttachedIn, AreAttached};

use crate::attached::{Shared, attachments_of, shared_of};
use crate::fault::FindingsFault;
use crate::index::{index_of, list_at};
use crate::rows::regions_by;
use aa_compile::Compiled;
use aa_model::Profile;
use std::alloc::{AllocError, Global};

/// The paths at which several profiles are attached, none more strongly, or why there are none.
#[derive(Drop)]
pub(crate) enum Below {
    Shown(Vec<Shared>),
    Excessive(FindingsFault),
}

/// The paths at which profiles of a policy tie: the top-level ones, and then those below each.
#[derive(Drop)]
pub struct Attached {
    pub(crate) below: Vec<Below>,
}

/// Those of the profiles with these numbers.
fn below_of(
    alloc: Global,
    profiles: &[Profile],
    group: &[usize],
    limit: usize,
) -> Result<Below, AllocError>
    requires few { length profiles.now ≤ 4096 }
    requires some { 0 < limit }
    requires limit { limit ≤ most_states }
    ensures { IfOk result (λ below. IsBelow profiles.now group.now limit below) }
{
    let (patterns, kept) = attachments_of(alloc, profiles, group)?;
    match regions_by(alloc, patterns.as_slice(), limit) {
        Ok(regions) => {
            let shared = shared_of(alloc, kept.as_slice(), regions.as_slice())?;
            Ok(Below::Shown(shared))
        }
        Err(fault) => Ok(Below::Excessive(fault)),
    }
}

/// The place of a parent: none at the start, and then each profile.
fn place_of(parent: Option<u16>) -> usize
    ensures { result ≡ place_of parent }
{
    match parent {
        Some(number) => number as usize + 1,
        None => 0,
    }
}

fn row_of_parent(alloc: Global, profile: &Profile) -> Result<Vec<usize>, AllocError>
    ensures { IfOk result (λ row. row.items ≡ row_of_parent profile.now) }
{
    let mut row = Vec::new(alloc);
    row.push(place_of(profile.parent))?;
    Ok(row)
}

/// For each profile the place of its parent.
fn parents_of(alloc: Global, profiles: &[Profile]) -> Result<Vec<Vec<usize>>, AllocError>
    ensures { IfOk result (λ rows. lists rows.items ≡ map row_of_parent profiles.now) }
{
    let mut rows = Vec::new(alloc);
    for profile in profiles {
        rows.push(row_of_parent(alloc, profile)?)?;
    }
    Ok(rows)
}

/// The numbers of the profiles below each parent.
fn groups_of(alloc: Global, profiles: &[Profile]) -> Result<Vec<Vec<usize>>, AllocError>
    requires { length profiles.now ≤ 4096 }
    ensures many { IfOk result (λ groups. length groups.items ≡ length profiles.now + 1) }
    ensures each { IfOk result (λ groups. (k : ℕ) → k < length profiles.now + 1 → list_at (lists groups.items) k ≡ numbers_below (parent_at k) 0 profiles.now) }
{
    let parents = parents_of(alloc, profiles)?;
    let groups = index_of(alloc, parents.as_slice(), profiles.len() + 1)?;
    Ok(groups)
}

/// Adds those of the profiles with these numbers.
fn push_below(
    all: &mut Vec<Below>,
    alloc: Global,
    profiles: &[Profile],
    group: &[usize],
    limit: usize,
) -> Result<(), AllocError>
    requires few { length profiles.now ≤ 4096 }
    requires some { 0 < limit }
    requires limit { limit ≤ most_states }
    ensures { OnOk result ((b : Below) × IsBelow profiles.now group.now limit b × (all.new.items ≡ all.old.items ++ b ∷ [])) }
{
    all.push(below_of(alloc, profiles, group, limit)?)?;
    Ok(())
}

/// Those of the top-level profiles, and then those of the profiles below each.
fn all_below(alloc: Global, profiles: &[Profile], limit: usize) -> Result<Vec<Below>, AllocError>
    requires few { length profiles.now ≤ 4096 }
    requires some { 0 < limit }
    requires limit { limit ≤ most_states }
    ensures { IfOk result (λ all. AreBelow profiles.now limit (length profiles.now + 1) all.items) }
{
    let groups = groups_of(alloc, profiles)?;
    let mut all = Vec::new(alloc);
    for place in 0..groups.len() {
        push_below(
            &mut all,
            alloc,
            profiles,
            list_at(groups.as_slice(), place),
            limit,
        )?;
    }
    Ok(all)
}

fn below_in(alloc: Global, policies: &[Compiled], limit: usize) -> Result<Vec<Below>, AllocError>
    requires some { 0 < limit }
    requires limit { limit ≤ most_states }
    ensures { IfOk result (λ all. AreAttachedIn (slice_get policies.now 0) limit all.items) }
{
    match policies.get(0) {
        Some(compiled) => all_below(alloc, compiled.policy().profiles.as_slice(), limit),
        None => Ok(Vec::new(alloc)),
    }
}

/// The paths at which profiles of the first of the policies tie, by automata of at most `limit` states. What is found of each profile
/// takes them.
pub fn attached_of(
    alloc: Global,
    policies: &[Compiled],
    limit: usize,
) -> Result<Attached, AllocError>
    requires some { 0 < limit }
    requires limit { limit ≤ most_states }
    ensures { IfOk result (λ a. AreAttached policies.now limit a) }
{
    let below = below_in(alloc, policies, limit)?;
    Ok(Attached { below })
}

/// Those of the profiles below a parent. A parent of which there are none never comes here: it is answered with want of memory, which
/// the contracts leave free.
pub(crate) fn shared_below(below: &[Below], parent: Option<u16>) -> Result<&[Shared], FindingsFault>
    ensures shown { IfOk result (λ shared. ShowsBelow (slice_get below.entry.now (place_of parent)) shared.now) }
    ensures many { IfErr result (λ e. ExceedsBelow (slice_get below.entry.now (place_of parent)) e) }
{
    match below.get(place_of(parent)) {
        Some(Below::Shown(shared)) => Ok(shared.as_slice()),
        Some(Below::Excessive(fault)) => Err(*fault),
        None => Err(FindingsFault::NoMemory),
    }
}
