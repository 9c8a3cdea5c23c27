//! The regions of the paths that are answered alike at a label.

ghost use Rattle.std.specs.Prelude.{◌≡◌, ◌+◌, ◌<◌, ◌≤◌, ◌++◌, ◌∷◌, [], Err, IfOk, length};
ghost use Rattle.aa_pattern.specs.Limits.{most_patterns, most_states};
ghost use Rattle.aa_auto.specs.Tables.{HasPlaces};
ghost use Rattle.aa_regions.specs.Regions.{ArePathRegions};
ghost use Rattle.aa_regions.specs.Automata.{ArePathRegionsWithin};
ghost use Rattle.std.specs.List.{slice_get};
ghost use Rattle.aa_representatives.specs.Alike.{deciding, filing, filing_at};
ghost use Rattle.aa_representatives.specs.Both.{deciding_both, filing_both};

use crate::automata::{
    deciding_automaton, deciding_count, has_profile, regions_of_one, regions_within,
};
use crate::fault::RepresentativesFault;
use crate::more::{
    automaton_of_both_and, deciding_automaton_and, filing_automaton_and, filing_automaton_of_both,
    filing_automaton_of_both_and, filing_count,
};
use aa_auto::{Automaton, BuildFault};
use aa_compile::Compiled;
use aa_model::Label;
use aa_pattern::Pattern;
use aa_regions::{Region, path_regions_of};
use std::alloc::Global;

/// How many patterns are matched together, at most.
pub(crate) const MAX_PATTERNS: usize = 65535;

/// The regions of the paths that can be asked for, by the patterns that decide at the label: of the file rules of its profile, of
/// the attachments of the top-level profiles and of its children, in this order. Paths of one region are answered alike. The
/// errors are `TooManyPatterns`, `TooManyStates` and `NoMemory`; an automaton of the patterns may have at most `limit` states.
pub fn deciding_regions(
    alloc: Global,
    policies: &[Compiled],
    label: Label,
    limit: usize,
) -> Result<Vec<Region>, RepresentativesFault>
    requires some { 0 < limit }
    requires limit { limit ≤ most_states }
    ensures regions { IfOk result (λ rs. ArePathRegions (deciding policies.now label) rs.items) }
    ensures many_patterns { result ≡ Err RepresentativesFault.TooManyPatterns → most_patterns < length (deciding policies.now label) }
    ensures few_patterns { IfOk result (λ _. length (deciding policies.now label) ≤ most_patterns) }
    ensures many_states { result ≡ Err RepresentativesFault.TooManyStates → HasPlaces (deciding policies.now label) (limit + 1) }
    ensures few_states { IfOk result (λ _. HasPlaces (deciding policies.now label) (limit + 1) → ⊥) }
{
    if deciding_count(policies, label) > MAX_PATTERNS {
        return Err(RepresentativesFault::TooManyPatterns);
    }
    let automaton = deciding_automaton(alloc, policies, label, limit)?;
    let regions = path_regions_of(alloc, &automaton)?;
    Ok(regions)
}

/// The same by the patterns that decide at one of two labels, each in policies of its own. Paths of one region are answered alike
/// at each of the labels.
pub(crate) fn deciding_regions_of_both(
    alloc: Global,
    one: &[Compiled],
    from: Label,
    other: &[Compiled],
    to: Label,
    limit: usize,
) -> Result<Vec<Region>, RepresentativesFault>
    requires some { 0 < limit }
    requires limit { limit ≤ most_states }
    ensures regions { IfOk result (λ rs. ArePathRegions (deciding_both one.now from other.now to) rs.items) }
    ensures many_patterns { result ≡ Err RepresentativesFault.TooManyPatterns → most_patterns < length (deciding_both one.now from other.now to) }
    ensures few_patterns { IfOk result (λ _. length (deciding_both one.now from other.now to) ≤ most_patterns) }
    ensures many_states { result ≡ Err RepresentativesFault.TooManyStates → HasPlaces (deciding_both one.now from other.now to) (limit + 1) }
    ensures few_states { IfOk result (λ _. HasPlaces (deciding_both one.now from other.now to) (limit + 1) → ⊥) }
{
    let count = deciding_count(one, from);
    let more = deciding_count(other, to);
    if count.saturating_add(more) > MAX_PATTERNS {
        return Err(RepresentativesFault::TooManyPatterns);
    }
    let before = deciding_automaton(alloc, one, from, limit)?;
    let after = deciding_automaton(alloc, other, to, limit)?;
    let both = Automaton::beside(alloc, &before, count as u16, &after, limit)?;
    let regions = path_regions_of(alloc, &both)?;
    Ok(regions)
}

/// The regions of the paths that the pattern matches by the patterns of the file rules of a profile that is there and this one.
fn filing_within_this(
    alloc: Global,
    compiled: &Compiled,
    number: u16,
    pattern: &Pattern,
    limit: usize,
) -> Result<Vec<Region>, RepresentativesFault>
    requires some { 0 < limit }
    requires limit { limit ≤ most_states }
    requires there { number < length compiled.now.profiles }
    ensures regions { IfOk result (λ rs. ArePathRegionsWithin (filing_at (slice_get compiled.now.profiles number)) pattern.now rs.items) }
    ensures many_patterns { result ≡ Err RepresentativesFault.TooManyPatterns → most_patterns < length (filing_at (slice_get compiled.now.profiles number) ++ pattern.now ∷ []) }
    ensures few_patterns { IfOk result (λ _. length (filing_at (slice_get compiled.now.profiles number) ++ pattern.now ∷ []) ≤ most_patterns) }
    ensures many_states { result ≡ Err RepresentativesFault.TooManyStates → HasPlaces (filing_at (slice_get compiled.now.profiles number) ++ pattern.now ∷ []) (limit + 1) }
    ensures few_states { IfOk result (λ _. HasPlaces (filing_at (slice_get compiled.now.profiles number) ++ pattern.now ∷ []) (limit + 1) → ⊥) }
{
    let count = compiled.file_patterns(number);
    if count >= MAX_PATTERNS {
        return Err(RepresentativesFault::TooManyPatterns);
    }
    let automaton = compiled.file_automaton(number);
    let regions = regions_within(alloc, automaton, count, pattern, limit)?;
    Ok(regions)
}

/// The same; by this one alone where the profile isn't there.
fn filing_within(
    alloc: Global,
    compiled: &Compiled,
    number: u16,
    pattern: &Pattern,
    limit: usize,
) -> Result<Vec<Region>, RepresentativesFault>
    requires some { 0 < limit }
    requires limit { limit ≤ most_states }
    ensures regions { IfOk result (λ rs. ArePathRegionsWithin (filing_at (slice_get compiled.now.profiles number)) pattern.now rs.items) }
    ensures many_patterns { result ≡ Err RepresentativesFault.TooManyPatterns → most_patterns < length (filing_at (slice_get compiled.now.profiles number) ++ pattern.now ∷ []) }
    ensures few_patterns { IfOk result (λ _. length (filing_at (slice_get compiled.now.profiles number) ++ pattern.now ∷ []) ≤ most_patterns) }
    ensures many_states { result ≡ Err RepresentativesFault.TooManyStates → HasPlaces (filing_at (slice_get compiled.now.profiles number) ++ pattern.now ∷ []) (limit + 1) }
    ensures few_states { IfOk result (λ _. HasPlaces (filing_at (slice_get compiled.now.profiles number) ++ pattern.now ∷ []) (limit + 1) → ⊥) }
{
    if has_profile(compiled, number) {
        return filing_within_this(alloc, compiled, number, pattern, limit);
    }
    let regions = regions_of_one(alloc, pattern, limit)?;
    Ok(regions)
}

/// The regions of the paths that the pattern matches by the patterns of the file rules of the label's profile and this one, and some of
/// other paths.
// Far fewer texts are looked at than for all regions, where the pattern matches few.
pub fn filing_regions_within(
    alloc: Global,
    policies: &[Compiled],
    label: Label,
    pattern: &Pattern,
    limit: usize,
) -> Result<Vec<Region>, RepresentativesFault>
    requires some { 0 < limit }
    requires limit { limit ≤ most_states }
    ensures regions { IfOk result (λ rs. ArePathRegionsWithin (filing policies.now label) pattern.now rs.items) }
    ensures many_patterns { result ≡ Err RepresentativesFault.TooManyPatterns → most_patterns < length (filing policies.now label ++ pattern.now ∷ []) }
    ensures few_patterns { IfOk result (λ _. length (filing policies.now label ++ pattern.now ∷ []) ≤ most_patterns) }
    ensures many_states { result ≡ Err RepresentativesFault.TooManyStates → HasPlaces (filing policies.now label ++ pattern.now ∷ []) (limit + 1) }
    ensures few_states { IfOk result (λ _. HasPlaces (filing policies.now label ++ pattern.now ∷ []) (limit + 1) → ⊥) }
{
    let Label::Confined(policy, number) = label else {
        return Ok(regions_of_one(alloc, pattern, limit)?);
    };
    let Some(compiled) = policies.get(policy as usize) else {
        return Ok(regions_of_one(alloc, pattern, limit)?);
    };
    filing_within(alloc, compiled, number, pattern, limit)
}

/// The same by the patterns that decide at the label and this one.
pub fn deciding_regions_within(
    alloc: Global,
    policies: &[Compiled],
    label: Label,
    pattern: &Pattern,
    limit: usize,
) -> Result<Vec<Region>, RepresentativesFault>
    requires some { 0 < limit }
    requires limit { limit ≤ most_states }
    ensures regions { IfOk result (λ rs. ArePathRegionsWithin (deciding policies.now label) pattern.now rs.items) }
    ensures many_patterns { result ≡ Err RepresentativesFault.TooManyPatterns → most_patterns < length (deciding policies.now label ++ pattern.now ∷ []) }
    ensures few_patterns { IfOk result (λ _. length (deciding policies.now label ++ pattern.now ∷ []) ≤ most_patterns) }
    ensures many_states { result ≡ Err RepresentativesFault.TooManyStates → HasPlaces (deciding policies.now label ++ pattern.now ∷ []) (limit + 1) }
    ensures few_states { IfOk result (λ _. HasPlaces (deciding policies.now label ++ pattern.now ∷ []) (limit + 1) → ⊥) }
{
    let count = deciding_count(policies, label);
    if count >= MAX_PATTERNS {
        return Err(RepresentativesFault::TooManyPatterns);
    }
    let automaton = deciding_automaton(alloc, policies, label, limit)?;
    let regions = regions_within(alloc, &automaton, count, pattern, limit)?;
    Ok(regions)
}

/// The regions of the paths that the last pattern matches by the first, the patterns of the file rules of the label's profile and the last,
/// and some of other paths.
pub fn filing_regions_and_within(
    alloc: Global,
    policies: &[Compiled],
    label: Label,
    more: &Pattern,
    pattern: &Pattern,
    limit: usize,
) -> Result<Vec<Region>, RepresentativesFault>
    requires some { 0 < limit }
    requires limit { limit ≤ most_states }
    ensures regions { IfOk result (λ rs. ArePathRegionsWithin (more.now ∷ filing policies.now label) pattern.now rs.items) }
    ensures many_patterns { result ≡ Err RepresentativesFault.TooManyPatterns → most_patterns < length (more.now ∷ filing policies.now label ++ pattern.now ∷ []) }
    ensures few_patterns { IfOk result (λ _. length (more.now ∷ filing policies.now label ++ pattern.now ∷ []) ≤ most_patterns) }
    ensures many_states { result ≡ Err RepresentativesFault.TooManyStates → HasPlaces (more.now ∷ filing policies.now label ++ pattern.now ∷ []) (limit + 1) }
    ensures few_states { IfOk result (λ _. HasPlaces (more.now ∷ filing policies.now label ++ pattern.now ∷ []) (limit + 1) → ⊥) }
{
    let count = filing_count(policies, label);
    if count >= MAX_PATTERNS - 1 {
        return Err(RepresentativesFault::TooManyPatterns);
    }
    let automaton = filing_automaton_and(alloc, policies, label, more, limit)?;
    let regions = regions_within(alloc, &automaton, count + 1, pattern, limit)?;
    Ok(regions)
}

/// The same by the patterns that decide at the label between the two.
pub fn deciding_regions_and_within(
    alloc: Global,
    policies: &[Compiled],
    label: Label,
    more: &Pattern,
    pattern: &Pattern,
    limit: usize,
) -> Result<Vec<Region>, RepresentativesFault>
    requires some { 0 < limit }
    requires limit { limit ≤ most_states }
    ensures regions { IfOk result (λ rs. ArePathRegionsWithin (more.now ∷ deciding policies.now label) pattern.now rs.items) }
    ensures many_patterns { result ≡ Err RepresentativesFault.TooManyPatterns → most_patterns < length (more.now ∷ deciding policies.now label ++ pattern.now ∷ []) }
    ensures few_patterns { IfOk result (λ _. length (more.now ∷ deciding policies.now label ++ pattern.now ∷ []) ≤ most_patterns) }
    ensures many_states { result ≡ Err RepresentativesFault.TooManyStates → HasPlaces (more.now ∷ deciding policies.now label ++ pattern.now ∷ []) (limit + 1) }
    ensures few_states { IfOk result (λ _. HasPlaces (more.now ∷ deciding policies.now label ++ pattern.now ∷ []) (limit + 1) → ⊥) }
{
    let count = deciding_count(policies, label);
    if count >= MAX_PATTERNS - 1 {
        return Err(RepresentativesFault::TooManyPatterns);
    }
    let automaton = deciding_automaton_and(alloc, policies, label, more, limit)?;
    let regions = regions_within(alloc, &automaton, count + 1, pattern, limit)?;
    Ok(regions)
}

/// Those of all paths by the patterns that decide at one of two labels, each in policies of its own, and one more.
pub(crate) fn deciding_regions_of_both_and(
    alloc: Global,
    one: &[Compiled],
    from: Label,
    other: &[Compiled],
    to: Label,
    pattern: &Pattern,
    limit: usize,
) -> Result<Vec<Region>, RepresentativesFault>
    requires some { 0 < limit }
    requires limit { limit ≤ most_states }
    ensures regions { IfOk result (λ rs. ArePathRegions (deciding_both one.now from other.now to ++ pattern.now ∷ []) rs.items) }
    ensures many_patterns { result ≡ Err RepresentativesFault.TooManyPatterns → most_patterns < length (deciding_both one.now from other.now to ++ pattern.now ∷ []) }
    ensures few_patterns { IfOk result (λ _. length (deciding_both one.now from other.now to ++ pattern.now ∷ []) ≤ most_patterns) }
    ensures many_states { result ≡ Err RepresentativesFault.TooManyStates → HasPlaces (deciding_both one.now from other.now to ++ pattern.now ∷ []) (limit + 1) }
    ensures few_states { IfOk result (λ _. HasPlaces (deciding_both one.now from other.now to ++ pattern.now ∷ []) (limit + 1) → ⊥) }
{
    let count = deciding_count(one, from);
    let more = deciding_count(other, to);
    if count.saturating_add(more) >= MAX_PATTERNS {
        return Err(RepresentativesFault::TooManyPatterns);
    }
    let count = count + more;
    let automaton = automaton_of_both_and(alloc, one, from, other, to, count, pattern, limit)?;
    let regions = path_regions_of(alloc, &automaton)?;
    Ok(regions)
}

/// Those of all paths by the patterns of the file rules at two labels, each in policies of its own. Requests to use files are answered
/// alike at paths of one region.
// Far fewer than by the patterns that decide, where there are many profiles.
pub(crate) fn filing_regions_of_both(
    alloc: Global,
    one: &[Compiled],
    from: Label,
    other: &[Compiled],
    to: Label,
    limit: usize,
) -> Result<Vec<Region>, BuildFault>
    requires some { 0 < limit }
    requires limit { limit ≤ most_states }
    requires few { length (filing_both one.now from other.now to) ≤ most_patterns }
    ensures regions { IfOk result (λ rs. ArePathRegions (filing_both one.now from other.now to) rs.items) }
    ensures many_states { result ≡ Err BuildFault.TooManyStates → HasPlaces (filing_both one.now from other.now to) (limit + 1) }
{
    let automaton = filing_automaton_of_both(alloc, one, from, other, to, limit)?;
    let regions = path_regions_of(alloc, &automaton)?;
    Ok(regions)
}

/// The same by these patterns and one more.
pub(crate) fn filing_regions_of_both_and(
    alloc: Global,
    one: &[Compiled],
    from: Label,
    other: &[Compiled],
    to: Label,
    pattern: &Pattern,
    limit: usize,
) -> Result<Vec<Region>, BuildFault>
    requires some { 0 < limit }
    requires limit { limit ≤ most_states }
    requires few { length (filing_both one.now from other.now to) < most_patterns }
    ensures regions { IfOk result (λ rs. ArePathRegions (filing_both one.now from other.now to ++ pattern.now ∷ []) rs.items) }
    ensures many_states { result ≡ Err BuildFault.TooManyStates → HasPlaces (filing_both one.now from other.now to ++ pattern.now ∷ []) (limit + 1) }
{
    let count = filing_count(one, from);
    let more = filing_count(other, to);
    let all = count + more;
    let automaton = filing_automaton_of_both_and(alloc, one, from, other, to, all, pattern, limit)?;
    let regions = path_regions_of(alloc, &automaton)?;
    Ok(regions)
}
