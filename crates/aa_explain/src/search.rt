//! The search for two rules that conflict.

ghost use Rattle.std.specs.Prelude.{◌≡◌, ◌+◌, ◌<◌, ◌≤◌, ◌↔◌, ℕ, List, Contains, IfOk, IfSome, IfNone, IsTrue, Some, Err, sum_by, length};
ghost use Rattle.std.specs.List.{slice_get};
ghost use Rattle.aa_pattern.specs.Limits.{most_patterns, most_states};
ghost use Rattle.aa_auto.specs.Tables.{HasPlaces};
ghost use Rattle.aa_compile.specs.FileRules.{Conflicts};
ghost use Rattle.aa_regions.specs.declared.regions.Region.{Region};
ghost use Rattle.aa_explain.specs.Clashes.{Conflict, ConflictsLater, OwnerConflicts, SomeConflict, executing};

use crate::pairs::clash_at;
use crate::ways::ways_of;
use aa_auto::{Automaton, BuildFault};
use aa_model::FileRule;
use aa_regions::{Region, text_regions_of};
use std::alloc::{AllocError, Global};

/// Two rules of a profile that conflict, by their numbers, and a text at which they do.
#[derive(Drop)]
pub struct Clash {
    pub first: usize,
    pub second: usize,
    pub text: Vec<u8>,
}

fn is_conflict(rules: &[FileRule], one: usize, other: usize, text: &[u8]) -> bool
    ensures { IsTrue result ↔ Conflict rules.now one other text.now }
{
    let Some(one) = rules.get(one) else {
        return false;
    };
    let Some(other) = rules.get(other) else {
        return false;
    };
    clash_at(one, other, text)
}

/// The rule of the pattern with this number, if it is a later one that conflicts with the rule.
fn later(
    rules: &[FileRule],
    owners: &[usize],
    one: usize,
    number: u16,
    text: &[u8],
) -> Option<usize>
    ensures some { IfSome result (λ other. (one < other) × Conflict rules.now one other text.now) }
    ensures none { IfNone result ((other : ℕ) → slice_get owners.now number ≡ Some other → one < other → Conflict rules.now one other text.now → ⊥) }
{
    let other = *owners.get(number as usize)?;
    if one < other && is_conflict(rules, one, other, text) {
        return Some(other);
    }
    None
}

/// The first later rule of these patterns that conflicts with the rule.
fn against(
    rules: &[FileRule],
    owners: &[usize],
    one: usize,
    numbers: &[u16],
    text: &[u8],
) -> Option<usize>
    ensures some { IfSome result (λ other. (one < other) × Conflict rules.now one other text.now) }
    ensures none { IfNone result (ConflictsLater rules.now owners.now numbers.now one text.now → ⊥) }
{
    for number in numbers {
        if let Some(other) = later(rules, owners, one, *number, text) {
            return Some(other);
        }
    }
    None
}

/// The rule of the pattern with this number, and the first later rule of these patterns that conflicts with it.
fn pair_of(
    rules: &[FileRule],
    owners: &[usize],
    numbers: &[u16],
    number: u16,
    text: &[u8],
) -> Option<(usize, usize)>
    ensures some { IfSome result (λ pair. (pair.0 < pair.1) × Conflict rules.now pair.0 pair.1 text.now) }
    ensures none { IfNone result (OwnerConflicts rules.now owners.now numbers.now number text.now → ⊥) }
{
    let one = *owners.get(number as usize)?;
    let other = against(rules, owners, one, numbers, text)?;
    Some((one, other))
}

/// The rules of the first two of these patterns that conflict at the text.
fn among(
    rules: &[FileRule],
    owners: &[usize],
    numbers: &[u16],
    text: &[u8],
) -> Option<(usize, usize)>
    ensures some { IfSome result (λ pair. (pair.0 < pair.1) × Conflict rules.now pair.0 pair.1 text.now) }
    ensures none { IfNone result (SomeConflict rules.now owners.now numbers.now text.now → ⊥) }
{
    for number in numbers {
        if let Some(pair) = pair_of(rules, owners, numbers, *number, text) {
            return Some(pair);
        }
    }
    None
}

/// The rules of the first of these regions in which two conflict, with its text.
fn clash_among(
    alloc: Global,
    rules: &[FileRule],
    owners: &[usize],
    regions: &[Region],
) -> Result<Option<Clash>, AllocError>
    ensures found { IfOk result (λ found. IfSome found (λ c. (c.first < c.second) × Conflict rules.now c.first c.second c.text.items)) }
    ensures none { IfOk result (λ found. IfNone found ((r : Region) → Contains regions.now r → SomeConflict rules.now owners.now r.numbers r.witness → ⊥)) }
{
    for region in regions {
        let text = region.witness.as_slice();
        if let Some((first, second)) = among(rules, owners, region.numbers.as_slice(), text) {
            let text = Vec::from_slice(alloc, text)?;
            return Ok(Some(Clash {
                first,
                second,
                text,
            }));
        }
    }
    Ok(None)
}

/// Two rules of a profile that say differently how one text is executed, the earlier one first, and such a text, of the shortest
/// that there are; none where no text has two such rules. The errors are `TooManyStates`, where the patterns of the rules that say
/// how a program is executed need an automaton of more rows than the limit, and `NoMemory`.
pub fn clash_of(
    alloc: Global,
    rules: &[FileRule],
    limit: usize,
) -> Result<Option<Clash>, BuildFault>
    requires few { sum_by (λ r. length r.patterns) rules.now ≤ most_patterns }
    requires some { 0 < limit }
    requires limit { limit ≤ most_states }
    ensures found { IfOk result (λ found. IfSome found (λ c. (c.first < c.second) × Conflict rules.now c.first c.second c.text.items)) }
    ensures none { IfOk result (λ found. IfNone found (Conflicts rules.now → ⊥)) }
    ensures too_many { result ≡ Err BuildFault.TooManyStates → HasPlaces (executing rules.now) (limit + 1) }
{
    let ways = ways_of(alloc, rules)?;
    let automaton = Automaton::of(alloc, ways.patterns.as_slice(), limit)?;
    let regions = text_regions_of(alloc, &automaton)?;
    let found = clash_among(alloc, rules, ways.owners.as_slice(), regions.as_slice())?;
    Ok(found)
}
