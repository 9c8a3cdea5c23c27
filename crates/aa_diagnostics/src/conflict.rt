//! The two rules of a conflict, and a path that both match.

ghost use Rattle.std.specs.Prelude.{◌≡◌, ◌⊎◌, ◌↔◌, ℕ, ◌+◌, ◌<◌, ◌≤◌, ◌++◌, ◌∷◌, [], List, map, IfOk, IfSome, IfNone, OnOk, IsTrue, true, false};
ghost use Rattle.aa_pattern.specs.Limits.{most_patterns, most_states};
ghost use Rattle.aa_base.specs.Kinds.{IsRefusal};
ghost use Rattle.aa_model.specs.Lawful.{file_patterns, IsWithinCounts};
ghost use Rattle.aa_explain.specs.Clashes.{Conflict};
ghost use Rattle.aa_files.specs.Texts.{texts};
ghost use Rattle.aa_explain.specs.Places.{places_data};
ghost use Rattle.aa_load.specs.UnitPolicy.{limit_of, texts_of};
ghost use Rattle.aa_base.specs.declared.fault.PolicyKind.TheVariants.{ConflictingExec};
ghost use Rattle.aa_model.specs.declared.policy.Policy.{Policy};
ghost use Rattle.aa_words.specs.Splits.{WordData, Splits, words_data};
ghost use Rattle.aa_policy.specs.Spelling.{Spells};
ghost use Rattle.aa_compile.specs.Checks.{fault_at, IsRefused};
ghost use Rattle.aa_diagnostics.specs.Further.{HasWords, ShowsConflictAt, ShowsIfConflict, SpellsNothing};
ghost use Rattle.aa_diagnostics.specs.Conflicts.{IsRuleLine, AreRuleLines, both_match, files_at, ShowsRules, ShowsConflict, ShowsOne, HasNone, NoneHas};

use aa_auto::BuildFault;
use aa_base::{PolicyFault, Spot};
use aa_explain::{Clash, ProfilePlaces, clash_of, rule_places};
use aa_files::{Unit, text_at};
use aa_load::sources_of;
use aa_model::Profile;
use aa_policy::parse;
use aa_rule_text::rule_text;
use aa_text::{push_name, push_place, push_text};
use aa_words::{WordList, words};
use std::alloc::{AllocError, Global};

/// Where a rule stands, and its text.
fn rule_line(alloc: Global, unit: &Unit, at: Spot) -> Result<Vec<u8>, AllocError>
    ensures { IfOk result (λ line. IsRuleLine unit.now at line.items) }
{
    let (path, text) = text_at(unit, at.file);
    let byte = at.byte as usize;
    let mut line = Vec::from_slice(alloc, path)?;
    push_place(&mut line, text, byte)?;
    push_text(&mut line, ": ")?;
    line.extend_from_slice(rule_text(alloc, text, byte)?.as_slice())?;
    Ok(line)
}

/// A line for the rule with this number, where it is known where it stands.
fn push_rule(
    alloc: Global,
    unit: &Unit,
    places: &[Spot],
    number: usize,
    further: &mut Vec<Vec<u8>>,
) -> Result<(), AllocError>
    ensures { OnOk result ((lines : List (List ℕ)) × AreRuleLines unit.now places.now number lines × (texts further.new.items ≡ texts further.old.items ++ lines)) }
{
    if let Some(at) = places.get(number) {
        further.push(rule_line(alloc, unit, *at)?)?;
    }
    Ok(())
}

/// The path that both rules match.
fn push_path(alloc: Global, path: &[u8], further: &mut Vec<Vec<u8>>) -> Result<(), AllocError>
    ensures { OnOk result (texts further.new.items ≡ texts further.old.items ++ both_match path.now ∷ []) }
{
    let mut line = Vec::new(alloc);
    push_text(&mut line, "both match ")?;
    push_name(&mut line, alloc, path)?;
    further.push(line)?;
    Ok(())
}

/// The two rules of a profile, and the path.
fn push_clash(
    alloc: Global,
    unit: &Unit,
    places: &[Spot],
    clash: &Clash,
    further: &mut Vec<Vec<u8>>,
) -> Result<(), AllocError>
    ensures { OnOk result ((lines : List (List ℕ)) × ShowsRules unit.now places.now clash.now.first clash.now.second clash.now.text.items lines × (texts further.new.items ≡ texts further.old.items ++ lines)) }
{
    push_rule(alloc, unit, places, clash.first, further)?;
    push_rule(alloc, unit, places, clash.second, further)?;
    push_path(alloc, clash.text.as_slice(), further)
}

/// Two rules of a profile that conflict, if there are; none either where they need more states than the limit.
fn clash_in(alloc: Global, profile: &Profile, limit: usize) -> Result<Option<Clash>, AllocError>
    requires few { file_patterns profile.now ≤ most_patterns }
    requires some { 0 < limit }
    requires limit { limit ≤ most_states }
    ensures found { IfOk result (λ found. IfSome found (λ c. (c.first < c.second) × Conflict profile.now.files c.first c.second c.text.items)) }
    ensures none { IfOk result (λ found. IfNone found (HasNone profile.now (limit + 1))) }
{
    match clash_of(alloc, profile.files.as_slice(), limit) {
        Ok(found) => Ok(found),
        Err(BuildFault::TooManyStates) => Ok(None),
        Err(BuildFault::NoMemory) => Err(AllocError),
    }
}

/// The conflict of a profile, if it has one. The answer says so.
fn push_clash_of(
    alloc: Global,
    unit: &Unit,
    profile: &Profile,
    places: &[Spot],
    limit: usize,
    further: &mut Vec<Vec<u8>>,
) -> Result<bool, AllocError>
    requires few { file_patterns profile.now ≤ most_patterns }
    requires some { 0 < limit }
    requires limit { limit ≤ most_states }
    ensures shown { IfOk result (λ shown. shown ≡ true → ((lines : List (List ℕ)) × ShowsConflict unit.now profile.now places.now lines × (texts further.new.items ≡ texts further.old.items ++ lines))) }
    ensures none { IfOk result (λ shown. shown ≡ false → HasNone profile.now (limit + 1)) }
    ensures stays { IfOk result (λ shown. shown ≡ false → further.new ≡ further.old) }
{
    let Some(clash) = clash_in(alloc, profile, limit)? else {
        return Ok(false);
    };
    push_clash(alloc, unit, places, &clash, further)?;
    Ok(true)
}

fn is_at(profile: &Profile, at: Spot) -> bool
    ensures { IsTrue result ↔ (profile.now.at ≡ at) }
{
    profile.at == at
}

/// The conflict of a profile, if its name stands there and it has one. The answer says so.
fn push_clash_if(
    alloc: Global,
    unit: &Unit,
    profile: &Profile,
    places: &[Spot],
    at: Spot,
    limit: usize,
    further: &mut Vec<Vec<u8>>,
) -> Result<bool, AllocError>
    requires few { file_patterns profile.now ≤ most_patterns }
    requires some { 0 < limit }
    requires limit { limit ≤ most_states }
    ensures shown { IfOk result (λ shown. shown ≡ true → ((lines : List (List ℕ)) × (profile.now.at ≡ at) × ShowsConflict unit.now profile.now places.now lines × (texts further.new.items ≡ texts further.old.items ++ lines))) }
    ensures none { IfOk result (λ shown. shown ≡ false → profile.now.at ≡ at → HasNone profile.now (limit + 1)) }
    ensures stays { IfOk result (λ shown. shown ≡ false → further.new ≡ further.old) }
{
    if !is_at(profile, at) {
        return Ok(false);
    }
    push_clash_of(alloc, unit, profile, places, limit, further)
}

/// Where the file rules of the profile with that number stand.
fn places_of<'a>(found: &'a [ProfilePlaces<'_>], number: usize) -> &'a [Spot]
    ensures { result.now ≡ files_at (map places_data found.now) number }
{
    match found.get(number) {
        Some(places) => places.files.as_slice(),
        None => &[],
    }
}

/// The first conflict of a profile whose name stands there.
fn push_first_clash(
    alloc: Global,
    unit: &Unit,
    profiles: &[Profile],
    found: &[ProfilePlaces<'_>],
    at: Spot,
    limit: usize,
    further: &mut Vec<Vec<u8>>,
) -> Result<(), AllocError>
    requires counts { IsWithinCounts profiles.now }
    requires some { 0 < limit }
    requires limit { limit ≤ most_states }
    ensures { OnOk result (((further.new ≡ further.old) × NoneHas profiles.now at (limit + 1))
        ⊎ ((lines : List (List ℕ)) × ShowsOne unit.now profiles.now (map places_data found.now) at lines × (texts further.new.items ≡ texts further.old.items ++ lines))) }
{
    for (number, profile) in profiles.iter().enumerate() {
        let places = places_of(found, number);
        if push_clash_if(alloc, unit, profile, places, at, limit, further)? {
            return Ok(());
        }
    }
    Ok(())
}

/// The lines for the first conflict of a profile whose name stands there; none where there is no such one.
fn clash_lines(
    alloc: Global,
    unit: &Unit,
    profiles: &[Profile],
    found: &[ProfilePlaces<'_>],
    at: Spot,
    limit: usize,
) -> Result<Vec<Vec<u8>>, AllocError>
    requires counts { IsWithinCounts profiles.now }
    requires some { 0 < limit }
    requires limit { limit ≤ most_states }
    ensures { IfOk result (λ lines. (NoneHas profiles.now at (limit + 1) × (texts lines.items ≡ [])) ⊎ ShowsOne unit.now profiles.now (map places_data found.now) at (texts lines.items)) }
{
    let mut further = Vec::new(alloc);
    push_first_clash(alloc, unit, profiles, found, at, limit, &mut further)?;
    Ok(further)
}

/// The same lines by the words of the unit.
fn conflict_in(
    alloc: Global,
    unit: &Unit,
    list: &WordList<'_>,
    at: Spot,
    states: u32,
) -> Result<Vec<Vec<u8>>, PolicyFault>
    requires { Splits (texts_of unit.now) unit.now.text.items (words_data list.now.list.items) }
    ensures shown { IfOk result (λ lines. ShowsIfConflict (limit_of states) unit.now at (texts lines.items)) }
    ensures own { IfOk result (λ lines. (policy : Policy) → Spells (words_data list.now.list.items) policy
        → IsRefused policy.profiles (limit_of states) (fault_at ConflictingExec at) → ShowsConflictAt unit.now at (texts lines.items)) }
    ensures refused { IsRefusal result → (policy : Policy) → Spells (words_data list.now.list.items) policy → ⊥ }
{
    let found = rule_places(alloc, list)?;
    let policy = parse(alloc, list)?;
    let limit = states.clamp(1, 1_000_000) as usize;
    let profiles = policy.profiles.as_slice();
    Ok(clash_lines(alloc, unit, profiles, found.as_slice(), at, limit)?)
}

/// Where two rules of the profile whose name stands there conflict: each with its place, and a path that both match; nothing where
/// there is none.
pub(crate) fn conflict_lines(
    alloc: Global,
    unit: &Unit,
    at: Spot,
    states: u32,
) -> Result<Vec<Vec<u8>>, PolicyFault>
    ensures shown { IfOk result (λ lines. ShowsIfConflict (limit_of states) unit.now at (texts lines.items)) }
    ensures own { IfOk result (λ lines. (ws : List WordData) (policy : Policy) → HasWords unit.now ws → Spells ws policy
        → IsRefused policy.profiles (limit_of states) (fault_at ConflictingExec at) → ShowsConflictAt unit.now at (texts lines.items)) }
    ensures refused { IsRefusal result → SpellsNothing unit.now }
{
    let sources = sources_of(alloc, unit)?;
    let list = words(alloc, &sources, unit.text.as_slice())?;
    conflict_in(alloc, unit, &list, at, states)
}
