//! Rules as they are told.

ghost use Rattle.std.specs.Prelude.{◌≡◌, ◌++◌, ◌∷◌, [], map, flat_map, option_map, IfOk, OnOk, if◌then◌else◌};
ghost use Rattle.aa_redundancy.specs.Without.{marked};
ghost use Rattle.aa_redundant.specs.Told.{telling, rule_at, rule_in, rule_of, marked_places, rules_of};

use crate::places::RulePlace;
use aa_base::Spot;
use aa_command::PlacedUnit;
use aa_files::text_at;
use aa_rule_text::rule_text;
use aa_text::PlaceAt;
use std::alloc::{AllocError, Global};

/// A rule: where it stands, and how it reads.
#[derive(Drop)]
pub(crate) struct ToldRule {
    pub(crate) path: Vec<u8>,
    pub(crate) place: PlaceAt,
    pub(crate) text: Vec<u8>,
}

/// The rule that stands there in a unit.
pub(crate) fn rule_at(
    alloc: Global,
    unit: &PlacedUnit<'_>,
    at: Spot,
) -> Result<ToldRule, AllocError>
    ensures { IfOk result (λ rule. telling rule ≡ rule_at at unit.now) }
{
    let (path, text) = text_at(unit.unit(), at.file);
    let byte = at.byte as usize;
    Ok(ToldRule {
        path: Vec::from_slice(alloc, path)?,
        place: unit.place_at(at.file, byte),
        text: rule_text(alloc, text, byte)?,
    })
}

/// Adds the rule that stands there, where the unit is there.
fn push_rule_in(
    rules: &mut Vec<ToldRule>,
    alloc: Global,
    unit: Option<&PlacedUnit<'_>>,
    at: Spot,
) -> Result<(), AllocError>
    ensures { OnOk result (map telling rules.new.items ≡ map telling rules.old.items ++ rule_in at (option_map (λ u. u.now) unit.entry)) }
{
    match unit {
        Some(unit) => {
            rules.push(rule_at(alloc, unit, at)?)?;
            Ok(())
        }
        None => Ok(()),
    }
}

/// Adds the rule of a place.
pub(crate) fn push_rule(
    rules: &mut Vec<ToldRule>,
    alloc: Global,
    units: &[PlacedUnit<'_>],
    place: RulePlace,
) -> Result<(), AllocError>
    ensures { OnOk result (map telling rules.new.items ≡ map telling rules.old.items ++ rule_of units.now place) }
{
    push_rule_in(rules, alloc, units.get(place.unit), place.at)
}

pub(crate) fn is_marked(flags: &[bool], number: usize) -> bool
    ensures { result ≡ marked flags.now number }
{
    match flags.get(number) {
        Some(flag) => *flag,
        None => false,
    }
}

fn push_if(found: &mut Vec<RulePlace>, place: RulePlace, wanted: bool) -> Result<(), AllocError>
    ensures { OnOk result (found.new.items ≡ found.old.items ++ (if wanted then place ∷ [] else [])) }
{
    if wanted {
        found.push(place)?;
    }
    Ok(())
}

/// The places that are marked.
fn marked_places(
    alloc: Global,
    flags: &[bool],
    places: &[RulePlace],
) -> Result<Vec<RulePlace>, AllocError>
    ensures { IfOk result (λ found. found.items ≡ marked_places flags.now places.now) }
{
    let mut found = Vec::new(alloc);
    for number in 0..places.len() {
        push_if(&mut found, places[number], is_marked(flags, number))?;
    }
    Ok(found)
}

fn rules_at(
    alloc: Global,
    units: &[PlacedUnit<'_>],
    places: &[RulePlace],
) -> Result<Vec<ToldRule>, AllocError>
    ensures { IfOk result (λ rules. map telling rules.items ≡ flat_map (rule_of units.now) places.now) }
{
    let mut rules = Vec::new(alloc);
    for place in places {
        push_rule(&mut rules, alloc, units, *place)?;
    }
    Ok(rules)
}

/// The rules of the marked places.
pub(crate) fn rules_of(
    alloc: Global,
    units: &[PlacedUnit<'_>],
    flags: &[bool],
    places: &[RulePlace],
) -> Result<Vec<ToldRule>, AllocError>
    ensures { IfOk result (λ rules. map telling rules.items ≡ rules_of units.now flags.now places.now) }
{
    let found = marked_places(alloc, flags, places)?;
    rules_at(alloc, units, found.as_slice())
}
