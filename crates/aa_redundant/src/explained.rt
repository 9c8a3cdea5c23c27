//! Redundant rules with why they are redundant.

ghost use Rattle.std.specs.Prelude.{◌≡◌, ◌++◌, [], map, flat_map, option_map, IfOk, OnOk};
ghost use Rattle.std.specs.Option.{option_map_or};
ghost use Rattle.aa_redundant.specs.Told.{telling, explaining, rule_in, rule_of, numbered, all_numbered, explained_by, explained, explained_if, all_explained, open_if, all_undecided};

use crate::places::RulePlace;
use crate::told::{ToldRule, is_marked, push_rule, rule_at};
use aa_base::Spot;
use aa_command::PlacedUnit;
use aa_redundancy::Reason;
use std::alloc::{AllocError, Global};

/// A redundant rule.
#[derive(Drop)]
pub(crate) struct ExplainedRule {
    pub(crate) rule: ToldRule,
    /// Whether the others say all that it says, or decide otherwise somewhere.
    pub(crate) is_covered: bool,
    /// Other rules, beside which alone it changes nothing.
    pub(crate) others: Vec<ToldRule>,
}

/// Adds the rule of a place, where it is there.
fn push_placed(
    rules: &mut Vec<ToldRule>,
    alloc: Global,
    units: &[PlacedUnit<'_>],
    place: Option<&RulePlace>,
) -> Result<(), AllocError>
    ensures { OnOk result (map telling rules.new.items ≡ map telling rules.old.items ++ option_map_or (rule_of units.now) (option_map (λ p. p.now) place.entry) []) }
{
    match place {
        Some(place) => push_rule(rules, alloc, units, *place),
        None => Ok(()),
    }
}

/// Adds the rule of the place of that number, where it is there.
fn push_numbered(
    rules: &mut Vec<ToldRule>,
    alloc: Global,
    units: &[PlacedUnit<'_>],
    places: &[RulePlace],
    number: usize,
) -> Result<(), AllocError>
    ensures { OnOk result (map telling rules.new.items ≡ map telling rules.old.items ++ numbered units.now places.now number) }
{
    push_placed(rules, alloc, units, places.get(number))
}

/// Those of these numbers.
fn all_numbered(
    alloc: Global,
    units: &[PlacedUnit<'_>],
    places: &[RulePlace],
    numbers: &[usize],
) -> Result<Vec<ToldRule>, AllocError>
    ensures { IfOk result (λ rules. map telling rules.items ≡ all_numbered units.now places.now numbers.now) }
{
    let mut rules = Vec::new(alloc);
    for number in numbers {
        push_numbered(&mut rules, alloc, units, places, *number)?;
    }
    Ok(rules)
}

/// Adds the rule that stands there with its reason, where the unit is there.
fn push_in(
    found: &mut Vec<ExplainedRule>,
    alloc: Global,
    unit: Option<&PlacedUnit<'_>>,
    at: Spot,
    is_covered: bool,
    others: Vec<ToldRule>,
) -> Result<(), AllocError>
    ensures { OnOk result (map explaining found.new.items ≡ map explaining found.old.items ++ map (explained_by is_covered (map telling others.items)) (rule_in at (option_map (λ u. u.now) unit.entry))) }
{
    match unit {
        Some(unit) => {
            let rule = rule_at(alloc, unit, at)?;
            found.push(ExplainedRule {
                rule,
                is_covered,
                others,
            })?;
            Ok(())
        }
        None => Ok(()),
    }
}

/// Adds the rule of a place with its reason, where the place is there.
fn push_at(
    found: &mut Vec<ExplainedRule>,
    alloc: Global,
    units: &[PlacedUnit<'_>],
    place: Option<&RulePlace>,
    is_covered: bool,
    others: Vec<ToldRule>,
) -> Result<(), AllocError>
    ensures { OnOk result (map explaining found.new.items ≡ map explaining found.old.items ++ map (explained_by is_covered (map telling others.items)) (option_map_or (rule_of units.now) (option_map (λ p. p.now) place.entry) [])) }
{
    match place {
        Some(place) => push_in(
            found,
            alloc,
            units.get(place.unit),
            place.at,
            is_covered,
            others,
        ),
        None => Ok(()),
    }
}

/// Adds the rule of the place of a reason.
fn push_explained(
    found: &mut Vec<ExplainedRule>,
    alloc: Global,
    units: &[PlacedUnit<'_>],
    places: &[RulePlace],
    reason: &Reason,
) -> Result<(), AllocError>
    ensures { OnOk result (map explaining found.new.items ≡ map explaining found.old.items ++ explained units.now places.now reason.now) }
{
    let others = all_numbered(alloc, units, places, reason.beside.as_slice())?;
    let place = places.get(reason.place);
    push_at(found, alloc, units, place, reason.is_covered, others)
}

/// Adds it, unless its place is open.
fn push_if_closed(
    found: &mut Vec<ExplainedRule>,
    alloc: Global,
    unsure: &[bool],
    units: &[PlacedUnit<'_>],
    places: &[RulePlace],
    reason: &Reason,
) -> Result<(), AllocError>
    ensures { OnOk result (map explaining found.new.items ≡ map explaining found.old.items ++ explained_if unsure.now units.now places.now reason.now) }
{
    if is_marked(unsure, reason.place) {
        return Ok(());
    }
    push_explained(found, alloc, units, places, reason)
}

/// The rules of the places of these reasons that aren't open.
pub(crate) fn all_explained(
    alloc: Global,
    unsure: &[bool],
    units: &[PlacedUnit<'_>],
    places: &[RulePlace],
    reasons: &[Reason],
) -> Result<Vec<ExplainedRule>, AllocError>
    ensures { IfOk result (λ found. map explaining found.items ≡ all_explained unsure.now units.now places.now reasons.now) }
{
    let mut found = Vec::new(alloc);
    for reason in reasons {
        push_if_closed(&mut found, alloc, unsure, units, places, reason)?;
    }
    Ok(found)
}

/// Adds the rule of the place of a reason, where that is open.
fn push_if_open(
    rules: &mut Vec<ToldRule>,
    alloc: Global,
    unsure: &[bool],
    units: &[PlacedUnit<'_>],
    places: &[RulePlace],
    reason: &Reason,
) -> Result<(), AllocError>
    ensures { OnOk result (map telling rules.new.items ≡ map telling rules.old.items ++ open_if unsure.now units.now places.now reason.now) }
{
    if !is_marked(unsure, reason.place) {
        return Ok(());
    }
    push_numbered(rules, alloc, units, places, reason.place)
}

/// The rules of those places of these reasons that are open.
pub(crate) fn all_undecided(
    alloc: Global,
    unsure: &[bool],
    units: &[PlacedUnit<'_>],
    places: &[RulePlace],
    reasons: &[Reason],
) -> Result<Vec<ToldRule>, AllocError>
    ensures { IfOk result (λ rules. map telling rules.items ≡ all_undecided unsure.now units.now places.now reasons.now) }
{
    let mut rules = Vec::new(alloc);
    for reason in reasons {
        push_if_open(&mut rules, alloc, unsure, units, places, reason)?;
    }
    Ok(rules)
}
