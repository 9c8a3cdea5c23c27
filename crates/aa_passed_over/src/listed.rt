//! The rules of a profile that are passed over, and its flags without effect, as they read.

ghost use Rattle.std.specs.Prelude.{◌≡◌, ◌++◌, codes, map, option_map, OnOk, IfOk};
ghost use Rattle.aa_passed_over.specs.Listed.{listed, listed_at, alone_text, flag_at, all_listed, listed_by, listed_in};

use aa_ask::unit_of;
use aa_command::{Decided, PlacedUnit};
use aa_explain::{Extent, ProfilePlaces};
use aa_files::text_at;
use aa_rule_text::words_text;
use aa_text::{PlaceAt, push_text};
use std::alloc::{AllocError, Global};

/// A rule that is passed over, or a flag without effect.
#[derive(Drop)]
pub struct ListedRule {
    pub path: Vec<u8>,
    pub place: PlaceAt,
    /// Its words up to its comma, with one space where white space or comments stand between them. A flag reads `flags=(FLAG),`.
    pub text: Vec<u8>,
}

/// The rule that stands there in a unit.
fn listed_at(alloc: Global, unit: &PlacedUnit<'_>, extent: Extent) -> Result<ListedRule, AllocError>
    ensures { IfOk result (λ rule. listed rule ≡ listed_at unit.now extent) }
{
    let (path, text) = text_at(unit.unit(), extent.at.file);
    let byte = extent.at.byte as usize;
    Ok(ListedRule {
        path: Vec::from_slice(alloc, path)?,
        place: unit.place_at(extent.at.file, byte),
        text: words_text(alloc, text, byte, extent.end as usize)?,
    })
}

/// The flag that stands there in a unit.
fn flag_at(alloc: Global, unit: &PlacedUnit<'_>, extent: Extent) -> Result<ListedRule, AllocError>
    ensures { IfOk result (λ flag. listed flag ≡ flag_at unit.now extent) }
{
    let ListedRule { path, place, text } = listed_at(alloc, unit, extent)?;
    Ok(ListedRule {
        path,
        place,
        text: alone_text(alloc, text.as_slice())?,
    })
}

/// How a flag reads where it stands alone, with a comma as rules have one.
fn alone_text(alloc: Global, flag: &[u8]) -> Result<Vec<u8>, AllocError>
    ensures { IfOk result (λ text. text.items ≡ alone_text flag.now) }
{
    let mut text = Vec::new(alloc);
    push_text(&mut text, "flags=(")?;
    text.extend_from_slice(flag)?;
    push_text(&mut text, "),")?;
    Ok(text)
}

/// Adds the flags that stand there in a unit.
fn push_flags(
    alloc: Global,
    unit: &PlacedUnit<'_>,
    extents: &[Extent],
    rules: &mut Vec<ListedRule>,
) -> Result<(), AllocError>
    ensures { OnOk result (map listed rules.new.items ≡ map listed rules.old.items ++ map (flag_at unit.now) extents.now) }
{
    for extent in extents {
        rules.push(flag_at(alloc, unit, *extent)?)?;
    }
    Ok(())
}

/// Adds the rules that stand there in a unit.
fn push_rules(
    alloc: Global,
    unit: &PlacedUnit<'_>,
    extents: &[Extent],
    rules: &mut Vec<ListedRule>,
) -> Result<(), AllocError>
    ensures { OnOk result (map listed rules.new.items ≡ map listed rules.old.items ++ map (listed_at unit.now) extents.now) }
{
    for extent in extents {
        rules.push(listed_at(alloc, unit, *extent)?)?;
    }
    Ok(())
}

/// The flags without effect of a profile in a unit, and its rules that are passed over.
fn all_listed(
    alloc: Global,
    unit: &PlacedUnit<'_>,
    places: &ProfilePlaces<'_>,
) -> Result<Vec<ListedRule>, AllocError>
    ensures { IfOk result (λ rules. map listed rules.items ≡ all_listed unit.now places.now) }
{
    let mut rules = Vec::new(alloc);
    push_flags(alloc, unit, places.flags.as_slice(), &mut rules)?;
    push_rules(alloc, unit, places.passed_over.as_slice(), &mut rules)?;
    Ok(rules)
}

fn listed_by(
    alloc: Global,
    unit: Option<&PlacedUnit<'_>>,
    places: Option<&ProfilePlaces<'_>>,
) -> Result<Vec<ListedRule>, AllocError>
    ensures { IfOk result (λ rules. map listed rules.items ≡ listed_by (option_map (λ u. u.now) unit.entry) (option_map (λ p. p.now) places.entry)) }
{
    match (unit, places) {
        (Some(unit), Some(places)) => all_listed(alloc, unit, places),
        _ => Ok(Vec::new(alloc)),
    }
}

/// The flags without effect of the profile of that number, and its rules that are passed over, in the order in which they are read.
pub fn listed_of(
    alloc: Global,
    decided: Decided<'_>,
    number: usize,
) -> Result<Vec<ListedRule>, AllocError>
    ensures { IfOk result (λ rules. map listed rules.items ≡ listed_in decided.entry number) }
{
    let unit = unit_of(decided.units, decided.owners, number);
    listed_by(alloc, unit, decided.places.get(number))
}
