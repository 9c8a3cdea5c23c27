//! The places where the rules of a policy of files stand.

ghost use Rattle.std.specs.Prelude.{◌≡◌, ◌++◌, map, option_map, length, IfOk, OnOk};
ghost use Rattle.aa_redundant.specs.Places.{path_at, place_in, places_of, first_places};

use aa_base::Spot;
use aa_command::{Decided, PlacedUnit};
use aa_explain::ProfilePlaces;
use aa_files::text_at;
use std::alloc::{AllocError, Global};

/// Where a rule stands: the number of a unit, and where in it.
#[derive(Clone, Copy, Debug)]
pub(crate) struct RulePlace {
    pub(crate) unit: usize,
    pub(crate) at: Spot,
}

/// The path of the file of a place.
pub(crate) fn path_at<'p>(units: &'p [PlacedUnit<'_>], place: RulePlace) -> &'p [u8]
    ensures { result.now ≡ path_at units.now place }
{
    match units.get(place.unit) {
        Some(unit) => text_at(unit.unit(), place.at.file).0,
        None => &[],
    }
}

/// Adds places of a unit.
fn push_spots(places: &mut Vec<RulePlace>, unit: usize, spots: &[Spot]) -> Result<(), AllocError>
    ensures { OnOk result (places.new.items ≡ places.old.items ++ map (place_in unit) spots.now) }
{
    for at in spots {
        places.push(RulePlace { unit, at: *at })?;
    }
    Ok(())
}

/// Adds the places of a profile's rules, where they are there.
fn push_known(
    places: &mut Vec<RulePlace>,
    unit: Option<&usize>,
    of: Option<&ProfilePlaces<'_>>,
) -> Result<(), AllocError>
    ensures { OnOk result (places.new.items ≡ places.old.items ++ places_of (option_map (λ u. u.now) unit.entry) (option_map (λ p. p.now) of.entry)) }
{
    let (Some(unit), Some(of)) = (unit, of) else {
        return Ok(());
    };
    push_spots(places, *unit, of.files.as_slice())?;
    push_spots(places, *unit, of.caps.as_slice())?;
    push_spots(places, *unit, of.nets.as_slice())?;
    push_spots(places, *unit, of.changes.as_slice())
}

/// The places of all rules, in order.
pub(crate) fn rule_places(alloc: Global, decided: Decided<'_>) -> Result<Vec<RulePlace>, AllocError>
    ensures { IfOk result (λ places. places.items ≡ first_places decided.entry (length decided.entry.places.now)) }
{
    let mut places = Vec::new(alloc);
    for number in 0..decided.places.len() {
        push_known(
            &mut places,
            decided.owners.get(number),
            decided.places.get(number),
        )?;
    }
    Ok(places)
}
