//! The places of rules, each once and with its number.

ghost use Rattle.std.specs.Prelude.{◌≡◌, ◌++◌, ◌∷◌, [], length, map, position, unwrap_or, IfOk, OnOk, if◌then◌else◌};
ghost use Rattle.std.specs.List.{list_any};
ghost use Rattle.aa_redundant.specs.Places.{path_at, same_place, distinct};
ghost use Rattle.aa_redundant.specs.Known.{AreKeys};

use crate::places::{RulePlace, path_at};
use aa_command::PlacedUnit;
use indexmap::IndexSet;
use std::alloc::{AllocError, Global};

/// Different places, and by their order the path and the byte of each.
#[derive(Drop)]
pub(crate) struct KnownPlaces<'u> {
    pub(crate) keys: IndexSet<(&'u [u8], u32)>,
    pub(crate) places: Vec<RulePlace>,
}

/// The path of a place, and its byte there.
fn key_of<'u>(units: &'u [PlacedUnit<'_>], place: RulePlace) -> (&'u [u8], u32)
    ensures path { result.0.now ≡ path_at units.now place }
    ensures byte { result.1 ≡ place.at.byte }
{
    (path_at(units, place), place.at.byte)
}

/// Adds a place that isn't there.
fn add_place<'u>(
    keys: &mut IndexSet<(&'u [u8], u32)>,
    places: &mut Vec<RulePlace>,
    units: &'u [PlacedUnit<'_>],
    one: RulePlace,
) -> Result<(), AllocError>
    requires { AreKeys units.now keys.old.keys places.old.items }
    ensures keys { OnOk result (AreKeys units.now keys.new.keys places.new.items) }
    ensures places { OnOk result (places.new.items ≡ (if list_any (same_place units.now one) places.old.items then places.old.items else places.old.items ++ one ∷ [])) }
{
    let key = key_of(units, one);
    let (_, is_new) = keys.insert_full(key)?;
    if !is_new {
        return Ok(());
    }
    places.push(one)?;
    Ok(())
}

/// Each of these places once, where it comes first.
pub(crate) fn known_places<'u>(
    alloc: Global,
    units: &'u [PlacedUnit<'_>],
    all: &[RulePlace],
) -> Result<KnownPlaces<'u>, AllocError>
    ensures keys { IfOk result (λ known. AreKeys units.now known.keys.keys known.places.items) }
    ensures places { IfOk result (λ known. known.places.items ≡ distinct (same_place units.now) all.now) }
{
    let mut keys = IndexSet::new(alloc);
    let mut places = Vec::new(alloc);
    for one in all {
        add_place(&mut keys, &mut places, units, *one)?;
    }
    Ok(KnownPlaces { keys, places })
}

/// The number of a place.
pub(crate) fn number_of(units: &[PlacedUnit<'_>], known: &KnownPlaces<'_>, one: RulePlace) -> usize
    requires { AreKeys units.now known.now.keys.keys known.now.places.items }
    ensures { result ≡ unwrap_or (position (same_place units.now one) known.now.places.items) (length known.now.places.items) }
{
    let key = key_of(units, one);
    let places = known.places.as_slice();
    known.keys.get_index_of(&key).unwrap_or(places.len())
}
