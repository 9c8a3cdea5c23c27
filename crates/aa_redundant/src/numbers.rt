//! The places of rules by their numbers.

ghost use Rattle.std.specs.Prelude.{◌≡◌, ◌++◌, ◌∷◌, [], option_map, length, IfOk, OnOk};
ghost use Rattle.aa_redundant.specs.Places.{numbers_in, numbers_of, numbers_known, first_numbers};
ghost use Rattle.aa_redundant.specs.Known.{AreKeys};

use crate::known::{KnownPlaces, number_of};
use crate::places::RulePlace;
use aa_base::{Seq, Spot};
use aa_command::{Decided, PlacedUnit};
use aa_explain::ProfilePlaces;
use aa_redundancy::PlaceNumbers;
use std::alloc::{AllocError, Global};

fn numbers_in(
    alloc: Global,
    units: &[PlacedUnit<'_>],
    known: &KnownPlaces<'_>,
    unit: usize,
    spots: &[Spot],
) -> Result<Seq<usize>, AllocError>
    requires { AreKeys units.now known.now.keys.keys known.now.places.items }
    ensures { IfOk result (λ numbers. numbers ≡ numbers_in units.now known.now.places.items unit spots.now) }
{
    let mut numbers = Vec::new(alloc);
    for at in spots {
        numbers.push(number_of(units, known, RulePlace { unit, at: *at }))?;
    }
    Ok(Seq::from_vec(numbers))
}

/// Those of a profile's rules.
fn numbers_of(
    alloc: Global,
    units: &[PlacedUnit<'_>],
    known: &KnownPlaces<'_>,
    unit: usize,
    of: &ProfilePlaces<'_>,
) -> Result<PlaceNumbers, AllocError>
    requires { AreKeys units.now known.now.keys.keys known.now.places.items }
    ensures { IfOk result (λ numbers. numbers ≡ numbers_of units.now known.now.places.items unit of.now) }
{
    Ok(PlaceNumbers {
        files: numbers_in(alloc, units, known, unit, of.files.as_slice())?,
        caps: numbers_in(alloc, units, known, unit, of.caps.as_slice())?,
        nets: numbers_in(alloc, units, known, unit, of.nets.as_slice())?,
        changes: numbers_in(alloc, units, known, unit, of.changes.as_slice())?,
    })
}

fn no_numbers(alloc: Global) -> PlaceNumbers
    ensures { result ≡ record { files = []; caps = []; nets = []; changes = [] } }
{
    PlaceNumbers {
        files: Seq::from_vec(Vec::new(alloc)),
        caps: Seq::from_vec(Vec::new(alloc)),
        nets: Seq::from_vec(Vec::new(alloc)),
        changes: Seq::from_vec(Vec::new(alloc)),
    }
}

/// The same, where they are there.
fn numbers_known(
    alloc: Global,
    units: &[PlacedUnit<'_>],
    known: &KnownPlaces<'_>,
    unit: Option<&usize>,
    of: Option<&ProfilePlaces<'_>>,
) -> Result<PlaceNumbers, AllocError>
    requires { AreKeys units.now known.now.keys.keys known.now.places.items }
    ensures { IfOk result (λ numbers. numbers ≡ numbers_known units.now known.now.places.items (option_map (λ u. u.now) unit.entry) (option_map (λ p. p.now) of.entry)) }
{
    match (unit, of) {
        (Some(unit), Some(of)) => numbers_of(alloc, units, known, *unit, of),
        _ => Ok(no_numbers(alloc)),
    }
}

/// Adds the numbers of the places of a profile's rules.
fn push_numbers(
    numbers: &mut Vec<PlaceNumbers>,
    alloc: Global,
    units: &[PlacedUnit<'_>],
    known: &KnownPlaces<'_>,
    unit: Option<&usize>,
    of: Option<&ProfilePlaces<'_>>,
) -> Result<(), AllocError>
    requires { AreKeys units.now known.now.keys.keys known.now.places.items }
    ensures { OnOk result (numbers.new.items ≡ numbers.old.items ++ numbers_known units.now known.now.places.items (option_map (λ u. u.now) unit.entry) (option_map (λ p. p.now) of.entry) ∷ []) }
{
    numbers.push(numbers_known(alloc, units, known, unit, of)?)?;
    Ok(())
}

/// Of all profiles, the numbers of the places of their rules.
pub(crate) fn all_numbers(
    alloc: Global,
    decided: Decided<'_>,
    known: &KnownPlaces<'_>,
) -> Result<Vec<PlaceNumbers>, AllocError>
    requires { AreKeys decided.units.now known.now.keys.keys known.now.places.items }
    ensures { IfOk result (λ numbers. numbers.items ≡ first_numbers decided.entry known.now.places.items (length decided.entry.places.now)) }
{
    let mut numbers = Vec::new(alloc);
    for number in 0..decided.places.len() {
        push_numbers(
            &mut numbers,
            alloc,
            decided.units,
            known,
            decided.owners.get(number),
            decided.places.get(number),
        )?;
    }
    Ok(numbers)
}
