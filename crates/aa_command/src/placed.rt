//! Units with the places of their texts.

ghost use Rattle.std.specs.Prelude.{◌≡◌, IfOk};
ghost use Rattle.aa_text.specs.Places.{place_in};
ghost use Rattle.aa_files.specs.Numbers.{text_in};

use aa_files::{Unit, text_at};
use aa_text::{PlaceAt, PlacedText, place_at};
use std::alloc::{AllocError, Global};
use std::marker::Model;

/// A unit with the places of its texts, each of which is gone over once. It is seen as the unit.
#[derive(Drop)]
pub struct PlacedUnit<'u> {
    unit: &'u Unit,
    /// Its texts by the numbers that places have.
    texts: Vec<PlacedText<'u>>,
}

impl<'u> Model for PlacedUnit<'u> {
    ghost use Rattle.aa_files.specs.declared.unit.Unit.{Unit};
    ghost use Rattle.aa_files.specs.contracts.unit.Unit as row;
    ghost use Rattle.aa_command.specs.Placed.{AreItsTexts};

    ghost Value = { Unit };

    ghost coded = { row.the_row.coded };

    ghost view = { λ p. p.unit.now };

    ghost invariant = { λ p. AreItsTexts p.unit.now p.texts.items };
}

impl<'u> PlacedUnit<'u> {
    /// A unit with the places of its texts.
    pub fn new(alloc: Global, unit: &'u Unit) -> Result<PlacedUnit<'u>, AllocError>
        ensures { IfOk result (λ placed. placed ≡ unit.entry.now) }
    {
        let mut texts = Vec::new(alloc);
        for number in 0..unit.order.len().min(65535) + 1 {
            let (_, text) = text_at(unit, number as u16);
            texts.push(PlacedText::new(alloc, text)?)?;
        }
        Ok(PlacedUnit { unit, texts })
    }

    /// The unit itself.
    pub fn unit(&self) -> &'u Unit
        ensures { result.now ≡ self.now }
    {
        self.unit
    }

    /// Where a byte of the text of that number stands.
    pub fn place_at(&self, number: u16, byte: usize) -> PlaceAt
        ensures { let place = place_in (text_in self.now number) byte in result ≡ record { line = place.line; column = place.column; byte = byte } }
    {
        let Some(text) = self.texts.get(number as usize) else {
            let (_, text) = text_at(self.unit, number);
            return place_at(text, byte);
        };
        let place = text.place_of(byte);
        PlaceAt {
            line: place.line,
            column: place.column,
            byte,
        }
    }
}

/// Units with the places of their texts.
pub fn place_units<'u>(alloc: Global, units: &'u [Unit]) -> Result<Vec<PlacedUnit<'u>>, AllocError>
    ensures { IfOk result (λ placed. placed.items ≡ units.entry.now) }
{
    let mut placed = Vec::new(alloc);
    for unit in units {
        placed.push(PlacedUnit::new(alloc, unit)?)?;
    }
    Ok(placed)
}
