//! The places of many bytes of one text.

ghost use Rattle.std.specs.Prelude.{◌≡◌, ◌+◌, ◌<◌, ◌≤◌, ◌^◌, ◌++◌, ◌∷◌, [], List, ℕ, length, IfOk};
ghost use Rattle.aa_text.specs.Places.{place_behind, place_in};

use crate::place::{Place, continues, ends_line};
use std::alloc::{AllocError, Global};
use std::marker::Model;

/// How many bytes stand between two places that are kept.
const APART: usize = 256;

/// A text with the places of some of its bytes, from which those of the others are counted. It is seen as the text.
#[derive(Drop)]
pub struct PlacedText<'t> {
    text: &'t [u8],
    kept: Vec<Place>,
}

impl<'t> Model for PlacedText<'t> {
    ghost use Rattle.std.specs.Prelude.{List, ℕ};
    ghost use Rattle.aa_text.specs.Kept.{AreKept};

    ghost Value = { List ℕ };

    ghost view = { λ p. p.text.now };

    ghost invariant = { λ p. AreKept p.text.now p.kept.items };
}

/// The place behind one byte more.
fn next_place(place: Place, b: u8) -> Place
    requires line { place.line + 1 < 2 ^ 64 }
    requires column { place.column + 1 < 2 ^ 64 }
    ensures { (before : List ℕ) → place ≡ place_behind before → result ≡ place_behind (before ++ b ∷ []) }
{
    if ends_line(b) {
        return Place {
            line: place.line + 1,
            column: 1,
        };
    }
    if continues(b) {
        return place;
    }
    Place {
        line: place.line,
        column: place.column + 1,
    }
}

/// The place of a byte, counted from that of an earlier one.
fn place_from(text: &[u8], start: usize, place: Place, end: usize) -> Place
    requires place { place ≡ place_in text.now start }
    requires order { start ≤ end }
    requires within { end ≤ length text.now }
    ensures { result ≡ place_in text.now end }
{
    let mut behind = place;
    for at in start..end {
        behind = next_place(behind, text[at]);
    }
    behind
}

impl<'t> PlacedText<'t> {
    /// A text with its places, which are counted once.
    pub fn new(alloc: Global, text: &'t [u8]) -> Result<PlacedText<'t>, AllocError>
        ensures { IfOk result (λ placed. placed ≡ text.entry.now) }
    {
        let mut kept = Vec::new(alloc);
        let mut place = Place { line: 1, column: 1 };
        for number in 0..text.len() / APART + 1 {
            let start = APART * number;
            kept.push(place)?;
            place = place_from(text, start, place, text.len().min(start + APART));
        }
        Ok(PlacedText { text, kept })
    }

    /// The place of the byte of this number, counted from 0. A number behind the text's last byte stands for its end.
    pub fn place_of(&self, byte: usize) -> Place
        ensures { result ≡ place_in self.now byte }
    {
        let end = byte.min(self.text.len());
        let number = end / APART;
        place_from(self.text, APART * number, self.kept[number], end)
    }
}
