//! The includes of a text by itself.

ghost use Rattle.std.specs.Prelude.{◌≡◌, ◌≤◌, ◌+◌, ◌^◌, ◌<◌, length, map, IfOk, OnOk, ◌++◌};
ghost use Rattle.aa_words.specs.Includes.{included_name, is_optional};
ghost use Rattle.aa_words.specs.Splits.{is_include};
ghost use Rattle.aa_words.specs.Found.{IncludeData, include_from, HasIncludes};
ghost use Rattle.aa_words.specs.FoundData.{includes_data};

use crate::cut::next_piece;
use crate::includes::{may_be_missing, name_of_include};
use crate::piece::{Piece, Place, place_behind, stands_for_source};
use std::alloc::{AllocError, Global};

/// An include, as it stands in a text.
#[derive(Clone, Copy, Debug)]
pub struct IncludeAt<'s> {
    /// Its first byte, counted from 0.
    pub byte: usize,
    /// Its text, from the keyword on.
    pub text: &'s [u8],
}

impl<'s> IncludeAt<'s> {
    /// The name between its signs.
    pub fn name(&self) -> &'s [u8]
        ensures { result.now ≡ included_name self.now.text.now }
    {
        name_of_include(self.text)
    }

    /// Whether it may be missing: `if exists` stands in it.
    pub fn is_optional(&self) -> bool
        ensures { result ≡ is_optional self.now.text.now }
    {
        may_be_missing(self.text)
    }
}

/// Puts a piece behind the includes, if it is one.
fn push_include<'s>(
    found: &mut Vec<IncludeAt<'s>>,
    piece: Piece,
    text: &'s [u8],
    byte: usize,
) -> Result<(), AllocError>
    ensures { OnOk result (includes_data found.new.items
        ≡ includes_data found.old.items ++ include_from byte (record { kind = piece; text = text.now })) }
{
    if stands_for_source(piece) {
        found.push(IncludeAt { byte, text })?;
    }
    Ok(())
}

/// The includes of a text, in their order, up to its end or to where its words break off. How a text is cut depends on it
/// alone, so these are its includes whatever sources there are and wherever it is read.
pub fn includes_of<'s>(alloc: Global, source: &'s [u8]) -> Result<Vec<IncludeAt<'s>>, AllocError>
    ensures { IfOk result (λ found. HasIncludes source.now (includes_data found.items)) }
{
    let mut found = Vec::new(alloc);
    let mut rest = source;
    let mut at = 0;
    let mut place = Place::START;
    while !rest.is_empty() {
        let Some((piece, len)) = next_piece(rest, place) else {
            return Ok(found);
        };
        let (text, after) = rest.split_at(len);
        push_include(&mut found, piece, text, at)?;
        place = place_behind(place, piece, text);
        at += len;
        rest = after;
    }
    Ok(found)
}
