//! Places in texts, as people count.

ghost use Rattle.std.specs.Prelude.{◌≡◌, ◌++◌, OnOk};
ghost use Rattle.aa_text.specs.Places.{place_in};
ghost use Rattle.aa_text.specs.Texts.{line_and_column, place_text, where_text};
ghost use Rattle.aa_text.specs.Jsons.{line_members, json_place};

use crate::json_text::{push_json_bytes, push_key};
use crate::place::place_of;
use crate::text::{push_number, push_text};
use crate::to_json::push_member;
use crate::visible::push_visible;
use std::alloc::{AllocError, Global};

/// A place in a text, as people count, and its byte from 0.
#[derive(Clone, Copy, Debug)]
pub struct PlaceAt {
    pub line: usize,
    pub column: usize,
    pub byte: usize,
}

/// A byte's place in its text.
pub fn place_at(text: &[u8], byte: usize) -> PlaceAt
    ensures { let place = place_in text.now byte in result ≡ record { line = place.line; column = place.column; byte = byte } }
{
    let place = place_of(text, byte);
    PlaceAt {
        line: place.line,
        column: place.column,
        byte,
    }
}

#[tactic(auto, unfolding(crate::specs::Texts::place_text))]
fn push_at(out: &mut Vec<u8>, place: PlaceAt) -> Result<(), AllocError>
    ensures { OnOk result (out.new.items ≡ out.old.items ++ place_text place) }
{
    push_text(out, ":")?;
    push_number(out, place.line)?;
    push_text(out, ":")?;
    push_number(out, place.column)
}

/// Appends a place in a text, behind a colon: its line and column.
#[tactic(auto, unfolding(crate::specs::Texts::place_text))]
pub fn push_place(out: &mut Vec<u8>, text: &[u8], byte: usize) -> Result<(), AllocError>
    ensures { let place = place_in text.now byte in OnOk result (out.new.items ≡ out.old.items ++ line_and_column place.line place.column) }
{
    push_at(out, place_at(text, byte))
}

/// Appends a path, as it is shown, and a place in it.
pub fn push_where(out: &mut Vec<u8>, path: &[u8], place: PlaceAt) -> Result<(), AllocError>
    ensures { OnOk result (out.new.items ≡ out.old.items ++ where_text path.now place) }
{
    push_visible(out, path)?;
    push_at(out, place)
}

/// Appends a comma, and the members `line` and `column`, where there is a place.
fn push_line_members(
    out: &mut Vec<u8>,
    alloc: Global,
    place: Option<PlaceAt>,
) -> Result<(), AllocError>
    ensures { OnOk result (out.new.items ≡ out.old.items ++ line_members place) }
{
    let Some(place) = place else {
        return Ok(());
    };
    push_member(out, alloc, "line", &place.line)?;
    push_member(out, alloc, "column", &place.column)
}

/// Appends the members `path`, `line` and `column`, the last two where there is a place.
#[tactic(auto, unfolding(crate::specs::Jsons::json_place))]
pub fn push_json_place(
    out: &mut Vec<u8>,
    alloc: Global,
    path: &[u8],
    place: Option<PlaceAt>,
) -> Result<(), AllocError>
    ensures { OnOk result (out.new.items ≡ out.old.items ++ json_place path.now place) }
{
    push_key(out, "path")?;
    push_json_bytes(out, alloc, path)?;
    push_line_members(out, alloc, place)
}
