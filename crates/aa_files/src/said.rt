//! What is said of a place in a unit, and of a name whose two forms find different things.

ghost use Rattle.std.specs.Prelude.{◌≡◌, ◌++◌, codes, option_map, IfOk};
ghost use Rattle.aa_files.specs.Links.{place_if, excerpt_if};
ghost use Rattle.aa_files.specs.Ambiguities.{difference, SaysAmbiguous};

use crate::trail::links_to;
use crate::unit::{Unit, text_of_node};
use aa_text::{FaultReport, PlaceAt, excerpt, place_at, push_text};
use std::alloc::{AllocError, Global};

/// The place of a byte in a text, where it is told.
pub fn place_if(there: bool, text: &[u8], byte: usize) -> Option<PlaceAt>
    ensures { result ≡ place_if there text.now byte }
{
    if there {
        Some(place_at(text, byte))
    } else {
        None
    }
}

/// The line there with a caret, where the place is told.
pub fn excerpt_if(
    alloc: Global,
    there: bool,
    text: &[u8],
    byte: usize,
) -> Result<Vec<u8>, AllocError>
    ensures { IfOk result (λ lines. lines.items ≡ excerpt_if there text.now byte) }
{
    if there {
        excerpt(alloc, text, byte)
    } else {
        Ok(Vec::new(alloc))
    }
}

/// That each form finds something, at its path.
fn both_are_found(alloc: Global, before: &[u8], here: &[u8]) -> Result<Vec<u8>, AllocError>
    ensures { IfOk result (λ message. message.items ≡ before.now ++ codes " and " ++ here.now ++ codes " both have this name") }
{
    let mut message = Vec::from_slice(alloc, before)?;
    push_text(&mut message, " and ")?;
    message.extend_from_slice(here)?;
    push_text(&mut message, " both have this name")?;
    Ok(message)
}

/// That only the other form finds something, at its path.
fn nothing_is_here(alloc: Global, before: &[u8]) -> Result<Vec<u8>, AllocError>
    ensures { IfOk result (λ message. message.items ≡ codes "nothing has this name here, and " ++ before.now ++ codes " has it for its other form") }
{
    let mut message = Vec::new(alloc);
    push_text(&mut message, "nothing has this name here, and ")?;
    message.extend_from_slice(before)?;
    push_text(&mut message, " has it for its other form")?;
    Ok(message)
}

/// That only this form finds something, at its path.
fn nothing_was_before(alloc: Global, here: &[u8]) -> Result<Vec<u8>, AllocError>
    ensures { IfOk result (λ message. message.items ≡ here.now ++ codes " has this name, and nothing has it for its other form") }
{
    let mut message = Vec::from_slice(alloc, here)?;
    push_text(
        &mut message,
        " has this name, and nothing has it for its other form",
    )?;
    Ok(message)
}

/// How the two forms of a name differ: the path that each finds, if something lies there.
fn difference(
    alloc: Global,
    before: Option<&[u8]>,
    here: Option<&[u8]>,
) -> Result<Vec<u8>, AllocError>
    ensures { IfOk result (λ message. message.items ≡ difference (option_map (λ p. p.now) before.entry) (option_map (λ p. p.now) here.entry)) }
{
    match (before, here) {
        (Some(before), Some(here)) => both_are_found(alloc, before, here),
        (Some(before), None) => nothing_is_here(alloc, before),
        (None, Some(here)) => nothing_was_before(alloc, here),
        (None, None) => Ok(Vec::new(alloc)),
    }
}

/// What is said of the include at a byte of a node's text, whose name is included in both forms, which find different things.
pub(crate) fn ambiguous(
    alloc: Global,
    unit: &Unit,
    node: usize,
    byte: usize,
    before: Option<&[u8]>,
    here: Option<&[u8]>,
) -> Result<FaultReport, AllocError>
    ensures { IfOk result (SaysAmbiguous unit.now node byte (difference (option_map (λ p. p.now) before.entry) (option_map (λ p. p.now) here.entry))) }
{
    let (path, text, is_folder) = text_of_node(unit, node);
    let there = !is_folder;
    Ok(FaultReport {
        kind: "AmbiguousInclude",
        path: Vec::from_slice(alloc, path)?,
        place: place_if(there, text, byte),
        message: difference(alloc, before, here)?,
        excerpt: excerpt_if(alloc, there, text, byte)?,
        chain: links_to(alloc, unit, node)?,
        further: Vec::new(alloc),
    })
}
