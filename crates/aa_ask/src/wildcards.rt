//! The names that a text with `*` stands for.

ghost use Rattle.std.specs.Prelude.{◌≡◌, map, IfOk};
ghost use Rattle.aa_ask.specs.Wildcards.{name_item, is_in_digits, stands_for, may_begin, begins_in_digits, may_stand_for};

use crate::asking::name_in_digits;
use aa_compile::is_matched;
use aa_pattern::{Item, Pattern};
use std::alloc::{AllocError, Global};

/// In the text of a name `*` stands for any bytes, each other byte for itself.
fn name_item(byte: u8) -> Item
    ensures { result ≡ name_item byte }
{
    if byte == b'*' {
        Item::Deep
    } else {
        Item::Byte(byte)
    }
}

/// The names that a text stands for, as a pattern.
pub fn name_pattern(alloc: Global, text: &[u8]) -> Result<Pattern, AllocError>
    ensures { IfOk result (λ p. p.items.items ≡ map name_item text.now) }
{
    let mut items = Vec::new(alloc);
    for byte in text {
        items.push(name_item(*byte))?;
    }
    Ok(Pattern { items })
}

/// Whether a name stands so in hexadecimal digits.
pub fn is_in_digits(alloc: Global, digits: &[u8], name: &[u8]) -> Result<bool, AllocError>
    ensures { IfOk result (λ is. is ≡ is_in_digits digits.now name.now) }
{
    match name_in_digits(alloc, digits)? {
        Some(text) => Ok(text.as_slice() == name),
        None => Ok(false),
    }
}

/// Whether a text stands for a full name.
pub fn stands_for(alloc: Global, text: &[u8], name: &[u8]) -> Result<bool, AllocError>
    ensures { IfOk result (λ is. is ≡ stands_for text.now name.now) }
{
    let pattern = name_pattern(alloc, text)?;
    if is_matched(&pattern, name) {
        return Ok(true);
    }
    is_in_digits(alloc, text, name)
}

/// Whether a text with any bytes for each `*` may stand for a name that begins so.
pub fn may_begin(front: &[u8], text: &[u8]) -> bool
    ensures { result ≡ may_begin front.now text.now }
{
    let mut behind = front;
    let mut rest = text;
    while let [c, after @ ..] = behind {
        let [b, others @ ..] = rest else {
            return false;
        };
        if *b == b'*' {
            return true;
        }
        if *b != *c {
            return false;
        }
        behind = after;
        rest = others;
    }
    true
}

/// Whether the name that stands in hexadecimal digits begins so.
pub fn begins_in_digits(alloc: Global, digits: &[u8], front: &[u8]) -> Result<bool, AllocError>
    ensures { IfOk result (λ begins. begins ≡ begins_in_digits digits.now front.now) }
{
    match name_in_digits(alloc, digits)? {
        Some(name) => Ok(name.as_slice().starts_with(front)),
        None => Ok(false),
    }
}

/// Whether a text may stand for a full name that begins so.
pub fn may_stand_for(alloc: Global, text: &[u8], front: &[u8]) -> Result<bool, AllocError>
    ensures { IfOk result (λ may. may ≡ may_stand_for text.now front.now) }
{
    if may_begin(front, text) {
        return Ok(true);
    }
    begins_in_digits(alloc, text, front)
}
