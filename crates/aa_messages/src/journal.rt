//! The message of a line that the journal prints as JSON.

ghost use Rattle.std.specs.Prelude.{◌≡◌, option_map, option_and_then, unwrap_or, IfOk};
ghost use Rattle.std.specs.Cow.{cow_slice_items};
ghost use Rattle.serde_json.specs.Find.{as_array};
ghost use Rattle.serde_json.specs.View.{view, items_view};
ghost use Rattle.aa_messages.specs.Journal.{begins_object, byte_in, bytes_of, text_in, message_of, json_message, message_in};

use serde_json::Value;
use std::alloc::{AllocError, Global};
use std::borrow::CowSlice;

/// Whether a line begins as an object does.
pub(crate) fn begins_object(line: &[u8]) -> bool
    ensures { result ≡ begins_object line.now }
{
    match line {
        [b, ..] => *b == b'{',
        [] => false,
    }
}

/// The byte that a value is, where it is one.
fn byte_in(value: &Value) -> Option<u8>
    ensures { result ≡ byte_in (view value.now) }
{
    match value.as_u64() {
        Some(number) if number < 256 => Some(number as u8),
        _ => None,
    }
}

/// The bytes that values are, where each is one.
fn bytes_of(alloc: Global, values: &[Value]) -> Result<Option<Vec<u8>>, AllocError>
    ensures { IfOk result (λ m. option_map (λ bytes. bytes.items) m ≡ bytes_of (items_view values.now)) }
{
    let mut bytes = Vec::new(alloc);
    let mut rest = values;
    while let [value, after @ ..] = rest {
        match byte_in(value) {
            Some(byte) => bytes.push(byte)?,
            None => return Ok(None),
        }
        rest = after;
    }
    Ok(Some(bytes))
}

fn bytes_in(alloc: Global, value: &Value) -> Result<Option<Vec<u8>>, AllocError>
    ensures { IfOk result (λ m. option_map (λ bytes. bytes.items) m ≡ option_and_then bytes_of (as_array (view value.now))) }
{
    match value.as_array() {
        Some(values) => bytes_of(alloc, values.as_slice()),
        None => Ok(None),
    }
}

/// A text, or the bytes of one that isn't UTF-8.
fn text_in(alloc: Global, value: &Value) -> Result<Option<Vec<u8>>, AllocError>
    ensures { IfOk result (λ m. option_map (λ b. b.items) m ≡ text_in (view value.now)) }
{
    match value.as_str() {
        Some(text) => Ok(Some(Vec::from_slice(alloc, text.as_bytes())?)),
        None => bytes_in(alloc, value),
    }
}

/// The message of an object, where it is a text or the bytes of one.
fn message_of(alloc: Global, value: &Value) -> Result<Option<Vec<u8>>, AllocError>
    ensures { IfOk result (λ m. option_map (λ b. b.items) m ≡ message_of (view value.now)) }
{
    match value.get("MESSAGE") {
        Some(found) => text_in(alloc, found),
        None => Ok(None),
    }
}

/// The message of the object that a line is, where it is one.
#[tactic(auto, using(crate::proofs::Reading::read_so, crate::proofs::Reading::read_not))]
fn json_message(alloc: Global, line: &[u8]) -> Result<Option<Vec<u8>>, AllocError>
    ensures { IfOk result (λ m. option_map (λ b. b.items) m ≡ json_message line.now) }
{
    match Value::from_slice(alloc, line) {
        Ok(value) => message_of(alloc, &value),
        Err(e) if e.is_memory() => Err(AllocError),
        Err(_) => Ok(None),
    }
}

fn message_or<'l>(line: &'l [u8], message: Option<Vec<u8>>) -> CowSlice<'l, u8, Global>
    ensures { cow_slice_items result ≡ unwrap_or (option_map (λ b. b.items) message) line.entry.now }
{
    match message {
        Some(message) => CowSlice::Owned(message),
        None => CowSlice::Borrowed(line),
    }
}

/// The message that a line is: that of an object of the journal which has one as a text or as a list of its bytes, else the line itself.
#[tactic(auto, unfolding(crate::specs::Journal::message_in))]
pub fn message_in<'l>(alloc: Global, line: &'l [u8]) -> Result<CowSlice<'l, u8, Global>, AllocError>
    ensures { IfOk result (λ m. cow_slice_items m ≡ message_in line.entry.now) }
{
    if !begins_object(line) {
        return Ok(CowSlice::Borrowed(line));
    }
    Ok(message_or(line, json_message(alloc, line)?))
}
