//! Values of a report's members.

ghost use Rattle.std.specs.Prelude.{◌≡◌, codes, map, true, false, length, slice_index, ◌==◌, ◌<◌, option_map, option_and_then, IfOk};
ghost use Rattle.json.specs.Value.{value_view};
ghost use Rattle.json.specs.Find.{get, as_str, as_number};
ghost use Rattle.serde_json.specs.Find.{as_u64};
ghost use Rattle.serde_json.specs.Read.{number_from, number_of};
ghost use Rattle.aa_notation.specs.Kinds.{request_in};
ghost use Rattle.aa_merge.specs.Reading.{bytes_in, list_in, number_in, request_of};

use aa_base::from_hex;
use aa_model::Request;
use aa_notation::{WordFault, read_word};
use fast_float::Numeral;
use json::Value;
use std::alloc::{AllocError, Global};

/// A JSON value whose texts are borrowed.
pub(crate) type Tree<'t> = Value<'t>;

/// The digits of an object that has bytes in them.
fn digits_of<'t>(value: &Tree<'t>) -> Option<&'t str>
    ensures { option_map (λ t. t.now) result ≡ option_and_then as_str (get (codes "hex") (value_view value.now)) }
{
    match value.get("hex") {
        Some(digits) => digits.as_str(),
        None => None,
    }
}

/// Bytes that are a text, or an object with their digits.
pub(crate) fn bytes_of(alloc: Global, value: &Tree<'_>) -> Result<Option<Vec<u8>>, AllocError>
    ensures { IfOk result (λ bytes. option_map (λ b. b.items) bytes ≡ bytes_in (value_view value.now)) }
{
    if let Some(text) = value.as_str() {
        return Ok(Some(Vec::from_slice(alloc, text.as_bytes())?));
    }
    match digits_of(value) {
        Some(digits) => from_hex(alloc, digits.as_bytes()),
        None => Ok(None),
    }
}

fn has_minus(digits: &[u8]) -> bool
    ensures value { result ≡ (slice_index digits.now 0 == 45) }
    ensures some { result ≡ true → 0 < length digits.now }
{
    !digits.is_empty() && digits[0] == b'-'
}

/// The number of 64 bits without a sign that the text writes.
fn unsigned_of(digits: &[u8]) -> Option<u64>
    ensures { result ≡ option_and_then as_u64 (number_of digits.now) }
{
    if has_minus(digits) {
        None
    } else {
        unsigned_in(&Numeral::scan(digits))
    }
}

fn unsigned_in(numeral: &Numeral) -> Option<u64>
    ensures { result ≡ option_and_then as_u64 (number_from false numeral.now) }
{
    numeral.to_u64()
}

pub(crate) fn number_of(value: &Tree<'_>) -> Option<u64>
    ensures { result ≡ number_in (value_view value.now) }
{
    match value.as_number() {
        Some(digits) => unsigned_of(digits.as_bytes()),
        None => None,
    }
}

/// The items of a list.
pub(crate) fn list_of<'v, 't>(value: &'v Tree<'t>) -> Option<&'v [Tree<'t>]>
    ensures { option_map (λ s. map value_view s.now) result ≡ list_in (value_view value.now) }
{
    if let Value::Array(items) = value {
        Some(items.as_slice())
    } else {
        None
    }
}

/// The request that a word is.
fn request_in(alloc: Global, word: &[u8]) -> Result<Option<Request>, AllocError>
    ensures { IfOk result (λ request. request ≡ request_in false word.now) }
{
    match read_word(alloc, word, false) {
        Ok(request) => Ok(Some(request)),
        Err(WordFault::NoMemory) => Err(AllocError),
        Err(WordFault::NoRequest) => Ok(None),
    }
}

/// The request whose word a value is.
pub(crate) fn request_of(alloc: Global, value: &Tree<'_>) -> Result<Option<Request>, AllocError>
    ensures { IfOk result (λ request. request ≡ request_of (value_view value.now)) }
{
    match bytes_of(alloc, value)? {
        Some(word) => request_in(alloc, word.as_slice()),
        None => Ok(None),
    }
}
