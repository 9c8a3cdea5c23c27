//! What the fields of a line tell: texts, names, numbers.

ghost use Rattle.std.specs.Prelude.{◌≡◌, ◌≤◌, ◌<◌, ◌+◌, ◌&&◌, length, nat_eq, option_map, nat_lt, ◌-◌, ◌*◌, ◌^◌, if◌then◌else◌, Some, None, IfOk, IfSome};
ghost use Rattle.std.specs.List.{starts_with};
ghost use Rattle.std.specs.Option.{is_some, option_and_then, option_or};
ghost use Rattle.std.specs.Str.{bytes_eq};
ghost use Rattle.std.specs.Cow.{cow_slice_items};
ghost use Rattle.aa_logs.specs.Fields.{raw_in, text_in, place_of, is_digit, number_from, number_in};
ghost use Rattle.aa_logs.specs.Keys.{key_name};

use crate::key::Key;
use crate::keyed::KeyedWords;
use crate::value::name_in;
use std::alloc::{AllocError, Global};
use std::borrow::CowSlice;

/// So many bytes of a known text are compared at once, without a call.
const AT_ONCE: usize = 8;

/// Whether a text is that one.
#[inline(always)]
pub(crate) fn is_text(text: &[u8], wanted: &str) -> bool
    ensures { result ≡ bytes_eq text.now wanted.now }
{
    text.len() == wanted.len() && begins(text, wanted)
}

/// Whether a text begins so.
#[inline(always)]
pub(crate) fn begins(text: &[u8], front: &str) -> bool
    ensures value { result ≡ starts_with nat_eq text.now front.now }
{
    let front = front.as_bytes();
    if front.len() <= AT_ONCE {
        return text.starts_with(front);
    }
    let (first, rest) = front.split_at(AT_ONCE);
    text.starts_with(first) && text[AT_ONCE..].starts_with(rest)
}

/// The first place at which a part stands in a text.
pub(crate) fn place_of(text: &[u8], part: &str) -> Option<usize>
    ensures value { result ≡ place_of part.now text.now }
    ensures within { IfSome result (λ n. n + length part.now ≤ length text.now) }
{
    for at in 0..text.len() {
        if begins(&text[at..], part) {
            return Some(at);
        }
    }
    None
}

pub(crate) fn has_part(text: &[u8], part: &str) -> bool
    ensures { result ≡ is_some (place_of part.now text.now) }
{
    place_of(text, part).is_some()
}

/// The value of a field as it stands.
pub(crate) fn raw_of<'s>(words: &KeyedWords<'s>, key: Key) -> Option<&'s [u8]>
    ensures { option_map (λ t. t.now) result ≡ raw_in (key_name key) words.entry.now }
{
    match words.last(key) {
        Some(word) => Some(word.text),
        None => None,
    }
}

/// The bytes that the value of a field stands for which is a name.
pub(crate) fn text_of<'s>(
    alloc: Global,
    words: &KeyedWords<'s>,
    key: Key,
) -> Result<Option<CowSlice<'s, u8, Global>>, AllocError>
    ensures { IfOk result (λ name. option_map cow_slice_items name ≡ text_in (key_name key) words.entry.now) }
{
    match words.last(key) {
        Some(word) => Ok(Some(name_in(alloc, &word)?)),
        None => Ok(None),
    }
}

/// The first of two names that is there.
pub(crate) fn either_text<'s>(
    alloc: Global,
    words: &KeyedWords<'s>,
    first: Key,
    second: Key,
) -> Result<Option<CowSlice<'s, u8, Global>>, AllocError>
    ensures { IfOk result (λ name. option_map cow_slice_items name ≡ option_or (text_in (key_name first) words.entry.now) (text_in (key_name second) words.entry.now)) }
{
    match text_of(alloc, words, first)? {
        Some(name) => Ok(Some(name)),
        None => text_of(alloc, words, second),
    }
}

pub(crate) fn is_digit(b: u8) -> bool
    ensures { result ≡ is_digit b }
{
    b >= b'0' && b <= b'9'
}

/// The number that a digit behind it makes, if it is below 2^64.
fn with_digit(number: u64, b: u8) -> Option<u64>
    ensures { result ≡ (if is_digit b && nat_lt (10 * number + (b - 48)) (2 ^ 64) then Some (10 * number + (b - 48)) else None) }
{
    if !is_digit(b) {
        return None;
    }
    number.checked_mul(10)?.checked_add(u64::from(b - b'0'))
}

/// A decimal number.
pub(crate) fn number_of(text: &[u8]) -> Option<u64>
    ensures { result ≡ number_in text.now }
{
    if text.is_empty() {
        return None;
    }
    let mut number: u64 = 0;
    for b in text {
        let Some(after) = with_digit(number, *b) else {
            return None;
        };
        number = after;
    }
    Some(number)
}

/// The number that is the value of a field.
pub(crate) fn number_in(words: &KeyedWords<'_>, key: Key) -> Option<u64>
    ensures { result ≡ option_and_then number_in (raw_in (key_name key) words.now) }
{
    match raw_of(words, key) {
        Some(text) => number_of(text),
        None => None,
    }
}
