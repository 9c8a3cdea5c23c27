//! What stands first in a line.

ghost use Rattle.std.specs.Prelude.{◌≡◌, ◌≤◌, ◌<◌, ◌+◌, ◌^◌, ◌==◌, not, length, min, take, drop, option_map, Some, IfSome, position};
ghost use Rattle.std.specs.List.{prefix_len};
ghost use Rattle.aa_logs.specs.Words.{is_separator, is_letter, begins_key, goes_on_key, run_len, key_len, plain_piece, quoted_piece, field_piece, run_piece, keyed_piece, first_piece, word_data};

use crate::word::{Form, LogWord};
use memchr::memchr;

/// A quote is looked for among so many bytes before a search is begun.
const NEAR: usize = 8;

/// What stands first in a line, and the word that it is, if it is one.
#[derive(Clone, Copy, Debug)]
pub(crate) struct Piece<'s> {
    /// How long it is.
    pub bytes: usize,
    pub word: Option<LogWord<'s>>,
}

fn is_separator(b: u8) -> bool
    ensures { result ≡ is_separator b }
{
    b == b' ' || b == b'\t' || b == 0x1d
}

fn begins_key(b: u8) -> bool
    ensures { result ≡ begins_key b }
{
    (b >= b'a' && b <= b'z') || (b >= b'A' && b <= b'Z') || b == b'_'
}

/// The bytes that a key can go on with, each at its place; a dot stands for another.
const KEY_BYTES: [u8; 256] =
    *b"................................................0123456789.......ABCDEFGHIJKLMNOPQRSTUVWXYZ...._.abcdefghijklmnopqrstuvwxyz.....................................................................................................................................";

#[tactic(auto, using(crate::proofs::KeyBytes::as_listed))]
fn goes_on_key(b: u8) -> bool
    ensures { result ≡ goes_on_key b }
{
    KEY_BYTES[usize::from(b)] != b'.'
}

/// How long the run is up to the next separator.
fn run_length(bytes: &[u8]) -> usize
    ensures count { result ≡ run_len bytes.now }
    ensures within { result ≤ length bytes.now }
{
    bytes.iter().take_while(|b| !is_separator(**b)).count()
}

/// How far letters, digits and `_` go.
fn rest_of_key(bytes: &[u8]) -> usize
    ensures count { result ≡ prefix_len goes_on_key bytes.now }
    ensures within { result ≤ length bytes.now }
{
    bytes.iter().take_while(|b| goes_on_key(**b)).count()
}

/// How long the key is that stands first.
#[tactic(auto, unfolding(crate::specs::Words::key_len))]
fn key_length(bytes: &[u8]) -> usize
    ensures count { result ≡ key_len bytes.now }
    ensures within { result ≤ length bytes.now }
{
    match bytes {
        [b, rest @ ..] if begins_key(*b) => rest_of_key(rest) + 1,
        _ => 0,
    }
}

/// The word of a piece.
fn word_of<'s>(form: Form, key: &'s [u8], text: &'s [u8]) -> Option<LogWord<'s>>
    ensures { option_map word_data result ≡ Some (record { form = form; key = key.entry.now; text = text.entry.now }) }
{
    Some(LogWord { form, key, text })
}

/// `KEY=RUN`, of this form.
fn plain_piece<'s>(form: Form, key: &'s [u8], value: &'s [u8]) -> Piece<'s>
    requires { length key.now + 1 + length value.now < 2 ^ 64 }
    ensures bytes { result.bytes ≡ (plain_piece form key.entry.now value.entry.now).bytes }
    ensures word { option_map word_data result.word ≡ (plain_piece form key.entry.now value.entry.now).word }
    ensures within { result.bytes ≤ length key.entry.now + 1 + length value.entry.now }
{
    let length = run_length(value);
    Piece {
        bytes: key.len() + 1 + length,
        word: word_of(form, key, &value[..length]),
    }
}

/// How far the next quote is, where it is among the first bytes.
fn near_quote(text: &[u8]) -> Option<usize>
    ensures value { result ≡ position (λ c. c == 34) (take (min 8 (length text.now)) text.now) }
{
    text[..NEAR.min(text.len())].iter().position(|b| *b == b'"')
}

/// How far the next quote is, by a search.
fn far_quote(text: &[u8]) -> Option<usize>
    ensures value { result ≡ position (λ c. c == 34) text.now }
    ensures within { IfSome result (λ n. n < length text.now) }
{
    memchr(b'"', text)
}

/// How far the next quote is; most are near.
#[tactic(auto, using(crate::proofs::Quotes::near_found, crate::proofs::Quotes::near_within))]
fn quote_at(text: &[u8]) -> Option<usize>
    ensures value { result ≡ position (λ c. c == 34) text.now }
    ensures within { IfSome result (λ n. n < length text.now) }
{
    match near_quote(text) {
        Some(at) => Some(at),
        None => far_quote(text),
    }
}

/// `KEY="TEXT"` with so long a text, or where no quote closes it, what a run would be.
fn quoted_by<'s>(key: &'s [u8], value: &'s [u8], text: &'s [u8], close: Option<usize>) -> Piece<'s>
    requires room { length key.now + 1 + length value.now < 2 ^ 64 }
    requires text { (text.now ≡ drop 1 value.now) × (length text.now + 1 ≡ length value.now) }
    requires close { IfSome close (λ n. n < length text.now) }
    ensures bytes { result.bytes ≡ (quoted_piece key.entry.now value.entry.now close).bytes }
    ensures word { option_map word_data result.word ≡ (quoted_piece key.entry.now value.entry.now close).word }
    ensures within { result.bytes ≤ length key.entry.now + 1 + length value.entry.now }
{
    match close {
        Some(length) => Piece {
            bytes: key.len() + length + 3,
            word: word_of(Form::Quoted, key, &text[..length]),
        },
        None => plain_piece(Form::Open, key, value),
    }
}

/// `KEY="TEXT"`, or where no quote closes it, what a run would be.
fn quoted_piece<'s>(key: &'s [u8], value: &'s [u8], text: &'s [u8]) -> Piece<'s>
    requires room { length key.now + 1 + length value.now < 2 ^ 64 }
    requires text { (text.now ≡ drop 1 value.now) × (length text.now + 1 ≡ length value.now) }
    ensures bytes { result.bytes ≡ (quoted_piece key.entry.now value.entry.now (position (λ c. c == 34) text.entry.now)).bytes }
    ensures word { option_map word_data result.word ≡ (quoted_piece key.entry.now value.entry.now (position (λ c. c == 34) text.entry.now)).word }
    ensures within { result.bytes ≤ length key.entry.now + 1 + length value.entry.now }
{
    let close = quote_at(text);
    quoted_by(key, value, text, close)
}

/// What a key with its sign is, by what stands behind the sign.
#[tactic(auto, unfolding(crate::specs::Words::field_piece))]
fn field_piece<'s>(key: &'s [u8], value: &'s [u8]) -> Piece<'s>
    requires { length key.now + 1 + length value.now < 2 ^ 64 }
    ensures bytes { result.bytes ≡ (field_piece key.entry.now value.entry.now).bytes }
    ensures word { option_map word_data result.word ≡ (field_piece key.entry.now value.entry.now).word }
    ensures within { result.bytes ≤ length key.entry.now + 1 + length value.entry.now }
{
    match value {
        [b'"', text @ ..] => quoted_piece(key, value, text),
        [b'\'', ..] => Piece {
            bytes: key.len() + 2,
            word: None,
        },
        _ => plain_piece(Form::Plain, key, value),
    }
}

fn run_piece<'s>(line: &'s [u8]) -> Piece<'s>
    ensures bytes { result.bytes ≡ (run_piece line.entry.now).bytes }
    ensures word { option_map word_data result.word ≡ (run_piece line.entry.now).word }
    ensures within { result.bytes ≤ length line.entry.now }
{
    let length = run_length(line);
    Piece {
        bytes: length,
        word: word_of(Form::Run, &[], &line[..length]),
    }
}

/// What stands first where no separator does.
fn keyed_piece<'s>(line: &'s [u8], key: &'s [u8], behind: &'s [u8]) -> Piece<'s>
    requires { length key.now + length behind.now ≡ length line.now }
    ensures bytes { result.bytes ≡ (keyed_piece line.entry.now key.entry.now behind.entry.now).bytes }
    ensures word { option_map word_data result.word ≡ (keyed_piece line.entry.now key.entry.now behind.entry.now).word }
    ensures within { result.bytes ≤ length line.entry.now }
{
    let _all = line.len();
    match behind {
        [b'=', value @ ..] if !key.is_empty() => field_piece(key, value),
        _ => run_piece(line),
    }
}

/// What stands first in a line that isn't empty: a separator, a field, or another run.
#[tactic(auto, unfolding(crate::specs::Words::first_piece))]
pub(crate) fn first_piece<'s>(line: &'s [u8]) -> Piece<'s>
    ensures bytes { result.bytes ≡ (first_piece line.entry.now).bytes }
    ensures word { option_map word_data result.word ≡ (first_piece line.entry.now).word }
    ensures within { result.bytes ≤ length line.entry.now }
{
    match line {
        [] => Piece {
            bytes: 0,
            word: None,
        },
        [b, ..] if is_separator(*b) => Piece {
            bytes: 1,
            word: None,
        },
        _ => {
            let (key, behind) = line.split_at(key_length(line));
            keyed_piece(line, key, behind)
        }
    }
}
