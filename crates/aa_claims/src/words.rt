//! The words of claims.

ghost use Rattle.std.specs.Prelude.{◌≡◌, ◌+◌, ◌<◌, ◌≤◌, ◌==◌, map, take, drop, length, position, not, IfOk, IfErr, IfSome};
ghost use Rattle.aa_claims.specs.Words.{is_blank, word_data, next_data, count_before, plain_word, quoted_word, next_at, behind_blanks, next_from, IsLater, AreWords};
ghost use Rattle.aa_claims.specs.Faults.{SaysOpen};

use crate::fault::{ClaimFault, Wrong};
use std::alloc::{AllocError, Global};

/// A word of a claim.
#[derive(Drop)]
pub struct ClaimWord {
    /// How many bytes of the text stand before it.
    pub at: usize,
    /// Its bytes, without quotes.
    pub text: Vec<u8>,
    pub is_quoted: bool,
}

/// What stands at a place of a text.
#[derive(Drop)]
pub(crate) enum Piece {
    /// A word, and the place behind it.
    Word(ClaimWord, usize),
    /// A quote that isn't closed, at that place.
    Open(usize),
    /// Nothing more.
    End,
}

fn is_blank(b: u8) -> bool
    ensures { result ≡ is_blank b }
{
    b == b' ' || b == b'\t' || b == b'\r'
}

fn blank_at(text: &[u8]) -> Option<usize>
    ensures found { result ≡ position is_blank text.now }
    ensures within { IfSome result (λ n. n < length text.now) }
{
    text.iter().position(|b| is_blank(*b))
}

fn other_at(text: &[u8]) -> Option<usize>
    ensures found { result ≡ position (λ b. not (is_blank b)) text.now }
    ensures within { IfSome result (λ n. n < length text.now) }
{
    text.iter().position(|b| !is_blank(*b))
}

/// How many bytes stand before the first blank, or all.
fn before_blank(text: &[u8]) -> usize
    ensures counts { result ≡ count_before is_blank text.now }
    ensures within { result ≤ length text.now }
{
    match blank_at(text) {
        Some(count) => count,
        None => text.len(),
    }
}

/// How many blanks stand before the first other byte, or all.
fn count_blanks(text: &[u8]) -> usize
    ensures counts { result ≡ count_before (λ b. not (is_blank b)) text.now }
    ensures within { result ≤ length text.now }
{
    match other_at(text) {
        Some(count) => count,
        None => text.len(),
    }
}

fn quote_at(text: &[u8]) -> Option<usize>
    ensures found { result ≡ position (λ c. c == 34) text.now }
    ensures within { IfSome result (λ n. n < length text.now) }
{
    text.iter().position(|b| *b == b'"')
}

/// The first bytes; all, where there are no more.
pub(crate) fn before(text: &[u8], count: usize) -> &[u8]
    ensures { result.now ≡ take count text.now }
{
    if count < text.len() {
        &text[..count]
    } else {
        text
    }
}

/// The bytes from a place on.
pub(crate) fn behind(text: &[u8], place: usize) -> &[u8]
    ensures { result.now ≡ drop place text.now }
{
    if place < text.len() {
        &text[place..]
    } else {
        &text[text.len()..]
    }
}

fn plain_word(alloc: Global, at: usize, first: u8, rest: &[u8]) -> Result<Piece, AllocError>
    requires { at + 1 + length rest.now ≤ usize.MAX }
    ensures next { IfOk result (λ p. next_data p ≡ plain_word at first rest.now) }
    ensures later { IfOk result (λ p. IsLater at (next_data p)) }
{
    let count = before_blank(rest);
    let mut text = Vec::new(alloc);
    text.push(first)?;
    text.extend_from_slice(before(rest, count))?;
    let word = ClaimWord {
        at,
        text,
        is_quoted: false,
    };
    Ok(Piece::Word(word, at + 1 + count))
}

fn quoted_word(alloc: Global, at: usize, rest: &[u8]) -> Result<Piece, AllocError>
    requires { at + 1 + length rest.now ≤ usize.MAX }
    ensures next { IfOk result (λ p. next_data p ≡ quoted_word at rest.now (position (λ c. c == 34) rest.now)) }
    ensures later { IfOk result (λ p. IsLater at (next_data p)) }
{
    let Some(count) = quote_at(rest) else {
        return Ok(Piece::Open(at));
    };
    let word = ClaimWord {
        at,
        text: Vec::from_slice(alloc, before(rest, count))?,
        is_quoted: true,
    };
    Ok(Piece::Word(word, at + 2 + count))
}

/// What the bytes from a place on begin with.
fn next_at(alloc: Global, at: usize, text: &[u8]) -> Result<Piece, AllocError>
    requires { at + length text.now ≤ usize.MAX }
    ensures next { IfOk result (λ p. next_data p ≡ next_at at text.now) }
    ensures later { IfOk result (λ p. IsLater at (next_data p)) }
{
    match text {
        [] | [b'#', ..] => Ok(Piece::End),
        [b'"', rest @ ..] => quoted_word(alloc, at, rest),
        [first, rest @ ..] => plain_word(alloc, at, *first, rest),
    }
}

/// What stands in a text from a place on, behind blanks.
#[tactic(auto, unfolding(crate::specs::Words::next_from))]
fn next_from(alloc: Global, text: &[u8], from: usize) -> Result<Piece, AllocError>
    requires { from < length text.now }
    ensures next { IfOk result (λ p. next_data p ≡ next_from text.now from) }
    ensures later { IfOk result (λ p. IsLater from (next_data p)) }
{
    let at = from + count_blanks(behind(text, from));
    next_at(alloc, at, behind(text, at))
}

/// The words from a place of a text on to its end: runs of bytes that aren't blanks; one that begins with a quote goes up to the next
/// quote, blanks or not. A `#` where a word would begin begins a comment. Refused where a quote isn't closed.
pub(crate) fn words_from(
    alloc: Global,
    text: &[u8],
    start: usize,
) -> Result<Vec<ClaimWord>, ClaimFault>
    ensures words { IfOk result (λ words. AreWords text.now start (map word_data words.items)) }
    ensures refused { IfErr result (λ e. SaysOpen text.now start e) }
{
    let mut words = Vec::new(alloc);
    let mut from = start;
    'words: while from < text.len() {
        match next_from(alloc, text, from)? {
            Piece::Word(word, behind) => {
                words.push(word)?;
                from = behind;
            }
            Piece::Open(at) => return Err(ClaimFault::At(at, Wrong::Open)),
            Piece::End => return Ok(words),
        }
    }
    Ok(words)
}
