//! The claims of a text.

ghost use Rattle.std.specs.Prelude.{◌≡◌, ◌+◌, ◌<◌, ◌≤◌, length, position, IfOk, IfErr, IfSome, OnOk};
ghost use Rattle.aa_text.specs.Places.{is_line_end};
ghost use Rattle.aa_claims.specs.Words.{count_before};
ghost use Rattle.aa_claims.specs.Faults.{SaysAt};
ghost use Rattle.aa_claims.specs.Lines.{AreRightWords, IsWrong, IsLineFault, AreClaims, SaysFault, Adds};

use crate::fault::{ClaimFault, Wrong};
use crate::forms::first_wrong;
use crate::words::{ClaimWord, before, behind, words_from};
use std::alloc::Global;

/// The most claims of a text.
const MAX_CLAIMS: usize = 65536;

/// A line that is a claim.
#[derive(Drop)]
pub struct ClaimLine {
    /// Its number, from 1.
    pub number: usize,
    pub words: Vec<ClaimWord>,
}

fn line_end_at(text: &[u8]) -> Option<usize>
    ensures found { result ≡ position is_line_end text.now }
    ensures within { IfSome result (λ n. n < length text.now) }
{
    text.iter().position(|b| *b == b'\n')
}

/// How many bytes stand before the first line end, or all.
fn line_length(text: &[u8]) -> usize
    ensures counts { result ≡ count_before is_line_end text.now }
    ensures within { result ≤ length text.now }
{
    match line_end_at(text) {
        Some(count) => count,
        None => text.len(),
    }
}

/// The words of a line that begins at a place, with which nothing is wrong.
fn right_words(alloc: Global, text: &[u8], start: usize) -> Result<Vec<ClaimWord>, ClaimFault>
    ensures words { IfOk result (λ words. AreRightWords text.now start words.items) }
    ensures refused { IfErr result (λ e. SaysAt (IsWrong text.now start) e) }
{
    let words = words_from(alloc, text, start)?;
    match first_wrong(words.as_slice()) {
        None => Ok(words),
        Some((at, wrong)) => Err(ClaimFault::At(at, wrong)),
    }
}

/// Adds the claim that a line is, if it has words.
fn push_claim(
    claims: &mut Vec<ClaimLine>,
    alloc: Global,
    number: usize,
    text: &[u8],
    start: usize,
) -> Result<(), ClaimFault>
    ensures adds { OnOk result (Adds text.now number start claims.old.items claims.new.items) }
    ensures few { OnOk result (length claims.old.items ≤ 65536 → length claims.new.items ≤ 65536) }
    ensures refused { IfErr result (λ e. SaysAt (IsLineFault text.now start (length claims.old.items)) e) }
{
    let words = right_words(alloc, text, start)?;
    if words.is_empty() {
        return Ok(());
    }
    if claims.len() >= MAX_CLAIMS {
        return Err(ClaimFault::At(words[0].at, Wrong::TooMany));
    }
    claims.push(ClaimLine { number, words })?;
    Ok(())
}

/// The claims of a text, one a line; lines of blanks and comments are none. Each has one of these forms:
///
/// - `never WORD`, `always WORD`, each with `in NAME..` behind it or without, `never` with `except NAME..` and `to NAME..` too,
/// - `never reach NAME.. from NAME..`,
/// - `always enforced`.
///
/// A word in quotes stands for itself, also where it is one of these. Of what is wrong the first is said, at its word: a quote that
/// isn't closed, a line that has no such form, or more than 65,536 claims.
pub fn read_claims(alloc: Global, text: &[u8]) -> Result<Vec<ClaimLine>, ClaimFault>
    ensures claims { IfOk result (λ claims. AreClaims text.now claims.items) }
    ensures refused { IfErr result (λ e. SaysFault text.now e) }
{
    let mut claims = Vec::new(alloc);
    let mut number = 1;
    let mut start = 0;
    'lines: while start <= text.len() {
        let end = start + line_length(behind(text, start));
        push_claim(&mut claims, alloc, number, before(text, end), start)?;
        number += 1;
        start = end + 1;
    }
    Ok(claims)
}
