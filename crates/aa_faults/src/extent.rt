//! Which bytes the rule or assignment at fault has.

ghost use Rattle.std.specs.Prelude.{◌≡◌, ◌==◌, ◌↔◌, IsTrue, IfOk};
ghost use Rattle.std.specs.List.{list_all};
ghost use Rattle.aa_base.specs.declared.fault.PolicyKind.TheVariants.{NoMemory as WantOfMemory};
ghost use Rattle.aa_words.specs.Splits.{word_data, words_data};
ghost use Rattle.aa_load.specs.UnitPolicy.{texts_of};
ghost use Rattle.aa_faults.specs.Extents.{is_quote, is_quoted, outer_start, outer_end, is_of_one_reading, is_last, extent_between, extent_from, extent_of, extent_among, IsExtentAt};

use crate::statements::statement_at;
use aa_base::{PolicyFault, PolicyKind, Spot};
use aa_files::{Unit, text_at};
use aa_load::sources_of;
use aa_words::{Sources, Span, Word, WordKind, words};
use std::alloc::{AllocError, Global};

/// The bytes of a rule or an assignment in a file, from the first to the one behind the last, counted from 0.
#[derive(Clone, Copy)]
pub struct Extent {
    /// The file's number: 0 is the main text.
    pub file: u16,
    pub start: usize,
    pub end: usize,
}

fn is_quote(byte: Option<u8>) -> bool
    ensures { result ≡ is_quote byte }
{
    byte == Some(b'"')
}

/// Whether a word stands in quotes.
fn is_quoted(text: &[u8], span: Span) -> bool
    ensures { result ≡ is_quoted text.now span }
{
    span.start > 0
        && is_quote(text.get(span.start as usize - 1).copied())
        && is_quote(text.get(span.end as usize).copied())
}

/// Where a word begins, with its quote.
fn outer_start(text: &[u8], span: Span) -> usize
    ensures { result ≡ outer_start text.now span }
{
    if is_quoted(text, span) {
        span.start as usize - 1
    } else {
        span.start as usize
    }
}

/// Where a word ends, with its quote.
fn outer_end(text: &[u8], span: Span) -> usize
    ensures { result ≡ outer_end text.now span }
{
    if is_quoted(text, span) {
        span.end as usize + 1
    } else {
        span.end as usize
    }
}

fn are_all_of(words: &[Word<'_>], reading: u32) -> bool
    ensures { result ≡ list_all (λ w. (word_data w).span.reading == reading) words.now }
{
    words.iter().all(|word| word.span.reading == reading)
}

/// Whether words are of one reading of a file.
fn is_of_one_reading(words: &[Word<'_>], reading: u32) -> bool
    ensures { result ≡ is_of_one_reading reading (words_data words.now) }
{
    are_all_of(words, reading)
}

/// Whether a rule or an assignment ends with such a word.
fn is_last(kind: WordKind) -> bool
    ensures { result ≡ is_last kind }
{
    matches!(kind, WordKind::Comma | WordKind::Value)
}

/// The bytes of a statement from its first word to its last; none where it is neither a rule nor an assignment.
fn extent_between(
    unit: &Unit,
    statement: &[Word<'_>],
    first: &Word<'_>,
    last: &Word<'_>,
) -> Option<Extent>
    ensures { result ≡ extent_between unit.now (words_data statement.now) (word_data first.now) (word_data last.now) }
{
    let (_, text) = text_at(unit, first.span.file);
    if is_last(last.kind) && is_of_one_reading(statement, first.span.reading) {
        Some(Extent {
            file: first.span.file,
            start: outer_start(text, first.span),
            end: outer_end(text, last.span),
        })
    } else {
        None
    }
}

/// The bytes of a statement from that first word on; none where it is neither a rule nor an assignment.
fn extent_from(unit: &Unit, statement: &[Word<'_>], first: &Word<'_>) -> Option<Extent>
    ensures { result ≡ extent_from unit.now (words_data statement.now) (word_data first.now) }
{
    match statement.get(statement.len().saturating_sub(1)) {
        Some(last) => extent_between(unit, statement, first, last),
        None => None,
    }
}

/// The bytes of a rule or an assignment; none of other statements.
fn extent_of(unit: &Unit, statement: &[Word<'_>]) -> Option<Extent>
    ensures { result ≡ extent_of unit.now (words_data statement.now) }
{
    match statement.get(0) {
        Some(first) => extent_from(unit, statement, first),
        None => None,
    }
}

/// The bytes of the first statement that has a word at a place, if it is a rule or an assignment.
fn extent_among(unit: &Unit, words: &[Word<'_>], at: Spot) -> Option<Extent>
    ensures { result ≡ extent_among unit.now at (words_data words.now) }
{
    match statement_at(words, at) {
        Some(statement) => extent_of(unit, statement),
        None => None,
    }
}

pub(crate) fn is_want_of_memory(fault: PolicyFault) -> bool
    ensures { IsTrue result ↔ (fault.kind ≡ WantOfMemory) }
{
    fault.kind == PolicyKind::NoMemory
}

fn extent_by(
    alloc: Global,
    unit: &Unit,
    sources: &Sources,
    at: Spot,
) -> Result<Option<Extent>, AllocError>
    requires { sources.now ≡ texts_of unit.now }
    ensures { IfOk result (λ extent. IsExtentAt unit.now at extent) }
{
    match words(alloc, sources, unit.text.as_slice()) {
        Ok(list) => Ok(extent_among(unit, list.list.as_slice(), at)),
        Err(fault) => {
            if is_want_of_memory(fault) {
                return Err(AllocError);
            }
            Ok(None)
        }
    }
}

/// The bytes of the rule or assignment that has a word at a place, if there is one; none where the texts have no words.
pub fn extent_at(alloc: Global, unit: &Unit, at: Spot) -> Result<Option<Extent>, AllocError>
    ensures { IfOk result (λ extent. IsExtentAt unit.now at extent) }
{
    match sources_of(alloc, unit) {
        Ok(sources) => extent_by(alloc, unit, &sources, at),
        Err(fault) => {
            if is_want_of_memory(fault) {
                return Err(AllocError);
            }
            Ok(None)
        }
    }
}
