//! Splits a text into words.

ghost use Rattle.std.specs.Prelude.{◌≡◌, ℕ, suc, ◌+◌, ◌^◌, ◌<◌, ◌≤◌, length, IfOk, IfErr, OnOk, List, ◌++◌, ◌⊎◌, Ok, Err, option_map, IfSome, true};
ghost use Rattle.std.specs.List.{All};
ghost use Rattle.aa_base.specs.Kinds.{IsRefusal, at_start, no_memory};
ghost use Rattle.aa_words.specs.Splits.{WordData, words_data, Splits, unquoted, word_of, include_opens, PartGives, Reads, opens, source_from, is_include};
ghost use Rattle.aa_words.specs.Openings.{opening_data, setting_data};
ghost use Rattle.aa_words.specs.Includes.{included_name, is_optional};
ghost use Rattle.aa_words.specs.Stops.{IncludeFails, Fails, IsFaultOf};
ghost use Rattle.aa_words.specs.WordLists.{StandsIn, Rise};

use crate::cut::next_piece;
use crate::includes::{may_be_missing, name_of_include};
use crate::piece::{Piece, Place, place_behind, stands_for_source, stands_in_quotes, word_kind};
use crate::reading::{Count, Reading};
use crate::sources::{MAX_TEXT, Sources};
use crate::stops::fault_of;
use crate::word::{Span, Word, WordList};
use aa_base::{PolicyFault, PolicyKind, Spot};
use std::alloc::Global;

/// What stands between the quotes.
fn between_quotes(text: &[u8]) -> &[u8]
    ensures { result.now ≡ unquoted text.now }
{
    let [_, rest @ ..] = text else {
        return text;
    };
    let (inner, _) = rest.split_at(rest.len().saturating_sub(1));
    inner
}

/// Puts the word that a piece is behind the others.
fn push_word<'s>(
    list: &mut Vec<Word<'s>>,
    reading: Reading,
    piece: Piece,
    text: &'s [u8],
    at: u32,
) -> Result<(), PolicyFault>
    requires { (0 < length text.now) × (at + length text.now < 2 ^ 32) }
    ensures ok { OnOk result (words_data list.new.items
        ≡ words_data list.old.items ++ word_of reading at piece text.now) }
    ensures memory { IfErr result (λ e. e ≡ no_memory) }
{
    let Some(kind) = word_kind(piece) else {
        return Ok(());
    };
    let (text, start) = if stands_in_quotes(piece) {
        (between_quotes(text), at + 1)
    } else {
        (text, at)
    };
    let span = Span {
        reading: reading.number,
        file: reading.file,
        start,
        end: start + text.len() as u32,
    };
    list.push(Word { kind, text, span })?;
    Ok(())
}

/// The most readings of sources, that of the main text among them.
const MAX_READINGS: u32 = 4096;

/// The most bytes that they have together.
const MAX_BYTES: usize = 16777216;

/// How deep includes may go.
const MAX_DEPTH: usize = 16;

/// A source that is read.
#[derive(Clone, Copy)]
struct Opened<'s> {
    reading: Reading,
    text: &'s [u8],
    /// How much was read by then, this source among it.
    count: Count,
}

/// What an include opens: a source in a reading of its own, or nothing.
fn open_include<'s>(
    sources: &'s Sources,
    include: &[u8],
    at: Spot,
    depth: usize,
    count: Count,
) -> Result<Option<Opened<'s>>, PolicyFault>
    requires bytes { count.bytes ≤ 16777216 }
    requires readings { count.readings ≤ 4096 }
    ensures ok { IfOk result (λ o. opens depth at (is_optional include.now) count (source_from 1 (included_name include.now) sources.now) ≡ Ok (option_map opening_data o)) }
    ensures deeper { IfOk result (λ o. IfSome o (λ s. (0 < depth) × (s.count.bytes ≤ 16777216) × (s.count.readings ≤ 4096) × (length s.text.now ≤ 16777216))) }
    ensures err { IfErr result (λ e. opens depth at (is_optional include.now) count (source_from 1 (included_name include.now) sources.now) ≡ Err e) }
{
    let Some((file, text)) = sources.find(name_of_include(include)) else {
        return if may_be_missing(include) {
            Ok(None)
        } else {
            Err(PolicyFault {
                kind: PolicyKind::MissingInclude,
                at,
            })
        };
    };
    if depth == 0 {
        return Err(PolicyFault {
            kind: PolicyKind::IncludeDepth,
            at,
        });
    }
    if count.readings >= MAX_READINGS || text.len() > MAX_BYTES - count.bytes {
        return Err(PolicyFault::at_start(PolicyKind::TooLarge));
    }
    Ok(Some(Opened {
        reading: Reading {
            number: count.readings,
            file,
        },
        text,
        count: Count {
            readings: count.readings + 1,
            bytes: count.bytes + text.len(),
        },
    }))
}

/// The sources, how many depths are left for includes, and the reading.
#[derive(Clone, Copy)]
struct Reader<'s> {
    sources: &'s Sources,
    depth: usize,
    reading: Reading,
}

/// Puts the words that a piece gives behind the others, those of a source where it is an include.
#[cycle(reads)]
fn read_piece<'s>(
    list: &mut Vec<Word<'s>>,
    reader: Reader<'s>,
    piece: Piece,
    text: &'s [u8],
    at: u32,
    count: Count,
) -> Result<Count, PolicyFault>
    requires text { (0 < length text.now) × (at + length text.now < 2 ^ 32) }
    requires bytes { count.bytes ≤ 16777216 }
    requires readings { count.readings ≤ 4096 }
    ensures ok { IfOk result (λ m. (ws : List WordData) × (words_data list.new.items ≡ words_data list.old.items ++ ws)
        × PartGives (Reads reader.entry.depth reader.entry.sources.now) (setting_data reader.entry) at (record { kind = piece; text = text.now }) count ws m) }
    ensures err { IfErr result (λ e. (e ≡ no_memory) ⊎ ((is_include piece ≡ true)
        × IncludeFails (Fails reader.entry.depth reader.entry.sources.now) (include_opens (setting_data reader.entry) at text.now count) e)) }
    ensures within { IfOk result (λ m. (m.bytes ≤ 16777216) × (m.readings ≤ 4096)) }
{
    if !stands_for_source(piece) {
        push_word(list, reader.reading, piece, text, at)?;
        return Ok(count);
    }
    let spot = Spot {
        file: reader.reading.file,
        byte: at,
    };
    let Some(opened) = open_include(reader.sources, text, spot, reader.depth, count)? else {
        return Ok(count);
    };
    let deeper = Reader {
        depth: reader.depth - 1,
        reading: opened.reading,
        ..reader
    };
    read_source(list, deeper, opened.text, opened.count)
}

/// Puts the words of a source behind the others.
#[cycle(reads)]
fn read_source<'s>(
    list: &mut Vec<Word<'s>>,
    reader: Reader<'s>,
    source: &'s [u8],
    opened: Count,
) -> Result<Count, PolicyFault>
    requires text { length source.now ≤ 16777216 }
    requires bytes { opened.bytes ≤ 16777216 }
    requires readings { opened.readings ≤ 4096 }
    ensures ok { IfOk result (λ m. (ws : List WordData) × (words_data list.new.items ≡ words_data list.old.items ++ ws)
        × Reads (suc reader.entry.depth) reader.entry.sources.now reader.entry.reading source.now opened ws m) }
    ensures err { IfErr result (λ e. (e ≡ no_memory) ⊎ Fails (suc reader.entry.depth) reader.entry.sources.now reader.entry.reading source.now opened e) }
    ensures within { IfOk result (λ m. (m.bytes ≤ 16777216) × (m.readings ≤ 4096)) }
{
    let mut count = opened;
    let mut rest = source;
    let mut at: u32 = 0;
    let mut place = Place::START;
    while !rest.is_empty() {
        let Some((piece, len)) = next_piece(rest, place) else {
            return Err(fault_of(rest, reader.reading, place, at));
        };
        let (text, after) = rest.split_at(len);
        count = read_piece(list, reader, piece, text, at, count)?;
        place = place_behind(place, piece, text);
        at += len as u32;
        rest = after;
    }
    Ok(count)
}

/// The words of the main text and of the sources that it includes (apparmor.d(5), sections Format and `#include`
/// mechanism). Blanks and comments are skipped. Refused as TooLarge at 0:0 where the main text has over 1,048,576 bytes,
/// else with the first fault in reading order. Syntax at a zero byte, at a quote straight behind a word that is a run or
/// that is not closed, at a rule that is passed over and that no comma ends, and at an include of another form. At an
/// include in this order: MissingInclude where no source has its name and `if exists` does not stand there, IncludeDepth
/// behind 16 includes within each other, TooLarge at 0:0 for more than 4,096 readings of sources or 16,777,216 bytes in
/// them together.
pub fn words<'s>(
    alloc: Global,
    sources: &'s Sources,
    main: &'s [u8],
) -> Result<WordList<'s>, PolicyFault>
    // The words that are given are those of the text.
    ensures split { IfOk result (λ w. Splits sources.now main.now (words_data w.list.items)) }
    // A text has one list of words.
    ensures one { IfOk result (λ w. (ws : List WordData) → Splits sources.now main.now ws → ws ≡ words_data w.list.items) }
    // A text that is refused for another cause than memory has no words.
    ensures refused { IsRefusal result → (ws : List WordData) → Splits sources.now main.now ws → ⊥ }
    // Each word is the slice of its source at its span.
    ensures slices { IfOk result (λ w. All (StandsIn sources.now main.now) (words_data w.list.items)) }
    ensures rising { IfOk result (λ w. Rise (words_data w.list.items)) }
    ensures end { IfOk result (λ w. w.end ≡ record { file = 0; byte = length main.now }) }
    ensures too_large { 1048576 < length main.now → result ≡ Err (at_start PolicyKind.TooLarge) }
    // Which fault comes, and that it is the first in reading order.
    ensures fault { IfErr result (IsFaultOf sources.now main.now) }
{
    if main.len() > MAX_TEXT {
        return Err(PolicyFault::at_start(PolicyKind::TooLarge));
    }
    let mut list = Vec::new(alloc);
    let reader = Reader {
        sources,
        depth: MAX_DEPTH,
        reading: Reading { number: 0, file: 0 },
    };
    let count = Count {
        readings: 1,
        bytes: main.len(),
    };
    let _ = read_source(&mut list, reader, main, count)?;
    let end = Spot {
        file: 0,
        byte: main.len() as u32,
    };
    Ok(WordList { list, end })
}
