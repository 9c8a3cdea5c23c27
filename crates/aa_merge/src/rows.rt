//! Rows of a part, put to those of the parts before it.

ghost use Rattle.std.specs.Prelude.{◌≡◌, ℕ, ◌+◌, ◌<◌, ◌≤◌, ◌^◌, ◌-◌, ◌++◌, ◌∷◌, [], List, Some, None, not, map, min, length, is_some, option_map, slice_get, slice_set, position, OnOk, IfOk, IfErr, IfSome};
ghost use Rattle.std.specs.HashMap.{get_by};
ghost use Rattle.std.specs.Str.{bytes_eq};
ghost use Rattle.aa_files.specs.Texts.{texts};
ghost use Rattle.aa_log.specs.declared.logging.Entry.{Entry};
ghost use Rattle.aa_log.specs.Counted.{Counted, greatest};
ghost use Rattle.aa_log.specs.Found.{AddsKey, entry_key};
ghost use Rattle.aa_log.specs.Limits.{most_requests};
ghost use Rattle.aa_log.specs.Orders.{reason_key};
ghost use Rattle.aa_log.specs.Printed.{key_text};
ghost use Rattle.aa_merge.specs.Faults.{IsTooMany};
ghost use Rattle.aa_merge.specs.Held.{row_data, passed_data, skipped_row, AreRows, HasMore, IsEntryOf};
ghost use Rattle.aa_merge.specs.Parts.{Asking, Passed, asking_key, passed_key};
ghost use Rattle.aa_log.specs.Joined.{added, with_row};

use crate::fault::PartFault;
use crate::part::{PartRow, PartSkipped};
use aa_log::{Entry, LinePlace, SkippedLines};
use aa_logs::{Then, then_name};
use aa_notation::word_of;
use aa_text::{push_name, push_text};
use std::alloc::{AllocError, Global};
use std::collections::HashMap;

/// The most distinct requests of all parts.
const MAX_DISTINCT: usize = 1_000_000;

/// A request as it is printed.
#[tactic(auto, unfolding(aa_log::specs::Printed::key_text))]
fn key_of(alloc: Global, then: Then, profile: &[u8], word: &[u8]) -> Result<Vec<u8>, AllocError>
    ensures { IfOk result (λ key. key.items ≡ key_text then profile.now word.now) }
{
    let mut key = Vec::new(alloc);
    push_text(&mut key, then_name(then))?;
    push_text(&mut key, " ")?;
    push_name(&mut key, alloc, profile)?;
    push_text(&mut key, " ")?;
    key.extend_from_slice(word)?;
    Ok(key)
}

/// The number of the entry of that key.
fn number_of(numbers: &HashMap<Vec<u8>, usize>, key: &[u8]) -> Option<usize>
    ensures { result ≡ get_by (λ k. bytes_eq key.now k.items) numbers.now }
{
    numbers.get(key).copied()
}

/// Notes the number of a key's entry, if there are few enough before it.
fn add_number(
    numbers: &mut HashMap<Vec<u8>, usize>,
    key: Vec<u8>,
    number: usize,
) -> Result<(), PartFault>
    ensures numbers { OnOk result (get_by (λ k. bytes_eq key.items k.items) numbers.old ≡ None → AddsKey numbers.old key.items number numbers.new) }
    ensures room { IfErr result (λ e. IsTooMany e (most_requests ≤ number)) }
    ensures most { OnOk result (number < most_requests) }
{
    if number >= MAX_DISTINCT {
        return Err(PartFault::TooMany);
    }
    let _ = numbers.insert(key, number)?;
    Ok(())
}

/// Adds to the count of an entry.
fn raise(entries: &mut Vec<Entry>, number: usize, count: u64)
    ensures { (e : Entry) → slice_get entries.old.items number ≡ Some e → entries.new.items ≡ slice_set entries.old.items number (record e { count = added e.count count }) }
{
    if number < entries.len() {
        let entry = &mut entries[number];
        entry.count = entry.count.saturating_add(count);
    }
}

/// The number of a path among those of logs, behind which it comes.
pub(crate) fn add_path(paths: &mut Vec<Vec<u8>>, path: Vec<u8>) -> Result<usize, AllocError>
    ensures added { OnOk result (texts paths.new.items ≡ texts paths.old.items ++ path.items ∷ []) }
    ensures number { IfOk result (λ n. n ≡ length paths.old.items) }
{
    let number = paths.len();
    paths.push(path)?;
    Ok(number)
}

/// The entry of a row, whose log has that number.
fn entry_of(alloc: Global, row: &PartRow, word: Vec<u8>, log: usize) -> Result<Entry, AllocError>
    ensures data { IfOk result (λ e. IsEntryOf row.now log e) }
    ensures word { IfOk result (λ e. e.word.items ≡ word.items) }
{
    Ok(Entry {
        then: row.then,
        profile: Vec::from_slice(alloc, row.profile.as_slice())?,
        request: row.request.try_clone()?,
        word,
        count: row.count,
        first: LinePlace {
            log,
            line: row.line,
        },
    })
}

/// Puts the entry of a row behind those that are there.
fn push_entry(
    alloc: Global,
    entries: &mut Vec<Entry>,
    paths: &mut Vec<Vec<u8>>,
    row: &PartRow,
    word: Vec<u8>,
) -> Result<(), AllocError>
    ensures { OnOk result ((e : Entry) × IsEntryOf row.now (length paths.old.items) e × (e.word.items ≡ word.items) × (entries.new.items ≡ entries.old.items ++ e ∷ []) × (texts paths.new.items ≡ texts paths.old.items ++ row.now.path.items ∷ [])) }
{
    let path = Vec::from_slice(alloc, row.path.as_slice())?;
    let log = add_path(paths, path)?;
    entries.push(entry_of(alloc, row, word, log)?)?;
    Ok(())
}

/// Adds the count of a row to the entry of its key, or where there is none, a new entry, if there are few enough.
pub(crate) fn add_row(
    alloc: Global,
    entries: &mut Vec<Entry>,
    numbers: &mut HashMap<Vec<u8>, usize>,
    paths: &mut Vec<Vec<u8>>,
    row: &PartRow,
) -> Result<(), PartFault>
    ensures rows { OnOk result ((rows : List (Counted Asking)) → AreRows rows (texts paths.old.items) entries.old.items numbers.old → AreRows (with_row asking_key rows (row_data row.now)) (texts paths.new.items) entries.new.items numbers.new) }
    ensures paths { OnOk result (HasMore (texts paths.old.items) (texts paths.new.items)) }
    ensures room { IfErr result (λ e. IsTooMany e ((rows : List (Counted Asking)) → AreRows rows (texts paths.old.items) entries.old.items numbers.old → most_requests < length (with_row asking_key rows (row_data row.now)))) }
{
    let word = word_of(alloc, &row.request)?;
    let key = key_of(alloc, row.then, row.profile.as_slice(), word.as_slice())?;
    if let Some(number) = number_of(numbers, key.as_slice()) {
        raise(entries, number, row.count);
        return Ok(());
    }
    add_number(numbers, key, entries.len())?;
    Ok(push_entry(alloc, entries, paths, row, word)?)
}

/// Whether lines are skipped for that reason.
fn is_for(skipped: &SkippedLines, reason: (u8, &'static str)) -> bool
    ensures { result ≡ bytes_eq (reason_key skipped.now) (reason.entry.0 ∷ reason.entry.1.now) }
{
    skipped.reason.0 == reason.0 && skipped.reason.1 == reason.1
}

/// The place of those that are skipped for that reason.
fn place_of(skipped: &[SkippedLines], reason: (u8, &'static str)) -> Option<usize>
    ensures within { IfSome result (λ n. n < length skipped.now) }
    ensures place { result ≡ position (λ s. bytes_eq (reason_key s) (reason.entry.0 ∷ reason.entry.1.now)) skipped.now }
{
    skipped.iter().position(|known| is_for(known, reason))
}

/// Puts lines that ask nothing behind those that are there.
pub(crate) fn push_skipped(
    alloc: Global,
    skipped: &mut Vec<SkippedLines>,
    paths: &mut Vec<Vec<u8>>,
    row: &PartSkipped,
) -> Result<(), AllocError>
    ensures rows { OnOk result ((rows : List (Counted Passed)) → map (skipped_row (texts paths.old.items)) skipped.old.items ≡ map Some rows → map (skipped_row (texts paths.new.items)) skipped.new.items ≡ map Some (rows ++ passed_data row.now ∷ [])) }
    ensures paths { OnOk result (HasMore (texts paths.old.items) (texts paths.new.items)) }
{
    let reason = row.reason;
    let count = row.count;
    let line = row.line;
    let path = Vec::from_slice(alloc, row.path.as_slice())?;
    let log = add_path(paths, path)?;
    let first = LinePlace { log, line };
    skipped.push(SkippedLines {
        reason,
        count,
        first,
    })?;
    Ok(())
}

/// Adds the count of lines that ask nothing to those of their reason, or where there are none, puts them behind.
pub(crate) fn add_skipped(
    alloc: Global,
    skipped: &mut Vec<SkippedLines>,
    paths: &mut Vec<Vec<u8>>,
    row: &PartSkipped,
) -> Result<(), AllocError>
    ensures rows { OnOk result ((rows : List (Counted Passed)) → map (skipped_row (texts paths.old.items)) skipped.old.items ≡ map Some rows → map (skipped_row (texts paths.new.items)) skipped.new.items ≡ map Some (with_row passed_key rows (passed_data row.now))) }
    ensures paths { OnOk result (HasMore (texts paths.old.items) (texts paths.new.items)) }
{
    let Some(number) = place_of(skipped.as_slice(), row.reason) else {
        return push_skipped(alloc, skipped, paths, row);
    };
    let known = &mut skipped[number];
    known.count = known.count.saturating_add(row.count);
    Ok(())
}
