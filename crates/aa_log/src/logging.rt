//! What `log` finds in logs.

ghost use Rattle.std.specs.Prelude.{◌≡◌, ℕ, ◌+◌, ◌-◌, ◌^◌, ◌<◌, ◌≤◌, ◌++◌, ◌∷◌, ◌&&◌, List, [], Some, None, not, map, min, length, is_some, option_map, option_to_list, slice_get, slice_set, position, OnOk, IfOk, IfErr, IfSome, cond};
ghost use Rattle.std.specs.Ordering.{nat_cmp};
ghost use Rattle.std.specs.Cmp.Lexicographic.{slice_cmp};
ghost use Rattle.std.specs.HashMap.{get_by};
ghost use Rattle.std.specs.Str.{bytes_eq};
ghost use Rattle.aa_log.specs.Limits.{most_requests};
ghost use Rattle.aa_notation.specs.Kinds.{word_text};
ghost use Rattle.aa_log.specs.declared.logging.Entry.{Entry};
ghost use Rattle.aa_logs.specs.LogLines.{LogLine, log_line};
ghost use Rattle.aa_logs.specs.Asked.{cause_of};
ghost use Rattle.aa_logs.specs.Outcomes.{record_data, outcome};
ghost use Rattle.aa_logs.specs.Records.{line_in};
ghost use Rattle.aa_log.specs.Counted.{greatest, firsts, counted};
ghost use Rattle.aa_log.specs.Found.{Asked, Skipped, asked_at, asked_key, skipped_key, skipped_item, skipped_data, skipped_for, is_wanted, wants_all, left_out_of, distinct_in, entry_data, entry_key, AddsKey, AreFound, AreEach, HasSameSettings, IsReport, IsRefused};
ghost use Rattle.aa_log.specs.Orders.{up_to, key_at, items_at, profile_of, reason_key, IsOrder, IsInOrder};
ghost use Rattle.aa_log.specs.Printed.{key_text};

use crate::printing::push_profile;
use aa_base::Unread;
use aa_logs::{Choice, Line, Lines, Reason, Record, Then, is_chosen, line_of, named, then_name};
use aa_model::Request;
use aa_notation::push_word;
use aa_text::push_text;
use std::alloc::{AllocError, Global};
use std::cmp::Ordering;
use std::collections::HashMap;

/// The most distinct requests of the logs of a call.
const MAX_DISTINCT: usize = 1_000_000;

/// For how many bytes of a word there is room at first.
const WORD_ROOM: usize = 40;

/// For how many bytes of a request as it is printed there is room at first.
const KEY_ROOM: usize = 64;

/// Where a line stands.
#[derive(Clone, Copy, Debug)]
pub struct LinePlace {
    /// The log's number among those of the command line, from 0.
    pub log: usize,
    /// From 1.
    pub line: u64,
}

/// A request that lines of the logs ask, with what became of it.
#[derive(Drop)]
pub struct Entry {
    pub then: Then,
    pub profile: Vec<u8>,
    pub request: Request,
    /// The request as one word.
    pub word: Vec<u8>,
    pub count: u64,
    pub first: LinePlace,
}

/// Lines that ask nothing, for one reason.
#[derive(Drop)]
pub struct SkippedLines {
    /// The reason's place in the order in which reasons are printed, and its name.
    pub reason: (u8, &'static str),
    pub count: u64,
    pub first: LinePlace,
}

/// What is found in logs.
#[derive(Drop)]
pub struct LogReport<'a> {
    choice: Choice<'a>,
    /// The log that is read.
    pub log: usize,
    pub entries: Vec<Entry>,
    numbers: HashMap<Vec<u8>, usize>,
    /// The skipped lines by their reasons, in the order in which these came first.
    pub skipped: Vec<SkippedLines>,
    /// The skipped lines one by one, where they are wanted.
    pub each_skipped: Option<Vec<SkippedLines>>,
    pub lines: u64,
    pub requests: u64,
    pub skipped_count: u64,
    pub other: u64,
    /// How many lines aren't wanted, where not all are.
    pub left_out: Option<u64>,
}

/// A request as one word.
fn word_of(alloc: Global, request: &Request) -> Result<Vec<u8>, AllocError>
    ensures { IfOk result (λ word. word.items ≡ word_text request.now) }
{
    let mut word = Vec::with_capacity(alloc, WORD_ROOM)?;
    push_word(&mut word, request)?;
    Ok(word)
}

/// A request as it is printed.
#[tactic(auto, unfolding(crate::specs::Printed::key_text))]
fn key_of(alloc: Global, asked: &Record) -> Result<Vec<u8>, AllocError>
    ensures { IfOk result (λ key. key.items ≡ key_text asked.now.then asked.now.profile.items (word_text asked.now.request)) }
{
    let mut key = Vec::with_capacity(alloc, KEY_ROOM)?;
    push_text(&mut key, then_name(asked.then))?;
    push_profile(&mut key, alloc, asked.profile.as_slice())?;
    push_word(&mut key, &asked.request)?;
    Ok(key)
}

/// The number of the entry of that key.
fn number_of(numbers: &HashMap<Vec<u8>, usize>, key: &[u8]) -> Option<usize>
    ensures { result ≡ get_by (λ k. bytes_eq key.now k.items) numbers.now }
{
    numbers.get(key).copied()
}

/// Counts an entry once more.
fn count_again(entries: &mut Vec<Entry>, number: usize)
    ensures len { length entries.new.items ≡ length entries.old.items }
    ensures counted { (e : Entry) → slice_get entries.old.items number ≡ Some e → entries.new.items ≡ slice_set entries.old.items number (record e { count = min (e.count + 1) (2 ^ 64 - 1) }) }
{
    if number < entries.len() {
        let entry = &mut entries[number];
        entry.count = entry.count.saturating_add(1);
    }
}

/// Notes the number of a key's entry, if there are few enough before it.
fn add_number(
    numbers: &mut HashMap<Vec<u8>, usize>,
    key: Vec<u8>,
    number: usize,
) -> Result<(), Unread>
    ensures numbers { OnOk result (get_by (λ k. bytes_eq key.items k.items) numbers.old ≡ None → AddsKey numbers.old key.items number numbers.new) }
    ensures room { IfErr result (λ why. IsRefused why (most_requests ≤ number)) }
    ensures most { OnOk result (number < most_requests) }
{
    if number >= MAX_DISTINCT {
        return Err(Unread::TooLarge);
    }
    let _ = numbers.insert(key, number)?;
    Ok(())
}

/// Notes a request as a new one, if there are few enough.
fn add_entry(
    entries: &mut Vec<Entry>,
    numbers: &mut HashMap<Vec<u8>, usize>,
    key: Vec<u8>,
    entry: Entry,
) -> Result<(), Unread>
    ensures entries { OnOk result (entries.new.items ≡ entries.old.items ++ entry ∷ []) }
    ensures numbers { OnOk result (get_by (λ k. bytes_eq key.items k.items) numbers.old ≡ None → AddsKey numbers.old key.items (length entries.old.items) numbers.new) }
    ensures room { IfErr result (λ why. IsRefused why (most_requests ≤ length entries.old.items)) }
    ensures most { OnOk result (length entries.old.items < most_requests) }
{
    add_number(numbers, key, entries.len())?;
    entries.push(entry)?;
    Ok(())
}

/// The entry of a request that was asked at that place alone.
fn entry_of(alloc: Global, asked: Record, place: LinePlace) -> Result<Entry, AllocError>
    ensures asked { IfOk result (λ entry. entry_data entry ≡ record { item = asked_at (record_data asked) place; count = 1 }) }
    ensures word { IfOk result (λ entry. entry.word.items ≡ word_text entry.request) }
{
    let word = word_of(alloc, &asked.request)?;
    Ok(Entry {
        then: asked.then,
        profile: asked.profile,
        request: asked.request,
        word,
        count: 1,
        first: place,
    })
}

/// Counts a request once more, or notes it as a new one if there are few enough.
fn count_request(
    alloc: Global,
    entries: &mut Vec<Entry>,
    numbers: &mut HashMap<Vec<u8>, usize>,
    asked: Record,
    place: LinePlace,
) -> Result<(), Unread>
    ensures found { OnOk result ((before : List Asked) → AreFound before entries.old.items numbers.old → AreFound (before ++ asked_at (record_data asked) place ∷ []) entries.new.items numbers.new) }
    ensures room { IfErr result (λ why. IsRefused why ((before : List Asked) → AreFound before entries.old.items numbers.old → most_requests < length (firsts asked_key (before ++ asked_at (record_data asked) place ∷ [])))) }
{
    let key = key_of(alloc, &asked)?;
    if let Some(number) = number_of(numbers, key.as_slice()) {
        count_again(entries, number);
        return Ok(());
    }
    let entry = entry_of(alloc, asked, place)?;
    add_entry(entries, numbers, key, entry)
}

/// Whether lines are skipped for that reason.
fn is_for(skipped: &SkippedLines, reason: (u8, &'static str)) -> bool
    ensures { result ≡ bytes_eq (reason_key skipped.now) (reason.entry.0 ∷ reason.entry.1.now) }
{
    skipped.reason.0 == reason.0 && skipped.reason.1 == reason.1
}

/// The place of those that are skipped for that reason.
fn place_of(skipped: &[SkippedLines], reason: (u8, &'static str)) -> Option<usize>
    ensures within { IfSome result (λ n. n < length skipped.now) }
    ensures place { result ≡ position (λ s. bytes_eq (reason_key s) (reason.entry.0 ∷ reason.entry.1.now)) skipped.now }
{
    skipped.iter().position(|known| is_for(known, reason))
}

/// Counts a skipped line by its reason.
fn count_reason(
    skipped: &mut Vec<SkippedLines>,
    reason: (u8, &'static str),
    place: LinePlace,
) -> Result<(), AllocError>
    ensures { OnOk result ((before : List Skipped) → map skipped_data skipped.old.items ≡ counted skipped_key before → map skipped_data skipped.new.items ≡ counted skipped_key (before ++ record { order = reason.entry.0; name = reason.entry.1.now; place = place } ∷ [])) }
{
    let Some(number) = place_of(skipped.as_slice(), reason) else {
        skipped.push(SkippedLines {
            reason,
            count: 1,
            first: place,
        })?;
        return Ok(());
    };
    let known = &mut skipped[number];
    known.count = known.count.saturating_add(1);
    Ok(())
}

/// Notes a skipped line, where each is wanted.
fn note_each(
    each: &mut Option<Vec<SkippedLines>>,
    reason: (u8, &'static str),
    place: LinePlace,
) -> Result<(), AllocError>
    ensures kept { OnOk result (is_some each.new ≡ is_some each.old) }
    ensures noted { OnOk result ((before : List Skipped) → AreEach before (option_map (λ e. e.items) each.old) → AreEach (before ++ record { order = reason.entry.0; name = reason.entry.1.now; place = place } ∷ []) (option_map (λ e. e.items) each.new)) }
{
    let Some(each) = each else {
        return Ok(());
    };
    let count = 1;
    each.push(SkippedLines {
        reason,
        count,
        first: place,
    })?;
    Ok(())
}

/// No skipped line yet, where each is wanted.
fn none_noted(alloc: Global, wants_each: bool) -> Option<Vec<SkippedLines>>
    ensures each { AreEach [] (option_map (λ e. e.items) result) }
    ensures kept { is_some result ≡ wants_each }
{
    if wants_each {
        return Some(Vec::new(alloc));
    }
    None
}

/// Whether all lines are wanted.
fn wants_all(choice: &Choice<'_>) -> bool
    ensures { result ≡ wants_all choice.now }
{
    choice.profiles.is_empty() && choice.since.is_none() && choice.until.is_none()
}

/// No line left out yet, where some may be.
fn none_left_out(choice: &Choice<'_>) -> Option<u64>
    ensures { result ≡ left_out_of choice.now 0 }
{
    if wants_all(choice) { None } else { Some(0) }
}

impl<'a> LogReport<'a> {
    /// Nothing yet, of the lines that are wanted.
    pub fn new(alloc: Global, choice: Choice<'a>, wants_each: bool) -> LogReport<'a>
        ensures empty { IsReport [] result }
        ensures choice { result.choice ≡ choice.entry }
        ensures each { is_some result.each_skipped ≡ wants_each }
    {
        let left_out = none_left_out(&choice);
        LogReport {
            choice,
            log: 0,
            entries: Vec::new(alloc),
            numbers: HashMap::new(alloc),
            skipped: Vec::new(alloc),
            each_skipped: none_noted(alloc, wants_each),
            lines: 0,
            requests: 0,
            skipped_count: 0,
            other: 0,
            left_out,
        }
    }

    /// Where a line of the log that is read stands.
    fn place(&self, line: u64) -> LinePlace
        ensures { result ≡ record { log = self.now.log; line = line } }
    {
        LinePlace {
            log: self.log,
            line,
        }
    }

    fn count_record(&mut self, alloc: Global, asked: Record, line: u64) -> Result<(), Unread>
        ensures counted { OnOk result (self.new ≡ record self.old { entries = self.new.entries; numbers = self.new.numbers; requests = min (self.old.requests + 1) greatest }) }
        ensures found { OnOk result ((before : List Asked) → AreFound before self.old.entries.items self.old.numbers → AreFound (before ++ asked_at (record_data asked) (record { log = self.old.log; line = line }) ∷ []) self.new.entries.items self.new.numbers) }
        ensures room { IfErr result (λ why. IsRefused why ((before : List Asked) → AreFound before self.old.entries.items self.old.numbers → most_requests < length (firsts asked_key (before ++ asked_at (record_data asked) (record { log = self.old.log; line = line }) ∷ [])))) }
    {
        let place = self.place(line);
        self.requests = self.requests.saturating_add(1);
        count_request(alloc, &mut self.entries, &mut self.numbers, asked, place)
    }

    fn count_skipped(&mut self, reason: Reason, line: u64) -> Result<(), AllocError>
        ensures counted { OnOk result (self.new ≡ record self.old { skipped = self.new.skipped; each_skipped = self.new.each_skipped; skipped_count = min (self.old.skipped_count + 1) greatest }) }
        ensures reasons { OnOk result ((before : List Skipped) → map skipped_data self.old.skipped.items ≡ counted skipped_key before → map skipped_data self.new.skipped.items ≡ counted skipped_key (before ++ skipped_for (cause_of reason) (record { log = self.old.log; line = line }) ∷ [])) }
        ensures kept { OnOk result (is_some self.new.each_skipped ≡ is_some self.old.each_skipped) }
        ensures each { OnOk result ((before : List Skipped) → AreEach before (option_map (λ e. e.items) self.old.each_skipped) → AreEach (before ++ skipped_for (cause_of reason) (record { log = self.old.log; line = line }) ∷ []) (option_map (λ e. e.items) self.new.each_skipped)) }
    {
        let place = self.place(line);
        let reason = named(reason);
        self.skipped_count = self.skipped_count.saturating_add(1);
        note_each(&mut self.each_skipped, reason, place)?;
        count_reason(&mut self.skipped, reason, place)
    }

    /// Whether a line is left out; it is counted then.
    fn leaves_out(&mut self, alloc: Global, line: &[u8]) -> Result<bool, AllocError>
        ensures left { IfOk result (λ left. left ≡ (is_some self.old.left_out && not (is_wanted self.old.choice line.now))) }
        ensures counted { IfOk result (λ left. self.new ≡ cond left (record self.old { left_out = option_map (λ n. min (n + 1) greatest) self.old.left_out }) self.old) }
    {
        let Some(left_out) = self.left_out else {
            return Ok(false);
        };
        if is_chosen(alloc, &self.choice, line)? {
            return Ok(false);
        }
        self.left_out = Some(left_out.saturating_add(1));
        Ok(true)
    }

    /// Counts a line that is known.
    pub(crate) fn count_found(
        &mut self,
        alloc: Global,
        line: &[u8],
        number: u64,
        found: Line,
    ) -> Result<(), Unread>
        requires { outcome found ≡ line_in line.now }
        ensures log { OnOk result (self.new.log ≡ self.old.log) }
        ensures choice { OnOk result (self.new.choice ≡ self.old.choice) }
        ensures kept { OnOk result (is_some self.new.each_skipped ≡ is_some self.old.each_skipped) }
        ensures taken { OnOk result ((before : List LogLine) → IsReport before self.old → IsReport (before ++ log_line self.old.log number line.now ∷ []) self.new) }
        ensures room { IfErr result (λ why. IsRefused why ((before : List LogLine) → IsReport before self.old → most_requests < distinct_in self.old.choice (before ++ log_line self.old.log number line.now ∷ []))) }
    {
        self.lines = self.lines.saturating_add(1);
        if let Line::Other = found {
            self.other = self.other.saturating_add(1);
            return Ok(());
        }
        if self.leaves_out(alloc, line)? {
            return Ok(());
        }
        match found {
            Line::Other => Ok(()),
            Line::Skipped(reason) => Ok(self.count_skipped(reason, number)?),
            Line::Asks(record) => self.count_record(alloc, record, number),
        }
    }

    /// The entries, by profile in byte order, and each profile's in the logs' order.
    pub fn in_order(&self, alloc: Global) -> Result<Vec<&Entry>, AllocError>
        ensures { IfOk result (λ entries. IsInOrder profile_of self.now.entries.items (map (λ e. e.now) entries.items)) }
    {
        let entries = self.entries.as_slice();
        let numbers = order_by_profile(alloc, entries)?;
        entries_at(alloc, entries, numbers.as_slice())
    }

    /// The skipped lines by their reasons, in the order in which reasons are printed.
    pub fn reasons_in_order(&self, alloc: Global) -> Result<Vec<&SkippedLines>, AllocError>
        ensures { IfOk result (λ reasons. IsInOrder reason_key self.now.skipped.items (map (λ s. s.now) reasons.items)) }
    {
        let skipped = self.skipped.as_slice();
        let numbers = order_by_reason(alloc, skipped)?;
        skipped_at(alloc, skipped, numbers.as_slice())
    }
}

impl Lines for LogReport<'_> {
    ghost use Rattle.aa_log.specs.Found.{HasSameSettings, IsReport};

    ghost log = { λ r. r.log };

    ghost has_taken = { λ r lines. IsReport lines r };

    ghost keeps = { λ first r. HasSameSettings first r };

    fn take_line(&mut self, alloc: Global, line: &[u8], number: u64) -> Result<(), Unread>
        ensures log { OnOk result (self.new.log ≡ self.old.log) }
        ensures keeps { OnOk result ((first : LogReport) → HasSameSettings first self.old → HasSameSettings first self.new) }
        ensures choice { OnOk result (self.new.choice ≡ self.old.choice) }
        ensures kept { OnOk result (is_some self.new.each_skipped ≡ is_some self.old.each_skipped) }
        ensures taken { OnOk result ((before : List LogLine) → IsReport before self.old → IsReport (before ++ log_line self.old.log number line.now ∷ []) self.new) }
        ensures room { IfErr result (λ why. IsRefused why ((before : List LogLine) → IsReport before self.old → most_requests < distinct_in self.old.choice (before ++ log_line self.old.log number line.now ∷ []))) }
    {
        let found = line_of(alloc, line)?;
        self.count_found(alloc, line, number, found)
    }
}

/// The numbers below one, in order.
fn up_to(alloc: Global, end: usize) -> Result<Vec<usize>, AllocError>
    ensures { IfOk result (λ numbers. numbers.items ≡ up_to end) }
{
    let mut numbers = Vec::new(alloc);
    for number in 0..end {
        numbers.push(number)?;
    }
    Ok(numbers)
}

/// The profile of the entry of that number.
fn profile_at(entries: &[Entry], number: usize) -> &[u8]
    ensures { result.now ≡ key_at (map profile_of entries.entry.now) number }
{
    match entries.get(number) {
        Some(entry) => entry.profile.as_slice(),
        None => &[],
    }
}

fn by_profile(entries: &[Entry], a: usize, b: usize) -> Ordering
    ensures { result ≡ slice_cmp nat_cmp (key_at (map profile_of entries.now) a) (key_at (map profile_of entries.now) b) }
{
    profile_at(entries, a).cmp(profile_at(entries, b))
}

/// The numbers of entries by profile in byte order, and each profile's as they come.
fn order_by_profile(alloc: Global, entries: &[Entry]) -> Result<Vec<usize>, AllocError>
    ensures { IfOk result (λ numbers. IsOrder (map profile_of entries.now) numbers.items) }
{
    let mut numbers = up_to(alloc, entries.len())?;
    numbers.sort_by(|a, b| by_profile(entries, *a, *b))?;
    Ok(numbers)
}

fn entry_at(entries: &[Entry], number: usize) -> Option<&Entry>
    ensures { option_map (λ e. e.now) result ≡ slice_get entries.entry.now number }
{
    entries.get(number)
}

/// Adds an entry where there is one.
fn add_found<'e>(found: &mut Vec<&'e Entry>, one: Option<&'e Entry>) -> Result<(), AllocError>
    ensures { OnOk result (map (λ e. e.now) found.new.items ≡ map (λ e. e.now) found.old.items ++ option_to_list (option_map (λ e. e.now) one.entry)) }
{
    if let Some(one) = one {
        found.push(one)?;
    }
    Ok(())
}

/// The entries of those numbers.
fn entries_at<'e>(
    alloc: Global,
    entries: &'e [Entry],
    numbers: &[usize],
) -> Result<Vec<&'e Entry>, AllocError>
    ensures { IfOk result (λ found. map (λ e. e.now) found.items ≡ items_at entries.entry.now numbers.now) }
{
    let mut found = Vec::new(alloc);
    for number in numbers {
        add_found(&mut found, entry_at(entries, *number))?;
    }
    Ok(found)
}

/// Reasons by the order in which they are printed: by their places in it, and those of one place by their names.
fn compare_reasons(a: (u8, &'static str), b: (u8, &'static str)) -> Ordering
    ensures { result ≡ slice_cmp nat_cmp (a.entry.0 ∷ a.entry.1.now) (b.entry.0 ∷ b.entry.1.now) }
{
    match a.0.cmp(&b.0) {
        Ordering::Equal => a.1.cmp(b.1),
        unlike => unlike,
    }
}

fn by_reason(skipped: &[SkippedLines], a: usize, b: usize) -> Ordering
    ensures { result ≡ slice_cmp nat_cmp (key_at (map reason_key skipped.now) a) (key_at (map reason_key skipped.now) b) }
{
    match (skipped.get(a), skipped.get(b)) {
        (Some(a), Some(b)) => compare_reasons(a.reason, b.reason),
        (Some(_), None) => Ordering::Greater,
        (None, Some(_)) => Ordering::Less,
        (None, None) => Ordering::Equal,
    }
}

fn order_by_reason(alloc: Global, skipped: &[SkippedLines]) -> Result<Vec<usize>, AllocError>
    ensures { IfOk result (λ numbers. IsOrder (map reason_key skipped.now) numbers.items) }
{
    let mut numbers = up_to(alloc, skipped.len())?;
    numbers.sort_by(|a, b| by_reason(skipped, *a, *b))?;
    Ok(numbers)
}

fn reason_at(skipped: &[SkippedLines], number: usize) -> Option<&SkippedLines>
    ensures { option_map (λ s. s.now) result ≡ slice_get skipped.entry.now number }
{
    skipped.get(number)
}

/// Adds skipped lines where there are some.
fn add_skipped<'s>(
    found: &mut Vec<&'s SkippedLines>,
    one: Option<&'s SkippedLines>,
) -> Result<(), AllocError>
    ensures { OnOk result (map (λ s. s.now) found.new.items ≡ map (λ s. s.now) found.old.items ++ option_to_list (option_map (λ s. s.now) one.entry)) }
{
    if let Some(one) = one {
        found.push(one)?;
    }
    Ok(())
}

fn skipped_at<'s>(
    alloc: Global,
    skipped: &'s [SkippedLines],
    numbers: &[usize],
) -> Result<Vec<&'s SkippedLines>, AllocError>
    ensures { IfOk result (λ found. map (λ s. s.now) found.items ≡ items_at skipped.entry.now numbers.now) }
{
    let mut found = Vec::new(alloc);
    for number in numbers {
        add_skipped(&mut found, reason_at(skipped, *number))?;
    }
    Ok(found)
}
