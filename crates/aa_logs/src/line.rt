//! What a line of a log says: whether it is the access control's, and what was asked.

ghost use Rattle.std.specs.Prelude.{◌≡◌, ◌≤◌, ◌||◌, length, codes, option_map, [], IfOk};
ghost use Rattle.std.specs.List.{prefix_len};
ghost use Rattle.std.specs.Str.{bytes_eq};
ghost use Rattle.std.specs.Cow.{cow_slice_items};
ghost use Rattle.aa_logs.specs.Words.{word_data, words_data};
ghost use Rattle.aa_logs.specs.Fields.{is_digit};
ghost use Rattle.aa_logs.specs.Asked.{Tells};
ghost use Rattle.aa_logs.specs.Outcomes.{record_data, outcome};
ghost use Rattle.aa_logs.specs.Records.{is_mark_at, has_mark_at, is_record, told_by_word, is_one_of, told_by_type, is_old_type, told_in, behind_digits, is_time, may_be_stamp, begins_stamp, is_false_stamp, is_open, is_broken, stamped_by, is_other_space, profile_in, record_by, record_in, without_return, outcome_of, line_in};

use crate::asked::asked_of;
use crate::field::{begins, either_text, has_part, is_digit, is_text, number_in, raw_of, text_of};
use crate::key::Key;
use crate::keyed::{KeyedWords, keyed_words};
use crate::word::{Form, LogWord};
use aa_model::Request;
use memchr::memchr;
use std::alloc::{AllocError, AllocFailed, Global};
use std::borrow::CowSlice;

/// The most bytes of a line.
const MAX_LINE: usize = 65536;

/// What became of a request.
#[derive(Clone, Copy, Debug, PartialEq, Eq, PartialOrd, Ord)]
pub enum Then {
    Denied,
    /// Granted by complain mode, against the rules.
    Allowed,
    Granted,
}

/// Why a line asks nothing that can be decided.
#[derive(Clone, Copy, Debug, PartialEq, Eq)]
pub enum Reason {
    /// It is about a rule of this keyword, which never decides here.
    Rule(&'static str),
    NoProfile,
    Namespace,
    Stacked,
    NoNewPrivs,
    Path,
    Mask,
    Name,
    Capability,
    Socket,
    Operation,
    Status,
    OldForm,
    Broken,
}

/// What was asked, and what became of it.
#[derive(Drop)]
pub struct Record {
    pub then: Then,
    /// The full name of the profile that asked.
    pub profile: Vec<u8>,
    pub request: Request,
    /// The process that asked, where the line tells.
    pub pid: Option<u64>,
}

/// What a line is.
#[derive(Drop)]
pub enum Line {
    /// Not one of the access control's.
    Other,
    Skipped(Reason),
    Asks(Record),
}

/// Why a line gives no request.
#[derive(Clone, Copy, Debug, PartialEq, Eq)]
pub enum Refusal {
    NoMemory,
    Skipped(Reason),
}

impl From<AllocError> for Refusal {
    ghost use Rattle.std.specs.Prelude.{◌≡◌};
    ghost use Rattle.aa_logs.specs.declared.line.Refusal.TheVariants.{NoMemory};

    ghost from_gives = { λ _ e. e ≡ NoMemory };

    fn from(_e: AllocError) -> Refusal {
        Refusal::NoMemory
    }
}

impl<T: Drop> From<AllocFailed<T>> for Refusal {
    ghost use Rattle.std.specs.Prelude.{◌≡◌};
    ghost use Rattle.aa_logs.specs.declared.line.Refusal.TheVariants.{NoMemory};

    ghost from_gives = { λ _ e. e ≡ NoMemory };

    fn from(_e: AllocFailed<T>) -> Refusal {
        Refusal::NoMemory
    }
}

/// What a record's word tells.
#[derive(Clone, Copy, Debug, PartialEq, Eq)]
enum Told {
    Then(Then),
    Status,
}

/// Whether a mark stands in a line with its sign, which is its byte of that number, at a place.
fn is_mark_at(line: &[u8], mark: &str, sign: usize, at: usize) -> bool
    requires { at ≤ length line.now }
    ensures { result ≡ is_mark_at mark.now sign line.now at }
{
    sign <= at && begins(&line[at - sign..], mark)
}

/// Whether one of the access control's marks stands in a line with its sign at a place.
fn has_mark_at(line: &[u8], at: usize) -> bool
    requires { at ≤ length line.now }
    ensures { result ≡ has_mark_at line.now at }
{
    is_mark_at(line, "apparmor=\"", 8, at)
        || is_mark_at(line, "type=15", 4, at)
        || is_mark_at(line, "type=APPARMOR", 4, at)
        || is_mark_at(line, "type=UNKNOWN[15", 4, at)
}

/// Whether a line is one of the access control's. Each of their marks has the sign `=`, which other lines seldom have: only round
/// such signs is looked for marks.
fn is_record(line: &[u8]) -> bool
    ensures { result ≡ is_record line.now }
{
    let mut from = 0;
    'signs: while let Some(before) = memchr(b'=', &line[from..]) {
        if has_mark_at(line, from + before) {
            return true;
        }
        from += before + 1;
    }
    false
}

/// What a record's word tells.
#[tactic(auto, unfolding(crate::specs::Records::told_by_word))]
fn told_by_word(word: &[u8]) -> Option<Told>
    ensures { result ≡ told_by_word word.now }
{
    if is_text(word, "DENIED") || is_text(word, "KILLED") {
        return Some(Told::Then(Then::Denied));
    }
    if is_text(word, "ALLOWED") {
        return Some(Told::Then(Then::Allowed));
    }
    if is_text(word, "AUDIT") {
        return Some(Told::Then(Then::Granted));
    }
    if is_text(word, "HINT") || is_text(word, "STATUS") || is_text(word, "ERROR") {
        return Some(Told::Status);
    }
    None
}

fn is_one_of(word: &[u8], first: &str, second: &str, third: &str) -> bool
    ensures { result ≡ is_one_of first.now second.now third.now word.now }
{
    is_text(word, first) || is_text(word, second) || is_text(word, third)
}

/// What the type of a record tells that has no word.
#[tactic(auto, unfolding(crate::specs::Records::told_by_type))]
fn told_by_type(kind: &[u8]) -> Option<Told>
    ensures { result ≡ told_by_type kind.now }
{
    if is_one_of(kind, "1501", "UNKNOWN[1501]", "APPARMOR_AUDIT") {
        return Some(Told::Then(Then::Granted));
    }
    if is_one_of(kind, "1502", "UNKNOWN[1502]", "APPARMOR_ALLOWED") {
        return Some(Told::Then(Then::Allowed));
    }
    if is_one_of(kind, "1503", "UNKNOWN[1503]", "APPARMOR_DENIED") {
        return Some(Told::Then(Then::Denied));
    }
    if is_one_of(kind, "1504", "UNKNOWN[1504]", "APPARMOR_HINT")
        || is_one_of(kind, "1505", "UNKNOWN[1505]", "APPARMOR_STATUS")
        || is_one_of(kind, "1506", "UNKNOWN[1506]", "APPARMOR_ERROR")
    {
        return Some(Told::Status);
    }
    None
}

/// Whether the type is that of a record of before 2007.
fn is_old_type(kind: &[u8]) -> bool
    ensures { result ≡ is_old_type kind.now }
{
    is_one_of(kind, "APPARMOR", "1500", "UNKNOWN[1500]")
}

/// How many digits stand first.
pub(crate) fn digits(text: &[u8]) -> usize
    ensures count { result ≡ prefix_len is_digit text.now }
    ensures within { result ≤ length text.now }
{
    text.iter().take_while(|b| is_digit(**b)).count()
}

/// What stands behind the digits of a stamp that stand first, and behind the byte that ends them.
#[tactic(auto, unfolding(crate::specs::Records::behind_digits))]
fn behind_digits(text: &[u8], most: usize, end: u8) -> Option<&[u8]>
    ensures { option_map (λ t. t.now) result ≡ behind_digits most end text.entry.now }
{
    let length = digits(text);
    match &text[length..] {
        [b, rest @ ..] if 0 < length && length <= most && *b == end => Some(rest),
        _ => None,
    }
}

fn is_end(rest: &[u8]) -> bool
    ensures { result ≡ (bytes_eq rest.now [] || bytes_eq rest.now (codes ":")) }
{
    matches!(rest, [] | b":")
}

/// Whether a text is `SECONDS.PART:NUMBER)`, a colon behind it or not.
#[tactic(auto, unfolding(crate::specs::Records::is_time))]
pub(crate) fn is_time(text: &[u8]) -> bool
    ensures { result ≡ is_time text.now }
{
    let Some(part) = behind_digits(text, 19, b'.') else {
        return false;
    };
    let Some(number) = behind_digits(part, 9, b':') else {
        return false;
    };
    match behind_digits(number, 19, b')') {
        Some(rest) => is_end(rest),
        None => false,
    }
}

/// Whether a word can be a stamp: a run, or the run that is the value of `msg`.
fn may_be_stamp(form: Form, key: &[u8]) -> bool
    ensures { result ≡ may_be_stamp form key.now }
{
    match form {
        Form::Run => true,
        Form::Plain => is_text(key, "msg"),
        Form::Quoted | Form::Open => false,
    }
}

pub(crate) fn begins_stamp(word: &LogWord<'_>) -> bool
    ensures { result ≡ begins_stamp (word_data word.now) }
{
    may_be_stamp(word.form, word.key) && begins(word.text, "audit(")
}

/// Whether a word begins as a stamp does, and is none.
fn is_false_stamp(word: &LogWord<'_>) -> bool
    ensures { result ≡ is_false_stamp (word_data word.now) }
{
    begins_stamp(word) && !is_time(&word.text[6..])
}

fn is_open(word: &LogWord<'_>) -> bool
    ensures { result ≡ is_open (word_data word.now) }
{
    match word.form {
        Form::Open => true,
        Form::Quoted | Form::Plain | Form::Run => false,
    }
}

/// Whether a stamp has come, with one word more; none where no line has such words.
fn stamped_by(is_stamped: bool, word: &LogWord<'_>) -> Option<bool>
    ensures { result ≡ stamped_by is_stamped (word_data word.now) }
{
    if is_open(word) {
        return None;
    }
    if !begins_stamp(word) {
        return Some(is_stamped);
    }
    if is_stamped || is_false_stamp(word) {
        return None;
    }
    Some(true)
}

/// Whether what a line's words are can't be: a quote that isn't closed, a stamp that is none, two stamps.
fn are_broken(words: &[LogWord<'_>]) -> bool
    ensures { result ≡ is_broken (words_data words.now) }
{
    let mut is_stamped = false;
    let mut rest = words;
    while let [word, after @ ..] = rest {
        let Some(stamped) = stamped_by(is_stamped, word) else {
            return true;
        };
        is_stamped = stamped;
        rest = after;
    }
    false
}

/// Whether a namespace is named that isn't the first one.
fn is_elsewhere(space: Option<CowSlice<'_, u8, Global>>) -> bool
    ensures { result ≡ is_other_space (option_map cow_slice_items space.entry) }
{
    match space {
        Some(space) => !is_text(space.as_slice(), "root") && !is_text(space.as_slice(), "default"),
        None => false,
    }
}

/// The profile that asked, by its full name.
#[tactic(auto, unfolding(crate::specs::Records::profile_in))]
fn profile_of(alloc: Global, words: &KeyedWords<'_>) -> Result<Vec<u8>, Refusal>
    ensures { Tells (λ name. name.items) result (profile_in words.now) }
{
    let Some(name) = either_text(alloc, words, Key::Profile, Key::Label)? else {
        return Err(Refusal::Skipped(Reason::NoProfile));
    };
    let is_elsewhere = is_elsewhere(text_of(alloc, words, Key::Namespace)?);
    if begins(name.as_slice(), ":") || is_elsewhere {
        return Err(Refusal::Skipped(Reason::Namespace));
    }
    if has_part(name.as_slice(), "//&") {
        return Err(Refusal::Skipped(Reason::Stacked));
    }
    Ok(Vec::from_slice(alloc, name.as_slice())?)
}

/// What the words of a record tell, if it is one.
#[tactic(auto, unfolding(crate::specs::Records::told_in))]
fn told_of(words: &KeyedWords<'_>) -> Result<Option<Told>, Refusal>
    ensures { Tells (λ t. t) result (told_in words.now) }
{
    if let Some(word) = raw_of(words, Key::Apparmor) {
        return match told_by_word(word) {
            Some(told) => Ok(Some(told)),
            None => Err(Refusal::Skipped(Reason::Broken)),
        };
    }
    match raw_of(words, Key::Kind) {
        Some(kind) if is_old_type(kind) => Err(Refusal::Skipped(Reason::OldForm)),
        Some(kind) => Ok(told_by_type(kind)),
        None => Ok(None),
    }
}

/// What a record's words say.
#[tactic(auto, unfolding(crate::specs::Records::record_by))]
fn record_by(alloc: Global, words: &KeyedWords<'_>) -> Result<Option<Record>, Refusal>
    ensures { Tells (option_map record_data) result (record_by words.now) }
{
    if are_broken(words.words()) {
        return Err(Refusal::Skipped(Reason::Broken));
    }
    let then = match told_of(words)? {
        Some(Told::Then(then)) => then,
        Some(Told::Status) => return Err(Refusal::Skipped(Reason::Status)),
        None => return Ok(None),
    };
    let profile = profile_of(alloc, words)?;
    let request = asked_of(alloc, words)?;
    Ok(Some(Record {
        then,
        profile,
        request,
        pid: number_in(words, Key::Pid),
    }))
}

#[tactic(auto, unfolding(crate::specs::Records::record_in))]
fn record_of(alloc: Global, line: &[u8]) -> Result<Option<Record>, Refusal>
    ensures { Tells (option_map record_data) result (record_in line.now) }
{
    if line.len() > MAX_LINE {
        return Err(Refusal::Skipped(Reason::Broken));
    }
    let words = keyed_words(alloc, line)?;
    record_by(alloc, &words)
}

/// A line without the CR that it may end in.
pub(crate) fn without_return(line: &[u8]) -> &[u8]
    ensures { result.now ≡ without_return line.entry.now }
{
    match line {
        [front @ .., b'\r'] => front,
        _ => line,
    }
}

fn outcome_of(alloc: Global, line: &[u8]) -> Result<Line, AllocError>
    ensures { IfOk result (λ l. outcome l ≡ outcome_of line.now) }
{
    if !is_record(line) {
        return Ok(Line::Other);
    }
    match record_of(alloc, line) {
        Ok(Some(record)) => Ok(Line::Asks(record)),
        Ok(None) => Ok(Line::Other),
        Err(Refusal::Skipped(reason)) => Ok(Line::Skipped(reason)),
        Err(Refusal::NoMemory) => Err(AllocError),
    }
}

/// What a line of a log says, without its end. A CR at its end is none of its bytes.
#[tactic(auto, unfolding(crate::specs::Records::line_in))]
pub fn line_of(alloc: Global, line: &[u8]) -> Result<Line, AllocError>
    ensures { IfOk result (λ l. outcome l ≡ line_in line.now) }
{
    outcome_of(alloc, without_return(line))
}
