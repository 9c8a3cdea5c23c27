//! Which lines of logs are wanted.

ghost use Rattle.std.specs.Prelude.{◌≡◌, map, option_map, IfOk};
ghost use Rattle.std.specs.List.{list_any};
ghost use Rattle.std.specs.Str.{bytes_eq};
ghost use Rattle.std.specs.Cow.{cow_slice_items};
ghost use Rattle.aa_logs.specs.Words.{word_data, words_data};
ghost use Rattle.aa_logs.specs.Chosen.{is_among, is_from, is_up_to, is_between, second_at, is_stamp_between, is_in_time, are_chosen, is_chosen};

use crate::field::{either_text, number_of};
use crate::key::Key;
use crate::keyed::{KeyedWords, keyed_words};
use crate::line::{begins_stamp, digits, is_time, without_return};
use crate::word::LogWord;
use std::alloc::{AllocError, Global};
use std::borrow::CowSlice;

/// Which lines of logs are wanted.
#[derive(Clone, Copy, Debug)]
pub struct Choice<'a> {
    /// The full names of their profiles; where none is named, all are wanted.
    pub profiles: &'a [Vec<u8>],
    /// The first second of their stamps, from the start of the year 1970 on.
    pub since: Option<u64>,
    /// The last second of their stamps.
    pub until: Option<u64>,
}

fn is_name(name: &[u8], wanted: &[u8]) -> bool
    ensures { result ≡ bytes_eq name.now wanted.now }
{
    name == wanted
}

fn has_name(names: &[Vec<u8>], name: &[u8]) -> bool
    ensures { result ≡ list_any (λ n. bytes_eq n.items name.now) names.now }
{
    names.iter().any(|one| is_name(one.as_slice(), name))
}

#[tactic(auto, using(crate::proofs::Choosing::any_name, crate::proofs::Choosing::same_length))]
fn is_among(names: &[Vec<u8>], name: Option<CowSlice<'_, u8, Global>>) -> bool
    ensures { result ≡ is_among (map (λ n. n.items) names.now) (option_map cow_slice_items name.entry) }
{
    match name {
        Some(name) => names.is_empty() || has_name(names, name.as_slice()),
        None => names.is_empty(),
    }
}

fn is_from(since: Option<u64>, second: u64) -> bool
    ensures { result ≡ is_from since second }
{
    match since {
        Some(since) => since <= second,
        None => true,
    }
}

fn is_up_to(until: Option<u64>, second: u64) -> bool
    ensures { result ≡ is_up_to until second }
{
    match until {
        Some(until) => second <= until,
        None => true,
    }
}

fn is_between(since: Option<u64>, until: Option<u64>, second: Option<u64>) -> bool
    ensures { result ≡ is_between since until second }
{
    match second {
        Some(second) => is_from(since, second) && is_up_to(until, second),
        None => false,
    }
}

/// The second that a stamp's time tells.
fn second_at(text: &[u8]) -> Option<u64>
    ensures { result ≡ second_at text.now }
{
    number_of(&text[..digits(text)])
}

/// Whether a word is a stamp within a time.
#[tactic(auto, unfolding(crate::specs::Chosen::is_stamp_between))]
fn is_stamp_between(since: Option<u64>, until: Option<u64>, word: &LogWord<'_>) -> bool
    ensures { result ≡ is_stamp_between since until (word_data word.now) }
{
    begins_stamp(word)
        && is_time(&word.text[6..])
        && is_between(since, until, second_at(&word.text[6..]))
}

fn has_stamp_between(since: Option<u64>, until: Option<u64>, words: &[LogWord<'_>]) -> bool
    ensures { result ≡ list_any (λ w. is_stamp_between since until (word_data w)) words.now }
{
    words
        .iter()
        .any(|word| is_stamp_between(since, until, word))
}

#[tactic(auto, using(crate::proofs::Choosing::any_word))]
fn is_in_time(since: Option<u64>, until: Option<u64>, words: &[LogWord<'_>]) -> bool
    ensures { result ≡ is_in_time since until (words_data words.now) }
{
    (since.is_none() && until.is_none()) || has_stamp_between(since, until, words)
}

fn are_chosen(
    alloc: Global,
    choice: &Choice<'_>,
    words: &KeyedWords<'_>,
) -> Result<bool, AllocError>
    ensures { IfOk result (λ chosen. chosen ≡ are_chosen (map (λ n. n.items) choice.now.profiles.now) choice.now.since choice.now.until words.now) }
{
    let profile = either_text(alloc, words, Key::Profile, Key::Label)?;
    Ok(is_among(choice.profiles, profile) && is_in_time(choice.since, choice.until, words.words()))
}

/// Whether a line of a log, without its end, is wanted. A CR at its end is none of its bytes.
#[tactic(auto, unfolding(crate::specs::Chosen::is_chosen))]
pub fn is_chosen(alloc: Global, choice: &Choice<'_>, line: &[u8]) -> Result<bool, AllocError>
    ensures { IfOk result (λ chosen. chosen ≡ is_chosen (map (λ n. n.items) choice.now.profiles.now) choice.now.since choice.now.until line.now) }
{
    let words = keyed_words(alloc, without_return(line))?;
    are_chosen(alloc, choice, &words)
}
