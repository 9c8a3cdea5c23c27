//! The rules and assignments that words are, one behind another.

ghost use Rattle.std.specs.Prelude.{◌≡◌, ◌<◌, ◌≤◌, length, drop, option_map};
ghost use Rattle.std.specs.List.{list_any};
ghost use Rattle.aa_words.specs.Splits.{word_data, words_data};
ghost use Rattle.aa_faults.specs.Statements.{ends, is_sign, is_value, is_sign_first, is_value_first, is_assigned, parts, first_length, stands_at, has_word_at, statement_at};

use aa_base::Spot;
use aa_rules::spot_of;
use aa_words::{Word, WordKind, is_whole_variable};

/// Whether a word ends a rule, or begins or ends a body.
fn ends(kind: WordKind) -> bool
    ensures { result ≡ ends kind }
{
    matches!(kind, WordKind::Comma | WordKind::Open | WordKind::Close)
}

/// Whether a word is a sign with which values are given to a variable.
fn is_sign(kind: WordKind) -> bool
    ensures { result ≡ is_sign kind }
{
    matches!(kind, WordKind::Equals | WordKind::PlusEquals)
}

fn is_value(kind: WordKind) -> bool
    ensures { result ≡ is_value kind }
{
    matches!(kind, WordKind::Value)
}

fn is_sign_first(words: &[Word<'_>]) -> bool
    ensures { result ≡ is_sign_first (words_data words.now) }
{
    match words {
        [word, ..] => is_sign(word.kind),
        [] => false,
    }
}

fn is_value_first(words: &[Word<'_>]) -> bool
    ensures { result ≡ is_value_first (words_data words.now) }
{
    match words {
        [word, ..] => is_value(word.kind),
        [] => false,
    }
}

/// Whether a word is a variable, and values are given to it.
fn is_assigned(word: &Word<'_>, after: &[Word<'_>]) -> bool
    ensures { result ≡ is_assigned (word_data word.now) (words_data after.now) }
{
    is_whole_variable(word.text) && is_sign_first(after)
}

/// Whether a statement ends with a word, before others.
fn parts(word: &Word<'_>, after: &[Word<'_>]) -> bool
    ensures { result ≡ parts (word_data word.now) (words_data after.now) }
{
    match after {
        [] => true,
        [next, behind @ ..] => {
            ends(word.kind)
                || is_assigned(next, behind)
                || (is_value(word.kind) && !is_value_first(after))
        }
    }
}

/// How many words the first statement has.
fn first_length(words: &[Word<'_>]) -> usize
    ensures length { result ≡ first_length (words_data words.now) }
    ensures within { result ≤ length words.now }
    ensures some { 0 < length words.now → 0 < result }
{
    let mut count: usize = 0;
    let mut rest = words;
    while let [word, after @ ..] = rest {
        count += 1;
        if parts(word, after) {
            return count;
        }
        rest = after;
    }
    count
}

fn stands_at(word: &Word<'_>, at: Spot) -> bool
    ensures { result ≡ stands_at at (word_data word.now) }
{
    let spot = spot_of(word);
    spot.file == at.file && spot.byte == at.byte
}

fn behind<'w, 's>(words: &'w [Word<'s>], count: usize) -> &'w [Word<'s>]
    requires { count ≤ length words.now }
    ensures { result.now ≡ drop count words.entry.now }
{
    let (_, after) = words.split_at(count);
    after
}

fn is_one_at(words: &[Word<'_>], at: Spot) -> bool
    ensures { result ≡ list_any (λ w. stands_at at (word_data w)) words.now }
{
    words.iter().any(|word| stands_at(word, at))
}

fn has_word_at(words: &[Word<'_>], at: Spot) -> bool
    ensures { result ≡ has_word_at at (words_data words.now) }
{
    is_one_at(words, at)
}

/// The first statement that has a word at a place.
pub(crate) fn statement_at<'w, 's>(words: &'w [Word<'s>], at: Spot) -> Option<&'w [Word<'s>]>
    ensures { option_map (λ s. words_data s.now) result ≡ statement_at at (words_data words.entry.now) }
{
    let mut rest = words;
    while rest.len() > 0 {
        let length = first_length(rest);
        if has_word_at(&rest[..length], at) {
            return Some(&rest[..length]);
        }
        rest = behind(rest, length);
    }
    None
}
