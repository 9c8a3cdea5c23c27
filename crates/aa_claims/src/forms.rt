//! The forms of claims.

ghost use Rattle.std.specs.Prelude.{◌≡◌, ◌+◌, ◌<◌, ◌&&◌, ℕ, codes, not, drop, take, length, position, option_map, IfSome, IfNone, Option, Some, None};
ghost use Rattle.std.specs.List.{list_any};
ghost use Rattle.std.specs.Str.{bytes_eq};
ghost use Rattle.aa_claims.specs.declared.words.ClaimWord.{ClaimWord};
ghost use Rattle.aa_claims.specs.Forms.{is_word, is_keyword, is_head, head_wrong, begins_names, is_reach, reach_wrong, asked_wrong, never_has, has_clause, clause_wrong, later_wrong, wrong_between, wrong_at, up_to_clause, names_behind, keyword_of, names_or, names_within, names_led, AreRight, IsFirstWrong};

use crate::fault::Wrong;
use crate::words::ClaimWord;

/// Whether it is this word, without quotes.
pub fn is_word(word: &ClaimWord, text: &str) -> bool
    ensures { result ≡ is_word text.now word.now }
{
    !word.is_quoted && word.text.as_slice() == text.as_bytes()
}

/// Whether it begins a clause.
fn is_keyword(word: &ClaimWord) -> bool
    ensures { result ≡ is_keyword word.now }
{
    is_word(word, "in") || is_word(word, "except") || is_word(word, "to") || is_word(word, "from")
}

/// Whether it begins a claim.
fn is_head(word: &ClaimWord) -> bool
    ensures { result ≡ is_head word.now }
{
    is_word(word, "never") || is_word(word, "always")
}

/// What is wrong with the first word of a claim.
fn head_wrong(word: &ClaimWord, later: &[ClaimWord]) -> Option<Wrong>
    ensures { result ≡ head_wrong word.now later.now }
{
    if !is_head(word) {
        return Some(Wrong::NoClaim);
    }
    if later.is_empty() {
        Some(Wrong::Nothing)
    } else {
        None
    }
}

/// Whether names stand there.
fn begins_names(words: &[ClaimWord]) -> bool
    ensures { result ≡ begins_names words.now }
{
    match words {
        [] => false,
        [first, ..] => !is_keyword(first),
    }
}

/// Whether a claim of this head and this second word says that a task never comes to some labels.
pub fn is_reach(head: &ClaimWord, asked: &ClaimWord) -> bool
    ensures { result ≡ is_reach head.now asked.now }
{
    is_word(head, "never") && is_word(asked, "reach")
}

fn has_from(words: &[ClaimWord]) -> bool
    ensures { result ≡ list_any (is_word (codes "from")) words.now }
{
    words.iter().any(|word| is_word(word, "from"))
}

/// What is wrong with `reach`, behind which these words stand.
fn reach_wrong(later: &[ClaimWord]) -> Option<Wrong>
    ensures { result ≡ reach_wrong later.now }
{
    if !begins_names(later) {
        return Some(Wrong::NoName);
    }
    if has_from(later) {
        None
    } else {
        Some(Wrong::NoFrom)
    }
}

/// What is wrong with the second, which says what is claimed.
fn asked_wrong(head: &ClaimWord, word: &ClaimWord, later: &[ClaimWord]) -> Option<Wrong>
    ensures { result ≡ asked_wrong head.now word.now later.now }
{
    if is_keyword(word) {
        return Some(Wrong::Nothing);
    }
    if is_reach(head, word) {
        reach_wrong(later)
    } else {
        None
    }
}

fn never_has(head: &ClaimWord, asked: &ClaimWord, word: &ClaimWord) -> bool
    ensures { result ≡ never_has head.now asked.now word.now }
{
    if is_reach(head, asked) {
        is_word(word, "from")
    } else {
        !is_word(word, "from")
    }
}

/// Whether a claim of this head and this second word has such a clause.
fn has_clause(head: &ClaimWord, asked: &ClaimWord, word: &ClaimWord) -> bool
    ensures { result ≡ has_clause head.now asked.now word.now }
{
    if is_word(head, "always") {
        !is_word(asked, "enforced") && is_word(word, "in")
    } else {
        never_has(head, asked, word)
    }
}

/// Whether the words hold this one, without quotes.
fn stands_before(earlier: &[ClaimWord], word: &ClaimWord) -> bool
    ensures { result ≡ list_any (λ (v : ClaimWord). not v.is_quoted && bytes_eq v.text.items word.now.text.items) earlier.now }
{
    earlier.iter().any(|one| !one.is_quoted && one.text.as_slice() == word.text.as_slice())
}

/// What is wrong with a word that begins a clause.
fn clause_wrong(
    head: &ClaimWord,
    asked: &ClaimWord,
    earlier: &[ClaimWord],
    word: &ClaimWord,
    later: &[ClaimWord],
) -> Option<Wrong>
    ensures { result ≡ clause_wrong head.now asked.now earlier.now word.now later.now }
{
    if stands_before(earlier, word) {
        return Some(Wrong::Twice);
    }
    if !has_clause(head, asked, word) {
        return Some(Wrong::NotHere);
    }
    if begins_names(later) {
        None
    } else {
        Some(Wrong::NoName)
    }
}

/// What is wrong with a word behind the second.
fn later_wrong(
    head: &ClaimWord,
    asked: &ClaimWord,
    earlier: &[ClaimWord],
    word: &ClaimWord,
    later: &[ClaimWord],
) -> Option<Wrong>
    ensures { result ≡ later_wrong head.now asked.now earlier.now word.now later.now }
{
    if is_keyword(word) {
        return clause_wrong(head, asked, earlier, word, later);
    }
    if earlier.is_empty() && !is_reach(head, asked) {
        Some(Wrong::NoClause)
    } else {
        None
    }
}

/// What is wrong with a word between these.
fn wrong_between(earlier: &[ClaimWord], word: &ClaimWord, later: &[ClaimWord]) -> Option<Wrong>
    ensures { result ≡ wrong_between earlier.now word.now later.now }
{
    match earlier {
        [] => head_wrong(word, later),
        [head] => asked_wrong(head, word, later),
        [head, asked, earlier @ ..] => later_wrong(head, asked, earlier, word, later),
    }
}

/// What is wrong with the word of that number.
fn wrong_at(words: &[ClaimWord], number: usize) -> Option<Wrong>
    requires { number < length words.now }
    ensures { result ≡ wrong_at words.now number }
{
    wrong_between(&words[..number], &words[number], &words[number + 1..])
}

/// What is wrong with a claim, and how many bytes of its line stand before the first word with which it is; none where nothing is.
pub(crate) fn first_wrong(words: &[ClaimWord]) -> Option<(usize, Wrong)>
    ensures right { IfNone result (AreRight words.now (length words.now)) }
    ensures wrong { IfSome result (λ f. IsFirstWrong words.now f.0 f.1) }
{
    for number in 0..words.len() {
        if let Some(wrong) = wrong_at(words, number) {
            return Some((words[number].at, wrong));
        }
    }
    None
}

fn keyword_at(words: &[ClaimWord]) -> Option<usize>
    ensures found { result ≡ position is_keyword words.now }
    ensures within { IfSome result (λ n. n < length words.now) }
{
    words.iter().position(|word| is_keyword(word))
}

fn word_at(words: &[ClaimWord], text: &str) -> Option<usize>
    ensures found { result ≡ position (is_word text.now) words.now }
    ensures within { IfSome result (λ n. n < length words.now) }
{
    words.iter().position(|word| is_word(word, text))
}

/// The words up to the next that begins a clause.
fn up_to_clause(words: &[ClaimWord]) -> &[ClaimWord]
    ensures { result.now ≡ up_to_clause words.entry.now }
{
    match keyword_at(words) {
        Some(end) => &words[..end],
        None => words,
    }
}

/// The names of the clause that a word begins, if it stands in the claim.
pub fn names_behind<'w>(words: &'w [ClaimWord], keyword: &str) -> Option<&'w [ClaimWord]>
    ensures { option_map (λ names. names.now) result ≡ names_behind keyword.now words.entry.now }
{
    match word_at(words, keyword) {
        Some(at) => Some(up_to_clause(&words[at + 1..])),
        None => None,
    }
}

/// The word that begins a clause, if it stands in the claim.
pub fn keyword_of<'w>(words: &'w [ClaimWord], keyword: &str) -> Option<&'w ClaimWord>
    ensures { option_map (λ word. word.now) result ≡ keyword_of keyword.now words.entry.now }
{
    match word_at(words, keyword) {
        Some(at) => words.get(at),
        None => None,
    }
}

/// The first names, or else the others.
fn names_or<'w>(
    names: Option<&'w [ClaimWord]>,
    others: Option<&'w [ClaimWord]>,
) -> Option<&'w [ClaimWord]>
    ensures { option_map (λ ws. ws.now) result ≡ names_or (option_map (λ ws. ws.now) names.entry) (option_map (λ ws. ws.now) others.entry) }
{
    match names {
        Some(words) => Some(words),
        None => others,
    }
}

/// The names of those whom a claim is about, if it says them: where a task begins, or whose requests are claimed.
pub fn names_within(words: &[ClaimWord]) -> Option<&[ClaimWord]>
    ensures { option_map (λ ws. ws.now) result ≡ names_within words.entry.now }
{
    names_or(names_behind(words, "from"), names_behind(words, "in"))
}

/// The names of the labels to which nothing leads, if a claim says them.
pub fn names_led(words: &[ClaimWord]) -> Option<&[ClaimWord]>
    ensures { option_map (λ ws. ws.now) result ≡ names_led words.entry.now }
{
    names_or(names_behind(words, "to"), names_behind(words, "reach"))
}
