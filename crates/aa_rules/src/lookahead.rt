//! What stands at a place of the words, and refusals there.

ghost use Rattle.std.specs.Prelude.{◌≡◌, ◌<◌, ◌≤◌, ◌+◌, List, length, IfSome, IfNone, OnSome};
ghost use Rattle.std.specs.Bool.{OnTrue, OnFalse};
ghost use Rattle.aa_words.specs.Splits.{WordData, word_data};
ghost use Rattle.aa_rules.specs.Faults.{IsPlaceIn};
ghost use Rattle.aa_rules.specs.Grammar.{Starts, StartsAs, Lacks, LacksAll, is_path_kind, is_name_kind, spot_of, place_of, Keyword, LacksKeyword, Optional, Closes};
ghost use Rattle.aa_rules.specs.Reading.{rest_of};

use aa_base::{PolicyFault, PolicyKind, Spot};
use aa_words::{Word, WordKind};

/// Where a word stands.
pub fn spot_of(word: &Word) -> Spot
    ensures { result ≡ spot_of (word_data word.now) }
{
    Spot {
        file: word.span.file,
        byte: word.span.start,
    }
}

/// Where a word stands, or the end of the text where no word is left.
#[tactic(auto, using(crate::proofs::Places::here, crate::proofs::Places::nothing_here))]
fn spot_at(words: &[Word], at: usize, end: Spot) -> Spot
    ensures { result ≡ place_of (rest_of words.now at) end }
{
    match words.get(at) {
        Some(word) => spot_of(word),
        None => end,
    }
}

/// A refusal at a word, or behind the text where no word is left.
pub fn fault(kind: PolicyKind, words: &[Word], at: usize, end: Spot) -> PolicyFault
    ensures kind { result.kind ≡ kind }
    ensures spot { result.at ≡ place_of (rest_of words.now at) end }
    ensures place { IsPlaceIn words.now end result.at }
{
    PolicyFault {
        kind,
        at: spot_at(words, at, end),
    }
}

/// The word at a place, if it is of this kind.
#[tactic(auto, using(crate::proofs::Places::stands_here, crate::proofs::Places::lacks_other, crate::proofs::Places::lacks_past))]
pub fn word_of_kind<'w, 's>(
    words: &'w [Word<'s>],
    at: usize,
    kind: WordKind,
) -> Option<&'w Word<'s>>
    ensures found { IfSome result (λ w. Starts kind (rest_of words.now at) (word_data w.now) (rest_of words.now (at + 1))) }
    ensures missing { IfNone result (Lacks kind (rest_of words.now at)) }
    ensures within { OnSome result (at < length words.now) }
{
    if at >= words.len() {
        return None;
    }
    let word = &words[at];
    if word.kind != kind {
        return None;
    }
    Some(word)
}

/// Whether a word of this kind can be a path.
pub fn is_path_kind(kind: WordKind) -> bool
    ensures { result ≡ is_path_kind kind }
{
    matches!(kind, WordKind::Path | WordKind::Quoted)
}

/// The path at a place, by itself or in quotes.
#[tactic(auto, using(crate::proofs::Places::fits_here, crate::proofs::Places::lacks_here, crate::proofs::Places::lacks_all_past))]
pub fn path_at<'w, 's>(words: &'w [Word<'s>], at: usize) -> Option<&'w Word<'s>>
    ensures found { IfSome result (λ w. StartsAs is_path_kind (rest_of words.now at) (word_data w.now) (rest_of words.now (at + 1))) }
    ensures missing { IfNone result (LacksAll is_path_kind (rest_of words.now at)) }
    ensures within { OnSome result (at < length words.now) }
{
    if at >= words.len() {
        return None;
    }
    let word = &words[at];
    if !is_path_kind(word.kind) {
        return None;
    }
    Some(word)
}

/// Whether a word of this kind can be a profile's name.
pub fn is_name_kind(kind: WordKind) -> bool
    ensures { result ≡ is_name_kind kind }
{
    kind == WordKind::Name || is_path_kind(kind)
}

/// The word at a place, if it is of a kind that can be a profile's name.
#[tactic(auto, using(crate::proofs::Places::fits_here, crate::proofs::Places::lacks_here, crate::proofs::Places::lacks_all_past))]
pub fn profile_name_at<'w, 's>(words: &'w [Word<'s>], at: usize) -> Option<&'w Word<'s>>
    ensures found { IfSome result (λ w. StartsAs is_name_kind (rest_of words.now at) (word_data w.now) (rest_of words.now (at + 1))) }
    ensures missing { IfNone result (LacksAll is_name_kind (rest_of words.now at)) }
    ensures within { OnSome result (at < length words.now) }
{
    if at >= words.len() {
        return None;
    }
    let word = &words[at];
    if !is_name_kind(word.kind) {
        return None;
    }
    Some(word)
}

/// Whether a keyword stands at a place.
pub fn keyword_stands(words: &[Word], at: usize, text: &[u8]) -> bool
    ensures yes { OnTrue result (Keyword text.now (rest_of words.now at) (rest_of words.now (at + 1))) }
    ensures no { OnFalse result (LacksKeyword text.now (rest_of words.now at)) }
    ensures within { OnTrue result (at < length words.now) }
{
    let Some(word) = word_of_kind(words, at, WordKind::Name) else {
        return false;
    };
    word.text == text
}

/// Whether a keyword that may be left out stands at a place, and the place behind it.
pub fn optional(words: &[Word], at: usize, text: &[u8]) -> (bool, usize)
    ensures read { Optional text.now (rest_of words.now at) result.0 (rest_of words.now result.1) }
    ensures onward { at ≤ result.1 }
    ensures within { at < result.1 → result.1 ≤ length words.now }
{
    if keyword_stands(words, at, text) {
        return (true, at + 1);
    }
    (false, at)
}

/// Whether a closing brace stands at a place.
pub fn closes(words: &[Word], at: usize) -> bool
    ensures yes { OnTrue result (Closes (rest_of words.now at) (rest_of words.now (at + 1))) }
    ensures no { OnFalse result ((rest : List WordData) → Closes (rest_of words.now at) rest → ⊥) }
    ensures within { OnTrue result (at < length words.now) }
{
    word_of_kind(words, at, WordKind::Close).is_some()
}
