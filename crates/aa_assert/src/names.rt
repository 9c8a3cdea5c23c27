//! The profiles that a name in a claim stands for.

ghost use Rattle.std.specs.Prelude.{◌≡◌, false, IfOk};
ghost use Rattle.std.specs.List.{list_any};
ghost use Rattle.aa_claims.specs.declared.words.ClaimWord.{ClaimWord};
ghost use Rattle.aa_assert.specs.Names.{names, may_name, covers};
ghost use Rattle.aa_ask.specs.Wildcards.{is_in_digits, may_begin, begins_in_digits};

use aa_ask::{begins_in_digits, is_in_digits, may_begin, name_pattern};
use aa_claims::ClaimWord;
use aa_compile::is_matched;
use std::alloc::{AllocError, Global};

/// Whether a word of a claim stands for a full name.
pub(crate) fn is_named(alloc: Global, word: &ClaimWord, name: &[u8]) -> Result<bool, AllocError>
    ensures { IfOk result (λ is. is ≡ names word.now name.now) }
{
    let pattern = name_pattern(alloc, word.text.as_slice())?;
    if is_matched(&pattern, name) {
        return Ok(true);
    }
    if word.is_quoted {
        return Ok(false);
    }
    is_in_digits(alloc, word.text.as_slice(), name)
}

/// Whether one of the words stands for a full name.
pub(crate) fn is_one_named(
    alloc: Global,
    words: &[ClaimWord],
    name: &[u8],
) -> Result<bool, AllocError>
    ensures { IfOk result (λ is. is ≡ list_any (λ (w : ClaimWord). names w name.now) words.now) }
{
    for word in words {
        if is_named(alloc, word, name)? {
            return Ok(true);
        }
    }
    Ok(false)
}

/// Whether a word of a claim may stand for a full name that begins so.
pub(crate) fn may_name(alloc: Global, word: &ClaimWord, front: &[u8]) -> Result<bool, AllocError>
    ensures { IfOk result (λ may. may ≡ may_name word.now front.now) }
{
    if may_begin(front, word.text.as_slice()) {
        return Ok(true);
    }
    Ok(!word.is_quoted && begins_in_digits(alloc, word.text.as_slice(), front)?)
}

/// Whether one of the words may.
pub(crate) fn one_may_name(
    alloc: Global,
    words: &[ClaimWord],
    front: &[u8],
) -> Result<bool, AllocError>
    ensures { IfOk result (λ may. may ≡ list_any (λ (w : ClaimWord). may_name w front.now) words.now) }
{
    for word in words {
        if may_name(alloc, word, front)? {
            return Ok(true);
        }
    }
    Ok(false)
}

/// Whether a text ends with a `*`, and what stands before it stands for a front of this one.
fn covers(text: &[u8], front: &[u8]) -> bool
    ensures { result ≡ covers text.now front.now }
{
    let mut rest = text;
    let mut behind = front;
    while let [b, others @ ..] = rest {
        if others.is_empty() {
            return *b == b'*';
        }
        let [d, after @ ..] = behind else {
            return false;
        };
        if *b != *d {
            return false;
        }
        rest = others;
        behind = after;
    }
    false
}

/// Whether one of the words stands for each name that begins so.
pub(crate) fn one_covers(words: &[ClaimWord], front: &[u8]) -> bool
    ensures { result ≡ list_any (λ (w : ClaimWord). covers w.text.items front.now) words.now }
{
    words.iter().any(|word| covers(word.text.as_slice(), front))
}
