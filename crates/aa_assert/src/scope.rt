//! Which tasks a claim is about.

ghost use Rattle.std.specs.Prelude.{◌≡◌, ◌++◌, codes, true, false, option_map, Some, IfOk, IfErr, OnOk};
ghost use Rattle.std.specs.List.{list_any};
ghost use Rattle.aa_model.specs.declared.policy.Profile.{Profile};
ghost use Rattle.aa_claims.specs.declared.words.ClaimWord.{ClaimWord};
ghost use Rattle.aa_claims.specs.Faults.{SaysAt};
ghost use Rattle.aa_claims.specs.Forms.{is_word, names_behind, names_within};
ghost use Rattle.aa_assert.specs.Names.{names};
ghost use Rattle.aa_assert.specs.Scope.{is_among, is_about, names_free, is_about_free, may_be, may_have, may_be_among, are_all_among, may_be_about_behind, may_be_about, may_concern, is_somebody, is_about_profile, is_about_some, AreSomebody};
ghost use Rattle.aa_assert.specs.Refused.{IsUnnamed};

use crate::names::{is_named, is_one_named, may_name, one_covers, one_may_name};
use crate::part::Part;
use aa_claims::{ClaimFault, ClaimWord, Wrong, is_word, names_behind, names_within};
use aa_compile::first_profiles;
use aa_model::Profile;
use aa_skipped::Skipped;
use aa_skipping::Head;
use std::alloc::{AllocError, Global};

/// Whether one of the words of a clause stands for a full name; or else `without`, where the clause doesn't stand there.
pub(crate) fn is_among(
    alloc: Global,
    without: bool,
    words: Option<&[ClaimWord]>,
    name: &[u8],
) -> Result<bool, AllocError>
    ensures { IfOk result (λ is. is ≡ is_among without (option_map (λ ws. ws.now) words.entry) name.now) }
{
    match words {
        Some(words) => is_one_named(alloc, words, name),
        None => Ok(without),
    }
}

/// Whether a claim of these words is about the profile of that full name.
pub(crate) fn is_about(alloc: Global, words: &[ClaimWord], name: &[u8]) -> Result<bool, AllocError>
    ensures { IfOk result (λ is. is ≡ is_about words.now name.now) }
{
    if !is_among(alloc, true, names_within(words), name)? {
        return Ok(false);
    }
    Ok(!is_among(alloc, false, names_behind(words, "except"), name)?)
}

fn is_unconfined_named(words: &[ClaimWord]) -> bool
    ensures { result ≡ list_any (λ (w : ClaimWord). is_word (codes "unconfined") w) words.now }
{
    words.iter().any(|word| is_word(word, "unconfined"))
}

/// Whether a clause names tasks without a profile.
pub(crate) fn names_free(clause: Option<&[ClaimWord]>) -> bool
    ensures { result ≡ names_free (option_map (λ ws. ws.now) clause.entry) }
{
    match clause {
        Some(names) => is_unconfined_named(names),
        None => false,
    }
}

/// Whether a claim of these words is about tasks without a profile.
pub(crate) fn is_about_free(words: &[ClaimWord]) -> bool
    ensures { result ≡ is_about_free words.now }
{
    names_free(names_within(words)) && !names_free(names_behind(words, "except"))
}

/// Whether a word stands for one of these profiles.
fn is_profile(alloc: Global, profiles: &[Profile], word: &ClaimWord) -> Result<bool, AllocError>
    ensures { IfOk result (λ is. is ≡ list_any (λ (p : Profile). names word.now p.name) profiles.now) }
{
    for profile in profiles {
        if is_named(alloc, word, profile.name.as_slice())? {
            return Ok(true);
        }
    }
    Ok(false)
}

/// The front of the full names of a profile's children.
fn front_of(alloc: Global, head: &Head) -> Result<Vec<u8>, AllocError>
    ensures { IfOk result (λ front. front.items ≡ head.now.name ++ codes "//") }
{
    let mut front = Vec::from_slice(alloc, head.name.as_slice())?;
    front.extend_from_slice(b"//")?;
    Ok(front)
}

/// Whether a profile with that head, or a child of it, may have a name for which the word stands.
fn may_be(alloc: Global, word: &ClaimWord, head: &Head) -> Result<bool, AllocError>
    ensures { IfOk result (λ may. may ≡ may_be word.now head.now) }
{
    if is_named(alloc, word, head.name.as_slice())? {
        return Ok(true);
    }
    may_name(alloc, word, front_of(alloc, head)?.as_slice())
}

fn one_may_be(alloc: Global, word: &ClaimWord, heads: &[Head]) -> Result<bool, AllocError>
    ensures { IfOk result (λ may. may ≡ list_any (may_be word.now) heads.now) }
{
    for head in heads {
        if may_be(alloc, word, head)? {
            return Ok(true);
        }
    }
    Ok(false)
}

/// The same of a skipped file.
fn may_have(alloc: Global, word: &ClaimWord, file: &Skipped) -> Result<bool, AllocError>
    ensures { IfOk result (λ may. may ≡ may_have word.now file.now) }
{
    if file.unread.others {
        return Ok(true);
    }
    one_may_be(alloc, word, file.unread.heads.as_slice())
}

pub(crate) fn one_may_have(
    alloc: Global,
    skipped: &[Skipped],
    word: &ClaimWord,
) -> Result<bool, AllocError>
    ensures { IfOk result (λ may. may ≡ list_any (may_have word.now) skipped.now) }
{
    for file in skipped {
        if may_have(alloc, word, file)? {
            return Ok(true);
        }
    }
    Ok(false)
}

/// Whether one of the words of a clause may stand for a name that begins so; or else `without`, where the clause doesn't stand there.
fn may_be_among(
    alloc: Global,
    without: bool,
    words: Option<&[ClaimWord]>,
    front: &[u8],
) -> Result<bool, AllocError>
    ensures { IfOk result (λ may. may ≡ may_be_among without (option_map (λ ws. ws.now) words.entry) front.now) }
{
    match words {
        Some(words) => one_may_name(alloc, words, front),
        None => Ok(without),
    }
}

/// Whether one of the words of a clause stands for each name that begins so.
fn are_all_among(words: Option<&[ClaimWord]>, front: &[u8]) -> bool
    ensures { result ≡ are_all_among (option_map (λ ws. ws.now) words.entry) front.now }
{
    match words {
        Some(words) => one_covers(words, front),
        None => false,
    }
}

/// Whether a claim of these words may be about a profile whose full name begins so.
fn may_be_about_behind(alloc: Global, words: &[ClaimWord], front: &[u8]) -> Result<bool, AllocError>
    ensures { IfOk result (λ may. may ≡ may_be_about_behind words.now front.now) }
{
    if !may_be_among(alloc, true, names_within(words), front)? {
        return Ok(false);
    }
    Ok(!are_all_among(names_behind(words, "except"), front))
}

/// Whether a claim of these words may be about a profile with that head, or a child of it.
fn may_be_about(alloc: Global, words: &[ClaimWord], head: &Head) -> Result<bool, AllocError>
    ensures { IfOk result (λ may. may ≡ may_be_about words.now head.now) }
{
    if is_about(alloc, words, head.name.as_slice())? {
        return Ok(true);
    }
    may_be_about_behind(alloc, words, front_of(alloc, head)?.as_slice())
}

fn may_be_about_one(alloc: Global, words: &[ClaimWord], heads: &[Head]) -> Result<bool, AllocError>
    ensures { IfOk result (λ may. may ≡ list_any (may_be_about words.now) heads.now) }
{
    for head in heads {
        if may_be_about(alloc, words, head)? {
            return Ok(true);
        }
    }
    Ok(false)
}

/// The same of one of a skipped file.
pub(crate) fn may_concern(
    alloc: Global,
    words: &[ClaimWord],
    file: &Skipped,
) -> Result<bool, AllocError>
    ensures { IfOk result (λ may. may ≡ may_concern words.now file.now) }
{
    if file.unread.others {
        return Ok(true);
    }
    may_be_about_one(alloc, words, file.unread.heads.as_slice())
}

pub(crate) fn one_may_concern(
    alloc: Global,
    skipped: &[Skipped],
    words: &[ClaimWord],
) -> Result<bool, AllocError>
    ensures { IfOk result (λ may. may ≡ list_any (may_concern words.now) skipped.now) }
{
    for file in skipped {
        if may_concern(alloc, words, file)? {
            return Ok(true);
        }
    }
    Ok(false)
}

/// Whether a word names tasks without a profile, or some profile.
fn is_somebody(alloc: Global, part: Part<'_>, word: &ClaimWord) -> Result<bool, AllocError>
    ensures { IfOk result (λ is. is ≡ is_somebody part.entry word.now) }
{
    if is_word(word, "unconfined") {
        return Ok(true);
    }
    if is_profile(alloc, first_profiles(part.decided.policies), word)? {
        return Ok(true);
    }
    one_may_have(alloc, part.skipped, word)
}

/// Looks whether each of the words names somebody.
fn check_words(alloc: Global, part: Part<'_>, words: &[ClaimWord]) -> Result<(), ClaimFault>
    ensures named { OnOk result (AreSomebody part.entry (Some words.now)) }
    ensures refused { IfErr result (λ e. SaysAt (IsUnnamed part.entry (Some words.now)) e) }
{
    for word in words {
        if !is_somebody(alloc, part, word)? {
            return Err(ClaimFault::At(word.at, Wrong::NoProfile));
        }
    }
    Ok(())
}

/// Looks whether each name of a clause names somebody, if the clause stands in the claim.
pub(crate) fn check_names(
    alloc: Global,
    part: Part<'_>,
    clause: Option<&[ClaimWord]>,
) -> Result<(), ClaimFault>
    ensures named { OnOk result (AreSomebody part.entry (option_map (λ ws. ws.now) clause.entry)) }
    ensures refused { IfErr result (λ e. SaysAt (IsUnnamed part.entry (option_map (λ ws. ws.now) clause.entry)) e) }
{
    match clause {
        Some(names) => check_words(alloc, part, names),
        None => Ok(()),
    }
}

/// Whether a claim of these words is about one of these profiles.
pub(crate) fn is_about_one(
    alloc: Global,
    profiles: &[Profile],
    words: &[ClaimWord],
) -> Result<bool, AllocError>
    ensures { IfOk result (λ is. is ≡ list_any (λ (p : Profile). is_about words.now p.name) profiles.now) }
{
    for profile in profiles {
        if is_about(alloc, words, profile.name.as_slice())? {
            return Ok(true);
        }
    }
    Ok(false)
}

/// Whether a claim of these words is about some profile.
pub(crate) fn is_about_profile(
    alloc: Global,
    part: Part<'_>,
    words: &[ClaimWord],
) -> Result<bool, AllocError>
    ensures { IfOk result (λ is. is ≡ is_about_profile part.entry words.now) }
{
    if is_about_one(alloc, first_profiles(part.decided.policies), words)? {
        return Ok(true);
    }
    one_may_concern(alloc, part.skipped, words)
}

/// Whether it is about some task.
pub(crate) fn is_about_some(
    alloc: Global,
    part: Part<'_>,
    words: &[ClaimWord],
) -> Result<bool, AllocError>
    ensures { IfOk result (λ is. is ≡ is_about_some part.entry words.now) }
{
    if is_about_free(words) {
        return Ok(true);
    }
    is_about_profile(alloc, part, words)
}
