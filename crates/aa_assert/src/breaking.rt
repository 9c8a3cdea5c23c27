//! Claims that nothing can break.

ghost use Rattle.std.specs.Prelude.{◌≡◌, ◌&&◌, not, None, IfOk, IfErr, OnOk};
ghost use Rattle.std.specs.List.{list_any};
ghost use Rattle.std.specs.Str.{bytes_eq};
ghost use Rattle.aa_model.specs.declared.policy.Profile.{Profile};
ghost use Rattle.aa_claims.specs.declared.words.ClaimWord.{ClaimWord};
ghost use Rattle.aa_claims.specs.Faults.{SaysAt};
ghost use Rattle.aa_claims.specs.Forms.{names_led};
ghost use Rattle.aa_skipping.specs.Names.{is_of, may_be_unread};
ghost use Rattle.aa_skipping.specs.declared.unread.Head.{Head};
ghost use Rattle.aa_skipped.specs.declared.skipped.Skipped.{Skipped};
ghost use Rattle.aa_assert.specs.Scope.{is_about, may_have};
ghost use Rattle.aa_assert.specs.Breaking.{is_there, may_be_there, is_led, may_lead_past, is_top_led, may_execute_there, is_led_from_another, is_apart_in, may_be_apart, is_refused_free, never_wrong, change_wrong, execs_wrong, leads_wrong, always_wrong, reach_wrong, unbreakable, IsUnbreakable};

use crate::asked::Asked;
use crate::leading::is_named_in;
use crate::part::Part;
use crate::scope::{
    is_about, is_about_free, is_about_one, is_about_profile, is_among, names_free, one_may_concern,
    one_may_have,
};
use aa_claims::{ClaimFault, ClaimWord, Wrong, names_led};
use aa_compile::{first_profiles, label_of};
use aa_model::{Profile, Request};
use aa_quantifiers::Word;
use aa_skipped::Skipped;
use aa_skipping::{Head, Unread, is_of};
use std::alloc::{AllocError, Global};

/// Whether a label that is read has the name.
fn is_there(part: Part<'_>, name: &[u8]) -> bool
    ensures { result ≡ is_there part.entry name.now }
{
    label_of(part.decided.policies, 0, name).is_some()
}

fn one_may_have_name(heads: &[Head], name: &[u8]) -> bool
    ensures { result ≡ list_any (λ (h : Head). is_of h.name name.now) heads.now }
{
    heads.iter().any(|head| is_of(head.name.as_slice(), name))
}

/// Whether a profile that wasn't read may have it.
fn may_be_unread(unread: &Unread, name: &[u8]) -> bool
    ensures { result ≡ may_be_unread unread.now name.now }
{
    unread.others || one_may_have_name(unread.heads.as_slice(), name)
}

fn one_may_be_unread(skipped: &[Skipped], name: &[u8]) -> bool
    ensures { result ≡ list_any (λ (k : Skipped). may_be_unread k.unread name.now) skipped.now }
{
    skipped.iter().any(|file| may_be_unread(&file.unread, name))
}

/// Whether a label has the name, or a profile of a skipped file may have it.
fn may_be_there(part: Part<'_>, name: &[u8]) -> bool
    ensures { result ≡ may_be_there part.entry name.now }
{
    is_there(part, name) || one_may_be_unread(part.skipped, name)
}

/// Whether a claim names the label of that name as one to which nothing leads.
fn is_led(alloc: Global, words: &[ClaimWord], name: &[u8]) -> Result<bool, AllocError>
    ensures { IfOk result (λ is. is ≡ is_led words.now name.now) }
{
    if name == "unconfined".as_bytes() {
        return Ok(names_free(names_led(words)));
    }
    is_among(alloc, false, names_led(words), name)
}

fn one_may_lead_past(
    alloc: Global,
    skipped: &[Skipped],
    words: &[ClaimWord],
) -> Result<bool, AllocError>
    ensures { IfOk result (λ may. may ≡ list_any (λ (w : ClaimWord). list_any (may_have w) skipped.now) words.now) }
{
    for word in words {
        if one_may_have(alloc, skipped, word)? {
            return Ok(true);
        }
    }
    Ok(false)
}

/// Whether it may name a profile of a skipped file so.
fn may_lead_past(alloc: Global, part: Part<'_>, words: &[ClaimWord]) -> Result<bool, AllocError>
    ensures { IfOk result (λ may. may ≡ may_lead_past part.entry words.now) }
{
    match names_led(words) {
        Some(names) => one_may_lead_past(alloc, part.skipped, names),
        None => Ok(false),
    }
}

/// Whether it names the profile so, which is no child.
fn is_top_led(alloc: Global, words: &[ClaimWord], profile: &Profile) -> Result<bool, AllocError>
    ensures { IfOk result (λ is. is ≡ is_top_led words.now profile.now) }
{
    if profile.parent.is_some() {
        return Ok(false);
    }
    is_named_in(alloc, names_led(words), profile)
}

fn one_is_top_led(
    alloc: Global,
    words: &[ClaimWord],
    profiles: &[Profile],
) -> Result<bool, AllocError>
    ensures { IfOk result (λ is. is ≡ list_any (is_top_led words.now) profiles.now) }
{
    for profile in profiles {
        if is_top_led(alloc, words, profile)? {
            return Ok(true);
        }
    }
    Ok(false)
}

/// Whether an execution may lead somebody whom the claim is about to a label that it names.
fn may_execute_there(alloc: Global, part: Part<'_>, words: &[ClaimWord]) -> Result<bool, AllocError>
    ensures { IfOk result (λ may. may ≡ may_execute_there part.entry words.now) }
{
    if is_about_profile(alloc, part, words)? || names_free(names_led(words)) {
        return Ok(true);
    }
    if one_is_top_led(alloc, words, first_profiles(part.decided.policies))? {
        return Ok(true);
    }
    may_lead_past(alloc, part, words)
}

/// Whether the claim is about that profile, and it has another name.
fn is_about_other(
    alloc: Global,
    words: &[ClaimWord],
    profile: &Profile,
    name: &[u8],
) -> Result<bool, AllocError>
    ensures { IfOk result (λ is. is ≡ (is_about words.now profile.now.name && not (bytes_eq profile.now.name name.now))) }
{
    if !is_about(alloc, words, profile.name.as_slice())? {
        return Ok(false);
    }
    let is_same = profile.name.as_slice() == name;
    Ok(!is_same)
}

/// Whether the claim is about a profile of another name.
fn is_about_another(
    alloc: Global,
    words: &[ClaimWord],
    profiles: &[Profile],
    name: &[u8],
) -> Result<bool, AllocError>
    ensures { IfOk result (λ is. is ≡ list_any (λ (q : Profile). is_about words.now q.name && not (bytes_eq q.name name.now)) profiles.now) }
{
    for profile in profiles {
        if is_about_other(alloc, words, profile, name)? {
            return Ok(true);
        }
    }
    Ok(false)
}

/// Whether it names the profile as one to which nothing leads, and is about somebody else.
fn is_led_from_another(
    alloc: Global,
    words: &[ClaimWord],
    profiles: &[Profile],
    profile: &Profile,
) -> Result<bool, AllocError>
    ensures { IfOk result (λ is. is ≡ is_led_from_another words.now profiles.now profile.now) }
{
    if !is_named_in(alloc, names_led(words), profile)? {
        return Ok(false);
    }
    if is_about_free(words) {
        return Ok(true);
    }
    is_about_another(alloc, words, profiles, profile.name.as_slice())
}

fn one_is_led_from_another(
    alloc: Global,
    words: &[ClaimWord],
    profiles: &[Profile],
) -> Result<bool, AllocError>
    ensures { IfOk result (λ is. is ≡ list_any (is_led_from_another words.now profiles.now) profiles.now) }
{
    for profile in profiles {
        if is_led_from_another(alloc, words, profiles, profile)? {
            return Ok(true);
        }
    }
    Ok(false)
}

/// Whether somebody whom it is about isn't at the one label that it names.
fn is_apart_in(alloc: Global, words: &[ClaimWord], profiles: &[Profile]) -> Result<bool, AllocError>
    ensures { IfOk result (λ is. is ≡ is_apart_in words.now profiles.now) }
{
    if names_free(names_led(words)) && is_about_one(alloc, profiles, words)? {
        return Ok(true);
    }
    one_is_led_from_another(alloc, words, profiles)
}

/// Whether that may be so.
fn may_be_apart(alloc: Global, part: Part<'_>, words: &[ClaimWord]) -> Result<bool, AllocError>
    ensures { IfOk result (λ may. may ≡ may_be_apart part.entry words.now) }
{
    if is_apart_in(alloc, words, first_profiles(part.decided.policies))? {
        return Ok(true);
    }
    if one_may_concern(alloc, part.skipped, words)? {
        return Ok(true);
    }
    may_lead_past(alloc, part, words)
}

/// Whether tasks without a profile may be refused what a word asks.
fn is_refused_free(part: Part<'_>, word: &Word) -> bool
    ensures { result ≡ is_refused_free part.entry word.now }
{
    match word {
        Word::One(Request::Change(change)) => !is_there(part, change.name()),
        Word::One(Request::Reload(_)) => true,
        _ => false,
    }
}

/// Why nothing can break the claim that none of a word's requests is granted.
fn never_wrong(part: Part<'_>, word: &Word) -> Option<Wrong>
    ensures { result ≡ never_wrong part.entry word.now }
{
    match word {
        Word::One(Request::Change(change)) => {
            if may_be_there(part, change.name()) {
                None
            } else {
                Some(Wrong::NoChange)
            }
        }
        _ => None,
    }
}

/// That a change to that name leads nowhere that it names.
fn change_wrong(
    alloc: Global,
    part: Part<'_>,
    words: &[ClaimWord],
    name: &[u8],
) -> Result<Option<Wrong>, AllocError>
    ensures { IfOk result (λ wrong. wrong ≡ change_wrong part.entry words.now name.now) }
{
    if !may_be_there(part, name) {
        return Ok(Some(Wrong::NoChange));
    }
    if is_led(alloc, words, name)? {
        return Ok(None);
    }
    Ok(Some(Wrong::Elsewhere))
}

/// That executions lead nowhere that it names.
fn execs_wrong(
    alloc: Global,
    part: Part<'_>,
    words: &[ClaimWord],
) -> Result<Option<Wrong>, AllocError>
    ensures { IfOk result (λ wrong. wrong ≡ execs_wrong part.entry words.now) }
{
    if may_execute_there(alloc, part, words)? {
        return Ok(None);
    }
    Ok(Some(Wrong::Elsewhere))
}

/// That none of a word's requests leads there.
fn leads_wrong(
    alloc: Global,
    part: Part<'_>,
    words: &[ClaimWord],
    word: &Word,
) -> Result<Option<Wrong>, AllocError>
    ensures { IfOk result (λ wrong. wrong ≡ leads_wrong part.entry words.now word.now) }
{
    match word {
        Word::One(Request::Change(change)) => change_wrong(alloc, part, words, change.name()),
        Word::Execs(_) => execs_wrong(alloc, part, words),
        _ => Ok(None),
    }
}

/// That each of them is granted.
fn always_wrong(
    alloc: Global,
    part: Part<'_>,
    words: &[ClaimWord],
    word: &Word,
) -> Result<Option<Wrong>, AllocError>
    ensures { IfOk result (λ wrong. wrong ≡ always_wrong part.entry words.now word.now) }
{
    if is_about_profile(alloc, part, words)? || is_refused_free(part, word) {
        return Ok(None);
    }
    Ok(Some(Wrong::Granted))
}

/// That a task doesn't come to the labels that it names.
fn reach_wrong(
    alloc: Global,
    part: Part<'_>,
    words: &[ClaimWord],
) -> Result<Option<Wrong>, AllocError>
    ensures { IfOk result (λ wrong. wrong ≡ reach_wrong part.entry words.now) }
{
    if may_be_apart(alloc, part, words)? {
        return Ok(None);
    }
    Ok(Some(Wrong::There))
}

/// Why nothing can break a claim of these words, which says this.
fn unbreakable(
    alloc: Global,
    part: Part<'_>,
    words: &[ClaimWord],
    asked: &Asked,
) -> Result<Option<Wrong>, AllocError>
    ensures { IfOk result (λ wrong. wrong ≡ unbreakable part.entry words.now asked.now) }
{
    match asked {
        Asked::Never(word) => Ok(never_wrong(part, word)),
        Asked::Leads(word, _) => leads_wrong(alloc, part, words, word),
        Asked::Always(word) => always_wrong(alloc, part, words, word),
        Asked::Reaches(_) => reach_wrong(alloc, part, words),
        Asked::Enforced => Ok(None),
    }
}

/// Looks whether something can break a claim of these words, of which the second is this, and which says that.
pub(crate) fn check_breakable(
    alloc: Global,
    part: Part<'_>,
    words: &[ClaimWord],
    word: &ClaimWord,
    asked: &Asked,
) -> Result<(), ClaimFault>
    ensures breakable { OnOk result (unbreakable part.entry words.now asked.now ≡ None) }
    ensures refused { IfErr result (λ e. SaysAt (IsUnbreakable part.entry words.now word.now asked.now) e) }
{
    match unbreakable(alloc, part, words, asked)? {
        None => Ok(()),
        Some(wrong) => Err(ClaimFault::At(word.at, wrong)),
    }
}
