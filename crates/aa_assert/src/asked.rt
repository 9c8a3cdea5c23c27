//! What a claim says of requests.

ghost use Rattle.std.specs.Prelude.{◌≡◌, ◌++◌, ◌==◌, bit_and, codes, not, Some, IfOk, IfErr, OnOk};
ghost use Rattle.std.specs.List.{list_any};
ghost use Rattle.aa_base.specs.declared.perms.Perms.{Perms};
ghost use Rattle.aa_who.specs.Words.{IsRead};
ghost use Rattle.aa_claims.specs.Faults.{SaysAt};
ghost use Rattle.aa_claims.specs.Forms.{keyword_of};
ghost use Rattle.aa_assert.specs.Asked.{letter_if, letters_of, is_enforced, IsByLetters, IsLedAsked, IsNeverAsked, IsAskedOf, IsAskedBy};
ghost use Rattle.aa_assert.specs.Refused.{IsUnread, IsNoLead, IsNoLeadBehind, IsUnsaid};

use crate::leading::{labels_of, may_lead};
use crate::part::Part;
use aa_base::{Perms, Seq};
use aa_claims::{ClaimFault, ClaimWord, Wrong, is_reach, is_word, keyword_of};
use aa_quantifiers::{FilesWord, Labels, Word};
use aa_who::{Misread, read_asked};
use bitflags::Flags;
use std::alloc::{AllocError, Global};

/// What a claim says.
#[derive(Drop)]
pub(crate) enum Asked {
    /// None of the requests is granted.
    Never(Word),
    /// None of the requests leads to one of these labels.
    Leads(Word, Labels),
    /// Each of the requests is granted.
    Always(Word),
    /// A task never comes to one of these labels.
    Reaches(Labels),
    /// No profile complains.
    Enforced,
}

/// Whether a letter stands in one of the masks.
fn has_letter(masks: &[Perms], letter: Perms) -> bool
    ensures { result ≡ list_any (λ (m : Perms). not (bit_and m.0 letter.0 == 0)) masks.now }
{
    masks.iter().any(|mask| mask.intersects(letter))
}

/// Adds a letter, where it stands in one of the masks.
fn push_letter(letters: &mut Vec<Perms>, masks: &[Perms], letter: Perms) -> Result<(), AllocError>
    ensures { OnOk result (letters.new.items ≡ letters.old.items ++ letter_if masks.now letter.0) }
{
    if has_letter(masks, letter) {
        letters.push(letter)?;
    }
    Ok(())
}

/// The letters of masks, each alone.
#[tactic(auto, unfolding(crate::specs::Asked::letters_of))]
fn letters_of(alloc: Global, masks: &[Perms]) -> Result<Vec<Perms>, AllocError>
    ensures { IfOk result (λ letters. letters.items ≡ letters_of masks.now) }
{
    let mut letters = Vec::new(alloc);
    push_letter(&mut letters, masks, Perms::READ)?;
    push_letter(&mut letters, masks, Perms::WRITE)?;
    push_letter(&mut letters, masks, Perms::APPEND)?;
    push_letter(&mut letters, masks, Perms::LOCK)?;
    push_letter(&mut letters, masks, Perms::MMAP)?;
    Ok(letters)
}

fn files_by_letters(alloc: Global, word: FilesWord) -> Result<FilesWord, AllocError>
    ensures { IfOk result (λ v. IsByLetters (Word.Files word) (Word.Files v)) }
{
    let FilesWord {
        pattern,
        masks,
        whose,
    } = word;
    let letters = letters_of(alloc, masks.as_slice())?;
    Ok(FilesWord {
        pattern,
        masks: Seq::from_vec(letters),
        whose,
    })
}

/// The same requests, but that each file is asked for by one letter.
fn by_letters(alloc: Global, word: Word) -> Result<Word, AllocError>
    ensures { IfOk result (λ v. IsByLetters word v) }
{
    match word {
        Word::Files(word) => Ok(Word::Files(files_by_letters(alloc, word)?)),
        Word::Execs(word) => Ok(Word::Execs(word)),
        Word::One(request) => Ok(Word::One(request)),
    }
}

/// The requests of a claim's word.
fn read_requests(alloc: Global, asked: &ClaimWord) -> Result<Word, ClaimFault>
    ensures read { IfOk result (λ w. IsRead asked.now.text.items w) }
    ensures refused { IfErr result (λ e. SaysAt (IsUnread asked.now) e) }
{
    match read_asked(alloc, asked.text.as_slice()) {
        Ok(word) => Ok(word),
        Err(Misread::NoMemory) => Err(ClaimFault::NoMemory),
        Err(Misread::NoRequest(why)) => Err(ClaimFault::At(asked.at, Wrong::NoRequest(why))),
        Err(Misread::NoPattern) => Err(ClaimFault::At(asked.at, Wrong::NoPattern)),
    }
}

/// Whether a claim says that no profile complains.
pub(crate) fn is_enforced(head: &ClaimWord, asked: &ClaimWord) -> bool
    ensures { result ≡ is_enforced head.now asked.now }
{
    is_word(head, "always") && is_word(asked, "enforced")
}

/// What a claim says whose requests lead nowhere that `to` names. Refused at `to` where they are neither executions nor a change.
fn led_of(
    alloc: Global,
    part: Part<'_>,
    words: &[ClaimWord],
    word: Word,
    to: &ClaimWord,
) -> Result<Asked, ClaimFault>
    requires { keyword_of (codes "to") words.now ≡ Some to.now }
    ensures asked { IfOk result (λ a. IsLedAsked part.entry words.now word a) }
    ensures refused { IfErr result (λ e. SaysAt (IsNoLead words.now word) e) }
{
    if !may_lead(&word) {
        return Err(ClaimFault::At(to.at, Wrong::NoLead));
    }
    let labels = labels_of(alloc, part.decided.policies, words)?;
    Ok(Asked::Leads(word, labels))
}

/// What a claim says of requests that begins with never.
fn never_of(
    alloc: Global,
    part: Part<'_>,
    words: &[ClaimWord],
    word: Word,
) -> Result<Asked, ClaimFault>
    ensures asked { IfOk result (λ a. IsNeverAsked part.entry words.now word a) }
    ensures refused { IfErr result (λ e. SaysAt (IsNoLead words.now word) e) }
{
    match keyword_of(words, "to") {
        Some(to) => led_of(alloc, part, words, word, to),
        None => Ok(Asked::Never(by_letters(alloc, word)?)),
    }
}

/// What a claim of these words says of requests.
fn asked_of(
    alloc: Global,
    part: Part<'_>,
    words: &[ClaimWord],
    head: &ClaimWord,
    word: Word,
) -> Result<Asked, ClaimFault>
    ensures asked { IfOk result (λ a. IsAskedOf part.entry words.now head.now word a) }
    ensures refused { IfErr result (λ e. SaysAt (IsNoLeadBehind head.now words.now word) e) }
{
    if is_word(head, "never") {
        return never_of(alloc, part, words, word);
    }
    Ok(Asked::Always(word))
}

/// What a claim of these words says, of which these are the first two. Refused where the second is no word of requests, with why, or where
/// `to` stands behind others than executions and changes.
pub(crate) fn asked_by(
    alloc: Global,
    part: Part<'_>,
    words: &[ClaimWord],
    head: &ClaimWord,
    asked: &ClaimWord,
) -> Result<Asked, ClaimFault>
    ensures asked { IfOk result (λ a. IsAskedBy part.entry words.now head.now asked.now a) }
    ensures refused { IfErr result (λ e. SaysAt (IsUnsaid words.now head.now asked.now) e) }
{
    if is_enforced(head, asked) {
        return Ok(Asked::Enforced);
    }
    if is_reach(head, asked) {
        return Ok(Asked::Reaches(labels_of(alloc, part.decided.policies, words)?));
    }
    let word = read_requests(alloc, asked)?;
    asked_of(alloc, part, words, head, word)
}
