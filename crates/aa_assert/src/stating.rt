//! What claims state, before any is answered.

ghost use Rattle.std.specs.Prelude.{IfOk, IfErr, OnOk};
ghost use Rattle.aa_claims.specs.Faults.{SaysAt};
ghost use Rattle.aa_assert.specs.Scope.{IsInScope};
ghost use Rattle.aa_assert.specs.Refused.{IsOutOfScope, IsUnstated, IsUnstatedOf};
ghost use Rattle.aa_assert.specs.Stating.{IsStatedBy, IsStated, AreStated, IsFirstUnstated};

use crate::asked::{Asked, asked_by};
use crate::breaking::check_breakable;
use crate::part::Part;
use crate::scope::{check_names, is_about_some};
use aa_claims::{ClaimFault, ClaimLine, ClaimWord, Wrong, names_behind, names_led, names_within};
use std::alloc::Global;

/// What the claim on a line states: each of its names names somebody, it is about somebody, and something can break it.
#[derive(Drop)]
pub(crate) struct Stated<'a> {
    pub(crate) line: &'a ClaimLine,
    /// The word that says what is claimed.
    pub(crate) word: &'a ClaimWord,
    pub(crate) asked: Asked,
}

/// Looks whether each name of a claim names somebody, and whether the claim is about somebody.
fn check_scope(
    alloc: Global,
    part: Part<'_>,
    words: &[ClaimWord],
    head: &ClaimWord,
) -> Result<(), ClaimFault>
    ensures in_scope { OnOk result (IsInScope part.entry words.now) }
    ensures refused { IfErr result (λ e. SaysAt (IsOutOfScope part.entry words.now head.now) e) }
{
    check_names(alloc, part, names_within(words))?;
    check_names(alloc, part, names_behind(words, "except"))?;
    check_names(alloc, part, names_led(words))?;
    if !is_about_some(alloc, part, words)? {
        return Err(ClaimFault::At(head.at, Wrong::Nobody));
    }
    Ok(())
}

/// What a claim of these words says, whose names are looked at, and whether something can break it.
fn said_by(
    alloc: Global,
    part: Part<'_>,
    words: &[ClaimWord],
    head: &ClaimWord,
    word: &ClaimWord,
) -> Result<Asked, ClaimFault>
    ensures stated { IfOk result (λ a. IsStatedBy part.entry words.now head.now word.now a) }
    ensures refused { IfErr result (λ e. SaysAt (IsUnstated part.entry words.now head.now word.now) e) }
{
    let asked = asked_by(alloc, part, words, head, word)?;
    check_scope(alloc, part, words, head)?;
    check_breakable(alloc, part, words, word, &asked)?;
    Ok(asked)
}

/// What the claim on a line states.
// A claim that is read has two words at least. A condition would repeat what reading keeps, so fewer are answered with want of memory,
// which the contracts leave free.
fn stated_of<'a>(
    alloc: Global,
    part: Part<'_>,
    line: &'a ClaimLine,
) -> Result<Stated<'a>, ClaimFault>
    ensures stated { IfOk result (λ s. IsStated part.entry line.now s) }
    ensures refused { IfErr result (λ e. SaysAt (IsUnstatedOf part.entry line.now.words.items) e) }
{
    let words = line.words.as_slice();
    match words {
        [head, word, ..] => {
            let asked = said_by(alloc, part, words, head, word)?;
            Ok(Stated { line, word, asked })
        }
        _ => Err(ClaimFault::NoMemory),
    }
}

/// What each claim states, or why the first states nothing that doesn't.
pub(crate) fn all_stated<'a>(
    alloc: Global,
    part: Part<'_>,
    claims: &'a [ClaimLine],
) -> Result<Vec<Stated<'a>>, ClaimFault>
    ensures stated { IfOk result (λ list. AreStated part.entry claims.now list.items) }
    ensures refused { IfErr result (λ e. SaysAt (IsFirstUnstated part.entry claims.now) e) }
{
    let mut list = Vec::new(alloc);
    for line in claims {
        list.push(stated_of(alloc, part, line)?)?;
    }
    Ok(list)
}
