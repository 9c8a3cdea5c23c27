//! The labels that a clause of a claim names.

ghost use Rattle.std.specs.Prelude.{◌≡◌, map, option_map, IfOk};
ghost use Rattle.aa_claims.specs.Forms.{names_led};
ghost use Rattle.aa_assert.specs.Leading.{is_named_in, is_change, may_lead, AreLabels};

use crate::scope::{is_among, names_free};
use aa_claims::{ClaimWord, names_led};
use aa_compile::{Compiled, first_profiles};
use aa_model::{Profile, Request};
use aa_quantifiers::{Labels, Word};
use std::alloc::{AllocError, Global};

fn is_change(request: &Request) -> bool
    ensures { result ≡ is_change request.now }
{
    match request {
        Request::Change(_) => true,
        _ => false,
    }
}

/// Whether a word asks for executions, or for a change of profile.
pub(crate) fn may_lead(word: &Word) -> bool
    ensures { result ≡ may_lead word.now }
{
    match word {
        Word::Files(_) => false,
        Word::Execs(_) => true,
        Word::One(request) => is_change(request),
    }
}

/// Whether a clause names the profile.
pub(crate) fn is_named_in(
    alloc: Global,
    clause: Option<&[ClaimWord]>,
    profile: &Profile,
) -> Result<bool, AllocError>
    ensures { IfOk result (λ is. is ≡ is_named_in (option_map (λ ws. ws.now) clause.entry) profile.now) }
{
    is_among(alloc, false, clause, profile.name.as_slice())
}

/// Of each profile whether the claim names it as one to which nothing leads.
fn are_named_in(
    alloc: Global,
    words: &[ClaimWord],
    profiles: &[Profile],
) -> Result<Vec<bool>, AllocError>
    ensures { IfOk result (λ flags. flags.items ≡ map (is_named_in (names_led words.now)) profiles.now) }
{
    let mut flags = Vec::new(alloc);
    for profile in profiles {
        flags.push(is_named_in(alloc, names_led(words), profile)?)?;
    }
    Ok(flags)
}

/// The labels that a claim names as such to which nothing leads.
pub(crate) fn labels_of(
    alloc: Global,
    policies: &[Compiled],
    words: &[ClaimWord],
) -> Result<Labels, AllocError>
    ensures { IfOk result (λ ls. AreLabels policies.now words.now ls) }
{
    Ok(Labels {
        free: names_free(names_led(words)),
        profiles: are_named_in(alloc, words, first_profiles(policies))?,
    })
}
