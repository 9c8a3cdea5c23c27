//! By whom a claim is broken, of all whom it is about.

ghost use Rattle.std.specs.Prelude.{◌≡◌, ◌&&◌, ◌||◌, ◌+◌, ◌∷◌, not, [], take, Some, IfOk, IfErr, OnOk};
ghost use Rattle.aa_compile.specs.Labels.{profile_in, first_profiles};
ghost use Rattle.aa_load.specs.UnitPolicy.{limit_of};
ghost use Rattle.aa_claims.specs.Faults.{SaysAt};
ghost use Rattle.aa_undecided.specs.Answers.{placed_all};
ghost use Rattle.aa_assert.specs.Scope.{is_about};
ghost use Rattle.aa_assert.specs.Findings.{AllFound, all_found, or_else, is_found, all_of, files_concerned, IsFoundAt, AreFoundOf, AreFound};
ghost use Rattle.aa_assert.specs.Refused.{AsksNoPath};

use crate::finding::{Claim, Findings, found_at};
use crate::part::Part;
use crate::scope::{is_about, is_about_free, may_concern};
use aa_claims::{ClaimFault, ClaimWord};
use aa_command::count_of;
use aa_compile::profile_of;
use aa_model::{Label, Profile};
use aa_undecided::{SkippedAt, push_if};
use std::alloc::{AllocError, Global};

/// The skipped files that may have a profile which a claim of these words is about.
fn files_concerned(
    alloc: Global,
    words: &[ClaimWord],
    part: Part<'_>,
) -> Result<Vec<SkippedAt>, AllocError>
    ensures { IfOk result (λ files. placed_all files.items ≡ files_concerned words.now part.entry) }
{
    let mut files = Vec::new(alloc);
    for file in part.skipped {
        let may = may_concern(alloc, words, file)?;
        push_if(alloc, &mut files, may, file)?;
    }
    Ok(files)
}

/// Takes the first list that isn't empty.
fn or_else(list: &mut Vec<SkippedAt>, others: Vec<SkippedAt>)
    ensures { placed_all list.new.items ≡ or_else (placed_all list.old.items) (placed_all others.items) }
{
    match list.as_slice() {
        [] => *list = others,
        [_, ..] => {}
    }
}

/// Adds what is found at one more label.
fn push_found(findings: &mut Findings, found: Findings) -> Result<(), AllocError>
    ensures { OnOk result (all_found findings.new ≡ all_of [] (all_found findings.old ∷ all_found found ∷ [])) }
{
    let Findings {
        mut list,
        mut apart,
        mut untold,
        doubt,
    } = found;
    findings.list.append(&mut list)?;
    findings.apart.append(&mut apart)?;
    findings.untold.append(&mut untold)?;
    or_else(&mut findings.doubt, doubt);
    Ok(())
}

/// Adds what is found at a label.
fn push_at(
    findings: &mut Findings,
    alloc: Global,
    part: Part<'_>,
    claim: Claim<'_>,
    label: Label,
) -> Result<(), ClaimFault>
    ensures added { OnOk result ((fs : AllFound) × IsFoundAt part.entry (limit_of claim.entry.states) claim.entry.asked.now claim.entry.word.now.text.items label fs × (all_found findings.new ≡ all_of [] (all_found findings.old ∷ fs ∷ []))) }
    ensures refused { IfErr result (λ e. SaysAt (AsksNoPath claim.entry.word.now claim.entry.asked.now) e) }
{
    let found = found_at(alloc, part, claim, label)?;
    push_found(findings, found)?;
    Ok(())
}

/// Whether nobody more is looked at: the first is wanted alone, and somebody is found.
fn is_done(is_first: bool, findings: &Findings) -> bool
    ensures { result ≡ (is_first && is_found (all_found findings.now)) }
{
    is_first && !findings.list.is_empty()
}

/// Whether a profile isn't looked at.
fn is_passed(
    alloc: Global,
    claim: Claim<'_>,
    profile: &Profile,
    findings: &Findings,
) -> Result<bool, AllocError>
    ensures { IfOk result (λ is. is ≡ ((claim.entry.is_first && is_found (all_found findings.now)) || not (is_about claim.entry.words.now profile.now.name))) }
{
    if is_done(claim.is_first, findings) {
        return Ok(true);
    }
    Ok(!is_about(alloc, claim.words, profile.name.as_slice())?)
}

/// Adds whether a claim is broken by a profile, which has that number.
fn push_profile(
    findings: &mut Findings,
    alloc: Global,
    part: Part<'_>,
    claim: Claim<'_>,
    number: u16,
    profile: &Profile,
) -> Result<(), ClaimFault>
    requires there { profile_in part.decided.policies.now 0 number ≡ Some profile.now }
    requires before { AreFoundOf claim.is_first part (limit_of claim.states) claim.words.now claim.asked.now claim.word.now.text.items (take number (first_profiles part.decided.policies.now)) (all_found findings.old) }
    ensures found { OnOk result (AreFoundOf claim.entry.is_first part.entry (limit_of claim.entry.states) claim.entry.words.now claim.entry.asked.now claim.entry.word.now.text.items (take (number + 1) (first_profiles part.entry.decided.policies.now)) (all_found findings.new)) }
    ensures refused { IfErr result (λ e. SaysAt (AsksNoPath claim.entry.word.now claim.entry.asked.now) e) }
{
    if is_passed(alloc, claim, profile, findings)? {
        return Ok(());
    }
    push_at(findings, alloc, part, claim, Label::Confined(0, number))
}

/// Adds whether a claim is broken by the profile of that number.
fn push_number(
    findings: &mut Findings,
    alloc: Global,
    part: Part<'_>,
    claim: Claim<'_>,
    number: u16,
) -> Result<(), ClaimFault>
    requires { AreFoundOf claim.is_first part (limit_of claim.states) claim.words.now claim.asked.now claim.word.now.text.items (take number (first_profiles part.decided.policies.now)) (all_found findings.old) }
    ensures found { OnOk result (AreFoundOf claim.entry.is_first part.entry (limit_of claim.entry.states) claim.entry.words.now claim.entry.asked.now claim.entry.word.now.text.items (take (number + 1) (first_profiles part.entry.decided.policies.now)) (all_found findings.new)) }
    ensures refused { IfErr result (λ e. SaysAt (AsksNoPath claim.entry.word.now claim.entry.asked.now) e) }
{
    match profile_of(part.decided.policies, 0, number) {
        Some(profile) => push_profile(findings, alloc, part, claim, number, profile),
        None => Ok(()),
    }
}

/// Nobody yet, but for files that may have a profile which the claim is about.
fn nobody(alloc: Global, part: Part<'_>, claim: Claim<'_>) -> Result<Findings, AllocError>
    ensures { IfOk result (λ fs. all_found fs ≡ all_of (files_concerned claim.entry.words.now part.entry) []) }
{
    Ok(Findings {
        list: Vec::new(alloc),
        apart: Vec::new(alloc),
        untold: Vec::new(alloc),
        doubt: files_concerned(alloc, claim.words, part)?,
    })
}

/// Whether a claim is broken by tasks without a profile.
fn found_free(alloc: Global, part: Part<'_>, claim: Claim<'_>) -> Result<Findings, ClaimFault>
    ensures found { IfOk result (λ now. (fs : AllFound) × IsFoundAt part.entry (limit_of claim.entry.states) claim.entry.asked.now claim.entry.word.now.text.items (Label.Unconfined 0) fs × (all_found now ≡ all_of [] (all_of (files_concerned claim.entry.words.now part.entry) [] ∷ fs ∷ []))) }
    ensures refused { IfErr result (λ e. SaysAt (AsksNoPath claim.entry.word.now claim.entry.asked.now) e) }
{
    let mut findings = nobody(alloc, part, claim)?;
    push_at(&mut findings, alloc, part, claim, Label::Unconfined(0))?;
    Ok(findings)
}

/// Whether a claim is broken by tasks without a profile, where it is about them.
fn started(alloc: Global, part: Part<'_>, claim: Claim<'_>) -> Result<Findings, ClaimFault>
    ensures found { IfOk result (λ fs. AreFoundOf claim.entry.is_first part.entry (limit_of claim.entry.states) claim.entry.words.now claim.entry.asked.now claim.entry.word.now.text.items [] (all_found fs)) }
    ensures refused { IfErr result (λ e. SaysAt (AsksNoPath claim.entry.word.now claim.entry.asked.now) e) }
{
    if is_about_free(claim.words) {
        return found_free(alloc, part, claim);
    }
    Ok(nobody(alloc, part, claim)?)
}

/// By whom a claim is broken: tasks without a profile, and profiles in their order.
pub(crate) fn findings_of(
    alloc: Global,
    part: Part<'_>,
    claim: Claim<'_>,
) -> Result<Findings, ClaimFault>
    ensures found { IfOk result (λ fs. AreFound claim.entry.is_first part.entry (limit_of claim.entry.states) claim.entry.words.now claim.entry.asked.now claim.entry.word.now.text.items (all_found fs)) }
    ensures refused { IfErr result (λ e. SaysAt (AsksNoPath claim.entry.word.now claim.entry.asked.now) e) }
{
    let mut findings = started(alloc, part, claim)?;
    for number in 0..count_of(part.decided.policies) {
        push_number(&mut findings, alloc, part, claim, number)?;
    }
    Ok(findings)
}
