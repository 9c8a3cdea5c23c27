//! The profiles that are granted what a word asks.

ghost use Rattle.std.specs.Prelude.{◌≡◌, not, option_map, IfOk, IfErr, OnOk};
ghost use Rattle.aa_model.specs.declared.label.Label.{Label};
ghost use Rattle.aa_notation.specs.Kinds.{word_text};
ghost use Rattle.aa_ask.specs.Told.{verdict_on, told};
ghost use Rattle.aa_load.specs.UnitPolicy.{limit_of};
ghost use Rattle.aa_who.specs.Counts.{SaysNoPath};
ghost use Rattle.aa_unclean_paths.specs.Requests.{does_request_count};
ghost use Rattle.aa_who.specs.Grants.{granted, granted_by, all_granted, word_if, with_granted, with_quantity, with_count, AddsGrants, AreGrants};
ghost use Rattle.aa_command.specs.Counts.{count_of};

use crate::counting::{Counted, count_at};
use crate::fault::WhoFault;
use crate::telling::{Untold, push_untold};
use aa_ask::{Verdict, decide};
use aa_command::{Decided, count_of};
use aa_compile::profile_of;
use aa_model::{Label, Profile, Request};
use aa_notation::word_of;
use aa_quantifiers::{Quantity, Word};
use aa_unclean_paths::does_request_count;
use std::alloc::{AllocError, Global};

/// A profile whose rules allow some of the requests of a word.
#[derive(Drop)]
pub(crate) struct Grant {
    /// Its full name.
    pub(crate) name: Vec<u8>,
    /// Whether it is in complain mode.
    pub(crate) complains: bool,
    /// The verdict on a request that they allow.
    pub(crate) verdict: Verdict,
    /// A request that they don't allow, as a word; none where they allow all that counts.
    pub(crate) refused: Option<Vec<u8>>,
    /// One at an unclean path that they don't allow, where they allow all others and unclean paths don't count.
    pub(crate) apart: Option<Vec<u8>>,
}

/// The profiles whose rules allow some of the requests of a word.
#[derive(Drop)]
pub(crate) struct Grants {
    pub(crate) list: Vec<Grant>,
    /// Those whose rules allow some at unclean paths alone, where these don't count.
    pub(crate) apart: Vec<Grant>,
    /// Those of which it can't be told.
    pub(crate) untold: Vec<Untold>,
}

/// The word of a request, if there is one.
fn word_if(alloc: Global, request: Option<&Request>) -> Result<Option<Vec<u8>>, AllocError>
    ensures { IfOk result (λ word. option_map (λ w. w.items) word ≡ option_map (λ r. word_text r.now) request.entry) }
{
    match request {
        Some(request) => Ok(Some(word_of(alloc, request)?)),
        None => Ok(None),
    }
}

/// The verdict on a request of a task in a profile.
fn verdict_of(
    alloc: Global,
    decided: Decided<'_>,
    number: u16,
    request: &Request,
) -> Result<Verdict, AllocError>
    ensures { IfOk result (λ v. told v ≡ verdict_on decided.entry (Label.Confined 0 number) request.now) }
{
    let mut label = Label::Confined(0, number);
    decide(alloc, decided, &mut label, request)
}

/// What is told of a profile that is granted a request, and not these, where there are such.
fn grant_of(
    alloc: Global,
    decided: Decided<'_>,
    number: u16,
    profile: &Profile,
    one: &Request,
    refused: Option<&Request>,
    apart: Option<&Request>,
) -> Result<Grant, AllocError>
    ensures { IfOk result (λ g. granted g ≡ granted_by decided.entry number profile.now one.now (option_map (λ r. word_text r.now) refused.entry) (option_map (λ r. word_text r.now) apart.entry)) }
{
    Ok(Grant {
        name: Vec::from_slice(alloc, profile.name.as_slice())?,
        complains: profile.complain,
        verdict: verdict_of(alloc, decided, number, one)?,
        refused: word_if(alloc, refused)?,
        apart: word_if(alloc, apart)?,
    })
}

/// Adds a profile to those that are granted some, or to those that are so at unclean paths alone.
fn push_granted(grants: &mut Grants, counts: bool, grant: Grant) -> Result<(), AllocError>
    ensures { OnOk result (all_granted grants.new ≡ with_granted counts (all_granted grants.old) (granted grant)) }
{
    if counts {
        grants.list.push(grant)?;
    } else {
        grants.apart.push(grant)?;
    }
    Ok(())
}

/// What is told of a profile that is granted one request, and not another.
fn partly_of(
    alloc: Global,
    decided: Decided<'_>,
    unclean: bool,
    number: u16,
    profile: &Profile,
    one: &Request,
    other: &Request,
) -> Result<Grant, AllocError>
    ensures { IfOk result (λ g. granted g ≡ granted_by decided.entry number profile.now one.now (word_if (does_request_count unclean other.now) other.now) (word_if (not (does_request_count unclean other.now)) other.now)) }
{
    if does_request_count(unclean, other) {
        return grant_of(alloc, decided, number, profile, one, Some(other), None);
    }
    grant_of(alloc, decided, number, profile, one, None, Some(other))
}

/// Adds what is told of a profile that is granted so many of the requests.
fn push_grant(
    grants: &mut Grants,
    alloc: Global,
    decided: Decided<'_>,
    unclean: bool,
    number: u16,
    profile: &Profile,
    quantity: &Quantity,
) -> Result<(), AllocError>
    ensures { OnOk result (all_granted grants.new ≡ with_quantity unclean decided.entry number profile.now (all_granted grants.old) quantity.now) }
{
    match quantity {
        Quantity::Every(one) => {
            let grant = grant_of(alloc, decided, number, profile, one, None, None)?;
            push_granted(grants, does_request_count(unclean, one), grant)
        }
        Quantity::Partly(one, other) => {
            let grant = partly_of(alloc, decided, unclean, number, profile, one, other)?;
            push_granted(grants, does_request_count(unclean, one), grant)
        }
        Quantity::Never(_) => Ok(()),
    }
}

/// Adds what is told of a profile, or the line on why it can't be told.
fn push_count(
    grants: &mut Grants,
    alloc: Global,
    decided: Decided<'_>,
    unclean: bool,
    number: u16,
    profile: &Profile,
    counted: &Counted,
) -> Result<(), AllocError>
    ensures { OnOk result (all_granted grants.new ≡ with_count unclean decided.entry number profile.now (all_granted grants.old) counted.now) }
{
    match counted {
        Counted::Told(quantity) => {
            push_grant(grants, alloc, decided, unclean, number, profile, quantity)
        }
        Counted::Untold(line) => {
            let label = Label::Confined(0, number);
            let line = line.as_slice();
            push_untold(&mut grants.untold, alloc, decided.policies, label, line)
        }
    }
}

/// Adds what is told of the profile of that number.
fn push_grant_at(
    grants: &mut Grants,
    alloc: Global,
    decided: Decided<'_>,
    states: u32,
    unclean: bool,
    number: u16,
    word: &Word,
    text: &[u8],
) -> Result<(), WhoFault>
    ensures granted { OnOk result (AddsGrants decided.entry (limit_of states) unclean word.now text.now number (all_granted grants.old) (all_granted grants.new)) }
    ensures refused { IfErr result (λ e. SaysNoPath word.now text.now e) }
{
    let Some(profile) = profile_of(decided.policies, 0, number) else {
        return Ok(());
    };
    let label = Label::Confined(0, number);
    let counted = count_at(alloc, decided.policies, states, label, word, text)?;
    push_count(grants, alloc, decided, unclean, number, profile, &counted)?;
    Ok(())
}

/// What is told of each profile, in order: by how many of the requests of a word its rules allow.
pub(crate) fn grants_of(
    alloc: Global,
    decided: Decided<'_>,
    states: u32,
    unclean: bool,
    word: &Word,
    text: &[u8],
) -> Result<Grants, WhoFault>
    ensures granted { IfOk result (λ gs. AreGrants decided.entry (limit_of states) unclean word.now text.now (count_of decided.entry.policies.now) (all_granted gs)) }
    ensures refused { IfErr result (λ e. SaysNoPath word.now text.now e) }
{
    let mut grants = Grants {
        list: Vec::new(alloc),
        apart: Vec::new(alloc),
        untold: Vec::new(alloc),
    };
    for number in 0..count_of(decided.policies) {
        push_grant_at(
            &mut grants,
            alloc,
            decided,
            states,
            unclean,
            number,
            word,
            text,
        )?;
    }
    Ok(grants)
}
