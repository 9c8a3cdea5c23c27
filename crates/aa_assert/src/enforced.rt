//! Verdicts where rules are enforced.

ghost use Rattle.std.specs.Prelude.{◌≡◌, map, option_map, false, IfOk};
ghost use Rattle.std.specs.List.{list_any};
ghost use Rattle.aa_ask.specs.Named.{Named, named, lacked};
ghost use Rattle.aa_ask.specs.Told.{told, is_allowed, missing, unfound};
ghost use Rattle.aa_assert.specs.Enforced.{refused_told, enforced, enforced_on, complains_at};

use aa_ask::{DeciderLine, Lack, Verdict, decide, missing};
use aa_command::Decided;
use aa_compile::{Compiled, profile_of};
use aa_model::{Label, Request};
use std::alloc::{AllocError, Global};

/// Whether one of these rules denies.
fn denies_one(deciders: &[DeciderLine]) -> bool
    ensures { result ≡ list_any (λ (l : DeciderLine). l.denies) deciders.now }
{
    deciders.iter().any(|line| line.denies)
}

fn is_one_denying(deciders: &[DeciderLine]) -> bool
    ensures { result ≡ list_any (λ (n : Named). n.denies) (map named deciders.now) }
{
    denies_one(deciders)
}

/// Whether all that is asked is allowed, and no rule denies it.
fn is_allowed(deciders: &[DeciderLine], lacking: &[Lack]) -> bool
    ensures { result ≡ is_allowed (map named deciders.now) (map lacked lacking.now) }
{
    lacking.is_empty() && !is_one_denying(deciders)
}

/// What is missing besides, where a request is refused.
fn unfound(request: &Request, deciders: &[DeciderLine], lacking: &[Lack]) -> Option<&'static str>
    ensures { option_map (λ what. what.now) result ≡ unfound request.now false (map named deciders.now) (map lacked lacking.now) }
{
    if !is_allowed(deciders, lacking) {
        return None;
    }
    missing(request)
}

/// The same verdict, but that the request isn't granted, and changes nothing.
fn refused(request: &Request, verdict: Verdict) -> Verdict
    ensures { told result ≡ refused_told request.now (told verdict) }
{
    let what = unfound(
        request,
        verdict.deciders.as_slice(),
        verdict.lacking.as_slice(),
    );
    Verdict {
        granted: false,
        label: None,
        scrub: false,
        complain: false,
        unfound: what,
        ..verdict
    }
}

/// The verdict where what complain mode alone grants isn't granted.
fn enforced(request: &Request, verdict: Verdict) -> Verdict
    ensures { told result ≡ enforced request.now (told verdict) }
{
    if verdict.complain {
        return refused(request, verdict);
    }
    verdict
}

/// The verdict on a request of a task with that label, where rules are enforced.
pub(crate) fn verdict_of(
    alloc: Global,
    decided: Decided<'_>,
    label: Label,
    request: &Request,
) -> Result<Verdict, AllocError>
    ensures { IfOk result (λ v. told v ≡ enforced_on decided.entry label request.now) }
{
    let mut after = label;
    let verdict = decide(alloc, decided, &mut after, request)?;
    Ok(enforced(request, verdict))
}

/// Whether the label's profile is in complain mode.
pub(crate) fn complains_at(policies: &[Compiled], label: Label) -> bool
    ensures { result ≡ complains_at policies.now label }
{
    let Label::Confined(policy, number) = label else {
        return false;
    };
    match profile_of(policies, policy, number) {
        Some(profile) => profile.complain,
        None => false,
    }
}
