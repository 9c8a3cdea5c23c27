//! Changes of profile that lead to each label to which one leads.

ghost use Rattle.std.specs.Prelude.{◌≡◌, ◌≢◌, ◌+◌, ◌<◌, ◌≤◌, true, false, Err, IfOk, IfSome, OnOk, Contains, length, min, nat_lt};
ghost use Rattle.std.specs.List.{list_all};
ghost use Rattle.aa_pattern.specs.declared.pattern.Pattern.{Pattern};
ghost use Rattle.aa_pattern.specs.Limits.{most_patterns};
ghost use Rattle.aa_auto.specs.Tables.{IsText};
ghost use Rattle.aa_model.specs.declared.policy.Profile.{Profile};
ghost use Rattle.aa_model.specs.declared.request.Request.{Request};
ghost use Rattle.aa_model.specs.declared.rule.ChangeRule.{ChangeRule};
ghost use Rattle.aa_representatives.specs.Alike.{change_patterns, changing};
ghost use Rattle.aa_representatives.specs.Askable.{IsChange};
ghost use Rattle.aa_representatives.specs.Names.{many_name_patterns};
ghost use Rattle.aa_representatives.specs.Representatives.{Adds, HasChange};
ghost use Rattle.aa_reachability.specs.Moves.{LeadAllOf};
ghost use Rattle.aa_reachability.specs.Single.{IsChangeTo, IsChangeOf, IsChangeOfOne, HasChangesOfRule, HasNames};
ghost use Rattle.aa_reachability.specs.Granted.{allows_change, AreGranted};
ghost use Rattle.aa_reachability.specs.Changes.{AreChangesBy};

use crate::execs::text_of;
use crate::extent::{TOO_MANY, number_of, profiles_in};
use aa_compile::{Compiled, profile_of};
use aa_model::{ChangeRule, Label, Profile, Request, RequestFault};
use aa_representatives::RepresentativesFault;
use std::alloc::{AllocError, Global};

/// Adds the request to change to a name of bytes, where that can be asked for.
fn push_change(alloc: Global, requests: &mut Vec<Request>, name: &[u8]) -> Result<(), AllocError>
    requires { IsText name.now }
    ensures adds { OnOk result (Adds (IsChangeTo name.now) requests.old.items requests.new.items) }
    ensures has { OnOk result (HasChange name.now requests.new.items) }
{
    match Request::change(alloc, name) {
        Ok(request) => {
            requests.push(request)?;
            Ok(())
        }
        Err(RequestFault::BadName) => Ok(()),
        Err(_) => Err(AllocError),
    }
}

/// Adds the request to change to a name, where that can be asked for.
fn add_change(alloc: Global, requests: &mut Vec<Request>, name: &[u8]) -> Result<(), AllocError>
    ensures adds { OnOk result (Adds (IsChangeTo name.now) requests.old.items requests.new.items) }
    ensures has { OnOk result (HasChange name.now requests.new.items) }
{
    push_change(alloc, requests, name)?;
    Ok(())
}

/// Adds the request to change to the one name for which a rule holds, and says whether it holds for one alone, or denies.
fn add_change_of(
    alloc: Global,
    requests: &mut Vec<Request>,
    rule: &ChangeRule,
) -> Result<bool, AllocError>
    ensures adds { OnOk result (Adds (IsChangeOf rule.now) requests.old.items requests.new.items) }
    ensures has { IfOk result (λ all. all ≡ true → HasChangesOfRule requests.new.items rule.now) }
{
    if rule.deny {
        return Ok(true);
    }
    let Some(pattern) = &rule.pattern else {
        return Ok(false);
    };
    match text_of(alloc, pattern)? {
        Some(name) => {
            add_change(alloc, requests, name.as_slice())?;
            Ok(true)
        }
        None => Ok(false),
    }
}

fn add_changes_of(
    alloc: Global,
    requests: &mut Vec<Request>,
    rules: &[ChangeRule],
) -> Result<bool, AllocError>
    ensures adds { OnOk result (Adds (IsChangeOfOne rules.now) requests.old.items requests.new.items) }
    ensures has { IfOk result (λ all. all ≡ true → (r : ChangeRule) → Contains rules.now r → HasChangesOfRule requests.new.items r) }
{
    for rule in rules {
        let is_one = add_change_of(alloc, requests, rule)?;
        if !is_one {
            return Ok(false);
        }
    }
    Ok(true)
}

/// The requests to change to the names that rules name, where they name them one by one.
fn changes_of(alloc: Global, rules: &[ChangeRule]) -> Result<Option<Vec<Request>>, AllocError>
    ensures each { IfOk result (λ o. IfSome o (λ rs. (r : Request) → Contains rs.items r → IsChangeOfOne rules.now r)) }
    ensures has { IfOk result (λ o. IfSome o (λ rs. (r : ChangeRule) → Contains rules.now r → HasChangesOfRule rs.items r)) }
{
    let mut requests = Vec::new(alloc);
    let are_all = add_changes_of(alloc, &mut requests, rules)?;
    if are_all {
        Ok(Some(requests))
    } else {
        Ok(None)
    }
}

fn add_names(
    alloc: Global,
    requests: &mut Vec<Request>,
    profiles: &[Profile],
) -> Result<(), AllocError>
    ensures adds { OnOk result (Adds IsChange requests.old.items requests.new.items) }
    ensures has { OnOk result ((p : Profile) → Contains profiles.now p → HasChange p.name requests.new.items) }
{
    for profile in profiles {
        add_change(alloc, requests, profile.name.as_slice())?;
    }
    Ok(())
}

/// The requests to change to the full name of each profile, and to `unconfined`.
fn changes_to_names(alloc: Global, profiles: &[Profile]) -> Result<Vec<Request>, AllocError>
    ensures each { IfOk result (λ rs. (r : Request) → Contains rs.items r → IsChange r) }
    ensures has { IfOk result (λ rs. HasNames profiles.now rs.items) }
{
    let mut requests = Vec::new(alloc);
    add_change(alloc, &mut requests, "unconfined".as_bytes())?;
    add_names(alloc, &mut requests, profiles)?;
    Ok(requests)
}

/// The requests to change to the names that the rules of a profile in enforce mode name, where they name them one by one.
fn few_changes(alloc: Global, profile: &Profile) -> Result<Option<Vec<Request>>, AllocError>
    ensures each { IfOk result (λ o. IfSome o (λ rs. (r : Request) → Contains rs.items r → IsChangeOfOne profile.now.changes r)) }
    ensures enforced { IfOk result (λ o. IfSome o (λ _. profile.now.complain ≡ false)) }
    ensures has { IfOk result (λ o. IfSome o (λ rs. (r : ChangeRule) → Contains profile.now.changes r → HasChangesOfRule rs.items r)) }
{
    if profile.complain {
        return Ok(None);
    }
    let changes = changes_of(alloc, profile.changes.as_slice())?;
    Ok(changes)
}

/// Whether no rule denies a change.
fn denies_none(rules: &[ChangeRule]) -> bool
    ensures { result ≡ list_all allows_change rules.now }
{
    rules.iter().all(|rule| !rule.deny)
}

/// Changes of profile, and whether rules are known to grant each.
#[derive(Drop)]
pub(crate) struct Changes {
    pub(crate) requests: Vec<Request>,
    pub(crate) are_granted: bool,
}

/// Changes to all names.
fn all_changes(alloc: Global, profiles: &[Profile]) -> Result<Changes, AllocError>
    ensures each { IfOk result (λ cs. (r : Request) → Contains cs.requests.items r → IsChange r) }
    ensures has { IfOk result (λ cs. HasNames profiles.now cs.requests.items) }
    ensures unknown { IfOk result (λ cs. cs.are_granted ≡ false) }
{
    let requests = changes_to_names(alloc, profiles)?;
    Ok(Changes {
        requests,
        are_granted: false,
    })
}

/// Changes from a profile, one of these.
fn changes_by(alloc: Global, profiles: &[Profile], profile: &Profile) -> Result<Changes, AllocError>
    ensures { IfOk result (λ cs. AreChangesBy profiles.now profile.now cs.requests.items cs.are_granted) }
{
    if let Some(requests) = few_changes(alloc, profile)? {
        return Ok(Changes {
            requests,
            are_granted: denies_none(profile.changes.as_slice()),
        });
    }
    let changes = all_changes(alloc, profiles)?;
    Ok(changes)
}

/// Changes from the profile of that number, if it is there.
fn changes_in(
    alloc: Global,
    policies: &[Compiled],
    policy: u16,
    number: u16,
) -> Result<Changes, AllocError>
    ensures lead { IfOk result (λ cs. LeadAllOf policies.now (Label.Confined policy number) IsChange cs.requests.items) }
    ensures granted { IfOk result (λ cs. AreGranted policies.now (Label.Confined policy number) cs.are_granted cs.requests.items) }
{
    match profile_of(policies, policy, number) {
        Some(profile) => {
            let changes = changes_by(alloc, profiles_in(policies, policy), profile)?;
            Ok(changes)
        }
        None => Ok(Changes {
            requests: Vec::new(alloc),
            are_granted: false,
        }),
    }
}

fn changes_from(alloc: Global, policies: &[Compiled], label: Label) -> Result<Changes, AllocError>
    ensures lead { IfOk result (λ cs. LeadAllOf policies.now label IsChange cs.requests.items) }
    ensures granted { IfOk result (λ cs. AreGranted policies.now label cs.are_granted cs.requests.items) }
{
    match label {
        Label::Unconfined(policy) => {
            let changes = all_changes(alloc, profiles_in(policies, policy))?;
            Ok(changes)
        }
        Label::Confined(policy, number) => {
            let changes = changes_in(alloc, policies, policy, number)?;
            Ok(changes)
        }
    }
}

/// How many patterns rules on changes have, but no more than is too many.
fn patterns_in(rules: &[ChangeRule]) -> usize
    ensures { result ≡ min (length (change_patterns rules.now)) 65536 }
{
    let mut count = 0;
    for rule in rules {
        if rule.pattern.is_some() && count < TOO_MANY {
            count += 1;
        }
    }
    count
}

/// The same of those that decide at a label.
fn patterns_at(policies: &[Compiled], label: Label) -> usize
    ensures { result ≡ min (length (changing policies.now label)) 65536 }
{
    let Label::Confined(policy, number) = label else {
        return 0;
    };
    match profile_of(policies, policy, number) {
        Some(profile) => patterns_in(profile.changes.as_slice()),
        None => 0,
    }
}

/// Whether the rules on changes and the names at a label are more patterns than can be matched together.
fn has_many_names(policies: &[Compiled], label: Label) -> bool
    ensures { result ≡ nat_lt most_patterns (many_name_patterns policies.now label) }
{
    let names = profiles_in(policies, number_of(label)).len().min(TOO_MANY);
    patterns_at(policies, label) + 2 + names >= TOO_MANY
}

/// Changes of profile that can be asked, such that each that moves a task is answered as one of them. The errors are
/// `TooManyPatterns` and `NoMemory`.
pub(crate) fn changes_at(
    alloc: Global,
    policies: &[Compiled],
    label: Label,
) -> Result<Changes, RepresentativesFault>
    ensures lead { IfOk result (λ cs. LeadAllOf policies.now label IsChange cs.requests.items) }
    ensures granted { IfOk result (λ cs. AreGranted policies.now label cs.are_granted cs.requests.items) }
    ensures many_patterns { result ≡ Err RepresentativesFault.TooManyPatterns → most_patterns < many_name_patterns policies.now label }
    ensures few_patterns { IfOk result (λ _. many_name_patterns policies.now label ≤ most_patterns) }
    ensures no_states { result ≢ Err RepresentativesFault.TooManyStates }
{
    if has_many_names(policies, label) {
        return Err(RepresentativesFault::TooManyPatterns);
    }
    let changes = changes_from(alloc, policies, label)?;
    Ok(changes)
}
