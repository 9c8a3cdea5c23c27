//! What a request is answered.

ghost use Rattle.std.specs.Prelude.{◌≡◌, ◌<◌, Some, length, option_map};
ghost use Rattle.std.specs.List.{slice_get};
ghost use Rattle.aa_model.specs.declared.policy.Profile.{Profile};
ghost use Rattle.aa_compile.specs.Transitions.{named};
ghost use Rattle.aa_mediate.specs.Bits.{file_bits};
ghost use Rattle.aa_mediate.specs.Reply.{label_by, label_after, scrubs, found_or, goes_to, free_in, confined_in, kept, change_reply, exec_reply, reply_free, reply_in, reply_at, reply};
ghost use Rattle.aa_compile.specs.Labels.{policy_number};

use crate::attachments::attached_in;
use crate::bits::{RequestBits, of_change, of_exec, plain};
use crate::decided::{decide, granted, refused, unnamed};
use crate::held::{BIT, verdict_of_cap, verdict_of_change, verdict_of_net};
use crate::link::of_link;
use aa_compile::{Compiled, Transition, label_of};
use aa_model::{Answer, ExecRequest, FileRequest, Label, Profile, Request};

fn label_of_number(policy: u16, profile: Option<u16>) -> Label
    ensures { result ≡ label_by policy profile }
{
    match profile {
        Some(profile) => Label::Confined(policy, profile),
        None => Label::Unconfined(policy),
    }
}

/// The label after an execution that is granted.
fn next_label(policy: u16, number: u16, transition: Transition) -> Label
    ensures { result ≡ label_after policy number transition }
{
    match transition {
        Transition::To(next, _) => label_of_number(policy, next),
        Transition::Denied | Transition::Nowhere => Label::Confined(policy, number),
    }
}

fn is_scrubbed(transition: Transition) -> bool
    ensures { result ≡ scrubs transition }
{
    match transition {
        Transition::To(_, scrub) => scrub,
        Transition::Denied | Transition::Nowhere => false,
    }
}

/// Granted with the label that is found, else refused; never a note.
fn go_to(label: Label, found: Option<Label>) -> Answer
    ensures { result ≡ goes_to label found }
{
    match found {
        Some(next) => granted(next, false, None),
        None => refused(label, None),
    }
}

fn unconfined_in(policies: &[Compiled], policy: u16) -> Option<Label>
    ensures { result ≡ free_in policies.now policy }
{
    match policies.get(policy as usize) {
        Some(_) => Some(Label::Unconfined(policy)),
        None => None,
    }
}

fn profile_named(compiled: &Compiled, policy: u16, name: &[u8]) -> Option<Label>
    ensures { result ≡ option_map (Label.Confined policy) (named compiled.now.profiles name.now) }
{
    match compiled.find(name) {
        Some(profile) => Some(Label::Confined(policy, profile)),
        None => None,
    }
}

fn profile_in(policies: &[Compiled], policy: u16, name: &[u8]) -> Option<Label>
    ensures { result ≡ confined_in policies.now policy name.now }
{
    match policies.get(policy as usize) {
        Some(compiled) => profile_named(compiled, policy, name),
        None => None,
    }
}

fn bits_of_file(compiled: &Compiled, number: u16, request: &FileRequest) -> RequestBits
    requires { number < length compiled.now.profiles }
    ensures { (p : Profile) → slice_get compiled.now.profiles number ≡ Some p → result ≡ file_bits p.files request.now }
{
    let verdict = compiled.verdict(number, request.path(), request.owned());
    plain(request.mask(), verdict.sets)
}

fn keep(profile: &Profile, policy: u16, number: u16, bits: &RequestBits) -> Answer
    ensures { result ≡ kept policy number profile.now bits.now }
{
    let label = Label::Confined(policy, number);
    decide(profile, label, label, false, bits)
}

fn answer_to_exec(
    compiled: &Compiled,
    policy: u16,
    number: u16,
    profile: &Profile,
    request: &ExecRequest,
) -> Answer
    requires number { number < length compiled.now.profiles }
    requires profile { slice_get compiled.now.profiles number ≡ Some profile.now }
    ensures { result ≡ exec_reply policy compiled.now.profiles number profile.now request.now }
{
    let path = request.path();
    let verdict = compiled.verdict(number, path, request.owned());
    let transition = compiled.transition(number, path, request.owned(), verdict);
    decide(
        profile,
        Label::Confined(policy, number),
        next_label(policy, number, transition),
        is_scrubbed(transition),
        &of_exec(&verdict, transition),
    )
}

/// To the label that was found for a name, if one was.
fn answer_to_change(
    profile: &Profile,
    policy: u16,
    number: u16,
    name: &[u8],
    found: Option<Label>,
) -> Answer
    ensures { result ≡ change_reply policy number profile.now name.now found }
{
    let label = Label::Confined(policy, number);
    let sets = verdict_of_change(profile.changes.as_slice(), name);
    let bits = of_change(sets, found.is_some());
    unnamed(decide(profile, label, found.unwrap_or(label), false, &bits))
}

/// The answer to a request of a task in a profile.
fn answer_in(
    policies: &[Compiled],
    compiled: &Compiled,
    policy: u16,
    number: u16,
    profile: &Profile,
    request: &Request,
) -> Answer
    requires number { number < length compiled.now.profiles }
    requires profile { slice_get compiled.now.profiles number ≡ Some profile.now }
    ensures { result ≡ reply_in policies.now policy compiled.now.profiles number profile.now request.now }
{
    match request {
        Request::File(file) => keep(
            profile,
            policy,
            number,
            &bits_of_file(compiled, number, file),
        ),
        Request::Link(link) => keep(profile, policy, number, &of_link(compiled, number, link)),
        Request::Exec(exec) => answer_to_exec(compiled, policy, number, profile, exec),
        Request::Cap(cap) => {
            let sets = verdict_of_cap(profile.caps.as_slice(), *cap);
            unnamed(keep(profile, policy, number, &plain(BIT, sets)))
        }
        Request::Net(family, kind) => {
            let sets = verdict_of_net(profile.nets.as_slice(), *family, *kind);
            unnamed(keep(profile, policy, number, &plain(BIT, sets)))
        }
        Request::Change(change) => {
            let found = label_of(policies, policy, change.name());
            answer_to_change(profile, policy, number, change.name(), found)
        }
        Request::Reload(next) => go_to(
            Label::Confined(policy, number),
            profile_in(policies, *next, profile.name.as_slice()),
        ),
    }
}

/// The answer to a request of an unconfined task.
fn answer_free(policies: &[Compiled], policy: u16, request: &Request) -> Answer
    ensures { result ≡ reply_free policies.now policy request.now }
{
    let label = Label::Unconfined(policy);
    match request {
        Request::Exec(exec) => {
            let profile = attached_in(policies, policy, exec.path());
            granted(label_of_number(policy, profile), false, None)
        }
        Request::Change(change) => go_to(label, label_of(policies, policy, change.name())),
        Request::Reload(next) => go_to(label, unconfined_in(policies, *next)),
        Request::File(_) | Request::Link(_) | Request::Cap(_) | Request::Net(_, _) => {
            granted(label, false, None)
        }
    }
}

/// The answer to a request of a task whose label names a profile.
fn answer_confined(
    policies: &[Compiled],
    compiled: &Compiled,
    policy: u16,
    number: u16,
    request: &Request,
) -> Answer
    ensures { result ≡ reply_at policies.now policy compiled.now.profiles number (slice_get compiled.now.profiles number) request.now }
{
    match compiled.policy().profiles.as_slice().get(number as usize) {
        Some(profile) => answer_in(policies, compiled, policy, number, profile, request),
        None => refused(Label::Confined(policy, number), None),
    }
}

fn number_of_policy(label: Label) -> u16
    ensures { result ≡ policy_number label }
{
    match label {
        Label::Unconfined(policy) => policy,
        Label::Confined(policy, _) => policy,
    }
}

/// The answer to a request of a task with that label.
#[tactic(auto, unfolding(crate::specs::Reply::reply))]
pub(crate) fn answer_to(policies: &[Compiled], label: Label, request: &Request) -> Answer
    ensures { result ≡ reply policies.now label request.now }
{
    let Some(compiled) = policies.get(number_of_policy(label) as usize) else {
        return refused(label, None);
    };
    match label {
        Label::Unconfined(policy) => answer_free(policies, policy, request),
        Label::Confined(policy, number) => {
            answer_confined(policies, compiled, policy, number, request)
        }
    }
}
