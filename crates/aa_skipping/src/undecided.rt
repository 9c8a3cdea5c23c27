//! Requests whose answer profiles that weren't read could change.

ghost use Rattle.std.specs.Prelude.{◌≡◌, ◌<◌, [], Some, IfOk, length, option_map};
ghost use Rattle.std.specs.List.{list_any, slice_get};
ghost use Rattle.aa_compile.specs.Transitions.{child_name, target_of};
ghost use Rattle.aa_skipping.specs.Undecided.{target_in, is_unsure, is_unsure_way, undecided_exec, is_doubtful_label, holds_with, lets_change, undecided_in, undecided_free, undecided};

use crate::names::name_is_doubtful;
use crate::searches::search_is_open;
use crate::unread::Unread;
use aa_base::Perms;
use aa_compile::{Compiled, holds_change};
use aa_model::{ChangeRule, Exec, ExecKind, ExecRequest, FileRule, Label, Profile, Request};
use bitflags::Flags;
use std::alloc::{AllocError, Global};

/// The name behind the rule's arrow.
fn target_of(rule: &FileRule) -> Option<&[u8]>
    ensures { option_map (λ t. t.now) result ≡ target_of rule.now }
{
    let exec = rule.exec.as_ref()?;
    match &exec.target {
        Some(target) => Some(target.as_slice()),
        None => None,
    }
}

/// The name behind the arrow of the rule of that number.
fn target_by(rules: &[FileRule], number: Option<usize>) -> Option<&[u8]>
    ensures { option_map (λ t. t.now) result ≡ target_in rules.now number }
{
    let number = number?;
    match rules.get(number) {
        Some(rule) => target_of(rule),
        None => None,
    }
}

fn name_of_child(alloc: Global, parent: &[u8], name: &[u8]) -> Result<Vec<u8>, AllocError>
    ensures { IfOk result (λ v. v.items ≡ child_name parent.now name.now) }
{
    let mut full = Vec::from_slice(alloc, parent)?;
    full.extend_from_slice(b"//")?;
    full.extend_from_slice(name)?;
    Ok(full)
}

/// Whether it isn't known if a profile has a child of that name. A child has none.
fn child_is_doubtful(
    alloc: Global,
    compiled: &Compiled,
    unread: &Unread,
    profile: &Profile,
    name: &[u8],
) -> Result<bool, AllocError>
    ensures { IfOk result (λ b. b ≡ is_unsure compiled.now.profiles unread.now profile.now [] ExecKind.Child (Some name.now)) }
{
    if profile.parent.is_some() {
        return Ok(false);
    }
    let full = name_of_child(alloc, profile.name.as_slice(), name)?;
    Ok(name_is_doubtful(compiled, unread, full.as_slice()))
}

/// Whether it isn't known where such an execution leads.
fn is_unsure(
    alloc: Global,
    compiled: &Compiled,
    unread: &Unread,
    profile: &Profile,
    path: &[u8],
    kind: ExecKind,
    target: Option<&[u8]>,
) -> Result<bool, AllocError>
    ensures { IfOk result (λ b. b ≡ is_unsure compiled.now.profiles unread.now profile.now path.now kind (option_map (λ t. t.now) target.entry)) }
{
    match (kind, target) {
        (ExecKind::Profile, None) => Ok(search_is_open(compiled, unread, path)),
        (ExecKind::Profile, Some(name)) => Ok(name_is_doubtful(compiled, unread, name)),
        (ExecKind::Child, Some(name)) => child_is_doubtful(alloc, compiled, unread, profile, name),
        _ => Ok(false),
    }
}

/// Whether it isn't known where an execution of a path leads by the way that a rule says.
pub fn way_is_unsure(
    alloc: Global,
    compiled: &Compiled,
    unread: &Unread,
    profile: &Profile,
    path: &[u8],
    exec: &Exec,
) -> Result<bool, AllocError>
    ensures { IfOk result (λ b. b ≡ is_unsure_way compiled.now.profiles unread.now profile.now path.now exec.now) }
{
    let target = match &exec.target {
        Some(target) => Some(target.as_slice()),
        None => None,
    };
    is_unsure(alloc, compiled, unread, profile, path, exec.kind, target)
}

fn exec_is_undecided(
    alloc: Global,
    compiled: &Compiled,
    unread: &Unread,
    number: u16,
    profile: &Profile,
    request: &ExecRequest,
) -> Result<bool, AllocError>
    requires number { number < length compiled.now.profiles }
    requires profile { slice_get compiled.now.profiles number ≡ Some profile.now }
    ensures { IfOk result (λ b. b ≡ undecided_exec compiled.now.profiles unread.now profile.now request.now) }
{
    let path = request.path();
    let verdict = compiled.verdict(number, path, request.owned());
    if verdict.sets.deny.contains(Perms::EXEC) {
        return Ok(false);
    }
    match verdict.chosen.way {
        Some(way) => {
            let target = target_by(profile.files.as_slice(), way.target);
            let unsure = is_unsure(alloc, compiled, unread, profile, path, way.kind, target)?;
            Ok(unsure)
        }
        None => Ok(false),
    }
}

/// Whether the name isn't `unconfined` and is in doubt.
fn label_is_doubtful(compiled: &Compiled, unread: &Unread, name: &[u8]) -> bool
    ensures { result ≡ is_doubtful_label compiled.now.profiles unread.now name.now }
{
    name != "unconfined".as_bytes() && name_is_doubtful(compiled, unread, name)
}

fn holds_with(deny: bool, name: &[u8], rule: &ChangeRule) -> bool
    ensures { result ≡ holds_with deny name.now rule.now }
{
    rule.deny == deny && holds_change(rule, name)
}

fn some_holds_with(deny: bool, name: &[u8], rules: &[ChangeRule]) -> bool
    ensures { result ≡ list_any (holds_with deny name.now) rules.now }
{
    rules.iter().any(|rule| holds_with(deny, name, rule))
}

/// Whether the rules let the task change to a name, if it is found.
fn lets_change(profile: &Profile, name: &[u8]) -> bool
    ensures { result ≡ lets_change profile.now name.now }
{
    let rules = profile.changes.as_slice();
    if some_holds_with(true, name, rules) {
        return false;
    }
    profile.complain || some_holds_with(false, name, rules)
}

fn is_undecided_in(
    alloc: Global,
    compiled: &Compiled,
    unread: &Unread,
    number: u16,
    profile: &Profile,
    request: &Request,
) -> Result<bool, AllocError>
    requires number { number < length compiled.now.profiles }
    requires profile { slice_get compiled.now.profiles number ≡ Some profile.now }
    ensures { IfOk result (λ b. b ≡ undecided_in compiled.now.profiles unread.now profile.now request.now) }
{
    match request {
        Request::Exec(exec) => exec_is_undecided(alloc, compiled, unread, number, profile, exec),
        Request::Change(change) => {
            let name = change.name();
            Ok(label_is_doubtful(compiled, unread, name) && lets_change(profile, name))
        }
        _ => Ok(false),
    }
}

fn is_undecided_free(compiled: &Compiled, unread: &Unread, request: &Request) -> bool
    ensures { result ≡ undecided_free compiled.now.profiles unread.now request.now }
{
    match request {
        Request::Exec(exec) => search_is_open(compiled, unread, exec.path()),
        Request::Change(change) => label_is_doubtful(compiled, unread, change.name()),
        _ => false,
    }
}

/// Whether profiles that weren't read could change what the policy answers a request of a task with that label. In a profile that the policy
/// doesn't have nothing is decided. Memory is taken for the full name of a child alone that the deciding rule names.
#[tactic(auto, unfolding(crate::specs::Undecided::undecided))]
pub fn is_undecided(
    alloc: Global,
    compiled: &Compiled,
    unread: &Unread,
    label: Label,
    request: &Request,
) -> Result<bool, AllocError>
    ensures { IfOk result (λ b. b ≡ undecided compiled.now.profiles unread.now label request.now) }
{
    match label {
        Label::Unconfined(_) => Ok(is_undecided_free(compiled, unread, request)),
        Label::Confined(_, number) => {
            match compiled.policy().profiles.as_slice().get(number as usize) {
                Some(profile) => is_undecided_in(alloc, compiled, unread, number, profile, request),
                None => Ok(true),
            }
        }
    }
}
