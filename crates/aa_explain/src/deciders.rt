//! The rules that decide a request.

ghost use Rattle.std.specs.Prelude.{◌≡◌, ◌++◌, map, option_map, option_to_list, slice_get, OnOk, IfOk};
ghost use Rattle.std.specs.List.{filter_map};
ghost use Rattle.std.specs.Option.{option_and_then};
ghost use Rattle.aa_model.specs.declared.policy.Profile.{Profile};
ghost use Rattle.aa_compile.specs.Matched.{files_at};
ghost use Rattle.aa_compile.specs.Said.{minus};
ghost use Rattle.aa_explain.specs.Deciders.{part_of, decider_if, unnamed, reasons, reasons_by, exec_reasons, granted_beside};
ghost use Rattle.aa_explain.specs.Sayings.{file_saying, exec_sayings, cap_saying, net_saying, change_saying, reasons_of, target_reasons};
ghost use Rattle.aa_explain.specs.Told.{sayings_of, named_by, first_told, reasons_told, exec_reasons_told};

use crate::told::{
    BIT, Saying, Told, cap_sayings, change_sayings, exec_told, file_told, net_sayings, speaking,
};
use aa_base::{Cap, Family, Perms, SockType};
use aa_compile::Compiled;
use aa_model::{CapRule, ChangeRule, ExecRequest, LinkRequest, NetRule, Profile, Request};
use bitflags::Flags;
use std::alloc::{AllocError, Global};

/// A rule that decides: its number in its list, and the permissions that it decides.
#[derive(Clone, Copy, Debug, PartialEq, Eq)]
pub struct Decider {
    pub rule: usize,
    pub perms: Perms,
}

/// Which list of the profile's rules the numbers of deciders count in.
#[derive(Clone, Copy, Debug, PartialEq, Eq)]
pub enum Listed {
    Files,
    Caps,
    Nets,
    Changes,
}

/// The whole reason of an answer, each list in the policy's order.
#[derive(Drop)]
pub struct Deciders {
    pub listed: Listed,
    /// The rules with `deny` that name what is asked.
    pub denies: Vec<Decider>,
    /// Of what no such rule names, the rules that allow what none before them allows.
    pub allows: Vec<Decider>,
    /// What is left: no rule allows it.
    pub lacking: Perms,
}

/// What a rule names of these permissions, if it speaks of the object with that verdict.
fn part_of(saying: Saying, deny: bool, asked: Perms) -> Perms
    ensures { result.0 ≡ part_of deny saying asked.0 }
{
    let is_meant = if deny { saying.deny } else { !saying.deny };
    if saying.holds && is_meant {
        saying.perms.intersection(asked)
    } else {
        Perms(0)
    }
}

/// What is left without what was taken.
fn left_of(left: Perms, taken: Perms) -> Perms
    ensures { result.0 ≡ minus left.0 taken.0 }
{
    left.difference(taken)
}

/// A rule decides these permissions, if they are any.
fn decider_if(number: usize, perms: Perms) -> Option<Decider>
    ensures { result ≡ decider_if number perms.0 }
{
    if perms.is_empty() {
        return None;
    }
    Some(Decider {
        rule: number,
        perms,
    })
}

fn push_any(found: &mut Vec<Decider>, decider: Option<Decider>) -> Result<(), AllocError>
    ensures { OnOk result (found.new.items ≡ found.old.items ++ option_to_list decider) }
{
    if let Some(decider) = decider {
        found.push(decider)?;
    }
    Ok(())
}

/// A rule with that verdict that names some of what is asked.
fn named_by(told: Told, deny: bool, asked: Perms) -> Option<Decider>
    ensures { result ≡ named_by deny asked.0 told }
{
    decider_if(told.rule, part_of(told.saying, deny, asked))
}

/// The rules with that verdict that name some of what is asked.
fn naming(
    alloc: Global,
    told: &[Told],
    deny: bool,
    asked: Perms,
) -> Result<Vec<Decider>, AllocError>
    ensures { IfOk result (λ found. found.items ≡ filter_map (named_by deny asked.0) told.now) }
{
    told.iter()
        .filter_map(|told| named_by(*told, deny, asked))
        .collect(alloc)
}

/// The rules that allow some of what no rule before them allows.
fn first_allowing(alloc: Global, told: &[Told], asked: Perms) -> Result<Vec<Decider>, AllocError>
    ensures { IfOk result (λ found. found.items ≡ first_told asked.0 told.now) }
{
    let mut found = Vec::new(alloc);
    let mut left = asked;
    for rule in told {
        push_any(&mut found, named_by(*rule, false, left))?;
        left = left_of(left, part_of(rule.saying, false, left));
    }
    Ok(found)
}

/// What no rule with that verdict names of what is asked.
fn unnamed(told: &[Told], deny: bool, asked: Perms) -> Perms
    ensures { result.0 ≡ unnamed deny asked.0 (sayings_of told.now) }
{
    let mut left = asked;
    for rule in told {
        left = left_of(left, part_of(rule.saying, deny, left));
    }
    left
}

/// The reason for an execution: the rules that deny it, else all that choose how it goes.
#[tactic(auto, unfolding(crate::specs::Told::exec_reasons_told))]
fn exec_deciders_by(alloc: Global, told: &[Told]) -> Result<Deciders, AllocError>
    ensures { IfOk result (λ d. reasons d ≡ exec_reasons_told told.now) }
{
    let denies = naming(alloc, told, true, Perms::EXEC)?;
    if !denies.is_empty() {
        return Ok(Deciders {
            listed: Listed::Files,
            denies,
            allows: Vec::new(alloc),
            lacking: Perms(0),
        });
    }
    Ok(Deciders {
        listed: Listed::Files,
        denies,
        allows: naming(alloc, told, false, Perms::EXEC)?,
        lacking: unnamed(told, false, Perms::EXEC),
    })
}

/// The reason that these rules give for what is asked.
fn deciders_by(
    alloc: Global,
    listed: Listed,
    told: &[Told],
    asked: Perms,
) -> Result<Deciders, AllocError>
    ensures { IfOk result (λ d. reasons d ≡ reasons_told listed told.now asked.0) }
{
    let left = unnamed(told, true, asked);
    Ok(Deciders {
        listed,
        denies: naming(alloc, told, true, asked)?,
        allows: first_allowing(alloc, told, left)?,
        lacking: unnamed(told, false, left),
    })
}

/// The reason for what is asked of the object at a path.
fn file_deciders(
    alloc: Global,
    compiled: &Compiled,
    number: u16,
    path: &[u8],
    owned: bool,
    asked: Perms,
) -> Result<Deciders, AllocError>
    ensures { IfOk result (λ d. reasons d ≡ reasons_by Listed.Files (map (file_saying path.now owned) (files_at compiled.now.profiles number)) asked.0) }
{
    let told = file_told(alloc, compiled, number, path, owned)?;
    deciders_by(alloc, Listed::Files, told.as_slice(), asked)
}

/// The reason for an execution.
fn exec_deciders(
    alloc: Global,
    compiled: &Compiled,
    number: u16,
    exec: &ExecRequest,
) -> Result<Deciders, AllocError>
    ensures { IfOk result (λ d. reasons d ≡ exec_reasons (exec_sayings exec.now.path exec.now.owned (files_at compiled.now.profiles number))) }
{
    let told = exec_told(alloc, compiled, number, exec.path(), exec.owned())?;
    exec_deciders_by(alloc, told.as_slice())
}

/// The bits of all permissions but LINK and EXEC.
const BESIDE_LINK: Perms = Perms(55);

/// The reason for a request that isn't about a file.
fn bit_deciders(alloc: Global, listed: Listed, sayings: &[Saying]) -> Result<Deciders, AllocError>
    ensures { IfOk result (λ d. reasons d ≡ reasons_by listed sayings.now 1) }
{
    let told = speaking(alloc, sayings)?;
    deciders_by(alloc, listed, told.as_slice(), BIT)
}

fn cap_deciders(alloc: Global, rules: &[CapRule], cap: Cap) -> Result<Deciders, AllocError>
    ensures { IfOk result (λ d. reasons d ≡ reasons_by Listed.Caps (map (cap_saying cap) rules.now) 1) }
{
    let sayings = cap_sayings(alloc, rules, cap)?;
    bit_deciders(alloc, Listed::Caps, sayings.as_slice())
}

fn net_deciders(
    alloc: Global,
    rules: &[NetRule],
    family: Family,
    kind: SockType,
) -> Result<Deciders, AllocError>
    ensures { IfOk result (λ d. reasons d ≡ reasons_by Listed.Nets (map (net_saying family kind) rules.now) 1) }
{
    let sayings = net_sayings(alloc, rules, family, kind)?;
    bit_deciders(alloc, Listed::Nets, sayings.as_slice())
}

fn change_deciders(alloc: Global, rules: &[ChangeRule], name: &[u8]) -> Result<Deciders, AllocError>
    ensures { IfOk result (λ d. reasons d ≡ reasons_by Listed.Changes (map (change_saying name.now) rules.now) 1) }
{
    let sayings = change_sayings(alloc, rules, name)?;
    bit_deciders(alloc, Listed::Changes, sayings.as_slice())
}

/// The profile with that number.
fn profile_in(compiled: &Compiled, number: u16) -> Option<&Profile>
    ensures { option_map (λ p. p.now) result ≡ slice_get compiled.now.profiles number }
{
    compiled.policy().profiles.as_slice().get(number as usize)
}

/// The reason for the answer to a request of a task in a profile, which has that number.
fn deciders_in(
    alloc: Global,
    compiled: &Compiled,
    number: u16,
    profile: &Profile,
    request: &Request,
) -> Result<Option<Deciders>, AllocError>
    requires { files_at compiled.now.profiles number ≡ profile.now.files }
    ensures { IfOk result (λ d. option_map reasons d ≡ reasons_of profile.now request.now) }
{
    let deciders = match request {
        Request::File(file) => {
            let asked = file.mask();
            file_deciders(alloc, compiled, number, file.path(), file.owned(), asked)?
        }
        Request::Link(link) => {
            let asked = Perms::LINK;
            file_deciders(alloc, compiled, number, link.link(), link.owned(), asked)?
        }
        Request::Exec(exec) => exec_deciders(alloc, compiled, number, exec)?,
        Request::Cap(cap) => cap_deciders(alloc, profile.caps.as_slice(), *cap)?,
        Request::Net(family, kind) => {
            net_deciders(alloc, profile.nets.as_slice(), *family, *kind)?
        }
        Request::Change(change) => {
            change_deciders(alloc, profile.changes.as_slice(), change.name())?
        }
        Request::Reload(_) => return Ok(None),
    };
    Ok(Some(deciders))
}

/// The reason for the answer to a request of a task in the profile with that number: of a link that at the link's path. None where there
/// is no such profile. Of the profile's file rules those alone are looked at of which a pattern matches the path.
pub fn deciders_of(
    alloc: Global,
    compiled: &Compiled,
    number: u16,
    request: &Request,
) -> Result<Option<Deciders>, AllocError>
    ensures { IfOk result (λ d. option_map reasons d ≡ option_and_then (λ (p : Profile). reasons_of p request.now) (slice_get compiled.now.profiles number)) }
{
    match profile_in(compiled, number) {
        Some(profile) => deciders_in(alloc, compiled, number, profile, request),
        None => Ok(None),
    }
}

/// What the rules grant beside LINK and EXEC.
fn granted_beside(told: &[Told]) -> Perms
    ensures { result.0 ≡ granted_beside (sayings_of told.now) }
{
    let left = unnamed(told, true, BESIDE_LINK);
    left_of(left, unnamed(told, false, left))
}

/// What a link's path grants beside LINK and EXEC, which its target has to grant.
fn wanted_of_target(
    alloc: Global,
    compiled: &Compiled,
    number: u16,
    link: &LinkRequest,
) -> Result<Perms, AllocError>
    ensures { IfOk result (λ perms. perms.0 ≡ granted_beside (map (file_saying link.now.link link.now.owned) (files_at compiled.now.profiles number))) }
{
    let told = file_told(alloc, compiled, number, link.link(), link.owned())?;
    Ok(granted_beside(told.as_slice()))
}

/// The reason for what a link's target has to grant, by the rules of a profile, which has that number.
fn target_in(
    alloc: Global,
    compiled: &Compiled,
    number: u16,
    profile: &Profile,
    request: &Request,
) -> Result<Option<Deciders>, AllocError>
    requires { files_at compiled.now.profiles number ≡ profile.now.files }
    ensures { IfOk result (λ d. option_map reasons d ≡ target_reasons profile.now request.now) }
{
    let _profile = profile;
    let Request::Link(link) = request else {
        return Ok(None);
    };
    let asked = wanted_of_target(alloc, compiled, number, link)?;
    let deciders = file_deciders(alloc, compiled, number, link.target(), link.owned(), asked)?;
    Ok(Some(deciders))
}

/// The reason for what a link's target has to grant: the permissions beside LINK and EXEC that the link's path grants. None where there is
/// no profile with that number, and for other requests.
pub fn target_deciders(
    alloc: Global,
    compiled: &Compiled,
    number: u16,
    request: &Request,
) -> Result<Option<Deciders>, AllocError>
    ensures { IfOk result (λ d. option_map reasons d ≡ option_and_then (λ (p : Profile). target_reasons p request.now) (slice_get compiled.now.profiles number)) }
{
    match profile_in(compiled, number) {
        Some(profile) => target_in(alloc, compiled, number, profile, request),
        None => Ok(None),
    }
}
