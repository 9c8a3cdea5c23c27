//! Which rules match a request and name some of what it asks for, whatever they say of it.

ghost use Rattle.std.specs.Prelude.{◌≡◌, [], Some, IfOk};
ghost use Rattle.std.specs.List.{slice_get};
ghost use Rattle.std.specs.Option.{option_map_or};
ghost use Rattle.aa_compile.specs.Holding.{cap_holds, net_holds, change_holds};
ghost use Rattle.aa_changed_rules.specs.Changed.{changed_data};
ghost use Rattle.aa_changed_rules.specs.Matching.{is_on_file, wanted_of_target, is_on_link, number_if, those_that, rules_on};

use crate::changed::ChangedRules;
use aa_base::{Cap, Family, Perms, SockType};
use aa_compile::{Compiled, applies, holds_cap, holds_change, holds_net};
use aa_model::{CapRule, ChangeRule, FileRule, LinkRequest, NetRule, Profile, Request};
use bitflags::Flags;
use std::alloc::{AllocError, Global};

/// All seven permissions.
const EVERY: Perms = Perms(127);

/// Whether a rule names some of what is asked, and applies to the object.
fn is_on_file(rule: &FileRule, path: &[u8], owned: bool, asked: Perms) -> bool
    ensures { result ≡ is_on_file path.now owned asked.0 rule.now }
{
    !rule.perms.intersection(asked).is_empty() && applies(rule, path, owned)
}

/// What the rules of the profile with that number grant at a link's path but for LINK: the target has to be granted that too.
fn wanted_of_target(
    compiled: &Compiled,
    number: u16,
    profile: &Profile,
    link: &LinkRequest,
) -> Perms
    requires { slice_get compiled.now.profiles number ≡ Some profile.now }
    ensures { result.0 ≡ wanted_of_target profile.now.files link.now }
{
    let _profile = profile;
    let sets = compiled.verdict(number, link.link(), link.owned()).sets;
    sets.allow.difference(sets.deny).difference(Perms::LINK)
}

/// Whether a rule names some permission at a link's path, or some of what is wanted of the target at that.
fn is_on_link(rule: &FileRule, link: &LinkRequest, wanted: Perms) -> bool
    ensures { result ≡ is_on_link wanted.0 link.now rule.now }
{
    is_on_file(rule, link.link(), link.owned(), EVERY)
        || is_on_file(rule, link.target(), link.owned(), wanted)
}

fn file_if(
    rules: &[FileRule],
    number: usize,
    path: &[u8],
    owned: bool,
    asked: Perms,
) -> Option<usize>
    ensures { result ≡ number_if (is_on_file path.now owned asked.0) rules.now number }
{
    match rules.get(number) {
        Some(rule) if is_on_file(rule, path, owned, asked) => Some(number),
        _ => None,
    }
}

fn link_if(rules: &[FileRule], number: usize, link: &LinkRequest, wanted: Perms) -> Option<usize>
    ensures { result ≡ number_if (is_on_link wanted.0 link.now) rules.now number }
{
    match rules.get(number) {
        Some(rule) if is_on_link(rule, link, wanted) => Some(number),
        _ => None,
    }
}

fn cap_if(rules: &[CapRule], number: usize, cap: Cap) -> Option<usize>
    ensures { result ≡ number_if (cap_holds cap) rules.now number }
{
    match rules.get(number) {
        Some(rule) if holds_cap(rule, cap) => Some(number),
        _ => None,
    }
}

fn net_if(rules: &[NetRule], number: usize, family: Family, kind: SockType) -> Option<usize>
    ensures { result ≡ number_if (net_holds family kind) rules.now number }
{
    match rules.get(number) {
        Some(rule) if holds_net(rule, family, kind) => Some(number),
        _ => None,
    }
}

fn change_if(rules: &[ChangeRule], number: usize, name: &[u8]) -> Option<usize>
    ensures { result ≡ number_if (change_holds name.now) rules.now number }
{
    match rules.get(number) {
        Some(rule) if holds_change(rule, name) => Some(number),
        _ => None,
    }
}

/// Of the rules with these numbers those that are about an object and name some of what is asked.
fn files_on(
    alloc: Global,
    rules: &[FileRule],
    numbers: &[usize],
    path: &[u8],
    owned: bool,
    asked: Perms,
) -> Result<Vec<usize>, AllocError>
    ensures { IfOk result (λ found. found.items ≡ those_that (is_on_file path.now owned asked.0) rules.now numbers.now) }
{
    numbers
        .iter()
        .filter_map(|number| file_if(rules, *number, path, owned, asked))
        .collect(alloc)
}

fn links_on(
    alloc: Global,
    rules: &[FileRule],
    numbers: &[usize],
    link: &LinkRequest,
    wanted: Perms,
) -> Result<Vec<usize>, AllocError>
    ensures { IfOk result (λ found. found.items ≡ those_that (is_on_link wanted.0 link.now) rules.now numbers.now) }
{
    numbers
        .iter()
        .filter_map(|number| link_if(rules, *number, link, wanted))
        .collect(alloc)
}

fn caps_on(
    alloc: Global,
    rules: &[CapRule],
    numbers: &[usize],
    cap: Cap,
) -> Result<Vec<usize>, AllocError>
    ensures { IfOk result (λ found. found.items ≡ those_that (cap_holds cap) rules.now numbers.now) }
{
    numbers
        .iter()
        .filter_map(|number| cap_if(rules, *number, cap))
        .collect(alloc)
}

fn nets_on(
    alloc: Global,
    rules: &[NetRule],
    numbers: &[usize],
    family: Family,
    kind: SockType,
) -> Result<Vec<usize>, AllocError>
    ensures { IfOk result (λ found. found.items ≡ those_that (net_holds family kind) rules.now numbers.now) }
{
    numbers
        .iter()
        .filter_map(|number| net_if(rules, *number, family, kind))
        .collect(alloc)
}

fn changes_on(
    alloc: Global,
    rules: &[ChangeRule],
    numbers: &[usize],
    name: &[u8],
) -> Result<Vec<usize>, AllocError>
    ensures { IfOk result (λ found. found.items ≡ those_that (change_holds name.now) rules.now numbers.now) }
{
    numbers
        .iter()
        .filter_map(|number| change_if(rules, *number, name))
        .collect(alloc)
}

/// The numbers of the rules on files that a request to make a link is about, by the profile with that number.
fn on_link(
    alloc: Global,
    compiled: &Compiled,
    number: u16,
    profile: &Profile,
    numbers: &[usize],
    link: &LinkRequest,
) -> Result<Vec<usize>, AllocError>
    requires { slice_get compiled.now.profiles number ≡ Some profile.now }
    ensures { IfOk result (λ found. found.items ≡ those_that (is_on_link (wanted_of_target profile.now.files link.now) link.now) profile.now.files numbers.now) }
{
    let wanted = wanted_of_target(compiled, number, profile, link);
    links_on(alloc, profile.files.as_slice(), numbers, link, wanted)
}

/// Those of a profile, which has that number.
fn on_profile(
    alloc: Global,
    compiled: &Compiled,
    number: u16,
    profile: &Profile,
    changed: &ChangedRules,
    request: &Request,
) -> Result<Vec<usize>, AllocError>
    requires { slice_get compiled.now.profiles number ≡ Some profile.now }
    ensures { IfOk result (λ found. found.items ≡ rules_on request.now (changed_data changed.now) profile.now) }
{
    let rules = profile.files.as_slice();
    let numbers = changed.files.as_slice();
    match request {
        Request::File(file) => {
            let asked = file.mask();
            files_on(alloc, rules, numbers, file.path(), file.owned(), asked)
        }
        Request::Link(link) => on_link(alloc, compiled, number, profile, numbers, link),
        Request::Exec(exec) => {
            let asked = Perms::EXEC;
            files_on(alloc, rules, numbers, exec.path(), exec.owned(), asked)
        }
        Request::Cap(cap) => caps_on(
            alloc,
            profile.caps.as_slice(),
            changed.caps.as_slice(),
            *cap,
        ),
        Request::Net(family, kind) => nets_on(
            alloc,
            profile.nets.as_slice(),
            changed.nets.as_slice(),
            *family,
            *kind,
        ),
        Request::Change(change) => changes_on(
            alloc,
            profile.changes.as_slice(),
            changed.changes.as_slice(),
            change.name(),
        ),
        Request::Reload(_) => Ok(Vec::new(alloc)),
    }
}

/// Of these rules of the profile with that number those that match a request and name some of what it asks for, in the one list that it is
/// about; none where there is no such profile.
pub fn rules_on(
    alloc: Global,
    compiled: &Compiled,
    number: u16,
    changed: &ChangedRules,
    request: &Request,
) -> Result<Vec<usize>, AllocError>
    ensures { IfOk result (λ found. found.items ≡ option_map_or (rules_on request.now (changed_data changed.now)) (slice_get compiled.now.profiles number) []) }
{
    match compiled.policy().profiles.as_slice().get(number as usize) {
        Some(profile) => on_profile(alloc, compiled, number, profile, changed, request),
        None => Ok(Vec::new(alloc)),
    }
}
