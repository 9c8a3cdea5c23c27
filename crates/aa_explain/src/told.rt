//! The rules that speak of a request's object, by their numbers.

ghost use Rattle.std.specs.Prelude.{◌≡◌, ◌++◌, false, map, option_to_list, slice_get, OnOk, IfOk};
ghost use Rattle.std.specs.List.{list_any, filter_map};
ghost use Rattle.std.specs.Option.{option_map_or};
ghost use Rattle.aa_compile.specs.Matched.{files_at};
ghost use Rattle.aa_explain.specs.Sayings.{file_saying, says_how_literally, chooses, is_denial, exec_saying, exec_sayings, bit_saying, cap_saying, net_saying, change_saying};
ghost use Rattle.aa_explain.specs.Told.{told_if, told_at, speaking_from};

use aa_base::{Cap, Family, Perms, SockType};
use aa_compile::{
    Compiled, applies, applies_literally, holds_cap, holds_change, holds_net, says_how,
};
use aa_model::{CapRule, ChangeRule, FileRule, NetRule};
use std::alloc::{AllocError, Global};

/// What a rule says of an object, whatever its sort.
#[derive(Clone, Copy, Debug, PartialEq, Eq)]
pub struct Saying {
    /// Whether the rule speaks of it.
    pub holds: bool,
    pub deny: bool,
    pub perms: Perms,
}

/// What a rule says that speaks of the object, with the rule's number.
// What decides is told of the rules alone that speak of the object: those that an automaton finds for a path, of however many.
#[derive(Clone, Copy, Debug, PartialEq, Eq)]
pub struct Told {
    pub rule: usize,
    pub saying: Saying,
}

fn push_told(found: &mut Vec<Told>, told: Option<Told>) -> Result<(), AllocError>
    ensures { OnOk result (found.new.items ≡ found.old.items ++ option_to_list told) }
{
    if let Some(told) = told {
        found.push(told)?;
    }
    Ok(())
}

fn told_if(number: usize, saying: Saying) -> Option<Told>
    ensures { result ≡ told_if number saying }
{
    if saying.holds {
        return Some(Told {
            rule: number,
            saying,
        });
    }
    None
}

/// The file rules of the profile with that number.
fn files_of(compiled: &Compiled, number: u16) -> &[FileRule]
    ensures { result.now ≡ files_at compiled.now.profiles number }
{
    match compiled.policy().profiles.as_slice().get(number as usize) {
        Some(profile) => profile.files.as_slice(),
        None => &[],
    }
}

fn file_saying(rule: &FileRule, path: &[u8], owned: bool) -> Saying
    ensures { result ≡ file_saying path.now owned rule.now }
{
    Saying {
        holds: applies(rule, path, owned),
        deny: rule.deny,
        perms: rule.perms,
    }
}

fn file_told_at(rules: &[FileRule], number: usize, path: &[u8], owned: bool) -> Option<Told>
    ensures { result ≡ told_at (file_saying path.now owned) rules.now number }
{
    match rules.get(number) {
        Some(rule) => told_if(number, file_saying(rule, path, owned)),
        None => None,
    }
}

/// Of the rules with these numbers, those that speak of the object.
fn file_told_by(
    alloc: Global,
    rules: &[FileRule],
    numbers: &[usize],
    path: &[u8],
    owned: bool,
) -> Result<Vec<Told>, AllocError>
    ensures { IfOk result (λ told. told.items ≡ filter_map (told_at (file_saying path.now owned) rules.now) numbers.now) }
{
    numbers
        .iter()
        .filter_map(|number| file_told_at(rules, *number, path, owned))
        .collect(alloc)
}

/// The file rules of a profile that speak of the object.
pub(crate) fn file_told(
    alloc: Global,
    compiled: &Compiled,
    number: u16,
    path: &[u8],
    owned: bool,
) -> Result<Vec<Told>, AllocError>
    ensures { IfOk result (λ told. told.items ≡ speaking_from 0 (map (file_saying path.now owned) (files_at compiled.now.profiles number))) }
{
    let numbers = compiled.rules_matching(alloc, number, path)?;
    let rules = files_of(compiled, number);
    file_told_by(alloc, rules, numbers.as_slice(), path, owned)
}

fn says_how_literally(rule: &FileRule, path: &[u8], owned: bool) -> bool
    ensures { result ≡ says_how_literally path.now owned rule.now }
{
    says_how(rule) && applies_literally(rule, path, owned)
}

fn says_so_at(rules: &[FileRule], number: usize, path: &[u8], owned: bool) -> bool
    ensures { result ≡ option_map_or (says_how_literally path.now owned) (slice_get rules.now number) false }
{
    match rules.get(number) {
        Some(rule) => says_how_literally(rule, path, owned),
        None => false,
    }
}

/// Whether one of the rules with these numbers says how by a pattern of bytes alone, so that those that do so choose.
fn is_told_literally(rules: &[FileRule], numbers: &[usize], path: &[u8], owned: bool) -> bool
    ensures { result ≡ list_any (λ n. option_map_or (says_how_literally path.now owned) (slice_get rules.now n) false) numbers.now }
{
    numbers
        .iter()
        .any(|number| says_so_at(rules, *number, path, owned))
}

/// Whether a rule is one of those that choose how a program is executed.
fn chooses(rule: &FileRule, path: &[u8], owned: bool, literally: bool) -> bool
    ensures { result ≡ chooses literally path.now owned rule.now }
{
    if literally {
        says_how_literally(rule, path, owned)
    } else {
        says_how(rule) && applies(rule, path, owned)
    }
}

fn is_denial(rule: &FileRule, path: &[u8], owned: bool) -> bool
    ensures { result ≡ is_denial path.now owned rule.now }
{
    rule.deny && applies(rule, path, owned)
}

fn exec_saying(rule: &FileRule, path: &[u8], owned: bool, literally: bool) -> Saying
    ensures { result ≡ exec_saying literally path.now owned rule.now }
{
    Saying {
        holds: chooses(rule, path, owned, literally) || is_denial(rule, path, owned),
        deny: rule.deny,
        perms: rule.perms,
    }
}

fn exec_told_at(
    rules: &[FileRule],
    number: usize,
    path: &[u8],
    owned: bool,
    literally: bool,
) -> Option<Told>
    ensures { result ≡ told_at (exec_saying literally path.now owned) rules.now number }
{
    match rules.get(number) {
        Some(rule) => told_if(number, exec_saying(rule, path, owned, literally)),
        None => None,
    }
}

fn exec_told_by(
    alloc: Global,
    rules: &[FileRule],
    numbers: &[usize],
    path: &[u8],
    owned: bool,
    literally: bool,
) -> Result<Vec<Told>, AllocError>
    ensures { IfOk result (λ told. told.items ≡ filter_map (told_at (exec_saying literally path.now owned) rules.now) numbers.now) }
{
    numbers
        .iter()
        .filter_map(|number| exec_told_at(rules, *number, path, owned, literally))
        .collect(alloc)
}

/// The file rules of a profile that choose how a program is executed, or deny that it is: those that say how and apply by a pattern of bytes
/// alone, or else all that say how and apply.
pub(crate) fn exec_told(
    alloc: Global,
    compiled: &Compiled,
    number: u16,
    path: &[u8],
    owned: bool,
) -> Result<Vec<Told>, AllocError>
    ensures { IfOk result (λ told. told.items ≡ speaking_from 0 (exec_sayings path.now owned (files_at compiled.now.profiles number))) }
{
    let numbers = compiled.rules_matching(alloc, number, path)?;
    let found = numbers.as_slice();
    let rules = files_of(compiled, number);
    let literally = is_told_literally(rules, found, path, owned);
    exec_told_by(alloc, rules, found, path, owned, literally)
}

/// Those of all rules that speak of the object.
pub(crate) fn speaking(alloc: Global, sayings: &[Saying]) -> Result<Vec<Told>, AllocError>
    ensures { IfOk result (λ told. told.items ≡ speaking_from 0 sayings.now) }
{
    let mut told = Vec::new(alloc);
    for (number, saying) in sayings.iter().enumerate() {
        push_told(&mut told, told_if(number, *saying))?;
    }
    Ok(told)
}

/// The one bit of a request that isn't about a file.
pub(crate) const BIT: Perms = Perms::READ;

/// What a rule that isn't about files says, on one bit.
fn saying_of(holds: bool, deny: bool) -> Saying
    ensures { result ≡ bit_saying holds deny }
{
    Saying {
        holds,
        deny,
        perms: BIT,
    }
}

fn cap_saying(rule: &CapRule, cap: Cap) -> Saying
    ensures { result ≡ cap_saying cap rule.now }
{
    saying_of(holds_cap(rule, cap), rule.deny)
}

pub(crate) fn cap_sayings(
    alloc: Global,
    rules: &[CapRule],
    cap: Cap,
) -> Result<Vec<Saying>, AllocError>
    ensures { IfOk result (λ s. s.items ≡ map (cap_saying cap) rules.now) }
{
    rules
        .iter()
        .map(|rule| cap_saying(rule, cap))
        .collect(alloc)
}

fn net_saying(rule: &NetRule, family: Family, kind: SockType) -> Saying
    ensures { result ≡ net_saying family kind rule.now }
{
    saying_of(holds_net(rule, family, kind), rule.deny)
}

pub(crate) fn net_sayings(
    alloc: Global,
    rules: &[NetRule],
    family: Family,
    kind: SockType,
) -> Result<Vec<Saying>, AllocError>
    ensures { IfOk result (λ s. s.items ≡ map (net_saying family kind) rules.now) }
{
    rules
        .iter()
        .map(|rule| net_saying(rule, family, kind))
        .collect(alloc)
}

fn change_saying(rule: &ChangeRule, name: &[u8]) -> Saying
    ensures { result ≡ change_saying name.now rule.now }
{
    saying_of(holds_change(rule, name), rule.deny)
}

pub(crate) fn change_sayings(
    alloc: Global,
    rules: &[ChangeRule],
    name: &[u8],
) -> Result<Vec<Saying>, AllocError>
    ensures { IfOk result (λ s. s.items ≡ map (change_saying name.now) rules.now) }
{
    rules
        .iter()
        .map(|rule| change_saying(rule, name))
        .collect(alloc)
}
