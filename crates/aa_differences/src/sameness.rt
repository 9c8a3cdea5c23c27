//! Profiles that are the same but for where they stand.

ghost use Rattle.std.specs.Prelude.{◌≡◌, true};
ghost use Rattle.std.specs.List.{AllZip};
ghost use Rattle.aa_pattern.specs.declared.pattern.Pattern.{Pattern};
ghost use Rattle.aa_model.specs.declared.rule.Exec.{Exec};
ghost use Rattle.aa_model.specs.declared.policy.Policy.{Policy};
ghost use Rattle.aa_model.specs.declared.policy.Profile.{Profile};
ghost use Rattle.aa_compile.specs.Labels.{profile_in};
ghost use Rattle.aa_differences.specs.Sameness.{SamePattern, SameRule, SameChange, SameHead, SameBody, SameHeads, SameTops, SameBodyAt, SameValue, IsAlike};
ghost use Rattle.std.specs.Prelude.{option_map};

use crate::patterns::{same_pattern, same_patterns};
use aa_base::Text;
use aa_compile::{Compiled, profile_of};
use aa_model::{CapRule, ChangeRule, Exec, FileRule, Label, NetRule, Profile};
use aa_pattern::Pattern;

fn same_target(one: &Option<Text>, other: &Option<Text>) -> bool
    ensures { result ≡ true → one.now ≡ other.now }
{
    match (one, other) {
        (Some(one), Some(other)) => one.as_slice() == other.as_slice(),
        (None, None) => true,
        _ => false,
    }
}

/// Whether two rules say the same of how a program is executed.
fn same_way(one: &Exec, other: &Exec) -> bool
    ensures { result ≡ true → one.now ≡ other.now }
{
    if one.kind != other.kind || one.scrub != other.scrub || one.fallback != other.fallback {
        return false;
    }
    same_target(&one.target, &other.target)
}

fn same_exec(one: &Option<Exec>, other: &Option<Exec>) -> bool
    ensures { result ≡ true → one.now ≡ other.now }
{
    match (one, other) {
        (Some(one), Some(other)) => same_way(one, other),
        (None, None) => true,
        _ => false,
    }
}

fn same_rule(one: &FileRule, other: &FileRule) -> bool
    ensures { result ≡ true → SameRule one.now other.now }
{
    if one.audit != other.audit || one.deny != other.deny || one.owner != other.owner {
        return false;
    }
    if one.perms != other.perms || !same_exec(&one.exec, &other.exec) {
        return false;
    }
    same_patterns(one.patterns.as_slice(), other.patterns.as_slice())
}

fn same_rules(one: &[FileRule], other: &[FileRule]) -> bool
    ensures { result ≡ true → AllZip SameRule one.now other.now }
{
    if one.len() != other.len() {
        return false;
    }
    for number in 0..one.len() {
        if !same_rule(&one[number], &other[number]) {
            return false;
        }
    }
    true
}

fn same_if_any(one: &Option<Pattern>, other: &Option<Pattern>) -> bool
    ensures { result ≡ true → IsAlike SamePattern one.now other.now }
{
    match (one, other) {
        (Some(one), Some(other)) => same_pattern(one, other),
        (None, None) => true,
        _ => false,
    }
}

fn same_change(one: &ChangeRule, other: &ChangeRule) -> bool
    ensures { result ≡ true → SameChange one.now other.now }
{
    if one.audit != other.audit || one.deny != other.deny {
        return false;
    }
    same_if_any(&one.pattern, &other.pattern)
}

fn same_changes(one: &[ChangeRule], other: &[ChangeRule]) -> bool
    ensures { result ≡ true → AllZip SameChange one.now other.now }
{
    if one.len() != other.len() {
        return false;
    }
    for number in 0..one.len() {
        if !same_change(&one[number], &other[number]) {
            return false;
        }
    }
    true
}

fn same_cap(one: &CapRule, other: &CapRule) -> bool
    ensures { result ≡ true → SameValue one.now other.now }
{
    *one == *other
}

fn same_caps(one: &[CapRule], other: &[CapRule]) -> bool
    ensures { result ≡ true → AllZip SameValue one.now other.now }
{
    if one.len() != other.len() {
        return false;
    }
    for number in 0..one.len() {
        if !same_cap(&one[number], &other[number]) {
            return false;
        }
    }
    true
}

fn same_net(one: &NetRule, other: &NetRule) -> bool
    ensures { result ≡ true → SameValue one.now other.now }
{
    *one == *other
}

fn same_nets(one: &[NetRule], other: &[NetRule]) -> bool
    ensures { result ≡ true → AllZip SameValue one.now other.now }
{
    if one.len() != other.len() {
        return false;
    }
    for number in 0..one.len() {
        if !same_net(&one[number], &other[number]) {
            return false;
        }
    }
    true
}

/// Whether two profiles have the same flags and the same rules, one after another.
fn same_body(one: &Profile, other: &Profile) -> bool
    ensures { result ≡ true → SameBody one.now other.now }
{
    if one.complain != other.complain || one.audit != other.audit {
        return false;
    }
    if !same_caps(one.caps.as_slice(), other.caps.as_slice()) {
        return false;
    }
    if !same_nets(one.nets.as_slice(), other.nets.as_slice()) {
        return false;
    }
    if !same_changes(one.changes.as_slice(), other.changes.as_slice()) {
        return false;
    }
    same_rules(one.files.as_slice(), other.files.as_slice())
}

fn same_parent(one: Option<u16>, other: Option<u16>) -> bool
    ensures { result ≡ true → one ≡ other }
{
    match (one, other) {
        (Some(one), Some(other)) => one == other,
        (None, None) => true,
        _ => false,
    }
}

/// Whether others see no difference in two profiles.
fn same_head(one: &Profile, other: &Profile) -> bool
    ensures { result ≡ true → SameHead one.now other.now }
{
    if one.name.as_slice() != other.name.as_slice() {
        return false;
    }
    if !same_parent(one.parent, other.parent) {
        return false;
    }
    same_patterns(one.attachments.as_slice(), other.attachments.as_slice())
}

fn same_profiles(one: &[Profile], other: &[Profile]) -> bool
    ensures { result ≡ true → AllZip SameHead one.now other.now }
{
    if one.len() != other.len() {
        return false;
    }
    for number in 0..one.len() {
        if !same_head(&one[number], &other[number]) {
            return false;
        }
    }
    true
}

fn same_tops(one: &Compiled, other: &Compiled) -> bool
    ensures { result ≡ true → SameTops one.now other.now }
{
    same_profiles(
        one.policy().profiles.as_slice(),
        other.policy().profiles.as_slice(),
    )
}

/// Whether as many profiles of each policy have the same heads.
pub(crate) fn same_heads(one: &[Compiled], other: &[Compiled]) -> bool
    ensures { result ≡ true → SameHeads one.now other.now }
{
    if one.len() != other.len() {
        return false;
    }
    for number in 0..one.len() {
        if !same_tops(&one[number], &other[number]) {
            return false;
        }
    }
    true
}

fn same_body_if(one: Option<&Profile>, other: Option<&Profile>) -> bool
    ensures { result ≡ true → IsAlike SameBody (option_map (λ p. p.now) one.entry) (option_map (λ p. p.now) other.entry) }
{
    match (one, other) {
        (Some(one), Some(other)) => same_body(one, other),
        (None, None) => true,
        _ => false,
    }
}

fn same_body_of(old: &[Compiled], new: &[Compiled], policy: u16, number: u16) -> bool
    ensures { result ≡ true → IsAlike SameBody (profile_in old.now policy number) (profile_in new.now policy number) }
{
    same_body_if(
        profile_of(old, policy, number),
        profile_of(new, policy, number),
    )
}

/// Whether both labels are one, with the same body in both.
pub(crate) fn same_body_at(old: &[Compiled], from: Label, new: &[Compiled], to: Label) -> bool
    ensures { result ≡ true → SameBodyAt old.now new.now from to }
{
    match (from, to) {
        (Label::Unconfined(policy), Label::Unconfined(other)) => policy == other,
        (Label::Confined(policy, number), Label::Confined(other, another)) => {
            if policy != other || number != another {
                return false;
            }
            same_body_of(old, new, policy, number)
        }
        _ => false,
    }
}
