//! Labels at which profiles that weren't read could change what is answered.

ghost use Rattle.std.specs.Prelude.{◌≡◌, map, IfOk};
ghost use Rattle.std.specs.List.{list_any};
ghost use Rattle.aa_pattern.specs.declared.item.Item.{Byte};
ghost use Rattle.aa_pattern.specs.declared.pattern.Pattern.{Pattern};
ghost use Rattle.aa_quantifiers.specs.Doubts.{may_meet, may_attach};
ghost use Rattle.aa_differences.specs.Openings.{may_lead, is_open_rule, may_be_some, may_match, may_have_one, is_open_change, is_open_in, is_open_label, ClosedLabels};

use aa_compile::Compiled;
use aa_model::{ChangeRule, Exec, FileRule, Label, Profile};
use aa_pattern::{Item, Pattern};
use aa_quantifiers::{byte_of, is_search, may_attach};
use aa_skipping::{Head, Unread, way_is_unsure};
use std::alloc::{AllocError, Global};

fn some_may_attach(patterns: &[Pattern], unread: &Unread) -> bool
    ensures { result ≡ list_any (λ (q : Pattern). may_attach q unread.now) patterns.now }
{
    patterns.iter().any(|pattern| may_attach(pattern, unread))
}

/// Whether a way to execute may lead it isn't known where, at some path of one of the patterns.
fn may_lead(
    alloc: Global,
    compiled: &Compiled,
    unread: &Unread,
    profile: &Profile,
    patterns: &[Pattern],
    exec: &Exec,
) -> Result<bool, AllocError>
    ensures { IfOk result (λ b. b ≡ may_lead compiled.now.profiles unread.now profile.now patterns.now exec.now) }
{
    if is_search(exec) {
        return Ok(some_may_attach(patterns, unread));
    }
    way_is_unsure(alloc, compiled, unread, profile, &[], exec)
}

/// Whether a rule lets programs be executed, and may lead it isn't known where.
pub fn rule_is_open(
    alloc: Global,
    compiled: &Compiled,
    unread: &Unread,
    profile: &Profile,
    rule: &FileRule,
) -> Result<bool, AllocError>
    ensures { IfOk result (λ b. b ≡ is_open_rule compiled.now.profiles unread.now profile.now rule.now) }
{
    if rule.deny {
        return Ok(false);
    }
    match &rule.exec {
        Some(exec) => may_lead(
            alloc,
            compiled,
            unread,
            profile,
            rule.patterns.as_slice(),
            exec,
        ),
        None => Ok(false),
    }
}

/// Whether one of a profile's rules is such.
fn one_rule_is_open(
    alloc: Global,
    compiled: &Compiled,
    unread: &Unread,
    profile: &Profile,
    rules: &[FileRule],
) -> Result<bool, AllocError>
    ensures { IfOk result (λ b. b ≡ list_any (is_open_rule compiled.now.profiles unread.now profile.now) rules.now) }
{
    for rule in rules {
        if rule_is_open(alloc, compiled, unread, profile, rule)? {
            return Ok(true);
        }
    }
    Ok(false)
}

/// Whether there may be some profiles that weren't read.
fn may_be_some(unread: &Unread) -> bool
    ensures { result ≡ may_be_some unread.now }
{
    unread.others || !unread.heads.as_slice().is_empty()
}

/// Whether items may match a text that begins so: no bytes at the fronts differ.
fn may_begin(items: &[Item], front: &[u8]) -> bool
    ensures { result ≡ may_meet items.now (map Byte front.now) }
{
    let mut rest = items;
    let mut bytes = front;
    while let [item, after @ ..] = rest {
        let [byte, others @ ..] = bytes else {
            return true;
        };
        match byte_of(item) {
            Some(own) => {
                if own != *byte {
                    return false;
                }
            }
            None => return true,
        }
        rest = after;
        bytes = others;
    }
    true
}

fn may_match(pattern: &Pattern, head: &Head) -> bool
    ensures { result ≡ may_match pattern.now head.now }
{
    may_begin(pattern.items.as_slice(), head.name.as_slice())
}

fn some_may_match(pattern: &Pattern, heads: &[Head]) -> bool
    ensures { result ≡ list_any (may_match pattern.now) heads.now }
{
    heads.iter().any(|head| may_match(pattern, head))
}

/// Whether a profile that wasn't read may have a name that the pattern matches; where there is none, any.
fn may_have_one(unread: &Unread, pattern: &Option<Pattern>) -> bool
    ensures { result ≡ may_have_one unread.now pattern.now }
{
    match pattern {
        Some(pattern) => unread.others || some_may_match(pattern, unread.heads.as_slice()),
        None => may_be_some(unread),
    }
}

/// Whether a rule lets a task change to a profile that wasn't read, as far as is known.
pub fn change_is_open(unread: &Unread, rule: &ChangeRule) -> bool
    ensures { result ≡ is_open_change unread.now rule.now }
{
    !rule.deny && may_have_one(unread, &rule.pattern)
}

fn one_change_is_open(unread: &Unread, rules: &[ChangeRule]) -> bool
    ensures { result ≡ list_any (is_open_change unread.now) rules.now }
{
    rules.iter().any(|rule| change_is_open(unread, rule))
}

fn profile_is_open(
    alloc: Global,
    compiled: &Compiled,
    unread: &Unread,
    profile: &Profile,
) -> Result<bool, AllocError>
    ensures { IfOk result (λ b. b ≡ is_open_in compiled.now.profiles unread.now profile.now) }
{
    if profile.complain && may_be_some(unread) {
        return Ok(true);
    }
    let rules = profile.files.as_slice();
    if one_rule_is_open(alloc, compiled, unread, profile, rules)? {
        return Ok(true);
    }
    Ok(one_change_is_open(unread, profile.changes.as_slice()))
}

/// Whether profiles that weren't read could change what is answered at a label. Where they could not, that is so of each request
/// (`closed_labels_are_decided`); where they could, it may be so of all the same.
#[tactic(auto, unfolding(crate::specs::Openings::is_open_label))]
pub fn label_is_open(
    alloc: Global,
    compiled: &Compiled,
    unread: &Unread,
    label: Label,
) -> Result<bool, AllocError>
    ensures { IfOk result (λ b. b ≡ is_open_label compiled.now.profiles unread.now label) }
{
    let Label::Confined(_, number) = label else {
        return Ok(may_be_some(unread));
    };
    match compiled.policy().profiles.as_slice().get(number as usize) {
        Some(profile) => profile_is_open(alloc, compiled, unread, profile),
        None => Ok(true),
    }
}

/// Where profiles that weren't read could change nothing at a label, no request is undecided there. It does nothing: its contract is a
/// law of the definitions.
pub fn closed_labels_are_decided()
    ensures { ClosedLabels }
{}
