//! Words of which profiles that weren't read could change what is answered.

ghost use Rattle.std.specs.Prelude.{◌≡◌, IfOk};
ghost use Rattle.std.specs.List.{list_any};
ghost use Rattle.aa_skipping.specs.declared.unread.Head.{Head};
ghost use Rattle.aa_quantifiers.specs.Doubts.{byte_of, may_meet, meets, may_attach, is_search, may_be_unsure, is_open_rule, is_nobodys, is_open_word, ClosedWords};

use crate::word::{ExecsWord, Word};
use aa_compile::Compiled;
use aa_model::{Exec, ExecKind, FileRule, Label, Profile};
use aa_pattern::{Item, Pattern};
use aa_skipping::{Head, Unread, is_undecided, way_is_unsure};
use std::alloc::{AllocError, Global};

/// The byte that an item is, if it is one.
pub fn byte_of(item: &Item) -> Option<u8>
    ensures { result ≡ byte_of item.now }
{
    match item {
        Item::Byte(b) => Some(*b),
        _ => None,
    }
}

/// Whether some path may be matched by both: no bytes at their fronts differ.
fn may_meet(one: &[Item], other: &[Item]) -> bool
    ensures { result ≡ may_meet one.now other.now }
{
    let mut rest = one;
    let mut items = other;
    while let [x, xs @ ..] = rest {
        let [y, ys @ ..] = items else {
            return true;
        };
        match (byte_of(x), byte_of(y)) {
            (Some(a), Some(b)) => {
                if a != b {
                    return false;
                }
            }
            _ => return true,
        }
        rest = xs;
        items = ys;
    }
    true
}

fn meets(one: &Pattern, other: &Pattern) -> bool
    ensures { result ≡ meets one.now other.now }
{
    may_meet(one.items.as_slice(), other.items.as_slice())
}

fn one_meets(pattern: &Pattern, others: &[Pattern]) -> bool
    ensures { result ≡ list_any (meets pattern.now) others.now }
{
    others.iter().any(|other| meets(pattern, other))
}

fn one_may_attach(pattern: &Pattern, heads: &[Head]) -> bool
    ensures { result ≡ list_any (λ (h : Head). list_any (meets pattern.now) h.attachments) heads.now }
{
    heads
        .iter()
        .any(|head| one_meets(pattern, head.attachments.as_slice()))
}

/// Whether a profile that wasn't read may be attached to some path of the pattern.
pub fn may_attach(pattern: &Pattern, unread: &Unread) -> bool
    ensures { result ≡ may_attach pattern.now unread.now }
{
    unread.others || one_may_attach(pattern, unread.heads.as_slice())
}

/// Whether such a way to execute searches by attachment among all profiles.
pub fn is_search(exec: &Exec) -> bool
    ensures { result ≡ is_search exec.now.kind exec.now.target }
{
    match (exec.kind, &exec.target) {
        (ExecKind::Profile, None) => true,
        _ => false,
    }
}

/// Whether it may not be known where the way leads at some path of the pattern.
fn may_be_unsure(
    alloc: Global,
    compiled: &Compiled,
    unread: &Unread,
    profile: &Profile,
    pattern: &Pattern,
    exec: &Exec,
) -> Result<bool, AllocError>
    ensures { IfOk result (λ b. b ≡ may_be_unsure compiled.now.profiles unread.now profile.now pattern.now exec.now) }
{
    if is_search(exec) {
        return Ok(may_attach(pattern, unread));
    }
    way_is_unsure(alloc, compiled, unread, profile, &[], exec)
}

/// Whether a rule may say how a program at some path of the pattern is executed, and lead it isn't known where.
fn rule_is_open(
    alloc: Global,
    compiled: &Compiled,
    unread: &Unread,
    profile: &Profile,
    pattern: &Pattern,
    rule: &FileRule,
) -> Result<bool, AllocError>
    ensures { IfOk result (λ b. b ≡ is_open_rule compiled.now.profiles unread.now profile.now pattern.now rule.now) }
{
    if rule.deny || !one_meets(pattern, rule.patterns.as_slice()) {
        return Ok(false);
    }
    match &rule.exec {
        Some(exec) => may_be_unsure(alloc, compiled, unread, profile, pattern, exec),
        None => Ok(false),
    }
}

/// Whether one of a profile's rules is such.
fn one_rule_is_open(
    alloc: Global,
    compiled: &Compiled,
    unread: &Unread,
    profile: &Profile,
    pattern: &Pattern,
    rules: &[FileRule],
) -> Result<bool, AllocError>
    ensures { IfOk result (λ b. b ≡ list_any (is_open_rule compiled.now.profiles unread.now profile.now pattern.now) rules.now) }
{
    for rule in rules {
        if rule_is_open(alloc, compiled, unread, profile, pattern, rule)? {
            return Ok(true);
        }
    }
    Ok(false)
}

/// Whether profiles that weren't read could change what is answered to executions at a label.
#[tactic(auto, unfolding(crate::specs::Doubts::is_open_word))]
fn execs_are_open(
    alloc: Global,
    compiled: &Compiled,
    unread: &Unread,
    label: Label,
    word: &ExecsWord,
) -> Result<bool, AllocError>
    ensures { IfOk result (λ b. b ≡ is_open_word compiled.now.profiles unread.now label (Word.Execs word.now)) }
{
    let Label::Confined(_, number) = label else {
        return Ok(may_attach(&word.pattern, unread));
    };
    match compiled.policy().profiles.as_slice().get(number as usize) {
        Some(profile) => {
            let rules = profile.files.as_slice();
            one_rule_is_open(alloc, compiled, unread, profile, &word.pattern, rules)
        }
        None => Ok(true),
    }
}

/// Whether the label is one of a profile that isn't there.
fn is_nobodys(compiled: &Compiled, label: Label) -> bool
    ensures { result ≡ is_nobodys compiled.now.profiles label }
{
    match label {
        Label::Unconfined(_) => false,
        Label::Confined(_, number) => {
            let profiles = compiled.policy().profiles.as_slice();
            profiles.get(number as usize).is_none()
        }
    }
}

/// Whether profiles that weren't read could change what is answered to a request of the word at a label. Where they could not, that is
/// so of each of its requests (`closed_words_are_decided`); where they could, it may be so of all the same.
#[tactic(auto, unfolding(crate::specs::Doubts::is_open_word))]
pub fn word_is_open(
    alloc: Global,
    compiled: &Compiled,
    unread: &Unread,
    label: Label,
    word: &Word,
) -> Result<bool, AllocError>
    ensures { IfOk result (λ b. b ≡ is_open_word compiled.now.profiles unread.now label word.now) }
{
    match word {
        Word::One(request) => is_undecided(alloc, compiled, unread, label, request),
        Word::Execs(word) => execs_are_open(alloc, compiled, unread, label, word),
        Word::Files(_) => Ok(is_nobodys(compiled, label)),
    }
}

/// Where profiles that weren't read could change nothing of a word, none of its requests is undecided. It does nothing: its contract is
/// a law of the definitions.
pub fn closed_words_are_decided()
    ensures { ClosedWords }
{}
