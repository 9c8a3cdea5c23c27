//! What rules say, beside the patterns by which they say it.

ghost use Rattle.std.specs.Prelude.{◌≡◌, ◌++◌, map, OnOk, IfOk, option_map, position};
ghost use Rattle.std.specs.Option.{option_and_then};
ghost use Rattle.aa_compile.specs.Ways.{names, way_by};
ghost use Rattle.aa_compile.specs.Marks.{mark_by};
ghost use Rattle.aa_redundancy.specs.Marks.{mark_with, rule_mark, marks_from, plain_mark};

use aa_base::{Perms, Text};
use aa_compile::{Mark, Way};
use aa_model::{Exec, FileRule};
use aa_pattern::Pattern;
use std::alloc::{AllocError, Global};

/// What a rule says where a pattern of it matches, or where it holds.
#[derive(Clone, Copy, Debug, PartialEq, Eq)]
pub struct RuleMark {
    /// The number of the rule.
    pub rule: usize,
    pub mark: Mark,
}

/// Whether the rule names that profile behind its arrow.
fn names(rule: &FileRule, name: &[u8]) -> bool
    ensures { result ≡ names name.now rule.now }
{
    let Some(exec) = &rule.exec else {
        return false;
    };
    match &exec.target {
        Some(target) => target.as_slice() == name,
        None => false,
    }
}

/// The number of the first rule that names that profile.
fn first_naming(rules: &[FileRule], name: &[u8]) -> Option<usize>
    ensures { result ≡ position (names name.now) rules.now }
{
    rules.iter().position(|rule| names(rule, name))
}

/// The number of the first rule that names the profile, if there is one behind the arrow.
fn target_of(rules: &[FileRule], target: &Option<Text>) -> Option<usize>
    ensures { result ≡ option_and_then (λ t. position (names t) rules.now) target.now }
{
    match target {
        Some(target) => first_naming(rules, target.as_slice()),
        None => None,
    }
}

/// How a program is executed, with a number for the name.
fn way_of(rules: &[FileRule], exec: &Exec) -> Way
    ensures { result ≡ way_by rules.now exec.now }
{
    Way {
        kind: exec.kind,
        scrub: exec.scrub,
        fallback: exec.fallback,
        target: target_of(rules, &exec.target),
    }
}

fn way_of_rule(rules: &[FileRule], rule: &FileRule) -> Option<Way>
    ensures { result ≡ option_map (way_by rules.now) rule.now.exec }
{
    match &rule.exec {
        Some(exec) => Some(way_of(rules, exec)),
        None => None,
    }
}

fn mark_of(rule: &FileRule, way: Option<Way>, pattern: &Pattern) -> Mark
    ensures { result ≡ mark_by rule.now way pattern.now }
{
    Mark {
        audit: rule.audit,
        deny: rule.deny,
        owner: rule.owner,
        perms: rule.perms,
        way,
        literal: pattern.is_literal(),
    }
}

fn rule_mark(number: usize, rule: &FileRule, way: Option<Way>, pattern: &Pattern) -> RuleMark
    ensures { result ≡ mark_with number rule.now way pattern.now }
{
    RuleMark {
        rule: number,
        mark: mark_of(rule, way, pattern),
    }
}

/// Adds a mark for each pattern of the rule.
fn add_marks(
    marks: &mut Vec<RuleMark>,
    number: usize,
    rule: &FileRule,
    way: Option<Way>,
) -> Result<(), AllocError>
    ensures { OnOk result (marks.new.items ≡ marks.old.items ++ map (mark_with number rule.now way) rule.now.patterns) }
{
    for pattern in rule.patterns.as_slice() {
        marks.push(rule_mark(number, rule, way, pattern))?;
    }
    Ok(())
}

/// Adds them with the number for how the rule says to execute.
fn add_rule(
    marks: &mut Vec<RuleMark>,
    rules: &[FileRule],
    number: usize,
    rule: &FileRule,
) -> Result<(), AllocError>
    ensures { OnOk result (marks.new.items ≡ marks.old.items ++ map (rule_mark (way_by rules.now) number rule.now) rule.now.patterns) }
{
    let way = way_of_rule(rules, rule);
    add_marks(marks, number, rule, way)
}

/// A mark for each pattern of the rules, in order.
pub(crate) fn marks_of_files(alloc: Global, rules: &[FileRule]) -> Result<Vec<RuleMark>, AllocError>
    ensures { IfOk result (λ marks. marks.items ≡ marks_from (way_by rules.now) 0 rules.now) }
{
    let mut marks = Vec::new(alloc);
    for number in 0..rules.len() {
        add_rule(&mut marks, rules, number, &rules[number])?;
    }
    Ok(marks)
}

/// The mark of a rule that isn't about files.
pub(crate) fn plain_mark(number: usize, audit: bool, deny: bool) -> RuleMark
    ensures { result ≡ plain_mark number audit deny }
{
    RuleMark {
        rule: number,
        mark: Mark {
            audit,
            deny,
            owner: false,
            perms: Perms(1),
            way: None,
            literal: false,
        },
    }
}
