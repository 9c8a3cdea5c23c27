//! The lines of profiles that both policies have.

ghost use Rattle.std.specs.Prelude.{◌≡◌, ◌++◌, map, OnOk, IfOk};
ghost use Rattle.aa_passed_over.specs.Apart.{apart};
ghost use Rattle.aa_diff.specs.Lines.{Found, PassedOver, told, part_of, line_cmp, stands_above, lines_with, label_of, does_line_count};
ghost use Rattle.aa_diff.specs.Sorted.{sorted_by};

use crate::finding::{Finding, does_count};
use crate::order::compare_names;
use aa_compile::Compiled;
use aa_model::Label;
use aa_passed_over::Apart;
use std::alloc::{AllocError, Global};
use std::cmp::Ordering;

/// A line about a profile: a finding, or a rule that is passed over and that one policy alone has.
#[derive(Clone, Copy, Drop)]
pub(crate) enum Line<'a> {
    Found(&'a Finding),
    PassedOver(&'a Apart),
}

/// The label that a line is about.
pub(crate) fn label_of(line: Line<'_>) -> Label
    ensures { result ≡ label_of (told line.entry) }
{
    match line {
        Line::Found(finding) => finding.from,
        Line::PassedOver(rule) => Label::Confined(0, rule.profile),
    }
}

/// Whether a line is a finding that counts, or a rule.
pub(crate) fn does_line_count(line: Line<'_>) -> bool
    ensures { result ≡ does_line_count (told line.entry) }
{
    match line {
        Line::Found(finding) => does_count(finding),
        Line::PassedOver(_) => true,
    }
}

/// Of one label findings that count go first, then rules that are passed over, then the other findings.
fn part_of(line: Line<'_>) -> u8
    ensures { result ≡ part_of (told line.entry) }
{
    match line {
        Line::Found(finding) => { if does_count(finding) { 0 } else { 2 } }
        Line::PassedOver(_) => 1,
    }
}

fn compare_lines(policies: &[Compiled], one: Line<'_>, other: Line<'_>) -> Ordering
    ensures { result ≡ line_cmp policies.now (told one.entry) (told other.entry) }
{
    let by_name = compare_names(policies, label_of(one), label_of(other));
    by_name.then(part_of(one).cmp(&part_of(other)))
}

/// Adds findings.
fn push_found<'a>(lines: &mut Vec<Line<'a>>, findings: &'a [Finding]) -> Result<(), AllocError>
    ensures { OnOk result (map told lines.new.items ≡ map told lines.old.items ++ map Found findings.entry.now) }
{
    for finding in findings {
        lines.push(Line::Found(finding))?;
    }
    Ok(())
}

/// Adds rules.
fn push_all<'a>(lines: &mut Vec<Line<'a>>, rules: &'a [Apart]) -> Result<(), AllocError>
    ensures { OnOk result (map told lines.new.items ≡ map told lines.old.items ++ map PassedOver (map apart rules.entry.now)) }
{
    for rule in rules {
        lines.push(Line::PassedOver(rule))?;
    }
    Ok(())
}

/// Lines by the names of their labels.
fn by_label<'a>(
    policies: &[Compiled],
    mut lines: Vec<Line<'a>>,
) -> Result<Vec<Line<'a>>, AllocError>
    ensures { IfOk result (λ ordered. map told ordered.items ≡ sorted_by (stands_above policies.now) (map told lines.entry.items)) }
{
    lines.sort_by(|one, other| compare_lines(policies, *one, *other))?;
    Ok(lines)
}

/// Findings, and each rule behind those of its profile that count.
pub(crate) fn lines_with<'a>(
    alloc: Global,
    policies: &[Compiled],
    findings: &'a [Finding],
    rules: &'a [Apart],
) -> Result<Vec<Line<'a>>, AllocError>
    ensures { IfOk result (λ lines. map told lines.items ≡ lines_with policies.now findings.entry.now (map apart rules.entry.now)) }
{
    let mut lines = Vec::new(alloc);
    push_found(&mut lines, findings)?;
    push_all(&mut lines, rules)?;
    by_label(policies, lines)
}
