//! Findings that are accepted.

ghost use Rattle.std.specs.Prelude.{◌≡◌, ◌++◌, codes, map, flat_map, OnOk, IfOk};
ghost use Rattle.aa_files.specs.Texts.{texts, slices};
ghost use Rattle.aa_report.specs.Sets.{AreIn};
ghost use Rattle.aa_passed_over.specs.Apart.{apart};
ghost use Rattle.aa_diff.specs.Accepted.{heading_of, finding_entry, rule_entry, found_entries, finding_left, rule_left, findings_left, rules_left, gone_of};

use crate::finding::{Finding, is_profile};
use crate::options::Wanted;
use crate::printing::{push_finding_part, push_profile_part, push_rule_part};
use crate::report::{rules_shown, shown_of};
use aa_ask::is_confined;
use aa_compile::{Compiled, name_of_label};
use aa_model::Label;
use aa_passed_over::Apart;
use aa_report::{is_among, lines_as_set, push_all_gone, slices_of};
use aa_text::{push_name, push_text};
use std::alloc::{AllocError, Global};
use std::collections::HashMap;

fn push_heading_of(
    out: &mut Vec<u8>,
    alloc: Global,
    policies: &[Compiled],
    label: Label,
) -> Result<(), AllocError>
    ensures { OnOk result (out.new.items ≡ out.old.items ++ heading_of policies.now label) }
{
    if !is_confined(label) {
        return push_text(out, "unconfined");
    }
    push_text(out, "profile ")?;
    push_name(out, alloc, name_of_label(policies, label))
}

fn push_block_start(
    out: &mut Vec<u8>,
    alloc: Global,
    policies: &[Compiled],
    label: Label,
) -> Result<(), AllocError>
    ensures { OnOk result (out.new.items ≡ out.old.items ++ (heading_of policies.now label ++ codes ": ")) }
{
    push_heading_of(out, alloc, policies, label)?;
    push_text(out, ": ")
}

fn push_finding_entry(
    out: &mut Vec<u8>,
    alloc: Global,
    policies: &[Compiled],
    finding: &Finding,
) -> Result<(), AllocError>
    ensures { OnOk result (out.new.items ≡ out.old.items ++ finding_entry policies.now finding.now) }
{
    if is_profile(finding) {
        return push_profile_part(out, alloc, finding);
    }
    push_block_start(out, alloc, policies, finding.from)?;
    push_finding_part(out, alloc, finding)
}

/// How a finding is accepted.
fn finding_entry(
    alloc: Global,
    policies: &[Compiled],
    finding: &Finding,
) -> Result<Vec<u8>, AllocError>
    ensures { IfOk result (λ entry. entry.items ≡ finding_entry policies.now finding.now) }
{
    let mut entry = Vec::new(alloc);
    push_finding_entry(&mut entry, alloc, policies, finding)?;
    Ok(entry)
}

fn push_rule_entry(
    out: &mut Vec<u8>,
    alloc: Global,
    policies: &[Compiled],
    rule: &Apart,
) -> Result<(), AllocError>
    ensures { OnOk result (out.new.items ≡ out.old.items ++ rule_entry policies.now (apart rule.now)) }
{
    push_block_start(out, alloc, policies, Label::Confined(0, rule.profile))?;
    push_rule_part(out, rule)
}

/// How a rule is accepted that is passed over.
fn rule_entry(alloc: Global, policies: &[Compiled], rule: &Apart) -> Result<Vec<u8>, AllocError>
    ensures { IfOk result (λ entry. entry.items ≡ rule_entry policies.now (apart rule.now)) }
{
    let mut entry = Vec::new(alloc);
    push_rule_entry(&mut entry, alloc, policies, rule)?;
    Ok(entry)
}

fn push_finding_entries(
    entries: &mut Vec<Vec<u8>>,
    alloc: Global,
    policies: &[Compiled],
    findings: &[Finding],
) -> Result<(), AllocError>
    ensures { OnOk result (texts entries.new.items ≡ texts entries.old.items ++ map (finding_entry policies.now) findings.now) }
{
    for finding in findings {
        entries.push(finding_entry(alloc, policies, finding)?)?;
    }
    Ok(())
}

fn push_rule_entries(
    entries: &mut Vec<Vec<u8>>,
    alloc: Global,
    policies: &[Compiled],
    rules: &[Apart],
) -> Result<(), AllocError>
    ensures { OnOk result (texts entries.new.items ≡ texts entries.old.items ++ map (rule_entry policies.now) (map apart rules.now)) }
{
    for rule in rules {
        entries.push(rule_entry(alloc, policies, rule)?)?;
    }
    Ok(())
}

/// How findings and rules that are passed over are accepted.
fn found_entries(
    alloc: Global,
    policies: &[Compiled],
    findings: &[Finding],
    rules: &[Apart],
) -> Result<Vec<Vec<u8>>, AllocError>
    ensures { IfOk result (λ entries. texts entries.items ≡ found_entries policies.now findings.now (map apart rules.now)) }
{
    let mut entries = Vec::new(alloc);
    push_finding_entries(&mut entries, alloc, policies, findings)?;
    push_rule_entries(&mut entries, alloc, policies, rules)?;
    Ok(entries)
}

/// Appends of which accepted findings there is none.
pub(crate) fn push_gone(
    out: &mut Vec<u8>,
    alloc: Global,
    policies: &[Compiled],
    accepted: &[Vec<u8>],
    findings: &[Finding],
    rules: &[Apart],
) -> Result<(), AllocError>
    ensures { OnOk result (out.new.items ≡ out.old.items ++ gone_of policies.now (texts accepted.now) findings.now (map apart rules.now)) }
{
    if accepted.is_empty() {
        return Ok(());
    }
    let found = found_entries(alloc, policies, findings, rules)?;
    let lines = slices_of(alloc, accepted)?;
    push_all_gone(out, alloc, found.as_slice(), lines.as_slice())
}

/// Adds a finding, unless it is accepted.
fn push_finding_left(
    left: &mut Vec<Finding>,
    alloc: Global,
    policies: &[Compiled],
    set: &HashMap<Vec<u8>, usize>,
    lines: &[&[u8]],
    finding: Finding,
) -> Result<(), AllocError>
    requires { AreIn set.now (slices lines.now) }
    ensures { OnOk result (left.new.items ≡ left.old.items ++ finding_left policies.now (slices lines.now) finding) }
{
    let entry = finding_entry(alloc, policies, &finding)?;
    if is_among(set, lines, entry.as_slice()) {
        return Ok(());
    }
    left.push(finding)?;
    Ok(())
}

/// The findings that aren't accepted.
fn without_accepted(
    alloc: Global,
    policies: &[Compiled],
    set: &HashMap<Vec<u8>, usize>,
    lines: &[&[u8]],
    findings: Vec<Finding>,
) -> Result<Vec<Finding>, AllocError>
    requires { AreIn set.now (slices lines.now) }
    ensures { IfOk result (λ left. left.items ≡ flat_map (finding_left policies.now (slices lines.now)) findings.items) }
{
    let mut left = Vec::new(alloc);
    for finding in findings {
        push_finding_left(&mut left, alloc, policies, set, lines, finding)?;
    }
    Ok(left)
}

/// The findings that are shown and not accepted.
pub(crate) fn findings_left(
    alloc: Global,
    policies: &[Compiled],
    wanted: Wanted<'_>,
    accepted: &[Vec<u8>],
    findings: &[Finding],
) -> Result<Vec<Finding>, AllocError>
    ensures { IfOk result (λ left. left.items ≡ findings_left policies.now wanted.entry (texts accepted.now) findings.now) }
{
    let lines = slices_of(alloc, accepted)?;
    let set = lines_as_set(alloc, lines.as_slice())?;
    let shown = shown_of(alloc, policies, wanted, findings)?;
    without_accepted(alloc, policies, &set, lines.as_slice(), shown)
}

/// Adds a rule, unless it is accepted.
fn push_rule_left(
    left: &mut Vec<Apart>,
    alloc: Global,
    policies: &[Compiled],
    set: &HashMap<Vec<u8>, usize>,
    lines: &[&[u8]],
    rule: Apart,
) -> Result<(), AllocError>
    requires { AreIn set.now (slices lines.now) }
    ensures { OnOk result (map apart left.new.items ≡ map apart left.old.items ++ rule_left policies.now (slices lines.now) (apart rule)) }
{
    let entry = rule_entry(alloc, policies, &rule)?;
    if is_among(set, lines, entry.as_slice()) {
        return Ok(());
    }
    left.push(rule)?;
    Ok(())
}

/// The rules that aren't accepted.
fn rules_without_accepted(
    alloc: Global,
    policies: &[Compiled],
    set: &HashMap<Vec<u8>, usize>,
    lines: &[&[u8]],
    rules: Vec<Apart>,
) -> Result<Vec<Apart>, AllocError>
    requires { AreIn set.now (slices lines.now) }
    ensures { IfOk result (λ left. map apart left.items ≡ flat_map (rule_left policies.now (slices lines.now)) (map apart rules.items)) }
{
    let mut left = Vec::new(alloc);
    for rule in rules {
        push_rule_left(&mut left, alloc, policies, set, lines, rule)?;
    }
    Ok(left)
}

/// The rules that are shown and not accepted.
pub(crate) fn rules_left(
    alloc: Global,
    policies: &[Compiled],
    wanted: Wanted<'_>,
    accepted: &[Vec<u8>],
    rules: &[Apart],
) -> Result<Vec<Apart>, AllocError>
    ensures { IfOk result (λ left. map apart left.items ≡ rules_left policies.now wanted.entry (texts accepted.now) (map apart rules.now)) }
{
    let lines = slices_of(alloc, accepted)?;
    let set = lines_as_set(alloc, lines.as_slice())?;
    let shown = rules_shown(alloc, policies, wanted, rules)?;
    rules_without_accepted(alloc, policies, &set, lines.as_slice(), shown)
}
