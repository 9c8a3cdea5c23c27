//! The report of the differences of two policies.

ghost use Rattle.std.specs.Prelude.{◌≡◌, ◌++◌, ◌==◌, [], None, codes, count_by, flat_map, map, length, OnOk, IfOk};
ghost use Rattle.std.specs.List.{list_any};
ghost use Rattle.std.specs.Str.{bytes_eq};
ghost use Rattle.aa_files.specs.Texts.{texts};
ghost use Rattle.aa_compile.specs.Labels.{first_profiles};
ghost use Rattle.aa_diff.specs.Findings.{is_counted};
ghost use Rattle.aa_passed_over.specs.Apart.{apart};
ghost use Rattle.aa_diff.specs.Lines.{told};
ghost use Rattle.aa_diff.specs.Named.{is_named};
ghost use Rattle.aa_diff.specs.Untold.{doubts_data};
ghost use Rattle.aa_diff.specs.Report.{called, is_wanted, wanted_of, shown_of, lines_of, headed_next, is_of_different, headed, is_profile_with, profiles_counted, count_text, of_number, profile_counts, signed_count, line_counts, is_rule_wanted, rule_wanted_of, rules_shown, rules_count, lines_text, counts_text, report_of, report_text};

use crate::finding::{Finding, copy_of, is_counted, is_profile};
use crate::gathering::gather;
use crate::joining::join_all;
use crate::lines::{Line, does_line_count, label_of, lines_with};
use crate::options::Wanted;
use crate::printing::{is_behind, name_asked, push_confined, push_free, push_profiles};
use crate::signs::{Sign, sign_number};
use crate::untold::Doubts;
use crate::untold_shown::{push_skipped, push_untold};
use aa_ask::is_confined;
use aa_command::Decided;
use aa_compile::{Compiled, first_profiles, name_of_label};
use aa_differences::Difference;
use aa_model::Label;
use aa_passed_over::{Apart, copy_of as copy_apart};
use aa_text::{push_number, push_text};
use std::alloc::{AllocError, Global};

/// The name of the profile that a finding is about, or `unconfined`.
fn called<'f>(policies: &'f [Compiled], finding: &'f Finding) -> &'f [u8]
    ensures { result.now ≡ called policies.now finding.now }
{
    if is_profile(finding) {
        return name_asked(&finding.request);
    }
    name_of_label(policies, finding.from)
}

fn is_among(names: &[Vec<u8>], name: &[u8]) -> bool
    ensures { result ≡ list_any (λ n. bytes_eq n.items name.now) names.now }
{
    names.iter().any(|known| known.as_slice() == name)
}

pub(crate) fn is_named(names: &[Vec<u8>], name: &[u8]) -> bool
    ensures { result ≡ is_named (texts names.now) name.now }
{
    names.is_empty() || is_among(names, name)
}

fn is_wanted(policies: &[Compiled], wanted: Wanted<'_>, finding: &Finding) -> bool
    ensures { result ≡ is_wanted policies.now wanted.entry finding.now }
{
    (!wanted.gains || sign_number(finding.sign) == 0)
        && is_named(wanted.profiles, called(policies, finding))
}

fn add_wanted(
    alloc: Global,
    policies: &[Compiled],
    wanted: Wanted<'_>,
    finding: &Finding,
    shown: &mut Vec<Finding>,
) -> Result<(), AllocError>
    ensures { OnOk result (shown.new.items ≡ shown.old.items ++ wanted_of policies.now wanted.entry finding.now) }
{
    if is_wanted(policies, wanted, finding) {
        shown.push(copy_of(alloc, finding)?)?;
    }
    Ok(())
}

/// Those of the findings that are wanted.
pub(crate) fn shown_of(
    alloc: Global,
    policies: &[Compiled],
    wanted: Wanted<'_>,
    findings: &[Finding],
) -> Result<Vec<Finding>, AllocError>
    ensures { IfOk result (λ fs. fs.items ≡ shown_of policies.now wanted.entry findings.now) }
{
    let mut shown = Vec::new(alloc);
    for finding in findings {
        add_wanted(alloc, policies, wanted, finding, &mut shown)?;
    }
    Ok(shown)
}

/// Whether a rule that is passed over is shown.
fn is_rule_wanted(policies: &[Compiled], wanted: Wanted<'_>, rule: &Apart) -> bool
    ensures { result ≡ is_rule_wanted policies.now wanted.entry (apart rule.now) }
{
    let label = Label::Confined(0, rule.profile);
    is_named(wanted.profiles, name_of_label(policies, label))
}

fn add_rule_wanted(
    alloc: Global,
    policies: &[Compiled],
    wanted: Wanted<'_>,
    rule: &Apart,
    shown: &mut Vec<Apart>,
) -> Result<(), AllocError>
    ensures { OnOk result (map apart shown.new.items ≡ map apart shown.old.items ++ rule_wanted_of policies.now wanted.entry (apart rule.now)) }
{
    if is_rule_wanted(policies, wanted, rule) {
        shown.push(copy_apart(alloc, rule)?)?;
    }
    Ok(())
}

/// Those of the rules that are shown.
pub(crate) fn rules_shown(
    alloc: Global,
    policies: &[Compiled],
    wanted: Wanted<'_>,
    rules: &[Apart],
) -> Result<Vec<Apart>, AllocError>
    ensures { IfOk result (λ rs. map apart rs.items ≡ rules_shown policies.now wanted.entry (map apart rules.now)) }
{
    let mut shown = Vec::new(alloc);
    for rule in rules {
        add_rule_wanted(alloc, policies, wanted, rule, &mut shown)?;
    }
    Ok(shown)
}

/// The findings that differences are, joined as far as they can be.
#[tactic(auto, unfolding(crate::specs::Report::lines_of))]
pub(crate) fn lines_of(
    alloc: Global,
    old: Decided<'_>,
    new: Decided<'_>,
    differences: &[Difference],
) -> Result<Vec<Finding>, AllocError>
    ensures { IfOk result (λ fs. fs.items ≡ lines_of old.entry new.entry differences.now) }
{
    let gathered = gather(alloc, old, new, differences)?;
    let joined = join_all(alloc, gathered.as_slice())?;
    join_all(alloc, joined.as_slice())
}

/// Counts a profile more where the line before is of another.
fn headed_next(count: u64, before: Option<Label>, label: Label) -> u64
    ensures { result ≡ headed_next count before label }
{
    if is_behind(before, label) {
        return count;
    }
    count.saturating_add(1)
}

/// Whether a line is about a profile, and counts.
fn is_of_different(line: Line<'_>) -> bool
    ensures { result ≡ is_of_different (told line.entry) }
{
    is_confined(label_of(line)) && does_line_count(line)
}

/// How many profiles have lines that count.
pub(crate) fn headed(lines: &[Line<'_>]) -> u64
    ensures { result ≡ headed 0 None (map told lines.now) }
{
    let mut count: u64 = 0;
    let mut before: Option<Label> = None;
    let mut rest = lines;
    while let [line, after @ ..] = rest {
        if is_of_different(*line) {
            count = headed_next(count, before, label_of(*line));
            before = Some(label_of(*line));
        }
        rest = after;
    }
    count
}

/// Whether a profile is gone, or new.
pub(crate) fn is_profile_with(sign: Sign, finding: &Finding) -> bool
    ensures { result ≡ is_profile_with sign finding.now }
{
    is_profile(finding) && sign_number(finding.sign) == sign_number(sign)
}

/// How many profiles are gone, or new.
pub(crate) fn count_profiles(sign: Sign, findings: &[Finding]) -> usize
    ensures { result ≡ count_by (is_profile_with sign) findings.now }
{
    findings
        .iter()
        .filter(|finding| is_profile_with(sign, finding))
        .count()
}

/// How many lines that count have a sign.
pub(crate) fn count_lines(sign: Sign, findings: &[Finding]) -> usize
    ensures { result ≡ count_by (is_counted sign) findings.now }
{
    findings
        .iter()
        .filter(|finding| is_counted(sign, finding))
        .count()
}

/// How many profiles are in one policy or the other, without so many of the first that aren't compared.
pub(crate) fn profiles_counted(
    policies: &[Compiled],
    left_out: usize,
    findings: &[Finding],
) -> usize
    ensures { result ≡ profiles_counted policies.now left_out findings.now }
{
    first_profiles(policies)
        .len()
        .saturating_sub(left_out)
        .saturating_add(count_profiles(Sign::Gain, findings))
}

/// Appends a number, and what it counts.
#[tactic(auto, unfolding(crate::specs::Report::count_text))]
fn push_count(out: &mut Vec<u8>, count: usize, what: &str) -> Result<(), AllocError>
    ensures { OnOk result (out.new.items ≡ out.old.items ++ count_text count what.now) }
{
    push_number(out, count)?;
    push_text(out, what)
}

/// What a number counts: one, or more.
fn of_number<'w>(count: usize, one: &'w str, more: &'w str) -> &'w str
    ensures { result.now ≡ of_number count one.entry.now more.entry.now }
{
    if count == 1 { one } else { more }
}

/// Appends how many profiles are compared.
#[tactic(auto, unfolding(crate::specs::Report::count_text))]
fn push_compared(
    out: &mut Vec<u8>,
    policies: &[Compiled],
    left_out: usize,
    findings: &[Finding],
) -> Result<(), AllocError>
    ensures { OnOk result (out.new.items ≡ out.old.items ++ count_text (profiles_counted policies.now left_out findings.now) (of_number (profiles_counted policies.now left_out findings.now) (codes " profile compared: ") (codes " profiles compared: "))) }
{
    let count = profiles_counted(policies, left_out, findings);
    push_number(out, count)?;
    push_text(
        out,
        of_number(count, " profile compared: ", " profiles compared: "),
    )
}

/// Appends how many profiles differ.
#[tactic(auto, unfolding(crate::specs::Report::count_text))]
fn push_headed(out: &mut Vec<u8>, lines: &[Line<'_>]) -> Result<(), AllocError>
    ensures { OnOk result (out.new.items ≡ out.old.items ++ count_text (headed 0 None (map told lines.now)) (of_number (headed 0 None (map told lines.now)) (codes " differs, ") (codes " differ, "))) }
{
    let count = headed(lines);
    push_number(out, count)?;
    push_text(
        out,
        if count == 1 {
            " differs, "
        } else {
            " differ, "
        },
    )
}

/// Appends how many profiles differ, are gone and are new.
pub(crate) fn push_profile_counts(
    out: &mut Vec<u8>,
    policies: &[Compiled],
    left_out: usize,
    lines: &[Line<'_>],
    findings: &[Finding],
) -> Result<(), AllocError>
    ensures { OnOk result (out.new.items ≡ out.old.items ++ profile_counts policies.now left_out (map told lines.now) findings.now) }
{
    push_compared(out, policies, left_out, findings)?;
    push_headed(out, lines)?;
    push_count(out, count_profiles(Sign::Loss, findings), " gone, ")?;
    push_count(out, count_profiles(Sign::Gain, findings), " new; ")
}

/// Appends how many lines that count have a sign, and what they do.
fn push_signed(
    out: &mut Vec<u8>,
    sign: Sign,
    findings: &[Finding],
    one: &str,
    more: &str,
) -> Result<(), AllocError>
    ensures { OnOk result (out.new.items ≡ out.old.items ++ signed_count sign findings.now one.now more.now) }
{
    let count = count_lines(sign, findings);
    push_count(out, count, of_number(count, one, more))
}

/// Appends how many lines that count have each sign.
pub(crate) fn push_line_counts(out: &mut Vec<u8>, findings: &[Finding]) -> Result<(), AllocError>
    ensures { OnOk result (out.new.items ≡ out.old.items ++ line_counts findings.now) }
{
    push_text(out, "lines: ")?;
    push_signed(out, Sign::Gain, findings, " gains, ", " gain, ")?;
    push_signed(out, Sign::Loss, findings, " loses, ", " lose, ")?;
    push_count(out, count_lines(Sign::Other, findings), " other")
}

/// Appends how many rules that are passed over one policy alone has, if there are any.
pub(crate) fn push_rules_count(out: &mut Vec<u8>, count: usize) -> Result<(), AllocError>
    ensures { OnOk result (out.new.items ≡ out.old.items ++ rules_count count) }
{
    if count == 0 {
        return push_text(out, "\n");
    }
    push_text(out, ", ")?;
    push_count(out, count, " passed over\n")
}

/// Appends the lines of each profile, profiles that are gone or new, and the findings of unconfined tasks.
fn push_lines(
    out: &mut Vec<u8>,
    alloc: Global,
    policies: &[Compiled],
    lines: &[Line<'_>],
    findings: &[Finding],
) -> Result<(), AllocError>
    ensures { OnOk result (out.new.items ≡ out.old.items ++ lines_text policies.now (map told lines.now) findings.now) }
{
    push_confined(out, alloc, policies, lines)?;
    push_profiles(out, alloc, findings)?;
    push_free(out, alloc, findings)
}

/// Appends how many there are.
fn push_counts(
    out: &mut Vec<u8>,
    policies: &[Compiled],
    left_out: usize,
    lines: &[Line<'_>],
    findings: &[Finding],
    rules: usize,
) -> Result<(), AllocError>
    ensures { OnOk result (out.new.items ≡ out.old.items ++ counts_text policies.now left_out (map told lines.now) findings.now rules) }
{
    push_profile_counts(out, policies, left_out, lines, findings)?;
    push_line_counts(out, findings)?;
    push_rules_count(out, rules)
}

/// Appends the lines, what isn't told, how many there are, and how many files are skipped.
fn push_report_of(
    out: &mut Vec<u8>,
    alloc: Global,
    policies: &[Compiled],
    lines: &[Line<'_>],
    findings: &[Finding],
    rules: usize,
    doubts: &Doubts,
) -> Result<(), AllocError>
    ensures { OnOk result (out.new.items ≡ out.old.items ++ report_of policies.now (map told lines.now) findings.now rules (doubts_data doubts.now)) }
{
    push_lines(out, alloc, policies, lines, findings)?;
    push_untold(out, alloc, doubts)?;
    push_counts(out, policies, doubts.left_out, lines, findings, rules)?;
    push_skipped(out, doubts)
}

/// Appends the report of findings, of rules that are passed over and that one policy alone has, and of what isn't told.
pub(crate) fn push_report(
    out: &mut Vec<u8>,
    alloc: Global,
    policies: &[Compiled],
    findings: &[Finding],
    rules: &[Apart],
    doubts: &Doubts,
) -> Result<(), AllocError>
    ensures { OnOk result (out.new.items ≡ out.old.items ++ report_text policies.now findings.now (map apart rules.now) (doubts_data doubts.now)) }
{
    let lines = lines_with(alloc, policies, findings, rules)?;
    push_report_of(
        out,
        alloc,
        policies,
        lines.as_slice(),
        findings,
        rules.len(),
        doubts,
    )
}
