//! The order of lines: by the names of their labels; of one label those that count go first, of these gains, losses, what is reported no more, and
//! the rest, each of these by the places of their rules, and of one place by their first requests.

ghost use Rattle.std.specs.Prelude.{◌≡◌, IfOk};
ghost use Rattle.aa_diff.specs.Order.{name_cmp, part_number, profile_rank, line_rank, rank, finding_cmp, in_order};

use crate::finding::{Finding, is_profile, is_uncounted};
use crate::places::compare_places;
use crate::signs::sign_number;
use crate::witness::compare_witnesses;
use aa_compile::{Compiled, name_of_label};
use aa_model::Label;
use std::alloc::AllocError;
use std::cmp::Ordering;

/// Labels go by their names in byte order.
pub(crate) fn compare_names(policies: &[Compiled], one: Label, other: Label) -> Ordering
    ensures { result ≡ name_cmp policies.now one other }
{
    name_of_label(policies, one).cmp(name_of_label(policies, other))
}

/// Findings that don't count go behind the others.
fn part_number(finding: &Finding) -> u8
    ensures { result ≡ part_number finding.now }
{
    if is_uncounted(finding) { 1 } else { 0 }
}

/// Profiles: those that are gone, then those that are new, then the rest.
fn profile_rank(finding: &Finding) -> u8
    ensures { result ≡ profile_rank finding.now }
{
    let sign = sign_number(finding.sign);
    if sign == 1 {
        return 0;
    }
    if sign == 0 { 1 } else { 2 }
}

/// Lines: gains, then losses, then what was reported and is no more, then the rest.
fn line_rank(finding: &Finding) -> u8
    ensures { result ≡ line_rank finding.now }
{
    let sign = sign_number(finding.sign);
    if sign == 2 {
        return if finding.unreported { 2 } else { 3 };
    }
    sign
}

/// What a finding is among those of its label.
fn rank(finding: &Finding) -> u8
    ensures { result ≡ rank finding.now }
{
    if is_profile(finding) {
        profile_rank(finding)
    } else {
        line_rank(finding)
    }
}

fn compare_findings(policies: &[Compiled], one: &Finding, other: &Finding) -> Ordering
    ensures { result ≡ finding_cmp policies.now one.now other.now }
{
    let by_name = compare_names(policies, one.from, other.from);
    let by_part = part_number(one).cmp(&part_number(other));
    let by_rank = rank(one).cmp(&rank(other));
    let by_place = compare_places(one, other);
    by_name.then(by_part.then(by_rank.then(by_place.then(compare_witnesses(one, other)))))
}

/// The findings in this order.
pub(crate) fn in_order(
    policies: &[Compiled],
    mut findings: Vec<Finding>,
) -> Result<Vec<Finding>, AllocError>
    ensures { IfOk result (λ fs. fs.items ≡ in_order policies.now findings.items) }
{
    findings.sort_by(|one, other| compare_findings(policies, one, other))?;
    Ok(findings)
}
