//! The places by which findings stand: those of the first rules that account for them.

ghost use Rattle.std.specs.Prelude.{◌≡◌, option_map};
ghost use Rattle.std.specs.Option.{option_cmp};
ghost use Rattle.aa_diff.specs.Rules.{rule_cmp};
ghost use Rattle.aa_diff.specs.Places.{first_rule, side_number, place_cmp};

use crate::finding::Finding;
use crate::rules::{Rule, compare_rules};
use std::cmp::Ordering;

/// How rules compare that there may be: none goes first.
fn compare_found(one: Option<&Rule>, other: Option<&Rule>) -> Ordering
    ensures { result ≡ option_cmp rule_cmp (option_map (λ r. r.now) one.entry) (option_map (λ r. r.now) other.entry) }
{
    match (one, other) {
        (Some(one), Some(other)) => compare_rules(one, other),
        (Some(_), None) => Ordering::Greater,
        (None, Some(_)) => Ordering::Less,
        (None, None) => Ordering::Equal,
    }
}

/// The rule that a finding stands by: the first of the new policy, or else the first of the old one.
fn first_rule(finding: &Finding) -> Option<&Rule>
    ensures { option_map (λ r. r.now) result ≡ first_rule finding.entry.now }
{
    match finding.new_rules.as_slice().first() {
        Some(rule) => Some(rule),
        None => finding.old_rules.as_slice().first(),
    }
}

/// Where that rule is: in the new policy, in the old one, or in none.
fn side_number(finding: &Finding) -> u8
    ensures { result ≡ side_number finding.now }
{
    if !finding.new_rules.as_slice().is_empty() {
        return 0;
    }
    if finding.old_rules.as_slice().is_empty() {
        2
    } else {
        1
    }
}

/// Findings go by their places: by rules of the new policy, then by rules of the old one, then those without a rule.
pub(crate) fn compare_places(one: &Finding, other: &Finding) -> Ordering
    ensures { result ≡ place_cmp one.now other.now }
{
    let by_side = side_number(one).cmp(&side_number(other));
    by_side.then(compare_found(first_rule(one), first_rule(other)))
}
