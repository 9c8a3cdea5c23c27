//! What is found of rules on capabilities and on sockets.

ghost use Rattle.std.specs.Prelude.{◌≡◌, ◌==◌, ◌&&◌, position};
ghost use Rattle.std.specs.List.{list_any};
ghost use Rattle.aa_findings.specs.Sorts.{same_caps, allows_cap, is_idle_cap, same_nets, allows_net, is_idle_net};

use crate::sameness::same;
use aa_model::{CapRule, NetRule};
use bitflags::Flags;

fn same_caps(rule: &CapRule, other: &CapRule) -> bool
    ensures { result ≡ same_caps rule.now other.now }
{
    same(rule.audit, other.audit) && same(rule.deny, other.deny) && rule.caps.0 == other.caps.0
}

/// The first of these rules that says what the rule says.
pub(crate) fn repeated_cap(rules: &[CapRule], rule: &CapRule) -> Option<usize>
    ensures { result ≡ position (same_caps rule.now) rules.now }
{
    rules.iter().position(|other| same_caps(rule, other))
}

/// Whether another rule allows some of what the rule names.
fn allows_cap(rule: &CapRule, other: &CapRule) -> bool
    ensures { result ≡ allows_cap rule.now other.now }
{
    !other.deny && rule.caps.intersects(other.caps)
}

fn is_cap_allowed(rules: &[CapRule], rule: &CapRule) -> bool
    ensures { result ≡ list_any (allows_cap rule.now) rules.now }
{
    rules.iter().any(|other| allows_cap(rule, other))
}

/// Whether the rule denies, in a profile that doesn't complain, and nothing that another allows.
pub(crate) fn is_idle_cap(complain: bool, rules: &[CapRule], rule: &CapRule) -> bool
    ensures { result ≡ is_idle_cap complain rules.now rule.now }
{
    !complain && rule.deny && !is_cap_allowed(rules, rule)
}

fn same_nets(rule: &NetRule, other: &NetRule) -> bool
    ensures { result ≡ same_nets rule.now other.now }
{
    same(rule.audit, other.audit)
        && same(rule.deny, other.deny)
        && rule.families == other.families
        && rule.kinds == other.kinds
}

/// The first of these rules that says what the rule says.
pub(crate) fn repeated_net(rules: &[NetRule], rule: &NetRule) -> Option<usize>
    ensures { result ≡ position (same_nets rule.now) rules.now }
{
    rules.iter().position(|other| same_nets(rule, other))
}

/// Whether another rule allows some of what the rule names.
fn allows_net(rule: &NetRule, other: &NetRule) -> bool
    ensures { result ≡ allows_net rule.now other.now }
{
    !other.deny && rule.families & other.families != 0 && rule.kinds & other.kinds != 0
}

fn is_net_allowed(rules: &[NetRule], rule: &NetRule) -> bool
    ensures { result ≡ list_any (allows_net rule.now) rules.now }
{
    rules.iter().any(|other| allows_net(rule, other))
}

/// Whether the rule denies, in a profile that doesn't complain, and nothing that another allows.
pub(crate) fn is_idle_net(complain: bool, rules: &[NetRule], rule: &NetRule) -> bool
    ensures { result ≡ is_idle_net complain rules.now rule.now }
{
    !complain && rule.deny && !is_net_allowed(rules, rule)
}
