//! Rules by which a program can run unconfined.

ghost use Rattle.std.specs.Prelude.{◌≡◌};
ghost use Rattle.std.specs.List.{list_any};
ghost use Rattle.aa_findings.specs.Rules.{ends_unconfined, lets_free, denies_all, is_any_profile};

use aa_model::{ChangeRule, Exec, ExecKind, Fallback, FileRule};

fn ends_unconfined(exec: &Exec) -> bool
    ensures { result ≡ ends_unconfined exec.now }
{
    matches!(exec.kind, ExecKind::Unconfined) || matches!(exec.fallback, Fallback::Unconfined)
}

/// Whether what the rule lets execute may end unconfined.
pub(crate) fn lets_free(rule: &FileRule) -> bool
    ensures { result ≡ lets_free rule.now }
{
    match &rule.exec {
        Some(exec) => !rule.deny && ends_unconfined(exec),
        None => false,
    }
}

fn denies_all(rule: &ChangeRule) -> bool
    ensures { result ≡ denies_all rule.now }
{
    rule.deny && rule.pattern.is_none()
}

/// Whether one of the rules denies each name.
fn are_all_denied(rules: &[ChangeRule]) -> bool
    ensures { result ≡ list_any denies_all rules.now }
{
    rules.iter().any(|rule| denies_all(rule))
}

/// Whether the rule lets change to each name, and none denies each.
pub(crate) fn is_any_profile(rules: &[ChangeRule], rule: &ChangeRule) -> bool
    ensures { result ≡ is_any_profile rules.now rule.now }
{
    !rule.deny && rule.pattern.is_none() && !are_all_denied(rules)
}
