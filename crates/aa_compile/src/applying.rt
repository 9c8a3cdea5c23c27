//! Which rules speak of what is asked, rule by rule.

ghost use Rattle.std.specs.Prelude.{◌≡◌, ◌&&◌};
ghost use Rattle.aa_pattern.specs.Matching.{is_match};
ghost use Rattle.aa_compile.specs.Patterns.{is_literal};
ghost use Rattle.aa_compile.specs.FileRules.{any_sort, some_match, applies_by, says_how};
ghost use Rattle.aa_compile.specs.Holding.{holds, cap_holds, net_holds, change_holds};

use aa_base::{Cap, Family, SockType};
use aa_model::{CapRule, ChangeRule, FileRule, NetRule};
use aa_pattern::Pattern;

/// Whether the pattern matches the text.
pub fn is_matched(pattern: &Pattern, text: &[u8]) -> bool
    ensures { result ≡ is_match pattern.now.items.items text.now }
{
    pattern.matches(text)
}

fn matches_some(rule: &FileRule, path: &[u8]) -> bool
    ensures { result ≡ some_match any_sort path.now rule.now.patterns }
{
    rule.patterns
        .as_slice()
        .iter()
        .any(|pattern| is_matched(pattern, path))
}

fn is_literal(pattern: &Pattern) -> bool
    ensures { result ≡ is_literal pattern.now }
{
    pattern.is_literal()
}

fn is_literal_match(pattern: &Pattern, path: &[u8]) -> bool
    ensures { result ≡ (is_literal pattern.now && is_match pattern.now.items.items path.now) }
{
    is_literal(pattern) && is_matched(pattern, path)
}

/// Whether a pattern of bytes alone of the rule matches the path.
pub fn matches_literally(rule: &FileRule, path: &[u8]) -> bool
    ensures { result ≡ some_match is_literal path.now rule.now.patterns }
{
    rule.patterns
        .as_slice()
        .iter()
        .any(|pattern| is_literal_match(pattern, path))
}

/// Whether a rule applies to an object.
pub fn applies(rule: &FileRule, path: &[u8], owned: bool) -> bool
    ensures { result ≡ applies_by any_sort path.now owned rule.now }
{
    (owned || !rule.owner) && matches_some(rule, path)
}

/// Whether a rule applies to an object by a pattern of bytes alone.
pub fn applies_literally(rule: &FileRule, path: &[u8], owned: bool) -> bool
    ensures { result ≡ applies_by is_literal path.now owned rule.now }
{
    (owned || !rule.owner) && matches_literally(rule, path)
}

/// Whether a rule says how a program may be executed.
pub fn says_how(rule: &FileRule) -> bool
    ensures { result ≡ says_how rule.now }
{
    !rule.deny && rule.exec.is_some()
}

fn holds_bit(bits: u64, number: u8) -> bool
    ensures { result ≡ holds bits number }
{
    if number >= 64 {
        return false;
    }
    (bits >> number) & 1 == 1
}

/// Whether a rule names the capability.
pub fn holds_cap(rule: &CapRule, cap: Cap) -> bool
    ensures { result ≡ cap_holds cap rule.now }
{
    holds_bit(rule.caps.0, cap.number())
}

/// Whether a rule names both the family and the type.
pub fn holds_net(rule: &NetRule, family: Family, kind: SockType) -> bool
    ensures { result ≡ net_holds family kind rule.now }
{
    holds_bit(rule.families, family.number()) && holds_bit(rule.kinds as u64, kind.number())
}

/// Whether a rule holds for a name: one without a pattern holds for every name.
pub fn holds_change(rule: &ChangeRule, name: &[u8]) -> bool
    ensures { result ≡ change_holds name.now rule.now }
{
    match &rule.pattern {
        Some(pattern) => is_matched(pattern, name),
        None => true,
    }
}
