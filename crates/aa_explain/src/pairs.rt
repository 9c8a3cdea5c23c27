//! Whether two rules say differently how a text is executed.

ghost use Rattle.std.specs.Prelude.{◌≡◌, ◌≢◌, ◌↔◌, ◌&&◌, IsTrue, not};
ghost use Rattle.aa_pattern.specs.Matching.{is_match};
ghost use Rattle.aa_compile.specs.FileRules.{some_match, SayDifferently};
ghost use Rattle.aa_explain.specs.Clashes.{is_no_literal, ClashAt};

use aa_base::Text;
use aa_compile::{is_matched, matches_literally};
use aa_model::{Exec, FileRule};
use aa_pattern::Pattern;

fn is_other_match(pattern: &Pattern, text: &[u8]) -> bool
    ensures { result ≡ (is_no_literal pattern.now && is_match pattern.now.items.items text.now) }
{
    !pattern.is_literal() && is_matched(pattern, text)
}

fn matches_otherwise(rule: &FileRule, text: &[u8]) -> bool
    ensures { result ≡ some_match is_no_literal text.now rule.now.patterns }
{
    rule.patterns
        .as_slice()
        .iter()
        .any(|pattern| is_other_match(pattern, text))
}

fn are_same(one: &Option<Text>, other: &Option<Text>) -> bool
    ensures { IsTrue result ↔ (one.now ≡ other.now) }
{
    match (one, other) {
        (Some(one), Some(other)) => one.as_slice() == other.as_slice(),
        (None, None) => true,
        _ => false,
    }
}

fn differ(one: &Exec, other: &Exec) -> bool
    ensures { IsTrue result ↔ (one.now ≢ other.now) }
{
    if one.kind != other.kind || one.scrub != other.scrub || one.fallback != other.fallback {
        return true;
    }
    !are_same(&one.target, &other.target)
}

fn say_differently(one: &FileRule, other: &FileRule) -> bool
    ensures { IsTrue result ↔ SayDifferently one.now other.now }
{
    if one.deny || other.deny {
        return false;
    }
    match (&one.exec, &other.exec) {
        (Some(one), Some(other)) => differ(one, other),
        _ => false,
    }
}

/// Whether two rules say differently how a text is executed, both by literal patterns or both by others.
pub(crate) fn clash_at(one: &FileRule, other: &FileRule, text: &[u8]) -> bool
    ensures { IsTrue result ↔ ClashAt one.now other.now text.now }
{
    if !say_differently(one, other) {
        return false;
    }
    if matches_literally(one, text) && matches_literally(other, text) {
        return true;
    }
    matches_otherwise(one, text) && matches_otherwise(other, text)
}
