//! Findings as they are printed.

ghost use Rattle.std.specs.Prelude.{◌≡◌, ◌++◌, map, flat_map, option_map, OnOk};
ghost use Rattle.aa_lint.specs.Telling.{standing, telling};
ghost use Rattle.aa_lint.specs.Shown.{rule_part, earlier_part, other_part, witness_part, why_text, finding_text, line_of, line_text, lines_text, gcc_line, gcc_lines};

use crate::finding_names::{name_of, why_of};
use crate::told::{Site, Told};
use aa_text::{push_name, push_number, push_text, push_visible, push_where};
use std::alloc::{AllocError, Global};

/// Appends the rule, if it is one's.
fn push_rule(out: &mut Vec<u8>, rule: &Option<Vec<u8>>) -> Result<(), AllocError>
    ensures { OnOk result (out.new.items ≡ out.old.items ++ rule_part (option_map (λ r. r.items) rule.now)) }
{
    let Some(rule) = rule else {
        return Ok(());
    };
    push_text(out, ": ")?;
    push_visible(out, rule.as_slice())
}

/// Appends where the rule stands that is said again.
fn push_earlier(out: &mut Vec<u8>, earlier: &Option<Site>) -> Result<(), AllocError>
    ensures { OnOk result (out.new.items ≡ out.old.items ++ earlier_part (option_map standing earlier.now)) }
{
    match earlier {
        Some(site) => push_where(out, site.path.as_slice(), site.place),
        None => Ok(()),
    }
}

/// Appends the profile that ties.
fn push_other(out: &mut Vec<u8>, alloc: Global, other: &Option<Vec<u8>>) -> Result<(), AllocError>
    ensures { OnOk result (out.new.items ≡ out.old.items ++ other_part (option_map (λ n. n.items) other.now)) }
{
    let Some(name) = other else {
        return Ok(());
    };
    push_name(out, alloc, name.as_slice())?;
    push_text(out, ", as to ")
}

/// Appends a path that shows it.
fn push_witness(
    out: &mut Vec<u8>,
    alloc: Global,
    witness: &Option<Vec<u8>>,
) -> Result<(), AllocError>
    ensures { OnOk result (out.new.items ≡ out.old.items ++ witness_part (option_map (λ p. p.items) witness.now)) }
{
    match witness {
        Some(path) => push_name(out, alloc, path.as_slice()),
        None => Ok(()),
    }
}

/// Appends why it is a finding.
#[tactic(auto, unfolding(crate::specs::Shown::why_text))]
pub(crate) fn push_why(out: &mut Vec<u8>, alloc: Global, told: &Told) -> Result<(), AllocError>
    ensures { OnOk result (out.new.items ≡ out.old.items ++ why_text (telling told.now)) }
{
    push_text(out, why_of(told.kind))?;
    push_earlier(out, &told.earlier)?;
    push_other(out, alloc, &told.other)?;
    push_witness(out, alloc, &told.witness)
}

/// Appends of which profile it is a finding, why, and of which rule.
#[tactic(auto, unfolding(crate::specs::Shown::finding_text))]
pub(crate) fn push_finding(out: &mut Vec<u8>, alloc: Global, told: &Told) -> Result<(), AllocError>
    ensures { OnOk result (out.new.items ≡ out.old.items ++ finding_text (telling told.now)) }
{
    push_name(out, alloc, told.profile.as_slice())?;
    push_text(out, ": ")?;
    push_why(out, alloc, told)?;
    push_rule(out, &told.rule)
}

/// Appends the line of a finding without its end: `PLACE: NAME: PROFILE: WHY: RULE`.
#[tactic(auto, unfolding(crate::specs::Shown::line_of))]
pub(crate) fn push_line_of(out: &mut Vec<u8>, alloc: Global, told: &Told) -> Result<(), AllocError>
    ensures { OnOk result (out.new.items ≡ out.old.items ++ line_of (telling told.now)) }
{
    push_where(out, told.at.path.as_slice(), told.at.place)?;
    push_text(out, ": ")?;
    push_text(out, name_of(told.kind))?;
    push_text(out, ": ")?;
    push_finding(out, alloc, told)
}

fn push_line(out: &mut Vec<u8>, alloc: Global, told: &Told) -> Result<(), AllocError>
    ensures { OnOk result (out.new.items ≡ out.old.items ++ line_text (telling told.now)) }
{
    push_line_of(out, alloc, told)?;
    push_text(out, "\n")
}

fn push_each(out: &mut Vec<u8>, alloc: Global, all: &[Told]) -> Result<(), AllocError>
    ensures { OnOk result (out.new.items ≡ out.old.items ++ flat_map line_text (map telling all.now)) }
{
    for told in all {
        push_line(out, alloc, told)?;
    }
    Ok(())
}

/// Appends the findings, and how many these are.
pub(crate) fn push_lines(out: &mut Vec<u8>, alloc: Global, all: &[Told]) -> Result<(), AllocError>
    ensures { OnOk result (out.new.items ≡ out.old.items ++ lines_text (map telling all.now)) }
{
    push_each(out, alloc, all)?;
    push_number(out, all.len())?;
    push_text(out, " findings\n")
}

/// Appends a finding in a line, as a compiler writes it: `PLACE: warning: PROFILE: WHY: RULE [NAME]`.
#[tactic(auto, unfolding(crate::specs::Shown::gcc_line))]
fn push_gcc_line(out: &mut Vec<u8>, alloc: Global, told: &Told) -> Result<(), AllocError>
    ensures { OnOk result (out.new.items ≡ out.old.items ++ gcc_line (telling told.now)) }
{
    push_where(out, told.at.path.as_slice(), told.at.place)?;
    push_text(out, ": warning: ")?;
    push_finding(out, alloc, told)?;
    push_text(out, " [")?;
    push_text(out, name_of(told.kind))?;
    push_text(out, "]\n")
}

/// Appends the findings as a compiler writes them.
pub(crate) fn push_gcc_lines(
    out: &mut Vec<u8>,
    alloc: Global,
    all: &[Told],
) -> Result<(), AllocError>
    ensures { OnOk result (out.new.items ≡ out.old.items ++ gcc_lines (map telling all.now)) }
{
    for told in all {
        push_gcc_line(out, alloc, told)?;
    }
    Ok(())
}
