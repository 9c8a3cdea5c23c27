//! Redundant rules that are accepted.

ghost use Rattle.std.specs.Prelude.{◌≡◌, ◌++◌, ◌∷◌, [], ◌||◌, map, flat_map, filter, OnOk, IfOk};
ghost use Rattle.aa_files.specs.Texts.{texts, slices};
ghost use Rattle.aa_report.specs.Accepted.{all_gone};
ghost use Rattle.aa_report.specs.Sets.{AreIn};
ghost use Rattle.aa_redundant.specs.Told.{telling, explaining, rule_at};
ghost use Rattle.aa_redundant.specs.Shown.{line_of};
ghost use Rattle.aa_redundant.specs.Accepted.{is_accepted, is_held, stays, held, unknown_if, is_count, is_of_another, is_aside, is_entry, found_line};

use crate::explained::ExplainedRule;
use crate::places::RulePlace;
use crate::shown::push_line_of;
use crate::told::{ToldRule, is_marked, rule_at};
use aa_base::Spot;
use aa_command::PlacedUnit;
use aa_report::{after_digits, holds, is_among, lines_as_set, push_all_gone};
use std::alloc::{AllocError, Global};
use std::collections::HashMap;

/// The line of a redundant rule, without its end.
fn line_of(alloc: Global, rule: &ToldRule) -> Result<Vec<u8>, AllocError>
    ensures { IfOk result (λ line. line.items ≡ line_of (telling rule.now)) }
{
    let mut line = Vec::new(alloc);
    push_line_of(&mut line, rule)?;
    Ok(line)
}

/// Whether one of the lines is a rule's.
fn is_accepted(
    alloc: Global,
    set: &HashMap<Vec<u8>, usize>,
    lines: &[&[u8]],
    rule: &ToldRule,
) -> Result<bool, AllocError>
    requires { AreIn set.now (slices lines.now) }
    ensures { IfOk result (λ b. b ≡ is_accepted (slices lines.now) (telling rule.now)) }
{
    let line = line_of(alloc, rule)?;
    Ok(is_among(set, lines, line.as_slice()))
}

/// Whether one of them is that of the rule that stands there in a unit. Without lines no rule is read.
fn is_held_in(
    alloc: Global,
    set: &HashMap<Vec<u8>, usize>,
    lines: &[&[u8]],
    unit: &PlacedUnit<'_>,
    at: Spot,
) -> Result<bool, AllocError>
    requires { AreIn set.now (slices lines.now) }
    ensures { IfOk result (λ b. b ≡ is_accepted (slices lines.now) (rule_at at unit.now)) }
{
    if lines.is_empty() {
        return Ok(false);
    }
    let rule = rule_at(alloc, unit, at)?;
    is_accepted(alloc, set, lines, &rule)
}

/// Whether one of them is that of a place.
fn is_held(
    alloc: Global,
    units: &[PlacedUnit<'_>],
    set: &HashMap<Vec<u8>, usize>,
    lines: &[&[u8]],
    place: RulePlace,
) -> Result<bool, AllocError>
    requires { AreIn set.now (slices lines.now) }
    ensures { IfOk result (λ b. b ≡ is_held units.now (slices lines.now) place) }
{
    match units.get(place.unit) {
        Some(unit) => is_held_in(alloc, set, lines, unit, place.at),
        None => Ok(false),
    }
}

/// Whether that is so, or the place of that number is open.
fn stays(
    alloc: Global,
    units: &[PlacedUnit<'_>],
    set: &HashMap<Vec<u8>, usize>,
    lines: &[&[u8]],
    unsure: &[bool],
    number: usize,
    place: RulePlace,
) -> Result<bool, AllocError>
    requires { AreIn set.now (slices lines.now) }
    ensures { IfOk result (λ b. b ≡ stays units.now (slices lines.now) unsure.now number place) }
{
    let is_held = is_held(alloc, units, set, lines, place)?;
    Ok(is_held || is_marked(unsure, number))
}

fn all_held(
    alloc: Global,
    units: &[PlacedUnit<'_>],
    set: &HashMap<Vec<u8>, usize>,
    lines: &[&[u8]],
    unsure: &[bool],
    places: &[RulePlace],
) -> Result<Vec<bool>, AllocError>
    requires { AreIn set.now (slices lines.now) }
    ensures { IfOk result (λ flags. flags.items ≡ held units.now (slices lines.now) unsure.now places.now) }
{
    let mut flags = Vec::new(alloc);
    for number in 0..places.len() {
        let stays = stays(alloc, units, set, lines, unsure, number, places[number])?;
        flags.push(stays)?;
    }
    Ok(flags)
}

/// Which places stay: those that are open, and of whose rules one of the lines is.
pub(crate) fn held(
    alloc: Global,
    units: &[PlacedUnit<'_>],
    lines: &[&[u8]],
    unsure: &[bool],
    places: &[RulePlace],
) -> Result<Vec<bool>, AllocError>
    ensures { IfOk result (λ flags. flags.items ≡ held units.now (slices lines.now) unsure.now places.now) }
{
    let set = lines_as_set(alloc, lines)?;
    all_held(alloc, units, &set, lines, unsure, places)
}

/// Adds a redundant rule, unless it is accepted.
fn push_unknown(
    unknown: &mut Vec<ExplainedRule>,
    alloc: Global,
    set: &HashMap<Vec<u8>, usize>,
    lines: &[&[u8]],
    rule: ExplainedRule,
) -> Result<(), AllocError>
    requires { AreIn set.now (slices lines.now) }
    ensures { OnOk result (map explaining unknown.new.items ≡ map explaining unknown.old.items ++ unknown_if (slices lines.now) (explaining rule)) }
{
    if is_accepted(alloc, set, lines, &rule.rule)? {
        return Ok(());
    }
    unknown.push(rule)?;
    Ok(())
}

fn all_unknown(
    alloc: Global,
    set: &HashMap<Vec<u8>, usize>,
    lines: &[&[u8]],
    rules: Vec<ExplainedRule>,
) -> Result<Vec<ExplainedRule>, AllocError>
    requires { AreIn set.now (slices lines.now) }
    ensures { IfOk result (λ unknown. map explaining unknown.items ≡ flat_map (unknown_if (slices lines.now)) (map explaining rules.items)) }
{
    let mut unknown = Vec::new(alloc);
    for rule in rules {
        push_unknown(&mut unknown, alloc, set, lines, rule)?;
    }
    Ok(unknown)
}

/// The redundant rules that aren't accepted.
pub(crate) fn unknown_of(
    alloc: Global,
    lines: &[&[u8]],
    rules: Vec<ExplainedRule>,
) -> Result<Vec<ExplainedRule>, AllocError>
    ensures { IfOk result (λ unknown. map explaining unknown.items ≡ flat_map (unknown_if (slices lines.now)) (map explaining rules.items)) }
{
    let set = lines_as_set(alloc, lines)?;
    all_unknown(alloc, &set, lines, rules)
}

/// Adds the lines of redundant rules.
fn push_found(
    lines: &mut Vec<Vec<u8>>,
    alloc: Global,
    rules: &[ExplainedRule],
) -> Result<(), AllocError>
    ensures { OnOk result (texts lines.new.items ≡ texts lines.old.items ++ map found_line (map explaining rules.now)) }
{
    for rule in rules {
        lines.push(line_of(alloc, &rule.rule)?)?;
    }
    Ok(())
}

/// Adds the lines that rules would have which are undecided.
fn push_undecided(
    lines: &mut Vec<Vec<u8>>,
    alloc: Global,
    rules: &[ToldRule],
) -> Result<(), AllocError>
    ensures { OnOk result (texts lines.new.items ≡ texts lines.old.items ++ map line_of (map telling rules.now)) }
{
    for rule in rules {
        lines.push(line_of(alloc, rule)?)?;
    }
    Ok(())
}

/// The lines of both.
fn lines_of(
    alloc: Global,
    rules: &[ExplainedRule],
    undecided: &[ToldRule],
) -> Result<Vec<Vec<u8>>, AllocError>
    ensures { IfOk result (λ lines. texts lines.items ≡ map found_line (map explaining rules.now) ++ map line_of (map telling undecided.now)) }
{
    let mut lines = Vec::new(alloc);
    push_found(&mut lines, alloc, rules)?;
    push_undecided(&mut lines, alloc, undecided)?;
    Ok(lines)
}

/// Whether a line says how many rules were redundant, or how many files were skipped.
fn is_count(line: &[u8]) -> bool
    ensures { result ≡ is_count line.now }
{
    let rest = after_digits(line);
    rest.len() < line.len()
        && (rest.starts_with(" redundant rules, of which ".as_bytes())
            || rest == " files skipped".as_bytes())
}

/// Whether a line says of a rule that it may go, or that it is undecided.
fn is_of_another(line: &[u8]) -> bool
    ensures { result ≡ is_of_another line.now }
{
    holds(": may go: ", line) || holds(": undecided: ", line)
}

/// Whether a line is no redundant rule's.
fn is_aside(line: &[u8]) -> bool
    ensures { result ≡ is_aside line.now }
{
    line.is_empty()
        || line.starts_with("#".as_bytes())
        || line.starts_with("    ".as_bytes())
        || is_count(line)
        || is_of_another(line)
}

/// Adds a line that may be a redundant rule's.
fn push_entry<'t>(entries: &mut Vec<&'t [u8]>, line: &'t [u8]) -> Result<(), AllocError>
    ensures { OnOk result (slices entries.new.items ≡ slices entries.old.items ++ filter is_entry (line.entry.now ∷ [])) }
{
    if !is_aside(line) {
        entries.push(line)?;
    }
    Ok(())
}

/// Those of the lines that may be redundant rules'.
fn entries_of<'t>(alloc: Global, lines: &[&'t [u8]]) -> Result<Vec<&'t [u8]>, AllocError>
    ensures { IfOk result (λ entries. slices entries.items ≡ filter is_entry (slices lines.now)) }
{
    let mut entries = Vec::new(alloc);
    for line in lines {
        push_entry(&mut entries, *line)?;
    }
    Ok(entries)
}

/// Appends of which lines the rule is in neither list.
pub(crate) fn push_gone_among(
    out: &mut Vec<u8>,
    alloc: Global,
    lines: &[&[u8]],
    rules: &[ExplainedRule],
    undecided: &[ToldRule],
) -> Result<(), AllocError>
    ensures { OnOk result (out.new.items ≡ out.old.items ++ all_gone (map found_line (map explaining rules.now) ++ map line_of (map telling undecided.now)) (filter is_entry (slices lines.now))) }
{
    let found = lines_of(alloc, rules, undecided)?;
    let entries = entries_of(alloc, lines)?;
    push_all_gone(out, alloc, found.as_slice(), entries.as_slice())
}
