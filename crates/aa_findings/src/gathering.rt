//! What is found of a profile, in the order of its rules.

ghost use Rattle.std.specs.Prelude.{◌≡◌, ◌<◌, ◌+◌, ◌++◌, IfOk, OnOk, Some, length, take, position, flat_map};
ghost use Rattle.std.specs.List.{slice_get};
ghost use Rattle.aa_findings.specs.Files.{applies_at, repeats};
ghost use Rattle.aa_findings.specs.Places.{places, lists, given_at};
ghost use Rattle.aa_findings.specs.Applied.{AreApplied};
ghost use Rattle.aa_findings.specs.Keys.{AreFirsts};
ghost use Rattle.aa_findings.specs.Gathered.{found_if, found_along, found_again, shows, shown_at, shown_paths, of_file, of_cap, of_net, of_change, files_before, caps_before, nets_before, changes_before, of_rules};

use crate::exec::is_any_profile;
use crate::files::{is_idle, is_on_all, is_unconfined_exec, is_written_exec};
use crate::finding::{Finding, Kind, Subject};
use crate::index::list_at;
use crate::keys::repeated;
use crate::rows::Row;
use crate::shortest::shortest;
use crate::sorts::{is_idle_cap, is_idle_net, repeated_cap, repeated_net};
use aa_base::Text;
use aa_model::{CapRule, ChangeRule, FileRule, NetRule, Profile};
use std::alloc::{AllocError, Global};
use std::collections::HashMap;

/// Adds a finding, where there is one.
fn push_if(
    found: &mut Vec<Finding>,
    is_found: bool,
    kind: Kind,
    subject: Subject,
) -> Result<(), AllocError>
    ensures { OnOk result (found.new.items ≡ found.old.items ++ found_if is_found kind subject) }
{
    if is_found {
        found.push(Finding {
            kind,
            subject,
            other: None,
            path: None,
        })?;
    }
    Ok(())
}

/// Adds that a rule says what an earlier one says, where there is one.
fn push_again(
    found: &mut Vec<Finding>,
    other: Option<usize>,
    subject: Subject,
) -> Result<(), AllocError>
    ensures { OnOk result (found.new.items ≡ found.old.items ++ found_again other subject) }
{
    if other.is_some() {
        found.push(Finding {
            kind: Kind::Duplicate,
            subject,
            other,
            path: None,
        })?;
    }
    Ok(())
}

/// Whether a file shows a finding of the rule.
fn shows(kind: Kind, rule: &FileRule, row: &Row) -> bool
    ensures { result ≡ shows kind rule.now row.now }
{
    match kind {
        Kind::UnconfinedExec => is_unconfined_exec(rule, row),
        Kind::WrittenExec => is_written_exec(rule, row),
        _ => false,
    }
}

fn push_shown(
    paths: &mut Vec<Text>,
    kind: Kind,
    rule: &FileRule,
    row: &Row,
) -> Result<(), AllocError>
    ensures { OnOk result (paths.new.items ≡ paths.old.items ++ shown_at kind rule.now row.now) }
{
    if shows(kind, rule, row) {
        paths.push(row.path.try_clone()?)?;
    }
    Ok(())
}

fn push_shown_at(
    paths: &mut Vec<Text>,
    kind: Kind,
    rule: &FileRule,
    rows: &[Row],
    place: usize,
) -> Result<(), AllocError>
    ensures { OnOk result (paths.new.items ≡ paths.old.items ++ given_at (shown_at kind rule.now) rows.now place) }
{
    match rows.get(place) {
        Some(row) => push_shown(paths, kind, rule, row),
        None => Ok(()),
    }
}

/// The paths that show it, of the rows at these places.
fn shown_among(
    alloc: Global,
    kind: Kind,
    rows: &[Row],
    applied: &[usize],
    rule: &FileRule,
) -> Result<Vec<Text>, AllocError>
    ensures { IfOk result (λ paths. paths.items ≡ flat_map (given_at (shown_at kind rule.now) rows.now) applied.now) }
{
    let mut paths = Vec::new(alloc);
    for place in applied {
        push_shown_at(&mut paths, kind, rule, rows, *place)?;
    }
    Ok(paths)
}

/// The paths that show it: of rows at which the rule applies.
fn shown_paths(
    alloc: Global,
    kind: Kind,
    rows: &[Row],
    applied: &[usize],
    rule: &FileRule,
) -> Result<Vec<Text>, AllocError>
    requires { applied.now ≡ places (applies_at rule.now) rows.now }
    ensures { IfOk result (λ paths. paths.items ≡ shown_paths kind rows.now rule.now) }
{
    let paths = shown_among(alloc, kind, rows, applied, rule)?;
    Ok(paths)
}

/// Adds a finding with the shortest of these paths, where there are any.
fn push_along(
    found: &mut Vec<Finding>,
    alloc: Global,
    kind: Kind,
    paths: &[Text],
    subject: Subject,
) -> Result<(), AllocError>
    ensures { OnOk result (found.new.items ≡ found.old.items ++ found_along kind paths.now subject) }
{
    if let Some(path) = shortest(paths) {
        found.push(Finding {
            kind,
            subject,
            other: None,
            path: Some(Text::copy_of(alloc, path)?),
        })?;
    }
    Ok(())
}

/// Adds what is found of a rule on files, beside an earlier one that says the same.
#[tactic(auto, unfolding(crate::specs::Gathered::of_file))]
fn push_file(
    found: &mut Vec<Finding>,
    alloc: Global,
    complain: bool,
    rows: &[Row],
    applied: &[usize],
    rules: &[FileRule],
    rule: &FileRule,
    number: usize,
    earlier: Option<usize>,
) -> Result<(), AllocError>
    requires applied { applied.now ≡ places (applies_at rule.now) rows.now }
    requires earlier { earlier ≡ position (repeats rows.now rule.now) (take number rules.now) }
    ensures { OnOk result (found.new.items ≡ found.old.items ++ of_file complain rows.now rules.now number rule.now) }
{
    let _rules = rules;
    let subject = Subject::File(number);
    let free = shown_paths(alloc, Kind::UnconfinedExec, rows, applied, rule)?;
    let written = shown_paths(alloc, Kind::WrittenExec, rows, applied, rule)?;
    push_along(found, alloc, Kind::UnconfinedExec, free.as_slice(), subject)?;
    push_along(found, alloc, Kind::WrittenExec, written.as_slice(), subject)?;
    push_if(found, is_on_all(rows, rule), Kind::AllFiles, subject)?;
    push_again(found, earlier, subject)?;
    let idle = is_idle(complain, rows, applied, rule);
    push_if(found, idle, Kind::IdleDeny, subject)
}

/// Adds what is found of a rule on files, by the first of those before it with each key; it is then one of these.
fn push_keyed(
    found: &mut Vec<Finding>,
    firsts: &mut HashMap<Vec<usize>, usize>,
    alloc: Global,
    complain: bool,
    rows: &[Row],
    applied: &[usize],
    rules: &[FileRule],
    rule: &FileRule,
    number: usize,
) -> Result<(), AllocError>
    requires applied { applied.now ≡ places (applies_at rule.now) rows.now }
    requires firsts { AreFirsts firsts.old rows.now (take number rules.now) }
    requires rule { slice_get rules.now number ≡ Some rule.now }
    ensures found { OnOk result (found.new.items ≡ found.old.items ++ of_file complain rows.now rules.now number rule.now) }
    ensures firsts { OnOk result (AreFirsts firsts.new rows.now (take (number + 1) rules.now)) }
{
    let earlier = repeated(alloc, firsts, rule, applied, number)?;
    push_file(
        found, alloc, complain, rows, applied, rules, rule, number, earlier,
    )?;
    Ok(())
}

/// Adds what is found of the rules on files, by the rows at which each applies.
fn push_files(
    found: &mut Vec<Finding>,
    alloc: Global,
    complain: bool,
    rows: &[Row],
    index: &[Vec<usize>],
    rules: &[FileRule],
) -> Result<(), AllocError>
    requires { AreApplied rules.now rows.now (lists index.now) }
    ensures { OnOk result (found.new.items ≡ found.old.items ++ files_before complain rows.now rules.now (length rules.now)) }
{
    let mut firsts = HashMap::new(alloc);
    for number in 0..rules.len() {
        let applied = list_at(index, number);
        push_keyed(
            found,
            &mut firsts,
            alloc,
            complain,
            rows,
            applied,
            rules,
            &rules[number],
            number,
        )?;
    }
    Ok(())
}

/// Adds what is found of a rule on capabilities.
#[tactic(auto, unfolding(crate::specs::Gathered::of_cap))]
fn push_cap(
    found: &mut Vec<Finding>,
    complain: bool,
    rules: &[CapRule],
    rule: &CapRule,
    number: usize,
) -> Result<(), AllocError>
    requires { number < length rules.now }
    ensures { OnOk result (found.new.items ≡ found.old.items ++ of_cap complain rules.now number rule.now) }
{
    let subject = Subject::Cap(number);
    let earlier = repeated_cap(&rules[..number], rule);
    push_again(found, earlier, subject)?;
    let idle = is_idle_cap(complain, rules, rule);
    push_if(found, idle, Kind::IdleDeny, subject)
}

fn push_caps(found: &mut Vec<Finding>, complain: bool, rules: &[CapRule]) -> Result<(), AllocError>
    ensures { OnOk result (found.new.items ≡ found.old.items ++ caps_before complain rules.now (length rules.now)) }
{
    for number in 0..rules.len() {
        push_cap(found, complain, rules, &rules[number], number)?;
    }
    Ok(())
}

/// Adds what is found of a rule on sockets.
#[tactic(auto, unfolding(crate::specs::Gathered::of_net))]
fn push_net(
    found: &mut Vec<Finding>,
    complain: bool,
    rules: &[NetRule],
    rule: &NetRule,
    number: usize,
) -> Result<(), AllocError>
    requires { number < length rules.now }
    ensures { OnOk result (found.new.items ≡ found.old.items ++ of_net complain rules.now number rule.now) }
{
    let subject = Subject::Net(number);
    let earlier = repeated_net(&rules[..number], rule);
    push_again(found, earlier, subject)?;
    let idle = is_idle_net(complain, rules, rule);
    push_if(found, idle, Kind::IdleDeny, subject)
}

fn push_nets(found: &mut Vec<Finding>, complain: bool, rules: &[NetRule]) -> Result<(), AllocError>
    ensures { OnOk result (found.new.items ≡ found.old.items ++ nets_before complain rules.now (length rules.now)) }
{
    for number in 0..rules.len() {
        push_net(found, complain, rules, &rules[number], number)?;
    }
    Ok(())
}

fn push_change(
    found: &mut Vec<Finding>,
    rules: &[ChangeRule],
    rule: &ChangeRule,
    number: usize,
) -> Result<(), AllocError>
    ensures { OnOk result (found.new.items ≡ found.old.items ++ of_change rules.now number rule.now) }
{
    push_if(
        found,
        is_any_profile(rules, rule),
        Kind::AnyProfile,
        Subject::Change(number),
    )
}

fn push_changes(found: &mut Vec<Finding>, rules: &[ChangeRule]) -> Result<(), AllocError>
    ensures { OnOk result (found.new.items ≡ found.old.items ++ changes_before rules.now (length rules.now)) }
{
    for number in 0..rules.len() {
        push_change(found, rules, &rules[number], number)?;
    }
    Ok(())
}

/// Adds what is found of the rules of a profile, by rows that stand for all files, and those of them at which each rule applies.
#[tactic(auto, unfolding(crate::specs::Gathered::of_rules))]
pub(crate) fn push_rules(
    found: &mut Vec<Finding>,
    alloc: Global,
    rows: &[Row],
    index: &[Vec<usize>],
    profile: &Profile,
) -> Result<(), AllocError>
    requires { AreApplied profile.now.files rows.now (lists index.now) }
    ensures { OnOk result (found.new.items ≡ found.old.items ++ of_rules rows.now profile.now) }
{
    let complain = profile.complain;
    push_files(
        found,
        alloc,
        complain,
        rows,
        index,
        profile.files.as_slice(),
    )?;
    push_caps(found, complain, profile.caps.as_slice())?;
    push_nets(found, complain, profile.nets.as_slice())?;
    push_changes(found, profile.changes.as_slice())
}
