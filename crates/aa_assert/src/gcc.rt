//! What is told of claims as a compiler writes it.

ghost use Rattle.std.specs.Prelude.{◌≡◌, ◌++◌, codes, map, flat_map, OnOk};
ghost use Rattle.aa_text.specs.Texts.{where_text};
ghost use Rattle.aa_text.specs.Faults.{where_if};
ghost use Rattle.aa_ask.specs.Named.{named};
ghost use Rattle.aa_undecided.specs.Answers.{placed_data, placed_all};
ghost use Rattle.aa_assert.specs.Findings.{found};
ghost use Rattle.aa_assert.specs.Answers.{answered};
ghost use Rattle.aa_assert.specs.Outcomes.{outcome};
ghost use Rattle.aa_assert.specs.Gcc.{line_place, verb_of, rule_note, file_note, deciders_of, broken_note, apart_note, kind_mark, gcc_rule, gcc_file, gcc_broken, gcc_undecided, gcc_apart, gcc_outcome, gcc_answers};

use crate::answering::Answer;
use crate::finding::Finding;
use crate::kind::{Kind, kind_name};
use crate::outcomes::{Outcome, all_outcomes};
use crate::shown::push_by_line;
use aa_ask::{DeciderLine, push_behind_space};
use aa_text::{PlaceAt, push_text, push_visible, push_where};
use aa_undecided::SkippedAt;
use std::alloc::{AllocError, Global};

/// Where a line begins.
pub(crate) fn line_place(number: usize) -> PlaceAt
    ensures { result ≡ line_place number }
{
    PlaceAt {
        line: number,
        column: 1,
        byte: 0,
    }
}

fn push_verb(out: &mut Vec<u8>, denies: bool) -> Result<(), AllocError>
    ensures { OnOk result (out.new.items ≡ out.old.items ++ verb_of denies) }
{
    push_text(out, if denies { "denies" } else { "allows" })
}

/// Appends what a rule did: `allows LETTERS: RULE`.
#[tactic(auto, unfolding(crate::specs::Gcc::rule_note))]
pub(crate) fn push_rule_note(out: &mut Vec<u8>, line: &DeciderLine) -> Result<(), AllocError>
    ensures { OnOk result (out.new.items ≡ out.old.items ++ rule_note (named line.now)) }
{
    push_verb(out, line.denies)?;
    push_behind_space(out, line.letters.as_slice())?;
    push_text(out, ": ")?;
    push_visible(out, line.text.as_slice())
}

/// Appends that a skipped file could decide.
#[tactic(auto, unfolding(crate::specs::Gcc::file_note))]
pub(crate) fn push_file_note(out: &mut Vec<u8>, file: &SkippedAt) -> Result<(), AllocError>
    ensures { OnOk result (out.new.items ≡ out.old.items ++ file_note (placed_data file.now)) }
{
    push_text(out, "refused, so that ")?;
    push_visible(out, file.path.as_slice())?;
    push_text(out, " could decide it")
}

/// The rules that decided the request by which a claim is broken.
pub(crate) fn deciders_of(finding: &Finding) -> &[DeciderLine]
    ensures { map named result.now ≡ deciders_of (found finding.now) }
{
    match finding {
        Finding::ByRequest(_, verdict) => verdict.deciders.as_slice(),
        Finding::ByWay(_, _) => &[],
        Finding::Complaining(_) => &[],
    }
}

/// Appends by whom a claim is broken and how.
#[tactic(auto, unfolding(crate::specs::Gcc::broken_note))]
pub(crate) fn push_broken_note(
    out: &mut Vec<u8>,
    alloc: Global,
    finding: &Finding,
) -> Result<(), AllocError>
    ensures { OnOk result (out.new.items ≡ out.old.items ++ broken_note (found finding.now)) }
{
    push_text(out, "broken: ")?;
    push_by_line(out, alloc, finding)
}

/// The same of what breaks it at unclean paths alone.
#[tactic(auto, unfolding(crate::specs::Gcc::apart_note))]
pub(crate) fn push_apart_note(
    out: &mut Vec<u8>,
    alloc: Global,
    finding: &Finding,
) -> Result<(), AllocError>
    ensures { OnOk result (out.new.items ≡ out.old.items ++ apart_note (found finding.now)) }
{
    push_text(out, "only at unclean paths: ")?;
    push_by_line(out, alloc, finding)
}

#[tactic(auto, unfolding(crate::specs::Gcc::kind_mark))]
fn push_kind(out: &mut Vec<u8>, kind: Kind) -> Result<(), AllocError>
    ensures { OnOk result (out.new.items ≡ out.old.items ++ kind_mark kind) }
{
    push_text(out, " [")?;
    push_text(out, kind_name(kind))?;
    push_text(out, "]\n")
}

#[tactic(auto, unfolding(crate::specs::Gcc::gcc_rule))]
fn push_rule(out: &mut Vec<u8>, line: &DeciderLine) -> Result<(), AllocError>
    ensures { OnOk result (out.new.items ≡ out.old.items ++ gcc_rule (named line.now)) }
{
    push_where(out, line.path.as_slice(), line.place)?;
    push_text(out, ": note: ")?;
    push_rule_note(out, line)?;
    push_text(out, "\n")
}

fn push_rules(out: &mut Vec<u8>, lines: &[DeciderLine]) -> Result<(), AllocError>
    ensures { OnOk result (out.new.items ≡ out.old.items ++ flat_map gcc_rule (map named lines.now)) }
{
    for line in lines {
        push_rule(out, line)?;
    }
    Ok(())
}

/// Appends where a skipped file's fault lies.
fn push_fault_at(out: &mut Vec<u8>, file: &SkippedAt) -> Result<(), AllocError>
    ensures { OnOk result (out.new.items ≡ out.old.items ++ where_if file.now.at.items file.now.place) }
{
    match file.place {
        Some(place) => push_where(out, file.at.as_slice(), place),
        None => push_visible(out, file.at.as_slice()),
    }
}

#[tactic(auto, unfolding(crate::specs::Gcc::gcc_file))]
fn push_file(out: &mut Vec<u8>, file: &SkippedAt) -> Result<(), AllocError>
    ensures { OnOk result (out.new.items ≡ out.old.items ++ gcc_file (placed_data file.now)) }
{
    push_fault_at(out, file)?;
    push_text(out, ": note: ")?;
    push_file_note(out, file)?;
    push_text(out, "\n")
}

fn push_files(out: &mut Vec<u8>, files: &[SkippedAt]) -> Result<(), AllocError>
    ensures { OnOk result (out.new.items ≡ out.old.items ++ flat_map gcc_file (placed_all files.now)) }
{
    for file in files {
        push_file(out, file)?;
    }
    Ok(())
}

/// Appends that a claim is broken, and a note for each rule that decides.
#[tactic(auto, unfolding(crate::specs::Gcc::gcc_broken))]
fn push_broken(
    out: &mut Vec<u8>,
    alloc: Global,
    path: &[u8],
    number: usize,
    kind: Kind,
    finding: &Finding,
) -> Result<(), AllocError>
    ensures { OnOk result (out.new.items ≡ out.old.items ++ gcc_broken path.now number kind (found finding.now)) }
{
    push_where(out, path, line_place(number))?;
    push_text(out, ": error: ")?;
    push_broken_note(out, alloc, finding)?;
    push_kind(out, kind)?;
    push_rules(out, deciders_of(finding))
}

/// Appends that a claim is undecided, and a note for each file that could decide it.
#[tactic(auto, unfolding(crate::specs::Gcc::gcc_undecided))]
fn push_undecided(
    out: &mut Vec<u8>,
    path: &[u8],
    number: usize,
    kind: Kind,
    files: &[SkippedAt],
) -> Result<(), AllocError>
    ensures { OnOk result (out.new.items ≡ out.old.items ++ gcc_undecided path.now number kind (placed_all files.now)) }
{
    push_where(out, path, line_place(number))?;
    push_text(out, ": warning: undecided")?;
    push_kind(out, kind)?;
    push_files(out, files)
}

/// Appends that a claim is broken at unclean paths alone, and a note for each rule that decides.
#[tactic(auto, unfolding(crate::specs::Gcc::gcc_apart))]
fn push_apart(
    out: &mut Vec<u8>,
    alloc: Global,
    path: &[u8],
    number: usize,
    kind: Kind,
    finding: &Finding,
) -> Result<(), AllocError>
    ensures { OnOk result (out.new.items ≡ out.old.items ++ gcc_apart path.now number kind (found finding.now)) }
{
    push_where(out, path, line_place(number))?;
    push_text(out, ": warning: ")?;
    push_apart_note(out, alloc, finding)?;
    push_kind(out, kind)?;
    push_rules(out, deciders_of(finding))
}

fn push_outcome(
    out: &mut Vec<u8>,
    alloc: Global,
    path: &[u8],
    one: Outcome<'_>,
) -> Result<(), AllocError>
    ensures { OnOk result (out.new.items ≡ out.old.items ++ gcc_outcome path.now (outcome one.entry)) }
{
    match one {
        Outcome::Broken(number, kind, finding) => {
            push_broken(out, alloc, path, number, kind, finding)
        }
        Outcome::Undecided(number, kind, files) => push_undecided(out, path, number, kind, files),
        Outcome::Apart(number, kind, finding) => {
            push_apart(out, alloc, path, number, kind, finding)
        }
    }
}

fn push_outcomes(
    out: &mut Vec<u8>,
    alloc: Global,
    path: &[u8],
    outcomes: &[Outcome<'_>],
) -> Result<(), AllocError>
    ensures { OnOk result (out.new.items ≡ out.old.items ++ flat_map (gcc_outcome path.now) (map outcome outcomes.now)) }
{
    for one in outcomes {
        push_outcome(out, alloc, path, *one)?;
    }
    Ok(())
}

/// Appends what is told of the claims of the file at a path, as a compiler writes it.
pub(crate) fn push_gcc_answers(
    out: &mut Vec<u8>,
    alloc: Global,
    path: &[u8],
    answers: &[Answer],
) -> Result<(), AllocError>
    ensures { OnOk result (out.new.items ≡ out.old.items ++ gcc_answers path.now (map answered answers.now)) }
{
    let outcomes = all_outcomes(alloc, answers)?;
    push_outcomes(out, alloc, path, outcomes.as_slice())
}
