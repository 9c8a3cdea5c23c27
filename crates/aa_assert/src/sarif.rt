//! What is told of claims, as a SARIF log.

ghost use Rattle.std.specs.Prelude.{◌≡◌, ◌==◌, ◌++◌, Some, codes, length, map, OnOk, IfOk};
ghost use Rattle.aa_text.specs.Jsons.{member_text, list_text};
ghost use Rattle.aa_check.specs.Sarif.{rule_members, message_text, location_text};
ghost use Rattle.aa_check.specs.declared.sarif.Level.TheVariants.{Error, Warning};
ghost use Rattle.aa_check.specs.Notified.{notified};
ghost use Rattle.aa_ask.specs.Named.{named};
ghost use Rattle.aa_undecided.specs.Answers.{placed_all};
ghost use Rattle.aa_who.specs.Untold.{untold};
ghost use Rattle.aa_assert.specs.Findings.{found};
ghost use Rattle.aa_assert.specs.Answers.{answered};
ghost use Rattle.aa_assert.specs.Kinds.{kind_name};
ghost use Rattle.aa_assert.specs.Gcc.{line_place, broken_note, apart_note, deciders_of};
ghost use Rattle.aa_assert.specs.Outcomes.{outcome};
ghost use Rattle.aa_assert.specs.Sarif.{rule_text, file_text, result_members, result_text, results_member, all_untold, note_text, run_member, sarif_answers};
ghost use Rattle.aa_assert.specs.Listed.{rules_in, files_in, results_in};

use crate::answering::Answer;
use crate::finding::Finding;
use crate::gcc::{
    deciders_of, line_place, push_apart_note, push_broken_note, push_file_note, push_rule_note,
};
use crate::kind::{Kind, kind_name};
use crate::outcomes::{Outcome, all_outcomes};
use aa_ask::DeciderLine;
use aa_check::{
    Invocations, Level, Location, Message, Notification, Related, push_rule_members,
    push_sarif_head,
};
use aa_text::{ToJson, push_list_member, push_member, push_text};
use aa_undecided::SkippedAt;
use aa_who::Untold;
use std::alloc::{AllocError, Global};

/// A rule that decided, where it stands.
#[derive(Clone, Copy)]
struct RulePlace<'a> {
    line: &'a DeciderLine,
}

impl ToJson for RulePlace<'_> {
    ghost use Rattle.aa_ask.specs.Named.{named};
    ghost use Rattle.aa_assert.specs.Sarif.{rule_text};

    ghost json = { λ r. rule_text (named r.line.now) };

    fn push_json(&self, out: &mut Vec<u8>, alloc: Global) -> Result<(), AllocError> {
        let mut text = Vec::new(alloc);
        push_rule_note(&mut text, self.line)?;
        let related = Related {
            path: self.line.path.as_slice(),
            place: Some(self.line.place),
            bytes: text.as_slice(),
        };
        related.push_json(out, alloc)
    }
}

/// A skipped file that could decide, where its fault lies.
#[derive(Clone, Copy)]
struct FilePlace<'a> {
    file: &'a SkippedAt,
}

impl ToJson for FilePlace<'_> {
    ghost use Rattle.aa_undecided.specs.Answers.{placed_data};
    ghost use Rattle.aa_assert.specs.Sarif.{file_text};

    ghost json = { λ f. file_text (placed_data f.file.now) };

    fn push_json(&self, out: &mut Vec<u8>, alloc: Global) -> Result<(), AllocError> {
        let mut text = Vec::new(alloc);
        push_file_note(&mut text, self.file)?;
        let related = Related {
            path: self.file.at.as_slice(),
            place: self.file.place,
            bytes: text.as_slice(),
        };
        related.push_json(out, alloc)
    }
}

fn rules_of<'a>(alloc: Global, lines: &'a [DeciderLine]) -> Result<Vec<RulePlace<'a>>, AllocError>
    ensures { IfOk result (λ list. rules_in list.items ≡ map rule_text (map named lines.now)) }
{
    let mut list = Vec::new(alloc);
    for line in lines {
        list.push(RulePlace { line })?;
    }
    Ok(list)
}

fn files_of<'a>(alloc: Global, files: &'a [SkippedAt]) -> Result<Vec<FilePlace<'a>>, AllocError>
    ensures { IfOk result (λ list. files_in list.items ≡ map file_text (placed_all files.now)) }
{
    let mut list = Vec::new(alloc);
    for file in files {
        list.push(FilePlace { file })?;
    }
    Ok(list)
}

/// Appends a result but for the places besides: its kind, what is told, and of which claim.
fn push_told(
    out: &mut Vec<u8>,
    alloc: Global,
    level: Level,
    kind: Kind,
    bytes: &[u8],
    path: &[u8],
    number: usize,
) -> Result<(), AllocError>
    ensures { OnOk result (out.new.items ≡ out.old.items ++ (rule_members level (kind_name kind) ++ member_text (codes "message") (message_text bytes.now) ++ member_text (codes "locations") (location_text path.now (Some (line_place number))))) }
{
    push_rule_members(out, alloc, level, kind_name(kind))?;
    push_member(out, alloc, "message", &Message { bytes })?;
    let place = Some(line_place(number));
    push_member(out, alloc, "locations", &Location { path, place })
}

/// Appends the rules that decided, as the last member of a result, and its end.
fn push_places(out: &mut Vec<u8>, alloc: Global, finding: &Finding) -> Result<(), AllocError>
    ensures { OnOk result (out.new.items ≡ out.old.items ++ (member_text (codes "relatedLocations") (list_text (map rule_text (deciders_of (found finding.now)))) ++ codes "}")) }
{
    let rules = rules_of(alloc, deciders_of(finding))?;
    push_list_member(out, alloc, "relatedLocations", rules.as_slice())?;
    push_text(out, "}")
}

/// Appends a broken claim, with the rules.
#[tactic(auto, unfolding(crate::specs::Sarif::result_members))]
fn push_broken(
    out: &mut Vec<u8>,
    alloc: Global,
    path: &[u8],
    number: usize,
    kind: Kind,
    finding: &Finding,
) -> Result<(), AllocError>
    ensures { OnOk result (out.new.items ≡ out.old.items ++ result_members Error kind (broken_note (found finding.now)) path.now number (map rule_text (deciders_of (found finding.now)))) }
{
    let mut text = Vec::new(alloc);
    push_broken_note(&mut text, alloc, finding)?;
    let bytes = text.as_slice();
    push_told(out, alloc, Level::Error, kind, bytes, path, number)?;
    push_places(out, alloc, finding)
}

/// Appends an undecided claim, with the files that could decide it.
#[tactic(auto, unfolding(crate::specs::Sarif::result_members))]
fn push_undecided(
    out: &mut Vec<u8>,
    alloc: Global,
    path: &[u8],
    number: usize,
    kind: Kind,
    files: &[SkippedAt],
) -> Result<(), AllocError>
    ensures { OnOk result (out.new.items ≡ out.old.items ++ result_members Warning kind (codes "undecided") path.now number (map file_text (placed_all files.now))) }
{
    let places = files_of(alloc, files)?;
    let bytes = "undecided".as_bytes();
    push_told(out, alloc, Level::Warning, kind, bytes, path, number)?;
    push_list_member(out, alloc, "relatedLocations", places.as_slice())?;
    push_text(out, "}")
}

/// Appends a claim that is broken at unclean paths alone, with the rules.
#[tactic(auto, unfolding(crate::specs::Sarif::result_members))]
fn push_apart(
    out: &mut Vec<u8>,
    alloc: Global,
    path: &[u8],
    number: usize,
    kind: Kind,
    finding: &Finding,
) -> Result<(), AllocError>
    ensures { OnOk result (out.new.items ≡ out.old.items ++ result_members Warning kind (apart_note (found finding.now)) path.now number (map rule_text (deciders_of (found finding.now)))) }
{
    let mut text = Vec::new(alloc);
    push_apart_note(&mut text, alloc, finding)?;
    let bytes = text.as_slice();
    push_told(out, alloc, Level::Warning, kind, bytes, path, number)?;
    push_places(out, alloc, finding)
}

fn push_result(
    out: &mut Vec<u8>,
    alloc: Global,
    path: &[u8],
    one: Outcome<'_>,
) -> Result<(), AllocError>
    ensures { OnOk result (out.new.items ≡ out.old.items ++ result_text path.now (outcome one.entry)) }
{
    match one {
        Outcome::Broken(number, kind, finding) => {
            push_broken(out, alloc, path, number, kind, finding)
        }
        Outcome::Undecided(number, kind, files) => {
            push_undecided(out, alloc, path, number, kind, files)
        }
        Outcome::Apart(number, kind, finding) => {
            push_apart(out, alloc, path, number, kind, finding)
        }
    }
}

/// What is told of a claim of the file at a path, as it stands among the results.
#[derive(Clone, Copy)]
struct ResultOf<'a> {
    path: &'a [u8],
    outcome: Outcome<'a>,
}

impl ToJson for ResultOf<'_> {
    ghost use Rattle.aa_assert.specs.Outcomes.{outcome};
    ghost use Rattle.aa_assert.specs.Sarif.{result_text};

    ghost json = { λ r. result_text r.path.now (outcome r.outcome) };

    fn push_json(&self, out: &mut Vec<u8>, alloc: Global) -> Result<(), AllocError> {
        push_result(out, alloc, self.path, self.outcome)
    }
}

fn results_of<'a>(
    alloc: Global,
    path: &'a [u8],
    outcomes: &[Outcome<'a>],
) -> Result<Vec<ResultOf<'a>>, AllocError>
    ensures { IfOk result (λ list. results_in list.items ≡ map (result_text path.now) (map outcome outcomes.now)) }
{
    let mut list = Vec::new(alloc);
    for one in outcomes {
        let outcome = *one;
        list.push(ResultOf { path, outcome })?;
    }
    Ok(list)
}

/// Appends what is told of the claims, as a member.
fn push_results(
    out: &mut Vec<u8>,
    alloc: Global,
    path: &[u8],
    answers: &[Answer],
) -> Result<(), AllocError>
    ensures { OnOk result (out.new.items ≡ out.old.items ++ results_member path.now (map answered answers.now)) }
{
    let outcomes = all_outcomes(alloc, answers)?;
    let list = results_of(alloc, path, outcomes.as_slice())?;
    push_list_member(out, alloc, "results", list.as_slice())
}

fn push_notes<'a>(out: &mut Vec<Notification<'a>>, all: &'a [Untold]) -> Result<(), AllocError>
    ensures { OnOk result (notified out.new.items ≡ notified out.old.items ++ map note_text (map untold all.now)) }
{
    for one in all {
        out.push(Notification {
            level: Level::Error,
            bytes: one.line.as_slice(),
        })?;
    }
    Ok(())
}

/// Of whom it can't be told whether they break a claim, and why.
fn notes_of<'a>(alloc: Global, answers: &'a [Answer]) -> Result<Vec<Notification<'a>>, AllocError>
    ensures { IfOk result (λ list. notified list.items ≡ map note_text (all_untold (map answered answers.now))) }
{
    let mut list = Vec::new(alloc);
    for answer in answers {
        push_notes(&mut list, answer.findings.untold.as_slice())?;
    }
    Ok(list)
}

/// Appends how the run went, as a member.
fn push_run(out: &mut Vec<u8>, alloc: Global, answers: &[Answer]) -> Result<(), AllocError>
    ensures { OnOk result (out.new.items ≡ out.old.items ++ run_member (all_untold (map answered answers.now))) }
{
    let list = notes_of(alloc, answers)?;
    let warnings = list.as_slice();
    let is_successful = list.is_empty();
    push_member(
        out,
        alloc,
        "invocations",
        &Invocations {
            is_successful,
            warnings,
        },
    )
}

/// Appends what is told of the claims of the file at a path, as one SARIF log (version 2.1.0) and a line end: a result for each by whom
/// one is broken, for each that is undecided and for each by whom one is broken at unclean paths alone, and a notification for each of
/// whom it can't be told.
pub(crate) fn push_sarif_answers(
    out: &mut Vec<u8>,
    alloc: Global,
    path: &[u8],
    answers: &[Answer],
) -> Result<(), AllocError>
    ensures { OnOk result (out.new.items ≡ out.old.items ++ sarif_answers path.now (map answered answers.now)) }
{
    push_sarif_head(out)?;
    push_results(out, alloc, path, answers)?;
    push_run(out, alloc, answers)?;
    push_text(out, "}]}\n")
}
