//! Answers as they are printed.

ghost use Rattle.std.specs.Prelude.{◌≡◌, ◌++◌, map, flat_map, option_map, count_by, OnOk};
ghost use Rattle.aa_ask.specs.Told.{told};
ghost use Rattle.aa_undecided.specs.Answers.{placed_all};
ghost use Rattle.aa_assert.specs.Findings.{found, ByRequest, ByWay, Complaining};
ghost use Rattle.aa_assert.specs.Passages.{way_in};
ghost use Rattle.aa_assert.specs.Answers.{answered};
ghost use Rattle.aa_assert.specs.Shown.{asker_text, broken_text, word_behind, by_line, why_text, by_text, finding_text, is_broken, files_open, is_undecided, undecided_text, doubt_text, answer_text, undecided_count, count_line, untold_text, answers_text};

use crate::answering::Answer;
use crate::finding::Finding;
use crate::unclean::push_apart;
use crate::way::Way;
use aa_ask::{Verdict, push_reasons};
use aa_text::{push_name, push_number, push_text, push_visible};
use aa_undecided::{SkippedAt, push_reason};
use aa_who::{push_complains, push_untold_lines};
use std::alloc::{AllocError, Global};

fn push_asker(out: &mut Vec<u8>, alloc: Global, asker: &Option<Vec<u8>>) -> Result<(), AllocError>
    ensures { OnOk result (out.new.items ≡ out.old.items ++ asker_text (option_map (λ name. name.items) asker.now)) }
{
    match asker {
        Some(name) => push_name(out, alloc, name.as_slice()),
        None => push_text(out, "unconfined"),
    }
}

#[tactic(auto, unfolding(crate::specs::Shown::broken_text))]
fn push_broken(out: &mut Vec<u8>, path: &[u8], number: usize) -> Result<(), AllocError>
    ensures { OnOk result (out.new.items ≡ out.old.items ++ broken_text path.now number) }
{
    push_visible(out, path)?;
    push_text(out, ":")?;
    push_number(out, number)?;
    push_text(out, ": broken: ")
}

/// Appends who is answered a request so.
#[tactic(auto, unfolding(crate::specs::Shown::by_line))]
fn push_verdict(
    out: &mut Vec<u8>,
    alloc: Global,
    complains: bool,
    verdict: &Verdict,
) -> Result<(), AllocError>
    ensures { OnOk result (out.new.items ≡ out.old.items ++ by_line (ByRequest complains (told verdict.now))) }
{
    push_asker(out, alloc, &verdict.asker)?;
    push_text(out, " ")?;
    out.extend_from_slice(verdict.word.as_slice())?;
    push_complains(out, complains)
}

fn push_words(out: &mut Vec<u8>, words: &[Vec<u8>]) -> Result<(), AllocError>
    ensures { OnOk result (out.new.items ≡ out.old.items ++ flat_map word_behind (map (λ w. w.items) words.now)) }
{
    for word in words {
        push_text(out, " ")?;
        out.extend_from_slice(word.as_slice())?;
    }
    Ok(())
}

/// Appends who comes where, and by which requests.
#[tactic(auto, unfolding(crate::specs::Shown::by_line))]
fn push_way(out: &mut Vec<u8>, alloc: Global, complains: bool, way: &Way) -> Result<(), AllocError>
    ensures { OnOk result (out.new.items ≡ out.old.items ++ by_line (ByWay complains (way_in way.now))) }
{
    push_asker(out, alloc, &way.asker)?;
    push_text(out, " reaches ")?;
    push_asker(out, alloc, &way.to)?;
    push_text(out, ":")?;
    push_words(out, way.words.as_slice())?;
    push_complains(out, complains)
}

/// Appends that a profile complains.
#[tactic(auto, unfolding(crate::specs::Shown::by_line))]
fn push_complaining(out: &mut Vec<u8>, alloc: Global, name: &[u8]) -> Result<(), AllocError>
    ensures { OnOk result (out.new.items ≡ out.old.items ++ by_line (Complaining name.now)) }
{
    push_name(out, alloc, name)?;
    push_text(out, " complains")
}

/// Appends by whom a claim is broken.
pub(crate) fn push_by_line(
    out: &mut Vec<u8>,
    alloc: Global,
    finding: &Finding,
) -> Result<(), AllocError>
    ensures { OnOk result (out.new.items ≡ out.old.items ++ by_line (found finding.now)) }
{
    match finding {
        Finding::ByRequest(complains, verdict) => push_verdict(out, alloc, *complains, verdict),
        Finding::ByWay(complains, way) => push_way(out, alloc, *complains, way),
        Finding::Complaining(name) => push_complaining(out, alloc, name.as_slice()),
    }
}

/// Appends the rules that decide a request.
fn push_why(out: &mut Vec<u8>, finding: &Finding) -> Result<(), AllocError>
    ensures { OnOk result (out.new.items ≡ out.old.items ++ why_text (found finding.now)) }
{
    match finding {
        Finding::ByRequest(_, verdict) => push_reasons(out, verdict),
        Finding::ByWay(_, _) => Ok(()),
        Finding::Complaining(_) => Ok(()),
    }
}

/// Appends by whom a claim is broken, and the rules.
pub(crate) fn push_by(out: &mut Vec<u8>, alloc: Global, finding: &Finding) -> Result<(), AllocError>
    ensures { OnOk result (out.new.items ≡ out.old.items ++ by_text (found finding.now)) }
{
    push_by_line(out, alloc, finding)?;
    push_text(out, "\n")?;
    push_why(out, finding)
}

fn push_finding(
    out: &mut Vec<u8>,
    alloc: Global,
    path: &[u8],
    number: usize,
    finding: &Finding,
) -> Result<(), AllocError>
    ensures { OnOk result (out.new.items ≡ out.old.items ++ finding_text path.now number (found finding.now)) }
{
    push_broken(out, path, number)?;
    push_by(out, alloc, finding)
}

fn push_findings(
    out: &mut Vec<u8>,
    alloc: Global,
    path: &[u8],
    number: usize,
    findings: &[Finding],
) -> Result<(), AllocError>
    ensures { OnOk result (out.new.items ≡ out.old.items ++ flat_map (finding_text path.now number) (map found findings.now)) }
{
    for finding in findings {
        push_finding(out, alloc, path, number, finding)?;
    }
    Ok(())
}

/// Whether somebody breaks a claim.
fn is_broken(answer: &Answer) -> bool
    ensures { result ≡ is_broken (answered answer.now) }
{
    !answer.findings.list.is_empty()
}

/// The skipped files that could break a claim, where nobody does.
pub(crate) fn files_open(answer: &Answer) -> &[SkippedAt]
    ensures { placed_all result.now ≡ files_open (answered answer.now) }
{
    if is_broken(answer) {
        return &[];
    }
    answer.findings.doubt.as_slice()
}

#[tactic(auto, unfolding(crate::specs::Shown::undecided_text))]
fn push_undecided(out: &mut Vec<u8>, path: &[u8], number: usize) -> Result<(), AllocError>
    ensures { OnOk result (out.new.items ≡ out.old.items ++ undecided_text path.now number) }
{
    push_visible(out, path)?;
    push_text(out, ":")?;
    push_number(out, number)?;
    push_text(out, ": undecided\n")
}

/// Appends that a claim is undecided, and by which files, where there are some.
fn push_doubt(
    out: &mut Vec<u8>,
    path: &[u8],
    number: usize,
    files: &[SkippedAt],
) -> Result<(), AllocError>
    ensures { OnOk result (out.new.items ≡ out.old.items ++ doubt_text path.now number (placed_all files.now)) }
{
    match files {
        [] => Ok(()),
        [_, ..] => {
            push_undecided(out, path, number)?;
            push_reason(out, files)
        }
    }
}

fn push_answer(
    out: &mut Vec<u8>,
    alloc: Global,
    path: &[u8],
    answer: &Answer,
) -> Result<(), AllocError>
    ensures { OnOk result (out.new.items ≡ out.old.items ++ answer_text path.now (answered answer.now)) }
{
    let findings = answer.findings.list.as_slice();
    push_findings(out, alloc, path, answer.number, findings)?;
    push_doubt(out, path, answer.number, files_open(answer))?;
    let apart = answer.findings.apart.as_slice();
    push_apart(out, alloc, path, answer.number, apart)
}

fn push_all(
    out: &mut Vec<u8>,
    alloc: Global,
    path: &[u8],
    answers: &[Answer],
) -> Result<(), AllocError>
    ensures { OnOk result (out.new.items ≡ out.old.items ++ flat_map (answer_text path.now) (map answered answers.now)) }
{
    for answer in answers {
        push_answer(out, alloc, path, answer)?;
    }
    Ok(())
}

fn count_if_broken(answers: &[Answer]) -> usize
    ensures { result ≡ count_by (λ a. is_broken (answered a)) answers.now }
{
    answers.iter().filter(|answer| is_broken(answer)).count()
}

/// How many claims are broken.
pub(crate) fn count_broken(answers: &[Answer]) -> usize
    ensures { result ≡ count_by is_broken (map answered answers.now) }
{
    count_if_broken(answers)
}

/// Whether nobody breaks a claim, and skipped files could.
fn is_undecided(answer: &Answer) -> bool
    ensures { result ≡ is_undecided (answered answer.now) }
{
    match files_open(answer) {
        [] => false,
        [_, ..] => true,
    }
}

fn count_if_undecided(answers: &[Answer]) -> usize
    ensures { result ≡ count_by (λ a. is_undecided (answered a)) answers.now }
{
    answers.iter().filter(|answer| is_undecided(answer)).count()
}

/// How many claims are undecided.
pub(crate) fn count_undecided(answers: &[Answer]) -> usize
    ensures { result ≡ count_by is_undecided (map answered answers.now) }
{
    count_if_undecided(answers)
}

/// Appends how many claims are undecided, if some are.
fn push_undecided_count(out: &mut Vec<u8>, count: usize) -> Result<(), AllocError>
    ensures { OnOk result (out.new.items ≡ out.old.items ++ undecided_count count) }
{
    if count == 0 {
        return Ok(());
    }
    push_text(out, " ")?;
    push_number(out, count)?;
    push_text(out, " undecided")
}

#[tactic(auto, unfolding(crate::specs::Shown::count_line))]
fn push_count(out: &mut Vec<u8>, answers: &[Answer]) -> Result<(), AllocError>
    ensures { OnOk result (out.new.items ≡ out.old.items ++ count_line (map answered answers.now)) }
{
    push_number(out, answers.len())?;
    push_text(out, " claims ")?;
    push_number(out, count_broken(answers))?;
    push_text(out, " broken")?;
    push_undecided_count(out, count_undecided(answers))?;
    push_text(out, "\n")
}

/// Appends of all answers the lines on what can't be told.
pub(crate) fn push_untold(out: &mut Vec<u8>, answers: &[Answer]) -> Result<(), AllocError>
    ensures { OnOk result (out.new.items ≡ out.old.items ++ flat_map untold_text (map answered answers.now)) }
{
    for answer in answers {
        push_untold_lines(out, answer.findings.untold.as_slice())?;
    }
    Ok(())
}

/// Appends by whom the claims of the file at a path are broken, each with the rules, and how many are.
#[tactic(auto, unfolding(crate::specs::Shown::answers_text))]
pub(crate) fn push_answers(
    out: &mut Vec<u8>,
    alloc: Global,
    path: &[u8],
    answers: &[Answer],
) -> Result<(), AllocError>
    ensures { OnOk result (out.new.items ≡ out.old.items ++ answers_text path.now (map answered answers.now)) }
{
    push_all(out, alloc, path, answers)?;
    push_count(out, answers)
}
