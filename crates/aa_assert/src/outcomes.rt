//! What is told of claims, one after another.

ghost use Rattle.std.specs.Prelude.{◌≡◌, ◌++◌, map, OnOk, IfOk};
ghost use Rattle.aa_undecided.specs.Answers.{placed_all};
ghost use Rattle.aa_assert.specs.Findings.{found};
ghost use Rattle.aa_assert.specs.Answers.{answered};
ghost use Rattle.aa_assert.specs.Outcomes.{Broken, Apart, outcome, doubts_of, outcomes_of, all_outcomes};

use crate::answering::Answer;
use crate::finding::Finding;
use crate::kind::Kind;
use crate::shown::files_open;
use aa_undecided::SkippedAt;
use std::alloc::{AllocError, Global};

/// What is told of the claim on the line of a number, from 1, which is of a kind.
#[derive(Clone, Copy)]
pub(crate) enum Outcome<'a> {
    /// It is broken so.
    Broken(usize, Kind, &'a Finding),
    /// It is undecided, by these skipped files.
    Undecided(usize, Kind, &'a [SkippedAt]),
    /// It is broken so at unclean paths alone, which don't count.
    Apart(usize, Kind, &'a Finding),
}

fn push_broken<'a>(
    out: &mut Vec<Outcome<'a>>,
    number: usize,
    kind: Kind,
    findings: &'a [Finding],
) -> Result<(), AllocError>
    ensures { OnOk result (map outcome out.new.items ≡ map outcome out.old.items ++ map (Broken number kind) (map found findings.now)) }
{
    for finding in findings {
        out.push(Outcome::Broken(number, kind, finding))?;
    }
    Ok(())
}

fn push_doubt<'a>(
    out: &mut Vec<Outcome<'a>>,
    number: usize,
    kind: Kind,
    files: &'a [SkippedAt],
) -> Result<(), AllocError>
    ensures { OnOk result (map outcome out.new.items ≡ map outcome out.old.items ++ doubts_of number kind (placed_all files.now)) }
{
    match files {
        [] => Ok(()),
        [_, ..] => {
            out.push(Outcome::Undecided(number, kind, files))?;
            Ok(())
        }
    }
}

fn push_apart<'a>(
    out: &mut Vec<Outcome<'a>>,
    number: usize,
    kind: Kind,
    findings: &'a [Finding],
) -> Result<(), AllocError>
    ensures { OnOk result (map outcome out.new.items ≡ map outcome out.old.items ++ map (Apart number kind) (map found findings.now)) }
{
    for finding in findings {
        out.push(Outcome::Apart(number, kind, finding))?;
    }
    Ok(())
}

fn push_outcomes<'a>(out: &mut Vec<Outcome<'a>>, answer: &'a Answer) -> Result<(), AllocError>
    ensures { OnOk result (map outcome out.new.items ≡ map outcome out.old.items ++ outcomes_of (answered answer.now)) }
{
    let Answer { number, kind, .. } = answer;
    push_broken(out, *number, *kind, answer.findings.list.as_slice())?;
    push_doubt(out, *number, *kind, files_open(answer))?;
    push_apart(out, *number, *kind, answer.findings.apart.as_slice())
}

/// What is told of each claim: by whom it is broken, or that it is undecided, and by whom it is broken at unclean paths alone.
pub(crate) fn all_outcomes<'a>(
    alloc: Global,
    answers: &'a [Answer],
) -> Result<Vec<Outcome<'a>>, AllocError>
    ensures { IfOk result (λ list. map outcome list.items ≡ all_outcomes (map answered answers.now)) }
{
    let mut list = Vec::new(alloc);
    for answer in answers {
        push_outcomes(&mut list, answer)?;
    }
    Ok(list)
}
