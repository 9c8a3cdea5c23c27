//! Answers as they are printed.

ghost use Rattle.std.specs.Prelude.{◌≡◌, ◌++◌, map, OnOk};
ghost use Rattle.aa_text.specs.Faults.{where_if};
ghost use Rattle.aa_undecided.specs.Answers.{placed_data, placed_all, answered};
ghost use Rattle.aa_undecided.specs.Shown.{more_text, refused_at, files_text, doubt_reason, doubt_text, answer_text, answers_text};

use crate::answered::{Answered, Doubt, SkippedAt};
use aa_ask::push_verdict;
use aa_text::{PlaceAt, push_number, push_text, push_visible, push_where};
use std::alloc::{AllocError, Global};

fn push_more(out: &mut Vec<u8>, count: usize) -> Result<(), AllocError>
    ensures { OnOk result (out.new.items ≡ out.old.items ++ more_text count) }
{
    if count == 0 {
        return Ok(());
    }
    push_text(out, ", or ")?;
    push_number(out, count)?;
    push_text(out, " more")
}

fn push_place(out: &mut Vec<u8>, at: &[u8], place: Option<PlaceAt>) -> Result<(), AllocError>
    ensures { OnOk result (out.new.items ≡ out.old.items ++ where_if at.now place) }
{
    match place {
        Some(place) => push_where(out, at, place),
        None => push_visible(out, at),
    }
}

/// Appends where a file is refused: the path of the file that its fault is in, and the place in it, if it has one.
#[tactic(auto, unfolding(crate::specs::Shown::refused_at))]
pub fn push_refused_at(
    out: &mut Vec<u8>,
    at: &[u8],
    place: Option<PlaceAt>,
) -> Result<(), AllocError>
    ensures { OnOk result (out.new.items ≡ out.old.items ++ refused_at at.now place) }
{
    push_text(out, ", refused at ")?;
    push_place(out, at, place)
}

/// Appends which files could decide.
#[tactic(auto, unfolding(crate::specs::Shown::files_text))]
fn push_files(out: &mut Vec<u8>, file: &SkippedAt, more: usize) -> Result<(), AllocError>
    ensures { OnOk result (out.new.items ≡ out.old.items ++ files_text (placed_data file.now) more) }
{
    push_text(out, "    could be decided by ")?;
    push_visible(out, file.path.as_slice())?;
    push_refused_at(out, file.at.as_slice(), file.place)?;
    push_more(out, more)?;
    push_text(out, "\n")
}

/// Appends why a request is undecided: the files that could decide, or an earlier request.
pub fn push_reason(out: &mut Vec<u8>, files: &[SkippedAt]) -> Result<(), AllocError>
    ensures { OnOk result (out.new.items ≡ out.old.items ++ doubt_reason (placed_all files.now)) }
{
    match files {
        [file, more @ ..] => push_files(out, file, more.len()),
        [] => push_text(out, "    an earlier request is undecided\n"),
    }
}

/// Appends that a word is undecided, and why.
#[tactic(auto, unfolding(crate::specs::Shown::doubt_text))]
pub fn push_undecided(out: &mut Vec<u8>, word: &[u8], files: &[SkippedAt]) -> Result<(), AllocError>
    ensures { OnOk result (out.new.items ≡ out.old.items ++ doubt_text (record { word = word.now; files = placed_all files.now })) }
{
    push_text(out, "undecided ")?;
    out.extend_from_slice(word)?;
    push_text(out, "\n")?;
    push_reason(out, files)
}

fn push_doubt(out: &mut Vec<u8>, doubt: &Doubt) -> Result<(), AllocError>
    ensures { OnOk result (out.new.items ≡ out.old.items ++ doubt_text (record { word = doubt.now.word.items; files = placed_all doubt.now.files.items })) }
{
    push_undecided(out, doubt.word.as_slice(), doubt.files.as_slice())
}

fn push_answer(
    out: &mut Vec<u8>,
    alloc: Global,
    names_askers: bool,
    answer: &Answered,
) -> Result<(), AllocError>
    ensures { OnOk result (out.new.items ≡ out.old.items ++ answer_text names_askers (answered answer.now)) }
{
    match answer {
        Answered::Decided(verdict) => push_verdict(out, alloc, names_askers, verdict),
        Answered::Undecided(doubt) => push_doubt(out, doubt),
    }
}

/// Appends each answer with its reasons.
pub(crate) fn push_answers(
    out: &mut Vec<u8>,
    alloc: Global,
    names_askers: bool,
    answers: &[Answered],
) -> Result<(), AllocError>
    ensures { OnOk result (out.new.items ≡ out.old.items ++ answers_text names_askers (map answered answers.now)) }
{
    for answer in answers {
        push_answer(out, alloc, names_askers, answer)?;
    }
    Ok(())
}
