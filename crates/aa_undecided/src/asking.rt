//! What is answered where files are skipped.

ghost use Rattle.std.specs.Prelude.{◌≡◌, [], map, IfOk, Some};
ghost use Rattle.aa_files.specs.Texts.{texts};
ghost use Rattle.aa_ask.specs.Asked.{Gives, requests_of};
ghost use Rattle.aa_undecided.specs.Answers.{placed_data, placed_all, answered, answer_on, in_turn, answers_at, undecided_by, none_answered, answers_of, answers_by, files_opening, answers};

use crate::answered::{Answered, SkippedAt};
use crate::deciding::{answer_next, undecided_by};
use crate::opening::files_opening;
use aa_ask::{AskFault, Manner, opening_label, requests_of};
use aa_command::Decided;
use aa_model::{Label, Request};
use aa_skipped::Skipped;
use std::alloc::{AllocError, Global};

/// Answers a request by itself.
fn answer_alone(
    alloc: Global,
    decided: Decided<'_>,
    skipped: &[Skipped],
    opening: Label,
    request: &Request,
) -> Result<Answered, AllocError>
    ensures { IfOk result (λ a. answered a ≡ answer_on decided.entry skipped.now opening request.now) }
{
    let mut label = Some(opening);
    answer_next(alloc, decided, skipped, &mut label, request)
}

/// Answers each request by itself.
fn answer_each(
    alloc: Global,
    decided: Decided<'_>,
    skipped: &[Skipped],
    opening: Label,
    requests: &[Request],
) -> Result<Vec<Answered>, AllocError>
    ensures { IfOk result (λ answers. map answered answers.items ≡ map (answer_on decided.entry skipped.now opening) requests.now) }
{
    let mut answers = Vec::new(alloc);
    for request in requests {
        answers.push(answer_alone(alloc, decided, skipped, opening, request)?)?;
    }
    Ok(answers)
}

/// Answers the requests of one task, in turn.
#[tactic(auto, unfolding(crate::specs::Answers::in_turn))]
fn answer_in_turn(
    alloc: Global,
    decided: Decided<'_>,
    skipped: &[Skipped],
    opening: Label,
    requests: &[Request],
) -> Result<Vec<Answered>, AllocError>
    ensures { IfOk result (λ answers. map answered answers.items ≡ in_turn decided.entry skipped.now (Some opening) requests.now) }
{
    let mut label = Some(opening);
    let mut answers = Vec::new(alloc);
    let mut rest = requests;
    while let [request, after @ ..] = rest {
        answers.push(answer_next(alloc, decided, skipped, &mut label, request)?)?;
        rest = after;
    }
    Ok(answers)
}

fn answer_all(
    alloc: Global,
    decided: Decided<'_>,
    skipped: &[Skipped],
    is_sequence: bool,
    opening: Label,
    requests: &[Request],
) -> Result<Vec<Answered>, AllocError>
    ensures { IfOk result (λ answers. map answered answers.items ≡ answers_at decided.entry skipped.now is_sequence opening requests.now) }
{
    if is_sequence {
        answer_in_turn(alloc, decided, skipped, opening, requests)
    } else {
        answer_each(alloc, decided, skipped, opening, requests)
    }
}

fn copy_of(alloc: Global, file: &SkippedAt) -> Result<SkippedAt, AllocError>
    ensures { IfOk result (λ f. placed_data f ≡ placed_data file.now) }
{
    Ok(SkippedAt {
        path: Vec::from_slice(alloc, file.path.as_slice())?,
        at: Vec::from_slice(alloc, file.at.as_slice())?,
        place: file.place,
    })
}

fn copies_of(alloc: Global, files: &[SkippedAt]) -> Result<Vec<SkippedAt>, AllocError>
    ensures { IfOk result (λ copies. placed_all copies.items ≡ placed_all files.now) }
{
    let mut copies = Vec::new(alloc);
    for file in files {
        copies.push(copy_of(alloc, file)?)?;
    }
    Ok(copies)
}

/// A request that is undecided by these files.
fn leave_open(alloc: Global, files: &[SkippedAt], request: &Request) -> Result<Answered, AllocError>
    ensures { IfOk result (λ a. answered a ≡ undecided_by (placed_all files.now) request.now) }
{
    let copies = copies_of(alloc, files)?;
    undecided_by(alloc, request, copies)
}

/// Requests that are all undecided by these files.
fn answer_none(
    alloc: Global,
    files: &[SkippedAt],
    requests: &[Request],
) -> Result<Vec<Answered>, AllocError>
    ensures { IfOk result (λ answers. map answered answers.items ≡ map (undecided_by (placed_all files.now)) requests.now) }
{
    let mut answers = Vec::new(alloc);
    for request in requests {
        answers.push(leave_open(alloc, files, request)?)?;
    }
    Ok(answers)
}

/// Answers words where it isn't known for these files under which label is asked.
fn ask_none(
    alloc: Global,
    files: &[SkippedAt],
    manner: Manner<'_>,
    words: &[Vec<u8>],
) -> Result<Vec<Answered>, AskFault>
    ensures { Gives (λ answers. map answered answers.items) result (none_answered (placed_all files.now) (requests_of manner.entry.owned (texts words.now))) }
{
    let requests = requests_of(alloc, words, manner.owned)?;
    Ok(answer_none(alloc, files, requests.as_slice())?)
}

/// Answers words where the read files decide under which label is asked.
fn ask_read(
    alloc: Global,
    decided: Decided<'_>,
    skipped: &[Skipped],
    manner: Manner<'_>,
    words: &[Vec<u8>],
) -> Result<Vec<Answered>, AskFault>
    ensures { Gives (λ answers. map answered answers.items) result (answers_by decided.entry skipped.now manner.entry (requests_of manner.entry.owned (texts words.now)) []) }
{
    let opening = opening_label(alloc, decided, manner)?;
    let requests = requests_of(alloc, words, manner.owned)?;
    Ok(answer_all(
        alloc,
        decided,
        skipped,
        manner.is_sequence,
        opening,
        requests.as_slice(),
    )?)
}

/// Answers words by the files that could decide under which label is asked.
fn ask_by(
    alloc: Global,
    decided: Decided<'_>,
    skipped: &[Skipped],
    manner: Manner<'_>,
    words: &[Vec<u8>],
    files: &[SkippedAt],
) -> Result<Vec<Answered>, AskFault>
    ensures { Gives (λ answers. map answered answers.items) result (answers_by decided.entry skipped.now manner.entry (requests_of manner.entry.owned (texts words.now)) (placed_all files.now)) }
{
    match files {
        [] => ask_read(alloc, decided, skipped, manner, words),
        [_, ..] => ask_none(alloc, files, manner, words),
    }
}

/// Answers the request of each word: by itself, or all as those of one task. Each has the verdict of the files that are read, or is
/// undecided, where profiles of the skipped ones could change it. Refused where it isn't told which profile asks, where there is no
/// such profile or program, and at the first word that is no request.
#[tactic(auto, unfolding(crate::specs::Answers::answers))]
pub(crate) fn ask_part(
    alloc: Global,
    decided: Decided<'_>,
    skipped: &[Skipped],
    manner: Manner<'_>,
    words: &[Vec<u8>],
) -> Result<Vec<Answered>, AskFault>
    ensures { Gives (λ found. map answered found.items) result (answers decided.entry skipped.now manner.entry (texts words.now)) }
{
    let files = files_opening(alloc, decided, skipped, manner)?;
    ask_by(alloc, decided, skipped, manner, words, files.as_slice())
}
