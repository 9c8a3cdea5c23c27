//! The answer to one request where files are skipped.

ghost use Rattle.std.specs.Prelude.{◌≡◌, ◌∷◌, ◌++◌, [], map, Some, OnOk, IfOk, if◌then◌else◌};
ghost use Rattle.aa_mediate.specs.Reply.{reply};
ghost use Rattle.aa_ask.specs.Told.{verdict_on};
ghost use Rattle.aa_notation.specs.Kinds.{word_text};
ghost use Rattle.aa_undecided.specs.Answers.{Settled, placed, placed_data, placed_all, answered, answer_by, label_by, could_decide, files_among, files_deciding, answer_on, label_after, next_answer, next_label, undecided_by};

use crate::answered::{Answered, Doubt, SkippedAt};
use aa_ask::decide;
use aa_command::Decided;
use aa_compile::Compiled;
use aa_model::{Label, Request};
use aa_notation::word_of;
use aa_skipped::Skipped;
use aa_skipping::is_undecided;
use std::alloc::{AllocError, Global};

/// Where a skipped file's fault lies.
fn placed(alloc: Global, file: &Skipped) -> Result<SkippedAt, AllocError>
    ensures { IfOk result (λ f. placed_data f ≡ placed file.now) }
{
    Ok(SkippedAt {
        path: Vec::from_slice(alloc, file.path.as_slice())?,
        at: Vec::from_slice(alloc, file.fault.path.as_slice())?,
        place: file.fault.place,
    })
}

/// Where the fault of each skipped file lies.
pub fn all_placed(alloc: Global, skipped: &[Skipped]) -> Result<Vec<SkippedAt>, AllocError>
    ensures { IfOk result (λ files. placed_all files.items ≡ map placed skipped.now) }
{
    let mut files = Vec::new(alloc);
    for file in skipped {
        files.push(placed(alloc, file)?)?;
    }
    Ok(files)
}

/// Adds a file, if it could decide.
pub fn push_if(
    alloc: Global,
    files: &mut Vec<SkippedAt>,
    could: bool,
    file: &Skipped,
) -> Result<(), AllocError>
    ensures { OnOk result (placed_all files.new.items ≡ placed_all files.old.items ++ (if could then placed file.now ∷ [] else [])) }
{
    if !could {
        return Ok(());
    }
    files.push(placed(alloc, file)?)?;
    Ok(())
}

/// Whether profiles of a skipped file could change what is answered.
fn could_decide(
    alloc: Global,
    compiled: &Compiled,
    label: Label,
    request: &Request,
    file: &Skipped,
) -> Result<bool, AllocError>
    ensures { IfOk result (λ b. b ≡ could_decide compiled.now.profiles label request.now file.now) }
{
    is_undecided(alloc, compiled, &file.unread, label, request)
}

fn files_among(
    alloc: Global,
    skipped: &[Skipped],
    label: Label,
    request: &Request,
    compiled: &Compiled,
) -> Result<Vec<SkippedAt>, AllocError>
    ensures { IfOk result (λ files. placed_all files.items ≡ files_among skipped.now label request.now compiled.now) }
{
    let mut files = Vec::new(alloc);
    for file in skipped {
        let could = could_decide(alloc, compiled, label, request, file)?;
        push_if(alloc, &mut files, could, file)?;
    }
    Ok(files)
}

/// The skipped files whose profiles could change what is answered to a request of a task with that label.
#[tactic(auto, unfolding(crate::specs::Answers::files_deciding))]
pub fn files_deciding(
    alloc: Global,
    policies: &[Compiled],
    skipped: &[Skipped],
    label: Label,
    request: &Request,
) -> Result<Vec<SkippedAt>, AllocError>
    ensures { IfOk result (λ files. placed_all files.items ≡ files_deciding policies.now skipped.now label request.now) }
{
    match policies.get(0) {
        Some(compiled) => files_among(alloc, skipped, label, request, compiled),
        None => Ok(Vec::new(alloc)),
    }
}

/// A request that is undecided by these files.
pub(crate) fn undecided_by(
    alloc: Global,
    request: &Request,
    files: Vec<SkippedAt>,
) -> Result<Answered, AllocError>
    ensures { IfOk result (λ a. answered a ≡ undecided_by (placed_all files.items) request.now) }
{
    let word = word_of(alloc, request)?;
    Ok(Answered::Undecided(Doubt { word, files }))
}

/// The verdict on a request of a task with that label, and the label that it then has.
fn decide_on(
    alloc: Global,
    decided: Decided<'_>,
    label: Label,
    request: &Request,
) -> Result<(Answered, Option<Label>), AllocError>
    ensures answer { IfOk result (λ r. answered r.0 ≡ Settled (verdict_on decided.entry label request.now)) }
    ensures label { IfOk result (λ r. r.1 ≡ Some (reply decided.entry.policies.now label request.now).label) }
{
    let mut after = label;
    let verdict = decide(alloc, decided, &mut after, request)?;
    Ok((Answered::Decided(verdict), Some(after)))
}

/// What is answered by the files that could decide, and the label behind it, if that is known.
fn answer_by(
    alloc: Global,
    decided: Decided<'_>,
    label: Label,
    request: &Request,
    files: Vec<SkippedAt>,
) -> Result<(Answered, Option<Label>), AllocError>
    ensures answer { IfOk result (λ r. answered r.0 ≡ answer_by (word_text request.now) (verdict_on decided.entry label request.now) (placed_all files.items)) }
    ensures label { IfOk result (λ r. r.1 ≡ label_by (reply decided.entry.policies.now label request.now).label (placed_all files.items)) }
{
    match files.as_slice() {
        [] => decide_on(alloc, decided, label, request),
        [_, ..] => Ok((undecided_by(alloc, request, files)?, None)),
    }
}

/// What is answered to a request of a task with that label, and the label that it then has, if that is known.
#[tactic(auto, unfolding(crate::specs::Answers::answer_on, crate::specs::Answers::label_after))]
fn answer_on(
    alloc: Global,
    decided: Decided<'_>,
    skipped: &[Skipped],
    label: Label,
    request: &Request,
) -> Result<(Answered, Option<Label>), AllocError>
    ensures answer { IfOk result (λ r. answered r.0 ≡ answer_on decided.entry skipped.now label request.now) }
    ensures label { IfOk result (λ r. r.1 ≡ label_after decided.entry skipped.now label request.now) }
{
    let files = files_deciding(alloc, decided.policies, skipped, label, request)?;
    answer_by(alloc, decided, label, request, files)
}

/// What is answered to the next request of a task, of whose label it may not be known what it is. Behind a request that is undecided it
/// isn't.
pub(crate) fn answer_next(
    alloc: Global,
    decided: Decided<'_>,
    skipped: &[Skipped],
    label: &mut Option<Label>,
    request: &Request,
) -> Result<Answered, AllocError>
    ensures answer { IfOk result (λ a. answered a ≡ next_answer decided.entry skipped.now label.old request.now) }
    ensures label { OnOk result (label.new ≡ next_label decided.entry skipped.now label.old request.now) }
{
    let Some(before) = *label else {
        return undecided_by(alloc, request, Vec::new(alloc));
    };
    let (answer, after) = answer_on(alloc, decided, skipped, before, request)?;
    *label = after;
    Ok(answer)
}
