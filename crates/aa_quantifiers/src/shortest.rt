//! The shortest request that is answered as is wanted.

ghost use Rattle.std.specs.Prelude.{◌≡◌, ◌⊎◌, ◌+◌, ◌<◌, IfOk, OnOk, false, true, length};
ghost use Rattle.std.specs.Option.{option_map_or};
ghost use Rattle.aa_mediate.specs.Reply.{reply};
ghost use Rattle.aa_quantifiers.specs.Quantities.{is_allowed_anyway, grants, IsBest};
ghost use Rattle.aa_quantifiers.specs.Aims.{IsMet, Meets};
ghost use Rattle.aa_quantifiers.specs.Orders.{Precedes, Follows};

use crate::aim::Aim;
use crate::order::{Order, is_better};
use aa_compile::Compiled;
use aa_machine::Machine;
use aa_mediate::Mediator;
use aa_model::{Answer, Label, Note, NoteWord, Request};
use std::alloc::AllocError;

/// Whether an answer is granted by complain mode alone.
fn is_by_complain(note: Option<Note>) -> bool
    ensures { result ≡ option_map_or (λ n. is_allowed_anyway n.word) note false }
{
    match note {
        Some(note) => note.word == NoteWord::Allowed,
        None => false,
    }
}

/// What is answered to a request of a task with that label.
fn answer_of(policies: &[Compiled], label: Label, request: &Request) -> Answer
    ensures { result ≡ reply policies.now label request.now }
{
    let mut label = label;
    Mediator::new(policies).step(&mut label, request)
}

/// Whether the rules allow what is answered so.
fn is_granted(answer: &Answer) -> bool
    ensures { result ≡ grants answer.now }
{
    answer.granted && !is_by_complain(answer.note)
}

/// Whether the rules allow it, or don't, as is wanted.
fn is_as_wanted(answer: &Answer, granted: bool) -> bool
    ensures yes { result ≡ true → grants answer.now ≡ granted }
    ensures no { result ≡ false → grants answer.now ≡ granted → ⊥ }
{
    if is_granted(answer) != granted {
        return false;
    }
    true
}

/// Whether an answer is one that is looked for.
fn is_met(aim: Aim<'_>, answer: &Answer) -> bool
    ensures yes { result ≡ true → Meets aim.entry answer.now }
    ensures no { result ≡ false → Meets aim.entry answer.now → ⊥ }
{
    match aim {
        Aim::Answered(granted) => is_as_wanted(answer, granted),
        Aim::Led(labels) => is_granted(answer) && labels.has(answer.label),
    }
}

/// Whether what is answered to a request is.
fn is_answered(policies: &[Compiled], label: Label, aim: Aim<'_>, request: &Request) -> bool
    ensures yes { result ≡ true → IsMet policies.now label aim.entry request.now }
    ensures no { result ≡ false → IsMet policies.now label aim.entry request.now → ⊥ }
{
    let answer = answer_of(policies, label, request);
    is_met(aim, &answer)
}

/// Whether a request is answered otherwise, or doesn't come before the best one.
fn is_passed(
    best: &Option<Request>,
    policies: &[Compiled],
    label: Label,
    aim: Aim<'_>,
    order: Order,
    request: &Request,
) -> bool
    ensures passed { result ≡ true → (IsMet policies.now label aim.entry request.now → ⊥) ⊎ Follows order request.now best.now }
    ensures better { result ≡ false → IsMet policies.now label aim.entry request.now × Precedes order request.now best.now }
{
    if !is_answered(policies, label, aim, request) {
        return true;
    }
    !is_better(order, request, best)
}

/// Takes a request for the best one, where it is answered so and comes before that.
fn take_if_better(
    best: &mut Option<Request>,
    policies: &[Compiled],
    label: Label,
    aim: Aim<'_>,
    order: Order,
    requests: &[Request],
    number: usize,
) -> Result<(), AllocError>
    requires within { number < length requests.now }
    requires best { IsBest order (IsMet policies.now label aim) requests.now number best.old }
    ensures { OnOk result (IsBest order (IsMet policies.now label aim.entry) requests.now (number + 1) best.new) }
{
    let request = &requests[number];
    if is_passed(best, policies, label, aim, order, request) {
        return Ok(());
    }
    *best = Some(request.try_clone()?);
    Ok(())
}

/// Of the requests that are answered as is wanted, one that comes first; none where there are none.
pub(crate) fn shortest(
    policies: &[Compiled],
    label: Label,
    aim: Aim<'_>,
    order: Order,
    requests: &[Request],
) -> Result<Option<Request>, AllocError>
    ensures { IfOk result (λ best. IsBest order (IsMet policies.now label aim.entry) requests.now (length requests.now) best) }
{
    let mut best = None;
    for number in 0..requests.len() {
        take_if_better(&mut best, policies, label, aim, order, requests, number)?;
    }
    Ok(best)
}
