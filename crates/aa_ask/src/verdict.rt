//! The answer to one request, and the rules that decided it.

ghost use Rattle.std.specs.Prelude.{◌≡◌, map, option_map, OnOk, OnErr, IfOk};
ghost use Rattle.std.specs.List.{list_any};
ghost use Rattle.aa_mediate.specs.Reply.{reply};
ghost use Rattle.aa_ask.specs.Verdicts.{is_by_complain, IsVerdict};
ghost use Rattle.aa_ask.specs.Named.{Named, named, lacked};
ghost use Rattle.aa_ask.specs.Told.{told, asker_of, is_same, is_confined, label_told, missing, is_allowed, unfound, told_by, told_of, verdict_on};

use crate::explained::{DeciderLine, Explained, Lack, explain};
use aa_command::Decided;
use aa_compile::{Compiled, name_of_label};
use aa_machine::Machine;
use aa_mediate::Mediator;
use aa_model::{Answer, Label, NoteWord, Request};
use aa_notation::word_of;
use std::alloc::{AllocError, Global};

/// The answer to a request, and why.
#[derive(Drop)]
pub struct Verdict {
    /// The request as one word.
    pub word: Vec<u8>,
    /// The full name of the profile that asks; none where the task isn't confined.
    pub asker: Option<Vec<u8>>,
    pub granted: bool,
    /// How the label after is called, where it is another than before.
    pub label: Option<Vec<u8>>,
    pub scrub: bool,
    /// Whether it is granted by complain mode alone.
    pub complain: bool,
    pub deciders: Vec<DeciderLine>,
    pub lacking: Vec<Lack>,
    /// What is missing besides, where all rules allow it.
    pub unfound: Option<&'static str>,
}

/// Whether one of these rules denies.
fn denies_one(deciders: &[DeciderLine]) -> bool
    ensures { result ≡ list_any (λ (l : DeciderLine). l.denies) deciders.now }
{
    deciders.iter().any(|line| line.denies)
}

fn is_one_denying(deciders: &[DeciderLine]) -> bool
    ensures { result ≡ list_any (λ (n : Named). n.denies) (map named deciders.now) }
{
    denies_one(deciders)
}

/// Whether all that is asked is allowed, and no rule denies it.
fn is_allowed(deciders: &[DeciderLine], lacking: &[Lack]) -> bool
    ensures { result ≡ is_allowed (map named deciders.now) (map lacked lacking.now) }
{
    lacking.is_empty() && !is_one_denying(deciders)
}

/// What can be missing where all that is asked is allowed.
pub fn missing(request: &Request) -> Option<&'static str>
    ensures { option_map (λ what. what.now) result ≡ missing request.now }
{
    match request {
        Request::Exec(_) => Some("no profile is found to go on in"),
        Request::Change(_) => Some("no profile has this name"),
        Request::Link(_) => Some("the target isn't executed as the link is"),
        _ => None,
    }
}

/// What is missing where no rule denies and all that is asked is allowed, and yet it is refused.
fn unfound(
    request: &Request,
    granted: bool,
    deciders: &[DeciderLine],
    lacking: &[Lack],
) -> Option<&'static str>
    ensures { option_map (λ what. what.now) result ≡ unfound request.now granted (map named deciders.now) (map lacked lacking.now) }
{
    if granted || !is_allowed(deciders, lacking) {
        return None;
    }
    missing(request)
}

/// Whether an answer is granted by complain mode alone.
fn is_by_complain(answer: &Answer) -> bool
    ensures { result ≡ is_by_complain answer.now }
{
    match answer.note {
        Some(note) => note.word == NoteWord::Allowed,
        None => false,
    }
}

/// Whether two labels are one.
pub fn is_same(before: Label, after: Label) -> bool
    ensures { result ≡ is_same before after }
{
    match (before, after) {
        (Label::Unconfined(before), Label::Unconfined(after)) => before == after,
        (Label::Confined(before, first), Label::Confined(after, second)) => {
            before == after && first == second
        }
        _ => false,
    }
}

/// Whether a task with that label is confined.
pub fn is_confined(label: Label) -> bool
    ensures { result ≡ is_confined label }
{
    matches!(label, Label::Confined(_, _))
}

fn name_after(
    alloc: Global,
    policies: &[Compiled],
    before: Label,
    after: Label,
) -> Result<Option<Vec<u8>>, AllocError>
    ensures { IfOk result (λ name. option_map (λ n. n.items) name ≡ label_told policies.now before after) }
{
    if is_same(before, after) {
        return Ok(None);
    }
    Ok(Some(Vec::from_slice(alloc, name_of_label(policies, after))?))
}

/// The full name of the profile that asks, if the task is confined.
pub fn asker_of(
    alloc: Global,
    policies: &[Compiled],
    label: Label,
) -> Result<Option<Vec<u8>>, AllocError>
    ensures { IfOk result (λ name. option_map (λ n. n.items) name ≡ asker_of policies.now label) }
{
    match label {
        Label::Unconfined(_) => Ok(None),
        Label::Confined(_, _) => Ok(Some(Vec::from_slice(alloc, name_of_label(policies, label))?)),
    }
}

/// What the mediator answers a task with that label.
fn answer_of(policies: &[Compiled], label: Label, request: &Request) -> Answer
    ensures { result ≡ reply policies.now label request.now }
{
    let mut after = label;
    Mediator::new(policies).step(&mut after, request)
}

/// What is told of an answer.
#[tactic(auto, unfolding(crate::specs::Told::told_by))]
fn verdict_of(
    word: Vec<u8>,
    asker: Option<Vec<u8>>,
    answer: &Answer,
    label: Option<Vec<u8>>,
    explained: Explained,
    unfound: Option<&'static str>,
) -> Verdict
    ensures verdict { IsVerdict answer.now result }
    ensures told { told result ≡ told_by word.items (option_map (λ n. n.items) asker) answer.now (option_map (λ n. n.items) label) (map named explained.deciders.items) (map lacked explained.lacking.items) (option_map (λ what. what.now) unfound.entry) }
{
    Verdict {
        word,
        asker,
        granted: answer.granted,
        label,
        scrub: answer.scrub,
        complain: is_by_complain(answer),
        deciders: explained.deciders,
        lacking: explained.lacking,
        unfound,
    }
}

/// What is told of an answer to a request of a task with that label, with the rules that decided it.
fn verdict_for(
    alloc: Global,
    decided: Decided<'_>,
    label: Label,
    request: &Request,
    answer: &Answer,
) -> Result<Verdict, AllocError>
    ensures verdict { IfOk result (λ v. IsVerdict answer.now v) }
    ensures told { IfOk result (λ v. told v ≡ told_of decided.entry label request.now answer.now) }
{
    let explained = explain(alloc, decided, label, request)?;
    let word = word_of(alloc, request)?;
    let asker = asker_of(alloc, decided.policies, label)?;
    let after = name_after(alloc, decided.policies, label, answer.label)?;
    let missing = unfound(
        request,
        answer.granted,
        explained.deciders.as_slice(),
        explained.lacking.as_slice(),
    );
    Ok(verdict_of(word, asker, answer, after, explained, missing))
}

/// The answer to a request of a task with that label, which moves to the answer's, and the rules that decided it.
#[tactic(auto, unfolding(crate::specs::Told::verdict_on))]
pub fn decide(
    alloc: Global,
    decided: Decided<'_>,
    label: &mut Label,
    request: &Request,
) -> Result<Verdict, AllocError>
    ensures told { IfOk result (λ v. IsVerdict (reply decided.entry.policies.now label.old request.now) v) }
    ensures verdict { IfOk result (λ v. told v ≡ verdict_on decided.entry label.old request.now) }
    ensures moved { OnOk result (label.new ≡ (reply decided.entry.policies.now label.old request.now).label) }
    ensures stays { OnErr result (label.new ≡ label.old) }
{
    let answer = answer_of(decided.policies, *label, request);
    let verdict = verdict_for(alloc, decided, *label, request, &answer)?;
    *label = answer.label;
    Ok(verdict)
}
