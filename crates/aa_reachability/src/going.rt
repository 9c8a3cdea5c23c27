//! How a task goes on from label to label.

ghost use Rattle.std.specs.Prelude.{◌≡◌, true, false};
ghost use Rattle.aa_model.specs.declared.request.Request.{Request};
ghost use Rattle.aa_compile.specs.Labels.{policy_number, label_named};
ghost use Rattle.aa_mediate.specs.Reply.{found_or, reply};
ghost use Rattle.aa_reachability.specs.Moves.{is_by_complain, complains_by, label_kept, label_going, label_in};
ghost use Rattle.aa_reachability.specs.Granted.{IsGranted};

use crate::extent::number_of;
use aa_compile::{Compiled, label_of, profile_of};
use aa_machine::Machine;
use aa_mediate::Mediator;
use aa_model::{Answer, Label, NoteWord, Request};

/// The policies that decide, and whether a task moves by what complain mode alone grants.
#[derive(Clone, Copy)]
pub struct Going<'p> {
    pub policies: &'p [Compiled],
    /// It doesn't.
    pub as_enforced: bool,
}

/// Whether an answer is granted by complain mode alone.
pub fn is_by_complain(answer: &Answer) -> bool
    ensures { result ≡ is_by_complain answer.now }
{
    match answer.note {
        Some(note) => note.word == NoteWord::Allowed,
        None => false,
    }
}

/// The label of a task with that label after an answer, where it doesn't move by what complain mode alone grants.
fn label_kept(label: Label, answer: &Answer) -> Label
    ensures { result ≡ label_kept label answer.now }
{
    if is_by_complain(answer) {
        label
    } else {
        answer.label
    }
}

/// What the mediator answers a task with that label.
pub fn answer_of(policies: &[Compiled], label: Label, request: &Request) -> Answer
    ensures { result ≡ reply policies.now label request.now }
{
    let mut after = label;
    Mediator::new(policies).step(&mut after, request)
}

/// The label of a task after a request.
#[tactic(auto, unfolding(crate::specs::Moves::label_in))]
pub fn label_after(going: Going<'_>, label: Label, request: &Request) -> Label
    ensures going { result ≡ label_going going.entry.as_enforced going.entry.policies.now label request.now }
    ensures same { result ≡ label_in going.entry label request.now }
{
    let answer = answer_of(going.policies, label, request);
    if going.as_enforced {
        label_kept(label, &answer)
    } else {
        answer.label
    }
}

/// The label of the name that a change asks for, if there is one, else this one.
fn label_found(policies: &[Compiled], label: Label, name: &[u8]) -> Label
    ensures { result ≡ found_or label (label_named policies.now (policy_number label) name.now) }
{
    label_of(policies, number_of(label), name).unwrap_or(label)
}

/// The same, where it may be known that rules grant the change that is asked for: no rule is looked at then.
pub(crate) fn label_at(going: Going<'_>, label: Label, request: &Request, is_granted: bool) -> Label
    requires { is_granted ≡ true → IsGranted going.policies.now label request.now }
    ensures { result ≡ label_in going.entry label request.now }
{
    if is_granted {
        if let Request::Change(change) = request {
            return label_found(going.policies, label, change.name());
        }
    }
    label_after(going, label, request)
}

fn is_enforced_in(policies: &[Compiled], policy: u16, number: u16) -> bool
    ensures { result ≡ true → (r : Request) → complains_by policies.now (Label.Confined policy number) r ≡ false }
{
    match profile_of(policies, policy, number) {
        Some(profile) => !profile.complain,
        None => true,
    }
}

/// Whether a task with that label is in no profile in complain mode.
fn is_enforced(policies: &[Compiled], label: Label) -> bool
    ensures { result ≡ true → (r : Request) → complains_by policies.now label r ≡ false }
{
    match label {
        Label::Unconfined(_) => true,
        Label::Confined(policy, number) => is_enforced_in(policies, policy, number),
    }
}

/// Whether a request is granted by complain mode alone. No rule is looked at where the task is in no profile in that mode.
pub fn complains_by(policies: &[Compiled], label: Label, request: &Request) -> bool
    ensures { result ≡ complains_by policies.now label request.now }
{
    if is_enforced(policies, label) {
        return false;
    }
    is_by_complain(&answer_of(policies, label, request))
}
