//! What a request is answered, and which answers a task can't tell apart.

ghost use Rattle.std.specs.Prelude.{◌≡◌, true, false, option_map};
ghost use Rattle.aa_mediate.specs.Reply.{reply};
ghost use Rattle.aa_differences.specs.Same.{name_of, SameLabel, SameAnswer};

use aa_compile::{Compiled, profile_of};
use aa_machine::Machine;
use aa_mediate::Mediator;
use aa_model::{Answer, Label, Note, Profile, Request};

/// What a task with that label is answered.
pub(crate) fn answer_of(policies: &[Compiled], label: Label, request: &Request) -> Answer
    ensures { result ≡ reply policies.now label request.now }
{
    let mut label = label;
    Mediator::new(policies).step(&mut label, request)
}

/// Whether both profiles are there and have one name, or neither is there.
fn same_name(one: Option<&Profile>, other: Option<&Profile>) -> bool
    ensures same { result ≡ true → name_of (option_map (λ p. p.now) one.entry) ≡ name_of (option_map (λ p. p.now) other.entry) }
    ensures differs { result ≡ false → name_of (option_map (λ p. p.now) one.entry) ≡ name_of (option_map (λ p. p.now) other.entry) → ⊥ }
{
    match (one, other) {
        (Some(one), Some(other)) => one.name.as_slice() == other.name.as_slice(),
        (None, None) => true,
        _ => false,
    }
}

/// Whether two labels are called the same.
fn same_label(old: &[Compiled], from: Label, new: &[Compiled], to: Label) -> bool
    ensures same { result ≡ true → SameLabel old.now new.now from to }
    ensures differs { result ≡ false → SameLabel old.now new.now from to → ⊥ }
{
    match (from, to) {
        (Label::Unconfined(policy), Label::Unconfined(other)) => policy == other,
        (Label::Confined(policy, number), Label::Confined(other, another)) => {
            if policy != other {
                return false;
            }
            same_name(
                profile_of(old, policy, number),
                profile_of(new, other, another),
            )
        }
        _ => false,
    }
}

fn same_note(one: Option<Note>, other: Option<Note>) -> bool
    ensures same { result ≡ true → one ≡ other }
    ensures differs { result ≡ false → one ≡ other → ⊥ }
{
    match (one, other) {
        (Some(one), Some(other)) => one == other,
        (None, None) => true,
        _ => false,
    }
}

/// Whether a task can't tell the answers apart.
pub(crate) fn same_answer(old: &[Compiled], before: Answer, new: &[Compiled], after: Answer) -> bool
    ensures same { result ≡ true → SameAnswer old.now new.now before after }
    ensures differs { result ≡ false → SameAnswer old.now new.now before after → ⊥ }
{
    if before.granted != after.granted {
        return false;
    }
    if before.scrub != after.scrub {
        return false;
    }
    if !same_note(before.note, after.note) {
        return false;
    }
    same_label(old, before.label, new, after.label)
}
