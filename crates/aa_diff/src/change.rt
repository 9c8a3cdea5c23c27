//! How a request was answered and is answered.

ghost use Rattle.std.specs.Prelude.{◌≡◌, ◌++◌, codes, OnOk, IfOk};
ghost use Rattle.aa_base.specs.Values.{mask};
ghost use Rattle.aa_diff.specs.Changes.{is_same, moves, tells_labels, label_word, granted_word, scrubbed_text, answer_word, note_word, note_letters, notes_text, both_text, change_by, change_text};

use aa_base::{Perms, Text, push_mask};
use aa_compile::{Compiled, name_of_label};
use aa_differences::Difference;
use aa_model::{Answer, Label, Note, NoteWord};
use aa_text::{push_name, push_text};
use std::alloc::{AllocError, Global};

/// Whether both are one label.
pub(crate) fn is_same(one: Label, other: Label) -> bool
    ensures { result ≡ is_same one other }
{
    match (one, other) {
        (Label::Unconfined(one), Label::Unconfined(other)) => one == other,
        (Label::Confined(one, number), Label::Confined(other, another)) => {
            one == other && number == another
        }
        _ => false,
    }
}

/// Whether an answer moves a task with that label.
fn moves(label: Label, answer: &Answer) -> bool
    ensures { result ≡ moves label answer.now }
{
    answer.granted && !is_same(label, answer.label)
}

/// Whether one of the answers moves the task, so that both tell the label.
fn tells_labels(difference: &Difference) -> bool
    ensures { result ≡ tells_labels difference.now }
{
    moves(difference.from, &difference.old) || moves(difference.to, &difference.new)
}

fn push_label_name(
    out: &mut Vec<u8>,
    alloc: Global,
    policies: &[Compiled],
    label: Label,
) -> Result<(), AllocError>
    ensures { OnOk result (out.new.items ≡ out.old.items ++ label_word policies.now label) }
{
    match label {
        Label::Unconfined(_) => push_text(out, "unconfined"),
        Label::Confined(_, _) => {
            push_text(out, "label ")?;
            push_name(out, alloc, name_of_label(policies, label))
        }
    }
}

fn push_scrubbed(out: &mut Vec<u8>, scrub: bool) -> Result<(), AllocError>
    ensures { OnOk result (out.new.items ≡ out.old.items ++ scrubbed_text scrub) }
{
    push_text(out, if scrub { " scrubbed" } else { "" })
}

fn push_granted(
    out: &mut Vec<u8>,
    alloc: Global,
    policies: &[Compiled],
    tells_labels: bool,
    label: Label,
) -> Result<(), AllocError>
    ensures { OnOk result (out.new.items ≡ out.old.items ++ granted_word policies.now tells_labels label) }
{
    if tells_labels {
        return push_label_name(out, alloc, policies, label);
    }
    push_text(out, "granted")
}

/// Appends what an answer says.
fn push_answer(
    out: &mut Vec<u8>,
    alloc: Global,
    policies: &[Compiled],
    tells_labels: bool,
    answer: &Answer,
) -> Result<(), AllocError>
    ensures { OnOk result (out.new.items ≡ out.old.items ++ answer_word policies.now tells_labels answer.now) }
{
    if !answer.granted {
        return push_text(out, "denied");
    }
    push_granted(out, alloc, policies, tells_labels, answer.label)?;
    push_scrubbed(out, answer.scrub)
}

fn answer_word(
    alloc: Global,
    policies: &[Compiled],
    tells_labels: bool,
    answer: &Answer,
) -> Result<Vec<u8>, AllocError>
    ensures { IfOk result (λ word. word.items ≡ answer_word policies.now tells_labels answer.now) }
{
    let mut word = Vec::new(alloc);
    push_answer(&mut word, alloc, policies, tells_labels, answer)?;
    Ok(word)
}

/// What is said of a note.
fn note_word(note: Option<Note>) -> &'static str
    ensures { result.now ≡ note_word note }
{
    match note {
        None => "not reported",
        Some(note) => match note.word {
            NoteWord::Allowed => "granted by complain mode",
            NoteWord::Denied => "reported",
            NoteWord::Audit => "reported",
        },
    }
}

/// Appends a space and the letters of permissions between quotes.
fn push_perms(out: &mut Vec<u8>, perms: Perms) -> Result<(), AllocError>
    ensures { OnOk result (out.new.items ≡ out.old.items ++ (codes " " ++ mask perms.0)) }
{
    push_text(out, " ")?;
    push_mask(out, perms)
}

/// Appends the permissions that are reported, if there are any.
fn push_note_letters(out: &mut Vec<u8>, note: Option<Note>) -> Result<(), AllocError>
    ensures { OnOk result (out.new.items ≡ out.old.items ++ note_letters note) }
{
    let Some(note) = note else {
        return Ok(());
    };
    if note.perms.0 == 0 {
        return Ok(());
    }
    push_perms(out, note.perms)
}

/// Appends what is reported of each answer, told apart by the permissions where both are reported alike.
fn push_notes(
    out: &mut Vec<u8>,
    before: Option<Note>,
    after: Option<Note>,
) -> Result<(), AllocError>
    ensures { OnOk result (out.new.items ≡ out.old.items ++ notes_text before after) }
{
    let one = note_word(before);
    let other = note_word(after);
    push_text(out, one)?;
    if one.as_bytes() != other.as_bytes() {
        push_text(out, " -> ")?;
        return push_text(out, other);
    }
    push_note_letters(out, before)?;
    push_text(out, " -> ")?;
    push_text(out, other)?;
    push_note_letters(out, after)
}

fn push_both(out: &mut Vec<u8>, before: &[u8], after: &[u8]) -> Result<(), AllocError>
    ensures { OnOk result (out.new.items ≡ out.old.items ++ both_text before.now after.now) }
{
    out.extend_from_slice(before)?;
    push_text(out, " -> ")?;
    out.extend_from_slice(after)
}

/// Appends what each answer says, or where both say the same what is reported of each.
fn push_change(
    out: &mut Vec<u8>,
    difference: &Difference,
    before: &[u8],
    after: &[u8],
) -> Result<(), AllocError>
    ensures { OnOk result (out.new.items ≡ out.old.items ++ change_by difference.now before.now after.now) }
{
    if before == after {
        return push_notes(out, difference.old.note, difference.new.note);
    }
    push_both(out, before, after)
}

/// How a request was answered, and how it is answered.
pub(crate) fn change_text(
    alloc: Global,
    old: &[Compiled],
    new: &[Compiled],
    difference: &Difference,
) -> Result<Text, AllocError>
    ensures { IfOk result (λ text. text ≡ change_text old.now new.now difference.now) }
{
    let tells = tells_labels(difference);
    let before = answer_word(alloc, old, tells, &difference.old)?;
    let after = answer_word(alloc, new, tells, &difference.new)?;
    let mut out = Vec::new(alloc);
    push_change(&mut out, difference, before.as_slice(), after.as_slice())?;
    Ok(Text::from_vec(out))
}
