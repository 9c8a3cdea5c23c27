//! What is said of a kind of fault.

ghost use Rattle.std.specs.Prelude.{◌≡◌, ◌++◌, codes, option_map, nat_le, length, drop, OnOk, IfOk, if◌then◌else◌};
ghost use Rattle.aa_diagnostics.specs.Words.{left_out};
ghost use Rattle.aa_diagnostics.specs.Sentences.{behind_colon, too_many_states, unsupported, begins_with_mark, unknown, too_large, message};

use crate::left_out::{from_place, part_at};
use aa_base::PolicyKind;
use aa_text::{push_number, push_text};
use std::alloc::{AllocError, Global};

#[tactic(auto, unfolding(crate::specs::Sentences::too_many_states))]
fn push_too_many_states(out: &mut Vec<u8>, states: u32) -> Result<(), AllocError>
    ensures { OnOk result (out.new.items ≡ out.old.items ++ too_many_states states) }
{
    push_text(out, "more than ")?;
    push_number(out, states)?;
    push_text(out, " states are needed; --states N raises the limit")
}

fn push_behind_colon(out: &mut Vec<u8>, part: Option<&'static str>) -> Result<(), AllocError>
    ensures { OnOk result (out.new.items ≡ out.old.items ++ behind_colon (option_map (λ p. p.now) part.entry)) }
{
    if let Some(part) = part {
        push_text(out, ": ")?;
        push_text(out, part)?;
    }
    Ok(())
}

#[tactic(auto, unfolding(crate::specs::Sentences::unsupported))]
fn push_unsupported(out: &mut Vec<u8>, text: &[u8], byte: usize) -> Result<(), AllocError>
    ensures { OnOk result (out.new.items ≡ out.old.items ++ unsupported text.now byte) }
{
    push_text(out, "this part of the language is left out")?;
    push_behind_colon(out, part_at(text, byte))
}

fn syntax(text: &[u8], byte: usize) -> &'static str
    ensures { result.now ≡ (if nat_le (length text.now) byte then codes "the text ends too early" else codes "this can't stand here") }
{
    if byte >= text.len() {
        "the text ends too early"
    } else {
        "this can't stand here"
    }
}

/// Whether the mark stands first that some editors put before a text in UTF-8.
fn begins_with_mark(text: &[u8]) -> bool
    ensures { result ≡ begins_with_mark text.now }
{
    match text {
        [a, b, c, ..] => *a == 0xEF && *b == 0xBB && *c == 0xBF,
        _ => false,
    }
}

fn unknown(text: &[u8]) -> &'static str
    ensures { result.now ≡ unknown text.now }
{
    if begins_with_mark(text) {
        "a byte order mark stands here; save the text without it"
    } else {
        "no table has this word"
    }
}

fn too_large(text: &[u8]) -> &'static str
    ensures { result.now ≡ too_large text.now }
{
    match text {
        [] => {
            "they have more than 4,096 profiles, or 65,535 patterns of attachments at the top level"
        }
        [_, ..] => "this expands to more than 16,384 bytes",
    }
}

/// Appends what is wrong at a byte of a text, in one sentence.
fn push_message(
    out: &mut Vec<u8>,
    kind: PolicyKind,
    states: u32,
    text: &[u8],
    byte: usize,
) -> Result<(), AllocError>
    ensures { OnOk result (out.new.items ≡ out.old.items ++ message states text.now byte kind) }
{
    match kind {
        PolicyKind::NoMemory => push_text(out, "no memory"),
        PolicyKind::MissingInclude => push_text(out, "nothing of that name is there"),
        PolicyKind::IncludeDepth => push_text(out, "includes go more than 16 deep here"),
        PolicyKind::Syntax => push_text(out, syntax(text, byte)),
        PolicyKind::Unsupported => push_unsupported(out, text, byte),
        PolicyKind::UnknownWord => push_text(out, unknown(from_place(text, byte))),
        PolicyKind::BadMode => push_text(out, "this is no mode that can stand here"),
        PolicyKind::WriteWithAppend => push_text(out, "a mode has w or a, not both"),
        PolicyKind::BadPattern => push_text(out, "this pattern can't be read"),
        PolicyKind::RelativePath => push_text(out, "this path doesn't begin with /"),
        PolicyKind::UndefinedVariable => push_text(out, "a variable here is not set"),
        PolicyKind::VariableTwice => push_text(out, "this variable is set already, += adds to it"),
        PolicyKind::VariableCircle => push_text(out, "a variable here leads back to itself"),
        PolicyKind::TooManyExpansions => push_text(out, "this stands for more than 1,024 patterns"),
        PolicyKind::DuplicateProfile => push_text(out, "an earlier profile has this name"),
        PolicyKind::ConflictingExec => push_text(
            out,
            "two rules of this profile say otherwise how one program runs",
        ),
        PolicyKind::TooManyStates => push_too_many_states(out, states),
        PolicyKind::TooLarge => push_text(out, too_large(text)),
    }
}

/// What is wrong at a byte of a text, in one sentence; an automaton may have so many states.
pub(crate) fn message_of(
    alloc: Global,
    kind: PolicyKind,
    states: u32,
    text: &[u8],
    byte: usize,
) -> Result<Vec<u8>, AllocError>
    ensures { IfOk result (λ said. said.items ≡ message states text.now byte kind) }
{
    let mut out = Vec::new(alloc);
    push_message(&mut out, kind, states, text, byte)?;
    Ok(out)
}
