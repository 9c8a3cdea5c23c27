//! Audit lines.

ghost use Rattle.std.specs.Prelude.{◌≡◌, ◌++◌, [], OnOk, IfOk, is_some, option_map, unwrap_or};
ghost use Rattle.std.specs.String.{string_bytes};
ghost use Rattle.aa_audit.specs.Lines.{word_text, head_text, note_line, line};

use crate::keys::{operation_of, push_keys, push_name, push_text};
use aa_base::push_quoted;
use aa_compile::{Compiled, name_of_label};
use aa_model::{Answer, Label, Note, NoteWord, Request};
use std::alloc::{AllocError, Global};

fn text_of_word(word: NoteWord) -> &'static str
    ensures { result.now ≡ word_text word }
{
    match word {
        NoteWord::Denied => "DENIED",
        NoteWord::Allowed => "ALLOWED",
        NoteWord::Audit => "AUDIT",
    }
}

#[tactic(auto, unfolding(crate::specs::Lines::head_text))]
fn push_head(
    out: &mut String,
    word: NoteWord,
    operation: &str,
    profile: &[u8],
) -> Result<(), AllocError>
    ensures { OnOk result (string_bytes out.new ≡ string_bytes out.old ++ head_text word operation.now profile.now) }
{
    out.push_str("apparmor=")?;
    push_quoted(out, text_of_word(word))?;
    push_text(out, "operation", operation)?;
    push_name(out, "profile", profile)
}

#[tactic(auto, unfolding(crate::specs::Lines::note_line))]
fn push_note_line(
    out: &mut String,
    policies: &[Compiled],
    before: Label,
    request: &Request,
    answer: &Answer,
    note: Note,
) -> Result<bool, AllocError>
    ensures appended { OnOk result (string_bytes out.new ≡ string_bytes out.old ++ unwrap_or (note_line policies.now before request.now answer.now note) []) }
    ensures is_one { IfOk result (λ is_one. is_one ≡ is_some (note_line policies.now before request.now answer.now note)) }
{
    match operation_of(request) {
        Some(operation) => {
            push_head(out, note.word, operation, name_of_label(policies, before))?;
            push_keys(out, policies, request, answer, note)?;
            Ok(true)
        }
        None => Ok(false),
    }
}

/// Appends the audit line of an answer, without its line end, and tells whether there is one; else `out` stays. `before`
/// is the label of the task when it asked. After an error `out` has a part of the line, and is to be thrown away.
// The `denied_mask` of an execution is always `x`, so its line doesn't hang on the permissions of the note that is handed in.
pub fn push_audit_line(
    out: &mut String,
    policies: &[Compiled],
    before: Label,
    request: &Request,
    answer: &Answer,
) -> Result<bool, AllocError>
    ensures appended { OnOk result (string_bytes out.new ≡ string_bytes out.old ++ unwrap_or (line policies.now before request.now answer.now) []) }
    ensures is_one { IfOk result (λ is_one. is_one ≡ is_some (line policies.now before request.now answer.now)) }
{
    match answer.note {
        Some(note) => push_note_line(out, policies, before, request, answer, note),
        None => Ok(false),
    }
}

/// The audit line of an answer, without its line end, where the answer has a note and the request isn't a reload. `before`
/// is the label of the task when it asked.
pub fn audit_line(
    alloc: Global,
    policies: &[Compiled],
    before: Label,
    request: &Request,
    answer: &Answer,
) -> Result<Option<String>, AllocError>
    ensures { IfOk result (λ o. option_map string_bytes o ≡ line policies.now before request.now answer.now) }
{
    let mut out = String::new(alloc);
    if push_audit_line(&mut out, policies, before, request, answer)? {
        return Ok(Some(out));
    }
    Ok(None)
}
