//! From the bits of a request to its answer.

ghost use Rattle.std.specs.Prelude.{◌≡◌, true, false};
ghost use Rattle.aa_mediate.specs.Decided.{blocked, note_of, refusal_note, grant_note, answered, decided, without_perms};

use crate::bits::RequestBits;
use aa_base::Perms;
use aa_model::{Answer, Label, Note, NoteWord, Profile};
use bitflags::Flags;

fn blocked_bits(profile: &Profile, bits: &RequestBits) -> Perms
    ensures { result.0 ≡ blocked profile.now bits.now }
{
    if profile.complain {
        bits.denied
    } else {
        bits.missing
    }
}

fn note_about(word: NoteWord, perms: Perms) -> Option<Note>
    ensures { result ≡ note_of word perms.0 }
{
    if perms.is_empty() {
        return None;
    }
    Some(Note { word, perms })
}

fn note_of_refusal(profile: &Profile, bits: &RequestBits) -> Option<Note>
    ensures { result ≡ refusal_note profile.now bits.now }
{
    let blocked = blocked_bits(profile, bits);
    if profile.audit {
        return note_about(NoteWord::Denied, blocked);
    }
    note_about(NoteWord::Denied, blocked.difference(bits.quiet))
}

fn note_of_grant(profile: &Profile, bits: &RequestBits) -> Option<Note>
    ensures { result ≡ grant_note profile.now bits.now }
{
    if !bits.missing.is_empty() {
        return note_about(NoteWord::Allowed, bits.missing);
    }
    if profile.audit {
        return note_about(NoteWord::Audit, bits.requested);
    }
    note_about(NoteWord::Audit, bits.audited)
}

/// Refused: the label stays.
pub(crate) fn refused(label: Label, note: Option<Note>) -> Answer
    ensures { result ≡ answered false false label note }
{
    Answer {
        granted: false,
        scrub: false,
        label,
        note,
    }
}

/// Granted, with that label from now on.
pub(crate) fn granted(label: Label, scrub: bool, note: Option<Note>) -> Answer
    ensures { result ≡ answered true scrub label note }
{
    Answer {
        granted: true,
        scrub,
        label,
        note,
    }
}

/// Refused where a bit is blocked; granted, the next label comes.
pub(crate) fn decide(
    profile: &Profile,
    label: Label,
    next: Label,
    scrub: bool,
    bits: &RequestBits,
) -> Answer
    ensures { result ≡ decided profile.now label next scrub bits.now }
{
    if blocked_bits(profile, bits).is_empty() {
        return granted(next, scrub, note_of_grant(profile, bits));
    }
    refused(label, note_of_refusal(profile, bits))
}

/// The same answer to a request that isn't about a file: its note names no permission.
pub(crate) fn unnamed(answer: Answer) -> Answer
    ensures { result ≡ without_perms answer }
{
    Answer {
        note: match answer.note {
            Some(note) => Some(Note {
                word: note.word,
                perms: Perms(0),
            }),
            None => None,
        },
        ..answer
    }
}
