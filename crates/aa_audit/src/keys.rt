//! The operations of audit lines and their keys, for each kind of request.

ghost use Rattle.std.specs.Prelude.{◌≡◌, ◌++◌, OnOk, codes, decimal, option_map};
ghost use Rattle.std.specs.String.{string_bytes};
ghost use Rattle.aa_base.specs.Values.{quoted, value, mask};
ghost use Rattle.aa_audit.specs.Keys.{key, denied_key, target_key, file_keys, link_keys, exec_keys, capability_keys, network_keys, change_keys, operation_name, keys};

use aa_base::{Cap, Family, Perms, SockType, push_mask, push_quoted, push_value};
use aa_compile::{Compiled, name_of_label};
use aa_model::{
    Answer, ChangeRequest, ExecRequest, FileRequest, LinkRequest, Note, NoteWord, Request,
};
use itoa::Buffer;
use std::alloc::AllocError;

fn push_key(out: &mut String, name: &str) -> Result<(), AllocError>
    ensures { OnOk result (string_bytes out.new ≡ string_bytes out.old ++ (codes " " ++ name.now ++ codes "=")) }
{
    out.push_str(" ")?;
    out.push_str(name)?;
    out.push_str("=")
}

/// Appends a key with a name between quotes or in hexadecimal.
#[tactic(auto, unfolding(crate::specs::Keys::key))]
pub(crate) fn push_name(out: &mut String, name: &str, bytes: &[u8]) -> Result<(), AllocError>
    ensures { OnOk result (string_bytes out.new ≡ string_bytes out.old ++ key name.now (value bytes.now)) }
{
    push_key(out, name)?;
    push_value(out, bytes)
}

/// Appends a key with a text between quotes.
#[tactic(auto, unfolding(crate::specs::Keys::key))]
pub(crate) fn push_text(out: &mut String, name: &str, text: &str) -> Result<(), AllocError>
    ensures { OnOk result (string_bytes out.new ≡ string_bytes out.old ++ key name.now (quoted text.now)) }
{
    push_key(out, name)?;
    push_quoted(out, text)
}

#[tactic(auto, unfolding(crate::specs::Keys::key))]
fn push_perms(out: &mut String, name: &str, perms: Perms) -> Result<(), AllocError>
    ensures { OnOk result (string_bytes out.new ≡ string_bytes out.old ++ key name.now (mask perms.0)) }
{
    push_key(out, name)?;
    push_mask(out, perms)
}

#[tactic(auto, unfolding(crate::specs::Keys::key))]
fn push_number(out: &mut String, name: &str, number: u8) -> Result<(), AllocError>
    ensures { OnOk result (string_bytes out.new ≡ string_bytes out.old ++ key name.now (decimal number)) }
{
    push_key(out, name)?;
    let mut buffer = Buffer::new();
    out.push_str(buffer.format(number))
}

fn push_denied(out: &mut String, word: NoteWord, perms: Perms) -> Result<(), AllocError>
    ensures { OnOk result (string_bytes out.new ≡ string_bytes out.old ++ denied_key word perms.0) }
{
    match word {
        NoteWord::Denied => push_perms(out, "denied_mask", perms),
        NoteWord::Allowed => push_perms(out, "denied_mask", perms),
        NoteWord::Audit => Ok(()),
    }
}

fn push_target(out: &mut String, policies: &[Compiled], answer: &Answer) -> Result<(), AllocError>
    ensures { OnOk result (string_bytes out.new ≡ string_bytes out.old ++ target_key policies.now answer.now) }
{
    if answer.granted {
        push_name(out, "target", name_of_label(policies, answer.label))?;
    }
    Ok(())
}

fn push_file(out: &mut String, request: &FileRequest, note: Note) -> Result<(), AllocError>
    ensures { OnOk result (string_bytes out.new ≡ string_bytes out.old ++ file_keys request.now note) }
{
    push_name(out, "name", request.path())?;
    push_perms(out, "requested_mask", request.mask())?;
    push_denied(out, note.word, note.perms)
}

fn push_link(out: &mut String, request: &LinkRequest, note: Note) -> Result<(), AllocError>
    ensures { OnOk result (string_bytes out.new ≡ string_bytes out.old ++ link_keys request.now note) }
{
    push_name(out, "name", request.link())?;
    push_name(out, "target", request.target())?;
    push_perms(out, "requested_mask", Perms::LINK)?;
    push_denied(out, note.word, note.perms)
}

fn push_exec(
    out: &mut String,
    policies: &[Compiled],
    request: &ExecRequest,
    answer: &Answer,
    word: NoteWord,
) -> Result<(), AllocError>
    ensures { OnOk result (string_bytes out.new ≡ string_bytes out.old ++ exec_keys policies.now request.now answer.now word) }
{
    push_name(out, "name", request.path())?;
    push_perms(out, "requested_mask", Perms::EXEC)?;
    push_denied(out, word, Perms::EXEC)?;
    push_target(out, policies, answer)
}

fn push_capability(out: &mut String, cap: Cap) -> Result<(), AllocError>
    ensures { OnOk result (string_bytes out.new ≡ string_bytes out.old ++ capability_keys cap) }
{
    push_number(out, "capability", cap.number())?;
    push_text(out, "capname", cap.name())
}

fn push_network(out: &mut String, family: Family, kind: SockType) -> Result<(), AllocError>
    ensures { OnOk result (string_bytes out.new ≡ string_bytes out.old ++ network_keys family kind) }
{
    push_text(out, "family", family.name())?;
    push_text(out, "sock_type", kind.name())
}

fn push_change(out: &mut String, request: &ChangeRequest) -> Result<(), AllocError>
    ensures { OnOk result (string_bytes out.new ≡ string_bytes out.old ++ change_keys request.now) }
{
    push_name(out, "target", request.name())
}

/// How the operation of a request is called; a reload is none.
pub(crate) fn operation_of(request: &Request) -> Option<&'static str>
    ensures { option_map (λ o. o.now) result ≡ operation_name request.now }
{
    match request {
        Request::File(_) => Some("file"),
        Request::Link(_) => Some("link"),
        Request::Exec(_) => Some("exec"),
        Request::Cap(_) => Some("capable"),
        Request::Net(_, _) => Some("net"),
        Request::Change(_) => Some("change_profile"),
        Request::Reload(_) => None,
    }
}

/// Appends the keys that stand behind the profile. After an error `out` has a part of them, and is to be thrown away.
pub(crate) fn push_keys(
    out: &mut String,
    policies: &[Compiled],
    request: &Request,
    answer: &Answer,
    note: Note,
) -> Result<(), AllocError>
    ensures { OnOk result (string_bytes out.new ≡ string_bytes out.old ++ keys policies.now request.now answer.now note) }
{
    match request {
        Request::File(request) => push_file(out, request, note),
        Request::Link(request) => push_link(out, request, note),
        Request::Exec(request) => push_exec(out, policies, request, answer, note.word),
        Request::Cap(cap) => push_capability(out, *cap),
        Request::Net(family, kind) => push_network(out, *family, *kind),
        Request::Change(request) => push_change(out, request),
        Request::Reload(_) => Ok(()),
    }
}
