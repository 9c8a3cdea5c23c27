//! What differs by the kind of a request: for each kind its word, written and read, and its item of a task's list.

ghost use Rattle.std.specs.Prelude.{◌≡◌, ◌++◌, option_and_then, IfOk, OnOk};
ghost use Rattle.aa_notation.specs.Read.{hex_in, Reads};
ghost use Rattle.aa_notation.specs.Kinds.{file_word, file_in, file_text, exec_word, exec_in, exec_text, link_word, link_in, link_text, cap_word, cap_in, net_word, net_in, net_text, change_word, change_in, reload_text, word_text, object_by, object_in, request_in, request_text, has_text};

use crate::digits::from_hex;
use crate::read::{WordFault, is_word, letters_of, made, path_of};
use crate::request::{
    cap_name, family_name, kind_name, push_first, push_mask_member, push_owned_end, push_single,
};
use crate::split::{behind, split_at};
use crate::write::{is_visible, push_owned, push_path};
use aa_base::{Cap, Family, Perms, SockType, push_hex, push_letters};
use aa_model::{ChangeRequest, ExecRequest, FileRequest, LinkRequest, Request};
use aa_text::{is_text, push_key, push_member, push_number, push_text};
use std::alloc::{AllocError, Global};

fn push_file_word(out: &mut Vec<u8>, file: &FileRequest) -> Result<(), AllocError>
    ensures { OnOk result (out.new.items ≡ out.old.items ++ file_word file.now) }
{
    push_owned(out, file.owned())?;
    push_letters(out, file.mask())?;
    push_text(out, ":")?;
    push_path(out, file.path(), false)
}

fn read_file(alloc: Global, letters: &[u8], text: &[u8], owned: bool) -> Result<Request, WordFault>
    ensures { Reads (λ r. r) result (file_in owned letters.now text.now) }
{
    let path = path_of(alloc, text)?;
    let Some(mask) = letters_of(Perms(0), letters) else {
        return Err(WordFault::NoRequest);
    };
    made(Request::file(alloc, path.as_slice(), mask, owned))
}

#[tactic(auto, unfolding(crate::specs::Kinds::file_text))]
fn push_file_item(out: &mut Vec<u8>, alloc: Global, file: &FileRequest) -> Result<(), AllocError>
    ensures { OnOk result (out.new.items ≡ out.old.items ++ file_text file.now) }
{
    push_text(out, "{")?;
    push_first(out, alloc, "file", file.path())?;
    push_mask_member(out, file.mask())?;
    push_owned_end(out, file.owned())
}

fn push_exec_word(out: &mut Vec<u8>, exec: &ExecRequest) -> Result<(), AllocError>
    ensures { OnOk result (out.new.items ≡ out.old.items ++ exec_word exec.now) }
{
    push_owned(out, exec.owned())?;
    push_text(out, "x:")?;
    push_path(out, exec.path(), false)
}

fn read_exec(alloc: Global, text: &[u8], owned: bool) -> Result<Request, WordFault>
    ensures { Reads (λ r. r) result (exec_in owned text.now) }
{
    let path = path_of(alloc, text)?;
    made(Request::exec(alloc, path.as_slice(), owned))
}

#[tactic(auto, unfolding(crate::specs::Kinds::exec_text))]
fn push_exec_item(out: &mut Vec<u8>, alloc: Global, exec: &ExecRequest) -> Result<(), AllocError>
    ensures { OnOk result (out.new.items ≡ out.old.items ++ exec_text exec.now) }
{
    push_text(out, "{")?;
    push_first(out, alloc, "exec", exec.path())?;
    push_owned_end(out, exec.owned())
}

fn push_link_word(out: &mut Vec<u8>, link: &LinkRequest) -> Result<(), AllocError>
    ensures { OnOk result (out.new.items ≡ out.old.items ++ link_word link.now) }
{
    push_owned(out, link.owned())?;
    push_text(out, "l:")?;
    push_path(out, link.link(), true)?;
    push_text(out, "->")?;
    push_path(out, link.target(), false)
}

fn read_link(alloc: Global, text: &[u8], owned: bool) -> Result<Request, WordFault>
    ensures { Reads (λ r. r) result (link_in owned text.now) }
{
    let Some((link, target)) = split_at(text, "->") else {
        return Err(WordFault::NoRequest);
    };
    let link = path_of(alloc, link)?;
    let target = path_of(alloc, target)?;
    made(Request::link(alloc, link.as_slice(), target.as_slice(), owned))
}

#[tactic(auto, unfolding(crate::specs::Kinds::link_text, crate::specs::Requests::member, aa_text::specs::Jsons::member_text))]
fn push_link_item(out: &mut Vec<u8>, alloc: Global, link: &LinkRequest) -> Result<(), AllocError>
    ensures { OnOk result (out.new.items ≡ out.old.items ++ link_text link.now) }
{
    push_text(out, "{")?;
    push_first(out, alloc, "link", link.link())?;
    push_member(out, alloc, "to", &link.target())?;
    push_owned_end(out, link.owned())
}

fn push_cap_word(out: &mut Vec<u8>, cap: Cap) -> Result<(), AllocError>
    ensures { OnOk result (out.new.items ≡ out.old.items ++ cap_word cap) }
{
    push_text(out, "cap:")?;
    push_text(out, cap.name())
}

fn read_cap(name: &[u8]) -> Result<Request, WordFault>
    ensures { Reads (λ r. r) result (cap_in name.now) }
{
    match Cap::from_name(name) {
        Some(cap) => Ok(Request::cap(cap)),
        None => Err(WordFault::NoRequest),
    }
}

fn push_net_word(out: &mut Vec<u8>, family: Family, kind: SockType) -> Result<(), AllocError>
    ensures { OnOk result (out.new.items ≡ out.old.items ++ net_word family kind) }
{
    push_text(out, "net:")?;
    push_text(out, family.name())?;
    push_text(out, "/")?;
    push_text(out, kind.name())
}

fn read_net(text: &[u8]) -> Result<Request, WordFault>
    ensures { Reads (λ r. r) result (net_in text.now) }
{
    let Some((family, kind)) = split_at(text, "/") else {
        return Err(WordFault::NoRequest);
    };
    match (Family::from_name(family), SockType::from_name(kind)) {
        (Some(family), Some(kind)) => Ok(Request::net(family, kind)),
        _ => Err(WordFault::NoRequest),
    }
}

#[tactic(auto, unfolding(crate::specs::Kinds::net_text, crate::specs::Requests::member, aa_text::specs::Jsons::member_text))]
fn push_net_item(
    out: &mut Vec<u8>,
    alloc: Global,
    family: Family,
    kind: SockType,
) -> Result<(), AllocError>
    ensures { OnOk result (out.new.items ≡ out.old.items ++ net_text family kind) }
{
    push_text(out, "{")?;
    push_first(out, alloc, "net", family_name(family))?;
    push_member(out, alloc, "type", &kind_name(kind))?;
    push_text(out, "}")
}

fn push_change_name(out: &mut Vec<u8>, name: &[u8]) -> Result<(), AllocError>
    ensures { OnOk result (out.new.items ≡ out.old.items ++ change_word name.now) }
{
    if is_visible(name) {
        push_text(out, "change:")?;
        out.extend_from_slice(name)
    } else {
        push_text(out, "change=")?;
        push_hex(out, name)
    }
}

fn push_change_word(out: &mut Vec<u8>, change: &ChangeRequest) -> Result<(), AllocError>
    ensures { OnOk result (out.new.items ≡ out.old.items ++ change_word change.now) }
{
    push_change_name(out, change.name())
}

fn read_change(alloc: Global, name: &[u8]) -> Result<Request, WordFault>
    ensures { Reads (λ r. r) result (change_in name.now) }
{
    made(Request::change(alloc, name))
}

fn read_hex_change(alloc: Global, text: &[u8]) -> Result<Request, WordFault>
    ensures { Reads (λ r. r) result (option_and_then change_in (hex_in text.now)) }
{
    let name = from_hex(alloc, text)?;
    read_change(alloc, name.as_slice())
}

#[tactic(auto, unfolding(crate::specs::Kinds::reload_text))]
fn push_reload_item(out: &mut Vec<u8>, policy: u16) -> Result<(), AllocError>
    ensures { OnOk result (out.new.items ≡ out.old.items ++ reload_text policy) }
{
    push_text(out, "{")?;
    push_key(out, "reload")?;
    push_number(out, policy)?;
    push_text(out, "}")
}

/// Appends a request as one word, as `read_word` reads it. After an error `out` has a part of it, and is to be thrown away.
pub fn push_word(out: &mut Vec<u8>, request: &Request) -> Result<(), AllocError>
    ensures { OnOk result (out.new.items ≡ out.old.items ++ word_text request.now) }
{
    match request {
        Request::File(file) => push_file_word(out, file),
        Request::Exec(exec) => push_exec_word(out, exec),
        Request::Link(link) => push_link_word(out, link),
        Request::Cap(cap) => push_cap_word(out, *cap),
        Request::Net(family, kind) => push_net_word(out, *family, *kind),
        Request::Change(change) => push_change_word(out, change),
        Request::Reload(_) => push_text(out, "reload"),
    }
}

/// A request as one word.
pub fn word_of(alloc: Global, request: &Request) -> Result<Vec<u8>, AllocError>
    ensures { IfOk result (λ word. word.items ≡ word_text request.now) }
{
    let mut word = Vec::new(alloc);
    push_word(&mut word, request)?;
    Ok(word)
}

fn read_by(alloc: Global, letters: &[u8], text: &[u8], owned: bool) -> Result<Request, WordFault>
    ensures { Reads (λ r. r) result (object_by owned letters.now text.now) }
{
    if is_word(letters, "x") {
        return read_exec(alloc, text, owned);
    }
    if is_word(letters, "l") {
        return read_link(alloc, text, owned);
    }
    read_file(alloc, letters, text, owned)
}

/// A request for a file, behind `owned:` or `other:`.
fn read_object(alloc: Global, word: &[u8], owned: bool) -> Result<Request, WordFault>
    ensures { Reads (λ r. r) result (object_in owned word.now) }
{
    match split_at(word, ":") {
        Some((letters, text)) => read_by(alloc, letters, text, owned),
        None => Err(WordFault::NoRequest),
    }
}

/// The request that a word is:
///
/// `[owned:|other:]LETTERS:PATH` asks to use a file, each letter of `rwakm` its one permission; `[owned:|other:]x:PATH` to execute it;
/// `[owned:|other:]l:PATH->PATH` to link the first to the second; `cap:NAME`, `net:FAMILY/TYPE` and `change:NAME` a capability, a
/// socket and another profile. A path begins with `/`, else it stands in upper-case hexadecimal digits, as the name behind `change=`
/// does. An object is the task's user's behind `owned:`, another's behind `other:`, and without a front as `owned` says.
#[tactic(auto, unfolding(crate::specs::Kinds::request_in))]
pub fn read_word(alloc: Global, word: &[u8], owned: bool) -> Result<Request, WordFault>
    ensures { Reads (λ r. r) result (request_in owned word.now) }
{
    if let Some(object) = behind(word, "owned:") {
        return read_object(alloc, object, true);
    }
    if let Some(object) = behind(word, "other:") {
        return read_object(alloc, object, false);
    }
    if let Some(name) = behind(word, "cap:") {
        return read_cap(name);
    }
    if let Some(text) = behind(word, "net:") {
        return read_net(text);
    }
    if let Some(name) = behind(word, "change:") {
        return read_change(alloc, name);
    }
    if let Some(text) = behind(word, "change=") {
        return read_hex_change(alloc, text);
    }
    read_object(alloc, word, owned)
}

/// Appends a request as an item of a task's list.
pub(crate) fn push_request(
    out: &mut Vec<u8>,
    alloc: Global,
    request: &Request,
) -> Result<(), AllocError>
    ensures { OnOk result (out.new.items ≡ out.old.items ++ request_text request.now) }
{
    match request {
        Request::File(file) => push_file_item(out, alloc, file),
        Request::Link(link) => push_link_item(out, alloc, link),
        Request::Exec(exec) => push_exec_item(out, alloc, exec),
        Request::Cap(cap) => push_single(out, alloc, "cap", cap_name(*cap)),
        Request::Net(family, kind) => push_net_item(out, alloc, *family, *kind),
        Request::Change(change) => push_single(out, alloc, "change", change.name()),
        Request::Reload(policy) => push_reload_item(out, *policy),
    }
}

/// Whether all of a request is UTF-8, as a job's texts are.
pub(crate) fn has_text(request: &Request) -> bool
    ensures { result ≡ has_text request.now }
{
    match request {
        Request::File(file) => is_text(file.path()),
        Request::Link(link) => is_text(link.link()) && is_text(link.target()),
        Request::Exec(exec) => is_text(exec.path()),
        Request::Change(change) => is_text(change.name()),
        Request::Cap(_) | Request::Net(_, _) | Request::Reload(_) => true,
    }
}
