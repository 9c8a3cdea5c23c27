//! The request that the fields of a line are.

ghost use Rattle.std.specs.Prelude.{◌≡◌, ◌==◌, ◌||◌, option_map, None, Some, Ok, Err, codes, if◌then◌else◌};
ghost use Rattle.std.specs.Option.{option_and_then, option_or};
ghost use Rattle.aa_model.specs.Requests.{is_path};
ghost use Rattle.aa_logs.specs.declared.line.Reason.TheVariants.{Mask, Path};
ghost use Rattle.aa_logs.specs.Masks.{letters_bits};
ghost use Rattle.aa_logs.specs.Fields.{raw_in, place_of};
ghost use Rattle.aa_logs.specs.Asked.{Tells, Because, keyword_of, passed_over, halves_by, halves_at, halves_in, mask_owner, mask_of, asked_mask, owned_in, is_text_there, cap_in, exec_in, link_in, change_in, net_by, file_in, requested, object_in, by_operation, asked_in, because, made_of};

use crate::field::{begins, either_text, is_text, number_in, place_of, raw_of, text_of};
use crate::key::Key;
use crate::keyed::KeyedWords;
use crate::line::{Reason, Refusal};
use crate::mask::{letters_of, owned_by};
use aa_base::{Cap, Family, Perms, SockType};
use aa_model::{Request, RequestFault};
use bitflags::Flags;
use std::alloc::Global;

/// Why a request that can't be made is none.
fn because(fault: RequestFault) -> Refusal
    ensures { result ≡ because fault }
{
    match fault {
        RequestFault::NoMemory => Refusal::NoMemory,
        RequestFault::BadPath => Refusal::Skipped(Reason::Path),
        RequestFault::BadMask => Refusal::Skipped(Reason::Mask),
        RequestFault::BadName => Refusal::Skipped(Reason::Name),
    }
}

fn made(request: Result<Request, RequestFault>) -> Result<Request, Refusal>
    ensures { result ≡ made_of request }
{
    match request {
        Ok(request) => Ok(request),
        Err(fault) => Err(because(fault)),
    }
}

/// The keyword of the rule that never decides here, of a class or an operation.
#[tactic(auto, unfolding(crate::specs::Asked::keyword_of))]
fn keyword(operation: &[u8]) -> Option<&'static str>
    ensures { option_map (λ k. k.now) result ≡ keyword_of operation.now }
{
    if begins(operation, "dbus_") {
        return Some("dbus");
    }
    if begins(operation, "uring_") {
        return Some("io_uring");
    }
    if is_text(operation, "ptrace") {
        return Some("ptrace");
    }
    if is_text(operation, "signal") {
        return Some("signal");
    }
    if is_text(operation, "mount") {
        return Some("mount");
    }
    if is_text(operation, "umount") {
        return Some("umount");
    }
    if is_text(operation, "remount") {
        return Some("remount");
    }
    if is_text(operation, "pivotroot") {
        return Some("pivot_root");
    }
    if is_text(operation, "setrlimit") {
        return Some("set");
    }
    if is_text(operation, "posix_mqueue") || is_text(operation, "sysv_mqueue") {
        return Some("mqueue");
    }
    if is_text(operation, "io_uring") {
        return Some("io_uring");
    }
    if is_text(operation, "namespace") || is_text(operation, "userns_create") {
        return Some("userns");
    }
    if is_text(operation, "change_hat") {
        return Some("change_hat");
    }
    if is_text(operation, "change_onexec") {
        return Some("change_profile");
    }
    if is_text(operation, "stack") || is_text(operation, "stack_onexec") {
        return Some("stack");
    }
    None
}

/// The keyword of the rule that a line is about and that never decides here, by its class or else by its operation.
fn passed_over(words: &KeyedWords<'_>, operation: &[u8]) -> Option<&'static str>
    ensures { option_map (λ k. k.now) result ≡ passed_over operation.now words.now }
{
    let by_class = match raw_of(words, Key::Class) {
        Some(class) => keyword(class),
        None => None,
    };
    match by_class {
        Some(word) => Some(word),
        None => keyword(operation),
    }
}

/// A requested mask.
#[derive(Clone, Copy, Debug)]
struct Asked {
    mask: Perms,
    /// Whose object it is, where the mask tells: of an old mask with halves the first is an owner's.
    owned: Option<bool>,
}

/// The letters of a mask that stand before two colons or behind them, and whose object it is by that.
fn halves_by<'t>(front: &'t [u8], back: &'t [u8]) -> Option<(&'t [u8], Option<bool>)>
    ensures { option_map (λ h. (h.0.now, h.1)) result ≡ halves_by front.entry.now back.entry.now }
{
    match (front, back) {
        (_, []) => Some((front, Some(true))),
        ([], _) => Some((back, Some(false))),
        _ => None,
    }
}

/// The letters of a mask, and whose object it is by an old mask.
fn halves_of(text: &[u8]) -> Option<(&[u8], Option<bool>)>
    ensures { option_map (λ h. (h.0.now, h.1)) result ≡ halves_in text.entry.now }
{
    match place_of(text, "::") {
        Some(at) => halves_by(&text[..at], &text[at + 2..]),
        None => Some((text, None)),
    }
}

fn owner_in(text: &[u8]) -> Option<bool>
    ensures { result ≡ option_and_then (λ h. h.1) (halves_in text.now) }
{
    match halves_of(text) {
        Some((_, owned)) => owned,
        None => None,
    }
}

fn mask_of(mask: Option<Perms>, owned: Option<bool>) -> Option<Asked>
    ensures { option_map (λ a. (a.mask.0, a.owned)) result ≡ mask_of (option_map (λ p. p.0) mask) owned }
{
    let mask = mask?;
    if mask.is_empty() {
        return None;
    }
    Some(Asked { mask, owned })
}

fn asked_by(text: &[u8]) -> Option<Asked>
    ensures { option_map (λ a. (a.mask.0, a.owned)) result ≡ asked_mask text.now }
{
    let (letters, owned) = halves_of(text)?;
    mask_of(letters_of(Perms(0), letters), owned)
}

fn is_owned(words: &KeyedWords<'_>, by_mask: Option<bool>) -> bool
    ensures { result ≡ owned_in by_mask words.now }
{
    owned_by(
        number_in(words, Key::Fsuid),
        number_in(words, Key::Ouid),
        by_mask,
    )
}

/// Whose the object is, by an old mask.
fn mask_owner(words: &KeyedWords<'_>) -> Option<bool>
    ensures { result ≡ mask_owner words.now }
{
    match raw_of(words, Key::RequestedMask) {
        Some(letters) => owner_in(letters),
        None => None,
    }
}

/// The name of a capability.
fn cap_name<'s>(words: &KeyedWords<'s>) -> Option<&'s [u8]>
    ensures { option_map (λ t. t.now) result ≡ option_or (raw_in (codes "capname") words.entry.now) (raw_in (codes "name") words.entry.now) }
{
    match raw_of(words, Key::Capname) {
        Some(name) => Some(name),
        None => raw_of(words, Key::Name),
    }
}

fn cap_of(words: &KeyedWords<'_>) -> Result<Request, Refusal>
    ensures { Tells (λ r. r) result (cap_in words.now) }
{
    let Some(name) = cap_name(words) else {
        return Err(Refusal::Skipped(Reason::Capability));
    };
    match Cap::from_name(name) {
        Some(cap) => Ok(Request::cap(cap)),
        None => Err(Refusal::Skipped(Reason::Capability)),
    }
}

fn exec_of(alloc: Global, words: &KeyedWords<'_>) -> Result<Request, Refusal>
    ensures { Tells (λ r. r) result (exec_in words.now) }
{
    let Some(path) = text_of(alloc, words, Key::Name)? else {
        return Err(Refusal::Skipped(Reason::Path));
    };
    let owned = is_owned(words, mask_owner(words));
    made(Request::exec(alloc, path.as_slice(), owned))
}

fn link_of(alloc: Global, words: &KeyedWords<'_>) -> Result<Request, Refusal>
    ensures { Tells (λ r. r) result (link_in words.now) }
{
    let Some(link) = text_of(alloc, words, Key::Name)? else {
        return Err(Refusal::Skipped(Reason::Path));
    };
    let Some(target) = either_text(alloc, words, Key::Target, Key::Name2)? else {
        return Err(Refusal::Skipped(Reason::Path));
    };
    let owned = is_owned(words, mask_owner(words));
    made(Request::link(alloc, link.as_slice(), target.as_slice(), owned))
}

fn change_of(alloc: Global, words: &KeyedWords<'_>) -> Result<Request, Refusal>
    ensures { Tells (λ r. r) result (change_in words.now) }
{
    let Some(name) = either_text(alloc, words, Key::Target, Key::Name)? else {
        return Err(Refusal::Skipped(Reason::Name));
    };
    made(Request::change(alloc, name.as_slice()))
}

fn net_of(family: &[u8], kind: &[u8]) -> Result<Request, Refusal>
    ensures { Tells (λ r. r) result (net_by family.now kind.now) }
{
    if is_text(family, "unix") {
        return Err(Refusal::Skipped(Reason::Rule("unix")));
    }
    match (Family::from_name(family), SockType::from_name(kind)) {
        (Some(family), Some(kind)) => Ok(Request::net(family, kind)),
        _ => Err(Refusal::Skipped(Reason::Socket)),
    }
}

/// Why a line with a mask that is none gives no request: its path, where that can't be asked for, or else the mask.
fn no_mask(alloc: Global, path: &[u8]) -> Result<Request, Refusal>
    ensures { Tells (λ r. r) result (Err (Because (if is_path path.now then Mask else Path))) }
{
    made(Request::file(alloc, path, Perms(0), false))
}

fn file_of(alloc: Global, words: &KeyedWords<'_>, letters: &[u8]) -> Result<Request, Refusal>
    ensures { Tells (λ r. r) result (file_in words.now letters.now) }
{
    let Some(path) = text_of(alloc, words, Key::Name)? else {
        return Err(Refusal::Skipped(Reason::Operation));
    };
    let Some(asked) = asked_by(letters) else {
        return no_mask(alloc, path.as_slice());
    };
    let owned = is_owned(words, asked.owned);
    made(Request::file(alloc, path.as_slice(), asked.mask, owned))
}

/// The use of a file that a requested mask asks for.
fn requested(alloc: Global, words: &KeyedWords<'_>) -> Result<Request, Refusal>
    ensures { Tells (λ r. r) result (requested words.now) }
{
    match raw_of(words, Key::RequestedMask) {
        Some(letters) => file_of(alloc, words, letters),
        None => Err(Refusal::Skipped(Reason::Operation)),
    }
}

/// The request of an operation that isn't known by its name.
fn object_of(alloc: Global, words: &KeyedWords<'_>) -> Result<Request, Refusal>
    ensures { Tells (λ r. r) result (object_in words.now) }
{
    match (raw_of(words, Key::Family), raw_of(words, Key::SockType)) {
        (Some(family), Some(kind)) => net_of(family, kind),
        _ => requested(alloc, words),
    }
}

/// The request of an operation that rules decide here.
#[tactic(auto, unfolding(crate::specs::Asked::by_operation))]
fn by_operation(alloc: Global, words: &KeyedWords<'_>, operation: &[u8]) -> Result<Request, Refusal>
    ensures { Tells (λ r. r) result (by_operation words.now operation.now) }
{
    if is_text(operation, "capable") {
        return cap_of(words);
    }
    if is_text(operation, "exec") {
        return exec_of(alloc, words);
    }
    if is_text(operation, "link") || is_text(operation, "inode_link") {
        return link_of(alloc, words);
    }
    if is_text(operation, "change_profile") {
        return change_of(alloc, words);
    }
    object_of(alloc, words)
}

/// Whether a line says that no rule decided, since the task may gain no privileges.
fn is_without_rule(words: &KeyedWords<'_>) -> bool
    ensures { result ≡ is_text_there (codes "no new privs") (raw_in (codes "info") words.now) }
{
    match raw_of(words, Key::Info) {
        Some(text) => is_text(text, "no new privs"),
        None => false,
    }
}

/// The request that the fields of a line are, or why they are none.
#[tactic(auto, unfolding(crate::specs::Asked::asked_in))]
pub(crate) fn asked_of(alloc: Global, words: &KeyedWords<'_>) -> Result<Request, Refusal>
    ensures { Tells (λ r. r) result (asked_in words.now) }
{
    let Some(operation) = raw_of(words, Key::Operation) else {
        return Err(Refusal::Skipped(Reason::Broken));
    };
    if is_without_rule(words) {
        return Err(Refusal::Skipped(Reason::NoNewPrivs));
    }
    if let Some(word) = passed_over(words, operation) {
        return Err(Refusal::Skipped(Reason::Rule(word)));
    }
    by_operation(alloc, words, operation)
}
