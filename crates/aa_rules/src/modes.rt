//! Modes of file rules (apparmor.d(5), "Access Modes").

ghost use Rattle.std.specs.Prelude.{◌≡◌, ◌≤◌, ◌&&◌, ◌++◌, true, None, length, is_some, IfSome, IfNone, OnSome, option_map};
ghost use Rattle.std.specs.List.{prefix_len};
ghost use Rattle.aa_rules.specs.Faults.{is_word_fault};
ghost use Rattle.aa_rules.specs.FileRules.{names_profile, takes_target};
ghost use Rattle.aa_rules.specs.Modes.{letter_bits, letters_bits, has_letter, is_access_letter, is_exec_letter, how, exec_of, with_part, parts_of, writes_and_appends, mode_of, begins_mixed, frees_part, is_mixed, mode_fault};

use crate::names::begins_with_all;
use aa_base::{Perms, PolicyKind};
use aa_model::{ExecKind, Fallback};
use bitflags::Flags;

/// How a mode lets a program be executed.
#[derive(Clone, Copy, Debug, PartialEq, Eq)]
pub struct ExecMode {
    pub kind: ExecKind,
    pub scrub: bool,
    pub fallback: Fallback,
}

/// What a mode says.
#[derive(Clone, Copy, Debug, PartialEq, Eq)]
pub struct Mode {
    pub perms: Perms,
    /// How the program may be executed, if a rule that allows lets it be.
    pub exec: Option<ExecMode>,
}

/// What one access letter grants.
fn letter(b: u8) -> Option<Perms>
    ensures { option_map (λ p. p.0) result ≡ letter_bits b }
{
    match b {
        b'r' => Some(Perms::READ),
        b'w' => Some(Perms::WRITE.union(Perms::APPEND)),
        b'a' => Some(Perms::APPEND),
        b'l' => Some(Perms::LINK),
        b'k' => Some(Perms::LOCK),
        b'm' => Some(Perms::MMAP),
        _ => None,
    }
}

/// What access letters grant beside these permissions.
fn letters_of(before: Perms, text: &[u8]) -> Option<Perms>
    ensures { option_map (λ p. p.0) result ≡ letters_bits (before.0) text.now }
{
    let mut perms = before;
    for b in text {
        let Some(bits) = letter(*b) else {
            return None;
        };
        perms.insert(bits);
    }
    Some(perms)
}

/// What the access letters before an exec part and those behind it grant together.
#[tactic(auto, using(crate::proofs::Letters::joined_none, crate::proofs::Letters::joined_some))]
fn access_of(front: &[u8], back: &[u8]) -> Option<Perms>
    ensures { option_map (λ p. p.0) result ≡ letters_bits 0 (front.now ++ back.now) }
{
    let Some(access) = letters_of(Perms(0), front) else {
        return None;
    };
    letters_of(access, back)
}

/// Whether a letter is among those of a mode.
fn contains(text: &[u8], c: u8) -> bool
    ensures { result ≡ has_letter c text.now }
{
    text.iter().any(|b| *b == c)
}

/// Whether a mode has `w` beside `a`.
fn writes_and_appends(mode: &[u8]) -> bool
    ensures { result ≡ writes_and_appends mode.now }
{
    contains(mode, b'w') && contains(mode, b'a')
}

/// Whether a letter grants access.
fn is_access_letter(b: u8) -> bool
    ensures { result ≡ is_access_letter b }
{
    letter(b).is_some()
}

/// Whether a letter may stand in an exec part.
fn is_exec_letter(b: u8) -> bool
    ensures { result ≡ is_exec_letter b }
{
    matches!(b, b'i' | b'u' | b'U' | b'p' | b'P' | b'c' | b'C' | b'x')
}

/// How many access letters stand first.
fn access_letters(text: &[u8]) -> usize
    ensures count { result ≡ prefix_len is_access_letter text.now }
    ensures within { result ≤ length text.now }
{
    for (i, b) in text.iter().enumerate() {
        if !is_access_letter(*b) {
            return i;
        }
    }
    text.len()
}

/// How many exec letters stand first.
fn exec_letters(text: &[u8]) -> usize
    ensures count { result ≡ prefix_len is_exec_letter text.now }
    ensures within { result ≤ length text.now }
{
    for (i, b) in text.iter().enumerate() {
        if !is_exec_letter(*b) {
            return i;
        }
    }
    text.len()
}

/// How an exec part lets a program be executed.
fn how(kind: ExecKind, scrub: bool, fallback: Fallback) -> Option<ExecMode>
    ensures { result ≡ how kind scrub fallback }
{
    Some(ExecMode {
        kind,
        scrub,
        fallback,
    })
}

/// Which exec part of a rule that allows the letters are.
#[tactic(auto, unfolding(crate::specs::Modes::exec_of))]
fn exec_of(part: &[u8]) -> Option<ExecMode>
    ensures { result ≡ exec_of part.now }
{
    match part {
        b"ix" => how(ExecKind::Inherit, false, Fallback::Refuse),
        b"ux" => how(ExecKind::Unconfined, false, Fallback::Refuse),
        b"Ux" => how(ExecKind::Unconfined, true, Fallback::Refuse),
        b"px" => how(ExecKind::Profile, false, Fallback::Refuse),
        b"Px" => how(ExecKind::Profile, true, Fallback::Refuse),
        b"cx" => how(ExecKind::Child, false, Fallback::Refuse),
        b"Cx" => how(ExecKind::Child, true, Fallback::Refuse),
        b"pix" => how(ExecKind::Profile, false, Fallback::Inherit),
        b"Pix" => how(ExecKind::Profile, true, Fallback::Inherit),
        b"cix" => how(ExecKind::Child, false, Fallback::Inherit),
        b"Cix" => how(ExecKind::Child, true, Fallback::Inherit),
        b"pux" => how(ExecKind::Profile, false, Fallback::Unconfined),
        b"PUx" => how(ExecKind::Profile, true, Fallback::Unconfined),
        b"cux" => how(ExecKind::Child, false, Fallback::Unconfined),
        b"CUx" => how(ExecKind::Child, true, Fallback::Unconfined),
        _ => None,
    }
}

/// The mode of these permissions with an exec part, if it has one. Under `deny` that is `x`.
#[tactic(auto, unfolding(crate::specs::Modes::with_part))]
fn with_part(access: Perms, part: &[u8], deny: bool) -> Option<Mode>
    ensures { result ≡ with_part deny part.now (access.0) }
{
    if part.is_empty() {
        return Some(Mode {
            perms: access,
            exec: None,
        });
    }
    let perms = access.union(Perms::EXEC);
    if deny {
        if part != "x".as_bytes() {
            return None;
        }
        return Some(Mode { perms, exec: None });
    }
    let exec = exec_of(part)?;
    Some(Mode {
        perms,
        exec: Some(exec),
    })
}

/// What a mode says where `w` may be written beside `a`.
fn parts_of(mode: &[u8], deny: bool) -> Option<Mode>
    ensures { result ≡ parts_of deny mode.now }
{
    let (front, rest) = mode.split_at(access_letters(mode));
    let (part, back) = rest.split_at(exec_letters(rest));
    let Some(access) = access_of(front, back) else {
        return None;
    };
    with_part(access, part, deny)
}

/// What a mode says in a rule with `deny` or without it.
// In code what a call is about stands first, as a method's `self`; in a definition it stands last, so that the definition can
// be handed on without its text.
#[tactic(auto, unfolding(crate::specs::Modes::mode_of))]
pub fn mode_of(mode: &[u8], deny: bool) -> Option<Mode>
    ensures { result ≡ mode_of deny mode.now }
{
    if writes_and_appends(mode) {
        return None;
    }
    parts_of(mode, deny)
}

/// Whether an exec part of mixed case stands first: one that scrubs in one half alone.
#[tactic(auto, unfolding(crate::specs::Modes::begins_mixed))]
fn begins_mixed(text: &[u8]) -> bool
    ensures { result ≡ begins_mixed text.now }
{
    begins_with_all(text, "pUx".as_bytes())
        || begins_with_all(text, "Pux".as_bytes())
        || begins_with_all(text, "cUx".as_bytes())
        || begins_with_all(text, "Cux".as_bytes())
}

/// Whether one stands first where one may begin.
fn is_mixed_here(may_begin: bool, text: &[u8]) -> bool
    ensures { result ≡ (may_begin && begins_mixed text.now) }
{
    may_begin && begins_mixed(text)
}

/// Whether an exec part may begin behind a letter: it is the `x` at the end of one, or stands in none.
fn frees_part(b: u8) -> bool
    ensures { result ≡ frees_part b }
{
    b == b'x' || !is_exec_letter(b)
}

/// Whether an exec part of mixed case stands in a mode.
fn is_mixed(mode: &[u8]) -> bool
    ensures { result ≡ is_mixed mode.now }
{
    let mut may_begin = true;
    for (i, b) in mode.iter().enumerate() {
        if is_mixed_here(may_begin, &mode[i..]) {
            return true;
        }
        may_begin = frees_part(*b);
    }
    false
}

/// What is wrong with a mode, if anything is, in a rule with `deny` or without it. A mixed-case exec part comes
/// first, then any other fault, then `w` beside `a`.
#[tactic(auto, unfolding(crate::specs::Modes::mode_of, crate::specs::Modes::mode_fault))]
pub fn mode_fault(mode: &[u8], deny: bool) -> Option<PolicyKind>
    ensures fault { result ≡ mode_fault deny mode.now }
    ensures right { IfNone result (is_some (mode_of deny mode.now) ≡ true) }
    ensures wrong { OnSome result (mode_of deny mode.now ≡ None) }
    ensures cause { IfSome result (λ k. is_word_fault k ≡ true) }
{
    if parts_of(mode, deny).is_some() {
        if writes_and_appends(mode) {
            return Some(PolicyKind::WriteWithAppend);
        }
        return None;
    }
    if is_mixed(mode) {
        return Some(PolicyKind::Unsupported);
    }
    Some(PolicyKind::BadMode)
}

/// Whether a program goes on under a profile of the policy.
fn names_profile(kind: ExecKind) -> bool
    ensures { result ≡ names_profile kind }
{
    matches!(kind, ExecKind::Profile | ExecKind::Child)
}

/// Whether a profile may be named behind a mode.
pub fn takes_target(exec: Option<ExecMode>) -> bool
    ensures { result ≡ takes_target exec }
{
    match exec {
        Some(mode) => names_profile(mode.kind),
        None => false,
    }
}
