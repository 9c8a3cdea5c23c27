//! How names and sets of permissions are written in a line.

ghost use Rattle.std.specs.Prelude.{◌≡◌, ◌<◌, ◌++◌, [], ◌∷◌, ◌==◌, bit_and, if◌then◌else◌, OnOk, IfSome, IsNone, false, true};
ghost use Rattle.std.specs.List.{list_all};
ghost use Rattle.aa_base.specs.Values.{is_shown, quoted, value, letter, letters, mask};

use crate::hex::push_hex;
use crate::perms::Perms;
use crate::sink::Sink;
use bitflags::Flags;
use std::alloc::AllocError;

fn is_plain(bytes: &[u8]) -> bool
    ensures { result ≡ list_all is_shown bytes.now }
{
    bytes.iter().all(|b| b'!' <= *b && *b <= b'~' && *b != b'"')
}

/// The bytes as text, where each is visible in ASCII and no quote.
pub fn plain_text(bytes: &[u8]) -> Option<&str>
    ensures plain { IfSome result (λ text. (text.now ≡ bytes.now) × (list_all is_shown bytes.now ≡ true)) }
    ensures other { IsNone result → list_all is_shown bytes.now ≡ false }
{
    if !is_plain(bytes) {
        return None;
    }
    match std::str::from_utf8(bytes) {
        Ok(text) => Some(text),
        Err(_) => unreachable!(),
    }
}

/// Appends a text between quotes. After an error `out` has a part of it, and is to be thrown away.
#[tactic(auto, unfolding(crate::specs::Values::quoted))]
pub fn push_quoted<S: Sink>(out: &mut S, text: &str) -> Result<(), AllocError>
    ensures { OnOk result (S.bytes out.new ≡ S.bytes out.old ++ quoted text.now) }
{
    out.push_ascii(b'"')?;
    out.push_all(text)?;
    out.push_ascii(b'"')
}

/// Appends a name: between quotes where each of its bytes is visible in ASCII and no quote, else in
/// upper-case hexadecimal without quotes. After an error `out` has a part of it, and is to be thrown away.
#[tactic(auto, unfolding(crate::specs::Values::value))]
pub fn push_value<S: Sink>(out: &mut S, bytes: &[u8]) -> Result<(), AllocError>
    ensures { OnOk result (S.bytes out.new ≡ S.bytes out.old ++ value bytes.now) }
{
    match plain_text(bytes) {
        Some(text) => push_quoted(out, text),
        None => push_hex(out, bytes),
    }
}

fn push_letter<S: Sink>(out: &mut S, mask: Perms, perm: Perms, c: u8) -> Result<(), AllocError>
    requires { c < 128 }
    ensures { OnOk result (S.bytes out.new ≡ S.bytes out.old ++ letter mask.0 perm.0 c) }
{
    if mask.contains(perm) {
        out.push_ascii(c)?;
    }
    Ok(())
}

/// Appends the letters of a set of permissions, in the order `rwalkmx`. After an error `out` has a part of them, and is to be thrown away.
#[tactic(auto, unfolding(crate::specs::Values::letters))]
pub fn push_letters<S: Sink>(out: &mut S, mask: Perms) -> Result<(), AllocError>
    ensures { OnOk result (S.bytes out.new ≡ S.bytes out.old ++ letters mask.0) }
{
    push_letter(out, mask, Perms::READ, b'r')?;
    push_letter(out, mask, Perms::WRITE, b'w')?;
    push_letter(out, mask, Perms::APPEND, b'a')?;
    push_letter(out, mask, Perms::LINK, b'l')?;
    push_letter(out, mask, Perms::LOCK, b'k')?;
    push_letter(out, mask, Perms::MMAP, b'm')?;
    push_letter(out, mask, Perms::EXEC, b'x')
}

/// Appends the letters of a set of permissions between quotes, in the order `rwalkmx`. After an error
/// `out` has a part of them, and is to be thrown away.
#[tactic(auto, unfolding(crate::specs::Values::quoted))]
pub fn push_mask<S: Sink>(out: &mut S, perms: Perms) -> Result<(), AllocError>
    ensures { OnOk result (S.bytes out.new ≡ S.bytes out.old ++ mask perms.0) }
{
    out.push_ascii(b'"')?;
    push_letters(out, perms)?;
    out.push_ascii(b'"')
}
