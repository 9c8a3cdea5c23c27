//! What stands in a text behind a part of it.

ghost use Rattle.std.specs.Prelude.{◌≡◌, ◌<◌, length, nat_eq, option_map};
ghost use Rattle.std.specs.List.{starts_with};
ghost use Rattle.aa_messages.specs.Parts.{behind_front, behind_part, before_bracket};

use memchr::memmem;

/// Whether a text begins so.
pub(crate) fn begins(text: &[u8], front: &str) -> bool
    ensures { result ≡ starts_with nat_eq text.now front.now }
{
    text.starts_with(front.as_bytes())
}

/// What stands behind a front.
pub(crate) fn behind_front<'t>(text: &'t [u8], front: &str) -> Option<&'t [u8]>
    ensures { option_map (λ t. t.now) result ≡ behind_front front.now text.entry.now }
{
    if begins(text, front) {
        return Some(&text[front.len()..]);
    }
    None
}

/// What stands behind a part where it stands first.
pub(crate) fn behind_part<'t>(text: &'t [u8], part: &str) -> Option<&'t [u8]>
    requires { 0 < length part.now }
    ensures { option_map (λ t. t.now) result ≡ behind_part part.now text.entry.now }
{
    match memmem::find(text, part.as_bytes()) {
        Some(at) => Some(&text[at + part.len()..]),
        None => None,
    }
}

/// What stands before the bracket that ends a text.
pub(crate) fn before_bracket(text: &[u8]) -> Option<&[u8]>
    ensures { option_map (λ t. t.now) result ≡ before_bracket text.entry.now }
{
    match text {
        [front @ .., b']'] => Some(front),
        _ => None,
    }
}
