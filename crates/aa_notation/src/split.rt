//! Where a part stands in a text, and what stands on both sides of it.

ghost use Rattle.std.specs.Prelude.{◌≡◌, ◌≤◌, ◌+◌, length, nat_eq, option_map, IfSome};
ghost use Rattle.std.specs.List.{starts_with};
ghost use Rattle.aa_notation.specs.Parts.{place_of, split_in, behind};

/// Whether a text begins so.
fn begins(text: &[u8], front: &str) -> bool
    ensures value { result ≡ starts_with nat_eq text.now front.now }
{
    text.starts_with(front.as_bytes())
}

/// The first place at which a part stands in a text.
pub(crate) fn place_of(text: &[u8], part: &str) -> Option<usize>
    ensures value { result ≡ place_of part.now text.now }
    ensures within { IfSome result (λ n. n + length part.now ≤ length text.now) }
{
    for at in 0..text.len() {
        if begins(&text[at..], part) {
            return Some(at);
        }
    }
    None
}

/// What stands before the first such part, and what stands behind it.
pub(crate) fn split_at<'s>(text: &'s [u8], part: &str) -> Option<(&'s [u8], &'s [u8])>
    ensures { option_map (λ s. (s.0.now, s.1.now)) result ≡ split_in part.now text.entry.now }
{
    match place_of(text, part) {
        Some(at) => Some((&text[..at], &text[at + part.len()..])),
        None => None,
    }
}

/// What stands behind a front, where the text begins so.
pub(crate) fn behind<'s>(text: &'s [u8], front: &str) -> Option<&'s [u8]>
    ensures { option_map (λ t. t.now) result ≡ behind front.now text.entry.now }
{
    text.strip_prefix(front.as_bytes())
}
