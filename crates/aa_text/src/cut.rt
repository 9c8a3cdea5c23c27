//! Which part of a long line is shown.

ghost use Rattle.std.specs.Prelude.{◌≡◌, ◌-◌, ◌≤◌, length, slice_index, min};
ghost use Rattle.aa_text.specs.Places.{goes_on};
ghost use Rattle.aa_text.specs.Excerpts.{window_start, from_character, character_end, behind_cut};

use crate::place::{behind, continues};

/// The most bytes of a line that are shown.
pub(crate) const SHOWN: usize = 160;

/// How many of them stand before the place, in the midst of a longer line.
const AHEAD: usize = 80;

/// The byte at which the part begins that is shown of a line.
pub(crate) fn window_begin(line: &[u8], offset: usize) -> usize
    ensures value { result ≡ window_start line.now offset }
    ensures within { result ≤ length line.now }
{
    offset
        .saturating_sub(AHEAD)
        .min(line.len().saturating_sub(SHOWN))
}

/// What stands behind the rest of a character that was cut.
fn behind_rest(bytes: &[u8]) -> &[u8]
    ensures { result.now ≡ from_character bytes.now }
{
    let mut rest = bytes;
    while let [b, after @ ..] = rest {
        if !continues(*b) {
            return rest;
        }
        rest = after;
    }
    rest
}

/// The bytes behind a place, without the rest of a character that is cut there.
pub(crate) fn from_cut(start: usize, bytes: &[u8]) -> &[u8]
    ensures { result.now ≡ behind_cut start bytes.now }
{
    if start == 0 {
        return bytes;
    }
    behind_rest(behind(bytes, start))
}

/// Whether a character would be cut before the byte at this place.
fn is_cut_at(line: &[u8], at: usize) -> bool
    ensures { result ≡ goes_on (slice_index line.now at) }
{
    match line.get(at) {
        Some(b) => continues(*b),
        None => false,
    }
}

/// The last place up to this one at which no character is cut.
pub(crate) fn last_whole(line: &[u8], at: usize) -> usize
    ensures { result ≡ character_end line.now at }
{
    let mut end = at;
    while end > 0 {
        if !is_cut_at(line, end) {
            return end;
        }
        end -= 1;
    }
    end
}
