//! The line on which a byte stands.

ghost use Rattle.std.specs.Prelude.{◌≡◌, ◌≤◌, not};
ghost use Rattle.std.specs.List.{prefix_len};
ghost use Rattle.aa_text.specs.Places.{is_line_end};
ghost use Rattle.aa_text.specs.Excerpts.{without_return, line_of, offset_of};

use crate::place::{before, behind, behind_line_ends};

/// How many bytes stand before the first line end.
fn first_line_length(text: &[u8]) -> usize
    ensures { result ≡ prefix_len (λ b. not (is_line_end b)) text.now }
{
    text.iter().take_while(|b| **b != b'\n').count()
}

/// A line without the CR before its end, if it has one.
pub fn without_return(line: &[u8]) -> &[u8]
    ensures { result.now ≡ without_return line.now }
{
    match line {
        [front @ .., b'\r'] => front,
        _ => line,
    }
}

/// How many bytes of its line stand before a byte.
pub(crate) fn line_offset(text: &[u8], byte: usize) -> usize
    ensures { result ≡ offset_of text.now byte }
{
    behind_line_ends(before(text, byte)).len()
}

/// The line on which a byte stands, without its end.
#[tactic(auto, using(crate::proofs::Lines::last_le, crate::proofs::Lines::line_across, crate::proofs::Lines::front_le))]
pub(crate) fn line_at(text: &[u8], byte: usize) -> &[u8]
    ensures { result.now ≡ line_of text.now byte }
{
    let front = before(text, byte);
    let start = front.len() - behind_line_ends(front).len();
    let end = front.len() + first_line_length(behind(text, byte));
    without_return(&text[start..end])
}
