//! A text with variables, cut into bytes and names.

ghost use Rattle.std.specs.Prelude.{◌≡◌, ◌≤◌, ◌+◌, ◌==◌, ◌&&◌, ◌||◌, not, false, IsTrue, ℕ, List, [], ◌∷◌, length, drop, MatchOption, IfSome, option_map, ◌<◌};
ghost use Rattle.aa_glob.specs.Signs.{is_letter, is_letter_or_digit};
ghost use Rattle.aa_glob.specs.Pieces.{begins_with, name_len, name_at, behind_name, pieces_from};
ghost use Rattle.aa_glob.specs.Parts.{piece_of};

/// A byte, a variable's name, or an `@{` that no variable follows.
#[derive(Clone, Copy, Debug)]
pub(crate) enum Part<'t> {
    Plain(u8),
    Use(&'t [u8]),
    Broken,
}

fn is_name_byte(byte: u8) -> bool
    ensures { result ≡ (is_letter_or_digit byte || byte == 95) }
{
    byte.is_ascii_alphanumeric() || byte == b'_'
}

/// How many letters, digits and `_` stand first.
fn name_length(text: &[u8]) -> usize
    ensures length { result ≡ name_len text.now }
    ensures within { result ≤ length text.now }
{
    for (i, byte) in text.iter().enumerate() {
        if !is_name_byte(*byte) {
            return i;
        }
    }
    text.len()
}

pub(crate) fn starts_with(text: &[u8], byte: u8) -> bool
    ensures { result ≡ begins_with byte text.now }
{
    match text {
        [] => false,
        [first, ..] => *first == byte,
    }
}

/// The name that stands first, up to `}`.
fn name_of(text: &[u8]) -> Option<&[u8]>
    ensures name { option_map (λ n. n.now) result ≡ name_at text.now }
    ensures within { MatchOption result (0 ≤ 0) (λ n. length n.now + 1 ≤ length text.now) }
{
    match text {
        [] => None,
        [first, others @ ..] => {
            let long = name_length(others);
            let (_, behind) = others.split_at(long);
            if first.is_ascii_alphabetic() && starts_with(behind, b'}') {
                let (name, _) = text.split_at(long + 1);
                Some(name)
            } else {
                None
            }
        }
    }
}

/// The part behind an `@`, what is left behind it, and that no backslash keeps that.
fn named_part(others: &[u8]) -> (Part<'_>, &[u8], bool)
    requires { 1 ≤ length others.now }
    ensures first { behind_name (name_at (drop 1 others.now)) (λ n. pieces_from false n others.now) ≡ piece_of result.0 ∷ pieces_from result.2 0 result.1.now }
    ensures shorter { length result.1.now ≤ length others.now }
{
    let (_, inside) = others.split_at(1);
    match name_of(inside) {
        Some(name) => {
            let (_, rest) = others.split_at(name.len() + 2);
            (Part::Use(name), rest, false)
        }
        None => {
            let (_, rest) = others.split_at(others.len());
            (Part::Broken, rest, false)
        }
    }
}

/// Whether a variable's name has to follow.
fn names(kept: bool, first: u8, others: &[u8]) -> bool
    ensures result { result ≡ (not kept && first == 64 && begins_with 123 others.now) }
    ensures some { IsTrue result → 1 ≤ length others.now }
{
    !kept && first == b'@' && starts_with(others, b'{')
}

/// Whether the byte is a backslash that keeps the next one.
fn keeps(kept: bool, byte: u8) -> bool
    ensures { result ≡ (not kept && byte == 92) }
{
    !kept && byte == b'\\'
}

/// The first part of a text, what is left behind it, and whether a backslash keeps the first byte of that. `kept` says so of
/// the text.
#[tactic(auto, using(crate::proofs::PieceSteps::part_none, crate::proofs::PieceSteps::part_named, crate::proofs::PieceSteps::part_plain))]
pub(crate) fn next_part(text: &[u8], kept: bool) -> Option<(Part<'_>, &[u8], bool)>
    ensures first { MatchOption result (pieces_from kept 0 text.now ≡ []) (λ r. pieces_from kept 0 text.now ≡ piece_of r.0 ∷ pieces_from r.2 0 r.1.now) }
    ensures shorter { IfSome result (λ r. length r.1.now < length text.now) }
{
    match text.split_first() {
        None => None,
        Some((first, others)) => {
            if names(kept, *first, others) {
                Some(named_part(others))
            } else {
                Some((Part::Plain(*first), others, keeps(kept, *first)))
            }
        }
    }
}
