//! What stands first in a text, and how long it is.

ghost use Rattle.std.specs.Prelude.{◌≡◌, ◌+◌, ◌<◌, ◌≤◌, length, take, drop, IfNone, IfSome, Some, None, ◌∷◌, if◌then◌else◌};
ghost use Rattle.aa_words.specs.Includes.{include_form, has_form};
ghost use Rattle.aa_words.specs.declared.piece.Piece.TheVariants.{Include};
ghost use Rattle.aa_words.specs.Splits.{quote_at, skip_at, name_at, value_at, run_at, word_at, piece_at, run_after, extent};

use crate::includes::{begins_hash_include, form_of_include, include_length};
use crate::piece::{
    Piece, Place, RulePlace, begins_rule, is_passed_over, may_begin_skipped, stands_among_values,
};
use crate::runs::{
    assigned_length, comment_length, is_white_space, name_length, path_length, quoted_length,
    value_length,
};
use crate::skips::skipped_length;
use crate::word::WordKind;

/// How long the piece goes on after its first byte.
#[tactic(auto, unfolding(crate::specs::Splits::run_after))]
fn run_length(piece: Piece, rest: &[u8]) -> usize
    ensures { result ≡ run_after piece rest.now }
{
    match piece {
        Piece::JoinedLine | Piece::Token(WordKind::PlusEquals | WordKind::Arrow) => {
            rest.len().min(1)
        }
        Piece::Comment => comment_length(rest),
        Piece::Include => include_length(rest),
        Piece::Variable => assigned_length(rest).unwrap_or(0),
        Piece::QuotedValue | Piece::Token(WordKind::Quoted) => quoted_length(rest).unwrap_or(0),
        Piece::Token(WordKind::Path) => path_length(rest),
        Piece::Token(WordKind::Name) => name_length(rest),
        Piece::Token(WordKind::Value) => value_length(rest),
        Piece::Token(WordKind::Skipped) => skipped_length(rest),
        _ => 0,
    }
}

/// A text in quotes, behind whose opening one `rest` follows.
fn first_quoted(behind_run: bool, piece: Piece, rest: &[u8]) -> Option<Piece>
    ensures { result ≡ quote_at behind_run piece rest.now }
{
    if !behind_run && quoted_length(rest).is_some() {
        Some(piece)
    } else {
        None
    }
}

/// A rule that is passed over, behind whose first byte `rest` follows.
#[tactic(auto, using(crate::proofs::Extents::skipped_le))]
fn first_skipped(rest: &[u8]) -> Option<Piece>
    ensures { result ≡ skip_at rest.now }
{
    let (_, behind) = rest.split_at(skipped_length(rest));
    match behind {
        [b',', ..] => Some(Piece::Token(WordKind::Skipped)),
        _ => None,
    }
}

/// An include, behind whose keyword `behind` follows.
fn first_include(behind: &[u8]) -> Option<Piece>
    ensures { result ≡ (if has_form (include_form behind.now) then Some Include else None) }
{
    if form_of_include(behind).is_ok() {
        Some(Piece::Include)
    } else {
        None
    }
}

/// A Name, or what begins with the run that a Name would have.
#[tactic(auto, using(crate::proofs::Extents::name_le))]
fn first_name(text: &[u8], rest: &[u8], rule: RulePlace) -> Option<Piece>
    requires { rest.now ≡ drop 1 text.now }
    ensures { result ≡ name_at rule text.now }
{
    let (word, behind) = text.split_at(name_length(text));
    if may_begin_skipped(rule) && is_passed_over(word) {
        first_skipped(rest)
    } else if begins_rule(rule) && word == "include".as_bytes() {
        first_include(behind)
    } else {
        Some(Piece::Token(WordKind::Name))
    }
}

/// What stands first among the values of an assignment.
fn first_value(b: u8, rest: &[u8], place: Place) -> Option<Piece>
    ensures { result ≡ value_at place b rest.now }
{
    if is_white_space(b) {
        return Some(Piece::Blank);
    }
    match b {
        b'#' => Some(Piece::Comment),
        b'\\' if matches!(rest, [b'\n', ..]) => Some(Piece::JoinedLine),
        b'"' => first_quoted(place.behind_run, Piece::QuotedValue, rest),
        0 => None,
        _ => Some(Piece::Token(WordKind::Value)),
    }
}

/// A run that stands first.
fn first_run(text: &[u8], b: u8, rest: &[u8], place: Place) -> Option<Piece>
    requires { text.now ≡ b ∷ rest.now }
    ensures { result ≡ run_at place b rest.now }
{
    match b {
        b'/' => Some(Piece::Token(WordKind::Path)),
        b'@' if matches!(rest, [b'{', ..]) => match assigned_length(rest) {
            Some(_) => Some(Piece::Variable),
            None => Some(Piece::Token(WordKind::Path)),
        },
        0 => None,
        _ => first_name(text, rest, place.rule),
    }
}

/// What stands first outside the values of assignments.
fn first_word(text: &[u8], b: u8, rest: &[u8], place: Place) -> Option<Piece>
    requires { text.now ≡ b ∷ rest.now }
    ensures { result ≡ word_at place b rest.now }
{
    if is_white_space(b) {
        return Some(Piece::Blank);
    }
    let kind = match b {
        b'#' if begins_rule(place.rule) && begins_hash_include(text) => {
            return Some(Piece::Include);
        }
        b'#' => return Some(Piece::Comment),
        b'"' => return first_quoted(place.behind_run, Piece::Token(WordKind::Quoted), rest),
        b'{' => WordKind::Open,
        b'}' => WordKind::Close,
        b',' => WordKind::Comma,
        b'=' => WordKind::Equals,
        b'(' => WordKind::LeftParen,
        b')' => WordKind::RightParen,
        b'+' if matches!(rest, [b'=', ..]) => WordKind::PlusEquals,
        b'-' if matches!(rest, [b'>', ..]) => WordKind::Arrow,
        _ => return first_run(text, b, rest, place),
    };
    Some(Piece::Token(kind))
}

/// What stands first, by the bytes there.
#[tactic(auto, unfolding(crate::specs::Splits::piece_at))]
fn first_piece(text: &[u8], place: Place) -> Option<Piece>
    ensures { result ≡ piece_at place text.now }
{
    let [b, rest @ ..] = text else {
        return None;
    };
    if stands_among_values(place.rule) {
        first_value(*b, rest, place)
    } else {
        first_word(text, *b, rest, place)
    }
}

/// The piece that stands first, and its length.
#[tactic(auto, using(crate::proofs::Pieces::run_le))]
pub(crate) fn next_piece(text: &[u8], place: Place) -> Option<(Piece, usize)>
    ensures none { IfNone result (piece_at place text.now ≡ None) }
    ensures some { IfSome result (λ p. (piece_at place text.now ≡ Some p.0) × (p.1 ≡ extent p.0 text.now)) }
    ensures within { IfSome result (λ p. (0 < p.1) × (p.1 ≤ length text.now)) }
{
    let [_, rest @ ..] = text else {
        return None;
    };
    let piece = first_piece(text, place)?;
    Some((piece, 1 + run_length(piece, rest)))
}
