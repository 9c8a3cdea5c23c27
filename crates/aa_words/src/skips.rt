//! How long rules are that are passed over.

ghost use Rattle.std.specs.Prelude.{◌≡◌, ◌+◌, ◌^◌, ◌<◌, ◌≤◌, length};
ghost use Rattle.aa_words.specs.Runs.{is_sign, is_outside, ends_skip, depth_next, outside_next, mode_next, skip_next, skip_start, skip_len, skipped_len};

use crate::runs::{is_white_space, name_length};

/// How a byte of a rule that is passed over is read.
#[derive(Clone, Copy)]
pub(crate) enum SkipMode {
    /// Outside quotes and comments, within a word.
    Plain,
    /// Outside them, where a word could begin.
    Fresh,
    /// Outside them, behind `-`.
    Dash,
    Quoted,
    /// In quotes, behind a backslash.
    Kept,
    Comment,
}

/// A place in a rule that is passed over: how deep in `()`, `{}` and `[]`.
#[derive(Clone, Copy)]
pub(crate) struct SkipPlace {
    round: usize,
    curly: usize,
    square: usize,
    mode: SkipMode,
}

fn is_one_sign(b: u8) -> bool
    ensures { result ≡ is_sign b }
{
    b == b'{' || b == b'}' || b == b',' || b == b'=' || b == b'(' || b == b')'
}

fn stands_outside(mode: SkipMode) -> bool
    ensures { result ≡ is_outside mode }
{
    matches!(mode, SkipMode::Plain | SkipMode::Fresh | SkipMode::Dash)
}

fn skip_ends(place: SkipPlace, b: u8) -> bool
    ensures { result ≡ ends_skip place b }
{
    b == 0
        || (b == b','
            && stands_outside(place.mode)
            && place.round == 0
            && place.curly == 0
            && place.square == 0)
}

fn depth_behind(opening: u8, closing: u8, depth: usize, b: u8) -> usize
    requires { depth + 1 < 2 ^ 64 }
    ensures next { result ≡ depth_next opening closing depth b }
    ensures depth { result ≤ depth + 1 }
{
    if b == opening {
        depth + 1
    } else if b == closing {
        depth.saturating_sub(1)
    } else {
        depth
    }
}

fn mode_outside(fresh: bool, dash: bool, b: u8) -> SkipMode
    ensures { result ≡ outside_next fresh dash b }
{
    if b == b'"' {
        SkipMode::Quoted
    } else if b == b'#' && fresh {
        SkipMode::Comment
    } else if is_white_space(b) || is_one_sign(b) || (b == b'>' && dash) {
        SkipMode::Fresh
    } else if b == b'-' {
        SkipMode::Dash
    } else {
        SkipMode::Plain
    }
}

fn mode_behind(mode: SkipMode, b: u8) -> SkipMode
    ensures { result ≡ mode_next mode b }
{
    match mode {
        SkipMode::Plain => mode_outside(false, false, b),
        SkipMode::Fresh => mode_outside(true, false, b),
        SkipMode::Dash => mode_outside(false, true, b),
        SkipMode::Quoted if b == b'\\' => SkipMode::Kept,
        SkipMode::Quoted if b == b'"' => SkipMode::Fresh,
        SkipMode::Quoted | SkipMode::Kept => SkipMode::Quoted,
        SkipMode::Comment if b == b'\n' => SkipMode::Fresh,
        SkipMode::Comment => SkipMode::Comment,
    }
}

fn skip_behind(place: SkipPlace, b: u8) -> SkipPlace
    requires round { place.round + 1 < 2 ^ 64 }
    requires curly { place.curly + 1 < 2 ^ 64 }
    requires square { place.square + 1 < 2 ^ 64 }
    ensures next { result ≡ skip_next place b }
    ensures round { result.round ≤ place.round + 1 }
    ensures curly { result.curly ≤ place.curly + 1 }
    ensures square { result.square ≤ place.square + 1 }
{
    let mode = mode_behind(place.mode, b);
    if !stands_outside(place.mode) {
        return SkipPlace { mode, ..place };
    }
    SkipPlace {
        round: depth_behind(b'(', b')', place.round, b),
        curly: depth_behind(b'{', b'}', place.curly, b),
        square: depth_behind(b'[', b']', place.square, b),
        mode,
    }
}

/// How long a rule that is passed over goes on behind its keyword, up to the comma that ends it.
fn skip_length(text: &[u8]) -> usize
    ensures { result ≡ skip_len skip_start text.now }
{
    let mut place = SkipPlace {
        round: 0,
        curly: 0,
        square: 0,
        mode: SkipMode::Plain,
    };
    for (i, b) in text.iter().enumerate() {
        if skip_ends(place, *b) {
            return i;
        }
        place = skip_behind(place, *b);
    }
    text.len()
}

/// How long a rule that is passed over is: its keyword, and what follows up to the comma that ends it.
#[tactic(auto, using(crate::proofs::Extents::name_le, crate::proofs::Extents::skip_le), unfolding(crate::specs::Runs::skipped_len))]
pub fn skipped_length(text: &[u8]) -> usize
    ensures { result ≡ skipped_len text.now }
{
    let len = name_length(text);
    let (_, behind) = text.split_at(len);
    len + skip_length(behind)
}
