//! How long the runs of a text are.

ghost use Rattle.std.specs.Prelude.{◌≡◌, ◌+◌, ◌^◌, ◌<◌, ◌≤◌, nat_le, length, false};
ghost use Rattle.aa_words.specs.Runs.{is_white, ends_name, ends_comment, ends_after_comma, name_len, comment_len, path_len, path_start, path_next, ends_path, is_letter, ends_variable, variable_len, assigned_len, closes_before_sign, begins_with_letter, ends_value, value_len, ends_quote, quote_next, quote_len, quoted_len, is_variable};

/// Whether a byte is white space: space, tab, CR or LF.
pub fn is_white_space(b: u8) -> bool
    ensures { result ≡ is_white b }
{
    b == b' ' || b == b'\t' || b == b'\r' || b == b'\n'
}

/// Whether a Name ends before the byte `b`, which `rest` follows.
pub(crate) fn name_ends(b: u8, rest: &[u8]) -> bool
    ensures { result ≡ ends_name b rest.now }
{
    is_white_space(b)
        || b == 0
        || b == b','
        || b == b'"'
        || b == b'('
        || b == b')'
        || b == b'='
        || b == b'{'
        || b == b'}'
        || (b == b'-' && matches!(rest, [b'>', ..]))
}

/// How long the run is that a Name would have.
pub fn name_length(text: &[u8]) -> usize
    ensures { result ≡ name_len text.now }
{
    for (i, b) in text.iter().enumerate() {
        let rest = &text[i + 1..];
        if name_ends(*b, rest) {
            return i;
        }
    }
    text.len()
}

fn comment_ends(b: u8) -> bool
    ensures { result ≡ ends_comment b }
{
    b == b'\n' || b == 0
}

/// How long a comment goes on.
pub fn comment_length(text: &[u8]) -> usize
    ensures { result ≡ comment_len text.now }
{
    for (i, b) in text.iter().enumerate() {
        if comment_ends(*b) {
            return i;
        }
    }
    text.len()
}

/// A place in a path: how deep in `{}`, whether in `[]`, whether a backslash keeps the byte.
#[derive(Clone, Copy)]
pub(crate) struct PathPlace {
    depth: usize,
    in_class: bool,
    kept: bool,
}

fn comma_ends(rest: &[u8]) -> bool
    ensures { result ≡ ends_after_comma rest.now }
{
    match rest {
        [] => true,
        [b, ..] => is_white_space(*b) || *b == b'#' || *b == b'}',
    }
}

fn path_ends(place: PathPlace, b: u8, rest: &[u8]) -> bool
    ensures { result ≡ ends_path place b rest.now }
{
    b == 0
        || (!place.kept
            && (is_white_space(b)
                || b == b'"'
                || (b == b',' && place.depth == 0 && !place.in_class && comma_ends(rest))))
}

fn path_after(place: PathPlace, b: u8) -> PathPlace
    requires { place.depth + 1 < 2 ^ 64 }
    ensures next { result ≡ path_next place b }
    ensures depth { result.depth ≤ place.depth + 1 }
{
    if place.kept {
        return PathPlace {
            kept: false,
            ..place
        };
    }
    if b == b'\\' {
        return PathPlace {
            kept: true,
            ..place
        };
    }
    if place.in_class {
        return PathPlace {
            in_class: b != b']',
            ..place
        };
    }
    match b {
        b'[' => PathPlace {
            in_class: true,
            ..place
        },
        b'{' => PathPlace {
            depth: place.depth + 1,
            ..place
        },
        b'}' => PathPlace {
            depth: place.depth.saturating_sub(1),
            ..place
        },
        _ => place,
    }
}

/// How long a path goes on behind its first byte.
pub fn path_length(text: &[u8]) -> usize
    ensures { result ≡ path_len path_start text.now }
{
    let mut place = PathPlace {
        depth: 0,
        in_class: false,
        kept: false,
    };
    for (i, b) in text.iter().enumerate() {
        let rest = &text[i + 1..];
        if path_ends(place, *b, rest) {
            return i;
        }
        place = path_after(place, *b);
    }
    text.len()
}

fn is_ascii_letter(b: u8) -> bool
    ensures { result ≡ is_letter b }
{
    (b'a' <= b && b <= b'z') || (b'A' <= b && b <= b'Z')
}

fn variable_ends(b: u8) -> bool
    ensures { result ≡ ends_variable b }
{
    !(is_ascii_letter(b) || (b'0' <= b && b <= b'9') || b == b'_')
}

fn variable_length(text: &[u8]) -> usize
    ensures { result ≡ variable_len text.now }
{
    for (i, b) in text.iter().enumerate() {
        if variable_ends(*b) {
            return i;
        }
    }
    text.len()
}

/// How long `{NAME}` is, where it stands first and `=` or `+=` follows.
#[tactic(auto, using(crate::proofs::Extents::variable_le), unfolding(crate::specs::Runs::assigned_len))]
pub fn assigned_length(text: &[u8]) -> Option<usize>
    ensures { result ≡ assigned_len text.now }
{
    let [b'{', rest @ ..] = text else {
        return None;
    };
    let [first, ..] = rest else {
        return None;
    };
    if !is_ascii_letter(*first) {
        return None;
    }
    let len = variable_length(rest);
    let (_, behind) = rest.split_at(len);
    if closes_before_sign(behind) {
        Some(len + 2)
    } else {
        None
    }
}

/// Whether `}` stands first, and then a sign of assignment.
fn closes_before_sign(text: &[u8]) -> bool
    ensures { result ≡ closes_before_sign text.now }
{
    matches!(text, [b'}', b'=', ..] | [b'}', b'+', b'=', ..])
}

/// Whether a text is `@{NAME}`.
#[tactic(auto, using(crate::proofs::Extents::variable_le), unfolding(crate::specs::Runs::is_variable))]
pub fn is_whole_variable(text: &[u8]) -> bool
    ensures { result ≡ is_variable text.now }
{
    let [b'@', b'{', name @ ..] = text else {
        return false;
    };
    let [first, ..] = name else {
        return false;
    };
    let (_, end) = name.split_at(variable_length(name));
    is_ascii_letter(*first) && end == "}".as_bytes()
}

/// Whether a Value ends before the byte `b`, which `rest` follows.
fn value_ends(b: u8, rest: &[u8]) -> bool
    ensures { result ≡ ends_value b rest.now }
{
    is_white_space(b) || b == 0 || (b == b'\\' && matches!(rest, [b'\n', ..]))
}

/// How long the run is that a Value would have.
pub fn value_length(text: &[u8]) -> usize
    ensures { result ≡ value_len text.now }
{
    for (i, b) in text.iter().enumerate() {
        let rest = &text[i + 1..];
        if value_ends(*b, rest) {
            return i;
        }
    }
    text.len()
}

fn quote_ends(kept: bool, b: u8) -> bool
    ensures { result ≡ ends_quote kept b }
{
    b == 0 || (!kept && b == b'"')
}

/// Whether the byte behind `b` is kept in quotes.
fn keeps_next(kept: bool, b: u8) -> bool
    ensures { result ≡ quote_next kept b }
{
    !kept && b == b'\\'
}

/// How long a quoted text is, behind its opening quote and up to the one that closes it.
pub fn quote_length(text: &[u8]) -> usize
    ensures { result ≡ quote_len false text.now }
{
    let mut kept = false;
    for (i, b) in text.iter().enumerate() {
        if quote_ends(kept, *b) {
            return i;
        }
        kept = keeps_next(kept, *b);
    }
    text.len()
}

/// How long a quoted text is behind its opening quote, with the quote that closes it.
#[tactic(auto, using(crate::proofs::Extents::quote_le), unfolding(crate::specs::Runs::quoted_len))]
pub fn quoted_length(text: &[u8]) -> Option<usize>
    ensures { result ≡ quoted_len text.now }
{
    let len = quote_length(text);
    let (_, behind) = text.split_at(len);
    match behind {
        [b'"', ..] => Some(len + 1),
        _ => None,
    }
}
