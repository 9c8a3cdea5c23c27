//! The place of a byte.

ghost use Rattle.std.specs.Prelude.{◌≡◌, take, drop};
ghost use Rattle.std.specs.List.{count_by};
ghost use Rattle.aa_text.specs.Places.{is_line_end, goes_on, begins_character, last_line, place_behind, place_in};

/// A place in a text, as editors count it.
#[derive(Clone, Copy, Debug, PartialEq, Eq)]
pub struct Place {
    /// The line, counted from 1: one more than the line ends before it. A line ends with LF.
    pub line: usize,
    /// The column, counted from 1: one more than the characters of UTF-8 that begin before it on its line. A tab is one.
    pub column: usize,
}

pub(crate) fn ends_line(b: u8) -> bool
    ensures { result ≡ is_line_end b }
{
    b == b'\n'
}

/// Whether a byte goes on with a character of UTF-8.
pub(crate) fn continues(b: u8) -> bool
    ensures { result ≡ goes_on b }
{
    b >= 0x80 && b <= 0xBF
}

fn begins(b: u8) -> bool
    ensures { result ≡ begins_character b }
{
    !continues(b)
}

/// The bytes before a place; all, where the text ends before it.
pub(crate) fn before(text: &[u8], byte: usize) -> &[u8]
    ensures { result.now ≡ take byte text.now }
{
    if byte < text.len() {
        &text[..byte]
    } else {
        text
    }
}

/// The bytes from a place on.
pub(crate) fn behind(text: &[u8], byte: usize) -> &[u8]
    ensures { result.now ≡ drop byte text.now }
{
    if byte < text.len() {
        &text[byte..]
    } else {
        &[]
    }
}

/// What stands behind the last line end.
pub(crate) fn behind_line_ends(text: &[u8]) -> &[u8]
    ensures { result.now ≡ last_line text.now }
{
    let mut line = text;
    let mut rest = text;
    while let [b, after @ ..] = rest {
        if ends_line(*b) {
            line = after;
        }
        rest = after;
    }
    line
}

fn count_line_ends(text: &[u8]) -> usize
    ensures { result ≡ count_by is_line_end text.now }
{
    text.iter().filter(|b| ends_line(**b)).count()
}

fn count_characters(line: &[u8]) -> usize
    ensures { result ≡ count_by begins_character line.now }
{
    line.iter().filter(|b| begins(**b)).count()
}

/// The place behind a text.
#[tactic(auto, unfolding(crate::specs::Places::place_behind))]
fn place_after(text: &[u8]) -> Place
    ensures { result ≡ place_behind text.now }
{
    Place {
        line: count_line_ends(text) + 1,
        column: count_characters(behind_line_ends(text)) + 1,
    }
}

/// The place of the byte of this number, counted from 0. A number behind the text's last byte stands for its end.
pub fn place_of(text: &[u8], byte: usize) -> Place
    ensures { result ≡ place_in text.now byte }
{
    place_after(before(text, byte))
}
