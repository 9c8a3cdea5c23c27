//! The lines of places that are asked one after another.

ghost use Rattle.std.specs.Prelude.{◌≡◌, ◌+◌, ◌≤◌, length, take, drop, count_by};
ghost use Rattle.aa_text.specs.Places.{is_line_end};
ghost use Rattle.aa_files.specs.declared.unit.Unit as unit;
ghost use Rattle.aa_files.specs.Numbers.{text_in};
ghost use Rattle.aa_check.specs.Counts.{line_at, IsLine};

use aa_base::Spot;
use aa_files::{Unit, text_at};

/// The line of a place in a unit. That of a place behind it in the same file is counted on from there.
#[derive(Clone, Copy, Debug)]
pub(crate) struct LineCount {
    file: u16,
    byte: usize,
    /// From 1.
    pub line: usize,
}

/// The bytes before a place; all, where the text ends before it.
fn before(text: &[u8], byte: usize) -> &[u8]
    ensures { result.now ≡ take byte text.now }
{
    if byte < text.len() {
        &text[..byte]
    } else {
        text
    }
}

/// The bytes from a place on.
fn behind(text: &[u8], byte: usize) -> &[u8]
    ensures { result.now ≡ drop byte text.now }
{
    if byte < text.len() {
        &text[byte..]
    } else {
        &[]
    }
}

fn line_ends(text: &[u8]) -> usize
    ensures count { result ≡ count_by is_line_end text.now }
    ensures few { result ≤ length text.now }
{
    text.iter().filter(|b| **b == b'\n').count()
}

/// How many lines end between two bytes of a text.
fn line_ends_between(text: &[u8], from: usize, to: usize) -> usize
    requires { from ≤ to }
    ensures { count_by is_line_end (take from text.now) + result ≡ count_by is_line_end (take to text.now) }
{
    line_ends(behind(before(text, to), from))
}

impl LineCount {
    /// The line on which a unit's main text begins.
    #[tactic(auto, unfolding(aa_text::specs::Places::place_behind))]
    pub fn at_start() -> LineCount
        ensures { (u : unit.Unit) → IsLine u result }
    {
        LineCount {
            file: 0,
            byte: 0,
            line: 1,
        }
    }

    /// The last place from which the lines up to this one can be counted on, and its line.
    #[tactic(auto, unfolding(aa_text::specs::Places::place_behind))]
    fn known_before(self, file: u16, byte: usize) -> (usize, usize)
        ensures before { result.0 ≤ byte }
        ensures line { (u : unit.Unit) → IsLine u self → result.1 ≡ count_by is_line_end (take result.0 (text_in u file)) + 1 }
    {
        if self.file == file && self.byte <= byte {
            (self.byte, self.line)
        } else {
            (0, 1)
        }
    }

    /// The line of another place in the same unit.
    #[tactic(auto, unfolding(aa_text::specs::Places::place_behind))]
    pub fn moved(self, unit: &Unit, at: Spot) -> LineCount
        requires { IsLine unit.now self }
        ensures kept { IsLine unit.now result }
        ensures line { result.line ≡ line_at unit.now at }
    {
        let (_, text) = text_at(unit, at.file);
        let byte = at.byte as usize;
        let (from, line) = self.known_before(at.file, byte);
        LineCount {
            file: at.file,
            byte,
            line: line + line_ends_between(text, from, byte),
        }
    }
}
