//! Matching by a row of flags, one for each gap between items: for items without a choice, and texts of any length.
//!
//! No row that is shorter than both the items and the text is known to be enough. Matching without choices finds a path through
//! a grid of items and bytes, and each layered grid is such a match: for each column the text has `x/`, and a byte for each
//! column, 1 at its own place and 0 elsewhere; for each layer the pattern has `*[x/]*[x/]`, which moves on by one column or by
//! two, and a class for each column, `[01]` where the layer has it and `0` where it hasn't. Two marks (the last `**` and the
//! last `*` since) are wrong where a class lists both `/` and another byte: `*[a/]*` matches `a/`. A mark for each part between
//! slashes is exact, and makes a row as long as the text has parts. The borders of blocks, computed anew where they are wanted,
//! are exact too, and cost the more steps the more blocks there are.

ghost use Rattle.std.specs.Prelude.{◌≡◌, ◌↔◌, ◌<◌, ◌≤◌, ℕ, IsTrue, All, length, List, [], ◌∷◌, ◌++◌};
ghost use Rattle.aa_pattern.specs.Globs.{Matches};
ghost use Rattle.aa_pattern.specs.Steps.{IsSimple};
ghost use Rattle.aa_pattern.specs.Flags.{StandsIn};

use crate::growth::goes;
use crate::item::Item;
use crate::step::is_skippable;

/// How many gaps there are at most in a pattern without a choice that `read_pattern` or `expand` gives.
pub(crate) const READ_GAPS: usize = 16385;

/// How many gaps there are at most between items that are matched by flags.
pub(crate) const MAX_GAPS: usize = 1_048_577;

/// Whether the item is no choice.
fn is_simple(item: &Item) -> bool
    ensures { IsTrue result ↔ IsSimple item.now }
{
    match item {
        Item::Choice(_) => false,
        _ => true,
    }
}

/// Whether none of the items is a choice.
pub(crate) fn are_simple(items: &[Item]) -> bool
    ensures { IsTrue result ↔ All IsSimple items.now }
{
    items.iter().all(|item| is_simple(item))
}

/// Sets the flags of the gaps where the empty text stands.
fn begin(items: &[Item], gaps: &mut [bool])
    requires simple { All IsSimple items.now }
    requires long { length items.now < length gaps.old }
    ensures { StandsIn gaps.new items.now [] }
{
    gaps[0] = true;
    for i in 0..items.len() {
        let may_be_empty = is_skippable(&items[i]);
        gaps[i + 1] = gaps[i] && may_be_empty;
    }
}

/// Takes the flags one byte on.
fn follow_byte(items: &[Item], byte: u8, gaps: &mut [bool])
    requires simple { All IsSimple items.now }
    requires long { length items.now < length gaps.old }
    ensures { (text : List ℕ) → StandsIn gaps.old items.now text → StandsIn gaps.new items.now (text ++ byte ∷ []) }
{
    let mut before = gaps[0];
    gaps[0] = false;
    for i in 0..items.len() {
        let behind = gaps[i + 1];
        gaps[i + 1] = goes(&items[i], byte, gaps[i], before, behind);
        before = behind;
    }
}

/// Whether the items, which have at most N gaps, match the text.
#[inline(never)]
pub(crate) fn matches_by_gaps<const N: usize>(items: &[Item], text: &[u8]) -> bool
    requires simple { All IsSimple items.now }
    requires few { length items.now < N }
    requires small { N ≤ MAX_GAPS }
    ensures { IsTrue result ↔ Matches items.now text.now }
{
    let mut gaps = [false; N];
    begin(items, &mut gaps);
    for byte in text {
        follow_byte(items, *byte, &mut gaps);
    }
    gaps[items.len()]
}
