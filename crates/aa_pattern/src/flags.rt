//! Matching by a row of flags, one for each place of the text: whether the items so far match what stands before it.

ghost use Rattle.std.specs.Prelude.{◌≡◌, ◌≤◌, ◌<◌, ◌+◌, ◌↔◌, ◌||◌, ◌⊎◌, ℕ, IsTrue, All, length, min, max, false, slice_index_or, [], ◌∷◌};
ghost use Rattle.aa_pattern.specs.Globs.{Matches};
ghost use Rattle.aa_pattern.specs.Steps.{IsSimple, IsOneByte, Continues};
ghost use Rattle.aa_pattern.specs.Flags.{AreUnset, AreWithin, Changes, Follows, FollowsSome};

use crate::growth::goes;
use crate::item::Item;
use crate::step::{begins, is_one_byte, is_skippable};

/// Some of the places of a text: those from `first` on that are before `end`.
#[derive(Clone, Copy)]
pub struct Span {
    first: usize,
    end: usize,
}

/// The first place of a set flag, or `end`.
fn first_set(flags: &[bool], first: usize, end: usize) -> usize
    requires { end ≤ length flags.now }
    ensures { (k : ℕ) → first ≤ k → k < result → slice_index_or flags.now k false ≡ false }
{
    for place in first..end {
        if flags[place] {
            return place;
        }
    }
    end
}

/// Whether a part of the item that ends at a place, or doesn't, can't go on behind it.
fn stops(item: &Item, ends: bool) -> bool
    ensures { IsTrue result → IsTrue ends → (b : ℕ) → Continues item.now b → ⊥ }
{
    !ends || is_one_byte(item)
}

/// Takes the flags from before a simple item to behind it, and returns one past the last that may be set.
fn follow_from(item: &Item, text: &[u8], flags: &mut [bool], span: Span) -> usize
    requires simple { IsSimple item.now }
    requires long { length text.now < length flags.old }
    requires some { span.first < span.end }
    requires within { AreWithin flags.old text.now span.first span.end }
    ensures follows { Follows (item.now ∷ []) text.now flags.old flags.new }
    ensures within { AreWithin flags.new text.now span.first result }
{
    let mut before = flags[span.first];
    flags[span.first] = before && is_skippable(item);
    let mut end = span.first + 1;
    for i in span.first..text.len() {
        let here = flags[i + 1];
        let ends = goes(item, text[i], here, before, flags[i]);
        flags[i + 1] = ends;
        before = here;
        if ends {
            end = i + 2;
        }
        if span.end <= i + 1 && stops(item, ends) {
            return end;
        }
    }
    end
}

/// The same for an item of one byte where one flag may be set, the one at that place.
#[tactic(auto, using(crate::proofs::FlagSteps::byte_last, crate::proofs::FlagSteps::byte_next))]
fn follow_byte(item: &Item, text: &[u8], flags: &mut [bool], place: usize) -> Span
    requires one { IsOneByte item.now }
    requires long { length text.now < length flags.old }
    requires within { AreWithin flags.old text.now place (place + 1) }
    ensures follows { Follows (item.now ∷ []) text.now flags.old flags.new }
    ensures within { AreWithin flags.new text.now result.first result.end }
{
    let before = flags[place];
    flags[place] = false;
    if place == text.len() {
        return Span {
            first: place,
            end: place,
        };
    }
    let ends = before && begins(item, text[place]);
    flags[place + 1] = ends;
    let first = place + 1;
    let end = if ends { place + 2 } else { first };
    Span { first, end }
}

/// Takes the flags from before a simple item to behind it.
fn follow_simple(item: &Item, text: &[u8], flags: &mut [bool], span: Span) -> Span
    requires simple { IsSimple item.now }
    requires long { length text.now < length flags.old }
    requires some { span.first < span.end }
    requires within { AreWithin flags.old text.now span.first span.end }
    ensures follows { Follows (item.now ∷ []) text.now flags.old flags.new }
    ensures within { AreWithin flags.new text.now result.first result.end }
{
    if span.first + 1 == span.end && is_one_byte(item) {
        return follow_byte(item, text, flags, span.first);
    }
    let end = follow_from(item, text, flags, span);
    let first = first_set(flags, span.first, end);
    Span { first, end }
}

/// Copies the flags of these places.
fn copy_flags(flags: &mut [bool], from: &[bool], span: Span)
    requires flags { span.end ≤ length flags.old }
    requires from { span.end ≤ length from.now }
    ensures { Changes flags.old flags.new span.first span.end (λ k. slice_index_or from.now k false) }
{
    for place in span.first..span.end {
        flags[place] = from[place];
    }
}

/// Sets each flag of these places that is set in `more`.
fn add_flags(flags: &mut [bool], more: &[bool], span: Span)
    requires flags { span.end ≤ length flags.old }
    requires more { span.end ≤ length more.now }
    ensures { Changes flags.old flags.new span.first span.end (λ k. slice_index_or flags.old k false || slice_index_or more.now k false) }
{
    for place in span.first..span.end {
        flags[place] |= more[place];
    }
}

/// Unsets the flags of these places.
fn clear_flags(flags: &mut [bool], span: Span)
    requires { span.end ≤ length flags.old }
    ensures { Changes flags.old flags.new span.first span.end (λ k. false) }
{
    for place in span.first..span.end {
        flags[place] = false;
    }
}

/// The places of both, where the second has any.
fn joined(span: Span, more: Span) -> Span
    ensures none { more.end ≤ more.first → (result.first ≡ span.first) × (result.end ≡ span.end) }
    ensures some { more.first < more.end → (result.first ≡ min span.first more.first) × (result.end ≡ max span.end more.end) }
{
    if more.end <= more.first {
        return span;
    }
    let first = span.first.min(more.first);
    let end = span.end.max(more.end);
    Span { first, end }
}

/// How many places a short text has at most: a choice takes less room then.
pub(crate) const SHORT_PLACES: usize = 64;

/// The same of a text as long as a path may be.
pub(crate) const PATH_PLACES: usize = 4096;

/// The same of a text that is matched by flags where there are choices: each takes two rows.
pub(crate) const CHOICE_PLACES: usize = 16384;

/// The same of any text that is matched by flags.
pub(crate) const MAX_PLACES: usize = 1_048_576;

/// Takes the flags from before the items to behind them.
#[cycle(follow)]
fn follow_items(items: &[Item], text: &[u8], flags: &mut [bool], span: Span) -> Span
    requires long { length text.now < length flags.old }
    requires small { All IsSimple items.now ⊎ (length text.now < CHOICE_PLACES) }
    requires within { AreWithin flags.old text.now span.first span.end }
    ensures follows { Follows items.now text.now flags.old flags.new }
    ensures within { AreWithin flags.new text.now result.first result.end }
{
    let mut reached = span;
    for item in items {
        if reached.end <= reached.first {
            return reached;
        }
        reached = match item {
            Item::Choice(branches) => follow_choice(branches.as_slice(), text, flags, reached),
            _ => follow_simple(item, text, flags, reached),
        };
    }
    reached
}

/// Takes the flags from before a choice of these sequences to behind it.
#[cycle(follow)]
fn follow_choice(branches: &[Vec<Item>], text: &[u8], flags: &mut [bool], span: Span) -> Span
    requires long { length text.now < length flags.old }
    requires small { length text.now < CHOICE_PLACES }
    requires within { AreWithin flags.old text.now span.first span.end }
    ensures follows { FollowsSome branches.now text.now flags.old flags.new }
    ensures within { AreWithin flags.new text.now result.first result.end }
{
    if text.len() < SHORT_PLACES {
        follow_short(branches, text, flags, span)
    } else if text.len() < PATH_PLACES {
        follow_path(branches, text, flags, span)
    } else {
        follow_long(branches, text, flags, span)
    }
}

/// The same for a short text.
#[cycle(follow)]
fn follow_short(branches: &[Vec<Item>], text: &[u8], flags: &mut [bool], span: Span) -> Span
    requires long { length text.now < length flags.old }
    requires small { length text.now < SHORT_PLACES }
    requires within { AreWithin flags.old text.now span.first span.end }
    ensures follows { FollowsSome branches.now text.now flags.old flags.new }
    ensures within { AreWithin flags.new text.now result.first result.end }
{
    let mut ends = [false; SHORT_PLACES];
    let mut all = [false; SHORT_PLACES];
    follow_branches(branches, text, flags, span, &mut ends, &mut all)
}

/// The same for a text as long as a path may be.
#[cycle(follow)]
fn follow_path(branches: &[Vec<Item>], text: &[u8], flags: &mut [bool], span: Span) -> Span
    requires long { length text.now < length flags.old }
    requires small { length text.now < PATH_PLACES }
    requires within { AreWithin flags.old text.now span.first span.end }
    ensures follows { FollowsSome branches.now text.now flags.old flags.new }
    ensures within { AreWithin flags.new text.now result.first result.end }
{
    let mut ends = [false; PATH_PLACES];
    let mut all = [false; PATH_PLACES];
    follow_branches(branches, text, flags, span, &mut ends, &mut all)
}

/// The same for any other text.
#[cycle(follow)]
fn follow_long(branches: &[Vec<Item>], text: &[u8], flags: &mut [bool], span: Span) -> Span
    requires long { length text.now < length flags.old }
    requires small { length text.now < CHOICE_PLACES }
    requires within { AreWithin flags.old text.now span.first span.end }
    ensures follows { FollowsSome branches.now text.now flags.old flags.new }
    ensures within { AreWithin flags.new text.now result.first result.end }
{
    let mut ends = [false; CHOICE_PLACES];
    let mut all = [false; CHOICE_PLACES];
    follow_branches(branches, text, flags, span, &mut ends, &mut all)
}

/// The same over two rows in which no flag is set: one for the ends of each sequence, one for all of them.
#[cycle(follow)]
fn follow_branches(
    branches: &[Vec<Item>],
    text: &[u8],
    flags: &mut [bool],
    span: Span,
    ends: &mut [bool],
    all: &mut [bool],
) -> Span
    requires long { length text.now < length flags.old }
    requires small { length text.now < CHOICE_PLACES }
    requires long_ends { length text.now < length ends.old }
    requires long_all { length text.now < length all.old }
    requires within { AreWithin flags.old text.now span.first span.end }
    requires no_ends { AreUnset ends.old }
    requires none { AreUnset all.old }
    ensures follows { FollowsSome branches.now text.now flags.old flags.new }
    ensures within { AreWithin flags.new text.now result.first result.end }
{
    let mut reached = Span {
        first: text.len(),
        end: 0,
    };
    for branch in branches {
        copy_flags(ends, flags, span);
        let more = follow_items(branch.as_slice(), text, ends, span);
        add_flags(all, ends, more);
        clear_flags(ends, more);
        reached = joined(reached, more);
    }
    clear_flags(flags, span);
    copy_flags(flags, all, reached);
    reached
}

/// Whether the items match the text, which has fewer than N bytes.
pub(crate) fn matches_by_flags<const N: usize>(items: &[Item], text: &[u8]) -> bool
    requires room { length text.now < N }
    requires small { N ≤ MAX_PLACES }
    requires simple { All IsSimple items.now ⊎ (N ≤ CHOICE_PLACES) }
    ensures { IsTrue result ↔ Matches items.now text.now }
{
    let mut flags = [false; N];
    flags[0] = true;
    follow_items(items, text, &mut flags, Span { first: 0, end: 1 });
    flags[text.len()]
}
