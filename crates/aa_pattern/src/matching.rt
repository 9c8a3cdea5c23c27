//! What a pattern matches.

ghost use Rattle.std.specs.Prelude.{◌≡◌, ◌↔◌, ◌≤◌, IsTrue, All, length, drop, take_while};
ghost use Rattle.std.specs.List.{list_all};
ghost use Rattle.aa_pattern.specs.Globs.{Matches, is_byte};
ghost use Rattle.aa_pattern.specs.Steps.{Begins, IsOneByte, IsSimple};

use crate::flags::{CHOICE_PLACES, MAX_PLACES, PATH_PLACES, SHORT_PLACES, matches_by_flags};
use crate::gaps::{MAX_GAPS, READ_GAPS, are_simple, matches_by_gaps};
use crate::halves::matches_by_halves;
use crate::item::Item;
use crate::pattern::Pattern;
use crate::step::{begins, is_one_byte};

/// Whether the item's parts are one byte, and this one may be.
fn takes(item: &Item, byte: u8) -> bool
    ensures { IsTrue result ↔ (IsOneByte item.now × Begins item.now byte) }
{
    is_one_byte(item) && begins(item, byte)
}

/// How many items at the front have parts of one byte that the text begins with.
#[tactic(auto, using(crate::proofs::Fronts::front_more))]
fn front_length(items: &[Item], text: &[u8]) -> usize
    ensures items { result ≤ length items.now }
    ensures text { result ≤ length text.now }
    ensures same { Matches items.now text.now ↔ Matches (drop result items.now) (drop result text.now) }
{
    let mut at = 0;
    while at < items.len() && at < text.len() {
        if !takes(&items[at], text[at]) {
            return at;
        }
        at += 1;
    }
    at
}

/// Whether the first item alone shows that the text isn't matched.
fn fails_at_once(items: &[Item], text: &[u8]) -> bool
    ensures { IsTrue result → Matches items.now text.now → ⊥ }
{
    match (items, text) {
        ([], text) => !text.is_empty(),
        ([item, ..], []) => is_one_byte(item),
        ([item, ..], [byte, ..]) => is_one_byte(item) && !begins(item, *byte),
    }
}

/// Whether items without a choice match the text, where both may be many: the row has room for the fewer of gaps and places.
// A pattern that is read and has no choice has fewer items than those that come here. Either row costs the same. What is left,
// over a million items and bytes, is cut in halves, and so is what has a choice, for a text of over 16,383 bytes: exact and
// without memory, but very slow. No path of a request is so long.
#[inline(never)]
fn matches_large(items: &[Item], text: &[u8]) -> bool
    requires { All IsSimple items.now }
    ensures { IsTrue result ↔ Matches items.now text.now }
{
    if text.len() < MAX_PLACES {
        matches_by_flags::<MAX_PLACES>(items, text)
    } else if items.len() < MAX_GAPS {
        matches_by_gaps::<MAX_GAPS>(items, text)
    } else {
        matches_by_halves(items, text)
    }
}

// Most texts are matched by a row of flags on the machine's stack, one for each place behind the front that is matched already;
// each item goes over no more of it than from the first flag that is set to the last.
fn matches_items(items: &[Item], text: &[u8]) -> bool
    ensures { IsTrue result ↔ Matches items.now text.now }
{
    if fails_at_once(items, text) {
        false
    } else if text.len() < SHORT_PLACES {
        matches_by_flags::<SHORT_PLACES>(items, text)
    } else if text.len() < 256 {
        matches_by_flags::<256>(items, text)
    } else if text.len() < PATH_PLACES {
        matches_by_flags::<PATH_PLACES>(items, text)
    } else if are_simple(items) {
        if items.len() < READ_GAPS {
            matches_by_gaps::<READ_GAPS>(items, text)
        } else {
            matches_large(items, text)
        }
    } else if text.len() < CHOICE_PLACES {
        matches_by_flags::<CHOICE_PLACES>(items, text)
    } else {
        matches_by_halves(items, text)
    }
}

fn is_byte_item(item: &Item) -> bool
    ensures { result ≡ is_byte item.now }
{
    match item {
        Item::Byte(_) => true,
        _ => false,
    }
}

impl Pattern {
    /// Whether the whole path matches (apparmor.d(5), "Globbing"). It takes no memory; the machine's stack grows only with
    /// choices inside choices. It takes at most one step for each item and byte: with choices for a path of at most 16,383
    /// bytes, without them wherever the items or the bytes are fewer than 1,048,576.
    pub fn matches(&self, path: &[u8]) -> bool
        ensures { IsTrue result ↔ Matches self.now.items.items path.now }
    {
        let items = self.items.as_slice();
        let front = front_length(items, path);
        let (_, others) = items.split_at(front);
        let (_, rest) = path.split_at(front);
        matches_items(others, rest)
    }

    /// Whether every item is a byte.
    pub fn is_literal(&self) -> bool
        ensures { result ≡ list_all is_byte self.now.items.items }
    {
        self.items.iter().all(is_byte_item)
    }

    /// How many items at the front are bytes.
    pub fn literal_front(&self) -> usize
        ensures { result ≡ length (take_while is_byte self.now.items.items) }
    {
        self.items
            .iter()
            .take_while(|item| is_byte_item(item))
            .count()
    }
}
