//! Matching by halves of the items: for texts of any length.

ghost use Rattle.std.specs.Prelude.{◌≡◌, ◌↔◌, IsTrue, length, All};
ghost use Rattle.aa_pattern.specs.Globs.{Allows, Matches, SomeMatches};
ghost use Rattle.aa_pattern.specs.Steps.{IsSimple, Continues};

use crate::item::Item;
use crate::step::{begins, continues, is_skippable};

/// Whether a part goes on with all these bytes.
fn goes_on(item: &Item, text: &[u8]) -> bool
    ensures { IsTrue result ↔ All (Continues item.now) text.now }
{
    text.iter().all(|byte| continues(item, *byte))
}

/// Whether a simple item allows the text.
fn allows_simple(item: &Item, text: &[u8]) -> bool
    requires { IsSimple item.now }
    ensures { IsTrue result ↔ Allows item.now text.now }
{
    match text {
        [] => is_skippable(item),
        [first, others @ ..] => begins(item, *first) && goes_on(item, others),
    }
}

/// Whether the items match the text.
#[cycle(halves)]
pub(crate) fn matches_by_halves(items: &[Item], text: &[u8]) -> bool
    ensures { IsTrue result ↔ Matches items.now text.now }
{
    if items.len() < 2 {
        return match items.split_first() {
            Some((item, _)) => allows(item, text),
            None => text.is_empty(),
        };
    }
    let (front, back) = items.split_at(items.len() / 2);
    for cut in 0..=text.len() {
        if matches_by_halves(front, &text[..cut]) && matches_by_halves(back, &text[cut..]) {
            return true;
        }
    }
    false
}

/// Whether the item allows the text.
#[cycle(halves)]
fn allows(item: &Item, text: &[u8]) -> bool
    ensures { IsTrue result ↔ Allows item.now text.now }
{
    match item {
        Item::Choice(branches) => some_matches(branches.as_slice(), text),
        _ => allows_simple(item, text),
    }
}

/// Whether one of the sequences matches the text.
#[cycle(halves)]
fn some_matches(branches: &[Vec<Item>], text: &[u8]) -> bool
    ensures { IsTrue result ↔ SomeMatches branches.now text.now }
{
    for branch in branches {
        if matches_by_halves(branch.as_slice(), text) {
            return true;
        }
    }
    false
}
