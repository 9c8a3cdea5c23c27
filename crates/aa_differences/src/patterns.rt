//! Patterns that match the same texts, item by item.

ghost use Rattle.std.specs.Prelude.{◌≡◌, true};
ghost use Rattle.std.specs.List.{AllZip};
ghost use Rattle.aa_differences.specs.Sameness.{SameItem, SameSet, SameList, SamePattern, SamePatterns};

use aa_pattern::{ByteSet, Item, Pattern};

/// Whether two sets have the same bytes.
fn same_set(one: &ByteSet, other: &ByteSet) -> bool
    ensures { result ≡ true → SameSet one.now other.now }
{
    for byte in 0..256u16 {
        if one.has(byte as u8) != other.has(byte as u8) {
            return false;
        }
    }
    true
}

/// Whether two items without items inside are equal.
fn equal_items(one: &Item, other: &Item) -> bool
    ensures { result ≡ true → one.now ≡ other.now }
{
    match (one, other) {
        (Item::Byte(one), Item::Byte(other)) => *one == *other,
        (Item::One, Item::One) => true,
        (Item::Run, Item::Run) => true,
        (Item::RunOne, Item::RunOne) => true,
        (Item::Deep, Item::Deep) => true,
        (Item::DeepOne, Item::DeepOne) => true,
        _ => false,
    }
}

/// Whether two items are the same.
#[cycle(items)]
fn same_item(one: &Item, other: &Item) -> bool
    ensures { result ≡ true → SameItem one.now other.now }
{
    match (one, other) {
        (Item::Choice(one), Item::Choice(other)) => {
            same_branches(one.as_slice(), other.as_slice())
        }
        (Item::Class(one), Item::Class(other)) => same_set(one, other),
        _ => equal_items(one, other),
    }
}

/// Whether as many sequences of items are the same, each as the other in its place.
#[cycle(items)]
fn same_branches(one: &[Vec<Item>], other: &[Vec<Item>]) -> bool
    ensures { result ≡ true → AllZip SameList one.now other.now }
{
    if one.len() != other.len() {
        return false;
    }
    for number in 0..one.len() {
        if !same_items(one[number].as_slice(), other[number].as_slice()) {
            return false;
        }
    }
    true
}

/// Whether as many items are the same, each as the other in its place.
#[cycle(items)]
fn same_items(one: &[Item], other: &[Item]) -> bool
    ensures { result ≡ true → AllZip SameItem one.now other.now }
{
    if one.len() != other.len() {
        return false;
    }
    for number in 0..one.len() {
        if !same_item(&one[number], &other[number]) {
            return false;
        }
    }
    true
}

/// Whether two patterns have the same items.
pub(crate) fn same_pattern(one: &Pattern, other: &Pattern) -> bool
    ensures { result ≡ true → SamePattern one.now other.now }
{
    same_items(one.items.as_slice(), other.items.as_slice())
}

/// Whether as many patterns have the same items, each as the other in its place.
pub(crate) fn same_patterns(one: &[Pattern], other: &[Pattern]) -> bool
    ensures { result ≡ true → SamePatterns one.now other.now }
{
    if one.len() != other.len() {
        return false;
    }
    for number in 0..one.len() {
        if !same_pattern(&one[number], &other[number]) {
            return false;
        }
    }
    true
}
