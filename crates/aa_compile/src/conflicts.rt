//! Rules that say differently how one text is executed.

ghost use Rattle.std.specs.Prelude.{◌≡◌, ◌≢◌, ◌↔◌, ℕ, IsTrue, true, false, Some};
ghost use Rattle.std.specs.List.{slice_get};
ghost use Rattle.aa_compile.specs.declared.mark.Way.{Way};
ghost use Rattle.aa_compile.specs.Conflicts.{is_sort, way_if, way_at, WaysDiffer, HasConflict};

use crate::mark::{Mark, Way};
use aa_auto::Automaton;

fn is_of_sort(mark: &Mark, literal: bool) -> bool
    ensures { result ≡ is_sort literal mark.now }
{
    if literal { mark.literal } else { !mark.literal }
}

fn way_if_allowed(mark: &Mark, literal: bool) -> Option<Way>
    ensures { result ≡ way_if literal mark.now }
{
    if is_of_sort(mark, literal) && !mark.deny {
        return mark.way;
    }
    None
}

fn way_of(marks: &[Mark], number: u16, literal: bool) -> Option<Way>
    ensures { result ≡ way_at marks.now literal number }
{
    match marks.get(number as usize) {
        Some(mark) => way_if_allowed(mark, literal),
        None => None,
    }
}

/// Whether both are there, and not the same.
fn differ(one: Option<Way>, other: Option<Way>) -> bool
    ensures differ { result ≡ true → ((a : Way) × (b : Way) × (one ≡ Some a) × (other ≡ Some b) × (a ≢ b)) }
    ensures alike { result ≡ false → (a b : Way) → one ≡ Some a → other ≡ Some b → a ≡ b }
{
    match (one, other) {
        (Some(one), Some(other)) => one != other,
        _ => false,
    }
}

/// Each is compared with the first.
fn ways_differ(marks: &[Mark], numbers: &[u16], literal: bool) -> bool
    ensures { IsTrue result ↔ WaysDiffer marks.now literal numbers.now }
{
    let mut first = None;
    for number in numbers {
        let way = way_of(marks, *number, literal);
        if differ(first, way) {
            return true;
        }
        first = first.or(way);
    }
    false
}

/// Whether two marks of one list say differently how a text is executed.
// A list is some text's and each text has a list, so to look through the lists is exact, and linear in them: the first way is
// compared with each later one, literal patterns and others apart.
pub fn has_conflict(automaton: &Automaton, marks: &[Mark]) -> bool
    ensures { IsTrue result ↔ HasConflict marks.now automaton.now.lists }
{
    for number in 0..automaton.lists() {
        let numbers = automaton.list(number);
        if ways_differ(marks, numbers, true) || ways_differ(marks, numbers, false) {
            return true;
        }
    }
    false
}
