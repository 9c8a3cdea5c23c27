//! Rules by the numbers of their places.

ghost use Rattle.std.specs.Prelude.{◌≡◌, ◌<◌, ℕ, length, map, IfOk};
ghost use Rattle.aa_redundancy.specs.Without.{marked};
ghost use Rattle.aa_redundancy.specs.Reasons.{is_one_of};
ghost use Rattle.aa_redundancy.specs.Places.{place_of, at_place};

use crate::going::no_marks;
use crate::marks::RuleMark;
use crate::reasons::mark_all;
use crate::tables::Table;
use aa_base::Seq;
use std::alloc::{AllocError, Global};

/// Of each rule of a profile the number of the place where it stands, sort by sort. Rules of one place have one number, in all profiles.
#[derive(Drop)]
pub struct PlaceNumbers {
    pub files: Seq<usize>,
    pub caps: Seq<usize>,
    pub nets: Seq<usize>,
    pub changes: Seq<usize>,
}

/// The place of a rule.
pub fn place_of(numbers: &[usize], rule: usize) -> usize
    ensures { result ≡ place_of numbers.now rule }
{
    match numbers.get(rule) {
        Some(number) => *number,
        None => 0,
    }
}

fn at_place(numbers: &[usize], mark: &RuleMark) -> RuleMark
    ensures { result ≡ at_place numbers.now mark.now }
{
    RuleMark {
        rule: place_of(numbers, mark.rule),
        mark: mark.mark,
    }
}

fn all_at_places(
    alloc: Global,
    numbers: &[usize],
    marks: &[RuleMark],
) -> Result<Vec<RuleMark>, AllocError>
    ensures { IfOk result (λ placed. placed.items ≡ map (at_place numbers.now) marks.now) }
{
    let mut placed = Vec::new(alloc);
    for mark in marks {
        placed.push(at_place(numbers, mark))?;
    }
    Ok(placed)
}

/// The table by the places of its rules.
pub(crate) fn placed(alloc: Global, table: Table, numbers: &[usize]) -> Result<Table, AllocError>
    ensures marks { IfOk result (λ t. t.marks.items ≡ map (at_place numbers.now) table.marks.items) }
    ensures rows { IfOk result (λ t. t.rows.items ≡ table.rows.items) }
{
    let Table { marks, rows } = table;
    let marks = all_at_places(alloc, numbers, marks.as_slice())?;
    Ok(Table { marks, rows })
}

/// Marks for these places, of so many.
pub fn marks_of_places(
    alloc: Global,
    places: &[usize],
    count: usize,
) -> Result<Vec<bool>, AllocError>
    ensures many { IfOk result (λ flags. length flags.items ≡ count) }
    ensures marks { IfOk result (λ flags. (n : ℕ) → n < count → marked flags.items n ≡ is_one_of places.now n) }
{
    let mut flags = no_marks(alloc, count)?;
    mark_all(&mut flags, places);
    Ok(flags)
}
