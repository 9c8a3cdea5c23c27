//! The rows that have marks of rules of a place.

ghost use Rattle.std.specs.Prelude.{◌≡◌, ℕ, ◌<◌, [], length, map, slice_get, IfOk, OnOk, Some, Contains, true};
ghost use Rattle.aa_redundancy.specs.declared.marks.RuleMark.{RuleMark as rule_mark};
ghost use Rattle.aa_redundancy.specs.Mentions.{lists, rows_at, IsListed, RowsAreListed, AreListed, StayListed};

use crate::tables::Table;
use std::alloc::{AllocError, Global};

/// A row of one of several tables, by their numbers.
#[derive(Clone, Copy, Debug, PartialEq, Eq)]
pub struct RowNumber {
    pub table: usize,
    pub row: usize,
}

/// Whether the row is the last one.
fn is_last(rows: &[RowNumber], row: RowNumber) -> bool
    ensures { result ≡ true → Contains rows.now row }
{
    match rows {
        [.., last] => *last == row,
        [] => false,
    }
}

/// Lists a row at a place, once.
fn list_at(listed: &mut Vec<Vec<RowNumber>>, place: usize, row: RowNumber) -> Result<(), AllocError>
    requires { place < length listed.old.items }
    ensures stay { OnOk result (StayListed (lists listed.old.items) (lists listed.new.items)) }
    ensures here { OnOk result (Contains (rows_at (lists listed.new.items) place) row) }
{
    if is_last(listed[place].as_slice(), row) {
        return Ok(());
    }
    listed[place].push(row)?;
    Ok(())
}

/// Lists a row at the place of the rule of a mark.
fn list_mark(
    listed: &mut Vec<Vec<RowNumber>>,
    table: &Table,
    number: usize,
    row: RowNumber,
) -> Result<(), AllocError>
    ensures stay { OnOk result (StayListed (lists listed.old.items) (lists listed.new.items)) }
    ensures here { OnOk result ((m : rule_mark) → slice_get table.now.marks.items number ≡ Some m → m.rule < length (lists listed.new.items) → Contains (rows_at (lists listed.new.items) m.rule) row) }
{
    let Some(mark) = table.marks.get(number) else {
        return Ok(());
    };
    let place = mark.rule;
    if place >= listed.len() {
        return Ok(());
    }
    list_at(listed, place, row)
}

/// Lists a row at the places of its marks.
fn list_row(
    listed: &mut Vec<Vec<RowNumber>>,
    table: &Table,
    numbers: &[usize],
    row: RowNumber,
) -> Result<(), AllocError>
    ensures stay { OnOk result (StayListed (lists listed.old.items) (lists listed.new.items)) }
    ensures here { OnOk result (IsListed table.now numbers.now row (lists listed.new.items)) }
{
    for number in numbers {
        list_mark(listed, table, *number, row)?;
    }
    Ok(())
}

/// Lists the rows of the table of that number.
fn list_table(
    listed: &mut Vec<Vec<RowNumber>>,
    table: &Table,
    number: usize,
) -> Result<(), AllocError>
    ensures stay { OnOk result (StayListed (lists listed.old.items) (lists listed.new.items)) }
    ensures here { OnOk result (RowsAreListed table.now number (lists listed.new.items)) }
{
    let rows = table.rows.as_slice();
    for row in 0..rows.len() {
        let at = RowNumber { table: number, row };
        list_row(listed, table, rows[row].as_slice(), at)?;
    }
    Ok(())
}

fn no_rows(alloc: Global, count: usize) -> Result<Vec<Vec<RowNumber>>, AllocError>
    ensures { IfOk result (λ listed. length (lists listed.items) ≡ count) }
{
    let mut listed = Vec::new(alloc);
    for _place in 0..count {
        listed.push(Vec::new(alloc))?;
    }
    Ok(listed)
}

/// Of each of so many places, the rows that have marks of its rules.
pub(crate) fn listed_rows(
    alloc: Global,
    tables: &[Table],
    count: usize,
) -> Result<Vec<Vec<RowNumber>>, AllocError>
    ensures many { IfOk result (λ listed. length (lists listed.items) ≡ count) }
    ensures all { IfOk result (λ listed. AreListed tables.now (lists listed.items)) }
{
    let mut listed = no_rows(alloc, count)?;
    for number in 0..tables.len() {
        list_table(&mut listed, &tables[number], number)?;
    }
    Ok(listed)
}
