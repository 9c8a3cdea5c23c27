//! Rows of marks that decide whether rules are redundant.

ghost use Rattle.std.specs.Prelude.{◌≡◌, ℕ, List, Some, slice_get, true, false, All};
ghost use Rattle.aa_redundancy.specs.Without.{marked, gone_by};
ghost use Rattle.aa_redundancy.specs.Tables.{Equal, RowRelated, RowsRelated, TablesRelated, SameTables};
ghost use Rattle.aa_redundancy.specs.Covering.{Within};
ghost use Rattle.aa_redundancy.specs.Mentions.{RelatedAt, SameAt};

use crate::marks::RuleMark;
use crate::mentions::RowNumber;
use crate::saying::{same_row, within_row};
use aa_base::Seq;

/// The marks of some rules, and rows of them: those that speak of one thing that can be asked for.
#[derive(Drop)]
pub struct Table {
    pub marks: Vec<RuleMark>,
    pub rows: Vec<Seq<usize>>,
}

/// Whether the marks of a row say the same when rules are gone as when others are.
fn same_in(
    marks: &[RuleMark],
    rows: &[Seq<usize>],
    number: usize,
    gone: &[bool],
    others: &[bool],
) -> bool
    ensures same { result ≡ true → (row : List ℕ) → slice_get rows.now number ≡ Some row → RowRelated Equal marks.now (marked gone.now) (marked others.now) row }
    ensures differs { result ≡ false → RowsRelated Equal marks.now (marked gone.now) (marked others.now) rows.now → ⊥ }
{
    if number >= rows.len() {
        return true;
    }
    same_row(marks, rows[number].as_slice(), gone, others)
}

/// Whether those of a row of one of the tables do.
fn same_at(tables: &[Table], row: RowNumber, gone: &[bool], others: &[bool]) -> bool
    ensures same { result ≡ true → RelatedAt Equal tables.now (marked gone.now) (marked others.now) row }
    ensures differs { result ≡ false → TablesRelated Equal tables.now (marked gone.now) (marked others.now) → ⊥ }
{
    if row.table >= tables.len() {
        return true;
    }
    let table = &tables[row.table];
    let marks = table.marks.as_slice();
    same_in(marks, table.rows.as_slice(), row.row, gone, others)
}

/// Whether those of each of these rows do.
pub(crate) fn same_in_all(
    tables: &[Table],
    rows: &[RowNumber],
    gone: &[bool],
    others: &[bool],
) -> bool
    ensures same { result ≡ true → All (RelatedAt Equal tables.now (marked gone.now) (marked others.now)) rows.now }
    ensures differs { result ≡ false → TablesRelated Equal tables.now (marked gone.now) (marked others.now) → ⊥ }
{
    for number in 0..rows.len() {
        let same = same_at(tables, rows[number], gone, others);
        if !same {
            return false;
        }
    }
    true
}

/// Whether those of each of these rows say the same when the marked rules are gone.
pub(crate) fn same_rows(tables: &[Table], rows: &[RowNumber], gone: &[bool]) -> bool
    ensures same { result ≡ true → All (SameAt tables.now (marked gone.now)) rows.now }
    ensures differs { result ≡ false → SameTables tables.now (marked gone.now) → ⊥ }
{
    same_in_all(tables, rows, gone, &[])
}

/// Whether what the marked rules of a row say is said by those that aren't gone.
fn within_in(
    marks: &[RuleMark],
    rows: &[Seq<usize>],
    number: usize,
    only: &[bool],
    gone: &[bool],
) -> bool
    ensures same { result ≡ true → (row : List ℕ) → slice_get rows.now number ≡ Some row → RowRelated Within marks.now (gone_by false only.now) (marked gone.now) row }
    ensures differs { result ≡ false → RowsRelated Within marks.now (gone_by false only.now) (marked gone.now) rows.now → ⊥ }
{
    if number >= rows.len() {
        return true;
    }
    within_row(marks, rows[number].as_slice(), only, gone)
}

/// Whether those of a row of one of the tables do.
fn within_at(tables: &[Table], row: RowNumber, only: &[bool], gone: &[bool]) -> bool
    ensures same { result ≡ true → RelatedAt Within tables.now (gone_by false only.now) (marked gone.now) row }
    ensures differs { result ≡ false → TablesRelated Within tables.now (gone_by false only.now) (marked gone.now) → ⊥ }
{
    if row.table >= tables.len() {
        return true;
    }
    let table = &tables[row.table];
    let marks = table.marks.as_slice();
    within_in(marks, table.rows.as_slice(), row.row, only, gone)
}

/// Whether those of each of these rows do.
pub(crate) fn within_in_all(
    tables: &[Table],
    rows: &[RowNumber],
    only: &[bool],
    gone: &[bool],
) -> bool
    ensures same { result ≡ true → All (RelatedAt Within tables.now (gone_by false only.now) (marked gone.now)) rows.now }
    ensures differs { result ≡ false → TablesRelated Within tables.now (gone_by false only.now) (marked gone.now) → ⊥ }
{
    for number in 0..rows.len() {
        let same = within_at(tables, rows[number], only, gone);
        if !same {
            return false;
        }
    }
    true
}
