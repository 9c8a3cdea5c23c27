//! Tables by which no rule can go.

ghost use Rattle.std.specs.Prelude.{◌≡◌, ◌<◌, ◌∷◌, [], ℕ, Some, slice_get, false, length, IfOk};
ghost use Rattle.aa_redundancy.specs.Covering.{Within};
ghost use Rattle.aa_redundancy.specs.Tables.{Equal, Decides};
ghost use Rattle.aa_redundancy.specs.Marks.{plain_mark};
ghost use Rattle.aa_redundancy.specs.Plain.{HasRows};
ghost use Rattle.aa_redundancy.specs.Places.{gone_at};
ghost use Rattle.aa_redundancy.specs.Kept.{GoneAlike, GoneWithin};

use crate::marks::{RuleMark, plain_mark};
use crate::places::placed;
use crate::tables::Table;
use aa_base::Seq;
use std::alloc::{AllocError, Global};

/// A mark for each of so many rules.
fn marks_of(alloc: Global, count: usize) -> Result<Vec<RuleMark>, AllocError>
    ensures many { IfOk result (λ marks. length marks.items ≡ count) }
    ensures marks { IfOk result (λ marks. (n : ℕ) → n < count → slice_get marks.items n ≡ Some (plain_mark n false false)) }
{
    let mut marks = Vec::new(alloc);
    for number in 0..count {
        marks.push(plain_mark(number, false, false))?;
    }
    Ok(marks)
}

/// One number.
fn row_of(alloc: Global, number: usize) -> Result<Seq<usize>, AllocError>
    ensures { IfOk result (λ row. row ≡ number ∷ []) }
{
    let mut row = Vec::new(alloc);
    row.push(number)?;
    Ok(Seq::from_vec(row))
}

fn rows_of(alloc: Global, count: usize) -> Result<Vec<Seq<usize>>, AllocError>
    ensures { IfOk result (λ rows. HasRows (λ n. n ∷ []) count rows.items) }
{
    let mut rows = Vec::new(alloc);
    for number in 0..count {
        rows.push(row_of(alloc, number)?)?;
    }
    Ok(rows)
}

/// A row for each of so many rules, of it alone.
fn table_of(alloc: Global, count: usize) -> Result<Table, AllocError>
    ensures alike { IfOk result (λ t. Decides Equal t (GoneAlike count)) }
    ensures within { IfOk result (λ t. Decides Within t (GoneWithin count)) }
{
    let marks = marks_of(alloc, count)?;
    let rows = rows_of(alloc, count)?;
    Ok(Table { marks, rows })
}

/// The same by the places of the rules.
pub(crate) fn table_of_kept(
    alloc: Global,
    count: usize,
    numbers: &[usize],
) -> Result<Table, AllocError>
    ensures alike { IfOk result (λ t. Decides Equal t (λ gone others. GoneAlike count (gone_at gone numbers.now) (gone_at others numbers.now))) }
    ensures within { IfOk result (λ t. Decides Within t (λ gone others. GoneWithin count (gone_at gone numbers.now) (gone_at others numbers.now))) }
{
    let table = table_of(alloc, count)?;
    let placed = placed(alloc, table, numbers)?;
    Ok(placed)
}
