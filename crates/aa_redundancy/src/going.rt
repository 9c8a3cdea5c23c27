//! Places whose rules can go, each by itself, and together.

ghost use Rattle.std.specs.Prelude.{◌≡◌, ◌≤◌, ◌<◌, ℕ, IfOk, All, length, replicate, true, false};
ghost use Rattle.aa_redundancy.specs.Without.{only, marked};
ghost use Rattle.aa_redundancy.specs.Tables.{SameTables};
ghost use Rattle.aa_redundancy.specs.Mentions.{lists, rows_at, AreListed, SameAt};
ghost use Rattle.aa_redundancy.specs.Going.{MarksThose, NoneMarked, AreLater, is_free, GoesWith, Settles, AreGoing};

use crate::mentions::{RowNumber, listed_rows};
use crate::saying::is_marked;
use crate::tables::{Table, same_rows};
use std::alloc::{AllocError, Global};

/// Which places can go with their rules, by their numbers.
#[derive(Drop)]
pub struct Going {
    /// Each by itself.
    pub alone: Vec<bool>,
    /// All of these together: from the last on, each that can go by itself and with those before, and that isn't held.
    pub together: Vec<bool>,
}

/// Marks for none of so many places.
pub(crate) fn no_marks(alloc: Global, count: usize) -> Result<Vec<bool>, AllocError>
    ensures { IfOk result (λ flags. flags.items ≡ replicate count false) }
{
    vec![in alloc; false; count]
}

/// Whether the rows that have marks of a place say the same when rules are gone.
fn same_without(tables: &[Table], listed: &[Vec<RowNumber>], number: usize, gone: &[bool]) -> bool
    requires { number < length listed.now }
    ensures same { result ≡ true → All (SameAt tables.now (marked gone.now)) (rows_at (lists listed.now) number) }
    ensures differs { result ≡ false → SameTables tables.now (marked gone.now) → ⊥ }
{
    same_rows(tables, listed[number].as_slice(), gone)
}

/// Whether a place can go by itself, where none is marked.
fn goes_alone(
    tables: &[Table],
    listed: &[Vec<RowNumber>],
    gone: &mut Vec<bool>,
    number: usize,
) -> bool
    requires rows { AreListed tables.now (lists listed.now) }
    requires many { length gone.old.items ≡ length listed.now }
    requires within { number < length gone.old.items }
    requires none { NoneMarked gone.old.items }
    ensures many { length gone.new.items ≡ length gone.old.items }
    ensures still { NoneMarked gone.new.items }
    ensures same { result ≡ true → SameTables tables.now (only number) }
    ensures differs { result ≡ false → SameTables tables.now (only number) → ⊥ }
{
    gone[number] = true;
    let goes = same_without(tables, listed, number, gone.as_slice());
    gone[number] = false;
    goes
}

/// The places that can go by themselves.
fn alone(
    alloc: Global,
    tables: &[Table],
    listed: &[Vec<RowNumber>],
    count: usize,
) -> Result<Vec<bool>, AllocError>
    requires rows { AreListed tables.now (lists listed.now) }
    requires listed { length listed.now ≡ count }
    ensures many { IfOk result (λ flags. length flags.items ≡ count) }
    ensures those { IfOk result (λ flags. MarksThose flags.items count (λ i. SameTables tables.now (only i))) }
{
    let mut gone = no_marks(alloc, count)?;
    let mut flags = Vec::new(alloc);
    for number in 0..count {
        let goes = goes_alone(tables, listed, &mut gone, number);
        flags.push(goes)?;
    }
    Ok(flags)
}

/// Whether a place can go by itself, and isn't held.
fn is_free(alone: &[bool], held: &[bool], number: usize) -> bool
    ensures { result ≡ is_free alone.now held.now number }
{
    is_marked(alone, number) && !is_marked(held, number)
}

/// Marks a place, where it is free and can go with those that are marked, all of which stand behind it.
fn mark_if_goes(
    tables: &[Table],
    listed: &[Vec<RowNumber>],
    alone: &[bool],
    held: &[bool],
    gone: &mut Vec<bool>,
    number: usize,
)
    requires rows { AreListed tables.now (lists listed.now) }
    requires many { length gone.old.items ≡ length listed.now }
    requires within { number < length gone.old.items }
    requires later { AreLater gone.old.items number }
    requires all { SameTables tables.now (marked gone.old.items) }
    ensures { Settles (SameTables tables.now) (is_free alone.now held.now) number gone.old.items gone.new.items }
{
    let is_wanted = is_free(alone, held, number);
    if !is_wanted {
        return;
    }
    gone[number] = true;
    let goes = same_without(tables, listed, number, gone.as_slice());
    if goes {
        return;
    }
    gone[number] = false;
}

/// The places that can go together: from the last on, each that is free and can go with those before.
fn together(
    alloc: Global,
    tables: &[Table],
    listed: &[Vec<RowNumber>],
    alone: &[bool],
    held: &[bool],
    count: usize,
) -> Result<Vec<bool>, AllocError>
    requires rows { AreListed tables.now (lists listed.now) }
    requires listed { length listed.now ≡ count }
    ensures many { IfOk result (λ flags. length flags.items ≡ count) }
    ensures those { IfOk result (λ flags. MarksThose flags.items count (GoesWith (SameTables tables.now) (is_free alone.now held.now) flags.items)) }
    ensures all { IfOk result (λ flags. SameTables tables.now (marked flags.items)) }
{
    let mut gone = no_marks(alloc, count)?;
    for done in 0..count {
        let number = count - 1 - done;
        mark_if_goes(tables, listed, alone, held, &mut gone, number);
    }
    Ok(gone)
}

/// The places that can go, of so many; together none that is held.
pub(crate) fn going_of(
    alloc: Global,
    tables: &[Table],
    count: usize,
    held: &[bool],
) -> Result<Going, AllocError>
    ensures { IfOk result (λ going. AreGoing (SameTables tables.now) count held.now going) }
{
    let listed = listed_rows(alloc, tables, count)?;
    let listed = listed.as_slice();
    let alone = alone(alloc, tables, listed, count)?;
    let together = together(alloc, tables, listed, alone.as_slice(), held, count)?;
    Ok(Going { alone, together })
}
