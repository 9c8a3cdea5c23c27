//! Places without which the rules of another would be needed.

ghost use Rattle.std.specs.Prelude.{◌≡◌, ◌<◌, ◌||◌, ℕ, length, true, false, OnOk};
ghost use Rattle.aa_redundancy.specs.Without.{marked, only};
ghost use Rattle.aa_redundancy.specs.Tables.{Equal, SameTables, TablesRelated};
ghost use Rattle.aa_redundancy.specs.Mentions.{lists, AreListed};
ghost use Rattle.aa_redundancy.specs.Reasons.{is_one_of, ChangesNothing};
ghost use Rattle.aa_redundancy.specs.Keeping.{Keeps, IsNeeded, unmarked};

use crate::beside::{Beside, keep_rows, keep_some_of, set_gone};
use crate::mentions::RowNumber;
use crate::saying::is_marked;
use crate::tables::{Table, same_in_all};
use std::alloc::{AllocError, Global};

/// Whether the rules of a place change nothing beside what is kept.
fn is_enough(beside: &Beside, tables: &[Table], listed: &[Vec<RowNumber>], number: usize) -> bool
    requires keeps { Keeps (length beside.now.gone.items) number beside.now }
    requires rows { AreListed tables.now (lists listed.now) }
    requires within { number < length listed.now }
    ensures enough { result ≡ true → ChangesNothing (TablesRelated Equal tables.now) number (marked beside.now.gone.items) }
    ensures changes { result ≡ false → ChangesNothing (TablesRelated Equal tables.now) number (marked beside.now.gone.items) → ⊥ }
{
    let rows = listed[number].as_slice();
    same_in_all(tables, rows, beside.gone.as_slice(), beside.but.as_slice())
}

/// Keeps places beside which the rules of one that can go change nothing.
pub(crate) fn keep_enough(
    beside: &mut Beside,
    alloc: Global,
    tables: &[Table],
    listed: &[Vec<RowNumber>],
    number: usize,
) -> Result<(), AllocError>
    requires keeps { Keeps (length beside.old.gone.items) number beside.old }
    requires rows { AreListed tables.now (lists listed.now) }
    requires within { number < length listed.now }
    requires many { length beside.old.gone.items ≡ length listed.now }
    requires goes { SameTables tables.now (only number) }
    ensures keeps { OnOk result (Keeps (length beside.old.gone.items) number beside.new) }
    ensures enough { OnOk result (ChangesNothing (TablesRelated Equal tables.now) number (marked beside.new.gone.items)) }
{
    let rows = listed[number].as_slice();
    keep_some_of(beside, alloc, tables, rows, number)?;
    let enough = is_enough(beside, tables, listed, number);
    if enough {
        return Ok(());
    }
    keep_rows(beside, tables, rows, number)?;
    Ok(())
}

/// Leaves a place out that is kept, unless it is needed.
fn leave_out(
    beside: &mut Beside,
    tables: &[Table],
    listed: &[Vec<RowNumber>],
    number: usize,
    place: usize,
) -> bool
    requires keeps { Keeps (length beside.old.gone.items) number beside.old }
    requires rows { AreListed tables.now (lists listed.now) }
    requires within { number < length listed.now }
    requires other { is_one_of beside.old.kept.items place ≡ true }
    requires there { marked beside.old.gone.items place ≡ false }
    requires enough { ChangesNothing (TablesRelated Equal tables.now) number (marked beside.old.gone.items) }
    ensures keeps { Keeps (length beside.old.gone.items) number beside.new }
    ensures kept { beside.new.kept.items ≡ beside.old.kept.items }
    ensures enough { ChangesNothing (TablesRelated Equal tables.now) number (marked beside.new.gone.items) }
    ensures fewer { result ≡ true → unmarked beside.new.gone.items < unmarked beside.old.gone.items }
    ensures same { result ≡ false → beside.new.gone.items ≡ beside.old.gone.items }
    ensures needed { result ≡ false → IsNeeded (TablesRelated Equal tables.now) number beside.old.gone.items place }
{
    set_gone(beside, place, true);
    let enough = is_enough(beside, tables, listed, number);
    if enough {
        return true;
    }
    set_gone(beside, place, false);
    false
}

/// Leaves it out, where it isn't yet.
fn leave_out_kept(
    beside: &mut Beside,
    tables: &[Table],
    listed: &[Vec<RowNumber>],
    number: usize,
    place: usize,
) -> bool
    requires keeps { Keeps (length beside.old.gone.items) number beside.old }
    requires rows { AreListed tables.now (lists listed.now) }
    requires within { number < length listed.now }
    requires other { is_one_of beside.old.kept.items place ≡ true }
    requires enough { ChangesNothing (TablesRelated Equal tables.now) number (marked beside.old.gone.items) }
    ensures keeps { Keeps (length beside.old.gone.items) number beside.new }
    ensures kept { beside.new.kept.items ≡ beside.old.kept.items }
    ensures enough { ChangesNothing (TablesRelated Equal tables.now) number (marked beside.new.gone.items) }
    ensures fewer { result ≡ true → unmarked beside.new.gone.items < unmarked beside.old.gone.items }
    ensures same { result ≡ false → beside.new.gone.items ≡ beside.old.gone.items }
    ensures needed { result ≡ false → IsNeeded (TablesRelated Equal tables.now) number beside.old.gone.items place }
{
    if is_marked(beside.gone.as_slice(), place) {
        return false;
    }
    leave_out(beside, tables, listed, number, place)
}

fn either(one: bool, other: bool) -> bool
    ensures { result ≡ (one || other) }
{
    one || other
}

/// From the last on, leaves each out that isn't needed, and tells whether there was one.
fn leave_out_each(
    beside: &mut Beside,
    tables: &[Table],
    listed: &[Vec<RowNumber>],
    number: usize,
) -> bool
    requires keeps { Keeps (length beside.old.gone.items) number beside.old }
    requires rows { AreListed tables.now (lists listed.now) }
    requires within { number < length listed.now }
    requires enough { ChangesNothing (TablesRelated Equal tables.now) number (marked beside.old.gone.items) }
    ensures keeps { Keeps (length beside.old.gone.items) number beside.new }
    ensures enough { ChangesNothing (TablesRelated Equal tables.now) number (marked beside.new.gone.items) }
    ensures fewer { result ≡ true → unmarked beside.new.gone.items < unmarked beside.old.gone.items }
    ensures same { result ≡ false → unmarked beside.new.gone.items ≡ unmarked beside.old.gone.items }
    ensures needed { result ≡ false → (n : ℕ) → is_one_of beside.new.kept.items n ≡ true → IsNeeded (TablesRelated Equal tables.now) number beside.new.gone.items n }
{
    let mut some = false;
    let count = beside.kept.as_slice().len();
    for done in 0..count {
        let place = beside.kept[count - 1 - done];
        let left = leave_out_kept(beside, tables, listed, number, place);
        some = either(some, left);
    }
    some
}

/// Leaves each out that isn't needed.
pub(crate) fn leave_out_all(
    beside: &mut Beside,
    tables: &[Table],
    listed: &[Vec<RowNumber>],
    number: usize,
)
    requires keeps { Keeps (length beside.old.gone.items) number beside.old }
    requires rows { AreListed tables.now (lists listed.now) }
    requires within { number < length listed.now }
    requires enough { ChangesNothing (TablesRelated Equal tables.now) number (marked beside.old.gone.items) }
    ensures keeps { Keeps (length beside.old.gone.items) number beside.new }
    ensures enough { ChangesNothing (TablesRelated Equal tables.now) number (marked beside.new.gone.items) }
    ensures needed { (n : ℕ) → is_one_of beside.new.kept.items n ≡ true → IsNeeded (TablesRelated Equal tables.now) number beside.new.gone.items n }
{
    let mut some = true;
    while some {
        some = leave_out_each(beside, tables, listed, number);
    }
}
