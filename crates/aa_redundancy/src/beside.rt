//! Places that are kept beside one, while all others are gone.

ghost use Rattle.std.specs.Prelude.{◌≡◌, ◌≢◌, ◌<◌, length, slice_set, replicate, true, false, Some, slice_get, IfOk, OnOk, All};
ghost use Rattle.aa_redundancy.specs.declared.marks.RuleMark.{RuleMark as rule_mark};
ghost use Rattle.aa_redundancy.specs.Without.{marked};
ghost use Rattle.aa_redundancy.specs.Keeping.{KeepsNone, Keeps, StayKept, RowKept, KeptAt};

use crate::marks::RuleMark;
use crate::mentions::RowNumber;
use crate::saying::{is_marked, same_row};
use crate::tables::Table;
use aa_compile::Mark;
use std::alloc::{AllocError, Global};

/// Which places are gone, beside those that are kept with one place: the same but for that place, it alone, and those that were kept.
#[derive(Drop)]
pub struct Beside {
    pub gone: Vec<bool>,
    pub but: Vec<bool>,
    pub only: Vec<bool>,
    pub kept: Vec<usize>,
}

fn flags_of(alloc: Global, flag: bool, count: usize) -> Result<Vec<bool>, AllocError>
    ensures { IfOk result (λ flags. flags.items ≡ replicate count flag) }
{
    vec![in alloc; flag; count]
}

/// No place is kept, of so many.
pub(crate) fn nothing_kept(alloc: Global, count: usize) -> Result<Beside, AllocError>
    ensures { IfOk result (λ beside. KeepsNone count beside) }
{
    Ok(Beside {
        gone: flags_of(alloc, true, count)?,
        but: flags_of(alloc, true, count)?,
        only: flags_of(alloc, false, count)?,
        kept: Vec::new(alloc),
    })
}

/// Says of a place that it is gone, or that it isn't.
pub(crate) fn set_gone(beside: &mut Beside, place: usize, is_gone: bool)
    requires gone { place < length beside.old.gone.items }
    requires but { place < length beside.old.but.items }
    ensures gone { beside.new.gone.items ≡ slice_set beside.old.gone.items place is_gone }
    ensures but { beside.new.but.items ≡ slice_set beside.old.but.items place is_gone }
    ensures only { beside.new.only.items ≡ beside.old.only.items }
    ensures kept { beside.new.kept.items ≡ beside.old.kept.items }
{
    beside.gone[place] = is_gone;
    beside.but[place] = is_gone;
}

/// Keeps a place, where it is gone and another than that of which it is asked.
pub(crate) fn keep(beside: &mut Beside, number: usize, place: usize) -> Result<(), AllocError>
    requires { Keeps (length beside.old.gone.items) number beside.old }
    ensures keeps { OnOk result (Keeps (length beside.old.gone.items) number beside.new) }
    ensures stay { OnOk result (StayKept beside.old beside.new) }
    ensures here { OnOk result (place ≢ number → marked beside.new.gone.items place ≡ false) }
{
    if place == number || !is_marked(beside.gone.as_slice(), place) {
        return Ok(());
    }
    beside.gone[place] = false;
    beside.but[place] = false;
    beside.kept.push(place)?;
    Ok(())
}

/// Keeps the place of a mark.
fn keep_mark(
    beside: &mut Beside,
    marks: &[RuleMark],
    mark: usize,
    number: usize,
) -> Result<(), AllocError>
    requires { Keeps (length beside.old.gone.items) number beside.old }
    ensures keeps { OnOk result (Keeps (length beside.old.gone.items) number beside.new) }
    ensures stay { OnOk result (StayKept beside.old beside.new) }
    ensures here { OnOk result ((m : rule_mark) → slice_get marks.now mark ≡ Some m → m.rule ≢ number → marked beside.new.gone.items m.rule ≡ false) }
{
    match marks.get(mark) {
        Some(mark) => keep(beside, number, mark.rule),
        None => Ok(()),
    }
}

/// Keeps the places of a row.
fn keep_row(
    beside: &mut Beside,
    marks: &[RuleMark],
    row: &[usize],
    number: usize,
) -> Result<(), AllocError>
    requires { Keeps (length beside.old.gone.items) number beside.old }
    ensures keeps { OnOk result (Keeps (length beside.old.gone.items) number beside.new) }
    ensures stay { OnOk result (StayKept beside.old beside.new) }
    ensures here { OnOk result (RowKept beside.new.gone.items number marks.now row.now) }
{
    for mark in row {
        keep_mark(beside, marks, *mark, number)?;
    }
    Ok(())
}

/// Keeps those of a row of one of the tables.
fn keep_at(
    beside: &mut Beside,
    tables: &[Table],
    at: RowNumber,
    number: usize,
) -> Result<(), AllocError>
    requires { Keeps (length beside.old.gone.items) number beside.old }
    ensures keeps { OnOk result (Keeps (length beside.old.gone.items) number beside.new) }
    ensures stay { OnOk result (StayKept beside.old beside.new) }
    ensures here { OnOk result (KeptAt beside.new.gone.items number tables.now at) }
{
    if at.table >= tables.len() {
        return Ok(());
    }
    let table = &tables[at.table];
    let rows = table.rows.as_slice();
    if at.row >= rows.len() {
        return Ok(());
    }
    keep_row(
        beside,
        table.marks.as_slice(),
        rows[at.row].as_slice(),
        number,
    )
}

/// Keeps those of each of these rows.
pub(crate) fn keep_rows(
    beside: &mut Beside,
    tables: &[Table],
    rows: &[RowNumber],
    number: usize,
) -> Result<(), AllocError>
    requires { Keeps (length beside.old.gone.items) number beside.old }
    ensures keeps { OnOk result (Keeps (length beside.old.gone.items) number beside.new) }
    ensures here { OnOk result (All (KeptAt beside.new.gone.items number tables.now) rows.now) }
{
    for at in rows {
        keep_at(beside, tables, *at, number)?;
    }
    Ok(())
}

/// Whether a mark says what one of these says.
fn is_seen(seen: &[Mark], mark: &Mark) -> bool {
    for one in seen {
        if *one == *mark {
            return true;
        }
    }
    false
}

/// Keeps the place of a mark, where no mark so far said the same.
fn keep_unseen(
    beside: &mut Beside,
    seen: &mut Vec<Mark>,
    mark: &RuleMark,
    number: usize,
) -> Result<(), AllocError>
    requires { Keeps (length beside.old.gone.items) number beside.old }
    ensures { OnOk result (Keeps (length beside.old.gone.items) number beside.new) }
{
    if mark.rule == number || is_seen(seen.as_slice(), &mark.mark) {
        return Ok(());
    }
    seen.push(mark.mark)?;
    keep(beside, number, mark.rule)
}

fn keep_unseen_at(
    beside: &mut Beside,
    seen: &mut Vec<Mark>,
    marks: &[RuleMark],
    mark: usize,
    number: usize,
) -> Result<(), AllocError>
    requires { Keeps (length beside.old.gone.items) number beside.old }
    ensures { OnOk result (Keeps (length beside.old.gone.items) number beside.new) }
{
    match marks.get(mark) {
        Some(mark) => keep_unseen(beside, seen, mark, number),
        None => Ok(()),
    }
}

/// Keeps places of a row, one after another, until the rules of the place change nothing there.
fn keep_some(
    beside: &mut Beside,
    alloc: Global,
    marks: &[RuleMark],
    row: &[usize],
    number: usize,
) -> Result<(), AllocError>
    requires { Keeps (length beside.old.gone.items) number beside.old }
    ensures { OnOk result (Keeps (length beside.old.gone.items) number beside.new) }
{
    let mut seen = Vec::new(alloc);
    for mark in row {
        let enough = same_row(marks, row, beside.gone.as_slice(), beside.but.as_slice());
        if enough {
            return Ok(());
        }
        keep_unseen_at(beside, &mut seen, marks, *mark, number)?;
    }
    Ok(())
}

fn keep_some_at(
    beside: &mut Beside,
    alloc: Global,
    tables: &[Table],
    at: RowNumber,
    number: usize,
) -> Result<(), AllocError>
    requires { Keeps (length beside.old.gone.items) number beside.old }
    ensures { OnOk result (Keeps (length beside.old.gone.items) number beside.new) }
{
    if at.table >= tables.len() {
        return Ok(());
    }
    let table = &tables[at.table];
    let rows = table.rows.as_slice();
    if at.row >= rows.len() {
        return Ok(());
    }
    let row = rows[at.row].as_slice();
    keep_some(beside, alloc, table.marks.as_slice(), row, number)
}

/// Keeps some places of each of these rows.
pub(crate) fn keep_some_of(
    beside: &mut Beside,
    alloc: Global,
    tables: &[Table],
    rows: &[RowNumber],
    number: usize,
) -> Result<(), AllocError>
    requires { Keeps (length beside.old.gone.items) number beside.old }
    ensures { OnOk result (Keeps (length beside.old.gone.items) number beside.new) }
{
    for at in rows {
        keep_some_at(beside, alloc, tables, *at, number)?;
    }
    Ok(())
}
