//! Why the rules of places are redundant.

ghost use Rattle.std.specs.Prelude.{◌≡◌, ◌++◌, ◌∷◌, [], ◌<◌, ◌||◌, ◌==◌, ℕ, length, true, false, not, map, All, IfOk, OnOk, if◌then◌else◌};
ghost use Rattle.std.specs.List.{filter};
ghost use Rattle.aa_redundancy.specs.Without.{marked, only};
ghost use Rattle.aa_redundancy.specs.Tables.{Equal, SameTables, TablesRelated};
ghost use Rattle.aa_redundancy.specs.Covering.{Within};
ghost use Rattle.aa_redundancy.specs.Mentions.{lists, AreListed};
ghost use Rattle.aa_redundancy.specs.Reasons.{is_one_of, others_than, IsReason, AreReasons};
ghost use Rattle.aa_redundancy.specs.Keeping.{KeepsNone, Keeps};

use crate::beside::{Beside, nothing_kept};
use crate::mentions::{RowNumber, listed_rows};
use crate::needed::{keep_enough, leave_out_all};
use crate::saying::is_marked;
use crate::tables::{Table, within_in_all};
use std::alloc::{AllocError, Global};

/// Why the rules of a place are redundant.
#[derive(Drop)]
pub struct Reason {
    /// The number of the place.
    pub place: usize,
    /// Other places beside whose rules alone those of the place change nothing; none of them can be left out.
    pub beside: Vec<usize>,
    /// Whether their rules say all that those of the place say, or else decide otherwise somewhere.
    pub is_covered: bool,
}

fn push_if(places: &mut Vec<usize>, place: usize, is_left: bool) -> Result<(), AllocError>
    ensures { OnOk result (places.new.items ≡ places.old.items ++ (if is_left then place ∷ [] else [])) }
{
    if is_left {
        places.push(place)?;
    }
    Ok(())
}

/// The places that are still kept.
fn left_of(alloc: Global, beside: &Beside) -> Result<Vec<usize>, AllocError>
    ensures { IfOk result (λ places. places.items ≡ filter (λ n. not (marked beside.now.gone.items n)) beside.now.kept.items) }
{
    let mut places = Vec::new(alloc);
    let gone = beside.gone.as_slice();
    for place in beside.kept.as_slice() {
        push_if(&mut places, *place, !is_marked(gone, *place))?;
    }
    Ok(places)
}

/// Whether the rules that are left say all that those of a place say.
fn is_covered(
    beside: &mut Beside,
    tables: &[Table],
    listed: &[Vec<RowNumber>],
    number: usize,
) -> bool
    requires keeps { Keeps (length beside.old.gone.items) number beside.old }
    requires rows { AreListed tables.now (lists listed.now) }
    requires within { number < length listed.now }
    requires many { length beside.old.gone.items ≡ length listed.now }
    ensures keeps { Keeps (length beside.old.gone.items) number beside.new }
    ensures gone { beside.new.gone.items ≡ beside.old.gone.items }
    ensures kept { beside.new.kept.items ≡ beside.old.kept.items }
    ensures covered { result ≡ true → TablesRelated Within tables.now (others_than number) (marked beside.old.gone.items) }
    ensures overruled { result ≡ false → TablesRelated Within tables.now (others_than number) (marked beside.old.gone.items) → ⊥ }
{
    beside.only[number] = true;
    let rows = listed[number].as_slice();
    let covered = within_in_all(tables, rows, beside.only.as_slice(), beside.gone.as_slice());
    beside.only[number] = false;
    covered
}

/// Begins to keep places beside one.
fn begin(beside: &mut Beside, number: usize)
    requires none { KeepsNone (length beside.old.gone.items) beside.old }
    requires within { number < length beside.old.gone.items }
    ensures { Keeps (length beside.old.gone.items) number beside.new }
{
    beside.kept.clear();
    beside.but[number] = false;
}

fn mark_one(flags: &mut Vec<bool>, place: usize)
    ensures many { length flags.new.items ≡ length flags.old.items }
    ensures marks { (n : ℕ) → n < length flags.old.items → marked flags.new.items n ≡ (marked flags.old.items n || n == place) }
{
    if place >= flags.len() {
        return;
    }
    flags[place] = true;
}

pub(crate) fn mark_all(flags: &mut Vec<bool>, places: &[usize])
    ensures many { length flags.new.items ≡ length flags.old.items }
    ensures marks { (n : ℕ) → n < length flags.old.items → marked flags.new.items n ≡ (marked flags.old.items n || is_one_of places.now n) }
{
    for place in places {
        mark_one(flags, *place);
    }
}

/// Ends it: nothing is kept any more.
fn end(beside: &mut Beside, number: usize)
    requires keeps { Keeps (length beside.old.gone.items) number beside.old }
    requires within { number < length beside.old.gone.items }
    ensures { KeepsNone (length beside.old.gone.items) beside.new }
{
    mark_all(&mut beside.gone, beside.kept.as_slice());
    mark_all(&mut beside.but, beside.kept.as_slice());
    beside.but[number] = true;
}

/// Why the rules of a place that can go are redundant.
fn reason_of(
    alloc: Global,
    beside: &mut Beside,
    tables: &[Table],
    listed: &[Vec<RowNumber>],
    place: usize,
) -> Result<Reason, AllocError>
    requires none { KeepsNone (length listed.now) beside.old }
    requires rows { AreListed tables.now (lists listed.now) }
    requires within { place < length listed.now }
    requires goes { SameTables tables.now (only place) }
    ensures none { IfOk result (λ r. KeepsNone (length listed.now) beside.new) }
    ensures reason { IfOk result (λ r. IsReason (TablesRelated Equal tables.now) (TablesRelated Within tables.now) (length listed.now) r) }
    ensures place { IfOk result (λ r. r.place ≡ place) }
{
    begin(beside, place);
    keep_enough(beside, alloc, tables, listed, place)?;
    leave_out_all(beside, tables, listed, place);
    let is_covered = is_covered(beside, tables, listed, place);
    let left = left_of(alloc, beside)?;
    end(beside, place);
    Ok(Reason {
        place,
        beside: left,
        is_covered,
    })
}

/// Adds the reason of a place, where it is marked.
fn push_reason(
    reasons: &mut Vec<Reason>,
    alloc: Global,
    beside: &mut Beside,
    tables: &[Table],
    listed: &[Vec<RowNumber>],
    flags: &[bool],
    place: usize,
) -> Result<(), AllocError>
    requires none { KeepsNone (length listed.now) beside.old }
    requires rows { AreListed tables.now (lists listed.now) }
    requires within { place < length listed.now }
    requires goes { marked flags.now place ≡ true → SameTables tables.now (only place) }
    requires reasons { All (IsReason (TablesRelated Equal tables.now) (TablesRelated Within tables.now) (length listed.now)) reasons.old.items }
    ensures none { OnOk result (KeepsNone (length listed.now) beside.new) }
    ensures reasons { OnOk result (All (IsReason (TablesRelated Equal tables.now) (TablesRelated Within tables.now) (length listed.now)) reasons.new.items) }
    ensures places { OnOk result (map (λ r. r.place) reasons.new.items ≡ map (λ r. r.place) reasons.old.items ++ (if marked flags.now place then place ∷ [] else [])) }
{
    let is_wanted = is_marked(flags, place);
    if !is_wanted {
        return Ok(());
    }
    let reason = reason_of(alloc, beside, tables, listed, place)?;
    reasons.push(reason)?;
    Ok(())
}

/// Why the rules of each marked place are redundant.
fn reasons_by(
    alloc: Global,
    tables: &[Table],
    listed: &[Vec<RowNumber>],
    flags: &[bool],
) -> Result<Vec<Reason>, AllocError>
    requires rows { AreListed tables.now (lists listed.now) }
    requires many { length flags.now ≡ length listed.now }
    requires go { (i : ℕ) → i < length flags.now → marked flags.now i ≡ true → SameTables tables.now (only i) }
    ensures { IfOk result (λ rs. AreReasons (TablesRelated Equal tables.now) (TablesRelated Within tables.now) flags.now rs.items) }
{
    let mut reasons = Vec::new(alloc);
    let mut beside = nothing_kept(alloc, listed.len())?;
    for place in 0..flags.len() {
        push_reason(
            &mut reasons,
            alloc,
            &mut beside,
            tables,
            listed,
            flags,
            place,
        )?;
    }
    Ok(reasons)
}

/// Why the rules of each marked place are redundant.
pub(crate) fn reasons_of(
    alloc: Global,
    tables: &[Table],
    flags: &[bool],
) -> Result<Vec<Reason>, AllocError>
    requires { (i : ℕ) → i < length flags.now → marked flags.now i ≡ true → SameTables tables.now (only i) }
    ensures { IfOk result (λ rs. AreReasons (TablesRelated Equal tables.now) (TablesRelated Within tables.now) flags.now rs.items) }
{
    let listed = listed_rows(alloc, tables, flags.len())?;
    reasons_by(alloc, tables, listed.as_slice(), flags)
}
