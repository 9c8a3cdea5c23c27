//! Sets of positions with those that are reached from them without a byte.

ghost use Rattle.std.specs.Prelude.{◌↔◌, ◌<◌, ◌≤◌, IsTrue, OnOk, ℕ, List, length, map, Contains};
ghost use Rattle.std.specs.List.Sorted.{IsStrictlyIncreasing};
ghost use Rattle.aa_auto.specs.Closed.{Adds, AddsAll, AreIndexed, IsUpward, IsClosure, IsClosing, IsReached};

use crate::sorted::is_at;
use std::alloc::AllocError;

/// Whether the number is in the list, where the index of each one is noted.
// What is noted of other numbers may be anything: only a number that stands at its index is there. So nothing is wiped from one set
// to the next.
fn is_in(indexes: &[usize], set: &[u32], number: u32) -> bool
    requires number { number < length indexes.now }
    requires indexed { AreIndexed indexes.now set.now }
    ensures { IsTrue result ↔ Contains set.now number }
{
    is_at(set, indexes[number as usize], number)
}

/// Adds the number behind the others, where it isn't there.
fn add(indexes: &mut [usize], set: &mut Vec<u32>, number: u32) -> Result<(), AllocError>
    requires number { number < length indexes.old }
    requires indexed { AreIndexed indexes.old set.old.items }
    ensures { OnOk result (Adds indexes.old indexes.new set.old.items set.new.items number) }
{
    if is_in(indexes, set.as_slice(), number) {
        return Ok(());
    }
    indexes[number as usize] = set.len();
    set.push(number)?;
    Ok(())
}

/// Adds the numbers behind the others, where they aren't there.
fn add_all(indexes: &mut [usize], set: &mut Vec<u32>, numbers: &[u32]) -> Result<(), AllocError>
    requires numbers { (n : ℕ) → Contains numbers.now n → n < length indexes.old }
    requires indexed { AreIndexed indexes.old set.old.items }
    ensures { OnOk result (AddsAll indexes.old indexes.new set.old.items set.new.items numbers.now) }
{
    for number in numbers {
        add(indexes, set, *number)?;
    }
    Ok(())
}

/// Adds the positions that are reached by `jumps` from those of the set, without a byte, behind them.
// The set is its own work list: each position that enters it is looked at once, and so is each jump.
fn add_reached(
    jumps: &[Vec<u32>],
    indexes: &mut [usize],
    set: &mut Vec<u32>,
) -> Result<(), AllocError>
    requires many { length jumps.now ≤ length indexes.old }
    requires within { (n : ℕ) → Contains set.old.items n → n < length jumps.now }
    requires upward { IsUpward (map (λ v. v.items) jumps.now) }
    requires indexed { AreIndexed indexes.old set.old.items }
    ensures { OnOk result (IsReached (map (λ v. v.items) jumps.now) indexes.new set.old.items set.new.items) }
{
    for index in 0..jumps.len() {
        if index >= set.len() {
            return Ok(());
        }
        let position = set[index] as usize;
        add_all(indexes, set, jumps[position].as_slice())?;
    }
    Ok(())
}

/// Makes room for so many indexes, whatever they are.
fn make_room(indexes: &mut Vec<usize>, many: usize) -> Result<(), AllocError>
    ensures { OnOk result (many ≤ length indexes.new.items) }
{
    if indexes.len() < many {
        indexes.resize(many, 0)?;
    }
    Ok(())
}

/// Makes `set` the seeds and the positions that are reached from them by `jumps`, without a byte. What `indexes` holds is of no
/// matter.
pub(crate) fn closed(
    jumps: &[Vec<u32>],
    seeds: &[u32],
    indexes: &mut Vec<usize>,
    set: &mut Vec<u32>,
) -> Result<(), AllocError>
    requires within { (n : ℕ) → Contains seeds.now n → n < length jumps.now }
    requires upward { IsUpward (map (λ v. v.items) jumps.now) }
    ensures { OnOk result (IsClosure (map (λ v. v.items) jumps.now) seeds.now set.new.items) }
{
    make_room(indexes, jumps.len())?;
    set.clear();
    add_all(indexes.as_mut_slice(), set, seeds)?;
    add_reached(jumps, indexes.as_mut_slice(), set)?;
    set.sort_unstable();
    Ok(())
}
