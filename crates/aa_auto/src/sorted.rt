//! Rising numbers, as sets are kept.

ghost use Rattle.std.specs.Prelude.{◌≡◌, ◌↔◌, ◌<◌, ◌≤◌, IsTrue, OnOk, length, slice_index, ℕ};
ghost use Rattle.std.specs.List.Sorted.{IsStrictlyIncreasing};
ghost use Rattle.aa_auto.specs.Sorted.{Inserts};

use std::alloc::AllocError;

/// How many of the rising numbers are below the value. It is quickest where all are.
pub(crate) fn count_below(set: &[u32], value: u32) -> usize
    requires { IsStrictlyIncreasing set.now }
    ensures bound { result ≤ length set.now }
    ensures below { (k : ℕ) → k < result → slice_index set.now k < value }
    ensures above { (k : ℕ) → result ≤ k → k < length set.now → value ≤ slice_index set.now k }
{
    let many = set.len();
    if many > 0 && set[many - 1] < value {
        return many;
    }
    search_below(set, value)
}

/// The same, by halves.
fn search_below(set: &[u32], value: u32) -> usize
    requires { IsStrictlyIncreasing set.now }
    ensures bound { result ≤ length set.now }
    ensures below { (k : ℕ) → k < result → slice_index set.now k < value }
    ensures above { (k : ℕ) → result ≤ k → k < length set.now → value ≤ slice_index set.now k }
{
    let mut low = 0;
    let mut high = set.len();
    while low < high {
        let middle = low + (high - low) / 2;
        if set[middle] < value {
            low = middle + 1;
        } else {
            high = middle;
        }
    }
    low
}

/// Whether the number at the index is the value.
pub(crate) fn is_at(set: &[u32], index: usize, value: u32) -> bool
    ensures { IsTrue result ↔ ((index < length set.now) × (slice_index set.now index ≡ value)) }
{
    index < set.len() && set[index] == value
}

/// Adds the value to rising numbers, where it isn't there.
pub(crate) fn insert(set: &mut Vec<u32>, value: u32) -> Result<(), AllocError>
    requires { IsStrictlyIncreasing set.old.items }
    ensures { OnOk result (Inserts set.old.items set.new.items value) }
{
    let count = count_below(set.as_slice(), value);
    let many = set.len();
    if count == many {
        set.push(value)?;
        return Ok(());
    }
    if is_at(set.as_slice(), count, value) {
        return Ok(());
    }
    set.insert(count, value)?;
    Ok(())
}
