//! In which lists numbers are.

ghost use Rattle.std.specs.Prelude.{◌≡◌, ◌<◌, ◌++◌, ◌∷◌, [], ℕ, false, length, if◌then◌else◌, slice_set, IfOk, OnOk};
ghost use Rattle.aa_findings.specs.Places.{places, has, lists, list_at, is_last, with_place};

use std::alloc::{AllocError, Global};

fn no_lists(alloc: Global, many: usize) -> Result<Vec<Vec<usize>>, AllocError>
    ensures many { IfOk result (λ index. length index.items ≡ many) }
    ensures empty { IfOk result (λ index. (n : ℕ) → n < many → list_at (lists index.items) n ≡ []) }
{
    let mut index = Vec::new(alloc);
    for _number in 0..many {
        index.push(Vec::new(alloc))?;
    }
    Ok(index)
}

/// The list of a number.
pub(crate) fn list_at(index: &[Vec<usize>], number: usize) -> &[usize]
    requires { number < length index.now }
    ensures { result.now ≡ list_at (lists index.now) number }
{
    index[number].as_slice()
}

fn is_last(list: &[usize], place: usize) -> bool
    ensures { result ≡ is_last place list.now }
{
    !list.is_empty() && list[list.len() - 1] == place
}

fn add_place(index: &mut Vec<Vec<usize>>, number: usize, place: usize) -> Result<(), AllocError>
    requires { number < length index.old.items }
    ensures { OnOk result (lists index.new.items ≡ slice_set (lists index.old.items) number (list_at (lists index.old.items) number ++ place ∷ [])) }
{
    index[number].push(place)?;
    Ok(())
}

/// Adds a place to the list of a number, if there is one, unless it stands at its end.
fn push_place(index: &mut Vec<Vec<usize>>, number: usize, place: usize) -> Result<(), AllocError>
    ensures { OnOk result (lists index.new.items ≡ with_place place number (lists index.old.items)) }
{
    if number >= index.len() {
        return Ok(());
    }
    if is_last(list_at(index.as_slice(), number), place) {
        return Ok(());
    }
    add_place(index, number, place)
}

/// Adds a place to the list of each of these numbers that has one.
fn push_each(index: &mut Vec<Vec<usize>>, numbers: &[usize], place: usize) -> Result<(), AllocError>
    ensures many { OnOk result (length index.new.items ≡ length index.old.items) }
    ensures each { OnOk result ((n : ℕ) → n < length index.old.items → is_last place (list_at (lists index.old.items) n) ≡ false → list_at (lists index.new.items) n ≡ list_at (lists index.old.items) n ++ (if has n numbers.now then place ∷ [] else [])) }
{
    for number in numbers {
        push_place(index, *number, place)?;
    }
    Ok(())
}

/// For each number below `many` the places of the lists that hold it.
pub(crate) fn index_of(
    alloc: Global,
    rows: &[Vec<usize>],
    many: usize,
) -> Result<Vec<Vec<usize>>, AllocError>
    ensures many { IfOk result (λ index. length index.items ≡ many) }
    ensures each { IfOk result (λ index. (n : ℕ) → n < many → list_at (lists index.items) n ≡ places (has n) (lists rows.now)) }
{
    let mut index = no_lists(alloc, many)?;
    for place in 0..rows.len() {
        push_each(&mut index, rows[place].as_slice(), place)?;
    }
    Ok(index)
}
