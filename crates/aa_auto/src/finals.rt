//! Which pattern ends at a position.

ghost use Rattle.std.specs.Prelude.{◌≡◌, ◌++◌, ◌<◌, ◌≤◌, ℕ, All, Option, Some, None, Contains, IfOk, List, OnOk, length};
ghost use Rattle.std.specs.Option.{option_to_list};
ghost use Rattle.std.specs.List.Sorted.{IsStrictlyIncreasing};
ghost use Rattle.aa_pattern.specs.Limits.{most_patterns};
ghost use Rattle.aa_auto.specs.Finals.{AreFinals, AreNoFinals, ListsFinals};

use std::alloc::{AllocError, Global};

/// So many positions at which no pattern ends.
fn no_finals(alloc: Global, many: usize) -> Result<Vec<Option<u16>>, AllocError>
    ensures { IfOk result (λ finals. AreNoFinals finals.items many) }
{
    let mut finals = Vec::new(alloc);
    for _position in 0..many {
        finals.push(None)?;
    }
    Ok(finals)
}

/// Of each position, the number of the pattern that ends there.
pub(crate) fn finals_of(
    alloc: Global,
    ends: &[usize],
    many: usize,
) -> Result<Vec<Option<u16>>, AllocError>
    requires rising { IsStrictlyIncreasing ends.now }
    requires within { All (λ e. e < many) ends.now }
    requires few { length ends.now ≤ most_patterns }
    ensures { IfOk result (λ finals. AreFinals ends.now (length ends.now) many finals.items) }
{
    let mut finals = no_finals(alloc, many)?;
    for (number, end) in ends.iter().enumerate() {
        finals[*end] = Some(number as u16);
    }
    Ok(finals)
}

/// Adds the number, if there is one.
fn push_number(numbers: &mut Vec<u16>, number: Option<u16>) -> Result<(), AllocError>
    ensures { OnOk result (numbers.new.items ≡ numbers.old.items ++ option_to_list number) }
{
    if let Some(number) = number {
        numbers.push(number)?;
    }
    Ok(())
}

/// Makes `numbers` those of the patterns that end at one of the positions, rising.
pub(crate) fn numbers_at(
    finals: &[Option<u16>],
    set: &[u32],
    numbers: &mut Vec<u16>,
) -> Result<(), AllocError>
    requires { (n : ℕ) → Contains set.now n → n < length finals.now }
    ensures { OnOk result ((ends : List ℕ) → IsStrictlyIncreasing ends → IsStrictlyIncreasing set.now → AreFinals ends (length ends) (length finals.now) finals.now → ListsFinals ends set.now numbers.new.items) }
{
    numbers.clear();
    for position in set {
        push_number(numbers, finals[*position as usize])?;
    }
    Ok(())
}
