//! The numbers of the top-level profiles, and of the children of each profile.

ghost use Rattle.std.specs.Prelude.{◌≡◌, ◌++◌, ◌∷◌, [], ◌<◌, ◌≤◌, length, ℕ, Some, None, IfOk, OnOk, slice_set, slice_index_or};
ghost use Rattle.aa_model.specs.declared.policy.Profile.{Profile};
ghost use Rattle.aa_model.specs.Lawful.{has_parent};
ghost use Rattle.aa_compile.specs.Attached.{numbers_below};
ghost use Rattle.aa_compile.specs.Groups.{lists, is_below};

use aa_model::Profile;
use std::alloc::{AllocError, Global};

fn is_top(profile: &Profile) -> bool
    ensures { result ≡ has_parent None profile.now }
{
    profile.parent == None
}

/// The numbers of the top-level profiles.
pub(crate) fn numbers_of_tops(alloc: Global, profiles: &[Profile]) -> Result<Vec<u16>, AllocError>
    requires { length profiles.now ≤ 65536 }
    ensures { IfOk result (λ numbers. numbers.items ≡ numbers_below None 0 profiles.now) }
{
    let mut numbers = Vec::new(alloc);
    for (number, profile) in profiles.iter().enumerate() {
        if is_top(profile) {
            numbers.push(number as u16)?;
        }
    }
    Ok(numbers)
}

fn add_child(groups: &mut Vec<Vec<u16>>, parent: usize, number: u16) -> Result<(), AllocError>
    requires { parent < length groups.old.items }
    ensures { OnOk result (lists groups.new.items ≡ slice_set (lists groups.old.items) parent (slice_index_or (lists groups.old.items) parent [] ++ number ∷ [])) }
{
    groups[parent].push(number)?;
    Ok(())
}

/// Adds the number to the group of its parent.
fn add_if_child(
    groups: &mut Vec<Vec<u16>>,
    profile: &Profile,
    number: u16,
) -> Result<(), AllocError>
    requires { (n : ℕ) → profile.now.parent ≡ Some n → n < length groups.old.items }
    ensures { OnOk result (lists groups.new.items ≡ is_below profile.now.parent number (lists groups.old.items)) }
{
    if let Some(parent) = profile.parent {
        return add_child(groups, parent as usize, number);
    }
    Ok(())
}

fn no_groups(alloc: Global, many: usize) -> Result<Vec<Vec<u16>>, AllocError>
    ensures many { IfOk result (λ groups. length groups.items ≡ many) }
    ensures empty { IfOk result (λ groups. (n : ℕ) → n < many → slice_index_or (lists groups.items) n [] ≡ []) }
{
    let mut groups = Vec::new(alloc);
    for _number in 0..many {
        groups.push(Vec::new(alloc))?;
    }
    Ok(groups)
}

/// The children of each profile, in one pass.
pub(crate) fn groups_of(alloc: Global, profiles: &[Profile]) -> Result<Vec<Vec<u16>>, AllocError>
    requires few { length profiles.now ≤ 65536 }
    requires parents { (k n : ℕ) (p : Profile) → k < length profiles.now → p ≡ slice_index_or profiles.now k p → p.parent ≡ Some n → n < length profiles.now }
    ensures many { IfOk result (λ groups. length groups.items ≡ length profiles.now) }
    ensures exact { IfOk result (λ groups. (n : ℕ) → n < length profiles.now → slice_index_or (lists groups.items) n [] ≡ numbers_below (Some n) 0 profiles.now) }
{
    let mut groups = no_groups(alloc, profiles.len())?;
    for (number, profile) in profiles.iter().enumerate() {
        add_if_child(&mut groups, profile, number as u16)?;
    }
    Ok(groups)
}

/// The children of a profile.
pub(crate) fn group_at(groups: &[Vec<u16>], number: usize) -> &[u16]
    requires { number < length groups.now }
    ensures { result.now ≡ slice_index_or (lists groups.now) number [] }
{
    groups[number].as_slice()
}
