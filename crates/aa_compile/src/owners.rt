//! The rules that patterns belong to, by numbers.

ghost use Rattle.std.specs.Prelude.{◌≡◌, ◌++◌, map, slice_get, IfOk, OnOk};
ghost use Rattle.std.specs.Bool.{nat_eq};
ghost use Rattle.std.specs.List.{dedup};
ghost use Rattle.aa_pattern.specs.declared.pattern.Pattern.{Pattern};
ghost use Rattle.aa_compile.specs.Gathered.{picked};
ghost use Rattle.aa_compile.specs.Matched.{owners_from};

use aa_model::FileRule;
use std::alloc::{AllocError, Global};

fn add_owner(owners: &mut Vec<usize>, rule: &FileRule, number: usize) -> Result<(), AllocError>
    ensures { OnOk result (owners.new.items ≡ owners.old.items ++ map (λ (p : Pattern). number) rule.now.patterns) }
{
    for _pattern in rule.patterns.as_slice() {
        owners.push(number)?;
    }
    Ok(())
}

/// Of each pattern of the rules, in order, the number of its rule.
pub(crate) fn owners_of(alloc: Global, rules: &[FileRule]) -> Result<Vec<usize>, AllocError>
    ensures { IfOk result (λ owners. owners.items ≡ owners_from 0 rules.now) }
{
    let mut owners = Vec::new(alloc);
    for (number, rule) in rules.iter().enumerate() {
        add_owner(&mut owners, rule, number)?;
    }
    Ok(owners)
}

fn owner_at(owners: &[usize], number: u16) -> Option<usize>
    ensures { result ≡ slice_get owners.now number }
{
    owners.get(number as usize).copied()
}

/// The owner of each of these patterns.
fn owners_at(alloc: Global, owners: &[usize], numbers: &[u16]) -> Result<Vec<usize>, AllocError>
    ensures { IfOk result (λ rules. rules.items ≡ picked owners.now numbers.now) }
{
    numbers
        .iter()
        .filter_map(|number| owner_at(owners, *number))
        .collect(alloc)
}

/// The rules that own these patterns: of patterns side by side that one rule owns, that rule once.
pub(crate) fn rules_of(
    alloc: Global,
    owners: &[usize],
    numbers: &[u16],
) -> Result<Vec<usize>, AllocError>
    ensures { IfOk result (λ rules. rules.items ≡ dedup nat_eq (picked owners.now numbers.now)) }
{
    let mut rules = owners_at(alloc, owners, numbers)?;
    rules.dedup();
    Ok(rules)
}
