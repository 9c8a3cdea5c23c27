//! The rows at which rules apply.

ghost use Rattle.std.specs.Prelude.{◌≡◌, ◌++◌, ◌∷◌, [], ℕ, map, length, filter, not, Some, if◌then◌else◌, IfOk, OnOk};
ghost use Rattle.std.specs.List.{slice_get};
ghost use Rattle.std.specs.Option.{option_map_or};
ghost use Rattle.aa_model.specs.declared.rule.FileRule.{FileRule};
ghost use Rattle.aa_findings.specs.Files.{applies_at};
ghost use Rattle.aa_findings.specs.Places.{places, lists, list_at};
ghost use Rattle.aa_findings.specs.Applied.{is_owners, AreApplied};

use crate::index::index_of;
use crate::rows::Row;
use aa_compile::Compiled;
use aa_model::{FileRule, Profile};
use std::alloc::{AllocError, Global};

/// Whether the rule with that number is about what the task's user owns alone.
fn is_owners(rules: &[FileRule], number: usize) -> bool
    ensures { result ≡ is_owners rules.now number }
{
    match rules.get(number) {
        Some(rule) => rule.owner,
        None => false,
    }
}

fn push_if_any(kept: &mut Vec<usize>, rules: &[FileRule], number: usize) -> Result<(), AllocError>
    ensures { OnOk result (kept.new.items ≡ kept.old.items ++ (if not (is_owners rules.now number) then number ∷ [] else [])) }
{
    if !is_owners(rules, number) {
        kept.push(number)?;
    }
    Ok(())
}

/// Those of the rules that are about files of others too.
fn without_owners(
    alloc: Global,
    rules: &[FileRule],
    numbers: &[usize],
) -> Result<Vec<usize>, AllocError>
    ensures { IfOk result (λ kept. kept.items ≡ filter (λ n. not (is_owners rules.now n)) numbers.now) }
{
    let mut kept = Vec::new(alloc);
    for number in numbers {
        push_if_any(&mut kept, rules, *number)?;
    }
    Ok(kept)
}

/// The numbers of the rules that apply to a row.
fn applying(
    alloc: Global,
    compiled: &Compiled,
    number: u16,
    profile: &Profile,
    row: &Row,
) -> Result<Vec<usize>, AllocError>
    requires profile { slice_get compiled.now.profiles number ≡ Some profile.now }
    ensures { IfOk result (λ numbers. numbers.items ≡ places (λ r. applies_at r row.now) profile.now.files) }
{
    let matching = compiled.rules_matching(alloc, number, row.path.as_slice())?;
    if row.owned {
        return Ok(matching);
    }
    let kept = without_owners(alloc, profile.files.as_slice(), matching.as_slice())?;
    Ok(kept)
}

/// The same for each row.
fn applying_each(
    alloc: Global,
    compiled: &Compiled,
    number: u16,
    profile: &Profile,
    rows: &[Row],
) -> Result<Vec<Vec<usize>>, AllocError>
    requires profile { slice_get compiled.now.profiles number ≡ Some profile.now }
    ensures { IfOk result (λ all. lists all.items ≡ map (λ row. places (λ r. applies_at r row) profile.now.files) rows.now) }
{
    let mut all = Vec::new(alloc);
    for row in rows {
        all.push(applying(alloc, compiled, number, profile, row)?)?;
    }
    Ok(all)
}

/// Of each rule of a profile the places of the rows at which it applies.
pub(crate) fn applied_of(
    alloc: Global,
    compiled: &Compiled,
    number: u16,
    profile: &Profile,
    rows: &[Row],
) -> Result<Vec<Vec<usize>>, AllocError>
    requires profile { slice_get compiled.now.profiles number ≡ Some profile.now }
    ensures { IfOk result (λ index. AreApplied profile.now.files rows.now (lists index.items)) }
{
    let all = applying_each(alloc, compiled, number, profile, rows)?;
    let index = index_of(alloc, all.as_slice(), profile.files.as_slice().len())?;
    Ok(index)
}
