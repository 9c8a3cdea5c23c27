//! Objects that stand for all that can be asked for.

ghost use Rattle.std.specs.Prelude.{◌≡◌, ◌<◌, ◌≤◌, ◌+◌, ◌++◌, ◌∷◌, [], Some, IfOk, IfErr, OnOk};
ghost use Rattle.std.specs.List.{slice_get, flat_map};
ghost use Rattle.aa_pattern.specs.Limits.{most_states};
ghost use Rattle.aa_auto.specs.Nodes.{pointed};
ghost use Rattle.aa_regions.specs.Regions.{ArePathRegions};
ghost use Rattle.aa_compile.specs.Rows.{patterns_of};
ghost use Rattle.aa_findings.specs.Faults.{IsFaultOf};
ghost use Rattle.aa_findings.specs.Rows.{below_root, row_of, rows_at, AreRows, HasNoRows};

use crate::fault::FindingsFault;
use crate::patterns::{patterns_and, root_pattern};
use aa_base::Text;
use aa_compile::{Compiled, RuleSets, is_matched};
use aa_model::{FileRule, Profile};
use aa_pattern::Pattern;
use aa_regions::{Region, path_regions};
use std::alloc::{AllocError, Global};

/// How many patterns are matched together, at most.
const MAX_PATTERNS: usize = 65535;

/// A file by its path and by whether the task's user owns it, and what the rules of a profile say of it.
#[derive(Drop)]
pub struct Row {
    pub path: Text,
    pub owned: bool,
    /// Whether `/**` matches the path.
    pub is_below: bool,
    pub sets: RuleSets,
}

/// The regions of the paths that can be asked for, by these patterns.
pub(crate) fn regions_by(
    alloc: Global,
    patterns: &[&Pattern],
    limit: usize,
) -> Result<Vec<Region>, FindingsFault>
    requires some { 0 < limit }
    requires limit { limit ≤ most_states }
    ensures regions { IfOk result (λ rs. ArePathRegions (pointed patterns.now) rs.items) }
    ensures many { IfErr result (λ e. IsFaultOf (pointed patterns.now) limit e) }
{
    if patterns.len() > MAX_PATTERNS {
        return Err(FindingsFault::TooManyPatterns);
    }
    Ok(path_regions(alloc, patterns, limit)?)
}

/// The regions by the patterns of the rules and by `/**`.
fn regions_of_rules(
    alloc: Global,
    rules: &[FileRule],
    all: &Pattern,
    limit: usize,
) -> Result<Vec<Region>, FindingsFault>
    requires some { 0 < limit }
    requires limit { limit ≤ most_states }
    requires all { all.now.items.items ≡ below_root }
    ensures regions { IfOk result (λ rs. ArePathRegions (patterns_of rules.now ++ all.now ∷ []) rs.items) }
    ensures many { IfErr result (λ e. HasNoRows rules.now limit e) }
{
    let patterns = patterns_and(alloc, rules, all)?;
    regions_by(alloc, patterns.as_slice(), limit)
}

/// What the rules of a profile say of a file.
fn row_at(
    alloc: Global,
    compiled: &Compiled,
    number: u16,
    profile: &Profile,
    all: &Pattern,
    path: &[u8],
    owned: bool,
) -> Result<Row, AllocError>
    requires profile { slice_get compiled.now.profiles number ≡ Some profile.now }
    requires all { all.now.items.items ≡ below_root }
    ensures { IfOk result (λ row. row ≡ row_of profile.now.files path.now owned) }
{
    let sets = compiled.verdict(number, path, owned).sets;
    Ok(Row {
        path: Text::copy_of(alloc, path)?,
        owned,
        is_below: is_matched(all, path),
        sets,
    })
}

/// Adds what they say of it where the task's user owns it, and where others do.
fn push_rows(
    rows: &mut Vec<Row>,
    alloc: Global,
    compiled: &Compiled,
    number: u16,
    profile: &Profile,
    all: &Pattern,
    path: &[u8],
) -> Result<(), AllocError>
    requires profile { slice_get compiled.now.profiles number ≡ Some profile.now }
    requires all { all.now.items.items ≡ below_root }
    ensures { OnOk result (rows.new.items ≡ rows.old.items ++ rows_at profile.now.files path.now) }
{
    rows.push(row_at(alloc, compiled, number, profile, all, path, true)?)?;
    rows.push(row_at(alloc, compiled, number, profile, all, path, false)?)?;
    Ok(())
}

/// The rows at the paths of the regions.
fn rows_by(
    alloc: Global,
    compiled: &Compiled,
    number: u16,
    profile: &Profile,
    all: &Pattern,
    regions: &[Region],
) -> Result<Vec<Row>, AllocError>
    requires profile { slice_get compiled.now.profiles number ≡ Some profile.now }
    requires all { all.now.items.items ≡ below_root }
    ensures { IfOk result (λ rows. rows.items ≡ flat_map (λ r. rows_at profile.now.files r.witness) regions.now) }
{
    let mut rows = Vec::new(alloc);
    for region in regions {
        let path = region.witness.as_slice();
        push_rows(&mut rows, alloc, compiled, number, profile, all, path)?;
    }
    Ok(rows)
}

/// Rows that stand for all files that can be asked for in a profile.
pub(crate) fn rows_of(
    alloc: Global,
    compiled: &Compiled,
    number: u16,
    profile: &Profile,
    limit: usize,
) -> Result<Vec<Row>, FindingsFault>
    requires profile { slice_get compiled.now.profiles number ≡ Some profile.now }
    requires some { 0 < limit }
    requires limit { limit ≤ most_states }
    ensures rows { IfOk result (λ rows. AreRows profile.now.files rows.items) }
    ensures many { IfErr result (λ e. HasNoRows profile.now.files limit e) }
{
    let all = root_pattern(alloc)?;
    let regions = regions_of_rules(alloc, profile.files.as_slice(), &all, limit)?;
    Ok(rows_by(alloc, compiled, number, profile, &all, regions.as_slice())?)
}
