//! Rows of numbers.

ghost use Rattle.std.specs.Prelude.{◌≡◌, ◌++◌, map, IfOk, OnOk, IfErr, length, ◌<◌, ◌≤◌};
ghost use Rattle.aa_pattern.specs.Limits.{most_states};
ghost use Rattle.aa_auto.specs.Nodes.{pointed};
ghost use Rattle.aa_regions.specs.Regions.{ArePathRegions, AreRegions};
ghost use Rattle.aa_redundancy.specs.Faults.{IsFaultOf};

use crate::fault::RedundancyFault;
use aa_base::Seq;
use aa_pattern::Pattern;
use aa_regions::{Region, path_regions};
use std::alloc::{AllocError, Global};

/// How many patterns are matched together, at most.
const MAX_PATTERNS: usize = 65535;

/// The regions of the paths that can be asked for, by these patterns.
pub(crate) fn path_regions_by(
    alloc: Global,
    patterns: &[&Pattern],
    limit: usize,
) -> Result<Vec<Region>, RedundancyFault>
    requires some { 0 < limit }
    requires limit { limit ≤ most_states }
    ensures regions { IfOk result (λ rs. ArePathRegions (pointed patterns.now) rs.items) }
    ensures many { IfErr result (λ e. IsFaultOf (pointed patterns.now) limit e) }
{
    if patterns.len() > MAX_PATTERNS {
        return Err(RedundancyFault::TooManyPatterns);
    }
    Ok(path_regions(alloc, patterns, limit)?)
}

pub(crate) fn add_patterns<'p>(
    pointers: &mut Vec<&'p Pattern>,
    patterns: &'p [Pattern],
) -> Result<(), AllocError>
    ensures { OnOk result (pointed pointers.new.items ≡ pointed pointers.old.items ++ patterns.now) }
{
    for pattern in patterns {
        pointers.push(pattern)?;
    }
    Ok(())
}

fn row_of(alloc: Global, numbers: &[u16]) -> Result<Seq<usize>, AllocError>
    ensures { IfOk result (λ row. row ≡ numbers.now) }
{
    let mut row = Vec::new(alloc);
    for number in numbers {
        row.push(*number as usize)?;
    }
    Ok(Seq::from_vec(row))
}

/// The numbers of the patterns of each region.
pub(crate) fn rows_of(alloc: Global, regions: &[Region]) -> Result<Vec<Seq<usize>>, AllocError>
    ensures { IfOk result (λ rows. rows.items ≡ map (λ r. r.numbers) regions.now) }
{
    let mut rows = Vec::new(alloc);
    for region in regions {
        rows.push(row_of(alloc, region.numbers.as_slice())?)?;
    }
    Ok(rows)
}
