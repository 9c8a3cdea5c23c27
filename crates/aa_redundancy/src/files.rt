//! The table of rules on files.

ghost use Rattle.std.specs.Prelude.{◌≡◌, ◌<◌, ◌≤◌, IfOk, IfErr};
ghost use Rattle.aa_pattern.specs.Limits.{most_states};
ghost use Rattle.aa_auto.specs.Nodes.{pointed};
ghost use Rattle.aa_regions.specs.Regions.{ArePathRegions};
ghost use Rattle.aa_compile.specs.Rows.{patterns_of};
ghost use Rattle.aa_redundancy.specs.Faults.{IsFaultOf};
ghost use Rattle.aa_redundancy.specs.Without.{without};
ghost use Rattle.aa_redundancy.specs.Sameness.{SameFiles};
ghost use Rattle.aa_redundancy.specs.Covering.{Within, FilesWithin};
ghost use Rattle.aa_redundancy.specs.Tables.{Equal, Decides};

use crate::fault::RedundancyFault;
use crate::marks::marks_of_files;
use crate::rows::{add_patterns, path_regions_by, rows_of};
use crate::tables::Table;
use aa_model::FileRule;
use aa_pattern::Pattern;
use aa_regions::Region;
use std::alloc::{AllocError, Global};

/// The patterns of the rules, in order.
fn patterns_of(alloc: Global, rules: &[FileRule]) -> Result<Vec<&Pattern>, AllocError>
    ensures { IfOk result (λ pointers. pointed pointers.items ≡ patterns_of rules.now) }
{
    let mut pointers = Vec::new(alloc);
    for rule in rules {
        add_patterns(&mut pointers, rule.patterns.as_slice())?;
    }
    Ok(pointers)
}

/// The regions of paths by the patterns of the rules.
fn regions_of_files(
    alloc: Global,
    rules: &[FileRule],
    limit: usize,
) -> Result<Vec<Region>, RedundancyFault>
    requires some { 0 < limit }
    requires limit { limit ≤ most_states }
    ensures regions { IfOk result (λ rs. ArePathRegions (patterns_of rules.now) rs.items) }
    ensures many { IfErr result (λ e. IsFaultOf (patterns_of rules.now) limit e) }
{
    let patterns = patterns_of(alloc, rules)?;
    path_regions_by(alloc, patterns.as_slice(), limit)
}

/// A row for each region of paths: the patterns that match them.
pub(crate) fn table_of_files(
    alloc: Global,
    rules: &[FileRule],
    limit: usize,
) -> Result<Table, RedundancyFault>
    requires some { 0 < limit }
    requires limit { limit ≤ most_states }
    ensures alike { IfOk result (λ t. Decides Equal t (λ gone others. SameFiles (without gone rules.now) (without others rules.now))) }
    ensures within { IfOk result (λ t. Decides Within t (λ gone others. FilesWithin (without gone rules.now) (without others rules.now))) }
    ensures many { IfErr result (λ e. IsFaultOf (patterns_of rules.now) limit e) }
{
    let regions = regions_of_files(alloc, rules, limit)?;
    let rows = rows_of(alloc, regions.as_slice())?;
    let marks = marks_of_files(alloc, rules)?;
    Ok(Table { marks, rows })
}
