//! What is found by rows and regions is found of files and paths.

ghost use Rattle.std.specs.Prelude.{Contains};
ghost use Rattle.aa_model.specs.declared.rule.FileRule.{FileRule};
ghost use Rattle.aa_regions.specs.Regions.{ArePathRegions};
ghost use Rattle.aa_findings.specs.Attached.{patterns_at};
ghost use Rattle.aa_findings.specs.Rows.{AreRows};
ghost use Rattle.aa_findings.specs.Laws.{RowsTell, RegionsTell};

use crate::rows::Row;
use aa_model::{FileRule, Profile};
use aa_regions::Region;

/// A law and no work: what rows that stand for all files tell of a rule is so of the files that can be asked for.
pub fn rows_tell_of_files(rules: &[FileRule], rows: &[Row])
    requires { AreRows rules.now rows.now }
    ensures { (r : FileRule) → Contains rules.now r → RowsTell rules.now rows.now r }
{}

/// A law and no work: what regions of attachments tell of a profile is so of the paths that can be asked for: it ties with an earlier
/// one of its group at such a path just where one is found, and that is a shortest.
pub fn regions_tell_of_ties(profiles: &[Profile], group: &[usize], regions: &[Region])
    requires { ArePathRegions (patterns_at profiles.now group.now) regions.now }
    ensures { RegionsTell profiles.now group.now regions.now }
{}
