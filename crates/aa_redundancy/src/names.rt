//! The table of rules on changes of the profile.

ghost use Rattle.std.specs.Prelude.{◌≡◌, ◌<◌, ◌≤◌, ◌++◌, [], map, IfOk, IfErr, OnOk};
ghost use Rattle.aa_pattern.specs.Limits.{most_states};
ghost use Rattle.aa_auto.specs.Nodes.{pointed};
ghost use Rattle.aa_regions.specs.Regions.{AreRegions};
ghost use Rattle.aa_representatives.specs.Alike.{patterns_in, change_patterns};
ghost use Rattle.aa_redundancy.specs.Faults.{IsFaultOf};
ghost use Rattle.aa_redundancy.specs.Without.{without};
ghost use Rattle.aa_redundancy.specs.Sameness.{SameChanges};
ghost use Rattle.aa_redundancy.specs.Covering.{Within, ChangesWithin};
ghost use Rattle.aa_redundancy.specs.Tables.{Equal, Decides};
ghost use Rattle.aa_redundancy.specs.Plain.{change_marks, change_row};

use crate::entries::push_if;
use crate::fault::RedundancyFault;
use crate::marks::{RuleMark, plain_mark};
use crate::tables::Table;
use aa_base::Seq;
use aa_compile::holds_change;
use aa_model::ChangeRule;
use aa_pattern::Pattern;
use aa_regions::{Region, regions_of};
use std::alloc::{AllocError, Global};

/// How many patterns are matched together, at most.
const MAX_PATTERNS: usize = 65535;

/// How many bytes a name has, at most.
const MAX_NAME: usize = 1024;

fn add_pattern<'p>(
    pointers: &mut Vec<&'p Pattern>,
    pattern: &'p Option<Pattern>,
) -> Result<(), AllocError>
    ensures { OnOk result (pointed pointers.new.items ≡ pointed pointers.old.items ++ patterns_in pattern.now) }
{
    if let Some(pattern) = pattern {
        pointers.push(pattern)?;
    }
    Ok(())
}

/// The patterns of the rules, in order.
fn change_patterns(alloc: Global, rules: &[ChangeRule]) -> Result<Vec<&Pattern>, AllocError>
    ensures { IfOk result (λ pointers. pointed pointers.items ≡ change_patterns rules.now) }
{
    let mut pointers = Vec::new(alloc);
    for rule in rules {
        add_pattern(&mut pointers, &rule.pattern)?;
    }
    Ok(pointers)
}

/// The regions of names by these patterns.
fn name_regions_by(
    alloc: Global,
    patterns: &[&Pattern],
    limit: usize,
) -> Result<Vec<Region>, RedundancyFault>
    requires some { 0 < limit }
    requires limit { limit ≤ most_states }
    ensures regions { IfOk result (λ rs. AreRegions (pointed patterns.now) [] 1 1024 rs.items) }
    ensures many { IfErr result (λ e. IsFaultOf (pointed patterns.now) limit e) }
{
    if patterns.len() > MAX_PATTERNS {
        return Err(RedundancyFault::TooManyPatterns);
    }
    Ok(regions_of(alloc, patterns, limit, b"", 1, MAX_NAME)?)
}

/// The regions of names by the patterns of the rules.
fn regions_of_names(
    alloc: Global,
    rules: &[ChangeRule],
    limit: usize,
) -> Result<Vec<Region>, RedundancyFault>
    requires some { 0 < limit }
    requires limit { limit ≤ most_states }
    ensures regions { IfOk result (λ rs. AreRegions (change_patterns rules.now) [] 1 1024 rs.items) }
    ensures many { IfErr result (λ e. IsFaultOf (change_patterns rules.now) limit e) }
{
    let patterns = change_patterns(alloc, rules)?;
    name_regions_by(alloc, patterns.as_slice(), limit)
}

fn marks_of_changes(alloc: Global, rules: &[ChangeRule]) -> Result<Vec<RuleMark>, AllocError>
    ensures { IfOk result (λ marks. marks.items ≡ change_marks 0 rules.now) }
{
    let mut marks = Vec::new(alloc);
    for (number, rule) in rules.iter().enumerate() {
        marks.push(plain_mark(number, rule.audit, rule.deny))?;
    }
    Ok(marks)
}

/// The rules that hold for a name.
fn row_of_name(alloc: Global, rules: &[ChangeRule], name: &[u8]) -> Result<Seq<usize>, AllocError>
    ensures { IfOk result (λ row. row ≡ change_row rules.now name.now) }
{
    let mut row = Vec::new(alloc);
    for number in 0..rules.len() {
        push_if(&mut row, number, holds_change(&rules[number], name))?;
    }
    Ok(Seq::from_vec(row))
}

fn rows_of_names(
    alloc: Global,
    rules: &[ChangeRule],
    regions: &[Region],
) -> Result<Vec<Seq<usize>>, AllocError>
    ensures { IfOk result (λ rows. rows.items ≡ map (λ r. change_row rules.now r.witness) regions.now) }
{
    let mut rows = Vec::new(alloc);
    for region in regions {
        rows.push(row_of_name(alloc, rules, region.witness.as_slice())?)?;
    }
    Ok(rows)
}

/// A row for each region of names: the rules that hold for them.
pub(crate) fn table_of_changes(
    alloc: Global,
    rules: &[ChangeRule],
    limit: usize,
) -> Result<Table, RedundancyFault>
    requires some { 0 < limit }
    requires limit { limit ≤ most_states }
    ensures alike { IfOk result (λ t. Decides Equal t (λ gone others. SameChanges (without gone rules.now) (without others rules.now))) }
    ensures within { IfOk result (λ t. Decides Within t (λ gone others. ChangesWithin (without gone rules.now) (without others rules.now))) }
    ensures many { IfErr result (λ e. IsFaultOf (change_patterns rules.now) limit e) }
{
    let regions = regions_of_names(alloc, rules, limit)?;
    let marks = marks_of_changes(alloc, rules)?;
    let rows = rows_of_names(alloc, rules, regions.as_slice())?;
    Ok(Table { marks, rows })
}
