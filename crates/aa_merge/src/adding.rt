//! The report of all parts, as far as they are read.

ghost use Rattle.std.specs.Prelude.{◌≡◌, ℕ, ◌<◌, ◌++◌, ◌^◌, [], List, length, map, is_some, option_map, Option, Some, None, OnOk, IfOk, IfErr, if◌then◌else◌};
ghost use Rattle.aa_files.specs.Texts.{texts};
ghost use Rattle.aa_log.specs.Counted.{Counted};
ghost use Rattle.aa_log.specs.Limits.{most_requests};
ghost use Rattle.aa_merge.specs.Faults.{IsTooMany, IsUnlike};
ghost use Rattle.aa_merge.specs.Held.{row_data, passed_data, part_data, unclear_data, skipped_row, AreRows, HasMore};
ghost use Rattle.aa_merge.specs.Parts.{Asking, Passed, Report, Unclear, asking_key, passed_key, both_lists, both_counts, both_unclear, merged, nothing_as};
ghost use Rattle.aa_log.specs.Joined.{added, joined, total};
ghost use Rattle.aa_merge.specs.Wholes.{IsHeld, IsNotAdded};

use crate::fault::{Member, PartFault};
use crate::part::{Part, PartRow, PartSkipped, PartUnclear};
use crate::rows::{add_path, add_row, add_skipped, push_skipped};
use aa_log::{Entry, LinePlace, SaidReport, SkippedLines};
use aa_logs::Choice;
use std::alloc::{AllocError, Global};
use std::collections::HashMap;

/// The report of the parts so far.
#[derive(Drop)]
pub struct Merging<'a> {
    pub said: SaidReport<'a>,
    /// The number of each key's entry.
    numbers: HashMap<Vec<u8>, usize>,
    /// The paths of logs, by the numbers that places have for them.
    pub paths: Vec<Vec<u8>>,
}

fn add_rows(
    alloc: Global,
    entries: &mut Vec<Entry>,
    numbers: &mut HashMap<Vec<u8>, usize>,
    paths: &mut Vec<Vec<u8>>,
    rows: &[PartRow],
) -> Result<(), PartFault>
    ensures rows { OnOk result ((before : List (Counted Asking)) → AreRows before (texts paths.old.items) entries.old.items numbers.old → AreRows (joined asking_key before (map row_data rows.now)) (texts paths.new.items) entries.new.items numbers.new) }
    ensures paths { OnOk result (HasMore (texts paths.old.items) (texts paths.new.items)) }
    ensures room { IfErr result (λ e. IsTooMany e ((before : List (Counted Asking)) → AreRows before (texts paths.old.items) entries.old.items numbers.old → most_requests < length (joined asking_key before (map row_data rows.now)))) }
{
    for row in rows {
        add_row(alloc, entries, numbers, paths, row)?;
    }
    Ok(())
}

fn add_reasons(
    alloc: Global,
    skipped: &mut Vec<SkippedLines>,
    paths: &mut Vec<Vec<u8>>,
    rows: &[PartSkipped],
) -> Result<(), AllocError>
    ensures rows { OnOk result ((before : List (Counted Passed)) → map (skipped_row (texts paths.old.items)) skipped.old.items ≡ map Some before → map (skipped_row (texts paths.new.items)) skipped.new.items ≡ map Some (joined passed_key before (map passed_data rows.now))) }
    ensures paths { OnOk result (HasMore (texts paths.old.items) (texts paths.new.items)) }
{
    for row in rows {
        add_skipped(alloc, skipped, paths, row)?;
    }
    Ok(())
}

/// A sum, and how often rows come besides.
fn sum_of(first: u64, rows: &[PartSkipped]) -> u64
    ensures { (before : List (Counted Passed)) → first ≡ total before → result ≡ total (joined passed_key before (map passed_data rows.now)) }
{
    let mut sum = first;
    for row in rows {
        sum = sum.saturating_add(row.count);
    }
    sum
}

fn push_all_skipped(
    alloc: Global,
    skipped: &mut Vec<SkippedLines>,
    paths: &mut Vec<Vec<u8>>,
    rows: &[PartSkipped],
) -> Result<(), AllocError>
    ensures rows { OnOk result ((before : List (Counted Passed)) → map (skipped_row (texts paths.old.items)) skipped.old.items ≡ map Some before → map (skipped_row (texts paths.new.items)) skipped.new.items ≡ map Some (before ++ map passed_data rows.now)) }
    ensures paths { OnOk result (HasMore (texts paths.old.items) (texts paths.new.items)) }
{
    for row in rows {
        push_skipped(alloc, skipped, paths, row)?;
    }
    Ok(())
}

/// Each line that asks nothing, where these are listed in both.
fn add_each(
    alloc: Global,
    each: &mut Option<Vec<SkippedLines>>,
    paths: &mut Vec<Vec<u8>>,
    rows: &Option<Vec<PartSkipped>>,
) -> Result<(), PartFault>
    ensures rows { OnOk result ((before : Option (List (Counted Passed))) → option_map (λ e. map (skipped_row (texts paths.old.items)) e.items) each.old ≡ option_map (map Some) before → option_map (λ e. map (skipped_row (texts paths.new.items)) e.items) each.new ≡ option_map (map Some) (both_lists before (option_map (λ e. map passed_data e.items) rows.now))) }
    ensures paths { OnOk result (HasMore (texts paths.old.items) (texts paths.new.items)) }
    ensures unlike { IfErr result (λ e. IsUnlike e (¬ (is_some each.old ≡ is_some rows.now))) }
{
    match (each, rows) {
        (None, None) => Ok(()),
        (Some(each), Some(rows)) => Ok(push_all_skipped(alloc, each, paths, rows.as_slice())?),
        _ => Err(PartFault::Unlike(Member::SkippedLines)),
    }
}

/// The sum of the lines that are left out, where they are counted in both.
fn left_out_of(before: Option<u64>, more: Option<u64>) -> Result<Option<u64>, PartFault>
    ensures sum { IfOk result (λ sum. sum ≡ both_counts before more) }
    ensures unlike { IfErr result (λ e. IsUnlike e (¬ (is_some before ≡ is_some more))) }
{
    match (before, more) {
        (None, None) => Ok(None),
        (Some(before), Some(more)) => Ok(Some(before.saturating_add(more))),
        _ => Err(PartFault::Unlike(Member::LeftOut)),
    }
}

/// No line left out yet, where some may be.
fn none_left_out(first: Option<u64>) -> Option<u64>
    ensures { result ≡ option_map (λ _. 0) first }
{
    match first {
        Some(_) => Some(0),
        None => None,
    }
}

impl<'a> Merging<'a> {
    /// Nothing yet, where lines were chosen and listed as in that part.
    pub fn new(alloc: Global, first: &Part) -> Merging<'a>
        ensures { IsHeld (nothing_as (part_data first.now)) result }
    {
        let choice = Choice {
            profiles: &[],
            since: None,
            until: None,
        };
        let mut said = SaidReport::new(alloc, choice, first.each.is_some());
        let report = &mut said.report;
        report.left_out = none_left_out(first.left_out);
        Merging {
            said,
            numbers: HashMap::new(alloc),
            paths: Vec::new(alloc),
        }
    }

    /// Adds the lines that are left out.
    fn add_left_out(&mut self, part: &Part) -> Result<(), PartFault>
        ensures added { OnOk result ((r : Report) → IsHeld r self.old → IsHeld (record r { left_out = both_counts r.left_out part.now.left_out }) self.new) }
        ensures unlike { IfErr result (λ e. (r : Report) → IsHeld r self.old → IsUnlike e (¬ (is_some r.left_out ≡ is_some part.now.left_out))) }
    {
        let report = &mut self.said.report;
        report.left_out = left_out_of(report.left_out, part.left_out)?;
        Ok(())
    }

    /// Adds each line that asks nothing, where these are listed.
    fn add_each_skipped(&mut self, alloc: Global, part: &Part) -> Result<(), PartFault>
        ensures added { OnOk result ((r : Report) → IsHeld r self.old → IsHeld (record r { each = both_lists r.each (part_data part.now).each }) self.new) }
        ensures unlike { IfErr result (λ e. (r : Report) → IsHeld r self.old → IsUnlike e (¬ (is_some r.each ≡ is_some part.now.each))) }
    {
        let each = &mut self.said.report.each_skipped;
        add_each(alloc, each, &mut self.paths, &part.each)
    }

    /// Adds the counts of lines.
    fn add_counts(&mut self, part: &Part)
        ensures { (r : Report) → IsHeld r self.old → IsHeld (record r { lines = added r.lines part.now.lines; asking = added r.asking part.now.asking; other = added r.other part.now.other }) self.new }
    {
        let report = &mut self.said.report;
        report.lines = report.lines.saturating_add(part.lines);
        report.requests = report.requests.saturating_add(part.asking);
        report.other = report.other.saturating_add(part.other);
    }

    /// Adds the rows of requests.
    fn add_requests(&mut self, alloc: Global, part: &Part) -> Result<(), PartFault>
        ensures added { OnOk result ((r : Report) → IsHeld r self.old → IsHeld (record r { requests = joined asking_key r.requests (part_data part.now).requests }) self.new) }
        ensures room { IfErr result (λ e. IsTooMany e ((r : Report) → IsHeld r self.old → most_requests < length (joined asking_key r.requests (part_data part.now).requests))) }
    {
        let entries = &mut self.said.report.entries;
        let rows = part.requests.as_slice();
        add_rows(alloc, entries, &mut self.numbers, &mut self.paths, rows)
    }

    /// Adds the lines that ask nothing, by their reasons.
    fn add_skipped(&mut self, alloc: Global, part: &Part) -> Result<(), AllocError>
        ensures { OnOk result ((r : Report) → IsHeld r self.old → IsHeld (record r { skipped = joined passed_key r.skipped (part_data part.now).skipped }) self.new) }
    {
        let report = &mut self.said.report;
        let rows = part.skipped.as_slice();
        report.skipped_count = sum_of(report.skipped_count, rows);
        add_reasons(alloc, &mut report.skipped, &mut self.paths, rows)
    }

    /// Notes lines that aren't understood as the first such.
    fn note_unclear(&mut self, alloc: Global, unclear: &PartUnclear) -> Result<(), AllocError>
        ensures { OnOk result ((r : Report) → IsHeld r self.old → IsHeld (record r { unclear = Some (unclear_data unclear.now) }) self.new) }
    {
        let path = Vec::from_slice(alloc, unclear.path.as_slice())?;
        let log = add_path(&mut self.paths, path)?;
        let line = unclear.line;
        self.said.unclear = unclear.count;
        self.said.first_unclear = Some(LinePlace { log, line });
        Ok(())
    }

    /// Adds lines that aren't understood.
    fn add_unclear(&mut self, alloc: Global, part: &Part) -> Result<(), AllocError>
        ensures { OnOk result ((r : Report) → IsHeld r self.old → IsHeld (record r { unclear = both_unclear r.unclear (part_data part.now).unclear }) self.new) }
    {
        let Some(unclear) = &part.unclear else {
            return Ok(());
        };
        if self.said.first_unclear.is_some() {
            self.said.unclear = self.said.unclear.saturating_add(unclear.count);
            return Ok(());
        }
        self.note_unclear(alloc, unclear)
    }

    /// Adds what a part says behind that of those before it.
    pub fn add(&mut self, alloc: Global, part: &Part) -> Result<(), PartFault>
        ensures added { OnOk result ((r : Report) → IsHeld r self.old → IsHeld (merged r (part_data part.now)) self.new) }
        ensures not { IfErr result (λ e. (r : Report) → IsHeld r self.old → IsNotAdded r (part_data part.now) e) }
    {
        self.add_left_out(part)?;
        self.add_each_skipped(alloc, part)?;
        self.add_counts(part);
        self.add_requests(alloc, part)?;
        self.add_skipped(alloc, part)?;
        Ok(self.add_unclear(alloc, part)?)
    }
}
