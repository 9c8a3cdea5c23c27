//! What is found in logs by what their lines say, and which lines aren't understood.

ghost use Rattle.std.specs.Prelude.{◌≡◌, ℕ, ◌+◌, List, [], ◌∷◌, ◌++◌, Some, None, min, replicate, is_some, OnOk, if◌then◌else◌};
ghost use Rattle.std.specs.Option.{option_or};
ghost use Rattle.aa_logs.specs.LogLines.{LogLine, log_line};
ghost use Rattle.aa_logs.specs.Outcomes.{outcome};
ghost use Rattle.aa_logs.specs.Records.{line_in};
ghost use Rattle.aa_log.specs.Counted.{greatest};
ghost use Rattle.aa_log.specs.Found.{HasSameSettings, IsReport};
ghost use Rattle.aa_log.specs.Said.{HasSaidTheSame, IsSaid};

use crate::logging::{LinePlace, LogReport};
use aa_base::Unread;
use aa_logs::{Choice, Line, Lines, line_of};
use aa_messages::{is_unclear_as, said_in};
use std::alloc::Global;

/// What is found in logs, and which lines aren't understood.
#[derive(Drop)]
pub struct SaidReport<'a> {
    /// What their lines say, as often as they say it.
    pub report: LogReport<'a>,
    /// How many lines aren't understood.
    pub unclear: u64,
    /// The first of these.
    pub first_unclear: Option<LinePlace>,
}

/// One more, where a line isn't understood.
fn counted(count: u64, is_unclear: bool) -> u64
    ensures { result ≡ (if is_unclear then min (count + 1) greatest else count) }
{
    if is_unclear {
        count.saturating_add(1)
    } else {
        count
    }
}

/// The first place, or this one where none was before and the line isn't understood.
fn first_of(first: Option<LinePlace>, is_unclear: bool, place: LinePlace) -> Option<LinePlace>
    ensures { result ≡ (if is_unclear then option_or first (Some place) else first) }
{
    match first {
        Some(first) => Some(first),
        None if is_unclear => Some(place),
        None => None,
    }
}

/// Has a report take a line so often, of which is known what it is.
fn take_times(
    report: &mut LogReport<'_>,
    alloc: Global,
    line: &[u8],
    number: u64,
    times: u32,
    found: Line,
) -> Result<(), Unread>
    requires { outcome found ≡ line_in line.now }
    ensures log { OnOk result (report.new.log ≡ report.old.log) }
    ensures keeps { OnOk result (HasSameSettings report.old report.new) }
    ensures taken { OnOk result ((before : List LogLine) → IsReport before report.old → IsReport (before ++ replicate times (log_line report.old.log number line.now)) report.new) }
{
    if times == 1 {
        return report.count_found(alloc, line, number, found);
    }
    for _ in 0..times {
        report.take_line(alloc, line, number)?;
    }
    Ok(())
}

impl<'a> SaidReport<'a> {
    /// Nothing yet, of the lines that are wanted.
    pub fn new(alloc: Global, choice: Choice<'a>, wants_each: bool) -> SaidReport<'a>
        ensures empty { IsSaid [] result }
        ensures choice { result.report.choice ≡ choice.entry }
        ensures each { is_some result.report.each_skipped ≡ wants_each }
    {
        SaidReport {
            report: LogReport::new(alloc, choice, wants_each),
            unclear: 0,
            first_unclear: None,
        }
    }
}

impl Lines for SaidReport<'_> {
    ghost use Rattle.aa_log.specs.Said.{HasSaidTheSame, IsSaid};

    ghost log = { λ s. s.report.log };

    ghost has_taken = { λ s lines. IsSaid lines s };

    ghost keeps = { λ first s. HasSaidTheSame first s };

    fn take_line(&mut self, alloc: Global, line: &[u8], number: u64) -> Result<(), Unread> {
        let said = said_in(alloc, line)?;
        let text = said.text.as_slice();
        let found = line_of(alloc, text)?;
        let is_unclear = is_unclear_as(text, &found);
        let log = self.report.log;
        let place = LinePlace { log, line: number };
        self.unclear = counted(self.unclear, is_unclear);
        self.first_unclear = first_of(self.first_unclear, is_unclear, place);
        take_times(&mut self.report, alloc, text, number, said.times, found)
    }
}
