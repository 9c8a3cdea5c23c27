//! What logs say, as it is printed.

ghost use Rattle.std.specs.Prelude.{ℕ, ◌≡◌, ◌++◌, List, [], map, flat_map, codes, decimal, slice_get, unwrap_or, OnOk};
ghost use Rattle.aa_base.specs.Values.{value};
ghost use Rattle.aa_text.specs.Visible.{all_visible};
ghost use Rattle.aa_log.specs.Printed.{place_text, rest_text, entry_line, reason_text, skipped_line, skipped_at, each_skipped_text, labelled, left_out_text, asking_text, totals_line, counts_text, IsReportText};

use crate::logging::{Entry, LinePlace, LogReport, SkippedLines};
use aa_logs::then_name;
use aa_text::{push_name, push_number, push_text, push_visible};
use std::alloc::{AllocError, Global};

/// Appends a log's path as it is shown, by its number.
fn push_path(out: &mut Vec<u8>, logs: &[&[u8]], log: usize) -> Result<(), AllocError>
    ensures { OnOk result (out.new.items ≡ out.old.items ++ all_visible (unwrap_or (slice_get (map (λ log. log.now) logs.now) log) [])) }
{
    match logs.get(log) {
        Some(path) => push_visible(out, path),
        None => Ok(()),
    }
}

/// Appends a log's path and a line's number.
pub fn push_line_place(
    out: &mut Vec<u8>,
    logs: &[&[u8]],
    place: &LinePlace,
) -> Result<(), AllocError>
    ensures { OnOk result (out.new.items ≡ out.old.items ++ place_text (map (λ log. log.now) logs.now) place.now) }
{
    push_path(out, logs, place.log)?;
    push_text(out, ":")?;
    push_number(out, place.line)
}

/// Appends a request with its count and its first place.
pub fn push_entry(
    out: &mut Vec<u8>,
    alloc: Global,
    logs: &[&[u8]],
    entry: &Entry,
) -> Result<(), AllocError>
    ensures { OnOk result (out.new.items ≡ out.old.items ++ entry_line (map (λ log. log.now) logs.now) entry.now) }
{
    push_text(out, then_name(entry.then))?;
    push_rest(out, alloc, logs, entry)
}

/// Appends a profile between spaces.
pub(crate) fn push_profile(
    out: &mut Vec<u8>,
    alloc: Global,
    profile: &[u8],
) -> Result<(), AllocError>
    ensures { OnOk result (out.new.items ≡ out.old.items ++ codes " " ++ value profile.now ++ codes " ") }
{
    push_text(out, " ")?;
    push_name(out, alloc, profile)?;
    push_text(out, " ")
}

/// Appends a profile and the word of what it asks, each behind a space.
fn push_asked(
    out: &mut Vec<u8>,
    alloc: Global,
    profile: &[u8],
    word: &[u8],
) -> Result<(), AllocError>
    ensures { OnOk result (out.new.items ≡ out.old.items ++ codes " " ++ value profile.now ++ codes " " ++ word.now) }
{
    push_profile(out, alloc, profile)?;
    out.extend_from_slice(word)
}

/// Appends how many there are and where the first is, each behind a space, and the line's end.
fn push_count_and_place(
    out: &mut Vec<u8>,
    logs: &[&[u8]],
    count: u64,
    first: &LinePlace,
) -> Result<(), AllocError>
    ensures { OnOk result (out.new.items ≡ out.old.items ++ codes " " ++ decimal count ++ codes " " ++ place_text (map (λ log. log.now) logs.now) first.now ++ codes "\n") }
{
    push_text(out, " ")?;
    push_number(out, count)?;
    push_text(out, " ")?;
    push_line_place(out, logs, first)?;
    push_text(out, "\n")
}

/// Appends what stands behind what became of a request.
pub fn push_rest(
    out: &mut Vec<u8>,
    alloc: Global,
    logs: &[&[u8]],
    entry: &Entry,
) -> Result<(), AllocError>
    ensures { OnOk result (out.new.items ≡ out.old.items ++ rest_text (map (λ log. log.now) logs.now) entry.now) }
{
    push_asked(out, alloc, entry.profile.as_slice(), entry.word.as_slice())?;
    push_count_and_place(out, logs, entry.count, &entry.first)
}

/// Appends a reason as it is printed.
pub(crate) fn push_reason(out: &mut Vec<u8>, reason: (u8, &'static str)) -> Result<(), AllocError>
    ensures { OnOk result (out.new.items ≡ out.old.items ++ reason_text reason.entry.0 reason.entry.1.now) }
{
    let (order, name) = reason;
    push_text(out, if order == 0 { "rule:" } else { "" })?;
    push_text(out, name)
}

fn push_skipped(out: &mut Vec<u8>, logs: &[&[u8]], skipped: &SkippedLines) -> Result<(), AllocError>
    ensures { OnOk result (out.new.items ≡ out.old.items ++ skipped_line (map (λ log. log.now) logs.now) skipped.now) }
{
    push_text(out, "skipped ")?;
    push_reason(out, skipped.reason)?;
    push_count_and_place(out, logs, skipped.count, &skipped.first)
}

fn push_skipped_at(
    out: &mut Vec<u8>,
    logs: &[&[u8]],
    skipped: &SkippedLines,
) -> Result<(), AllocError>
    ensures { OnOk result (out.new.items ≡ out.old.items ++ skipped_at (map (λ log. log.now) logs.now) skipped.now) }
{
    push_line_place(out, logs, &skipped.first)?;
    push_text(out, ": skipped ")?;
    push_reason(out, skipped.reason)?;
    push_text(out, "\n")
}

fn push_each_skipped(
    out: &mut Vec<u8>,
    logs: &[&[u8]],
    each: &[SkippedLines],
) -> Result<(), AllocError>
    ensures { OnOk result (out.new.items ≡ out.old.items ++ flat_map (skipped_at (map (λ log. log.now) logs.now)) each.now) }
{
    for one in each {
        push_skipped_at(out, logs, one)?;
    }
    Ok(())
}

/// Appends the place of each skipped line and why it is skipped, where these are wanted.
pub fn push_skipped_lines(
    out: &mut Vec<u8>,
    logs: &[&[u8]],
    report: &LogReport<'_>,
) -> Result<(), AllocError>
    ensures { OnOk result (out.new.items ≡ out.old.items ++ each_skipped_text (map (λ log. log.now) logs.now) report.now) }
{
    match &report.each_skipped {
        Some(each) => push_each_skipped(out, logs, each.as_slice()),
        None => Ok(()),
    }
}

#[tactic(auto, unfolding(crate::specs::Printed::labelled))]
pub(crate) fn push_count(out: &mut Vec<u8>, what: &str, count: u64) -> Result<(), AllocError>
    ensures { OnOk result (out.new.items ≡ out.old.items ++ labelled what.now count) }
{
    push_text(out, what)?;
    push_number(out, count)
}

fn push_left_out(out: &mut Vec<u8>, left_out: Option<u64>) -> Result<(), AllocError>
    ensures { OnOk result (out.new.items ≡ out.old.items ++ left_out_text left_out) }
{
    match left_out {
        Some(count) => push_count(out, " left out ", count),
        None => Ok(()),
    }
}

/// Appends how many lines there are, how many ask, and how many requests are distinct.
#[tactic(auto, unfolding(crate::specs::Printed::asking_text))]
fn push_asking(out: &mut Vec<u8>, report: &LogReport<'_>) -> Result<(), AllocError>
    ensures { OnOk result (out.new.items ≡ out.old.items ++ asking_text report.now) }
{
    push_count(out, "lines ", report.lines)?;
    push_count(out, " requests ", report.requests)?;
    push_count(out, " distinct ", report.entries.len() as u64)
}

/// Appends the counts of all.
#[tactic(auto, unfolding(crate::specs::Printed::totals_line))]
fn push_totals(out: &mut Vec<u8>, report: &LogReport<'_>) -> Result<(), AllocError>
    ensures { OnOk result (out.new.items ≡ out.old.items ++ totals_line report.now) }
{
    push_asking(out, report)?;
    push_count(out, " skipped ", report.skipped_count)?;
    push_count(out, " other ", report.other)?;
    push_left_out(out, report.left_out)?;
    push_text(out, "\n")
}

/// Appends the lines that ask nothing, by their reasons.
fn push_reasons(
    out: &mut Vec<u8>,
    logs: &[&[u8]],
    reasons: &[&SkippedLines],
) -> Result<(), AllocError>
    ensures { OnOk result (out.new.items ≡ out.old.items ++ flat_map (skipped_line (map (λ log. log.now) logs.now)) (map (λ s. s.now) reasons.now)) }
{
    for skipped in reasons {
        push_skipped(out, logs, skipped)?;
    }
    Ok(())
}

/// Appends which lines ask nothing, and the counts of all.
fn push_counts(
    out: &mut Vec<u8>,
    logs: &[&[u8]],
    reasons: &[&SkippedLines],
    report: &LogReport<'_>,
) -> Result<(), AllocError>
    ensures { OnOk result (out.new.items ≡ out.old.items ++ counts_text (map (λ log. log.now) logs.now) (map (λ s. s.now) reasons.now) report.now) }
{
    push_skipped_lines(out, logs, report)?;
    push_reasons(out, logs, reasons)?;
    push_totals(out, report)
}

fn push_entries(
    out: &mut Vec<u8>,
    alloc: Global,
    logs: &[&[u8]],
    entries: &[&Entry],
) -> Result<(), AllocError>
    ensures { OnOk result (out.new.items ≡ out.old.items ++ flat_map (entry_line (map (λ log. log.now) logs.now)) (map (λ e. e.now) entries.now)) }
{
    for entry in entries {
        push_entry(out, alloc, logs, entry)?;
    }
    Ok(())
}

/// Appends requests and reasons as they stand here, and the counts of all.
fn push_found(
    out: &mut Vec<u8>,
    alloc: Global,
    logs: &[&[u8]],
    entries: &[&Entry],
    reasons: &[&SkippedLines],
    report: &LogReport<'_>,
) -> Result<(), AllocError>
    ensures { OnOk result (out.new.items ≡ out.old.items ++ (flat_map (entry_line (map (λ log. log.now) logs.now)) (map (λ e. e.now) entries.now) ++ counts_text (map (λ log. log.now) logs.now) (map (λ s. s.now) reasons.now) report.now)) }
{
    push_entries(out, alloc, logs, entries)?;
    push_counts(out, logs, reasons, report)
}

/// Appends what the logs' lines ask, and what they don't.
pub fn push_report(
    out: &mut Vec<u8>,
    alloc: Global,
    logs: &[&[u8]],
    report: &LogReport<'_>,
) -> Result<(), AllocError>
    ensures { OnOk result ((text : List ℕ) × IsReportText (map (λ log. log.now) logs.now) report.now text × (out.new.items ≡ out.old.items ++ text)) }
{
    let entries = report.in_order(alloc)?;
    let reasons = report.reasons_in_order(alloc)?;
    let listed = entries.as_slice();
    let causes = reasons.as_slice();
    push_found(out, alloc, logs, listed, causes, report)?;
    Ok(())
}
