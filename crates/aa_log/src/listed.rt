//! What `log` finds, in JSON.

ghost use Rattle.std.specs.Prelude.{ℕ, ◌≡◌, ◌++◌, List, [], codes, map, slice_get, unwrap_or, OnOk};
ghost use Rattle.aa_text.specs.Jsons.{member_text};
ghost use Rattle.aa_log.specs.Printed.{reason_of};
ghost use Rattle.aa_log.specs.Listed.{word_member, place_members, entry_members, entries_list, skipped_list, json_by_reason, json_each_of, json_requests, json_each, json_unclear, unclear_member, json_totals, json_rest, IsJsonReport};

use crate::logging::{Entry, LinePlace, SkippedLines};
use crate::printing::push_reason;
use crate::said::SaidReport;
use aa_logs::then_name;
use aa_text::{
    ListItem, push_key, push_list_in, push_member, push_member_if, push_next_key, push_number,
    push_text,
};
use std::alloc::{AllocError, Global};

/// Appends a member whose value is a word that needs no escape.
#[tactic(auto, unfolding(crate::specs::Listed::word_member))]
pub fn push_word_member(out: &mut Vec<u8>, key: &str, word: &str) -> Result<(), AllocError>
    ensures { OnOk result (out.new.items ≡ out.old.items ++ word_member key.now word.now) }
{
    push_key(out, key)?;
    push_text(out, "\"")?;
    push_text(out, word)?;
    push_text(out, "\"")
}

/// A log's path, by its number.
fn path_of<'p>(logs: &[&'p [u8]], log: usize) -> &'p [u8]
    ensures { result.now ≡ unwrap_or (slice_get (map (λ log. log.now) logs.now) log) [] }
{
    match logs.get(log) {
        Some(path) => path,
        None => &[],
    }
}

#[tactic(auto, unfolding(crate::specs::Listed::place_members))]
fn push_place_members(
    out: &mut Vec<u8>,
    alloc: Global,
    logs: &[&[u8]],
    place: &LinePlace,
) -> Result<(), AllocError>
    ensures { OnOk result (out.new.items ≡ out.old.items ++ place_members (map (λ log. log.now) logs.now) place.now) }
{
    push_member(out, alloc, "path", &path_of(logs, place.log))?;
    push_member(out, alloc, "line", &place.line)
}

/// Appends a request's members, without the braces.
#[tactic(auto, unfolding(crate::specs::Listed::entry_members))]
pub fn push_entry_members(
    out: &mut Vec<u8>,
    alloc: Global,
    logs: &[&[u8]],
    entry: &Entry,
) -> Result<(), AllocError>
    ensures { OnOk result (out.new.items ≡ out.old.items ++ entry_members (map (λ log. log.now) logs.now) entry.now) }
{
    push_word_member(out, "then", then_name(entry.then))?;
    push_member(out, alloc, "profile", &entry.profile)?;
    push_member(out, alloc, "request", &entry.word)?;
    push_member(out, alloc, "count", &entry.count)?;
    push_place_members(out, alloc, logs, &entry.first)
}

/// The context is the paths of the logs.
impl<'l> ListItem<&'l [&'l [u8]]> for Entry {
    ghost use Rattle.std.specs.Prelude.{true, map};
    ghost use Rattle.aa_log.specs.Listed.{json_entry};

    ghost stands = { λ logs entry. true };

    ghost item = { λ logs entry. json_entry (map (λ log. log.now) logs.now) entry };

    fn stands(&self, _logs: &&'l [&'l [u8]]) -> bool {
        true
    }

    #[tactic(auto, unfolding(crate::specs::Listed::json_entry))]
    fn push_item(
        &self,
        out: &mut Vec<u8>,
        alloc: Global,
        logs: &&'l [&'l [u8]],
    ) -> Result<(), AllocError> {
        push_text(out, "{")?;
        push_entry_members(out, alloc, *logs, self)?;
        push_text(out, "}")
    }
}

/// Appends the member `reason`.
#[tactic(auto, unfolding(crate::specs::Listed::word_member))]
fn push_reason_member(out: &mut Vec<u8>, skipped: &SkippedLines) -> Result<(), AllocError>
    ensures { OnOk result (out.new.items ≡ out.old.items ++ word_member (codes "reason") (reason_of skipped.now)) }
{
    push_key(out, "reason")?;
    push_text(out, "\"")?;
    push_reason(out, skipped.reason)?;
    push_text(out, "\"")
}

/// The context is the paths of the logs.
impl<'l> ListItem<&'l [&'l [u8]]> for SkippedLines {
    ghost use Rattle.std.specs.Prelude.{true, map};
    ghost use Rattle.aa_log.specs.Listed.{json_skipped};

    ghost stands = { λ logs skipped. true };

    ghost item = { λ logs skipped. json_skipped (map (λ log. log.now) logs.now) skipped };

    fn stands(&self, _logs: &&'l [&'l [u8]]) -> bool {
        true
    }

    #[tactic(auto, unfolding(crate::specs::Listed::json_skipped))]
    fn push_item(
        &self,
        out: &mut Vec<u8>,
        alloc: Global,
        logs: &&'l [&'l [u8]],
    ) -> Result<(), AllocError> {
        push_text(out, "{")?;
        push_reason_member(out, self)?;
        push_member(out, alloc, "count", &self.count)?;
        push_place_members(out, alloc, *logs, &self.first)?;
        push_text(out, "}")
    }
}

/// Appends the lines that ask nothing, by their reasons.
fn push_all_listed(
    out: &mut Vec<u8>,
    alloc: Global,
    logs: &[&[u8]],
    reasons: &[&SkippedLines],
) -> Result<(), AllocError>
    ensures { OnOk result (out.new.items ≡ out.old.items ++ skipped_list (map (λ log. log.now) logs.now) (map (λ s. s.now) reasons.now)) }
{
    push_list_in(out, alloc, &logs, reasons)?;
    Ok(())
}

/// Appends each line that asks nothing.
fn push_each_listed(
    out: &mut Vec<u8>,
    alloc: Global,
    logs: &[&[u8]],
    each: &[SkippedLines],
) -> Result<(), AllocError>
    ensures { OnOk result (out.new.items ≡ out.old.items ++ skipped_list (map (λ log. log.now) logs.now) each.now) }
{
    push_list_in(out, alloc, &logs, each)?;
    Ok(())
}

/// Appends the member of the lines that ask nothing, by their reasons.
#[tactic(auto, unfolding(crate::specs::Listed::json_by_reason))]
fn push_by_reason(
    out: &mut Vec<u8>,
    alloc: Global,
    logs: &[&[u8]],
    reasons: &[&SkippedLines],
) -> Result<(), AllocError>
    ensures { OnOk result (out.new.items ≡ out.old.items ++ json_by_reason (map (λ log. log.now) logs.now) (map (λ s. s.now) reasons.now)) }
{
    push_next_key(out, "skipped")?;
    push_all_listed(out, alloc, logs, reasons)
}

/// Appends the member of each line that asks nothing.
#[tactic(auto, unfolding(crate::specs::Listed::json_each_of))]
fn push_each_of(
    out: &mut Vec<u8>,
    alloc: Global,
    logs: &[&[u8]],
    each: &[SkippedLines],
) -> Result<(), AllocError>
    ensures { OnOk result (out.new.items ≡ out.old.items ++ json_each_of (map (λ log. log.now) logs.now) each.now) }
{
    push_next_key(out, "skipped_lines")?;
    push_each_listed(out, alloc, logs, each)
}

/// Appends the member of each line that asks nothing, where these are wanted.
fn push_each(
    out: &mut Vec<u8>,
    alloc: Global,
    logs: &[&[u8]],
    each: &Option<Vec<SkippedLines>>,
) -> Result<(), AllocError>
    ensures { OnOk result (out.new.items ≡ out.old.items ++ json_each (map (λ log. log.now) logs.now) each.now) }
{
    match each {
        Some(each) => push_each_of(out, alloc, logs, each.as_slice()),
        None => Ok(()),
    }
}

/// Appends how many lines aren't understood, and where the first is.
#[tactic(auto, unfolding(crate::specs::Listed::json_unclear))]
fn push_json_unclear(
    out: &mut Vec<u8>,
    alloc: Global,
    logs: &[&[u8]],
    count: u64,
    first: &LinePlace,
) -> Result<(), AllocError>
    ensures { OnOk result (out.new.items ≡ out.old.items ++ json_unclear (map (λ log. log.now) logs.now) count first.now) }
{
    push_text(out, "{")?;
    push_key(out, "count")?;
    push_number(out, count)?;
    push_place_members(out, alloc, logs, first)?;
    push_text(out, "}")
}

/// Appends the member of the lines that aren't understood.
#[tactic(auto, unfolding(aa_text::specs::Jsons::member_text))]
fn push_unclear_of(
    out: &mut Vec<u8>,
    alloc: Global,
    logs: &[&[u8]],
    count: u64,
    first: &LinePlace,
) -> Result<(), AllocError>
    ensures { OnOk result (out.new.items ≡ out.old.items ++ member_text (codes "unclear") (json_unclear (map (λ log. log.now) logs.now) count first.now)) }
{
    push_next_key(out, "unclear")?;
    push_json_unclear(out, alloc, logs, count, first)
}

/// Appends that member, where there are some.
fn push_unclear_member(
    out: &mut Vec<u8>,
    alloc: Global,
    logs: &[&[u8]],
    said: &SaidReport<'_>,
) -> Result<(), AllocError>
    ensures { OnOk result (out.new.items ≡ out.old.items ++ unclear_member (map (λ log. log.now) logs.now) said.now.unclear said.now.first_unclear) }
{
    match &said.first_unclear {
        Some(first) => push_unclear_of(out, alloc, logs, said.unclear, first),
        None => Ok(()),
    }
}

/// Appends the counts of all, and the end of the object and of the line.
#[tactic(auto, unfolding(crate::specs::Listed::json_totals))]
fn push_json_totals(
    out: &mut Vec<u8>,
    alloc: Global,
    logs: &[&[u8]],
    said: &SaidReport<'_>,
) -> Result<(), AllocError>
    ensures { OnOk result (out.new.items ≡ out.old.items ++ json_totals (map (λ log. log.now) logs.now) said.now) }
{
    push_member(out, alloc, "lines", &said.report.lines)?;
    push_member(out, alloc, "asking", &said.report.requests)?;
    push_member(out, alloc, "other", &said.report.other)?;
    push_member_if(out, alloc, "left_out", &said.report.left_out)?;
    push_unclear_member(out, alloc, logs, said)?;
    push_text(out, "}\n")
}

/// Appends which lines ask nothing, the counts of all, and the end of the object and of the line.
pub fn push_json_rest(
    out: &mut Vec<u8>,
    alloc: Global,
    logs: &[&[u8]],
    reasons: &[&SkippedLines],
    said: &SaidReport<'_>,
) -> Result<(), AllocError>
    ensures { OnOk result (out.new.items ≡ out.old.items ++ json_rest (map (λ log. log.now) logs.now) (map (λ s. s.now) reasons.now) said.now) }
{
    push_by_reason(out, alloc, logs, reasons)?;
    push_each(out, alloc, logs, &said.report.each_skipped)?;
    push_json_totals(out, alloc, logs, said)
}

/// Appends requests as a list.
fn push_entry_objects(
    out: &mut Vec<u8>,
    alloc: Global,
    logs: &[&[u8]],
    entries: &[&Entry],
) -> Result<(), AllocError>
    ensures { OnOk result (out.new.items ≡ out.old.items ++ entries_list (map (λ log. log.now) logs.now) (map (λ e. e.now) entries.now)) }
{
    push_list_in(out, alloc, &logs, entries)?;
    Ok(())
}

/// Opens the object, and appends the member of the requests.
#[tactic(auto, unfolding(crate::specs::Listed::json_requests))]
fn push_requests(
    out: &mut Vec<u8>,
    alloc: Global,
    logs: &[&[u8]],
    entries: &[&Entry],
) -> Result<(), AllocError>
    ensures { OnOk result (out.new.items ≡ out.old.items ++ json_requests (map (λ log. log.now) logs.now) (map (λ e. e.now) entries.now)) }
{
    push_text(out, "{")?;
    push_key(out, "requests")?;
    push_entry_objects(out, alloc, logs, entries)
}

/// Appends requests and reasons as they stand here, and the counts of all, as one JSON object and a line end.
fn push_json_found(
    out: &mut Vec<u8>,
    alloc: Global,
    logs: &[&[u8]],
    entries: &[&Entry],
    reasons: &[&SkippedLines],
    said: &SaidReport<'_>,
) -> Result<(), AllocError>
    ensures { OnOk result (out.new.items ≡ out.old.items ++ (json_requests (map (λ log. log.now) logs.now) (map (λ e. e.now) entries.now) ++ json_rest (map (λ log. log.now) logs.now) (map (λ s. s.now) reasons.now) said.now)) }
{
    push_requests(out, alloc, logs, entries)?;
    push_json_rest(out, alloc, logs, reasons, said)
}

/// Appends what the logs' lines ask, and what they don't, as one JSON object and a line end.
pub fn push_json_report(
    out: &mut Vec<u8>,
    alloc: Global,
    logs: &[&[u8]],
    said: &SaidReport<'_>,
) -> Result<(), AllocError>
    ensures { OnOk result ((text : List ℕ) × IsJsonReport (map (λ log. log.now) logs.now) said.now text × (out.new.items ≡ out.old.items ++ text)) }
{
    let entries = said.report.in_order(alloc)?;
    let reasons = said.report.reasons_in_order(alloc)?;
    let listed = entries.as_slice();
    let causes = reasons.as_slice();
    push_json_found(out, alloc, logs, listed, causes, said)?;
    Ok(())
}
