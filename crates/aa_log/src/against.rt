//! How a policy answers now what logs say.

ghost use Rattle.std.specs.Prelude.{ℕ, ◌≡◌, ◌++◌, ◌||◌, true, false, List, [], map, option_map, OnOk, IfOk};
ghost use Rattle.aa_text.specs.Jsons.{with_commas, more_of};
ghost use Rattle.aa_logs.specs.Answers.{changes};
ghost use Rattle.aa_ask.specs.Told.{told};
ghost use Rattle.aa_log.specs.declared.logging.Entry.{Entry};
ghost use Rattle.aa_log.specs.Orders.{profile_of, IsInOrder};
ghost use Rattle.aa_log.specs.Printed.{arrow_text, each_skipped_text};
ghost use Rattle.aa_log.specs.Commas.{is_some_of};
ghost use Rattle.aa_log.specs.Against.{now_of, verdict_of, IsNewlyDenied, AreCounted, reasons_if, change_text, shown_text, changes_text, IsAgainstText, cell_line, row_text, rows_text, json_count, json_cell, json_row, json_cells, json_why, json_change, json_shown, json_changes, json_answers, IsJsonAgainst};

use crate::listed::{push_entry_members, push_json_rest, push_word_member};
use crate::logging::{Entry, LogReport};
use crate::printing::{push_rest, push_skipped_lines};
use crate::said::SaidReport;
use aa_ask::{Verdict, decide, push_reasons};
use aa_command::Decided;
use aa_compile::label_of;
use aa_logs::{Counts, Now, Then, answered, is_change, now_name, then_name};
use aa_text::{push_comma, push_member, push_number, push_text};
use std::alloc::{AllocError, Global};

fn push_arrow(out: &mut Vec<u8>, then: Then, now: Now) -> Result<(), AllocError>
    ensures { OnOk result (out.new.items ≡ out.old.items ++ arrow_text then now) }
{
    push_text(out, then_name(then))?;
    push_text(out, " -> ")?;
    push_text(out, now_name(now))
}

/// What a request of a log is answered now at its own profile, by itself, and why; no reasons where no profile has that name.
fn answer_now(
    alloc: Global,
    decided: Decided<'_>,
    entry: &Entry,
) -> Result<(Now, Option<Verdict>), AllocError>
    ensures now { IfOk result (λ r. r.0 ≡ now_of decided.entry entry.now) }
    ensures why { IfOk result (λ r. option_map told r.1 ≡ verdict_of decided.entry entry.now) }
{
    match label_of(decided.policies, 0, entry.profile.as_slice()) {
        Some(opening) => {
            let mut label = opening;
            let verdict = decide(alloc, decided, &mut label, &entry.request)?;
            Ok((answered(verdict.granted, verdict.complain), Some(verdict)))
        }
        None => Ok((Now::NoProfile, None)),
    }
}

/// Appends why a request is answered so, where there is a profile that answers it.
fn push_why(out: &mut Vec<u8>, verdict: &Option<Verdict>) -> Result<(), AllocError>
    ensures { OnOk result (out.new.items ≡ out.old.items ++ reasons_if (option_map told verdict.now)) }
{
    match verdict {
        Some(verdict) => push_reasons(out, verdict),
        None => Ok(()),
    }
}

#[tactic(auto, unfolding(crate::specs::Against::change_text))]
fn push_change(
    out: &mut Vec<u8>,
    alloc: Global,
    logs: &[&[u8]],
    entry: &Entry,
    now: Now,
    verdict: &Option<Verdict>,
) -> Result<(), AllocError>
    ensures { OnOk result (out.new.items ≡ out.old.items ++ change_text (map (λ log. log.now) logs.now) entry.now now (option_map told verdict.now)) }
{
    push_arrow(out, entry.then, now)?;
    push_rest(out, alloc, logs, entry)?;
    push_why(out, verdict)
}

/// Whether a request is shown that is answered so now.
fn is_shown(wants_all: bool, then: Then, now: Now) -> bool
    ensures { result ≡ (wants_all || changes then now) }
{
    wants_all || is_change(then, now)
}

/// Appends a request with its answers, where it is shown, and gives what it is answered now.
#[tactic(auto, unfolding(crate::specs::Against::shown_text))]
fn push_shown(
    out: &mut Vec<u8>,
    alloc: Global,
    logs: &[&[u8]],
    decided: Decided<'_>,
    wants_all: bool,
    entry: &Entry,
) -> Result<Now, AllocError>
    ensures now { IfOk result (λ now. now ≡ now_of decided.entry entry.now) }
    ensures text { OnOk result (out.new.items ≡ out.old.items ++ shown_text (map (λ log. log.now) logs.now) decided.entry wants_all entry.now) }
{
    let (now, verdict) = answer_now(alloc, decided, entry)?;
    if is_shown(wants_all, entry.then, now) {
        push_change(out, alloc, logs, entry, now, &verdict)?;
    }
    Ok(now)
}

/// Appends the requests that are shown, and counts the answers of all.
#[tactic(auto, unfolding(crate::specs::Against::changes_text))]
pub fn push_all_shown(
    out: &mut Vec<u8>,
    alloc: Global,
    logs: &[&[u8]],
    decided: Decided<'_>,
    wants_all: bool,
    entries: &[&Entry],
) -> Result<Counts, AllocError>
    ensures newly { IfOk result (λ counts. IsNewlyDenied decided.entry (map (λ e. e.now) entries.now) counts) }
    ensures counted { IfOk result (λ counts. AreCounted decided.entry (map (λ e. e.now) entries.now) counts) }
    ensures text { OnOk result (out.new.items ≡ out.old.items ++ changes_text (map (λ log. log.now) logs.now) decided.entry wants_all (map (λ e. e.now) entries.now)) }
{
    let mut counts = Counts::none();
    for entry in entries {
        let answer = push_shown(out, alloc, logs, decided, wants_all, entry)?;
        counts.add(entry.then, answer);
    }
    Ok(counts)
}

#[tactic(auto, unfolding(crate::specs::Against::cell_line))]
fn push_count(out: &mut Vec<u8>, counts: &Counts, then: Then, now: Now) -> Result<(), AllocError>
    ensures { OnOk result (out.new.items ≡ out.old.items ++ cell_line counts.now then now) }
{
    let count = counts.count(then, now);
    if count == 0 {
        return Ok(());
    }
    push_arrow(out, then, now)?;
    push_text(out, " ")?;
    push_number(out, count)?;
    push_text(out, "\n")
}

#[tactic(auto, unfolding(crate::specs::Against::row_text))]
fn push_row(out: &mut Vec<u8>, counts: &Counts, then: Then) -> Result<(), AllocError>
    ensures { OnOk result (out.new.items ≡ out.old.items ++ row_text counts.now then) }
{
    push_count(out, counts, then, Now::Denied)?;
    push_count(out, counts, then, Now::Allowed)?;
    push_count(out, counts, then, Now::Granted)?;
    push_count(out, counts, then, Now::NoProfile)
}

/// Appends how many requests have which answers.
#[tactic(auto, unfolding(crate::specs::Against::rows_text))]
pub fn push_counts(out: &mut Vec<u8>, counts: &Counts) -> Result<(), AllocError>
    ensures { OnOk result (out.new.items ≡ out.old.items ++ rows_text counts.now) }
{
    push_row(out, counts, Then::Denied)?;
    push_row(out, counts, Then::Allowed)?;
    push_row(out, counts, Then::Granted)
}

/// Appends of requests as they stand here those that are shown, the skipped lines where they are wanted, and how many each answer has.
fn push_found(
    out: &mut Vec<u8>,
    alloc: Global,
    logs: &[&[u8]],
    report: &LogReport<'_>,
    decided: Decided<'_>,
    wants_all: bool,
    entries: &[&Entry],
) -> Result<Counts, AllocError>
    ensures newly { IfOk result (λ counts. IsNewlyDenied decided.entry (map (λ e. e.now) entries.now) counts) }
    ensures counted { IfOk result (λ counts. AreCounted decided.entry (map (λ e. e.now) entries.now) counts) }
    ensures text { IfOk result (λ counts. out.new.items ≡ out.old.items ++ (changes_text (map (λ log. log.now) logs.now) decided.entry wants_all (map (λ e. e.now) entries.now) ++ each_skipped_text (map (λ log. log.now) logs.now) report.now ++ rows_text counts)) }
{
    let counts = push_all_shown(out, alloc, logs, decided, wants_all, entries)?;
    push_skipped_lines(out, logs, report)?;
    push_counts(out, &counts)?;
    Ok(counts)
}

/// Appends which requests of the logs are answered otherwise now, with the rules that decide, the skipped lines where they are
/// wanted, and how many each answer has.
pub fn push_against(
    out: &mut Vec<u8>,
    alloc: Global,
    logs: &[&[u8]],
    report: &LogReport<'_>,
    decided: Decided<'_>,
    wants_all: bool,
) -> Result<Counts, AllocError>
    ensures { IfOk result (λ counts. (text : List ℕ) × IsAgainstText (map (λ log. log.now) logs.now) decided.entry wants_all report.now counts text × (out.new.items ≡ out.old.items ++ text)) }
{
    let entries = report.in_order(alloc)?;
    let listed = entries.as_slice();
    let counts = push_found(out, alloc, logs, report, decided, wants_all, listed)?;
    Ok(counts)
}

/// Appends the member of why a request is answered so, where there is a profile that answers it.
fn push_json_why(
    out: &mut Vec<u8>,
    alloc: Global,
    verdict: &Option<Verdict>,
) -> Result<(), AllocError>
    ensures { OnOk result (out.new.items ≡ out.old.items ++ json_why (option_map told verdict.now)) }
{
    let Some(verdict) = verdict else {
        return Ok(());
    };
    push_member(out, alloc, "answer", verdict)
}

#[tactic(auto, unfolding(crate::specs::Against::json_change))]
fn push_json_change(
    out: &mut Vec<u8>,
    alloc: Global,
    logs: &[&[u8]],
    entry: &Entry,
    now: Now,
    verdict: &Option<Verdict>,
) -> Result<(), AllocError>
    ensures { OnOk result (out.new.items ≡ out.old.items ++ json_change (map (λ log. log.now) logs.now) entry.now now (option_map told verdict.now)) }
{
    push_text(out, "{")?;
    push_entry_members(out, alloc, logs, entry)?;
    push_comma(out, true)?;
    push_word_member(out, "now", now_name(now))?;
    push_json_why(out, alloc, verdict)?;
    push_text(out, "}")
}

/// Appends a request with its answers, where it is shown, behind a comma if one stands before, and gives what it is answered now.
fn push_json_shown(
    out: &mut Vec<u8>,
    alloc: Global,
    logs: &[&[u8]],
    decided: Decided<'_>,
    wants_all: bool,
    is_later: bool,
    entry: &Entry,
) -> Result<Now, AllocError>
    ensures now { IfOk result (λ now. now ≡ now_of decided.entry entry.now) }
    ensures text { OnOk result (out.new.items ≡ out.old.items ++ more_of is_later (json_shown (map (λ log. log.now) logs.now) decided.entry wants_all entry.now)) }
{
    let (now, verdict) = answer_now(alloc, decided, entry)?;
    if is_shown(wants_all, entry.then, now) {
        push_comma(out, is_later)?;
        push_json_change(out, alloc, logs, entry, now, &verdict)?;
    }
    Ok(now)
}

/// Appends the requests that are shown with a comma between two of them, and counts the answers of all.
fn push_json_all_shown(
    out: &mut Vec<u8>,
    alloc: Global,
    logs: &[&[u8]],
    decided: Decided<'_>,
    wants_all: bool,
    entries: &[&Entry],
) -> Result<Counts, AllocError>
    ensures newly { IfOk result (λ counts. IsNewlyDenied decided.entry (map (λ e. e.now) entries.now) counts) }
    ensures counted { IfOk result (λ counts. AreCounted decided.entry (map (λ e. e.now) entries.now) counts) }
    ensures text { OnOk result (out.new.items ≡ out.old.items ++ with_commas (json_changes (map (λ log. log.now) logs.now) decided.entry wants_all (map (λ e. e.now) entries.now))) }
{
    let mut counts = Counts::none();
    let mut is_later = false;
    for entry in entries {
        let now = push_json_shown(out, alloc, logs, decided, wants_all, is_later, entry)?;
        counts.add(entry.then, now);
        is_later = is_later || is_shown(wants_all, entry.then, now);
    }
    Ok(counts)
}

#[tactic(auto, unfolding(crate::specs::Against::json_count))]
fn push_json_number(
    out: &mut Vec<u8>,
    alloc: Global,
    then: Then,
    now: Now,
    count: u64,
) -> Result<(), AllocError>
    ensures { OnOk result (out.new.items ≡ out.old.items ++ json_count then now count) }
{
    push_text(out, "{")?;
    push_word_member(out, "then", then_name(then))?;
    push_comma(out, true)?;
    push_word_member(out, "now", now_name(now))?;
    push_member(out, alloc, "count", &count)?;
    push_text(out, "}")
}

/// Appends a count as a JSON object, unless it is 0, and gives whether one stands there now.
fn push_json_count(
    out: &mut Vec<u8>,
    alloc: Global,
    counts: &Counts,
    then: Then,
    now: Now,
    is_later: bool,
) -> Result<bool, AllocError>
    ensures later { IfOk result (λ later. later ≡ (is_later || is_some_of (json_cell counts.now then now))) }
    ensures text { OnOk result (out.new.items ≡ out.old.items ++ more_of is_later (json_cell counts.now then now)) }
{
    let count = counts.count(then, now);
    if count == 0 {
        return Ok(is_later);
    }
    push_comma(out, is_later)?;
    push_json_number(out, alloc, then, now, count)?;
    Ok(true)
}

fn push_json_row(
    out: &mut Vec<u8>,
    alloc: Global,
    counts: &Counts,
    then: Then,
    is_later: bool,
) -> Result<bool, AllocError>
    ensures later { IfOk result (λ later. later ≡ (is_later || is_some_of (json_row counts.now then))) }
    ensures text { OnOk result (out.new.items ≡ out.old.items ++ more_of is_later (json_row counts.now then)) }
{
    let first = push_json_count(out, alloc, counts, then, Now::Denied, is_later)?;
    let second = push_json_count(out, alloc, counts, then, Now::Allowed, first)?;
    let third = push_json_count(out, alloc, counts, then, Now::Granted, second)?;
    let last = push_json_count(out, alloc, counts, then, Now::NoProfile, third)?;
    Ok(last)
}

fn push_json_counts(out: &mut Vec<u8>, alloc: Global, counts: &Counts) -> Result<(), AllocError>
    ensures { OnOk result (out.new.items ≡ out.old.items ++ with_commas (json_cells counts.now)) }
{
    let first = push_json_row(out, alloc, counts, Then::Denied, false)?;
    let second = push_json_row(out, alloc, counts, Then::Allowed, first)?;
    let _ = push_json_row(out, alloc, counts, Then::Granted, second)?;
    Ok(())
}

/// Appends the members of the requests that are shown, as they stand here, and of how many each answer has.
#[tactic(auto, unfolding(crate::specs::Against::json_answers))]
pub fn push_json_answers(
    out: &mut Vec<u8>,
    alloc: Global,
    logs: &[&[u8]],
    decided: Decided<'_>,
    wants_all: bool,
    entries: &[&Entry],
) -> Result<Counts, AllocError>
    ensures newly { IfOk result (λ counts. IsNewlyDenied decided.entry (map (λ e. e.now) entries.now) counts) }
    ensures counted { IfOk result (λ counts. AreCounted decided.entry (map (λ e. e.now) entries.now) counts) }
    ensures text { IfOk result (λ counts. out.new.items ≡ out.old.items ++ json_answers (map (λ log. log.now) logs.now) decided.entry wants_all (map (λ e. e.now) entries.now) counts) }
{
    push_text(out, "{\"requests\":[")?;
    let counts = push_json_all_shown(out, alloc, logs, decided, wants_all, entries)?;
    push_text(out, "],\"counts\":[")?;
    push_json_counts(out, alloc, &counts)?;
    push_text(out, "]")?;
    Ok(counts)
}

/// Appends the same as one JSON object and a line end.
pub fn push_json_against(
    out: &mut Vec<u8>,
    alloc: Global,
    logs: &[&[u8]],
    said: &SaidReport<'_>,
    decided: Decided<'_>,
    wants_all: bool,
) -> Result<Counts, AllocError>
    ensures { IfOk result (λ counts. (text : List ℕ) × IsJsonAgainst (map (λ log. log.now) logs.now) decided.entry wants_all said.now counts text × (out.new.items ≡ out.old.items ++ text)) }
{
    let entries = said.report.in_order(alloc)?;
    let reasons = said.report.reasons_in_order(alloc)?;
    let listed = entries.as_slice();
    let causes = reasons.as_slice();
    let counts = push_json_answers(out, alloc, logs, decided, wants_all, listed)?;
    push_json_rest(out, alloc, logs, causes, said)?;
    Ok(counts)
}
