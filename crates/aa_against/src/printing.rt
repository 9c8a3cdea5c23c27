//! How requests of logs are answered now where files are skipped, as text.

ghost use Rattle.std.specs.Prelude.{◌≡◌, ◌++◌, codes, count_by, flat_map, map, OnOk, IfOk};
ghost use Rattle.aa_log.specs.declared.logging.Entry.{Entry};
ghost use Rattle.aa_logs.specs.Answers.{row_of};
ghost use Rattle.aa_log.specs.Against.{IsNewlyDenied, AreCounted, changes_text};
ghost use Rattle.aa_against.specs.Parted.{open_data, decided_among, open_among};
ghost use Rattle.aa_against.specs.Texts.{open_arrow, open_text, became, open_line, open_row, open_rows, ends_text, part_text};

use crate::parting::{Open, Parted};
use aa_command::Decided;
use aa_log::{Entry, LogReport, push_all_shown, push_counts, push_rest, push_skipped_lines};
use aa_logs::{Counts, Then, then_name};
use aa_text::{push_number, push_text};
use aa_undecided::push_reason;
use std::alloc::{AllocError, Global};

#[tactic(auto, unfolding(crate::specs::Texts::open_arrow))]
fn push_arrow(out: &mut Vec<u8>, then: Then) -> Result<(), AllocError>
    ensures { OnOk result (out.new.items ≡ out.old.items ++ open_arrow then) }
{
    push_text(out, then_name(then))?;
    push_text(out, " -> UNDECIDED")
}

#[tactic(auto, unfolding(crate::specs::Texts::open_text))]
fn push_open(
    out: &mut Vec<u8>,
    alloc: Global,
    logs: &[&[u8]],
    one: &Open<'_>,
) -> Result<(), AllocError>
    ensures { OnOk result (out.new.items ≡ out.old.items ++ open_text (map (λ log. log.now) logs.now) (open_data one.now)) }
{
    push_arrow(out, one.entry.then)?;
    push_rest(out, alloc, logs, one.entry)?;
    push_reason(out, one.files.as_slice())
}

fn push_opens(
    out: &mut Vec<u8>,
    alloc: Global,
    logs: &[&[u8]],
    opens: &[Open<'_>],
) -> Result<(), AllocError>
    ensures { OnOk result (out.new.items ≡ out.old.items ++ flat_map (open_text (map (λ log. log.now) logs.now)) (map open_data opens.now)) }
{
    for one in opens {
        push_open(out, alloc, logs, one)?;
    }
    Ok(())
}

fn row_of(then: Then) -> usize
    ensures { result ≡ row_of then }
{
    match then {
        Then::Denied => 0,
        Then::Allowed => 1,
        Then::Granted => 2,
    }
}

fn became(then: Then, one: &Open<'_>) -> bool
    ensures { result ≡ became then (open_data one.now) }
{
    row_of(then) == row_of(one.entry.then)
}

fn count_of(opens: &[Open<'_>], then: Then) -> usize
    ensures { result ≡ count_by (λ o. became then (open_data o)) opens.now }
{
    opens.iter().filter(|one| became(then, one)).count()
}

fn push_line(out: &mut Vec<u8>, then: Then, count: usize) -> Result<(), AllocError>
    ensures { OnOk result (out.new.items ≡ out.old.items ++ open_line then count) }
{
    if count == 0 {
        return Ok(());
    }
    push_arrow(out, then)?;
    push_text(out, " ")?;
    push_number(out, count)?;
    push_text(out, "\n")
}

#[tactic(auto, unfolding(crate::specs::Texts::open_row))]
fn push_row(out: &mut Vec<u8>, opens: &[Open<'_>], then: Then) -> Result<(), AllocError>
    ensures { OnOk result (out.new.items ≡ out.old.items ++ open_row (map open_data opens.now) then) }
{
    push_line(out, then, count_of(opens, then))
}

#[tactic(auto, unfolding(crate::specs::Texts::open_rows))]
fn push_rows(out: &mut Vec<u8>, opens: &[Open<'_>]) -> Result<(), AllocError>
    ensures { OnOk result (out.new.items ≡ out.old.items ++ open_rows (map open_data opens.now)) }
{
    push_row(out, opens, Then::Denied)?;
    push_row(out, opens, Then::Allowed)?;
    push_row(out, opens, Then::Granted)
}

#[tactic(auto, unfolding(crate::specs::Texts::ends_text))]
fn push_ends(
    out: &mut Vec<u8>,
    logs: &[&[u8]],
    report: &LogReport<'_>,
    counts: &Counts,
    opens: &[Open<'_>],
) -> Result<(), AllocError>
    ensures { OnOk result (out.new.items ≡ out.old.items ++ ends_text (map (λ log. log.now) logs.now) report.now counts.now (map open_data opens.now)) }
{
    push_skipped_lines(out, logs, report)?;
    push_counts(out, counts)?;
    push_rows(out, opens)
}

/// Appends of requests that are parted those that are decided and shown, the others, the skipped lines where they are wanted, and how many
/// have which answers.
pub(crate) fn push_part(
    out: &mut Vec<u8>,
    alloc: Global,
    logs: &[&[u8]],
    report: &LogReport<'_>,
    decided: Decided<'_>,
    wants_all: bool,
    parted: &Parted<'_>,
) -> Result<Counts, AllocError>
    ensures newly { IfOk result (λ counts. IsNewlyDenied decided.entry (map (λ e. e.now) parted.now.decided.items) counts) }
    ensures counted { IfOk result (λ counts. AreCounted decided.entry (map (λ e. e.now) parted.now.decided.items) counts) }
    ensures text { IfOk result (λ counts. out.new.items ≡ out.old.items ++ (changes_text (map (λ log. log.now) logs.now) decided.entry wants_all (map (λ e. e.now) parted.now.decided.items)
        ++ flat_map (open_text (map (λ log. log.now) logs.now)) (map open_data parted.now.opens.items) ++ ends_text (map (λ log. log.now) logs.now) report.now counts (map open_data parted.now.opens.items))) }
{
    let entries = parted.decided.as_slice();
    let opens = parted.opens.as_slice();
    let counts = push_all_shown(out, alloc, logs, decided, wants_all, entries)?;
    push_opens(out, alloc, logs, opens)?;
    push_ends(out, logs, report, &counts, opens)?;
    Ok(counts)
}
