//! What `log --against` prints where files that are refused are skipped.

ghost use Rattle.std.specs.Prelude.{◌≡◌, ◌++◌, ℕ, List, [], map, IfOk};
ghost use Rattle.aa_files.specs.Texts.{slices};
ghost use Rattle.aa_command.specs.Setting.{setting_of};
ghost use Rattle.aa_command.specs.Printed.{printed};
ghost use Rattle.aa_logs.specs.declared.counts.Counts.{Counts};
ghost use Rattle.aa_against.specs.Parted.{OpenData, open_data};
ghost use Rattle.aa_against.specs.Texts.{IsPartText, IsJsonPart};
ghost use Rattle.aa_against.specs.Command.{IsPartSaid, open_status, part_status, IsPartReplayed, IsPartAgainst, IsPartLog};

use crate::jsons::push_json_part;
use crate::parting::{Open, part};
use crate::printing::push_part;
use aa_command::{Decided, Logs, Output, Settings};
use aa_files::Tree;
use aa_log::{LogOptions, SaidReport, log_refused, push_unclear, read_reports, status_or};
use aa_logs::Counts;
use aa_skipped::{Skipped, UsePart, with_read_policy};
use aa_text::NoMemory;
use std::alloc::{AllocError, Global};

/// The exit status.
fn status_of(counts: &Counts, opens: &[Open<'_>]) -> u8
    ensures { result ≡ part_status counts.now (map open_data opens.now) }
{
    if counts.has_newly_denied() {
        return 4;
    }
    match opens {
        [] => 0,
        [_, ..] => 5,
    }
}

/// Appends what is found in logs as text, and gives the status.
fn push_as_text(
    out: &mut Vec<u8>,
    alloc: Global,
    options: &LogOptions<'_>,
    said: &SaidReport<'_>,
    skipped: &[Skipped],
    decided: Decided<'_>,
) -> Result<u8, AllocError>
    ensures { IfOk result (λ status. (counts : Counts) × (opens : List OpenData) × (text : List ℕ)
        × IsPartText (slices options.now.logs.now) decided.entry skipped.now options.now.wants_all said.now.report counts opens text
        × (out.new.items ≡ out.old.items ++ text) × (status ≡ part_status counts opens)) }
{
    let all = options.wants_all;
    let entries = said.report.in_order(alloc)?;
    let parted = part(alloc, decided, skipped, entries.as_slice())?;
    let counts = push_part(
        out,
        alloc,
        options.logs,
        &said.report,
        decided,
        all,
        &parted,
    )?;
    Ok(status_of(&counts, parted.opens.as_slice()))
}

/// Appends it as JSON.
fn push_as_json(
    out: &mut Vec<u8>,
    alloc: Global,
    options: &LogOptions<'_>,
    said: &SaidReport<'_>,
    skipped: &[Skipped],
    decided: Decided<'_>,
) -> Result<u8, AllocError>
    ensures { IfOk result (λ status. (counts : Counts) × (opens : List OpenData) × (text : List ℕ)
        × IsJsonPart (slices options.now.logs.now) decided.entry skipped.now options.now.wants_all said.now counts opens text
        × (out.new.items ≡ out.old.items ++ text) × (status ≡ part_status counts opens)) }
{
    let all = options.wants_all;
    let entries = said.report.in_order(alloc)?;
    let reasons = said.report.reasons_in_order(alloc)?;
    let causes = reasons.as_slice();
    let parted = part(alloc, decided, skipped, entries.as_slice())?;
    let counts = push_json_part(
        out,
        alloc,
        options.logs,
        said,
        decided,
        all,
        &parted,
        causes,
    )?;
    Ok(status_of(&counts, parted.opens.as_slice()))
}

/// Appends it as it is wanted.
fn push_said(
    out: &mut Vec<u8>,
    alloc: Global,
    options: &LogOptions<'_>,
    said: &SaidReport<'_>,
    skipped: &[Skipped],
    decided: Decided<'_>,
) -> Result<u8, AllocError>
    ensures { IfOk result (λ status. (counts : Counts) × (opens : List OpenData) × (text : List ℕ) × IsPartSaid options.now said.now skipped.now decided.entry counts opens text
        × (out.old.items ≡ [] → out.new.items ≡ text) × (status ≡ part_status counts opens)) }
{
    if options.is_json {
        return push_as_json(out, alloc, options, said, skipped, decided);
    }
    push_as_text(out, alloc, options, said, skipped, decided)
}

/// Answers what logs ask by the policy of the files that aren't skipped.
#[derive(Drop)]
struct Replaying<'a> {
    options: &'a LogOptions<'a>,
    said: &'a SaidReport<'a>,
}

impl UsePart for Replaying<'_> {
    ghost gives = { λ r skipped d out. IsPartReplayed r.options.now r.said.now skipped d out };

    fn use_part(
        &self,
        alloc: Global,
        skipped: &[Skipped],
        decided: Decided<'_>,
    ) -> Result<Output, NoMemory> {
        let mut output = Output::new(alloc);
        push_unclear(&mut output.faults, self.options.logs, self.said)?;
        let (options, said) = (self.options, self.said);
        let answers = &mut output.answers;
        let status = push_said(answers, alloc, options, said, skipped, decided)?;
        output.status = status_or(self.said, status);
        Ok(output)
    }
}

fn replay<T: Tree>(
    alloc: Global,
    tree: &T,
    settings: &Settings<'_>,
    options: &LogOptions<'_>,
    said: &SaidReport<'_>,
) -> Result<Output, NoMemory>
    ensures { IfOk result (λ out. IsPartAgainst (setting_of (T.files tree.now) (T.taken tree.now) (T.input tree.now) settings.now) options.now said.now (printed out)) }
{
    let replaying = Replaying { options, said };
    with_read_policy(alloc, tree, settings, options.against, &replaying)
}

/// Says how what the lines of logs ask is answered now by the one policy that those of the files are that aren't refused. The others are
/// skipped; a request is undecided where their profiles could change the answer.
pub fn log_skipping<T: Tree, R: Logs>(
    alloc: Global,
    tree: &T,
    reader: &R,
    settings: &Settings<'_>,
    options: &LogOptions<'_>,
) -> Result<Output, NoMemory>
    ensures { IfOk result (λ out. IsPartLog (setting_of (T.files tree.now) (T.taken tree.now) (T.input tree.now) settings.now) (R.lying reader.now) options.now (printed out)) }
{
    let mut said = SaidReport::new(alloc, options.choice, options.wants_skipped);
    match read_reports(alloc, reader, options.logs, &mut said) {
        Ok(()) => replay(alloc, tree, settings, options, &said),
        Err(unread) => log_refused(alloc, unread.path, unread.why),
    }
}
