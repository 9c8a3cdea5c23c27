//! What `log` prints.

ghost use Rattle.std.specs.Prelude.{◌≡◌, ◌≢◌, true, false, ℕ, ◌++◌, List, [], Some, is_some, OnOk, IfOk, IfErr, IfSome, if◌then◌else◌};
ghost use Rattle.aa_files.specs.Texts.{slices};
ghost use Rattle.aa_logs.specs.LogLines.{LogLine, log_lines};
ghost use Rattle.aa_log.specs.Said.{HasSaidTheSame, IsSaid, status_or};
ghost use Rattle.aa_command.specs.Setting.{setting_of};
ghost use Rattle.aa_command.specs.Printed.{printed};
ghost use Rattle.aa_log.specs.Command.{said_printed, IsFoundIn, IsFirstUnreadLog, IsLogText, IsReplayText, IsReplayed, IsReportOutput, IsLogOutput};

use crate::against::{push_against, push_json_against};
use crate::listed::push_json_report;
use crate::printing::push_report;
use crate::refused::log_refused;
use crate::said::SaidReport;
use crate::warned::push_unclear;
use aa_base::Unread;
use aa_command::{Decided, Logs, Output, Settings, UnreadLog, Use, with_policy};
use aa_files::Tree;
use aa_logs::{Choice, Counts};
use aa_text::NoMemory;
use std::alloc::{AllocError, Global};

/// Which logs are read, against which files, and how what is found is printed.
#[derive(Clone, Copy)]
pub struct LogOptions<'a> {
    pub logs: &'a [&'a [u8]],
    pub choice: Choice<'a>,
    /// Whether the place of each line that is skipped is printed.
    pub wants_skipped: bool,
    /// The files whose profiles answer now what was asked; none where what the log says is printed as it stands.
    pub against: &'a [Vec<u8>],
    /// Whether what stays is printed too.
    pub wants_all: bool,
    pub is_json: bool,
}

/// Reads a log as the one of that number.
fn read_report<R: Logs>(
    alloc: Global,
    reader: &R,
    number: usize,
    path: &[u8],
    said: &mut SaidReport<'_>,
) -> Result<(), Unread>
    ensures taken { OnOk result (IfSome (R.lying reader.now) (λ files. (bytes : List ℕ) × (files path.now ≡ Some bytes)
        × ((before : List LogLine) → IsSaid before said.old → IsSaid (before ++ log_lines number bytes) said.new))) }
    ensures keeps { OnOk result (HasSaidTheSame said.old said.new) }
{
    said.report.log = number;
    reader.read_lines(alloc, path, said)
}

/// Reads logs one after another.
pub fn read_reports<'a, R: Logs>(
    alloc: Global,
    reader: &R,
    logs: &'a [&'a [u8]],
    said: &mut SaidReport<'_>,
) -> Result<(), UnreadLog<'a>>
    requires { IsSaid [] said.old }
    ensures found { OnOk result (IsFoundIn (R.lying reader.now) said.old.report.choice (is_some said.old.report.each_skipped) (slices logs.now) said.new) }
    ensures unread { IfErr result (λ unread. IsFirstUnreadLog (R.lying reader.now) said.old.report.choice (is_some said.old.report.each_skipped) (slices logs.now) unread.path.now) }
{
    let mut number: usize = 0;
    for path in logs {
        match read_report(alloc, reader, number, path, said) {
            Ok(()) => number += 1,
            Err(why) => return Err(UnreadLog { path, why }),
        }
    }
    Ok(())
}

fn push_said(
    out: &mut Vec<u8>,
    alloc: Global,
    options: &LogOptions<'_>,
    said: &SaidReport<'_>,
) -> Result<(), AllocError>
    ensures { OnOk result ((text : List ℕ) × IsLogText options.now said.now text × (out.new.items ≡ out.old.items ++ text)) }
{
    if options.is_json {
        return push_json_report(out, alloc, options.logs, said);
    }
    push_report(out, alloc, options.logs, &said.report)
}

/// The status, or 1 where a line isn't understood.
pub fn status_or(said: &SaidReport<'_>, status: u8) -> u8
    ensures { result ≡ status_or said.now.first_unclear status }
{
    match said.first_unclear {
        Some(_) => 1,
        None => status,
    }
}

/// Says what is found in logs: which lines aren't understood, and what the lines ask.
pub fn report_printed(
    alloc: Global,
    options: &LogOptions<'_>,
    said: &SaidReport<'_>,
) -> Result<Output, NoMemory>
    ensures { IfOk result (λ out. (text : List ℕ) × IsLogText options.now said.now text × (printed out ≡ said_printed options.now said.now text 0)) }
{
    let mut output = Output::new(alloc);
    push_unclear(&mut output.faults, options.logs, said)?;
    push_said(&mut output.answers, alloc, options, said)?;
    output.status = status_or(said, 0);
    Ok(output)
}

fn push_replayed(
    out: &mut Vec<u8>,
    alloc: Global,
    options: &LogOptions<'_>,
    said: &SaidReport<'_>,
    decided: Decided<'_>,
) -> Result<Counts, AllocError>
    ensures { IfOk result (λ counts. (text : List ℕ) × IsReplayText options.now said.now decided.entry counts text × (out.old.items ≡ [] → out.new.items ≡ text)) }
{
    let all = options.wants_all;
    if options.is_json {
        return push_json_against(out, alloc, options.logs, said, decided, all);
    }
    push_against(out, alloc, options.logs, &said.report, decided, all)
}

/// 4 where something is denied now that wasn't.
fn status_of(counts: &Counts) -> u8
    ensures { result ≡ (if counts.now.has_newly_denied then 4 else 0) }
{
    if counts.has_newly_denied() { 4 } else { 0 }
}

/// Answers what logs ask by the policy of files.
#[derive(Drop)]
struct Replaying<'a> {
    options: &'a LogOptions<'a>,
    said: &'a SaidReport<'a>,
}

impl Use for Replaying<'_> {
    ghost gives = { λ r d out. IsReplayed r.options.now r.said.now d out };

    fn use_policy(&self, alloc: Global, decided: Decided<'_>) -> Result<Output, NoMemory> {
        let mut output = Output::new(alloc);
        push_unclear(&mut output.faults, self.options.logs, self.said)?;
        let answers = &mut output.answers;
        let counts = push_replayed(answers, alloc, self.options, self.said, decided)?;
        output.status = status_or(self.said, status_of(&counts));
        Ok(output)
    }
}

fn is_none_named(files: &[Vec<u8>]) -> bool
    ensures none { result ≡ true → files.now ≡ [] }
    ensures some { result ≡ false → files.now ≢ [] }
{
    files.is_empty()
}

/// Says what logs ask, or how files answer that now.
fn log_report<T: Tree>(
    alloc: Global,
    tree: &T,
    settings: &Settings<'_>,
    options: &LogOptions<'_>,
    said: &SaidReport<'_>,
) -> Result<Output, NoMemory>
    ensures { IfOk result (λ out. IsReportOutput (setting_of (T.files tree.now) (T.taken tree.now) (T.input tree.now) settings.now) options.now said.now (printed out)) }
{
    if is_none_named(options.against) {
        return report_printed(alloc, options, said);
    }
    let replaying = Replaying { options, said };
    with_policy(alloc, tree, settings, options.against, &replaying)
}

/// Says what the lines of logs ask, or how the one policy that files are answers that now; which lines aren't understood, it warns of.
pub fn log_files<T: Tree, R: Logs>(
    alloc: Global,
    tree: &T,
    reader: &R,
    settings: &Settings<'_>,
    options: &LogOptions<'_>,
) -> Result<Output, NoMemory>
    ensures { IfOk result (λ out. IsLogOutput (setting_of (T.files tree.now) (T.taken tree.now) (T.input tree.now) settings.now) (R.lying reader.now) options.now (printed out)) }
{
    let mut said = SaidReport::new(alloc, options.choice, options.wants_skipped);
    match read_reports(alloc, reader, options.logs, &mut said) {
        Ok(()) => log_report(alloc, tree, settings, options, &said),
        Err(unread) => log_refused(alloc, unread.path, unread.why),
    }
}
