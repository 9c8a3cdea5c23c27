//! What `job` prints.

ghost use Rattle.std.specs.Prelude.{◌≡◌, ◌++◌, [], false, map, length, OnOk, IfOk, IfErr};
ghost use Rattle.aa_files.specs.Texts.{texts, slices};
ghost use Rattle.aa_job.specs.Tasks.{HasTaken};
ghost use Rattle.aa_command.specs.Setting.{setting_of};
ghost use Rattle.aa_command.specs.Printed.{printed};
ghost use Rattle.aa_job.specs.Command.{left_out_line, several_line, remarks, long_job, many_asked, job_written, IsTasksOutput, AreTasksOf, IsFirstUnreadOf, IsLogsOutput, IsSourcesOutput, IsUnitsOutput, IsPathsOutput, IsJobOutput};

use crate::job::{JobFault, JobTasks, push_job};
use crate::policies::{Unnamed, all_names, policies_of};
use crate::shared::shared_sources;
use aa_command::{
    Logs, Output, Settings, UnreadLog, load_units, path_refused, policy_refused, refused, rooted,
    unit_refused,
};
use aa_files::{Source, Tree, Unit};
use aa_logs::Choice;
use aa_notation::{JobPolicy, is_policy_count};
use aa_text::{NoMemory, push_number, push_text};
use std::alloc::{AllocError, Global};

/// The most bytes of a job.
const MOST_BYTES: usize = 16777216;

/// The most texts that the policies of a job include.
const MOST_INCLUDES: usize = 4095;

/// Of which files and logs a job is made.
#[derive(Clone, Copy)]
pub struct JobOptions<'a> {
    /// The files with profiles, each a policy of its own.
    pub files: &'a [Vec<u8>],
    pub logs: &'a [&'a [u8]],
    pub choice: Choice<'a>,
}

/// Says how many requests the job doesn't have, and why, where there are some.
fn push_left_out(out: &mut Vec<u8>, count: u64, what: &str) -> Result<(), AllocError>
    ensures { OnOk result (out.new.items ≡ out.old.items ++ left_out_line count what.now) }
{
    if count > 0 {
        push_number(out, count)?;
        push_text(out, what)?;
    }
    Ok(())
}

/// Says of several policies that none goes on in another.
fn push_several(out: &mut Vec<u8>, policies: usize) -> Result<(), AllocError>
    ensures { OnOk result (out.new.items ≡ out.old.items ++ several_line policies) }
{
    if policies > 1 {
        let line = "several policies: no execution goes on in a profile of another file\n";
        push_text(out, line)?;
    }
    Ok(())
}

/// Says what of the policies and logs the job doesn't have.
fn push_remarks(
    out: &mut Vec<u8>,
    policies: usize,
    left_out: u64,
    strangers: u64,
) -> Result<(), AllocError>
    ensures { OnOk result (out.new.items ≡ out.old.items ++ remarks policies left_out strangers) }
{
    push_several(out, policies)?;
    push_left_out(out, left_out, " requests left out: they are no UTF-8\n")?;
    let what = " requests left out: no profile here asks them\n";
    push_left_out(out, strangers, what)
}

#[tactic(auto, unfolding(crate::specs::Command::many_asked))]
fn many_asked() -> &'static str
    ensures { result.now ≡ many_asked }
{
    "TooLarge: a job has at most 1,024 tasks, and a task 65,536 requests; choose fewer lines of the logs by --profile, --since or --until\n"
}

#[tactic(auto, unfolding(crate::specs::Command::long_job))]
fn long_job() -> &'static str
    ensures { result.now ≡ long_job }
{
    "TooLarge: a job has at most 16,777,216 bytes; name fewer files, or choose fewer lines of the logs by --profile, --since or --until\n"
}

/// The job with what it doesn't have, if it isn't too long.
fn written(
    alloc: Global,
    text: Vec<u8>,
    policies: usize,
    left_out: u64,
    strangers: u64,
) -> Result<Output, NoMemory>
    ensures { IfOk result (λ out. printed out ≡ job_written text.items policies left_out strangers) }
{
    if text.len() > MOST_BYTES {
        return refused(alloc, long_job(), 1);
    }
    let mut output = Output::new(alloc);
    push_remarks(&mut output.faults, policies, left_out, strangers)?;
    output.answers = text;
    Ok(output)
}

/// Prints the job of tasks that a job may have.
fn print_tasks(
    alloc: Global,
    policies: &[JobPolicy<'_>],
    sources: &[&Source],
    tasks: &JobTasks<'_>,
    states: u32,
) -> Result<Output, NoMemory>
    requires { tasks.now.is_too_large ≡ false }
    ensures { IfOk result (λ out. IsTasksOutput policies.now (map (λ s. s.now) sources.now) states tasks.now (printed out)) }
{
    let mut text = Vec::new(alloc);
    let listed = tasks.tasks.as_slice();
    match push_job(&mut text, alloc, policies, sources, listed, states) {
        Ok(left_out) => written(alloc, text, policies.len(), left_out, tasks.strangers),
        Err(JobFault::NoMemory) => Err(NoMemory),
        Err(JobFault::NotText) => refused(alloc, "NotText: a job holds UTF-8 text alone\n", 1),
    }
}

fn print_job(
    alloc: Global,
    policies: &[JobPolicy<'_>],
    sources: &[&Source],
    tasks: &JobTasks<'_>,
    states: u32,
) -> Result<Output, NoMemory>
    ensures { IfOk result (λ out. IsTasksOutput policies.now (map (λ s. s.now) sources.now) states tasks.now (printed out)) }
{
    if tasks.is_too_large {
        return refused(alloc, many_asked(), 1);
    }
    print_tasks(alloc, policies, sources, tasks, states)
}

/// Reads logs one after another.
fn read_tasks<'a, R: Logs>(
    alloc: Global,
    reader: &R,
    logs: &'a [&'a [u8]],
    tasks: &mut JobTasks<'_>,
) -> Result<(), UnreadLog<'a>>
    requires { HasTaken tasks.old [] }
    ensures taken { OnOk result (AreTasksOf (R.lying reader.now) tasks.old.policies.now tasks.old.choice (slices logs.now) tasks.new) }
    ensures unread { IfErr result (λ unread. IsFirstUnreadOf (R.lying reader.now) tasks.old.policies.now tasks.old.choice (slices logs.now) unread.path.now) }
{
    for path in logs {
        match reader.read_lines(alloc, path, tasks) {
            Ok(()) => {}
            Err(why) => return Err(UnreadLog { path, why }),
        }
    }
    Ok(())
}

/// Prints the job of units, whose profiles have these names, and of logs.
fn job_of_logs<R: Logs>(
    alloc: Global,
    reader: &R,
    options: &JobOptions<'_>,
    states: u32,
    policies: &[JobPolicy<'_>],
    sources: &[&Source],
) -> Result<Output, NoMemory>
    ensures { IfOk result (λ out. IsLogsOutput (R.lying reader.now) options.now states policies.now (map (λ s. s.now) sources.now) (printed out)) }
{
    let mut tasks = JobTasks::new(alloc, policies, options.choice);
    match read_tasks(alloc, reader, options.logs, &mut tasks) {
        Ok(()) => print_job(alloc, policies, sources, &tasks, states),
        Err(unread) => path_refused(alloc, unread.path, unread.why),
    }
}

/// Prints the job of units and of logs.
fn job_of_sources<R: Logs>(
    alloc: Global,
    reader: &R,
    settings: &Settings<'_>,
    options: &JobOptions<'_>,
    units: &[Unit],
    sources: &[&Source],
) -> Result<Output, NoMemory>
    ensures { IfOk result (λ out. IsSourcesOutput (slices settings.now.folders.now) settings.now.states (R.lying reader.now) options.now units.now (map (λ s. s.now) sources.now) (printed out)) }
{
    if sources.len() > MOST_INCLUDES {
        let line = "TooLarge: a job has at most 4,095 included texts; name fewer files\n";
        return refused(alloc, line, 1);
    }
    match all_names(alloc, settings.states, units) {
        Ok(names) => {
            let policies = policies_of(alloc, settings.states, units, names.as_slice())?;
            let (policies, states) = (policies.as_slice(), settings.states);
            job_of_logs(alloc, reader, options, states, policies, sources)
        }
        Err(Unnamed::NoMemory) => Err(NoMemory),
        Err(Unnamed::Refused(unit, fault)) => policy_refused(alloc, settings, unit, fault),
    }
}

fn job_of_units<R: Logs>(
    alloc: Global,
    reader: &R,
    settings: &Settings<'_>,
    options: &JobOptions<'_>,
    units: &[Unit],
) -> Result<Output, NoMemory>
    ensures { IfOk result (λ out. IsUnitsOutput (slices settings.now.folders.now) settings.now.states (R.lying reader.now) options.now units.now (printed out)) }
{
    match shared_sources(alloc, units) {
        Ok(sources) => job_of_sources(alloc, reader, settings, options, units, sources.as_slice()),
        Err(fault) => unit_refused(alloc, fault),
    }
}

/// Prints the job of the files at these paths and of logs, if a job may have so many.
fn job_of_paths<T: Tree, R: Logs>(
    alloc: Global,
    tree: &T,
    reader: &R,
    settings: &Settings<'_>,
    options: &JobOptions<'_>,
    paths: &[Vec<u8>],
) -> Result<Output, NoMemory>
    ensures { IfOk result (λ out. IsPathsOutput (setting_of (T.files tree.now) (T.taken tree.now) (T.input tree.now) settings.now) (R.lying reader.now) options.now (texts paths.now) (printed out)) }
{
    if paths.is_empty() {
        let line = "error: no file with profiles is there\n";
        return refused(alloc, line, 1);
    }
    if !is_policy_count(paths.len()) {
        let line = "TooLarge: a job has at most 16 policies; name fewer files\n";
        return refused(alloc, line, 1);
    }
    match load_units(alloc, tree, settings, paths) {
        Ok(units) => job_of_units(alloc, reader, settings, options, units.as_slice()),
        Err(fault) => unit_refused(alloc, fault),
    }
}

/// Prints the job of files, each a policy of its own, and of logs.
pub fn job_files<T: Tree, R: Logs>(
    alloc: Global,
    tree: &T,
    reader: &R,
    settings: &Settings<'_>,
    options: &JobOptions<'_>,
) -> Result<Output, NoMemory>
    ensures { IfOk result (λ out. IsJobOutput (setting_of (T.files tree.now) (T.taken tree.now) (T.input tree.now) settings.now) (R.lying reader.now) options.now (printed out)) }
{
    match rooted(alloc, tree, settings.base, options.files) {
        Ok(roots) => job_of_paths(
            alloc,
            tree,
            reader,
            settings,
            options,
            roots.paths.as_slice(),
        ),
        Err(fault) => unit_refused(alloc, fault),
    }
}
