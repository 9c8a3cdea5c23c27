//! The job that `job` prints.

ghost use Rattle.std.specs.Prelude.{◌≡◌, ◌≢◌, ◌++◌, ◌∷◌, [], List, map, OnOk, IfOk, IfErr};
ghost use Rattle.aa_logs.specs.Outcomes.{record_data};
ghost use Rattle.aa_notation.specs.Jobs.{left_out};
ghost use Rattle.aa_logs.specs.LogLines.{LogLine, log_line};
ghost use Rattle.aa_messages.specs.Said.{said_in};
ghost use Rattle.aa_job.specs.Tasks.{any_log, HasSameSettings, asked_by, given, HasTaken, one_asked, one_more, with_found};
ghost use Rattle.aa_job.specs.Jobs.{AreIncludes, IsJobWritten, IsNoText};

use aa_base::Unread;
use aa_files::Source;
use aa_logs::{Choice, Line, Lines, LogTask, Record, is_chosen, line_of, take_record};
use aa_messages::said_in;
use aa_notation::{Include, JobPolicy, is_job_text, left_out, policy_of, push_job_text};
use std::alloc::{AllocError, AllocFailed, Global};

/// The tasks that logs give.
#[derive(Drop)]
pub struct JobTasks<'a> {
    pub tasks: Vec<LogTask>,
    policies: &'a [JobPolicy<'a>],
    choice: Choice<'a>,
    /// How many requests no profile of the policies asks.
    pub strangers: u64,
    /// Whether there are more tasks, or more requests of one, than a job may have.
    pub is_too_large: bool,
}

/// Why a job can't be printed.
#[derive(Clone, Copy, Debug, PartialEq, Eq)]
pub enum JobFault {
    NoMemory,
    /// A text is no UTF-8.
    NotText,
}

impl From<AllocError> for JobFault {
    ghost use Rattle.aa_job.specs.declared.job.JobFault.TheVariants.{NoMemory};

    ghost from_gives = { λ _ e. e ≡ NoMemory };

    fn from(_e: AllocError) -> JobFault {
        JobFault::NoMemory
    }
}

impl<T: Drop> From<AllocFailed<T>> for JobFault {
    ghost use Rattle.aa_job.specs.declared.job.JobFault.TheVariants.{NoMemory};

    ghost from_gives = { λ _ e. e ≡ NoMemory };

    fn from(_e: AllocFailed<T>) -> JobFault {
        JobFault::NoMemory
    }
}

impl<'a> JobTasks<'a> {
    /// No tasks yet, for these policies and what is wanted of the logs.
    pub fn new(alloc: Global, policies: &'a [JobPolicy<'a>], choice: Choice<'a>) -> JobTasks<'a>
        ensures none { HasTaken result [] }
        ensures policies { result.policies.now ≡ policies.now }
        ensures choice { result.choice ≡ choice.entry }
    {
        JobTasks {
            tasks: Vec::new(alloc),
            policies,
            choice,
            strangers: 0,
            is_too_large: false,
        }
    }

    /// Adds a record to the task that asks it.
    fn add_asked(&mut self, alloc: Global, asked: Record) -> Result<(), AllocError>
        ensures ok { OnOk result (given self.new ≡ one_asked (record_data asked) (given self.old)) }
        ensures stays { (self.new.policies ≡ self.old.policies) × (self.new.choice ≡ self.old.choice) }
    {
        if !take_record(&mut self.tasks, alloc, asked)? {
            self.is_too_large = true;
        }
        Ok(())
    }

    fn add(&mut self, alloc: Global, asked: Record) -> Result<(), AllocError>
        ensures ok { OnOk result (given self.new ≡ one_more self.old.policies.now (record_data asked) (given self.old)) }
        ensures stays { (self.new.policies ≡ self.old.policies) × (self.new.choice ≡ self.old.choice) }
    {
        if policy_of(self.policies, asked.profile.as_slice()).is_none() {
            self.strangers = self.strangers.saturating_add(1);
            return Ok(());
        }
        self.add_asked(alloc, asked)
    }

    /// Adds what a line without its end asks, if it is chosen.
    fn add_line(&mut self, alloc: Global, line: &[u8]) -> Result<(), AllocError>
        ensures ok { OnOk result (given self.new ≡ with_found self.old.policies.now (asked_by self.old.choice line.now) (given self.old)) }
        ensures stays { (self.new.policies ≡ self.old.policies) × (self.new.choice ≡ self.old.choice) }
    {
        let Line::Asks(asked) = line_of(alloc, line)? else {
            return Ok(());
        };
        if !is_chosen(alloc, &self.choice, line)? {
            return Ok(());
        }
        self.add(alloc, asked)
    }

    /// Adds what the message of a line asks, once.
    fn add_said(&mut self, alloc: Global, line: &[u8]) -> Result<(), AllocError>
        ensures ok { OnOk result (given self.new ≡ with_found self.old.policies.now (asked_by self.old.choice (said_in line.now).text) (given self.old)) }
        ensures stays { (self.new.policies ≡ self.old.policies) × (self.new.choice ≡ self.old.choice) }
    {
        let said = said_in(alloc, line)?;
        self.add_line(alloc, said.text.as_slice())
    }
}

impl Lines for JobTasks<'_> {
    ghost log = { λ tasks. any_log tasks };

    ghost has_taken = { λ tasks lines. HasTaken tasks lines };

    ghost keeps = { λ first tasks. HasSameSettings first tasks };

    fn take_line(&mut self, alloc: Global, line: &[u8], _number: u64) -> Result<(), Unread>
        ensures log { OnOk result (any_log self.new ≡ any_log self.old) }
        ensures keeps { OnOk result ((first : JobTasks) → HasSameSettings first self.old → HasSameSettings first self.new) }
        ensures taken { OnOk result ((before : List LogLine) → HasTaken self.old before → HasTaken self.new (before ++ log_line (any_log self.old) _number line.now ∷ [])) }
        ensures stays { (self.new.policies ≡ self.old.policies) × (self.new.choice ≡ self.old.choice) }
        ensures refused { IfErr result (λ why. why ≡ Unread.NoMemory) }
    {
        Ok(self.add_said(alloc, line)?)
    }
}

fn includes_of<'a>(alloc: Global, sources: &[&'a Source]) -> Result<Vec<Include<'a>>, AllocError>
    ensures { IfOk result (λ v. AreIncludes (map (λ s. s.now) sources.now) v.items) }
{
    let mut includes = Vec::new(alloc);
    for source in sources {
        includes.push(Include {
            name: source.name.as_slice(),
            text: source.text.as_slice(),
        })?;
    }
    Ok(includes)
}

/// Appends the job of policies, the sources that they include and tasks, and a line end, and gives how many requests are no UTF-8
/// and left out. Refused as `NotText` where a text, a name or a label is no UTF-8.
pub fn push_job(
    out: &mut Vec<u8>,
    alloc: Global,
    policies: &[JobPolicy<'_>],
    sources: &[&Source],
    tasks: &[LogTask],
    states: u32,
) -> Result<u64, JobFault>
    ensures written { OnOk result (IsJobWritten policies.now (map (λ s. s.now) sources.now) tasks.now states out.old.items out.new.items) }
    ensures left_out { IfOk result (λ n. n ≡ left_out tasks.now) }
    ensures refused { IfErr result (λ e. e ≢ JobFault.NoMemory → IsNoText policies.now (map (λ s. s.now) sources.now) tasks.now) }
    ensures stays { IfErr result (λ e. e ≢ JobFault.NoMemory → out.new.items ≡ out.old.items) }
{
    let includes = includes_of(alloc, sources)?;
    let includes = includes.as_slice();
    if !is_job_text(policies, includes, tasks) {
        return Err(JobFault::NotText);
    }
    push_job_text(out, alloc, policies, includes, tasks, states)?;
    Ok(left_out(tasks))
}
