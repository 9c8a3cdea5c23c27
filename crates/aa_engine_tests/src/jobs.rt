//! Jobs, and what they are answered. The helpers have no clauses, so that a test's proof stays short.

ghost use Rattle.std.specs.Prelude.{◌<◌, ◌≤◌};

use crate::comparing::holds;
use aa_compile::Compiled;
use aa_engine::{MediateFault, RunFault, check_job, mediate, mediate_lent, replay_job, run_job};
use aa_jobs::{Job, JobFault, read_job};
use aa_lane::Answered;
use aa_machine::Machine;
use aa_model::{Answer, Label, Request};
use aa_policies::compile_policies;
use std::alloc::{AllocError, Global};
use std::io::{Read, Write};
use std::process::Abort;
use std::sync::Wait;
use std::thread::Threads;

/// A command, of `run` with its number of workers.
#[derive(Clone, Copy)]
pub enum Command {
    Check,
    Run(u32),
    Replay,
}

/// A job that reads and writes a file.
pub const FIRST_JOB: &[u8] =
    b"{\"policy\":\"profile p { /etc/passwd r, }\",\"tasks\":[{\"label\":\"p\",\"requests\":[{\"file\":\"/etc/passwd\",\"mask\":\"r\"},{\"file\":\"/etc/passwd\",\"mask\":\"w\"}]}],\"events\":[[0,\"send\"],[0,\"send\"],[0,\"take\"],[0,\"shut\"],[0,\"finish\"],[0,\"collect\"],[0,\"send\"],[0,\"take\"],[0,\"collect\"]]}";

const FIRST_COUNTS: &[u8] = b"ok 1 profiles 1 file rules 0 passed over\n";

const FIRST_VERDICTS: &[u8] =
    b"0 0 granted label=\"p\"\n0 1 denied label=\"p\"\napparmor=\"DENIED\" operation=\"file\" profile=\"p\" name=\"/etc/passwd\" requested_mask=\"w\" denied_mask=\"w\"\n";

const FIRST_REPLIES: &[u8] =
    b"0 send accepted 0\n0 send full\n0 take 0\n0 shut 1\n0 finish 0\n0 collect 0 granted label=\"p\"\n0 send closed\n0 take settled\n0 collect none\n";

/// Each command once, and `run` by several workers too, and what it writes for the first job.
pub const COMMANDS: [(Command, &[u8]); 4] = [
    (Command::Check, FIRST_COUNTS),
    (Command::Run(1), FIRST_VERDICTS),
    (Command::Run(2), FIRST_VERDICTS),
    (Command::Replay, FIRST_REPLIES),
];

/// That a job is larger than one may be.
pub const TOO_LARGE: RunFault = RunFault::Job(JobFault::TooLarge);

/// A job of three tasks, of which two move by executions and two exit.
pub const MOVING_JOB: &[u8] =
    b"{\"policy\":\"profile p { /bin/q px, /f r, } profile q /bin/q { /g r, }\",\"tasks\":[{\"label\":\"p\",\"requests\":[{\"file\":\"/g\",\"mask\":\"r\"},{\"exec\":\"/bin/q\"},{\"file\":\"/g\",\"mask\":\"r\"},\"exit\",{\"file\":\"/f\",\"mask\":\"r\"}]},{\"label\":\"unconfined\",\"requests\":[{\"exec\":\"/bin/q\"},{\"file\":\"/f\",\"mask\":\"r\"}]},{\"label\":\"q\",\"requests\":[\"exit\"]}]}";

/// What `run` writes for it.
pub const MOVED: &[u8] =
    b"0 0 denied label=\"p\"\napparmor=\"DENIED\" operation=\"file\" profile=\"p\" name=\"/g\" requested_mask=\"r\" denied_mask=\"r\"\n0 1 granted label=\"q\"\n0 2 granted label=\"q\"\n1 0 granted label=\"q\"\n1 1 denied label=\"q\"\napparmor=\"DENIED\" operation=\"file\" profile=\"q\" name=\"/f\" requested_mask=\"r\" denied_mask=\"r\"\n";

/// The job that a text is.
pub fn job_of(alloc: Global, text: &[u8]) -> Option<Job> {
    read_job(alloc, text).ok()
}

/// The same for a text that is a job.
pub fn a_job(rt: &(impl Abort + AllocGlobal), text: &[u8]) -> Job {
    job_of(rt.alloc(), text).expect(rt, "a job")
}

/// A job's policies, where they compile.
pub fn policies_of(alloc: Global, job: &Job) -> Option<Vec<Compiled>> {
    let (includes, texts) = (job.includes.as_slice(), job.policies.as_slice());
    compile_policies(alloc, includes, texts, job.states).ok()
}

/// The same for a job whose policies compile.
pub fn compiled(rt: &(impl Abort + AllocGlobal), job: &Job) -> Vec<Compiled> {
    policies_of(rt.alloc(), job).expect(rt, "policies")
}

/// Whether requests are lent to the lanes, or copied.
#[derive(Clone, Copy)]
pub enum Requests {
    Copied,
    Lent,
}

pub const BOTH: [Requests; 2] = [Requests::Copied, Requests::Lent];

/// What a task is answered: of each answer its number, whether it grants, and the label after; `|` behind them.
fn push_row<M: Machine<Answer = Answer>>(
    alloc: Global,
    told: &mut String,
    row: &[Answered<M>],
) -> Result<(), AllocError> {
    for answered in row {
        let (number, answer) = (answered.number, &answered.answer);
        let sign = if answer.granted { '+' } else { '-' };
        let part = match answer.label {
            Label::Confined(one, of) => format!(in alloc; "{number}{sign}{one}.{of} ")?,
            Label::Unconfined(one) => format!(in alloc; "{number}{sign}{one} ")?,
        };
        told.push_str(part.as_str())?;
    }
    told.push_str("|")
}

/// The same of all tasks.
fn told<M: Machine<Answer = Answer>>(
    alloc: Global,
    rows: &[Vec<Answered<M>>],
) -> Result<String, AllocError> {
    let mut told = String::new(alloc);
    for row in rows {
        push_row(alloc, &mut told, row.as_slice())?;
    }
    Ok(told)
}

/// What a machine answers to the tasks of a job, by so many workers, as that text.
pub fn answers<
    'q,
    M: Machine<State = Label, Request = Request, Answer = Answer> + Sync,
    R: Threads + Wait + Sync + AllocGlobal,
>(
    rt: &R,
    requests: Requests,
    (job, policies): (&'q Job, &[Compiled]),
    machine: &'q M,
    workers: u32,
) -> Result<String, MediateFault> {
    let workers = workers.clamp(1, 16);
    match requests {
        Requests::Copied => Ok(told(
            rt.alloc(),
            mediate(rt, rt.alloc(), job, policies, machine, workers)?.as_slice(),
        )?),
        Requests::Lent => Ok(told(
            rt.alloc(),
            mediate_lent(rt, rt.alloc(), job, policies, machine, workers)?.as_slice(),
        )?),
    }
}

/// Lets the command answer what the reader gives.
pub fn answer<R: Read, W: Write, H: Threads + Wait + Sync + AllocGlobal>(
    rt: &H,
    command: Command,
    reader: &mut R,
    writer: &mut W,
) -> Result<(), RunFault> {
    match command {
        Command::Check => check_job(rt.alloc(), reader, writer),
        Command::Run(workers) => run_job(rt, rt.alloc(), reader, writer, workers.clamp(1, 16)),
        Command::Replay => replay_job(rt.alloc(), reader, writer),
    }
}

/// The command writes that text for what the reader gives, or there is that fault and nothing is written.
pub fn gives<R: Read + Drop, H: Abort + Threads + Wait + Sync + AllocGlobal>(
    rt: &H,
    command: Command,
    mut reader: R,
    wanted: Result<&[u8], RunFault>,
) {
    let mut written = Vec::new(rt.alloc());
    let given = answer(rt, command, &mut reader, &mut written);
    match wanted {
        Ok(text) => holds(rt, given == Ok(()) && written.as_slice() == text),
        Err(fault) => holds(rt, given == Err(fault) && written.is_empty()),
    }
}
