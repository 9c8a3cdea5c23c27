//! The engines: a job's bytes in, lines out.

ghost use Rattle.std.specs.Prelude.{◌≡◌, ◌≢◌, ◌<◌, ◌≤◌, ℕ, List, [], Ok, Some, flat_map, length, take, IfOk, IfErr, OnOk, IsErrOf};
ghost use Rattle.std.specs.Io.KnownBytes.{Appends, Keeps};
ghost use Rattle.std.specs.String.{string_bytes};
ghost use Rattle.aa_jobs.specs.Jobs.{job_of};
ghost use Rattle.aa_engine.specs.Answers.{first_unknown};
ghost use Rattle.aa_engine.specs.Output.{lines_from};
ghost use Rattle.aa_engine.specs.Engines.{HandsIn, IsCheckOutput, IsRunOutput, IsReplayOutput, IsDecided, Explains, IsInput, IsExplained};

use crate::fault::{RunFault, job_fault, mediate_fault, policy_fault};
use crate::lending::mediate_lent;
use crate::output::check_output;
use crate::replay::replay_output;
use crate::stream::{read_input, write_parts, write_text};
use crate::tasks::{MediateFault, unknown_task};
use crate::texts::run_output;
use aa_compile::Compiled;
use aa_jobs::{Job, read_job};
use aa_machine::Machine;
use aa_mediate::Mediator;
use aa_model::{Answer, Label, Request};
use aa_policies::compile_policies;
use std::alloc::Global;
use std::io::{Read, Write};
use std::sync::Wait;
use std::thread::Threads;

/// A job with its policies, compiled.
#[derive(Drop)]
pub(crate) struct CompiledJob {
    pub job: Job,
    pub policies: Vec<Compiled>,
}

/// The job with its policies.
// The type `Job` keeps that there are 1 to 16 policies, of which each task's number is one, so the policies' texts can't be
// taken out of it: they live until all lines are made, one copy of at most 16 MiB.
fn with_policies(alloc: Global, job: Job) -> Result<CompiledJob, RunFault>
    ensures asked { (input : List ℕ) → job_of input ≡ Ok job → IfOk result (λ a. HandsIn input a.job a.policies.items) }
    ensures cause { (input : List ℕ) → job_of input ≡ Ok job → IfErr result (λ e. Explains e input) }
    ensures unwritten { IfErr result (λ e. e ≢ RunFault.Write) }
    ensures labels { (t : ℕ) → IsErrOf result (RunFault.UnknownProfile t) → ⊥ }
{
    match compile_policies(
        alloc,
        job.includes.as_slice(),
        job.policies.as_slice(),
        job.states,
    ) {
        Ok(policies) => Ok(CompiledJob { job, policies }),
        Err(refused) => Err(policy_fault(refused)),
    }
}

/// The job that the bytes are, and its policies. The bytes are let go once the job is read.
fn compile_job(alloc: Global, bytes: Vec<u8>) -> Result<CompiledJob, RunFault>
    ensures asked { IfOk result (λ a. HandsIn bytes.items a.job a.policies.items) }
    ensures cause { IfErr result (λ e. Explains e bytes.items) }
    ensures unwritten { IfErr result (λ e. e ≢ RunFault.Write) }
    ensures labels { (t : ℕ) → IsErrOf result (RunFault.UnknownProfile t) → ⊥ }
{
    let job = match read_job(alloc, bytes.as_slice()) {
        Ok(job) => job,
        Err(fault) => return Err(job_fault(fault)),
    };
    drop(bytes);
    with_policies(alloc, job)
}

/// The job that bytes in a caller's hands are, and its policies.
pub(crate) fn compile_bytes(alloc: Global, bytes: &[u8]) -> Result<CompiledJob, RunFault>
    ensures asked { IfOk result (λ a. HandsIn bytes.now a.job a.policies.items) }
    ensures cause { IfErr result (λ e. Explains e bytes.now) }
    ensures unwritten { IfErr result (λ e. e ≢ RunFault.Write) }
    ensures labels { (t : ℕ) → IsErrOf result (RunFault.UnknownProfile t) → ⊥ }
{
    match read_job(alloc, bytes) {
        Ok(job) => with_policies(alloc, job),
        Err(fault) => Err(job_fault(fault)),
    }
}

/// The text of `check` for a job and its policies.
pub(crate) fn check_text(alloc: Global, asked: &CompiledJob) -> Result<String, RunFault>
    ensures text { (input : List ℕ) → HandsIn input asked.now.job asked.now.policies.items → IfOk result (λ text. IsCheckOutput input (string_bytes text)) }
    ensures cause { (input : List ℕ) → IfErr result (λ e. Explains e input) }
    ensures unwritten { IfErr result (λ e. e ≢ RunFault.Write) }
    ensures labels { (t : ℕ) → IsErrOf result (RunFault.UnknownProfile t) → ⊥ }
{
    Ok(check_output(alloc, asked.job.several, asked.policies.as_slice())?)
}

/// The text of `check` for the bytes of a job.
fn check_text_of(alloc: Global, bytes: Vec<u8>) -> Result<String, RunFault>
    ensures text { IfOk result (λ text. IsCheckOutput bytes.items (string_bytes text)) }
    ensures cause { IfErr result (λ e. Explains e bytes.items) }
    ensures unwritten { IfErr result (λ e. e ≢ RunFault.Write) }
    ensures labels { (t : ℕ) → IsErrOf result (RunFault.UnknownProfile t) → ⊥ }
{
    let asked = compile_job(alloc, bytes)?;
    check_text(alloc, &asked)
}

/// The text of `run` for a job whose tasks a machine answers, by that many workers, in parts.
fn answered_text<
    M: Machine<State = Label, Request = Request, Answer = Answer> + Sync,
    R: Threads + Wait + Sync,
>(
    rt: &R,
    alloc: Global,
    job: &Job,
    policies: &[Compiled],
    machine: &M,
    workers: u32,
) -> Result<Vec<String>, MediateFault>
    requires { (0 < workers) × (workers ≤ 16) }
    ensures text { IfOk result (λ parts. lines_from M.next M.reply machine.now job.now.several policies.now 0 job.now.tasks ≡ Some (flat_map string_bytes parts.items)) }
    ensures unknown { (task : ℕ) → IsErrOf result (MediateFault.UnknownProfile task) → first_unknown policies.now job.now.tasks ≡ Some task }
{
    let rows = match mediate_lent(rt, alloc, job, policies, machine, workers) {
        Ok(rows) => rows,
        Err(fault) => return Err(fault),
    };
    Ok(run_output(
        rt,
        alloc,
        job.several,
        job.tasks.as_slice(),
        policies,
        machine,
        rows.as_slice(),
        workers,
    )?)
}

/// The text of `run` for a job and its policies, in parts.
fn run_text<R: Threads + Wait + Sync>(
    rt: &R,
    alloc: Global,
    asked: &CompiledJob,
    workers: u32,
) -> Result<Vec<String>, RunFault>
    requires { (0 < workers) × (workers ≤ 16) }
    ensures text { (input : List ℕ) → HandsIn input asked.now.job asked.now.policies.items → IfOk result (λ parts. IsRunOutput input (flat_map string_bytes parts.items)) }
    ensures cause { (input : List ℕ) → HandsIn input asked.now.job asked.now.policies.items → IfErr result (λ e. Explains e input) }
    ensures unwritten { IfErr result (λ e. e ≢ RunFault.Write) }
{
    let policies = asked.policies.as_slice();
    let mediator = Mediator::new(policies);
    match answered_text(rt, alloc, &asked.job, policies, &mediator, workers) {
        Ok(parts) => Ok(parts),
        Err(fault) => Err(mediate_fault(fault)),
    }
}

/// The text of `run` for the bytes of a job, in parts.
fn run_text_of<R: Threads + Wait + Sync>(
    rt: &R,
    alloc: Global,
    bytes: Vec<u8>,
    workers: u32,
) -> Result<Vec<String>, RunFault>
    requires { (0 < workers) × (workers ≤ 16) }
    ensures text { IfOk result (λ parts. IsRunOutput bytes.items (flat_map string_bytes parts.items)) }
    ensures cause { IfErr result (λ e. Explains e bytes.items) }
    ensures unwritten { IfErr result (λ e. e ≢ RunFault.Write) }
{
    let asked = compile_job(alloc, bytes)?;
    run_text(rt, alloc, &asked, workers)
}

/// The text of `replay` for a job and its policies.
pub(crate) fn replay_text(alloc: Global, asked: &CompiledJob) -> Result<String, RunFault>
    ensures text { (input : List ℕ) → HandsIn input asked.now.job asked.now.policies.items → IfOk result (λ text. IsReplayOutput input (string_bytes text)) }
    ensures cause { (input : List ℕ) → HandsIn input asked.now.job asked.now.policies.items → IfErr result (λ e. Explains e input) }
    ensures unwritten { IfErr result (λ e. e ≢ RunFault.Write) }
{
    let policies = asked.policies.as_slice();
    if let Some(task) = unknown_task(policies, asked.job.tasks.as_slice()) {
        return Err(RunFault::UnknownProfile(task));
    }
    Ok(replay_output(alloc, &asked.job, policies)?)
}

/// The text of `replay` for the bytes of a job.
fn replay_text_of(alloc: Global, bytes: Vec<u8>) -> Result<String, RunFault>
    ensures text { IfOk result (λ text. IsReplayOutput bytes.items (string_bytes text)) }
    ensures cause { IfErr result (λ e. Explains e bytes.items) }
    ensures unwritten { IfErr result (λ e. e ≢ RunFault.Write) }
{
    let asked = compile_job(alloc, bytes)?;
    replay_text(alloc, &asked)
}

/// Reads a job, and writes how many profiles and rules each of its policies has.
///
/// Faults: `Read` where the reader failed or didn't come to an end within 33,554,432 calls; `Job` where the input is no job;
/// `Policy` where one of its policies is refused, the first such one; `Write` where the writer failed or took nothing, and then a front of the text was
/// written; after every other fault nothing was. `NoMemory` can come at any point before the writing. The labels of the
/// tasks aren't looked at.
pub fn check_job<R: Read, W: Write>(
    alloc: Global,
    reader: &mut R,
    writer: &mut W,
) -> Result<(), RunFault>
    ensures written { OnOk result ((input : List ℕ) × (text : List ℕ) × IsInput (R.remaining reader.old) input
        × IsCheckOutput input text × Appends (W.contents writer.old) (W.contents writer.new) text) }
    ensures front { IsErrOf result RunFault.Write → (input : List ℕ) × (text : List ℕ) × (n : ℕ) × IsInput (R.remaining reader.old) input
        × IsCheckOutput input text × (n ≤ length text) × Appends (W.contents writer.old) (W.contents writer.new) (take n text) }
    ensures decided { IsDecided IsCheckOutput }
    ensures nothing { IfErr result (λ e. e ≢ RunFault.Write → Keeps (W.contents writer.old) (W.contents writer.new)) }
    ensures cause { IfErr result (λ e. IsExplained (R.remaining reader.old) e) }
    ensures labels { (t : ℕ) → IsErrOf result (RunFault.UnknownProfile t) → ⊥ }
{
    let bytes = read_input(alloc, reader)?;
    let text = check_text_of(alloc, bytes)?;
    write_text(writer, text.as_bytes())
}

/// Reads a job, has the requests of its tasks decided by that many workers, each task through a lane of its own, and writes
/// the verdicts, with the audit lines where there are some. The text is the same for every number of workers.
///
/// Faults as those of `check_job`, and `UnknownProfile` with the first task whose label names no profile.
pub fn run_job<R: Read, W: Write, H: Threads + Wait + Sync>(
    rt: &H,
    alloc: Global,
    reader: &mut R,
    writer: &mut W,
    workers: u32,
) -> Result<(), RunFault>
    requires { (0 < workers) × (workers ≤ 16) }
    ensures written { OnOk result ((input : List ℕ) × (text : List ℕ) × IsInput (R.remaining reader.old) input
        × IsRunOutput input text × Appends (W.contents writer.old) (W.contents writer.new) text) }
    ensures front { IsErrOf result RunFault.Write → (input : List ℕ) × (text : List ℕ) × (n : ℕ) × IsInput (R.remaining reader.old) input
        × IsRunOutput input text × (n ≤ length text) × Appends (W.contents writer.old) (W.contents writer.new) (take n text) }
    ensures decided { IsDecided IsRunOutput }
    ensures nothing { IfErr result (λ e. e ≢ RunFault.Write → Keeps (W.contents writer.old) (W.contents writer.new)) }
    ensures cause { IfErr result (λ e. IsExplained (R.remaining reader.old) e) }
{
    let bytes = read_input(alloc, reader)?;
    let parts = run_text_of(rt, alloc, bytes, workers)?;
    write_parts(writer, parts.as_slice())
}

/// Reads a job, makes its events happen, each at the world of its own task, and writes a line for each.
///
/// Faults as those of `check_job`, and `UnknownProfile` with the first task whose label names no profile.
pub fn replay_job<R: Read, W: Write>(
    alloc: Global,
    reader: &mut R,
    writer: &mut W,
) -> Result<(), RunFault>
    ensures written { OnOk result ((input : List ℕ) × (text : List ℕ) × IsInput (R.remaining reader.old) input
        × IsReplayOutput input text × Appends (W.contents writer.old) (W.contents writer.new) text) }
    ensures front { IsErrOf result RunFault.Write → (input : List ℕ) × (text : List ℕ) × (n : ℕ) × IsInput (R.remaining reader.old) input
        × IsReplayOutput input text × (n ≤ length text) × Appends (W.contents writer.old) (W.contents writer.new) (take n text) }
    ensures decided { IsDecided IsReplayOutput }
    ensures nothing { IfErr result (λ e. e ≢ RunFault.Write → Keeps (W.contents writer.old) (W.contents writer.new)) }
    ensures cause { IfErr result (λ e. IsExplained (R.remaining reader.old) e) }
{
    let bytes = read_input(alloc, reader)?;
    let text = replay_text_of(alloc, bytes)?;
    write_text(writer, text.as_bytes())
}
