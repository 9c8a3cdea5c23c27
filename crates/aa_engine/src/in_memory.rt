//! The engines for jobs that lie in memory: without a reader, a writer or a thread.

ghost use Rattle.std.specs.Prelude.{◌≡◌, ℕ, List, IfOk, IfErr, IsErrOf};
ghost use Rattle.std.specs.String.{string_bytes};
ghost use Rattle.aa_engine.specs.Engines.{HandsIn, IsCheckOutput, IsRunOutput, IsReplayOutput, IsDecided, Explains};

use crate::engine::{CompiledJob, check_text, compile_bytes, replay_text};
use crate::fault::RunFault;
use crate::in_turn::run_output_in_turn;
use crate::tasks::unknown_task;
use std::alloc::Global;

/// What `check_job` writes for these bytes.
///
/// Faults as those of `check_job`, but for `Read` and `Write`.
pub fn check_bytes(alloc: Global, bytes: &[u8]) -> Result<String, RunFault>
    ensures text { IfOk result (λ text. IsCheckOutput bytes.now (string_bytes text)) }
    ensures decided { IsDecided IsCheckOutput }
    ensures cause { IfErr result (λ e. Explains e bytes.now) }
    ensures labels { (t : ℕ) → IsErrOf result (RunFault.UnknownProfile t) → ⊥ }
{
    let asked = compile_bytes(alloc, bytes)?;
    check_text(alloc, &asked)
}

/// The text of `run` for a job and its policies, task by task.
fn run_text_in_turn(alloc: Global, asked: &CompiledJob) -> Result<String, RunFault>
    ensures text { (input : List ℕ) → HandsIn input asked.now.job asked.now.policies.items → IfOk result (λ text. IsRunOutput input (string_bytes text)) }
    ensures cause { (input : List ℕ) → HandsIn input asked.now.job asked.now.policies.items → IfErr result (λ e. Explains e input) }
{
    let policies = asked.policies.as_slice();
    let tasks = asked.job.tasks.as_slice();
    if let Some(task) = unknown_task(policies, tasks) {
        return Err(RunFault::UnknownProfile(task));
    }
    Ok(run_output_in_turn(alloc, asked.job.several, policies, tasks)?)
}

/// What `run_job` writes for these bytes. The tasks are answered one after the other on the calling thread.
///
/// Faults as those of `run_job`, but for `Read` and `Write`.
pub fn run_bytes(alloc: Global, bytes: &[u8]) -> Result<String, RunFault>
    ensures text { IfOk result (λ text. IsRunOutput bytes.now (string_bytes text)) }
    ensures decided { IsDecided IsRunOutput }
    ensures cause { IfErr result (λ e. Explains e bytes.now) }
{
    let asked = compile_bytes(alloc, bytes)?;
    run_text_in_turn(alloc, &asked)
}

/// What `replay_job` writes for these bytes.
///
/// Faults as those of `replay_job`, but for `Read` and `Write`.
pub fn replay_bytes(alloc: Global, bytes: &[u8]) -> Result<String, RunFault>
    ensures text { IfOk result (λ text. IsReplayOutput bytes.now (string_bytes text)) }
    ensures decided { IsDecided IsReplayOutput }
    ensures cause { IfErr result (λ e. Explains e bytes.now) }
{
    let asked = compile_bytes(alloc, bytes)?;
    replay_text(alloc, &asked)
}
