//! Answers the tasks of a job, each through a lane of its own.

ghost use Rattle.std.specs.Prelude.{◌≡◌, ◌↔◌, ◌<◌, ◌≤◌, ℕ, [], map, Some, None, IfOk, IfErr, IsErrOf, length, vec_len, vec_capacity};
ghost use Rattle.aa_pool.specs.Answers.{answers_to};
ghost use Rattle.aa_engine.specs.Answers.{asked, task_label, job_answers_by, first_unknown, AreClosed, WereClosed};

use crate::tasks::{MediateFault, opening_label, unknown_task};
use aa_compile::Compiled;
use aa_jobs::{Job, Task, Work};
use aa_lane::Answered;
use aa_machine::Machine;
use aa_model::{Answer, Label, Request};
use aa_pool::{EngineFault, Outcome, Refusal, Task as Asking, answer_all};
use std::alloc::{AllocError, Global};
use std::collections::VecDeque;
use std::sync::Wait;
use std::thread::Threads;

/// Copies of a task's requests before its first exit.
fn requests_of(alloc: Global, works: &[Work]) -> Result<VecDeque<Request>, AllocError>
    ensures { IfOk result (λ q. q.items ≡ asked works.now) }
{
    let mut requests = VecDeque::with_capacity(alloc, works.len())?;
    for work in works {
        let Work::Ask(request) = work else {
            return Ok(requests);
        };
        requests.push_back(request.try_clone()?)?;
    }
    Ok(requests)
}

/// Copies of the requests of each task.
fn copies_of(alloc: Global, tasks: &[Task]) -> Result<Vec<VecDeque<Request>>, AllocError>
    ensures { IfOk result (λ v. map (λ q. q.items) v.items ≡ map (λ t. asked t.requests) tasks.now) }
{
    let mut copies = Vec::with_capacity(alloc, tasks.len())?;
    for task in tasks {
        copies.push(requests_of(alloc, task.requests.as_slice())?)?;
    }
    Ok(copies)
}

/// What each task asks, in a machine's own requests, and the label that it begins with.
pub fn askings_of<M: Machine<State = Label>>(
    alloc: Global,
    policies: &[Compiled],
    tasks: &[Task],
    rows: Vec<VecDeque<M::Request>>,
) -> Result<Vec<Asking<M>>, AllocError>
    requires known { first_unknown policies.now tasks.now ≡ None }
    requires len { vec_len rows ≡ length tasks.now }
    ensures labels { IfOk result (λ v. map (λ t. Some t.start) v.items ≡ map (task_label policies.now) tasks.now) }
    ensures requests { IfOk result (λ v. map (λ t. t.requests.items) v.items ≡ map (λ q. q.items) rows.items) }
{
    let mut askings = Vec::with_capacity(alloc, tasks.len())?;
    let mut at = 0;
    for requests in rows {
        let Some(start) = opening_label(policies, &tasks[at]) else {
            unreachable!()
        };
        askings.push(Asking { start, requests })?;
        at += 1;
    }
    Ok(askings)
}

/// The answers alone.
fn rows_of<M: Machine>(
    outcomes: Vec<Outcome<M>>,
    room: Vec<Vec<Answered<M>>>,
) -> Vec<Vec<Answered<M>>>
    requires empty { room.items ≡ [] }
    requires room { vec_len outcomes ≤ vec_capacity room }
    ensures { map (λ row. row.items) result.items ≡ map (λ o. o.answers.items) outcomes.items }
{
    let mut rows = room;
    for outcome in outcomes {
        let Outcome { answers, .. } = outcome;
        rows.push_reserved(answers);
    }
    rows
}

/// Why lanes aren't opened for as many tasks, of such a capacity, as a job may have.
fn lane_fault(fault: EngineFault) -> MediateFault
    requires { fault ≡ EngineFault.NoMemory }
    ensures { result ≡ MediateFault.NoMemory }
{
    match fault {
        EngineFault::NoMemory => MediateFault::NoMemory,
        EngineFault::BadCapacity | EngineFault::TooManyLanes => unreachable!(),
    }
}

/// The answers to what is asked, by that many workers, through lanes of that capacity, which are closed.
pub fn answered<M: Machine + Sync, R: Threads + Wait + Sync>(
    rt: &R,
    alloc: Global,
    machine: &M,
    askings: Vec<Asking<M>>,
    capacity: u32,
    workers: u32,
) -> Result<Vec<Vec<Answered<M>>>, MediateFault>
where
    M::State: Send,
    M::Request: Send,
    M::Answer: Send,
    requires workers { (0 < workers) × (workers ≤ 16) }
    requires fits { (vec_len askings ≤ 1024) × (0 < capacity) × (capacity ≤ 1024) }
    ensures answers { IfOk result (λ rows. map (λ row. row.items) rows.items ≡ map (λ t. answers_to M.next M.reply machine.now t.start t.requests.items) askings.items) }
    ensures closed { IfOk result (λ rows. AreClosed M.next M.reply machine.now capacity (map (λ t. t.start) askings.items) (map (λ row. row.items) rows.items)) }
    ensures fault { IfErr result (λ f. f ≡ MediateFault.NoMemory) }
{
    let rows = Vec::with_capacity(alloc, askings.len())?;
    match answer_all(rt, alloc, machine, askings, capacity, workers) {
        Ok(outcomes) => Ok(rows_of(outcomes, rows)),
        Err(Refusal { fault, .. }) => Err(lane_fault(fault)),
    }
}

/// The answers that a machine gives to each task of a job, in order, by that many workers: each task goes through a lane of its
/// own of the job's capacity, which opens with the task's label and is closed in the end.
///
/// With one worker requests are sent, decided and collected in turn on the calling thread. With more, a thread of its own feeds
/// the lanes and collects from them, while the workers decide. Where no thread can be started, or the pool has no memory, the
/// calling thread does what they would have done. All memory but the pool's own is taken before the first thread starts.
///
/// Refused first with the first task whose label names no profile, and then where memory is wanting.
pub fn mediate<
    M: Machine<State = Label, Request = Request, Answer = Answer> + Sync,
    R: Threads + Wait + Sync,
>(
    rt: &R,
    alloc: Global,
    job: &Job,
    policies: &[Compiled],
    machine: &M,
    workers: u32,
) -> Result<Vec<Vec<Answered<M>>>, MediateFault>
    requires { (0 < workers) × (workers ≤ 16) }
    ensures answers { IfOk result (λ rows. job_answers_by M.next M.reply machine.now policies.now job.now.tasks ≡ Some (map (λ row. row.items) rows.items)) }
    ensures closed { IfOk result (λ rows. WereClosed M.next M.reply machine.now policies.now job.now.capacity job.now.tasks (map (λ row. row.items) rows.items)) }
    ensures unknown { (task : ℕ) → IsErrOf result (MediateFault.UnknownProfile task) ↔ (first_unknown policies.now job.now.tasks ≡ Some task) }
{
    let tasks = job.tasks.as_slice();
    if let Some(task) = unknown_task(policies, tasks) {
        return Err(MediateFault::UnknownProfile(task));
    }
    let copies = copies_of(alloc, tasks)?;
    let askings = askings_of(alloc, policies, tasks, copies)?;
    match answered(rt, alloc, machine, askings, job.capacity, workers) {
        Ok(rows) => Ok(rows),
        Err(fault) => Err(fault),
    }
}
