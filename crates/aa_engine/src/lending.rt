//! Answers the tasks of a job as `mediate` does, with requests that are lent and not copied.

ghost use Rattle.std.specs.Prelude.{◌≡◌, ◌↔◌, ◌<◌, ◌≤◌, ℕ, map, Some, IfOk, IsErrOf};
ghost use Rattle.aa_engine.specs.Answers.{asked, job_answers_by, first_unknown, WereClosed};

use crate::deciding::{answered, askings_of};
use crate::tasks::{MediateFault, unknown_task};
use aa_compile::Compiled;
use aa_jobs::{Job, Task, Work};
use aa_lane::Answered;
use aa_machine::Machine;
use aa_model::{Answer, Label, Request};
use std::alloc::{AllocError, Global};
use std::collections::VecDeque;
use std::marker::Model;
use std::sync::Wait;
use std::thread::Threads;

/// A request that is lent, and is seen as the request itself.
#[derive(Drop)]
pub struct LentRequest<'q> {
    request: &'q Request,
}

impl<'q> Model for LentRequest<'q> {
    ghost use Rattle.aa_model.specs.declared.request.Request.{Request};

    ghost Value = { Request };

    ghost view = { λ l. l.request.now };
}

impl<'q> LentRequest<'q> {
    /// Lends a request.
    pub fn new(request: &'q Request) -> LentRequest<'q>
        ensures { result ≡ request.now }
    {
        LentRequest { request }
    }

    /// The request.
    pub fn get(&self) -> &'q Request
        ensures { result.now ≡ self.now }
    {
        self.request
    }
}

/// A machine that is lent its requests, and is seen as the machine that decides them.
#[derive(Drop)]
pub struct Lent<'q, M> {
    machine: &'q M,
}

impl<'q, M> Model for Lent<'q, M> {
    ghost Value = { M };

    ghost view = { λ l. l.machine.now };
}

impl<'q, M> Lent<'q, M> {
    /// Lends requests to a machine.
    pub fn new(machine: &'q M) -> Lent<'q, M>
        ensures { result ≡ machine.now }
    {
        Lent { machine }
    }
}

impl<'q, M: Machine<State = Label, Request = Request, Answer = Answer>> Machine for Lent<'q, M> {
    type State = Label;

    type Request = LentRequest<'q>;

    type Answer = Answer;

    ghost next = { M.next };

    ghost reply = { M.reply };

    fn step(&self, state: &mut Label, request: &LentRequest<'q>) -> Answer {
        self.machine.step(state, request.get())
    }
}

/// A task's requests before its first exit.
fn lent_requests<'q>(
    alloc: Global,
    works: &'q [Work],
) -> Result<VecDeque<LentRequest<'q>>, AllocError>
    ensures { IfOk result (λ q. q.items ≡ asked works.now) }
{
    let mut requests = VecDeque::with_capacity(alloc, works.len())?;
    for work in works {
        let Work::Ask(request) = work else {
            return Ok(requests);
        };
        requests.push_back(LentRequest::new(request))?;
    }
    Ok(requests)
}

/// The requests of each task.
fn all_lent<'q>(
    alloc: Global,
    tasks: &'q [Task],
) -> Result<Vec<VecDeque<LentRequest<'q>>>, AllocError>
    ensures { IfOk result (λ v. map (λ q. q.items) v.items ≡ map (λ t. asked t.requests) tasks.now) }
{
    let mut all = Vec::with_capacity(alloc, tasks.len())?;
    for task in tasks {
        all.push(lent_requests(alloc, task.requests.as_slice())?)?;
    }
    Ok(all)
}

/// What `mediate` answers, with the job's own requests: each is lent to the machine, and nothing is copied.
///
/// Refused as `mediate` is.
pub fn mediate_lent<
    'q,
    M: Machine<State = Label, Request = Request, Answer = Answer> + Sync,
    R: Threads + Wait + Sync,
>(
    rt: &R,
    alloc: Global,
    job: &'q Job,
    policies: &[Compiled],
    machine: &'q M,
    workers: u32,
) -> Result<Vec<Vec<Answered<Lent<'q, M>>>>, MediateFault>
    requires { (0 < workers) × (workers ≤ 16) }
    ensures answers { IfOk result (λ rows. job_answers_by M.next M.reply machine.now policies.now job.now.tasks ≡ Some (map (λ row. row.items) rows.items)) }
    ensures closed { IfOk result (λ rows. WereClosed M.next M.reply machine.now policies.now job.now.capacity job.now.tasks (map (λ row. row.items) rows.items)) }
    ensures unknown { (task : ℕ) → IsErrOf result (MediateFault.UnknownProfile task) ↔ (first_unknown policies.now job.now.tasks ≡ Some task) }
{
    let tasks = job.tasks.as_slice();
    if let Some(task) = unknown_task(policies, tasks) {
        return Err(MediateFault::UnknownProfile(task));
    }
    let requests = all_lent(alloc, tasks)?;
    let askings = match askings_of::<Lent<'q, M>>(alloc, policies, tasks, requests) {
        Ok(askings) => askings,
        Err(AllocError) => return Err(MediateFault::NoMemory),
    };
    let lender = Lent::new(machine);
    match answered(rt, alloc, &lender, askings, job.capacity, workers) {
        Ok(rows) => Ok(rows),
        Err(fault) => Err(fault),
    }
}
