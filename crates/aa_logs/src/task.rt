//! The tasks that a log's requests are asked by.

ghost use Rattle.std.specs.Prelude.{◌≡◌, ◌<◌, length, OnOk, IfOk, IfSome, if◌then◌else◌};
ghost use Rattle.std.specs.List.{position};
ghost use Rattle.aa_logs.specs.Outcomes.{RecordData, record_data};
ghost use Rattle.aa_logs.specs.Tasks.{moves, task_data, tasks_data, is_same_pid, takes, begun, gone_on, with_record, fits};

use crate::line::Record;
use aa_model::Request;
use std::alloc::{AllocError, Global};

/// The most tasks of a job.
const MOST_TASKS: usize = 1024;

/// The most requests of a task.
const MOST_REQUESTS: usize = 65536;

/// A task, as lines of logs tell it.
#[derive(Drop)]
pub struct LogTask {
    /// Its process, where the lines tell.
    pub pid: Option<u64>,
    /// The full name of the profile that asks.
    pub label: Vec<u8>,
    pub requests: Vec<Request>,
    /// Whether the last of them moves it: then it asks nothing more under this profile.
    pub is_over: bool,
}

fn moves(request: &Request) -> bool
    ensures { result ≡ moves request.now }
{
    match request {
        Request::Exec(_) | Request::Change(_) => true,
        Request::File(_)
        | Request::Link(_)
        | Request::Cap(_)
        | Request::Net(_, _)
        | Request::Reload(_) => false,
    }
}

fn is_same_pid(pid: Option<u64>, other: Option<u64>) -> bool
    ensures { result ≡ is_same_pid pid other }
{
    match (pid, other) {
        (None, None) => true,
        (Some(pid), Some(other)) => pid == other,
        _ => false,
    }
}

fn takes(task: &LogTask, asked: &Record) -> bool
    ensures { result ≡ takes (record_data asked.now) (task_data task.now) }
{
    !task.is_over
        && is_same_pid(task.pid, asked.pid)
        && task.label.as_slice() == asked.profile.as_slice()
}

/// The first task that takes a record.
fn place_of(tasks: &[LogTask], asked: &Record) -> Option<usize>
    ensures { result ≡ position (λ t. takes (record_data asked.now) (task_data t)) tasks.now }
{
    tasks.iter().position(|task| takes(task, asked))
}

/// Whether a job and its task can have one more request, at the place at which it is asked.
#[tactic(auto, using(crate::proofs::Placed::found_place, crate::proofs::Placed::no_place), unfolding(crate::specs::Tasks::fits))]
fn has_room(tasks: &[LogTask], place: Option<usize>) -> bool
    requires { IfSome place (λ n. n < length tasks.now) }
    ensures { (r : RecordData) → place ≡ position (λ t. takes r (task_data t)) tasks.now → result ≡ fits r (tasks_data tasks.now) }
{
    match place {
        Some(place) => tasks[place].requests.len() < MOST_REQUESTS,
        None => tasks.len() < MOST_TASKS,
    }
}

fn begun(alloc: Global, asked: Record) -> Result<LogTask, AllocError>
    ensures { IfOk result (λ t. task_data t ≡ begun (record_data asked)) }
{
    let Record {
        profile,
        request,
        pid,
        ..
    } = asked;
    let is_over = moves(&request);
    let mut requests = Vec::new(alloc);
    requests.push(request)?;
    Ok(LogTask {
        pid,
        label: profile,
        requests,
        is_over,
    })
}

fn go_on(task: &mut LogTask, request: Request) -> Result<(), AllocError>
    ensures { OnOk result (task_data task.new ≡ gone_on request (task_data task.old)) }
{
    task.is_over = moves(&request);
    task.requests.push(request)?;
    Ok(())
}

/// Has a request asked at its place among the tasks.
#[tactic(auto, using(crate::proofs::Placed::gone_on_there, crate::proofs::Placed::begun_behind))]
fn add_at(
    tasks: &mut Vec<LogTask>,
    alloc: Global,
    place: Option<usize>,
    asked: Record,
) -> Result<(), AllocError>
    requires { place ≡ position (λ t. takes (record_data asked) (task_data t)) tasks.old.items }
    ensures { OnOk result (tasks_data tasks.new.items ≡ with_record (record_data asked) (tasks_data tasks.old.items)) }
{
    let Some(place) = place else {
        tasks.push(begun(alloc, asked)?)?;
        return Ok(());
    };
    let Record { request, .. } = asked;
    go_on(&mut tasks[place], request)
}

/// Has a record's request asked by the task of its process and its profile, or by a new one where there is none, or where that
/// one was moved by what it asked last. False where a job can't have so many tasks, or a task so many requests.
pub fn take_record(
    tasks: &mut Vec<LogTask>,
    alloc: Global,
    asked: Record,
) -> Result<bool, AllocError>
    ensures fits { IfOk result (λ taken. taken ≡ fits (record_data asked) (tasks_data tasks.old.items)) }
    ensures taken { IfOk result (λ taken. tasks_data tasks.new.items ≡ (if taken then with_record (record_data asked) (tasks_data tasks.old.items) else tasks_data tasks.old.items)) }
{
    let seen = tasks.as_slice();
    let place = place_of(seen, &asked);
    let has_room = has_room(seen, place);
    if !has_room {
        return Ok(false);
    }
    add_at(tasks, alloc, place, asked)?;
    Ok(true)
}
