//! Two tasks whose requests wait for those of the other: each of many for that of its number, so that two workers are at them to the
//! end; or one alone for the last of many, which are sent while it waits.
ghost use Rattle.std.specs.Prelude.{◌<◌, ◌≤◌};

use crate::comparing::{equal, holds};
use crate::pairs::{Numbered, Pairs};
use aa_pool::{Task, answer_all};
use std::alloc::Global;
use std::collections::VecDeque;
use std::process::Abort;
use std::sync::Wait;
use std::thread::Threads;

/// How many requests a task has.
const REQUESTS: u64 = 1000;

/// One of the two tasks, of so many requests. Each waits for that of its number, or all for the same.
fn a_task(
    rt: &impl Abort,
    alloc: Global,
    is_first: bool,
    count: u64,
    awaited: Option<u64>,
) -> Task<Pairs> {
    let mut requests = VecDeque::new(alloc);
    for number in 0..count {
        let request = Numbered {
            is_first,
            number,
            awaited: awaited.unwrap_or(number),
        };
        holds(rt, requests.push_back(request).is_ok());
    }
    Task {
        start: (),
        requests,
    }
}

/// Two tasks.
fn both(
    rt: &impl Abort,
    alloc: Global,
    first: Task<Pairs>,
    second: Task<Pairs>,
) -> Vec<Task<Pairs>> {
    let mut tasks = Vec::with_capacity(alloc, 2).expect(rt, "memory");
    tasks.push_reserved(first);
    tasks.push_reserved(second);
    tasks
}

/// Two of so many requests, each of which waits for that of its number.
fn in_step(rt: &impl Abort, alloc: Global, count: u64) -> Vec<Task<Pairs>> {
    let first = a_task(rt, alloc, true, count, None);
    let second = a_task(rt, alloc, false, count, None);
    both(rt, alloc, first, second)
}

/// One of a single request, which waits for the last of many.
fn far_apart(rt: &impl Abort, alloc: Global) -> Vec<Task<Pairs>> {
    let first = a_task(rt, alloc, true, 1, Some(REQUESTS - 1));
    let second = a_task(rt, alloc, false, REQUESTS, Some(0));
    both(rt, alloc, first, second)
}

/// How many answers there are in all, with that many workers and lanes of that capacity, and whether a request gave up.
fn answered_by<R: Abort + Threads + Wait + Sync>(
    rt: &R,
    alloc: Global,
    tasks: Vec<Task<Pairs>>,
    capacity: u32,
    workers: u32,
) -> (usize, u64)
    requires { (0 < workers) × (workers ≤ 16) }
{
    let pairs = Pairs::new();
    let mut count: usize = 0;
    if let Ok(outcomes) = answer_all(rt, alloc, &pairs, tasks, capacity, workers) {
        for outcome in outcomes.as_slice() {
            count = count.wrapping_add(outcome.answers.len());
        }
    }
    (count, pairs.given_up())
}

#[test]
fn two_workers_answer_two_tasks_at_once(rt: HostRuntime) {
    for workers in [2, 16] {
        let tasks = in_step(&rt, rt.alloc(), 1);
        let found = answered_by(&rt, rt.alloc(), tasks, 1, workers);
        equal(&rt, found, (2, 0));
    }
}

#[test]
fn workers_go_on_as_long_as_there_are_requests(rt: HostRuntime) {
    for capacity in [1, 3, 1024] {
        for workers in [2, 16] {
            let tasks = in_step(&rt, rt.alloc(), REQUESTS);
            let found = answered_by(&rt, rt.alloc(), tasks, capacity, workers);
            equal(&rt, found, (2000, 0));
        }
    }
}

#[test]
fn lanes_are_fed_while_a_request_waits(rt: HostRuntime) {
    for capacity in [1, 3, 1024] {
        for workers in [2, 16] {
            let tasks = far_apart(&rt, rt.alloc());
            let found = answered_by(&rt, rt.alloc(), tasks, capacity, workers);
            equal(&rt, found, (1001, 0));
        }
    }
}
