//! Tasks of sums, by several numbers of workers and at several capacities.
ghost use Rattle.std.specs.Prelude.{◌<◌, ◌≤◌};

use crate::comparing::equal;
use crate::feed::tasks::{rights, tasks_of, unchanged};
use crate::sum::Sum;
use aa_pool::{EngineFault, Outcome, Refusal, answer_all};
use std::alloc::Global;
use std::sync::Wait;
use std::thread::Threads;

/// How many tasks have outcomes, how many answers are right and in their places, how many requests the lanes accepted, answered
/// and gave back.
fn counts_of(outcomes: &[Outcome<Sum>]) -> [u64; 5] {
    let mut right: u64 = 0;
    let mut accepted: u64 = 0;
    let mut answered: u64 = 0;
    let mut collected: u64 = 0;
    for number in 0..outcomes.len() {
        let outcome = &outcomes[number];
        right = right.wrapping_add(rights(number as u64, outcome.answers.as_slice()));
        accepted = accepted.wrapping_add(outcome.totals.accepted);
        answered = answered.wrapping_add(outcome.totals.answered);
        collected = collected.wrapping_add(outcome.totals.collected);
    }
    [outcomes.len() as u64, right, accepted, answered, collected]
}

/// Those counts, or why and with how many unchanged tasks so many tasks with so many requests each were refused.
fn answered_by<R: Threads + Wait + Sync>(
    rt: &R,
    alloc: Global,
    tasks: u64,
    count: u64,
    capacity: u32,
    workers: u32,
) -> Result<[u64; 5], (EngineFault, u64)>
    requires { (0 < workers) × (workers ≤ 16) }
{
    let sum = Sum;
    let Ok(tasks) = tasks_of(alloc, tasks, count) else {
        return Err((EngineFault::NoMemory, 0));
    };
    match answer_all(rt, alloc, &sum, tasks, capacity, workers) {
        Ok(outcomes) => Ok(counts_of(outcomes.as_slice())),
        Err(Refusal { fault, tasks }) => Err((fault, unchanged(tasks.as_slice(), count as usize))),
    }
}

/// So many tasks, with so many requests in all.
fn all_of(tasks: u64, requests: u64) -> Result<[u64; 5], (EngineFault, u64)> {
    Ok([tasks, requests, requests, requests, requests])
}

#[test]
fn answers_are_the_same_by_any_number_of_workers(rt: HostRuntime) {
    for workers in [1, 2, 4, 16] {
        for capacity in [1, 2, 1024] {
            let found = answered_by(&rt, rt.alloc(), 5, 1500, capacity, workers);
            equal(&rt, found, all_of(5, 7500));
        }
    }
}

#[test]
fn no_task_and_tasks_without_a_request(rt: HostRuntime) {
    for workers in [1, 2, 4, 16] {
        let found = answered_by(&rt, rt.alloc(), 0, 3, 1, workers);
        equal(&rt, found, all_of(0, 0));
        let found = answered_by(&rt, rt.alloc(), 3, 0, 2, workers);
        equal(&rt, found, all_of(3, 0));
    }
}

#[test]
fn as_many_tasks_as_there_may_be(rt: HostRuntime) {
    let found = answered_by(&rt, rt.alloc(), 1024, 5, 3, 16);
    equal(&rt, found, all_of(1024, 5120));
}

#[test]
fn tasks_come_back_where_there_are_too_many_or_the_capacity_is_bad(rt: HostRuntime) {
    let rows = [
        (1025, 0, EngineFault::TooManyLanes),
        (1025, 1, EngineFault::TooManyLanes),
        (2, 0, EngineFault::BadCapacity),
        (2, 1025, EngineFault::BadCapacity),
    ];
    for (tasks, capacity, fault) in rows {
        let found = answered_by(&rt, rt.alloc(), tasks, 3, capacity, 2);
        equal(&rt, found, Err((fault, tasks)));
    }
}

#[test]
fn growths_refused_to_tasks(rt: HostRuntime) {
    for _ in 0..100 {
        match answered_by(&rt, rt.alloc(), 3, 4, 2, 2) {
            Ok(counts) => {
                equal(&rt, counts, [3, 12, 12, 12, 12]);
                return;
            }
            Err((fault, tasks)) => {
                equal(&rt, fault, EngineFault::NoMemory);
                equal(&rt, tasks == 0 || tasks == 3, true);
            }
        }
    }
    panic!(rt; "refused each time")
}
