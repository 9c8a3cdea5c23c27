//! Tasks for a machine that adds numbers.
ghost use Rattle.std.specs.Prelude.{◌≡◌};

use crate::sum::Sum;
use aa_lane::Answered;
use aa_pool::Task;
use std::alloc::{AllocError, Global};
use std::collections::VecDeque;

/// Request k of the task of that number, which begins from its number.
fn request(number: u64, k: u64) -> u64 {
    (number % 1000 * 7 + k % 1000) % 1000
}

/// The task of that number, with so many requests.
fn a_task(alloc: Global, number: u64, count: u64) -> Result<Task<Sum>, AllocError> {
    let mut requests = VecDeque::new(alloc);
    for k in 0..count {
        let Ok(()) = requests.push_back(request(number, k)) else {
            return Err(AllocError);
        };
    }
    Ok(Task {
        start: number,
        requests,
    })
}

/// So many tasks, with so many requests each.
pub fn tasks_of(alloc: Global, tasks: u64, count: u64) -> Result<Vec<Task<Sum>>, AllocError> {
    let mut made = Vec::new(alloc);
    for number in 0..tasks {
        let Ok(()) = made.push(a_task(alloc, number, count)?) else {
            return Err(AllocError);
        };
    }
    Ok(made)
}

/// How many answers to the task of that number are in their place, and what adding one request after another gives.
pub fn rights(number: u64, answers: &[Answered<Sum>]) -> u64 {
    let mut sum = number;
    let mut rights: u64 = 0;
    for k in 0..answers.len() {
        let wanted = request(number, k as u64);
        sum = (sum % 1000 + wanted % 1000) % 1000;
        let given = &answers[k];
        if given.number == k as u64 && given.request == wanted && given.answer == sum {
            rights = rights.wrapping_add(1);
        }
    }
    rights
}

/// How many tasks are the first ones that were made, with that many requests each.
pub fn unchanged(tasks: &[Task<Sum>], count: usize) -> u64 {
    let mut unchanged: u64 = 0;
    for number in 0..tasks.len() {
        let task = &tasks[number];
        if task.start == number as u64 && task.requests.len() == count {
            unchanged = unchanged.wrapping_add(1);
        }
    }
    unchanged
}
