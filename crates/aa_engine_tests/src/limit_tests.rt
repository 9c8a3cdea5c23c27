//! Jobs of as many tasks, requests and events as there may be, and of one more.

use crate::comparing::{push, push_part};
use crate::jobs::{Command, TOO_LARGE, gives};
use std::process::Abort;
use std::sync::Wait;
use std::thread::Threads;

/// A task that asks so often, for the path of each number from that one on.
fn push_task(rt: &(impl Abort + AllocGlobal), text: &mut String, first: u32, requests: u32) {
    push(rt, text, r#"{"label":"p","requests":["#);
    for number in 0..requests {
        let sign = if number == 0 { "" } else { "," };
        let path = first.wrapping_add(number);
        let part = format!(in rt.alloc(); r#"{sign}{{"file":"/{path}","mask":"r"}}"#);
        push_part(rt, text, part);
    }
    push(rt, text, "]}");
}

/// A job of so many tasks, with so many requests each, for paths from the task's own number on. Paths with even numbers may be read.
fn job_of(rt: &(impl Abort + AllocGlobal), tasks: u32, requests: u32, capacity: u32) -> String {
    const FRONT: &str = r#"{"policy":"profile p { /*[02468] r, }","tasks":["#;
    let mut text = String::new(rt.alloc());
    push(rt, &mut text, FRONT);
    for task in 0..tasks {
        push(rt, &mut text, if task == 0 { "" } else { "," });
        push_task(rt, &mut text, task, requests);
    }
    let end = format!(in rt.alloc(); r#"],"capacity":{capacity}}}"#);
    push_part(rt, &mut text, end);
    text
}

/// What `run` writes for a task.
fn push_verdicts(rt: &(impl Abort + AllocGlobal), text: &mut String, task: u32, requests: u32) {
    for number in 0..requests {
        let path = task.wrapping_add(number);
        let line = if path.is_multiple_of(2) {
            format!(in rt.alloc(); "{task} {number} granted label=\"p\"\n")
        } else {
            format!(in rt.alloc();
                "{task} {number} denied label=\"p\"\napparmor=\"DENIED\" operation=\"file\" profile=\"p\" name=\"/{path}\" requested_mask=\"r\" denied_mask=\"r\"\n"
            )
        };
        push_part(rt, text, line);
    }
}

/// The same for the job.
fn verdicts_of(rt: &(impl Abort + AllocGlobal), tasks: u32, requests: u32) -> String {
    let mut text = String::new(rt.alloc());
    for task in 0..tasks {
        push_verdicts(rt, &mut text, task, requests);
    }
    text
}

/// `run` by these numbers of workers writes that text.
fn runs<R: Abort + Threads + Wait + Sync + AllocGlobal>(
    rt: &R,
    workers: &[u32],
    job: &String,
    text: &String,
) {
    for number in workers {
        let (command, wanted) = (Command::Run(*number), Ok(text.as_bytes()));
        gives(rt, command, job.as_bytes(), wanted);
    }
}

#[test]
fn sixteen_workers_decide_as_many_tasks_as_there_may_be(rt: HostRuntime) {
    for (capacity, requests) in [(1, 3), (1024, 20)] {
        let text = verdicts_of(&rt, 1024, requests);
        let job = job_of(&rt, 1024, requests, capacity);
        runs(&rt, &[1, 16], &job, &text);
    }
    let job = job_of(&rt, 1025, 1, 1);
    gives(&rt, Command::Run(16), job.as_bytes(), Err(TOO_LARGE));
}

#[test]
fn any_small_number_of_tasks_is_decided(rt: HostRuntime) {
    for tasks in 0..33u32 {
        let text = verdicts_of(&rt, tasks, 2);
        runs(&rt, &[1, 2], &job_of(&rt, tasks, 2, 1), &text);
    }
}

#[test]
fn a_task_asks_as_often_as_it_may(rt: HostRuntime) {
    let text = verdicts_of(&rt, 1, 65_536);
    runs(&rt, &[1], &job_of(&rt, 1, 65_536, 1), &text);
    runs(&rt, &[1, 2], &job_of(&rt, 1, 65_536, 1024), &text);
    let job = job_of(&rt, 1, 65_537, 1);
    gives(&rt, Command::Run(2), job.as_bytes(), Err(TOO_LARGE));
}

/// A job of so many events, of which each takes from a lane that nothing was sent to.
fn job_of_events(rt: &(impl Abort + AllocGlobal), count: u32) -> String {
    const FRONT: &str =
        r#"{"policy":"","tasks":[{"label":"unconfined","requests":[]}],"events":[[0,"take"]"#;
    let mut job = String::new(rt.alloc());
    push(rt, &mut job, FRONT);
    for _ in 1..count {
        push(rt, &mut job, r#",[0,"take"]"#);
    }
    push(rt, &mut job, "]}");
    job
}

#[test]
fn as_many_events_happen_as_there_may_be(rt: HostRuntime) {
    let mut text = String::new(rt.alloc());
    for _ in 0..1_000_000u32 {
        push(&rt, &mut text, "0 take idle\n");
    }
    let job = job_of_events(&rt, 1_000_000);
    gives(&rt, Command::Replay, job.as_bytes(), Ok(text.as_bytes()));
    let job = job_of_events(&rt, 1_000_001);
    gives(&rt, Command::Replay, job.as_bytes(), Err(TOO_LARGE));
}
