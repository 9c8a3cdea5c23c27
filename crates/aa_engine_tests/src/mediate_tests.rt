//! Tasks that a program has answered by calls of its own.

use crate::comparing::equal;
use crate::jobs::{
    BOTH, Command, MOVED, MOVING_JOB, Requests, answers, gives, job_of, policies_of,
};
use aa_engine::MediateFault;
use aa_mediate::Mediator;
use std::process::Abort;
use std::sync::Wait;
use std::thread::Threads;

/// What the tasks of the moving job are answered.
const MOVES: &str = "0-0.0 1+0.1 2+0.1 |0+0.1 1-0.1 ||";

/// The tasks of a job are answered so, or there is that fault; there may be no memory for job, policies and answers: then nothing is said.
fn is_answered<R: Abort + Threads + Wait + Sync + AllocGlobal>(
    rt: &R,
    requests: Requests,
    text: &[u8],
    wanted: Result<&str, MediateFault>,
    workers: u32,
) -> bool {
    let Some(job) = job_of(rt.alloc(), text) else {
        return false;
    };
    let Some(policies) = policies_of(rt.alloc(), &job) else {
        return false;
    };
    let mediator = Mediator::new(policies.as_slice());
    let asked = (&job, policies.as_slice());
    let given = answers(rt, requests, asked, &mediator, workers);
    match &given {
        Err(MediateFault::NoMemory) => return false,
        Err(fault) => equal(rt, Err(*fault), wanted),
        Ok(told) => equal(rt, Ok(told.as_str()), wanted),
    }
    true
}

/// They are, by these numbers of workers, with copied requests and with lent ones.
fn are_answered<R: Abort + Threads + Wait + Sync + AllocGlobal>(
    rt: &R,
    text: &[u8],
    wanted: Result<&str, MediateFault>,
    workers: &[u32],
) {
    for requests in BOTH {
        for number in workers {
            equal(rt, is_answered(rt, requests, text, wanted, *number), true);
        }
    }
}

#[test]
fn three_tasks_are_answered_by_any_number_of_workers(rt: HostRuntime) {
    are_answered(&rt, MOVING_JOB, Ok(MOVES), &[1, 2, 16]);
}

/// A task that asks for each kind of request: a file, a link, an execution, a change of the profile, a capability, a socket and
/// another policy, and then for the file again.
const EACH_KIND: &[u8] =
    b"{\"policies\":[\"profile p { owner /f r, /l rwl, /t rw, /b Px -> q, capability chown, network inet stream, } profile q { change_profile -> p, }\",\"profile p { /f w, }\"],\"tasks\":[{\"label\":\"p\",\"requests\":[{\"file\":\"/f\",\"mask\":\"r\",\"owned\":true},{\"link\":\"/l\",\"to\":\"/t\"},{\"exec\":\"/b\"},{\"change\":\"p\"},{\"cap\":\"chown\"},{\"net\":\"inet\",\"type\":\"stream\"},{\"reload\":1},{\"file\":\"/f\",\"mask\":\"r\",\"owned\":true}]}]}";

#[test]
fn requests_of_each_kind_are_answered(rt: HostRuntime) {
    const WANTED: &str = "0+0.0 1+0.0 2+0.1 3+0.0 4+0.0 5+0.0 6+1.0 7-1.0 |";
    are_answered(&rt, EACH_KIND, Ok(WANTED), &[1, 2]);
}

#[test]
fn the_first_task_without_a_profile_is_named(rt: HostRuntime) {
    const UNKNOWN: &[u8] =
        b"{\"policy\":\"profile p { }\",\"tasks\":[{\"label\":\"p\",\"requests\":[]},{\"label\":\"z\",\"requests\":[]},{\"label\":\"y\",\"requests\":[]}]}";
    are_answered(&rt, UNKNOWN, Err(MediateFault::UnknownProfile(1)), &[1, 2]);
}

/// The tasks of the moving job are answered so, where a growth that is refused is asked for again.
fn is_answered_at_last<R: Abort + Threads + Wait + Sync + AllocGlobal>(
    rt: &R,
    requests: Requests,
    workers: u32,
) -> bool {
    for _ in 0..3 {
        if is_answered(rt, requests, MOVING_JOB, Ok(MOVES), workers) {
            return true;
        }
    }
    false
}

#[test]
fn a_growth_refused_to_tasks_of_a_job_is_no_memory(rt: HostRuntime) {
    for requests in BOTH {
        for workers in [1, 2] {
            equal(&rt, is_answered_at_last(&rt, requests, workers), true);
        }
    }
}

#[test]
fn tasks_move_whatever_the_capacity(rt: HostRuntime) {
    let front = MOVING_JOB.strip_suffix(b"}").expect(&rt, "it is closed");
    const RESTS: &str = r#"} ,"capacity":1} ,"capacity":2} ,"capacity":1024}"#;
    for rest in RESTS.split(' ') {
        let mut job = Vec::from_slice(rt.alloc(), front).expect(&rt, "memory");
        job.extend_from_slice(rest.as_bytes()).expect(&rt, "memory");
        for workers in [1, 2, 16] {
            gives(&rt, Command::Run(workers), job.as_slice(), Ok(MOVED));
        }
    }
}
