//! Jobs and policies that break off.

use crate::comparing::holds;
use crate::jobs::{COMMANDS, Command, FIRST_JOB, MOVING_JOB, answer, gives};
use aa_engine::RunFault;
use aa_jobs::JobFault;
use std::process::Abort;
use std::sync::Wait;
use std::thread::Threads;

/// Each command refuses the text.
fn is_no_json<R: Abort + Threads + Wait + Sync + AllocGlobal>(rt: &R, text: &[u8]) {
    for (command, _) in COMMANDS {
        let fault = RunFault::Job(JobFault::NotJson);
        gives(rt, command, text, Err(fault));
    }
}

#[test]
fn no_front_of_a_job_is_one(rt: HostRuntime) {
    for job in [FIRST_JOB, MOVING_JOB] {
        for end in 0..job.len() {
            is_no_json(&rt, &job[..end]);
        }
    }
}

/// A policy with each fallback.
const EXECUTING: &str = "profile p { /a pix, /b px, /c pux, /d Px -> q, /e PUx, } profile q { }";

/// Whether a front of it, or nothing, ends with a whole profile.
fn is_whole(front: &[u8]) -> bool {
    match front.strip_suffix(b" ") {
        Some(front) => matches!(front, [.., b'}']),
        None => matches!(front, [] | [.., b'}']),
    }
}

#[test]
fn a_front_of_a_policy_is_one_where_it_has_whole_profiles(rt: HostRuntime) {
    for end in 0..=EXECUTING.len() {
        let front = EXECUTING.get(..end).expect(&rt, "a front");
        let job = format!(in rt.alloc(); r#"{{"tasks":[],"policy":"{front}"}}"#);
        let job = job.expect(&rt, "memory");
        let (mut reader, mut written) = (job.as_bytes(), Vec::new(rt.alloc()));
        let found = answer(&rt, Command::Check, &mut reader, &mut written);
        let is_refused = matches!(found, Err(RunFault::Policy(_))) && written.is_empty();
        assert_eq!(rt; found.is_ok(), is_whole(front.as_bytes()), "at {end}");
        holds(&rt, found.is_ok() || is_refused);
    }
}
