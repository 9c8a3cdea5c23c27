//! Whole jobs where a growth is refused. Each test passes whichever of its growths is refused: it asks again, and what was
//! refused for want of memory has written nothing.

use crate::comparing::holds;
use crate::jobs::{COMMANDS, Command, FIRST_JOB, MOVED, MOVING_JOB, answer};
use aa_engine::RunFault;
use std::process::Abort;
use std::sync::Wait;
use std::thread::Threads;

// Tries again where a growth is refused. (None of the texts has a thousand bytes.)
fn is_answered_at_last<R: Abort + Threads + Wait + Sync + AllocGlobal>(
    rt: &R,
    command: Command,
    job: &[u8],
    text: &[u8],
) {
    for _ in 0..3 {
        if let Ok(mut written) = Vec::with_capacity(rt.alloc(), 1000) {
            let mut reader = job;
            let given = answer(rt, command, &mut reader, &mut written);
            if given == Ok(()) {
                return holds(rt, written.as_slice() == text);
            }
            holds(rt, given == Err(RunFault::NoMemory) && written.is_empty());
        }
    }
    panic!(rt; "refused each time")
}

#[test]
fn a_growth_refused_to_a_job_is_no_memory(rt: HostRuntime) {
    for (command, text) in COMMANDS {
        is_answered_at_last(&rt, command, FIRST_JOB, text);
    }
}

#[test]
fn a_growth_refused_to_several_workers_is_no_memory(rt: HostRuntime) {
    is_answered_at_last(&rt, Command::Run(2), MOVING_JOB, MOVED);
}
