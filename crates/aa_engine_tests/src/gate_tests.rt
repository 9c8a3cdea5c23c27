//! Two tasks whose requests wait for one another, so that one thread alone can't decide them.

ghost use Rattle.aa_mediate.specs.Reply.{reply};

use crate::comparing::equal;
use crate::jobs::{BOTH, Requests, a_job, answers, compiled};
use aa_compile::Compiled;
use aa_engine::MediateFault;
use aa_machine::Machine;
use aa_mediate::Mediator;
use aa_model::{Answer, Label, Request};
use std::process::Abort;
use std::sync::Wait;
use std::sync::atomic::{AtomicU64, Ordering};
use std::thread;
use std::thread::Threads;

/// Decides as the policies do. A step of a confined task and one of an unconfined task wait a while for each other, and that
/// one of them gave up is noted.
#[derive(Drop)]
struct Gates<'p> {
    mediator: Mediator<'p>,
    /// How often a step looks whether the other is there.
    looks: u32,
    confined: AtomicU64,
    unconfined: AtomicU64,
    given_up: AtomicU64,
}

impl<'p> Gates<'p> {
    fn new(policies: &'p [Compiled], looks: u32) -> Gates<'p> {
        Gates {
            mediator: Mediator::new(policies),
            looks,
            confined: AtomicU64::new(0),
            unconfined: AtomicU64::new(0),
            given_up: AtomicU64::new(0),
        }
    }

    fn wait_for_the_other(&self, label: Label) {
        let (mine, other) = match label {
            Label::Confined(_, _) => (&self.confined, &self.unconfined),
            Label::Unconfined(_) => (&self.unconfined, &self.confined),
        };
        mine.store(1, Ordering::SeqCst);
        for _ in 0..self.looks {
            if other.load(Ordering::SeqCst) == 1 {
                return;
            }
            thread::yield_now();
        }
        self.given_up.store(1, Ordering::SeqCst);
    }
}

impl<'p> Machine for Gates<'p> {
    type State = Label;

    type Request = Request;

    type Answer = Answer;

    ghost next = { λ g label request. (reply g.mediator label request).label };

    ghost reply = { λ g label request. reply g.mediator label request };

    fn step(&self, state: &mut Label, request: &Request) -> Answer {
        self.wait_for_the_other(*state);
        self.mediator.step(state, request)
    }
}

const TWO_TASKS: &[u8] =
    b"{\"policy\":\"profile p { /etc/passwd r, }\",\"tasks\":[{\"label\":\"p\",\"requests\":[{\"file\":\"/etc/passwd\",\"mask\":\"r\"}]},{\"label\":\"unconfined\",\"requests\":[{\"file\":\"/etc/passwd\",\"mask\":\"r\"}]}]}";

/// How many requests are granted by that many workers, and whether a step gave up.
fn granted_by<R: Abort + Threads + Wait + Sync + AllocGlobal>(
    rt: &R,
    requests: Requests,
    workers: u32,
) -> (Result<usize, MediateFault>, u64) {
    let job = a_job(rt, TWO_TASKS);
    let policies = compiled(rt, &job);
    // (to one worker nobody comes, however long it waits)
    let looks = if workers == 1 { 1_000 } else { 10_000_000 };
    let gates = Gates::new(policies.as_slice(), looks);
    let told = answers(rt, requests, (&job, policies.as_slice()), &gates, workers);
    let granted = told.map(|it| it.as_bytes().iter().filter(|byte| **byte == b'+').count());
    (granted, gates.given_up.load(Ordering::SeqCst))
}

#[test]
fn two_workers_decide_two_tasks_at_once(rt: HostRuntime) {
    for requests in BOTH {
        for workers in [2, 16] {
            equal(&rt, granted_by(&rt, requests, workers), (Ok(2), 0));
        }
    }
}

#[test]
fn one_worker_decides_them_one_after_the_other(rt: HostRuntime) {
    for requests in BOTH {
        equal(&rt, granted_by(&rt, requests, 1), (Ok(2), 1));
    }
}
