//! Lanes whose requests wait for one another, so that one thread alone can't serve them.
ghost use Rattle.std.specs.Prelude.{◌≡◌, ◌<◌, ◌≤◌, map};
ghost use Rattle.aa_lane.specs.Ends.{known};

use crate::comparing::{equal, holds};
use crate::pairs::{Numbered, Pairs};
use crate::pool::ends::{all_shut, opened, served};
use crate::pool::serving::{accepts_at, collected_at};
use aa_lane::{Lane, Owner};
use aa_pool::Engine;
use std::alloc::Global;
use std::process::Abort;
use std::sync::Wait;
use std::thread::Threads;

/// How many lanes accepted a request, that of the first task or, each other one, of the second.
fn asked_of_each(lanes: &[Lane<Pairs>], owners: &mut [Owner<Pairs>]) -> u64
    requires { map (λ o. o.lane) owners.old ≡ map known lanes.now }
    ensures { map (λ o. o.lane) owners.new ≡ map known lanes.now }
{
    let mut asked: u64 = 0;
    for i in 0..lanes.len() {
        let request = Numbered {
            is_first: i == 0,
            number: 0,
            awaited: 0,
        };
        if accepts_at(lanes, owners, i, request) {
            asked = asked.wrapping_add(1);
        }
    }
    asked
}

/// How many lanes have an answer.
fn answered_by_each(lanes: &[Lane<Pairs>], owners: &mut [Owner<Pairs>]) -> u64
    requires { map (λ o. o.lane) owners.old ≡ map known lanes.now }
{
    let mut answered: u64 = 0;
    for i in 0..lanes.len() {
        if collected_at(lanes, owners, i).is_some() {
            answered = answered.wrapping_add(1);
        }
    }
    answered
}

/// How many requests two lanes accepted, how many servers came back, and how many answers there are.
fn served_at<R: Abort + Threads + Wait + Sync>(
    rt: &R,
    alloc: Global,
    pairs: &Pairs,
    workers: u32,
) -> (u64, Option<usize>, u64)
    requires { (0 < workers) × (workers ≤ 16) }
{
    let Engine {
        lanes,
        mut owners,
        servers,
        mut shutters,
    } = opened(rt, alloc, pairs, &[(), ()], 1);
    let asked = asked_of_each(&lanes, &mut owners);
    holds(rt, all_shut(alloc, &lanes, &mut shutters));
    let served = served(rt, alloc, &lanes, servers, workers);
    (asked, served, answered_by_each(&lanes, &mut owners))
}

/// The same, and whether a request gave up.
fn served_by<R: Abort + Threads + Wait + Sync>(
    rt: &R,
    alloc: Global,
    workers: u32,
) -> ((u64, Option<usize>, u64), u64)
    requires { (0 < workers) × (workers ≤ 16) }
{
    let pairs = Pairs::new();
    let served = served_at(rt, alloc, &pairs, workers);
    (served, pairs.given_up())
}

#[test]
fn two_workers_serve_two_lanes_at_once(rt: HostRuntime) {
    for workers in [2, 16] {
        let found = served_by(&rt, rt.alloc(), workers);
        equal(&rt, found, ((2, Some(2), 2), 0));
    }
}
