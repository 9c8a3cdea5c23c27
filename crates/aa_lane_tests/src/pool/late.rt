//! Lanes that another thread shuts while workers have nothing to do at them.
ghost use Rattle.std.specs.Prelude.{◌≡◌, ◌<◌, ◌≤◌, map};
ghost use Rattle.aa_lane.specs.Ends.{known};

use crate::comparing::equal;
use crate::pool::ends::{all_shut, opened, served};
use crate::sum::Sum;
use aa_lane::{Lane, Shutter};
use aa_pool::Engine;
use std::alloc::Global;
use std::process::Abort;
use std::sync::Wait;
use std::thread::{Threads, join};

/// Whether all lanes could be shut.
fn shut(alloc: Global, lanes: &[Lane<Sum>], shutters: Vec<Shutter<Sum>>) -> bool
    requires { map (λ s. s.lane) shutters.items ≡ map known lanes.now }
{
    let mut shutters = shutters;
    all_shut(alloc, lanes, &mut shutters)
}

/// Both at once, on two lanes.
fn both<R: Abort + Threads + Wait + Sync>(
    rt: &R,
    alloc: Global,
    workers: u32,
) -> (bool, Option<usize>)
    requires { (0 < workers) × (workers ≤ 16) }
{
    let sum = Sum;
    let Engine {
        lanes,
        servers,
        shutters,
        ..
    } = opened(rt, alloc, &sum, &[0, 0], 1);
    let lanes = lanes.as_slice();
    join(
        rt,
        move ||
            requires { map (λ s. s.lane) shutters.items ≡ map known lanes.now }
        { shut(alloc, lanes, shutters) },
        move ||
            requires servers { map (λ s. s.lane) servers.items ≡ map known lanes.now }
            requires workers { (0 < workers) × (workers ≤ 16) }
        { served(rt, alloc, lanes, servers, workers) },
    )
}

#[test]
fn lanes_are_shut_while_workers_wait(rt: HostRuntime) {
    for workers in [1, 2, 16] {
        equal(&rt, both(&rt, rt.alloc(), workers), (true, Some(2)));
    }
}
