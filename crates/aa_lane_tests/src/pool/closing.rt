//! Lanes that are closed by their three ends, after a pool has served them.
ghost use Rattle.std.specs.Prelude.{◌≡◌, ◌<◌, ◌≤◌, ◌∷◌, [], map};
ghost use Rattle.std.specs.List.Sorted.{IsPermutation};
ghost use Rattle.aa_lane.specs.Ends.{known};

use crate::comparing::equal;
use crate::lane::bench::{Bench, closed};
use crate::pool::ends::{accepts, opened};
use crate::sum::Sum;
use aa_lane::{Lane, Owner, Server, Shutter};
use aa_pool::{Engine, serve_all};
use std::alloc::Global;
use std::process::Abort;
use std::sync::Wait;
use std::thread::Threads;

/// What a list holds: that is one alone.
fn only<T: Drop>(rt: &impl Abort, list: Vec<T>) -> T
    ensures { list.items ≡ result ∷ [] }
{
    let mut list = list;
    let only = list.pop().expect(rt, "one");
    assert!(rt; list.is_empty());
    only
}

/// Sends the numbers from 0 on, as many as that.
fn sends(lane: &Lane<Sum>, owner: &mut Owner<Sum>, count: u64)
    requires { owner.old.lane ≡ known lane.now }
    ensures { owner.new.lane ≡ owner.old.lane }
{
    for request in 0..count {
        accepts(owner, lane, request);
    }
}

/// What all servers are once so many workers have settled their lanes.
fn served<R: Abort + Threads + Wait + Sync>(
    rt: &R,
    alloc: Global,
    lanes: &[Lane<Sum>],
    servers: Vec<Server<Sum>>,
    workers: u32,
) -> Vec<Server<Sum>>
    requires servers { map (λ s. s.lane) servers.items ≡ map known lanes.now }
    requires workers { (0 < workers) × (workers ≤ 16) }
    ensures { IsPermutation (map known lanes.now) (map (λ s. s.lane) result.items) }
{
    match serve_all(rt, alloc, lanes, servers, workers) {
        Ok(served) => served,
        Err(_) => panic!(rt; "memory"),
    }
}

/// A lane and its server, once so many workers have settled it.
fn settled_by<'m, R: Abort + Threads + Wait + Sync>(
    rt: &R,
    alloc: Global,
    lanes: Vec<Lane<'m, Sum>>,
    servers: Vec<Server<Sum>>,
    workers: u32,
) -> (Lane<'m, Sum>, Server<Sum>)
    requires servers { map (λ s. s.lane) servers.items ≡ map known lanes.items }
    requires workers { (0 < workers) × (workers ≤ 16) }
    ensures lane { lanes.entry.items ≡ result.0 ∷ [] }
    ensures server { result.1.lane ≡ known result.0 }
{
    let served = served(rt, alloc, &lanes, servers, workers);
    (only(rt, lanes), only(rt, served))
}

/// What shutting the lane counts after so many requests were sent.
fn sends_and_shuts(
    lane: &Lane<Sum>,
    owner: &mut Owner<Sum>,
    shutter: &mut Shutter<Sum>,
    count: u64,
) -> u64
    requires owner { owner.old.lane ≡ known lane.now }
    requires shutter { shutter.old.lane ≡ known lane.now }
    ensures owner { owner.new.lane ≡ owner.old.lane }
    ensures shutter { shutter.new.lane ≡ shutter.old.lane }
{
    sends(lane, owner, count);
    shutter.shut(lane)
}

/// What closing the one lane tells, to which so many requests were sent, and which its pool then served.
fn served_and_closed<R: Abort + Threads + Wait + Sync>(
    rt: &R,
    alloc: Global,
    lanes: Vec<Lane<Sum>>,
    owner: Owner<Sum>,
    servers: Vec<Server<Sum>>,
    shutter: Shutter<Sum>,
    count: u64,
    workers: u32,
) -> [u64; 4]
    requires owner { owner.lane ∷ [] ≡ map known lanes.items }
    requires servers { map (λ s. s.lane) servers.items ≡ map known lanes.items }
    requires shutter { shutter.lane ≡ owner.lane }
    requires workers { (0 < workers) × (workers ≤ 16) }
{
    let mut owner = owner;
    let mut shutter = shutter;
    let accepted = sends_and_shuts(&lanes[0], &mut owner, &mut shutter, count);
    let (lane, server) = settled_by(rt, alloc, lanes, servers, workers);
    let ends = Bench::of(&lane, owner, server, shutter).leaves();
    let closed = closed(lane, ends);
    equal(rt, accepted, closed[0]);
    closed
}

/// The same for a lane that begins at this state.
fn closed_after<R: Abort + Threads + Wait + Sync>(
    rt: &R,
    alloc: Global,
    start: u64,
    count: u64,
    workers: u32,
) -> [u64; 4]
    requires { (0 < workers) × (workers ≤ 16) }
{
    let sum = Sum;
    let Engine {
        lanes,
        owners,
        servers,
        shutters,
    } = opened(rt, alloc, &sum, &[start], 16);
    let owner = only(rt, owners);
    let shutter = only(rt, shutters);
    served_and_closed(rt, alloc, lanes, owner, servers, shutter, count, workers)
}

#[test]
fn a_served_lane_is_closed_by_its_ends(rt: HostRuntime) {
    for (start, count, workers, totals) in [
        (5, 0, 1, [0, 0, 0, 5]),
        (5, 0, 16, [0, 0, 0, 5]),
        (0, 5, 2, [5, 5, 0, 10]),
        (990, 20, 16, [16, 16, 0, 110]),
    ] {
        let found = closed_after(&rt, rt.alloc(), start, count, workers);
        equal(&rt, found, totals);
    }
}
