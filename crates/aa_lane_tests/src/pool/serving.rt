//! Lanes that are served until each is settled.
ghost use Rattle.std.specs.Prelude.{◌≡◌, ◌<◌, ◌≤◌, length, map};
ghost use Rattle.aa_lane.specs.Ends.{known};

use crate::comparing::equal;
use crate::pool::ends::{accepts, all_shut, collected};
use crate::sum::{Sum, sum_up_to};
use aa_lane::{Lane, Owner, Server, Shutter};
use aa_machine::Machine;
use aa_pool::{Engine, EngineFault, serve_all};
use std::alloc::Global;
use std::sync::Wait;
use std::thread::Threads;

/// Whether lane i accepted the request.
pub fn accepts_at<M: Machine>(
    lanes: &[Lane<M>],
    owners: &mut [Owner<M>],
    i: usize,
    request: M::Request,
) -> bool
    requires lanes { map (λ o. o.lane) owners.old ≡ map known lanes.now }
    requires within { i < length lanes.now }
    ensures { map (λ o. o.lane) owners.new ≡ map known lanes.now }
{
    accepts(&mut owners[i], &lanes[i], request)
}

/// The next answer of lane i, if there is one.
pub fn collected_at<M: Machine>(
    lanes: &[Lane<M>],
    owners: &mut [Owner<M>],
    i: usize,
) -> Option<M::Answer>
    requires lanes { map (λ o. o.lane) owners.old ≡ map known lanes.now }
    requires within { i < length lanes.now }
    ensures { map (λ o. o.lane) owners.new ≡ map known lanes.now }
{
    collected(&mut owners[i], &lanes[i])
}

/// How many of the requests from 0 up to `count` lane i accepted.
fn sent_to(lanes: &[Lane<Sum>], owners: &mut [Owner<Sum>], i: usize, count: u64) -> u64
    requires lanes { map (λ o. o.lane) owners.old ≡ map known lanes.now }
    requires within { i < length lanes.now }
    ensures { map (λ o. o.lane) owners.new ≡ map known lanes.now }
{
    let mut sent: u64 = 0;
    for request in 0..count {
        if accepts_at(lanes, owners, i, request) {
            sent = sent.wrapping_add(1);
        }
    }
    sent
}

/// How many requests all lanes accepted, of `count` for each.
fn sent_to_each(lanes: &[Lane<Sum>], owners: &mut [Owner<Sum>], count: u64) -> u64
    requires { map (λ o. o.lane) owners.old ≡ map known lanes.now }
    ensures { map (λ o. o.lane) owners.new ≡ map known lanes.now }
{
    let mut sent: u64 = 0;
    for i in 0..lanes.len() {
        sent = sent.wrapping_add(sent_to(lanes, owners, i, count));
    }
    sent
}

/// How many of the first `count` answers of lane i are those that one thread gets, where nothing stands behind them.
fn answered_by(lanes: &[Lane<Sum>], owners: &mut [Owner<Sum>], i: usize, count: u64) -> u64
    requires lanes { map (λ o. o.lane) owners.old ≡ map known lanes.now }
    requires within { i < length lanes.now }
    ensures { map (λ o. o.lane) owners.new ≡ map known lanes.now }
{
    let mut answered: u64 = 0;
    for request in 0..count {
        if collected_at(lanes, owners, i) == Some(sum_up_to(request)) {
            answered = answered.wrapping_add(1);
        }
    }
    if collected_at(lanes, owners, i) == None {
        answered
    } else {
        0
    }
}

/// How many answers of all lanes are right, where each has `count`.
fn answered_by_each(lanes: &[Lane<Sum>], owners: &mut [Owner<Sum>], count: u64) -> u64
    requires { map (λ o. o.lane) owners.old ≡ map known lanes.now }
{
    let mut answered: u64 = 0;
    for i in 0..lanes.len() {
        answered = answered.wrapping_add(answered_by(lanes, owners, i, count));
    }
    answered
}

/// How many servers come back where so many workers serve. A pool that is refused for memory is asked again.
fn served<R: Threads + Wait + Sync>(
    rt: &R,
    alloc: Global,
    lanes: &[Lane<Sum>],
    servers: Vec<Server<Sum>>,
    workers: u32,
) -> Option<usize>
    requires servers { map (λ s. s.lane) servers.items ≡ map known lanes.now }
    requires workers { (0 < workers) × (workers ≤ 16) }
{
    match serve_all(rt, alloc, lanes, servers, workers) {
        Ok(served) => Some(served.len()),
        Err(refused) => match serve_all(rt, alloc, lanes, refused.servers, workers) {
            Ok(served) => Some(served.len()),
            Err(_) => None,
        },
    }
}

/// The same once the lanes are shut.
fn shut_and_served<R: Threads + Wait + Sync>(
    rt: &R,
    alloc: Global,
    lanes: &[Lane<Sum>],
    servers: Vec<Server<Sum>>,
    shutters: Vec<Shutter<Sum>>,
    workers: u32,
) -> Option<usize>
    requires servers { map (λ s. s.lane) servers.items ≡ map known lanes.now }
    requires shutters { map (λ s. s.lane) shutters.items ≡ map known lanes.now }
    requires workers { (0 < workers) × (workers ≤ 16) }
{
    let mut shutters = shutters;
    if all_shut(alloc, lanes, &mut shutters) {
        served(rt, alloc, lanes, servers, workers)
    } else {
        None
    }
}

/// How many requests the lanes accepted, how many servers came back, and how many answers were right, where each lane gets
/// `count` requests and is shut, and that many workers serve them all.
fn served_by<R: Threads + Wait + Sync>(
    rt: &R,
    alloc: Global,
    starts: &[u64],
    count: u64,
    workers: u32,
) -> Result<(u64, usize, u64), EngineFault>
    requires { (0 < workers) × (workers ≤ 16) }
{
    let sum = Sum;
    let Engine {
        lanes,
        mut owners,
        servers,
        shutters,
    } = Engine::open(alloc, &sum, starts, 200)?;
    let sent = sent_to_each(&lanes, &mut owners, count);
    match shut_and_served(rt, alloc, &lanes, servers, shutters, workers) {
        Some(served) => Ok((sent, served, answered_by_each(&lanes, &mut owners, count))),
        None => Err(EngineFault::NoMemory),
    }
}

#[test]
fn each_lane_is_served_once(rt: HostRuntime) {
    let starts = [0; 1024];
    let rows = [
        (0, 1u64, 1),
        (1, 1, 1),
        (1, 200, 16),
        (3, 0, 2),
        (3, 200, 2),
        (16, 150, 16),
        (1024, 3, 2),
        (1024, 1, 1),
    ];
    for (lanes, count, workers) in rows {
        let all = count.wrapping_mul(lanes as u64);
        let found = served_by(&rt, rt.alloc(), &starts[..lanes], count, workers);
        equal(&rt, found, Ok((all, lanes, all)));
    }
}

#[test]
fn growths_refused_to_a_pool(rt: HostRuntime) {
    for _ in 0..10 {
        match served_by(&rt, rt.alloc(), &[0, 0, 0], 2, 3) {
            Ok(counts) => {
                equal(&rt, counts, (6, 3, 6));
                return;
            }
            Err(fault) => equal(&rt, fault, EngineFault::NoMemory),
        }
    }
    panic!(rt; "refused each time")
}
