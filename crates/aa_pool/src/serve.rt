//! Serving all lanes until each is settled.
ghost use Rattle.std.specs.Prelude.{◌≡◌, ◌<◌, ◌≤◌, [], length, vec_len, vec_capacity, map, true, All, IfOk, IfErr};
ghost use Rattle.std.specs.List.Sorted.{IsPermutation};
ghost use Rattle.aa_lane.specs.Ends.{known};

use crate::bell::Bell;
use crate::lane_server::LaneServer;
use crate::pool::Pool;
use crate::watch::{Unwatched, Watch};
use aa_lane::{Lane, Server};
use aa_machine::Machine;
use std::alloc::Global;
use std::sync::Wait;
use std::thread::Threads;

/// Why lanes weren't served.
#[derive(Clone, Copy, PartialEq, Eq, Debug)]
pub enum PoolFault {
    /// A growth was refused, before any thread was started.
    NoMemory,
}

/// Servers that weren't served, in order, and why.
#[derive(Drop)]
pub struct PoolRefusal<M: Machine> {
    pub fault: PoolFault,
    pub servers: Vec<Server<M>>,
}

// Each server is handed in beside its lane.
fn hand_all_in<'l, 'm, M: Machine, R: Wait>(
    rt: &R,
    pool: &mut Pool<LaneServer<'l, 'm, M>>,
    lanes: &'l [Lane<'m, M>],
    servers: Vec<Server<M>>,
)
    requires servers { map (λ s. s.lane) servers.items ≡ map known lanes.now }
    requires empty { pool.old.handed ≡ [] }
    requires room { length lanes.now ≤ pool.old.room }
    ensures { pool.new ≡ record pool.old { handed = lanes.entry.now } }
{
    let mut at = 0;
    for server in servers {
        let lane = &lanes[at];
        pool.hand_in(rt, LaneServer { lane, server });
        at += 1;
    }
}

// The servers, without their lanes.
fn apart<'l, 'm, M: Machine>(
    settled: Vec<LaneServer<'l, 'm, M>>,
    servers: Vec<Server<M>>,
) -> Vec<Server<M>>
    requires empty { servers.items ≡ [] }
    requires room { vec_len settled ≤ vec_capacity servers }
    ensures { result.items ≡ map (λ s. s.server) settled.entry.items }
{
    let mut servers = servers;
    for settled in settled {
        servers.push_reserved(settled.server);
    }
    servers
}

/// Serves each lane until it is settled, by that many workers, of which the calling thread is one. A thread that can't be
/// started is no refusal: the others go on. They wait for what feeds the lanes by that bell,
/// and feed them by that watch while requests are short.
pub fn serve_watched<'m, M: Machine + Sync, W: Watch + Sync, R: Threads + Wait + Sync>(
    rt: &R,
    alloc: Global,
    lanes: &[Lane<'m, M>],
    servers: Vec<Server<M>>,
    workers: u32,
    bell: &Bell,
    watch: &W,
) -> Result<Vec<Server<M>>, PoolRefusal<M>>
where
    M::State: Send,
    M::Request: Send,
    M::Answer: Send,
    requires servers { map (λ s. s.lane) servers.items ≡ map known lanes.now }
    requires workers { (0 < workers) × (workers ≤ 16) }
    ensures all { IfOk result (λ v. IsPermutation (map known lanes.now) (map (λ s. s.lane) v.items)) }
    ensures settled { IfOk result (λ v. All (λ s. s.settled ≡ true) v.items) }
    ensures refused { IfErr result (λ r. r.servers ≡ servers) }
{
    let refused = |servers: Vec<Server<M>>| PoolRefusal {
        fault: PoolFault::NoMemory,
        servers,
    };
    let Ok(served) = Vec::with_capacity(alloc, lanes.len()) else {
        return Err(refused(servers));
    };
    let Ok(mut pool) = Pool::<LaneServer<'_, 'm, M>>::new(alloc, lanes.len(), workers as usize)
    else {
        return Err(refused(servers));
    };
    bell.begins(lanes.len());
    hand_all_in(rt, &mut pool, lanes, servers);
    Ok(apart(pool.serve(rt, bell, watch), served))
}

/// Serves each lane until it is settled, by that many workers, of which the calling thread is one. A thread that can't be
/// started is no refusal: the others go on. They wait for what feeds the lanes by that bell.
pub fn serve_with<'m, M: Machine + Sync, R: Threads + Wait + Sync>(
    rt: &R,
    alloc: Global,
    lanes: &[Lane<'m, M>],
    servers: Vec<Server<M>>,
    workers: u32,
    bell: &Bell,
) -> Result<Vec<Server<M>>, PoolRefusal<M>>
where
    M::State: Send,
    M::Request: Send,
    M::Answer: Send,
    requires servers { map (λ s. s.lane) servers.items ≡ map known lanes.now }
    requires workers { (0 < workers) × (workers ≤ 16) }
    ensures all { IfOk result (λ v. IsPermutation (map known lanes.now) (map (λ s. s.lane) v.items)) }
    ensures settled { IfOk result (λ v. All (λ s. s.settled ≡ true) v.items) }
    ensures refused { IfErr result (λ r. r.servers ≡ servers) }
{
    serve_watched(rt, alloc, lanes, servers, workers, bell, &Unwatched)
}

/// Serves each lane until it is settled, by that many workers, of which the calling thread is one. A thread that can't be
/// started is no refusal: the others go on.
pub fn serve_all<'m, M: Machine + Sync, R: Threads + Wait + Sync>(
    rt: &R,
    alloc: Global,
    lanes: &[Lane<'m, M>],
    servers: Vec<Server<M>>,
    workers: u32,
) -> Result<Vec<Server<M>>, PoolRefusal<M>>
where
    M::State: Send,
    M::Request: Send,
    M::Answer: Send,
    requires servers { map (λ s. s.lane) servers.items ≡ map known lanes.now }
    requires workers { (0 < workers) × (workers ≤ 16) }
    ensures all { IfOk result (λ v. IsPermutation (map known lanes.now) (map (λ s. s.lane) v.items)) }
    ensures settled { IfOk result (λ v. All (λ s. s.settled ≡ true) v.items) }
    ensures refused { IfErr result (λ r. r.servers ≡ servers) }
{
    serve_with(rt, alloc, lanes, servers, workers, &Bell::without_feeder())
}
