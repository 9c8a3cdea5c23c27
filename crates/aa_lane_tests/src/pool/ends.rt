//! What tests do at the lanes of an engine.
ghost use Rattle.std.specs.Prelude.{◌≡◌, ◌<◌, ◌≤◌, map};
ghost use Rattle.aa_lane.specs.Ends.{known};
ghost use Rattle.aa_pool.specs.Opened.{AreEndsOf};

use aa_lane::{Lane, Owner, Server, Shutter};
use aa_machine::Machine;
use aa_pool::{Engine, serve_all, shut_all};
use std::alloc::Global;
use std::process::Abort;
use std::sync::Wait;
use std::thread::Threads;

/// A lane of that capacity for each opening state, and their ends.
pub fn opened<'m, M: Machine>(
    rt: &impl Abort,
    alloc: Global,
    machine: &'m M,
    starts: &[M::State],
    capacity: u32,
) -> Engine<'m, M>
    ensures { AreEndsOf result.lanes.items result.owners.items result.servers.items result.shutters.items }
{
    Engine::open(alloc, machine, starts, capacity).expect(rt, "an engine")
}

/// Shuts all lanes, if there is memory for the counts.
pub fn all_shut<M: Machine>(alloc: Global, lanes: &[Lane<M>], shutters: &mut [Shutter<M>]) -> bool
    requires { map (λ s. s.lane) shutters.old ≡ map known lanes.now }
{
    match vec![in alloc; 0; lanes.len()] {
        Ok(mut counts) => {
            shut_all(lanes, shutters, &mut counts);
            true
        }
        Err(_) => false,
    }
}

/// How many servers come back where so many workers serve.
pub fn served<M: Machine + Sync, R: Threads + Wait + Sync>(
    rt: &R,
    alloc: Global,
    lanes: &[Lane<M>],
    servers: Vec<Server<M>>,
    workers: u32,
) -> Option<usize>
where
    M::State: Send,
    M::Request: Send,
    M::Answer: Send,
    requires servers { map (λ s. s.lane) servers.items ≡ map known lanes.now }
    requires workers { (0 < workers) × (workers ≤ 16) }
{
    match serve_all(rt, alloc, lanes, servers, workers) {
        Ok(served) => Some(served.len()),
        Err(_) => None,
    }
}

/// Whether the lane accepted the request.
pub fn accepts<M: Machine>(owner: &mut Owner<M>, lane: &Lane<M>, request: M::Request) -> bool
    requires { owner.old.lane ≡ known lane.now }
    ensures { owner.new.lane ≡ owner.old.lane }
{
    owner.send(lane, request).is_ok()
}

/// The next answer, if there is one.
pub fn collected<M: Machine>(owner: &mut Owner<M>, lane: &Lane<M>) -> Option<M::Answer>
    requires { owner.old.lane ≡ known lane.now }
    ensures { owner.new.lane ≡ owner.old.lane }
{
    owner.collect(lane).map(|given| given.answer)
}
