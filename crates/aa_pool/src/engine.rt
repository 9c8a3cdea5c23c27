//! The lanes of all tasks, and their ends.
ghost use Rattle.std.specs.Prelude.{◌≡◌, ◌+◌, ◌<◌, ◌≤◌, ◌++◌, [], ◌∷◌, IfOk, MatchResult, length, map, vec_len, vec_capacity};
ghost use Rattle.aa_lane.specs.Ends.{known, IsCapacity};
ghost use Rattle.aa_pool.specs.Opened.{AreOpened, AreEndsOf, Denies, AreShut};

use aa_lane::{Lane, Owner, Server, Shutter};
use aa_machine::Machine;
use std::alloc::{AllocError, Global};

/// Why lanes weren't opened. Where several hold, the last of them is answered.
#[derive(Clone, Copy, PartialEq, Eq, Debug)]
pub enum EngineFault {
    /// A growth was refused.
    NoMemory,
    /// The capacity was 0 or over 1,024.
    BadCapacity,
    /// There were over 1,024 lanes.
    TooManyLanes,
}

// How many lanes an engine has at most.
const MOST_LANES: usize = 1024;

/// The lanes of all tasks: task i has lane i, with tag i, and the ends i.
#[derive(Drop)]
pub struct Engine<'m, M: Machine> {
    pub lanes: Vec<Lane<'m, M>>,
    pub owners: Vec<Owner<M>>,
    pub servers: Vec<Server<M>>,
    pub shutters: Vec<Shutter<M>>,
}

impl<'m, M: Machine> Engine<'m, M> {
    /// Opens a lane of that capacity for each opening state.
    ///
    /// Errors, in this order: `TooManyLanes`, `BadCapacity`, `NoMemory`.
    pub fn open(
        alloc: Global,
        machine: &'m M,
        starts: &[M::State],
        capacity: u32,
    ) -> Result<Engine<'m, M>, EngineFault>
        ensures lanes { IfOk result (λ e. AreOpened machine.now starts.now capacity e.lanes.items e.owners.items e.servers.items e.shutters.items) }
        ensures ends { IfOk result (λ e. AreEndsOf e.lanes.items e.owners.items e.servers.items e.shutters.items) }
        ensures fault { MatchResult result (λ _. (length starts.now ≤ 1024) × IsCapacity capacity) (λ f. Denies f (length starts.now) capacity) }
    {
        if starts.len() > MOST_LANES {
            return Err(EngineFault::TooManyLanes);
        }
        if capacity == 0 || capacity > 1024 {
            return Err(EngineFault::BadCapacity);
        }
        match open_all(alloc, machine, starts, capacity) {
            Ok(engine) => Ok(engine),
            Err(_) => Err(EngineFault::NoMemory),
        }
    }
}

// Opens the lanes one after another.
fn open_all<'m, M: Machine>(
    alloc: Global,
    machine: &'m M,
    starts: &[M::State],
    capacity: u32,
) -> Result<Engine<'m, M>, AllocError>
    requires few { length starts.now ≤ 1024 }
    ensures opened { IfOk result (λ e. AreOpened machine.now starts.now capacity e.lanes.items e.owners.items e.servers.items e.shutters.items) }
    ensures ends { IfOk result (λ e. AreEndsOf e.lanes.items e.owners.items e.servers.items e.shutters.items) }
{
    let mut engine = engine_for(alloc, starts.len())?;
    for at in 0..starts.len() {
        let Ok(opened) = Lane::new(alloc, machine, at as u32, capacity, starts[at]) else {
            return Err(AllocError);
        };
        add(&mut engine, opened);
    }
    Ok(engine)
}

// An engine without lanes, with room for so many.
fn engine_for<'m, M: Machine>(alloc: Global, count: usize) -> Result<Engine<'m, M>, AllocError>
    ensures lanes { IfOk result (λ e. (e.lanes.items ≡ []) × (count ≤ vec_capacity e.lanes)) }
    ensures owners { IfOk result (λ e. (e.owners.items ≡ []) × (count ≤ vec_capacity e.owners)) }
    ensures servers { IfOk result (λ e. (e.servers.items ≡ []) × (count ≤ vec_capacity e.servers)) }
    ensures shutters { IfOk result (λ e. (e.shutters.items ≡ []) × (count ≤ vec_capacity e.shutters)) }
{
    let lanes = Vec::with_capacity(alloc, count)?;
    let owners = Vec::with_capacity(alloc, count)?;
    let servers = Vec::with_capacity(alloc, count)?;
    let shutters = Vec::with_capacity(alloc, count)?;
    Ok(Engine {
        lanes,
        owners,
        servers,
        shutters,
    })
}

// Adds a lane and its ends.
fn add<'m, M: Machine>(
    engine: &mut Engine<'m, M>,
    opened: (Lane<'m, M>, Owner<M>, Server<M>, Shutter<M>),
)
    requires lanes { vec_len engine.old.lanes < vec_capacity engine.old.lanes }
    requires owners { vec_len engine.old.owners < vec_capacity engine.old.owners }
    requires servers { vec_len engine.old.servers < vec_capacity engine.old.servers }
    requires shutters { vec_len engine.old.shutters < vec_capacity engine.old.shutters }
    ensures lanes { (engine.new.lanes.items ≡ engine.old.lanes.items ++ opened.entry.0 ∷ [])
        × (vec_len engine.new.lanes ≡ vec_len engine.old.lanes + 1) × (vec_capacity engine.new.lanes ≡ vec_capacity engine.old.lanes) }
    ensures owners { (engine.new.owners.items ≡ engine.old.owners.items ++ opened.entry.1 ∷ [])
        × (vec_len engine.new.owners ≡ vec_len engine.old.owners + 1) × (vec_capacity engine.new.owners ≡ vec_capacity engine.old.owners) }
    ensures servers { (engine.new.servers.items ≡ engine.old.servers.items ++ opened.entry.2 ∷ [])
        × (vec_len engine.new.servers ≡ vec_len engine.old.servers + 1) × (vec_capacity engine.new.servers ≡ vec_capacity engine.old.servers) }
    ensures shutters { (engine.new.shutters.items ≡ engine.old.shutters.items ++ opened.entry.3 ∷ [])
        × (vec_len engine.new.shutters ≡ vec_len engine.old.shutters + 1) × (vec_capacity engine.new.shutters ≡ vec_capacity engine.old.shutters) }
{
    let (lane, owner, server, shutter) = opened;
    engine.lanes.push_reserved(lane);
    engine.owners.push_reserved(owner);
    engine.servers.push_reserved(server);
    engine.shutters.push_reserved(shutter);
}

/// Shuts one lane after the other, and writes for each the number of requests that it accepted in all. A lane that isn't
/// reached yet may still accept.
pub fn shut_all<'m, M: Machine>(
    lanes: &[Lane<'m, M>],
    shutters: &mut [Shutter<M>],
    counts: &mut [u64],
)
    requires shutters { map (λ s. s.lane) shutters.old ≡ map known lanes.now }
    requires counts { length counts.old ≡ length lanes.now }
    ensures shut { AreShut M.next M.reply lanes.now shutters.old shutters.new counts.new }
    ensures len { (length shutters.new ≡ length shutters.old) × (length counts.new ≡ length counts.old) }
{
    for i in 0..lanes.len() {
        counts[i] = shutters[i].shut(&lanes[i]);
    }
}
