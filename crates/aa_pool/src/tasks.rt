//! Tasks, and the answers to all of them.
ghost use Rattle.std.specs.Prelude.{◌≡◌, ◌<◌, ◌≤◌, [], All, IfOk, IfErr, MatchOption, MatchResult, length, map, vec_len, vec_capacity};
ghost use Rattle.std.specs.VecDeque.{deque_len};
ghost use Rattle.aa_lane.specs.Ends.{IsCapacity, new_owner};
ghost use Rattle.aa_pool.specs.Opened.{Denies};
ghost use Rattle.aa_pool.specs.Answers.{AreFeedsOf, AreRooms, answers_to};
ghost use Rattle.aa_pool.specs.Closed.{AreOutcomes};
ghost use Rattle.aa_pool.specs.Stage.{IsStage};

use crate::bell::Bell;
use crate::close::{Outcome, close_all, in_order};
use crate::engine::{Engine, EngineFault};
use crate::feed::{Feed, Finished};
use crate::feeding::{Service, run_all};
use crate::next::next_of;
use aa_lane::{Answered, Lane, Owner, Server, Shutter};
use aa_machine::Machine;
use std::alloc::{AllocError, Global};
use std::collections::VecDeque;
use std::sync::Wait;
use std::thread::Threads;

/// A state to begin from, and requests in order.
#[derive(Drop)]
pub struct Task<M: Machine> {
    pub start: M::State,
    pub requests: VecDeque<M::Request>,
}

/// Tasks that aren't answered, and why.
#[derive(Drop)]
pub struct Refusal<M: Machine> {
    pub fault: EngineFault,
    pub tasks: Vec<Task<M>>,
}

// The states that tasks begin from.
fn starts_of<M: Machine>(alloc: Global, tasks: &[Task<M>]) -> Result<Vec<M::State>, AllocError>
    ensures { IfOk result (λ v. v.items ≡ map (λ t. t.start) tasks.now) }
{
    let mut starts = Vec::with_capacity(alloc, tasks.len())?;
    for task in tasks {
        starts.push_reserved(task.start);
    }
    Ok(starts)
}

// Room for the answers to each task.
fn rooms_of<M: Machine>(
    alloc: Global,
    tasks: &[Task<M>],
) -> Result<Vec<Vec<Answered<M>>>, AllocError>
    ensures { IfOk result (λ v. AreRooms tasks.now v.items) }
{
    let mut rooms = Vec::with_capacity(alloc, tasks.len())?;
    for task in tasks {
        rooms.push_reserved(Vec::with_capacity(alloc, task.requests.len())?);
    }
    Ok(rooms)
}

// A feed for a lane of that capacity.
fn feed_of<'l, 'm, M: Machine>(
    lane: &'l Lane<'m, M>,
    capacity: u32,
    owner: Owner<M>,
    task: Task<M>,
    room: Vec<Answered<M>>,
) -> Feed<'l, 'm, M>
    requires owner { owner ≡ new_owner lane.now }
    requires start { task.start ≡ lane.now.start }
    requires capacity { IsCapacity capacity × (lane.now.table.slots ≡ capacity) }
    requires empty { room.items ≡ [] }
    requires room { deque_len task.requests ≤ vec_capacity room }
    ensures { (result.lane ≡ lane.now) × (result.all ≡ task.requests.items) }
{
    let Task { start, requests } = task;
    Feed::new(lane, capacity, owner, start, requests, room)
}

// A feed for each lane, all of that capacity.
fn feeds_of<'l, 'm, M: Machine>(
    lanes: &'l [Lane<'m, M>],
    capacity: u32,
    owners: Vec<Owner<M>>,
    tasks: Vec<Task<M>>,
    rooms: Vec<Vec<Answered<M>>>,
    feeds: Vec<Feed<'l, 'm, M>>,
) -> Vec<Feed<'l, 'm, M>>
    requires owners { owners.items ≡ map new_owner lanes.now }
    requires starts { map (λ t. t.start) tasks.items ≡ map (λ l. l.start) lanes.now }
    requires capacity { IsCapacity capacity × All (λ l. l.table.slots ≡ capacity) lanes.now }
    requires rooms { AreRooms tasks.items rooms.items }
    requires empty { feeds.items ≡ [] }
    requires room { length lanes.now ≤ vec_capacity feeds }
    ensures { AreFeedsOf lanes.entry.now tasks.items result.items }
{
    let mut feeds = feeds;
    let mut owners = owners.into_iter();
    let mut rooms = rooms.into_iter();
    let mut at = 0;
    for task in tasks {
        let owner = next_of(&mut owners);
        let room = next_of(&mut rooms);
        feeds.push_reserved(feed_of(&lanes[at], capacity, owner, task, room));
        at += 1;
    }
    feeds
}

// How many tasks have lanes at most.
const MOST_TASKS: usize = 1024;

// The lanes of all tasks with their ends, and room for all that is to come.
#[derive(Drop)]
pub struct Stage<'m, M: Machine> {
    capacity: u32,
    lanes: Vec<Lane<'m, M>>,
    owners: Vec<Owner<M>>,
    servers: Vec<Server<M>>,
    shutters: Vec<Shutter<M>>,
    rooms: Vec<Vec<Answered<M>>>,
    served: Vec<Server<M>>,
    finished: Vec<Finished<M>>,
    outcomes: Vec<Outcome<M>>,
    ghost empty: { (served.items ≡ []) × (finished.items ≡ []) × (outcomes.items ≡ []) },
    ghost wide: { (vec_len lanes ≤ vec_capacity served) × (vec_len lanes ≤ vec_capacity finished) × (vec_len lanes ≤ vec_capacity outcomes) },
}

// Opens a lane for each task, and takes the memory for all that is to come but the feeds.
fn open_stage<'m, M: Machine>(
    alloc: Global,
    machine: &'m M,
    tasks: &[Task<M>],
    capacity: u32,
) -> Result<Stage<'m, M>, AllocError>
    ensures stage { IfOk result (λ s. IsStage machine.now s.capacity tasks.now s.lanes.items s.owners.items s.servers.items s.shutters.items s.rooms.items) }
    ensures capacity { IfOk result (λ s. s.capacity ≡ capacity) }
{
    let starts = starts_of(alloc, tasks)?;
    let Ok(
        Engine {
            lanes,
            owners,
            servers,
            shutters,
        },
    ) = Engine::open(alloc, machine, starts.as_slice(), capacity)
    else {
        return Err(AllocError);
    };
    let rooms = rooms_of(alloc, tasks)?;
    let served = Vec::with_capacity(alloc, lanes.len())?;
    let finished = Vec::with_capacity(alloc, lanes.len())?;
    let outcomes = Vec::with_capacity(alloc, lanes.len())?;
    Ok(Stage {
        capacity,
        lanes,
        owners,
        servers,
        shutters,
        rooms,
        served,
        finished,
        outcomes,
    })
}

// Whether so many tasks can't have lanes of that capacity.
fn unfit(count: usize, capacity: u32) -> Option<EngineFault>
    ensures { MatchOption result ((count ≤ 1024) × IsCapacity capacity) (λ f. Denies f count capacity) }
{
    if count > MOST_TASKS {
        return Some(EngineFault::TooManyLanes);
    }
    if capacity == 0 || capacity > 1024 {
        return Some(EngineFault::BadCapacity);
    }
    None
}

// The stage for these tasks, with nothing done.
fn stage_for<'m, M: Machine>(
    alloc: Global,
    machine: &'m M,
    tasks: &[Task<M>],
    capacity: u32,
) -> Result<Stage<'m, M>, EngineFault>
    ensures stage { IfOk result (λ s. IsStage machine.now s.capacity tasks.now s.lanes.items s.owners.items s.servers.items s.shutters.items s.rooms.items × (s.capacity ≡ capacity)) }
    ensures fault { MatchResult result (λ _. (length tasks.now ≤ 1024) × IsCapacity capacity) (λ f. Denies f (length tasks.now) capacity) }
{
    if let Some(fault) = unfit(tasks.len(), capacity) {
        return Err(fault);
    }
    match open_stage(alloc, machine, tasks, capacity) {
        Ok(stage) => Ok(stage),
        Err(_) => Err(EngineFault::NoMemory),
    }
}

// The tasks are answered on a stage. They come back where there is no memory for the feeds.
fn answer_on<'m, M: Machine + Sync, R: Threads + Wait + Sync>(
    rt: &R,
    alloc: Global,
    machine: &'m M,
    stage: Stage<'m, M>,
    tasks: Vec<Task<M>>,
    workers: u32,
) -> Result<Vec<Outcome<M>>, Vec<Task<M>>>
where
    M::State: Send,
    M::Request: Send,
    M::Answer: Send,
    requires stage { IsStage machine.now stage.capacity tasks.items stage.lanes.items stage.owners.items stage.servers.items stage.shutters.items stage.rooms.items }
    requires workers { (0 < workers) × (workers ≤ 16) }
    ensures answers { IfOk result (λ v. map (λ o. o.answers.items) v.items ≡ map (λ t. answers_to M.next M.reply machine.now t.start t.requests.items) tasks.items) }
    ensures closed { IfOk result (λ v. AreOutcomes M.next M.reply machine.now stage.entry.capacity (map (λ t. t.start) tasks.items) v.items) }
    ensures refused { IfErr result (λ r. r ≡ tasks) }
{
    let Stage {
        capacity,
        lanes,
        owners,
        servers,
        shutters,
        rooms,
        served,
        finished,
        outcomes,
    } = stage;
    let Ok(feeds) = Vec::with_capacity(alloc, lanes.len()) else {
        return Err(tasks);
    };
    let feeds = feeds_of(lanes.as_slice(), capacity, owners, tasks, rooms, feeds);
    let service = Service {
        servers,
        room: served,
    };
    let bell = Bell::new();
    let (finished, served) = run_all(
        rt,
        alloc,
        machine,
        &bell,
        lanes.as_slice(),
        feeds,
        service,
        finished,
        workers,
    );
    let servers = in_order(lanes.as_slice(), served);
    Ok(close_all(lanes, finished, servers, shutters, outcomes))
}

/// The answers to the requests of all tasks, in order, by that many workers, each task through a lane of its own of that capacity.
///
/// With one worker requests are sent, served and collected in turn on the calling thread. With more, a thread of its own feeds
/// the lanes and collects from them, while the workers serve them. All memory but the pool's own is taken before the first
/// thread starts.
///
/// Errors, in this order, with the tasks as they were: `TooManyLanes` where there are over 1,024 tasks, `BadCapacity`,
/// `NoMemory`.
pub fn answer_all<M: Machine + Sync, R: Threads + Wait + Sync>(
    rt: &R,
    alloc: Global,
    machine: &M,
    tasks: Vec<Task<M>>,
    capacity: u32,
    workers: u32,
) -> Result<Vec<Outcome<M>>, Refusal<M>>
where
    M::State: Send,
    M::Request: Send,
    M::Answer: Send,
    requires { (0 < workers) × (workers ≤ 16) }
    ensures answers { IfOk result (λ v. map (λ o. o.answers.items) v.items ≡ map (λ t. answers_to M.next M.reply machine.now t.start t.requests.items) tasks.items) }
    ensures closed { IfOk result (λ v. AreOutcomes M.next M.reply machine.now capacity (map (λ t. t.start) tasks.items) v.items) }
    ensures tasks { IfErr result (λ r. r.tasks ≡ tasks) }
    ensures fault { MatchResult result (λ _. (vec_len tasks ≤ 1024) × IsCapacity capacity) (λ r. Denies r.fault (vec_len tasks) capacity) }
{
    match stage_for(alloc, machine, tasks.as_slice(), capacity) {
        Err(fault) => Err(Refusal { fault, tasks }),
        Ok(stage) => match answer_on(rt, alloc, machine, stage, tasks, workers) {
            Ok(outcomes) => Ok(outcomes),
            Err(tasks) => Err(Refusal {
                fault: EngineFault::NoMemory,
                tasks,
            }),
        },
    }
}
