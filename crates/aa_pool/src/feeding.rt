//! Many lanes are fed by turns, while others serve them.
ghost use Rattle.std.specs.Prelude.{◌≡◌, ◌≢◌, ◌<◌, ◌≤◌, ℕ, [], length, vec_len, vec_capacity, map, true, All, IfOk, IfErr, slice_index_or};
ghost use Rattle.std.specs.List.Sorted.{IsPermutation};
ghost use Rattle.aa_lane.specs.Ends.{known};
ghost use Rattle.aa_pool.specs.Fed.{AreSame, AreAllFed, answers_of};

use crate::bell::Bell;
use crate::beside::{Work, side_by_side};
use crate::feed::{Feed, Finished, Turned};
use crate::serve::serve_watched;
use crate::sharing::{Course, Feeds, Shared, feed_all, share, unshare, unshare_fed};
use crate::watch::{Feeder, Watch};
use aa_lane::{Lane, Served, Server};
use aa_machine::Machine;
use std::alloc::Global;
use std::marker::Brand;
use std::sync::Wait;
use std::sync::ledger::{Blank, Ledger, Share};
use std::thread::Threads;

// The thread that feeds. Where all owners have left, it has counted that.
#[derive(Drop)]
struct Feeding<'q, L: Ledger, W> {
    bell: &'q Bell,
    feeds: &'q W,
    mine: Share<L>,
    ghost part: { 0 < mine.parts },
}

impl<'q, L: Ledger, W: Feeder<L> + Sync> Work for Feeding<'q, L, W> {
    type Done = Share<L>;

    ghost does = { λ f done. 0 < done.amount };

    fn run<R: Threads + Wait + Sync>(self, rt: &R) -> Share<L> {
        let Feeding { bell, feeds, mine } = self;
        feed_all(rt, bell, feeds, mine)
    }
}

/// Servers of lanes, in order, and a list with room for as many.
#[derive(Drop)]
pub struct Service<M: Machine> {
    pub servers: Vec<Server<M>>,
    pub room: Vec<Server<M>>,
    pub ghost empty: { room.items ≡ [] },
    pub ghost wide: { vec_len servers ≤ vec_capacity room },
}

// Serves until the lane is settled.
fn settle<'m, M: Machine, R: Wait>(
    rt: &R,
    bell: &Bell,
    lane: &Lane<'m, M>,
    server: Server<M>,
) -> Server<M>
    requires { server.lane ≡ known lane.now }
    ensures { result.lane ≡ server.lane }
{
    let mut server = server;
    let mut shift = bell.comes_to_one();
    'serving: for _ in rt.forever() {
        match server.serve(lane) {
            Served::Did(next) => {
                bell.served(rt, &mut shift, 1);
                server = next;
            }
            Served::Idle(next) => {
                bell.looked(rt, &mut shift);
                server = next;
            }
            Served::Settled(next) => {
                bell.leaves(shift);
                return next;
            }
        }
    }
    unreachable!()
}

// Serves one lane after the other until each is settled.
fn settle_all<'m, M: Machine, R: Wait>(
    rt: &R,
    bell: &Bell,
    lanes: &[Lane<'m, M>],
    servers: Vec<Server<M>>,
    room: Vec<Server<M>>,
) -> Vec<Server<M>>
    requires servers { map (λ s. s.lane) servers.items ≡ map known lanes.now }
    requires empty { room.items ≡ [] }
    requires wide { vec_len servers ≤ vec_capacity room }
    ensures { map (λ s. s.lane) result.items ≡ map known lanes.now }
{
    let mut settled = room;
    let mut at = 0;
    for server in servers {
        settled.push_reserved(settle(rt, bell, &lanes[at], server));
        at += 1;
    }
    settled
}

// All lanes with their servers, and how many workers are to serve them.
#[derive(Drop)]
struct Rota<'r, 'q, 'l, 'm, M: Machine, W, R> {
    rt: &'r R,
    alloc: Global,
    bell: &'q Bell,
    feeds: &'q W,
    lanes: &'l [Lane<'m, M>],
    service: Service<M>,
    workers: u32,
    ghost servers: { map (λ s. s.lane) service.servers.items ≡ map known lanes.now },
    ghost crew: { (0 < workers) × (workers ≤ 16) },
}

// Serves all lanes by that many workers; where the pool has no memory, on this thread.
fn serve<'r, 'q, 'l, 'm, M: Machine + Sync, W: Watch + Sync, R: Threads + Wait + Sync>(
    rota: Rota<'r, 'q, 'l, 'm, M, W, R>,
) -> Vec<Server<M>>
where
    M::State: Send,
    M::Request: Send,
    M::Answer: Send,
    ensures { IsPermutation (map known rota.entry.lanes.now) (map (λ s. s.lane) result.items) }
{
    let Rota {
        rt,
        alloc,
        bell,
        feeds,
        lanes,
        service,
        workers,
    } = rota;
    let Service { servers, room } = service;
    match serve_watched(rt, alloc, lanes, servers, workers, bell, feeds) {
        Ok(served) => served,
        Err(refused) => settle_all(rt, bell, lanes, refused.servers, room),
    }
}

// Feeds all lanes on a thread of its own, while they are served here. The servers come back where one is to do both, or no thread can be
// started.
fn by_both<
    'r,
    'q,
    'l,
    'm,
    M: Machine + Sync,
    L: Ledger + Send + Sync,
    W: Watch + Feeder<L> + Sync,
    R: Threads + Wait + Sync,
>(
    rt: &'r R,
    alloc: Global,
    bell: &'q Bell,
    feeds: &'q W,
    mine: Share<L>,
    lanes: &'l [Lane<'m, M>],
    service: Service<M>,
    workers: u32,
) -> Result<(Share<L>, Vec<Server<M>>), Service<M>>
where
    M::State: Send,
    M::Request: Send,
    M::Answer: Send,
    requires part { 0 < mine.parts }
    requires servers { map (λ s. s.lane) service.servers.items ≡ map known lanes.now }
    requires workers { (0 < workers) × (workers ≤ 16) }
    ensures fed { IfOk result (λ r. 0 < r.0.amount) }
    ensures served { IfOk result (λ r. IsPermutation (map known lanes.entry.now) (map (λ s. s.lane) r.1.items)) }
    ensures back { IfErr result (λ r. map (λ s. s.lane) r.servers.items ≡ map known lanes.entry.now) }
{
    // (a lane has one server, so several workers would take turns at one lane, and wait for each other)
    if workers == 1 || lanes.len() < 2 {
        return Err(service);
    }
    let rota = Rota {
        rt,
        alloc,
        bell,
        feeds,
        lanes,
        service,
        workers,
    };
    let feeding = Feeding { bell, feeds, mine };
    let done = side_by_side::<
        Feeding<'q, L, W>,
        Rota<'r, 'q, 'l, 'm, M, W, R>,
        Vec<Server<M>>,
        _,
        R,
    >(
        rt,
        feeding,
        rota,
        |rota| -> Vec<Server<M>>
            ensures { IsPermutation (map known rota.entry.lanes.now) (map (λ s. s.lane) result.items) }
        { serve(rota) },
    );
    match done {
        Ok(both) => Ok(both),
        Err((_, rota)) => Err(rota.service),
    }
}

// Serves so many requests, or fewer where there is none left.
fn serve_burst<'m, M: Machine>(lane: &Lane<'m, M>, server: Server<M>, count: u64) -> Server<M>
    requires { server.lane ≡ known lane.now }
    ensures { result.lane ≡ server.lane }
{
    let mut server = server;
    'requests: for _ in 0..count {
        match server.serve(lane) {
            Served::Did(next) => server = next,
            Served::Idle(next) | Served::Settled(next) => return next,
        }
    }
    server
}

// One lane is fed and served by turns, in bursts.
fn alone<'l, 'm, M: Machine, R: Wait>(
    rt: &R,
    lane: &Lane<'m, M>,
    feed: &mut Feed<'l, 'm, M>,
    server: Server<M>,
) -> Server<M>
    requires { server.lane ≡ known lane.now }
    ensures same { (feed.new.lane ≡ feed.old.lane) × (feed.new.all ≡ feed.old.all) }
    ensures finished { feed.new.finished ≡ true }
    ensures server { result.lane ≡ server.lane }
{
    let mut server = server;
    'bursts: for _ in rt.forever() {
        if feed.burst() == Turned::Left {
            return server;
        }
        server = serve_burst(lane, server, feed.on_their_way());
    }
    unreachable!()
}

// The lane of that number is fed and served by turns.
fn alone_at<'l, 'm, M: Machine, R: Wait>(
    rt: &R,
    lane: &Lane<'m, M>,
    feeds: &mut [Feed<'l, 'm, M>],
    at: usize,
    server: Server<M>,
) -> Server<M>
    requires server { server.lane ≡ known lane.now }
    requires within { at < length feeds.old }
    ensures same { AreSame feeds.old feeds.new }
    ensures finished { (d : _) → (slice_index_or feeds.new at d).finished ≡ true }
    ensures others { (k : ℕ) (d : _) → k ≢ at → slice_index_or feeds.new k d ≡ slice_index_or feeds.old k d }
    ensures server { result.lane ≡ server.lane }
{
    alone(rt, lane, &mut feeds[at], server)
}

// Feeds and serves one lane after the other on this thread.
fn feed_here<'l, 'm, M: Machine, R: Wait>(
    rt: &R,
    lanes: &[Lane<'m, M>],
    feeds: &mut [Feed<'l, 'm, M>],
    service: Service<M>,
) -> Vec<Server<M>>
    requires servers { map (λ s. s.lane) service.servers.items ≡ map known lanes.now }
    requires len { length feeds.old ≡ length lanes.now }
    ensures fed { AreAllFed feeds.old feeds.new }
    ensures served { map (λ s. s.lane) result.items ≡ map known lanes.now }
{
    let Service { servers, room } = service;
    let mut served = room;
    let mut at = 0;
    for server in servers {
        served.push_reserved(alone_at(rt, &lanes[at], feeds, at, server));
        at += 1;
    }
    served
}

// The same, with the feeds handed in and back.
fn feed_by_one<'l, 'm, M: Machine, R: Wait>(
    rt: &R,
    lanes: &[Lane<'m, M>],
    feeds: Vec<Feed<'l, 'm, M>>,
    service: Service<M>,
) -> (Vec<Feed<'l, 'm, M>>, Vec<Server<M>>)
    requires servers { map (λ s. s.lane) service.servers.items ≡ map known lanes.now }
    requires len { vec_len feeds ≡ length lanes.now }
    ensures fed { AreAllFed feeds.entry.items result.0.items }
    ensures served { map (λ s. s.lane) result.1.items ≡ map known lanes.now }
{
    let mut feeds = feeds;
    let served = feed_here(rt, lanes, feeds.as_mut_slice(), service);
    (feeds, served)
}

// The lanes that were shared, fed to the end: they were, while they were served, or one does both now.
fn fed_after<'l, 'm, M: Machine, C: Course<M, M::State, M::Request>, L: Ledger, R: Wait>(
    rt: &R,
    lanes: &[Lane<'m, M>],
    shared: Shared<L, Feeds<'l, 'm, M, C>>,
    done: Result<(Share<L>, Vec<Server<M>>), Service<M>>,
) -> (Vec<Feed<'l, 'm, M>>, Vec<Server<M>>)
    requires len { length C.lanes ≡ length lanes.now }
    requires fed { IfOk done (λ r. 0 < r.0.amount) }
    requires served { IfOk done (λ r. IsPermutation (map known lanes.now) (map (λ s. s.lane) r.1.items)) }
    requires back { IfErr done (λ r. map (λ s. s.lane) r.servers.items ≡ map known lanes.now) }
    ensures fed { AreAllFed C.lanes result.0.items }
    ensures served { IsPermutation (map known lanes.entry.now) (map (λ s. s.lane) result.1.items) }
{
    match done {
        Ok((mine, served)) => (unshare_fed(shared, mine), served),
        Err(service) => feed_by_one(rt, lanes, unshare(shared), service),
    }
}

// The owners of lanes that have all left, with all answers.
fn finish_all<'l, 'm, M: Machine>(
    machine: &M,
    feeds: Vec<Feed<'l, 'm, M>>,
    room: Vec<Finished<M>>,
) -> Vec<Finished<M>>
    requires machine { All (λ f. f.lane.machine ≡ machine.now) feeds.items }
    requires finished { All (λ f. f.finished ≡ true) feeds.items }
    requires empty { room.items ≡ [] }
    requires room { vec_len feeds ≤ vec_capacity room }
    ensures answers { map (λ f. f.answers.items) result.items ≡ map (answers_of M.next M.reply) feeds.entry.items }
    ensures of { map (λ f. f.leaver.lane) result.items ≡ map (λ f. known f.lane) feeds.entry.items }
{
    let mut finished = room;
    for feed in feeds {
        finished.push_reserved(feed.finish(machine));
    }
    finished
}

// The same, where the lanes are those of a course.
fn run_on<
    'l,
    'm,
    M: Machine + Sync,
    C: Course<M, M::State, M::Request> + Send + Sync,
    L: Ledger + Send + Sync,
    R: Threads + Wait + Sync,
>(
    rt: &R,
    alloc: Global,
    machine: &'m M,
    bell: &Bell,
    blank: Blank,
    lanes: &'l [Lane<'m, M>],
    feeds: Vec<Feed<'l, 'm, M>>,
    service: Service<M>,
    room: Vec<Finished<M>>,
    workers: u32,
) -> (Vec<Finished<M>>, Vec<Server<M>>)
where
    M::State: Send,
    M::Request: Send,
    M::Answer: Send,
    requires course { C.lanes ≡ feeds.items }
    requires ledger { (blank.name ≡ L.name) × (blank.parts ≡ L.parts) × (blank.parts ≡ 1) }
    requires machine { All (λ l. l.machine ≡ machine.now) lanes.now }
    requires lanes { map (λ f. f.lane) feeds.items ≡ lanes.now }
    requires servers { map (λ s. s.lane) service.servers.items ≡ map known lanes.now }
    requires workers { (0 < workers) × (workers ≤ 16) }
    requires empty { room.items ≡ [] }
    requires room { length lanes.now ≤ vec_capacity room }
    ensures answers { map (λ f. f.answers.items) result.0.items ≡ map (answers_of M.next M.reply) feeds.entry.items }
    ensures of { map (λ f. f.leaver.lane) result.0.items ≡ map known lanes.entry.now }
    ensures served { IsPermutation (map known lanes.entry.now) (map (λ s. s.lane) result.1.items) }
{
    let (shared, mine) = share::<M, C, L>(machine, feeds, blank);
    let done = by_both(rt, alloc, bell, &shared, mine, lanes, service, workers);
    let (feeds, served) = fed_after(rt, lanes, shared, done);
    (finish_all(machine, feeds, room), served)
}

/// All lanes are fed and served, by that many workers: their owners, which have left, with all answers, and their servers in
/// any order.
pub fn run_all<'l, 'm, M: Machine + Sync, R: Threads + Wait + Sync>(
    rt: &R,
    alloc: Global,
    machine: &'m M,
    bell: &Bell,
    lanes: &'l [Lane<'m, M>],
    feeds: Vec<Feed<'l, 'm, M>>,
    service: Service<M>,
    room: Vec<Finished<M>>,
    workers: u32,
) -> (Vec<Finished<M>>, Vec<Server<M>>)
where
    M::State: Send,
    M::Request: Send,
    M::Answer: Send,
    requires machine { All (λ l. l.machine ≡ machine.now) lanes.now }
    requires lanes { map (λ f. f.lane) feeds.items ≡ lanes.now }
    requires servers { map (λ s. s.lane) service.servers.items ≡ map known lanes.now }
    requires workers { (0 < workers) × (workers ≤ 16) }
    requires empty { room.items ≡ [] }
    requires room { length lanes.now ≤ vec_capacity room }
    ensures answers { map (λ f. f.answers.items) result.0.items ≡ map (answers_of M.next M.reply) feeds.entry.items }
    ensures of { map (λ f. f.leaver.lane) result.0.items ≡ map known lanes.entry.now }
    ensures served { IsPermutation (map known lanes.entry.now) (map (λ s. s.lane) result.1.items) }
{
    run_on::<M, Brand, Brand, R>(
        rt,
        alloc,
        machine,
        bell,
        Blank::new(1),
        lanes,
        feeds,
        service,
        room,
        workers,
    )
}
