//! Running lanes whose ends are on threads of their own.
ghost use Rattle.aa_lane.specs.Ends.{LaneId, known};
ghost use Rattle.aa_lane_tests.specs.declared.sum.Sum.{Sum};
ghost use Rattle.std.specs.Prelude.{◌≡◌, ℕ};

use crate::comparing::{equal, holds};
use crate::feeding::{Fed, feed, shut_later};
use crate::lane::bench::open;
use crate::sum::{Sum, sum_up_to};
use aa_lane::{Ends, Lane, Owner, Served, Server, Shutter, Totals};
use std::alloc::Global;
use std::process::Abort;
use std::sync::Wait;
use std::thread;
use std::thread::{Threads, join};

// Answers requests until `count` are answered, or the lane is settled.
fn serve(rt: &impl Wait, lane: &Lane<Sum>, server: Server<Sum>, count: u64) -> Server<Sum>
    requires { server.lane ≡ known lane.now }
    ensures { result.lane ≡ known lane.now }
{
    let mut server = server;
    let mut done: u64 = 0;
    'serving: for _ in rt.forever() {
        if done >= count {
            break;
        }
        match server.serve(lane) {
            Served::Did(next) => {
                server = next;
                done = done.wrapping_add(1);
            }
            Served::Idle(next) => {
                server = next;
                thread::yield_now();
            }
            Served::Settled(next) => {
                server = next;
                break;
            }
        }
    }
    server
}

fn check_totals(rt: &impl Abort, totals: Totals<Sum>, count: u64) {
    equal(
        rt,
        [totals.accepted, totals.answered, totals.collected],
        [count, count, count],
    );
    let state = if count == 0 {
        0
    } else {
        sum_up_to(count.wrapping_sub(1))
    };
    equal(rt, totals.state, state);
}

// What the threads do at a lane. A closure keeps what it ensures where the type of what it captures names no lifetime, so
// the threads are started for any such type.
trait Worked {
    ghost id: { Self → LaneId Sum ℕ };

    fn fed<R: Wait>(&self, rt: &R, owner: Owner<Sum>, count: u64) -> (Owner<Sum>, Fed)
        requires { owner.lane ≡ id self.now }
        ensures { result.0.lane ≡ owner.lane };

    fn served<R: Wait>(&self, rt: &R, server: Server<Sum>, count: u64) -> Server<Sum>
        requires { server.lane ≡ id self.now }
        ensures { result.lane ≡ server.lane };

    fn shut(&self, shutter: Shutter<Sum>) -> (Shutter<Sum>, u64)
        requires { shutter.lane ≡ id self.now }
        ensures { result.0.lane ≡ shutter.lane };
}

impl<'m> Worked for Lane<'m, Sum> {
    ghost id = { known };

    fn fed<R: Wait>(&self, rt: &R, owner: Owner<Sum>, count: u64) -> (Owner<Sum>, Fed) {
        feed(rt, self, owner, count)
    }

    fn served<R: Wait>(&self, rt: &R, server: Server<Sum>, count: u64) -> Server<Sum> {
        serve(rt, self, server, count)
    }

    fn shut(&self, shutter: Shutter<Sum>) -> (Shutter<Sum>, u64) {
        shut_later(self, shutter)
    }
}

// The owner feeds the lane on one thread, and the server serves it on another.
fn feed_and_serve<R: Threads + Wait + Sync, L: Worked + Sync>(
    rt: &R,
    lane: &L,
    owner: Owner<Sum>,
    server: Server<Sum>,
    count: u64,
) -> ((Owner<Sum>, Fed), Server<Sum>)
    requires owner { owner.lane ≡ L.id lane.now }
    requires server { server.lane ≡ L.id lane.now }
    ensures { (result.0.0.lane ≡ owner.lane) × (result.1.lane ≡ server.lane) }
{
    join(
        rt,
        move ||
            requires { owner.lane ≡ L.id lane.now }
            ensures { result.0.lane ≡ owner.lane }
        { lane.fed(rt, owner, count) },
        move ||
            requires { server.lane ≡ L.id lane.now }
            ensures { result.lane ≡ server.lane }
        { lane.served(rt, server, count) },
    )
}

// What the owner of a lane of this capacity is fed, and how many requests `closes` finds.
fn fed_on_two_threads<R: Threads + Wait + Abort + Sync>(
    rt: &R,
    alloc: Global,
    capacity: u32,
) -> (Fed, u64) {
    let sum = Sum;
    let (lane, owner, server, shutter) = open(rt, alloc, &sum, 7, capacity, 0);
    let ((owner, fed), server) = feed_and_serve(rt, &lane, owner, server, 10000);
    (fed, closes(rt, lane, owner, server, shutter, fed))
}

#[test]
fn an_owner_and_a_server_on_two_threads(rt: HostRuntime) {
    for capacity in [1, 3, 1024] {
        let (fed, closed) = fed_on_two_threads(&rt, rt.alloc(), capacity);
        equal(&rt, fed, Fed::whole(10000));
        equal(&rt, closed, 10000);
    }
}

// Both owners feed their lanes, each on a thread of its own.
fn feed_two<R: Threads + Wait + Sync, L: Worked + Sync>(
    rt: &R,
    first: &L,
    second: &L,
    owner: Owner<Sum>,
    other: Owner<Sum>,
) -> ((Owner<Sum>, Fed), (Owner<Sum>, Fed))
    requires owner { owner.lane ≡ L.id first.now }
    requires other { other.lane ≡ L.id second.now }
    ensures { (result.0.0.lane ≡ owner.lane) × (result.1.0.lane ≡ other.lane) }
{
    join(
        rt,
        move ||
            requires { owner.lane ≡ L.id first.now }
            ensures { result.0.lane ≡ owner.lane }
        { first.fed(rt, owner, 10000) },
        move ||
            requires { other.lane ≡ L.id second.now }
            ensures { result.0.lane ≡ other.lane }
        { second.fed(rt, other, 10000) },
    )
}

// Both servers answer, each on a thread of its own, until what their lanes accepted is answered.
fn serve_two<R: Threads + Wait + Sync, L: Worked + Sync>(
    rt: &R,
    first: &L,
    second: &L,
    server: Server<Sum>,
    other: Server<Sum>,
) -> (Server<Sum>, Server<Sum>)
    requires server { server.lane ≡ L.id first.now }
    requires other { other.lane ≡ L.id second.now }
    ensures { (result.0.lane ≡ server.lane) × (result.1.lane ≡ other.lane) }
{
    join(
        rt,
        move ||
            requires { server.lane ≡ L.id first.now }
            ensures { result.lane ≡ server.lane }
        { first.served(rt, server, 10000) },
        move ||
            requires { other.lane ≡ L.id second.now }
            ensures { result.lane ≡ other.lane }
        { second.served(rt, other, 10000) },
    )
}

// Both servers answer, and the first lane is shut by a thread of its own.
fn serve_and_shut<R: Threads + Wait + Sync, L: Worked + Sync>(
    rt: &R,
    first: &L,
    second: &L,
    servers: (Server<Sum>, Server<Sum>),
    shutter: Shutter<Sum>,
) -> ((Server<Sum>, Server<Sum>), (Shutter<Sum>, u64))
    requires servers { (servers.0.lane ≡ L.id first.now) × (servers.1.lane ≡ L.id second.now) }
    requires shutter { shutter.lane ≡ L.id first.now }
    ensures servers { (result.0.0.lane ≡ servers.0.lane) × (result.0.1.lane ≡ servers.1.lane) }
    ensures shutter { result.1.0.lane ≡ shutter.lane }
{
    join(
        rt,
        move ||
            requires { (servers.0.lane ≡ L.id first.now) × (servers.1.lane ≡ L.id second.now) }
            ensures { (result.0.lane ≡ servers.0.lane) × (result.1.lane ≡ servers.1.lane) }
        { serve_two(rt, first, second, servers.0, servers.1) },
        move ||
            requires { shutter.lane ≡ L.id first.now }
            ensures { result.0.lane ≡ shutter.lane }
        { first.shut(shutter) },
    )
}

// All at once: two owners, two servers, and what shuts the first lane.
fn all_run<R: Threads + Wait + Sync, L: Worked + Sync>(
    rt: &R,
    first: &L,
    second: &L,
    owners: (Owner<Sum>, Owner<Sum>),
    servers: (Server<Sum>, Server<Sum>),
    shutter: Shutter<Sum>,
) -> (
    ((Owner<Sum>, Fed), (Owner<Sum>, Fed)),
    ((Server<Sum>, Server<Sum>), (Shutter<Sum>, u64)),
)
    requires owners { (owners.0.lane ≡ L.id first.now) × (owners.1.lane ≡ L.id second.now) }
    requires servers { (servers.0.lane ≡ L.id first.now) × (servers.1.lane ≡ L.id second.now) }
    requires shutter { shutter.lane ≡ L.id first.now }
    ensures owners { (result.0.0.0.lane ≡ owners.0.lane) × (result.0.1.0.lane ≡ owners.1.lane) }
    ensures servers { (result.1.0.0.lane ≡ servers.0.lane) × (result.1.0.1.lane ≡ servers.1.lane) }
    ensures shutter { result.1.1.0.lane ≡ shutter.lane }
{
    join(
        rt,
        move ||
            requires { (owners.0.lane ≡ L.id first.now) × (owners.1.lane ≡ L.id second.now) }
            ensures { (result.0.0.lane ≡ owners.0.lane) × (result.1.0.lane ≡ owners.1.lane) }
        { feed_two(rt, first, second, owners.0, owners.1) },
        move ||
            requires servers { (servers.0.lane ≡ L.id first.now) × (servers.1.lane ≡ L.id second.now) }
            requires shutter { shutter.lane ≡ L.id first.now }
            ensures servers { (result.0.0.lane ≡ servers.0.lane) × (result.0.1.lane ≡ servers.1.lane) }
            ensures shutter { result.1.0.lane ≡ shutter.lane }
        { serve_and_shut(rt, first, second, servers, shutter) },
    )
}

// The ends are back in one thread: the owner's count is the shut's, and so are the totals.
fn closes(
    rt: &impl Abort,
    lane: Lane<Sum>,
    owner: Owner<Sum>,
    server: Server<Sum>,
    shutter: Shutter<Sum>,
    fed: Fed,
) -> u64
    requires owner { owner.lane ≡ known lane }
    requires server { server.lane ≡ known lane }
    requires shutter { shutter.lane ≡ known lane }
{
    holds(rt, fed.right);
    equal(rt, fed.got, fed.sent);
    let owner = owner.exit(&lane);
    equal(rt, owner.accepted(), fed.sent);
    let ends = Ends {
        owner,
        server,
        shutter,
    };
    check_totals(rt, lane.close(ends), fed.sent);
    fed.sent
}

// A lane and its ends.
type Opened<'m> = (Lane<'m, Sum>, Owner<Sum>, Server<Sum>, Shutter<Sum>);

// All run and both lanes are closed: how many requests the first took, what the shut counted, and how many the second took.
fn all_run_and_close<'m, R: Threads + Wait + Abort + Sync>(
    rt: &R,
    first: Opened<'m>,
    second: Opened<'m>,
) -> [u64; 3]
    requires first { (first.1.lane ≡ known first.0) × (first.2.lane ≡ known first.0) × (first.3.lane ≡ known first.0) }
    requires second { (second.1.lane ≡ known second.0) × (second.2.lane ≡ known second.0) × (second.3.lane ≡ known second.0) }
{
    let (first, owner, server, shutter) = first;
    let (second, other_owner, other_server, other_shutter) = second;
    let ((fed, other_fed), (servers, shut)) = all_run(
        rt,
        &first,
        &second,
        (owner, other_owner),
        (server, other_server),
        shutter,
    );
    let sent = closes(rt, first, fed.0, servers.0, shut.0, fed.1);
    let other_sent = closes(
        rt,
        second,
        other_fed.0,
        servers.1,
        other_shutter,
        other_fed.1,
    );
    [sent, shut.1, other_sent]
}

#[test]
fn two_owners_while_another_thread_shuts_one_lane(rt: HostRuntime) {
    let sum = Sum;
    let first = open(&rt, rt.alloc(), &sum, 0, 3, 0);
    let second = open(&rt, rt.alloc(), &sum, 1, 3, 0);
    let counts = all_run_and_close(&rt, first, second);
    equal(&rt, counts[0], counts[1]);
    equal(&rt, counts[2], 10000);
}
