//! Owners that send and collect on threads of their own, while workers serve and another thread shuts one of the lanes.
ghost use Rattle.std.specs.Prelude.{◌≡◌, ◌≤◌, ◌<◌, ◌∷◌, [], map};
ghost use Rattle.aa_lane.specs.Ends.{known};

use crate::comparing::equal;
use crate::feeding::{Fed, feed, shut_later};
use crate::pool::ends::{opened, served};
use crate::sum::Sum;
use aa_lane::{Lane, Owner, Server, Shutter};
use aa_pool::Engine;
use std::alloc::Global;
use std::process::Abort;
use std::sync::Wait;
use std::thread::{Threads, join};

/// The owner leaves, and whether the lane accepted as many is right too.
fn leaves(lane: &Lane<Sum>, owner: Owner<Sum>, fed: Fed) -> Fed
    requires { owner.lane ≡ known lane.now }
{
    let right = fed.right && owner.exit(lane).accepted() == fed.sent;
    Fed { right, ..fed }
}

/// Feeds the lane, and leaves.
fn feeds(rt: &impl Wait, lane: &Lane<Sum>, owner: Owner<Sum>) -> Fed
    requires { owner.lane ≡ known lane.now }
{
    let (owner, fed) = feed(rt, lane, owner, 10000);
    leaves(lane, owner, fed)
}

/// Both owners feed their lanes, each on a thread of its own.
fn feed_both<R: Threads + Wait + Sync>(
    rt: &R,
    first: &Lane<Sum>,
    second: &Lane<Sum>,
    owners: (Owner<Sum>, Owner<Sum>),
) -> (Fed, Fed)
    requires { (owners.0.lane ≡ known first.now) × (owners.1.lane ≡ known second.now) }
{
    let (owner, other) = owners;
    join(
        rt,
        move ||
            requires { owner.lane ≡ known first.now }
        { feeds(rt, first, owner) },
        move ||
            requires { other.lane ≡ known second.now }
        { feeds(rt, second, other) },
    )
}

/// Serves all lanes while another thread shuts the first.
fn serve_and_shut<R: Threads + Wait + Sync>(
    rt: &R,
    alloc: Global,
    lanes: &[Lane<Sum>],
    servers: Vec<Server<Sum>>,
    first: &Lane<Sum>,
    shutter: Shutter<Sum>,
    workers: u32,
) -> (Option<usize>, u64)
    requires servers { map (λ s. s.lane) servers.items ≡ map known lanes.now }
    requires shutter { shutter.lane ≡ known first.now }
    requires workers { (0 < workers) × (workers ≤ 16) }
{
    join(
        rt,
        move ||
            requires servers { map (λ s. s.lane) servers.items ≡ map known lanes.now }
            requires workers { (0 < workers) × (workers ≤ 16) }
        { served(rt, alloc, lanes, servers, workers) },
        move ||
            requires { shutter.lane ≡ known first.now }
        { shut_later(first, shutter).1 },
    )
}

/// All at once: two owners, so many workers, and what shuts the first lane.
fn all_run<R: Threads + Wait + Sync>(
    rt: &R,
    alloc: Global,
    lanes: &[Lane<Sum>],
    owners: (Owner<Sum>, Owner<Sum>),
    servers: Vec<Server<Sum>>,
    shutter: Shutter<Sum>,
    workers: u32,
) -> ((Fed, Fed), (Option<usize>, u64))
    requires owners { owners.0.lane ∷ owners.1.lane ∷ [] ≡ map known lanes.now }
    requires servers { map (λ s. s.lane) servers.items ≡ map known lanes.now }
    requires shutter { shutter.lane ≡ owners.0.lane }
    requires workers { (0 < workers) × (workers ≤ 16) }
{
    let first = &lanes[0];
    let second = &lanes[1];
    join(
        rt,
        move ||
            requires { (owners.0.lane ≡ known first.now) × (owners.1.lane ≡ known second.now) }
        { feed_both(rt, first, second, owners) },
        move ||
            requires servers { map (λ s. s.lane) servers.items ≡ map known lanes.now }
            requires shutter { shutter.lane ≡ known first.now }
            requires workers { (0 < workers) × (workers ≤ 16) }
        { serve_and_shut(rt, alloc, lanes, servers, first, shutter, workers) },
    )
}

/// What a list holds: those are two.
fn pair_of<T: Drop>(rt: &impl Abort, list: Vec<T>) -> (T, T)
    ensures { list.items ≡ result.0 ∷ result.1 ∷ [] }
{
    let mut list = list;
    let second = list.pop().expect(rt, "a second");
    let first = list.pop().expect(rt, "a first");
    assert!(rt; list.is_empty());
    (first, second)
}

/// What two lanes of three slots come to, which so many workers serve.
fn run_by<R: Abort + Threads + Wait + Sync>(
    rt: &R,
    alloc: Global,
    workers: u32,
) -> ((Fed, Fed), (Option<usize>, u64))
    requires { (0 < workers) × (workers ≤ 16) }
{
    let sum = Sum;
    let Engine {
        lanes,
        owners,
        servers,
        shutters,
    } = opened(rt, alloc, &sum, &[0, 0], 3);
    let owners = pair_of(rt, owners);
    let (shutter, _unused) = pair_of(rt, shutters);
    all_run(rt, alloc, &lanes, owners, servers, shutter, workers)
}

#[test]
fn owners_feed_a_pool_while_another_thread_shuts_a_lane(rt: HostRuntime) {
    for workers in [1, 2, 16] {
        let (fed, (served, count)) = run_by(&rt, rt.alloc(), workers);
        equal(&rt, fed, (Fed::whole(count), Fed::whole(10000)));
        equal(&rt, served, Some(2));
    }
}
