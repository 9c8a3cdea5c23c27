//! Engines that are opened, or refused, and lanes that are shut one after another.
ghost use Rattle.std.specs.Prelude.{◌≡◌, map};
ghost use Rattle.aa_lane.specs.Ends.{known};

use crate::comparing::equal;
use crate::pool::ends::opened;
use crate::pool::serving::accepts_at;
use crate::sum::Sum;
use aa_lane::{Lane, Owner, Shutter};
use aa_pool::{Engine, EngineFault, shut_all};
use std::alloc::Global;
use std::process::Abort;

/// How many lanes such an engine has, or why it isn't opened.
fn lanes_opened(alloc: Global, starts: &[u64], capacity: u32) -> Result<usize, EngineFault> {
    let sum = Sum;
    let engine = Engine::open(alloc, &sum, starts, capacity)?;
    Ok(engine.lanes.len())
}

#[test]
fn lanes_and_capacities_of_an_engine(rt: HostRuntime) {
    let rows = [
        (1025, 0, Err(EngineFault::TooManyLanes)),
        (1025, 1, Err(EngineFault::TooManyLanes)),
        (0, 0, Err(EngineFault::BadCapacity)),
        (0, 1025, Err(EngineFault::BadCapacity)),
        (2, 1025, Err(EngineFault::BadCapacity)),
        (0, 1, Ok(0)),
        (2, 1024, Ok(2)),
        (1024, 1, Ok(1024)),
    ];
    let starts = [5; 1025];
    for (count, capacity, wanted) in rows {
        let found = lanes_opened(rt.alloc(), &starts[..count], capacity);
        equal(&rt, found, wanted);
    }
}

/// What shutting two lanes counts, of which the first accepts a request.
fn counted(
    rt: &impl Abort,
    lanes: &[Lane<Sum>],
    owners: &mut [Owner<Sum>],
    shutters: &mut [Shutter<Sum>],
) -> [u64; 2]
    requires owners { map (λ o. o.lane) owners.old ≡ map known lanes.now }
    requires shutters { map (λ s. s.lane) shutters.old ≡ map known lanes.now }
{
    let mut counts = [7, 7];
    assert!(rt; lanes.len() == counts.len());
    accepts_at(lanes, owners, 0, 3);
    shut_all(lanes, shutters, &mut counts);
    counts
}

/// The same for the lanes of an engine.
fn counts_of_shut(rt: &impl Abort, alloc: Global) -> [u64; 2] {
    let sum = Sum;
    let Engine {
        lanes,
        mut owners,
        mut shutters,
        ..
    } = opened(rt, alloc, &sum, &[0, 0], 1);
    counted(rt, &lanes, &mut owners, &mut shutters)
}

#[test]
fn shutting_all_lanes_counts_what_each_accepted(rt: HostRuntime) {
    equal(&rt, counts_of_shut(&rt, rt.alloc()), [1, 0]);
}

#[test]
fn growths_refused_to_an_engine(rt: HostRuntime) {
    for _ in 0..100 {
        match lanes_opened(rt.alloc(), &[1, 2, 3], 2) {
            Ok(count) => {
                equal(&rt, count, 3);
                return;
            }
            Err(fault) => equal(&rt, fault, EngineFault::NoMemory),
        }
    }
    panic!(rt; "refused each time")
}
