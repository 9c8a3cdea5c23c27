//! Running lanes, on one thread.
ghost use Rattle.std.specs.Prelude.{◌≡◌, ◌<◌};
ghost use Rattle.aa_lane.specs.Ends.{known};

use crate::comparing::{equal, holds};
use crate::lane::bench::{Bench, Outcome, Step, closed, open};
use crate::lane::happenings::{Happening, Said};
use crate::lane::worlds::{a_world, apply};
use crate::sum::Sum;
use aa_lane::SendFault::{Closed, Full};
use aa_lane::{Ends, Lane, Leaver, Owner, Server, Taken, World};
use std::alloc::Global;
use std::process::Abort;

fn does<'l, 'm>(bench: Bench<'l, 'm, Sum>, step: Step) -> (Bench<'l, 'm, Sum>, Outcome)
    ensures { result.0.lane ≡ bench.entry.lane }
{
    match step {
        Step::Send(request) => {
            let (bench, sent) = bench.sends(request);
            let outcome = match sent {
                Ok(number) => Outcome::Sent(number),
                Err(unsent) => Outcome::Unsent(unsent.fault, unsent.request),
            };
            (bench, outcome)
        }
        Step::Serve => bench.serves(),
        Step::Collect => {
            let (bench, given) = bench.collects();
            let outcome = match given {
                Some(given) => Outcome::Got(given.number, given.request, given.answer),
                None => Outcome::Nothing,
            };
            (bench, outcome)
        }
        Step::Shut => bench.shuts(),
    }
}

fn plays<'l, 'm>(
    rt: &impl Abort,
    bench: Bench<'l, 'm, Sum>,
    rows: &[(Step, Outcome)],
) -> Bench<'l, 'm, Sum>
    ensures { result.lane ≡ bench.entry.lane }
{
    let mut bench = bench;
    for row in rows {
        let (next, outcome) = does(bench, row.0);
        bench = next;
        equal(rt, outcome, row.1);
    }
    bench
}

// Takes the request in hand, which is this one, and answers it.
fn takes_and_finishes<'l, 'm>(
    rt: &impl Abort,
    bench: Bench<'l, 'm, Sum>,
    request: u64,
) -> Bench<'l, 'm, Sum>
    ensures { result.lane ≡ bench.entry.lane }
{
    let Bench {
        lane,
        owner,
        server,
        shutter,
    } = bench;
    let Taken::Job(busy) = server.take(lane) else {
        panic!(rt; "no job")
    };
    equal(rt, *busy.request(), request);
    Bench::of(lane, owner, busy.finish(lane), shutter)
}

// What `close` tells of a lane from this state on, at which the rows happen before its owner leaves.
fn totals(
    rt: &impl Abort,
    alloc: Global,
    capacity: u32,
    start: u64,
    rows: &[(Step, Outcome)],
) -> [u64; 4] {
    let sum = Sum;
    let (lane, owner, server, shutter) = open(rt, alloc, &sum, 7, capacity, start);
    let bench = plays(rt, Bench::of(&lane, owner, server, shutter), rows);
    let ends = bench.leaves();
    closed(lane, ends)
}

const ONE_PLACE: [(Step, Outcome); 12] = [
    (Step::Send(4), Outcome::Sent(0)),
    (Step::Send(5), Outcome::Unsent(Full, 5)),
    (Step::Serve, Outcome::Did),
    (Step::Collect, Outcome::Got(0, 4, 4)),
    (Step::Send(5), Outcome::Sent(1)),
    (Step::Shut, Outcome::Count(2)),
    (Step::Serve, Outcome::Did),
    (Step::Send(6), Outcome::Unsent(Full, 6)),
    (Step::Collect, Outcome::Got(1, 5, 9)),
    (Step::Send(6), Outcome::Unsent(Closed, 6)),
    (Step::Serve, Outcome::Settled),
    (Step::Collect, Outcome::Nothing),
];

#[test]
fn one_place_and_all_refusals(rt: HostRuntime) {
    equal(&rt, totals(&rt, rt.alloc(), 1, 0, &ONE_PLACE), [2, 2, 2, 9]);
}

// The tag of a server that has a request in hand.
fn tag_of_busy(rt: &impl Abort, lane: &Lane<Sum>, server: Server<Sum>) -> u32
    requires { server.lane ≡ known lane.now }
{
    match server.take(lane) {
        Taken::Job(busy) => busy.tag(),
        _ => panic!(rt; "no job"),
    }
}

fn tag_of_leaver(lane: &Lane<Sum>, owner: Owner<Sum>) -> u32
    requires { owner.lane ≡ known lane.now }
{
    owner.exit(lane).tag()
}

// The tags of the lane and of its ends.
fn tags_of(bench: &Bench<Sum>) -> [u32; 4] {
    [
        bench.lane.tag(),
        bench.owner.tag(),
        bench.server.tag(),
        bench.shutter.tag(),
    ]
}

// The tags of the server with a request in hand, and of the leaver.
fn later_tags_of(rt: &impl Abort, bench: Bench<Sum>) -> [u32; 2] {
    let Bench {
        lane,
        owner,
        server,
        ..
    } = bench;
    let of_busy = tag_of_busy(rt, lane, server);
    [of_busy, tag_of_leaver(lane, owner)]
}

#[test]
fn tags(rt: HostRuntime) {
    let sum = Sum;
    let (lane, owner, server, shutter) = open(&rt, rt.alloc(), &sum, 7, 1, 0);
    let bench = plays(
        &rt,
        Bench::of(&lane, owner, server, shutter),
        &[(Step::Send(3), Outcome::Sent(0))],
    );
    equal(&rt, tags_of(&bench), [7, 7, 7, 7]);
    equal(&rt, later_tags_of(&rt, bench), [7, 7]);
}

#[test]
fn the_sum_from_five_with_one_place(rt: HostRuntime) {
    let sum = Sum;
    let (lane, owner, server, shutter) = open(&rt, rt.alloc(), &sum, 7, 1, 5);
    let bench = plays(
        &rt,
        Bench::of(&lane, owner, server, shutter),
        &[
            (Step::Send(3), Outcome::Sent(0)),
            (Step::Send(4), Outcome::Unsent(Full, 4)),
            (Step::Collect, Outcome::Nothing),
            (Step::Serve, Outcome::Did),
            (Step::Serve, Outcome::Idle),
            (Step::Collect, Outcome::Got(0, 3, 8)),
            (Step::Send(4), Outcome::Sent(1)),
        ],
    );
    let bench = takes_and_finishes(&rt, bench, 4);
    drop(plays(
        &rt,
        bench,
        &[
            (Step::Collect, Outcome::Got(1, 4, 12)),
            (Step::Collect, Outcome::Nothing),
        ],
    ));
}

const RING_OF_THREE: [(Step, Outcome); 16] = [
    (Step::Send(1), Outcome::Sent(0)),
    (Step::Send(2), Outcome::Sent(1)),
    (Step::Send(3), Outcome::Sent(2)),
    (Step::Send(4), Outcome::Unsent(Full, 4)),
    (Step::Serve, Outcome::Did),
    (Step::Send(4), Outcome::Unsent(Full, 4)),
    (Step::Collect, Outcome::Got(0, 1, 1)),
    (Step::Send(4), Outcome::Sent(3)),
    (Step::Serve, Outcome::Did),
    (Step::Serve, Outcome::Did),
    (Step::Serve, Outcome::Did),
    (Step::Serve, Outcome::Idle),
    (Step::Collect, Outcome::Got(1, 2, 3)),
    (Step::Collect, Outcome::Got(2, 3, 6)),
    (Step::Collect, Outcome::Got(3, 4, 10)),
    (Step::Collect, Outcome::Nothing),
];

#[test]
fn a_ring_of_three(rt: HostRuntime) {
    equal(
        &rt,
        totals(&rt, rt.alloc(), 3, 0, &RING_OF_THREE),
        [4, 4, 4, 10],
    );
}

fn given(lane: &Lane<Sum>, leaver: &mut Leaver<Sum>) -> Outcome
    requires { leaver.old.lane ≡ known lane.now }
    ensures { leaver.new.lane ≡ leaver.old.lane }
{
    match leaver.collect(lane) {
        Some(given) => Outcome::Got(given.number, given.request, given.answer),
        None => Outcome::Nothing,
    }
}

// How many requests the leaver says were accepted, and what its next two looks find.
fn looks(lane: &Lane<Sum>, leaver: &mut Leaver<Sum>) -> (u64, [Outcome; 2])
    requires { leaver.old.lane ≡ known lane.now }
    ensures { leaver.new.lane ≡ leaver.old.lane }
{
    let accepted = leaver.accepted();
    let first = given(lane, leaver);
    (accepted, [first, given(lane, leaver)])
}

// The server, where it finds the lane settled.
fn settled(rt: &impl Abort, lane: &Lane<Sum>, server: Server<Sum>) -> Server<Sum>
    requires { server.lane ≡ known lane.now }
    ensures { result.lane ≡ known lane.now }
{
    match server.take(lane) {
        Taken::Settled(server) => server,
        _ => panic!(rt; "not settled"),
    }
}

// The ends after the server has found the lane settled, how many requests the leaver says were accepted, and what it finds.
fn after_exit(rt: &impl Abort, lane: &Lane<Sum>, ends: Ends<Sum>) -> (Ends<Sum>, u64, Outcome)
    requires { (ends.owner.lane ≡ known lane.now) × (ends.server.lane ≡ known lane.now) × (ends.shutter.lane ≡ known lane.now) }
    ensures { (result.0.owner.lane ≡ known lane.now) × (result.0.server.lane ≡ known lane.now) × (result.0.shutter.lane ≡ known lane.now) }
{
    let Ends {
        mut owner,
        server,
        shutter,
    } = ends;
    let accepted = owner.accepted();
    let server = settled(rt, lane, server);
    let outcome = given(lane, &mut owner);
    (
        Ends {
            owner,
            server,
            shutter,
        },
        accepted,
        outcome,
    )
}

#[test]
fn exit_at_once(rt: HostRuntime) {
    let sum = Sum;
    let (lane, owner, server, shutter) = open(&rt, rt.alloc(), &sum, 7, 2, 5);
    let ends = Bench::of(&lane, owner, server, shutter).leaves();
    let (ends, accepted, outcome) = after_exit(&rt, &lane, ends);
    equal(&rt, accepted, 0);
    equal(&rt, outcome, Outcome::Nothing);
    equal(&rt, closed(lane, ends), [0, 0, 0, 5]);
}

// What the leaver's looks find, and what `close` tells then.
fn looks_and_closes(lane: Lane<Sum>, ends: Ends<Sum>) -> ((u64, [Outcome; 2]), [u64; 4])
    requires { (ends.owner.lane ≡ known lane) × (ends.server.lane ≡ known lane) × (ends.shutter.lane ≡ known lane) }
{
    let mut ends = ends;
    let found = looks(&lane, &mut ends.owner);
    (found, closed(lane, ends))
}

#[test]
fn a_leaver_collects_what_is_left(rt: HostRuntime) {
    let sum = Sum;
    let (lane, owner, server, shutter) = open(&rt, rt.alloc(), &sum, 7, 2, 5);
    let bench = plays(
        &rt,
        Bench::of(&lane, owner, server, shutter),
        &[
            (Step::Send(3), Outcome::Sent(0)),
            (Step::Send(4), Outcome::Sent(1)),
            (Step::Serve, Outcome::Did),
        ],
    );
    let ends = bench.leaves();
    let (found, totals) = looks_and_closes(lane, ends);
    equal(&rt, found, (2, [Outcome::Got(0, 3, 8), Outcome::Nothing]));
    equal(&rt, totals, [2, 1, 1, 8]);
}

const SMALL: [Step; 6] = [
    Step::Send(1),
    Step::Send(2),
    Step::Serve,
    Step::Collect,
    Step::Serve,
    Step::Collect,
];

// The same step at a world: a service is a Take and then a Finish.
fn world_does(world: &mut World<Sum>, step: Step) -> Outcome {
    let said = match step {
        Step::Send(request) => apply(world, Happening::Send(request)),
        Step::Serve => match apply(world, Happening::Take) {
            Said::Taken(_) => apply(world, Happening::Finish),
            said => said,
        },
        Step::Collect => apply(world, Happening::Collect),
        Step::Shut => apply(world, Happening::Shut),
    };
    outcome_of(world, said)
}

fn outcome_of(world: &World<Sum>, said: Said) -> Outcome {
    match said {
        Said::Accepted(number) => Outcome::Sent(number),
        Said::Unsent(fault, request) => Outcome::Unsent(fault, request),
        Said::Finished(_) => Outcome::Did,
        Said::Idle => Outcome::Idle,
        Said::Settled => Outcome::Settled,
        Said::Given(number) => match (world.request(number), world.answer(number)) {
            (Some(request), Some(answer)) => Outcome::Got(number, *request, *answer),
            _ => Outcome::NoMemory,
        },
        Said::Nothing => Outcome::Nothing,
        Said::Count(count) => Outcome::Count(count),
        Said::Taken(_) | Said::Held | Said::NoJob | Said::NoMemory => Outcome::NoMemory,
    }
}

// The step at both, with one outcome.
fn both_do<'l, 'm>(
    rt: &impl Abort,
    bench: Bench<'l, 'm, Sum>,
    world: &mut World<Sum>,
    step: Step,
) -> Bench<'l, 'm, Sum>
    ensures { result.lane ≡ bench.entry.lane }
{
    let (bench, outcome) = does(bench, step);
    equal(rt, outcome, world_does(world, step));
    bench
}

// The small schedule with a shut after its first `place` steps, beside a world.
fn shut_after(rt: &impl Abort, bench: Bench<Sum>, world: &mut World<Sum>, place: usize) -> Ends<Sum>
    ensures { (result.owner.lane ≡ known bench.entry.lane.now) × (result.server.lane ≡ known bench.entry.lane.now) × (result.shutter.lane ≡ known bench.entry.lane.now) }
{
    let mut bench = bench;
    for i in 0..SMALL.len() {
        if i == place {
            bench = both_do(rt, bench, world, Step::Shut);
        }
        bench = both_do(rt, bench, world, SMALL[i]);
    }
    if place >= SMALL.len() {
        bench = both_do(rt, bench, world, Step::Shut);
    }
    bench.leaves()
}

const COUNTS: [u64; 7] = [0, 1, 2, 2, 2, 2, 2];

const STATES: [u64; 7] = [0, 1, 3, 3, 3, 3, 3];

// What a further shut counts, and what `close` tells then.
fn shuts_and_closes(lane: Lane<Sum>, ends: Ends<Sum>) -> (u64, [u64; 4])
    requires { (ends.owner.lane ≡ known lane) × (ends.server.lane ≡ known lane) × (ends.shutter.lane ≡ known lane) }
{
    let mut ends = ends;
    let count = ends.shutter.shut(&lane);
    (count, closed(lane, ends))
}

// The same for a lane beside this world, with a shut at this place.
fn counts_beside(
    rt: &impl Abort,
    alloc: Global,
    world: &mut World<Sum>,
    place: usize,
) -> (u64, [u64; 4]) {
    let sum = Sum;
    let (lane, owner, server, shutter) = open(rt, alloc, &sum, 7, 2, 0);
    let bench = Bench::of(&lane, owner, server, shutter);
    let ends = shut_after(rt, bench, world, place);
    shuts_and_closes(lane, ends)
}

fn shut_at(rt: &impl Abort, alloc: Global, place: usize)
    requires { place < 7 }
{
    let sum = Sum;
    let mut world = a_world(rt, alloc, &sum, 2, 0);
    let count = COUNTS[place];
    equal(
        rt,
        counts_beside(rt, alloc, &mut world, place),
        (count, [count, count, count, STATES[place]]),
    );
    equal(rt, world.label(), STATES[place]);
}

#[test]
fn a_shut_at_each_place_of_a_small_schedule(rt: HostRuntime) {
    for place in 0..7 {
        shut_at(&rt, rt.alloc(), place);
    }
}

// The numbers from `from` on are sent.
fn sends<'l, 'm>(
    rt: &impl Abort,
    bench: Bench<'l, 'm, Sum>,
    world: &mut World<Sum>,
    from: u64,
    count: u64,
) -> Bench<'l, 'm, Sum>
    ensures { result.lane ≡ bench.entry.lane }
{
    let mut bench = bench;
    for i in 0..count {
        bench = both_do(rt, bench, world, Step::Send(from.wrapping_add(i)));
    }
    bench
}

fn repeats<'l, 'm>(
    rt: &impl Abort,
    bench: Bench<'l, 'm, Sum>,
    world: &mut World<Sum>,
    step: Step,
    count: u64,
) -> Bench<'l, 'm, Sum>
    ensures { result.lane ≡ bench.entry.lane }
{
    let mut bench = bench;
    for _ in 0..count {
        bench = both_do(rt, bench, world, step);
    }
    bench
}

// So many requests go round, and one try more of each kind is refused or finds nothing.
fn rounds(rt: &impl Abort, bench: Bench<Sum>, world: &mut World<Sum>, counts: &[u64]) -> Ends<Sum>
    ensures { (result.owner.lane ≡ known bench.entry.lane.now) × (result.server.lane ≡ known bench.entry.lane.now) × (result.shutter.lane ≡ known bench.entry.lane.now) }
{
    let mut bench = bench;
    let mut from: u64 = 0;
    for count in counts {
        bench = sends(rt, bench, world, from, *count);
        bench = repeats(rt, bench, world, Step::Serve, count.wrapping_add(1));
        bench = repeats(rt, bench, world, Step::Collect, count.wrapping_add(1));
        from = from.wrapping_add(*count);
    }
    bench.leaves()
}

// What `close` tells of the largest lane beside this world, after the rounds.
fn rounds_beside(
    rt: &impl Abort,
    alloc: Global,
    world: &mut World<Sum>,
    counts: &[u64],
) -> [u64; 4] {
    let sum = Sum;
    let (lane, owner, server, shutter) = open(rt, alloc, &sum, 7, 1024, 0);
    let bench = Bench::of(&lane, owner, server, shutter);
    let ends = rounds(rt, bench, world, counts);
    closed(lane, ends)
}

#[test]
fn five_thousand_requests_through_the_largest_lane(rt: HostRuntime) {
    let sum = Sum;
    let mut world = a_world(&rt, rt.alloc(), &sum, 1024, 0);
    equal(
        &rt,
        rounds_beside(&rt, rt.alloc(), &mut world, &[1024, 1024, 1024, 1024, 904]),
        [5000, 5000, 5000, 500],
    );
    equal(&rt, world.label(), 500);
}

// A step for a number drawn at random.
fn step_of(draw: u64) -> Step {
    match draw % 8 {
        0..=2 => Step::Send(draw / 8 % 1000),
        3..=5 => Step::Serve,
        _ => Step::Collect,
    }
}

// Two thousand steps drawn at random, with a shut after the first fifteen hundred.
fn wanders(rt: &impl Abort, bench: Bench<Sum>, world: &mut World<Sum>, seed: u64) -> Ends<Sum>
    ensures { (result.owner.lane ≡ known bench.entry.lane.now) × (result.server.lane ≡ known bench.entry.lane.now) × (result.shutter.lane ≡ known bench.entry.lane.now) }
{
    let mut bench = bench;
    let mut draw = seed;
    for i in 0..2000 {
        draw = draw
            .wrapping_mul(6364136223846793005)
            .wrapping_add(1442695040888963407);
        let step = if i == 1500 {
            Step::Shut
        } else {
            step_of(draw >> 33)
        };
        bench = both_do(rt, bench, world, step);
    }
    bench.leaves()
}

// What `close` tells of a lane beside this world, after the steps drawn.
fn wanders_beside(
    rt: &impl Abort,
    alloc: Global,
    world: &mut World<Sum>,
    capacity: u32,
    seed: u64,
) -> [u64; 4] {
    let sum = Sum;
    let (lane, owner, server, shutter) = open(rt, alloc, &sum, 7, capacity, 5);
    let bench = Bench::of(&lane, owner, server, shutter);
    let ends = wanders(rt, bench, world, seed);
    closed(lane, ends)
}

fn wanders_at(rt: &impl Abort, alloc: Global, capacity: u32, seed: u64) {
    let sum = Sum;
    let mut world = a_world(rt, alloc, &sum, capacity, 5);
    let totals = wanders_beside(rt, alloc, &mut world, capacity, seed);
    equal(rt, totals[3], world.label());
    holds(rt, totals[1] > 100);
}

#[test]
fn a_lane_beside_its_world_over_random_schedules(rt: HostRuntime) {
    for row in [(1, 1), (1, 2), (2, 3), (3, 4), (7, 5), (1024, 6)] {
        wanders_at(&rt, rt.alloc(), row.0, row.1);
    }
}
