//! Requests and answers that own memory, ends that are dropped, and growths that are refused.
ghost use Rattle.std.specs.Prelude.{◌≡◌};
ghost use Rattle.aa_lane.specs.Ends.{known};

use crate::comparing::{equal, holds};
use crate::lane::bench::{Bench, Outcome, Step, closed, open, served};
use crate::lane::happenings::{Happening, Said};
use crate::lane::scales::{Held, Scales, a_parcel, a_thing, collected, owners, plays, sent};
use crate::lane::worlds::{a_world, apply, are_said, comes, replayed};
use crate::sum::Sum;
use aa_lane::SendFault::Full;
use aa_lane::{
    Event, Lane, LaneFault, NoMemory, Owner, Reply, Server, Shutter, Taken, Unapplied, World,
};
use std::alloc::Global;
use std::collections::VecDeque;
use std::process::Abort;

// A lane of two places at which the rows happen; then its ends are dropped, and then the lane.
fn plays_and_drops(
    rt: &impl Abort,
    alloc: Global,
    held: &Held,
    rows: &[(Step, Outcome, [usize; 2])],
) {
    let scales = Scales;
    let (lane, owner, server, shutter) = open(rt, alloc, &scales, 0, 2, 0);
    drop(plays(rt, Bench::of(&lane, owner, server, shutter), held, rows));
    drop(lane);
}

// What `close` tells of a lane of two places at which the rows happen.
fn plays_and_closes(
    rt: &impl Abort,
    alloc: Global,
    held: &Held,
    rows: &[(Step, Outcome, [usize; 2])],
) -> [u64; 4] {
    let scales = Scales;
    let (lane, owner, server, shutter) = open(rt, alloc, &scales, 0, 2, 0);
    let bench = plays(rt, Bench::of(&lane, owner, server, shutter), held, rows);
    let ends = bench.leaves();
    closed(lane, ends)
}

const DROPPED_ONCE: [(Step, Outcome, [usize; 2]); 5] = [
    (Step::Send(1), Outcome::Sent(0), [2, 2]),
    (Step::Send(2), Outcome::Sent(1), [3, 3]),
    (Step::Send(4), Outcome::Unsent(Full, 4), [4, 3]),
    (Step::Serve, Outcome::Did, [4, 4]),
    (Step::Collect, Outcome::Got(0, 1, 1), [4, 2]),
];

#[test]
fn each_request_and_answer_is_dropped_once(rt: HostRuntime) {
    let held = a_thing(rt.alloc());
    plays_and_drops(&rt, rt.alloc(), &held, &DROPPED_ONCE);
    equal(&rt, owners(&held), 1);
}

#[test]
fn a_close_drops_what_is_left(rt: HostRuntime) {
    let held = a_thing(rt.alloc());
    let rows = [(Step::Send(7), Outcome::Sent(0), [2, 2])];
    equal(
        &rt,
        plays_and_closes(&rt, rt.alloc(), &held, &rows),
        [1, 0, 0, 0],
    );
    equal(&rt, owners(&held), 1);
}

// The request that the server takes, and is dropped with.
fn taken_and_dropped(rt: &impl Abort, lane: &Lane<Scales>, server: Server<Scales>) -> u64
    requires { server.lane ≡ known lane.now }
{
    match server.take(lane) {
        Taken::Job(busy) => busy.request().weight,
        _ => panic!(rt; "no request"),
    }
}

// What a second parcel, a look for an answer and a third parcel come to.
fn goes_on(lane: &Lane<Scales>, owner: &mut Owner<Scales>, held: &Held) -> [Outcome; 3]
    requires { owner.old.lane ≡ known lane.now }
    ensures { owner.new.lane ≡ known lane.now }
{
    let second = sent(lane, owner, 8, held);
    let given = collected(lane, owner);
    [second, given, sent(lane, owner, 9, held)]
}

// The server is dropped with a request in hand, and the owner goes on.
fn goes_on_alone(
    rt: &impl Abort,
    lane: &Lane<Scales>,
    owner: Owner<Scales>,
    server: Server<Scales>,
    held: &Held,
)
    requires owner { owner.lane ≡ known lane.now }
    requires server { server.lane ≡ known lane.now }
{
    let mut owner = owner;
    equal(rt, sent(lane, &mut owner, 7, held), Outcome::Sent(0));
    equal(rt, taken_and_dropped(rt, lane, server), 7);
    equal(rt, owners(held), 1);
    equal(
        rt,
        goes_on(lane, &mut owner, held),
        [Outcome::Sent(1), Outcome::Nothing, Outcome::Unsent(Full, 9)],
    );
    equal(rt, owners(held), 2);
}

// The same at a lane of its own, which is dropped then.
fn loses_its_server(rt: &impl Abort, alloc: Global, held: &Held) {
    let scales = Scales;
    let (lane, owner, server, _shutter) = open(rt, alloc, &scales, 0, 2, 0);
    goes_on_alone(rt, &lane, owner, server, held);
}

#[test]
fn a_server_dropped_with_a_request_in_hand(rt: HostRuntime) {
    let held = a_thing(rt.alloc());
    loses_its_server(&rt, rt.alloc(), &held);
    equal(&rt, owners(&held), 1);
}

// What the shut counts, and what two services come to.
fn shut_and_served(
    lane: &Lane<Scales>,
    shutter: Shutter<Scales>,
    server: Server<Scales>,
    held: &Held,
) -> (u64, [Outcome; 2], usize)
    requires shutter { shutter.lane ≡ known lane.now }
    requires server { server.lane ≡ known lane.now }
{
    let mut shutter = shutter;
    let count = shutter.shut(lane);
    let (server, first) = served(lane, server);
    let (_server, second) = served(lane, server);
    (count, [first, second], owners(held))
}

// What comes of a parcel that the owner sends before it is dropped.
fn sent_and_dropped(lane: &Lane<Scales>, owner: Owner<Scales>, held: &Held) -> Outcome
    requires { owner.lane ≡ known lane.now }
{
    let mut owner = owner;
    sent(lane, &mut owner, 7, held)
}

// A lane of two places, which is dropped after it has lost its owner and a parcel was served.
fn loses_its_owner(rt: &impl Abort, alloc: Global, held: &Held) {
    let scales = Scales;
    let (lane, owner, server, shutter) = open(rt, alloc, &scales, 0, 2, 0);
    equal(rt, sent_and_dropped(&lane, owner, held), Outcome::Sent(0));
    equal(
        rt,
        shut_and_served(&lane, shutter, server, held),
        (1, [Outcome::Did, Outcome::Settled], 3),
    );
}

#[test]
fn an_owner_dropped_with_requests_on_their_way(rt: HostRuntime) {
    let held = a_thing(rt.alloc());
    loses_its_owner(&rt, rt.alloc(), &held);
    equal(&rt, owners(&held), 1);
}

// Whether no growth was refused; the reply is dropped.
fn happens(world: &mut World<Scales>, event: Event<Scales>) -> bool {
    world.apply(event).is_ok()
}

fn is_sent(world: &mut World<Scales>, weight: u64, held: &Held) -> bool {
    happens(world, Event::Send(a_parcel(weight, held)))
}

fn scales_world<'m>(rt: &impl Abort, alloc: Global, scales: &'m Scales) -> World<'m, Scales> {
    World::new(alloc, scales, 2, 0).expect(rt, "a world")
}

// The world has two parcels and an answer then, and drops a third.
fn keeps_two_parcels(rt: &impl Abort, world: &mut World<Scales>, held: &Held) {
    holds(rt, is_sent(world, 7, held));
    holds(rt, happens(world, Event::Take));
    holds(rt, happens(world, Event::Finish));
    holds(rt, is_sent(world, 8, held));
    equal(rt, owners(held), 4);
    holds(rt, is_sent(world, 9, held));
    equal(rt, owners(held), 4);
}

#[test]
fn a_world_owns_its_requests_and_answers(rt: HostRuntime) {
    let scales = Scales;
    let held = a_thing(rt.alloc());
    let mut world = scales_world(&rt, rt.alloc(), &scales);
    keeps_two_parcels(&rt, &mut world, &held);
    drop(world);
    equal(&rt, owners(&held), 1);
}

// The reply, or the event that comes back.
fn tried(world: &mut World<Sum>, happening: Happening) -> Result<Said, Event<Sum>> {
    match world.apply(happening.event()) {
        Ok(reply) => Ok(Said::of(reply)),
        Err(Unapplied { event }) => Err(event),
    }
}

// The happening that the event is of.
fn is_of(event: &Event<Sum>, happening: Happening) -> bool {
    match (event, happening) {
        (Event::Send(request), Happening::Send(sent)) => *request == sent,
        (Event::Take, Happening::Take) => true,
        (Event::Finish, Happening::Finish) => true,
        (Event::Collect, Happening::Collect) => true,
        (Event::Shut, Happening::Shut) => true,
        _ => false,
    }
}

// Where a growth is refused the event comes back, of the kinds that take memory, the world is as it was, and it can be tried again.
fn applies(rt: &impl Abort, world: &mut World<Sum>, happening: Happening, want: Said) {
    let state = world.label();
    match tried(world, happening) {
        Ok(said) => equal(rt, said, want),
        Err(event) => {
            equal(rt, world.label(), state);
            holds(rt, is_of(&event, happening));
            holds(rt, matches!(event, Event::Send(_) | Event::Finish));
            equal(rt, apply(world, happening), want);
        }
    }
}

const ROWS: [(Happening, Said); 8] = [
    (Happening::Send(3), Said::Accepted(0)),
    (Happening::Send(4), Said::Accepted(1)),
    (Happening::Take, Said::Taken(0)),
    (Happening::Finish, Said::Finished(0)),
    (Happening::Take, Said::Taken(1)),
    (Happening::Finish, Said::Finished(1)),
    (Happening::Collect, Said::Given(0)),
    (Happening::Shut, Said::Count(2)),
];

#[test]
fn growths_refused_to_apply(rt: HostRuntime) {
    let sum = Sum;
    let mut world = a_world(&rt, rt.alloc(), &sum, 2, 5);
    for row in ROWS {
        applies(&rt, &mut world, row.0, row.1);
    }
    equal(&rt, world.label(), 12);
}

fn row_at(place: usize) -> (Happening, Said) {
    match ROWS.get(place) {
        Some(row) => *row,
        None => (Happening::Take, Said::NoMemory),
    }
}

// Replays until no growth is refused. Each time the event that failed is in front, and each before it has its reply.
fn replays(
    rt: &impl Abort,
    world: &mut World<Sum>,
    events: &mut VecDeque<Event<Sum>>,
    replies: &mut Vec<Reply<Sum>>,
) -> bool {
    for _ in 0..100 {
        let Err(NoMemory) = replayed(world, events, replies) else {
            return true;
        };
        equal(rt, events.len().wrapping_add(replies.len()), ROWS.len());
        match events.front() {
            Some(event) => holds(rt, is_of(event, row_at(replies.len()).0)),
            None => panic!(rt; "no event in front"),
        }
    }
    false
}

// Whether there was memory for the events of the rows, where a growth that is refused is asked for again.
fn rows_come(events: &mut VecDeque<Event<Sum>>) -> bool {
    for row in ROWS {
        if !comes(events, row.0) && !comes(events, row.0) {
            return false;
        }
    }
    true
}

// The replies of the replays.
fn replies_of(rt: &impl Abort, alloc: Global, world: &mut World<Sum>) -> Vec<Reply<Sum>> {
    let mut events: VecDeque<Event<Sum>> = VecDeque::new(alloc);
    holds(rt, rows_come(&mut events));
    let mut replies: Vec<Reply<Sum>> = Vec::new(alloc);
    holds(rt, replays(rt, world, &mut events, &mut replies));
    replies
}

#[test]
fn growths_refused_to_replay(rt: HostRuntime) {
    let sum = Sum;
    let mut world = a_world(&rt, rt.alloc(), &sum, 2, 5);
    let replies = replies_of(&rt, rt.alloc(), &mut world);
    are_said(&rt, &mut replies.into_iter(), &ROWS);
    equal(&rt, world.label(), 12);
}

// Whether the owner of a new lane can send.
fn sends_at_once(alloc: Global) -> Result<bool, LaneFault> {
    let sum = Sum;
    let (lane, mut owner, _server, _shutter) = Lane::new(alloc, &sum, 7, 3, 0)?;
    Ok(owner.send(&lane, 3).is_ok())
}

#[test]
fn growths_refused_to_a_new_lane(rt: HostRuntime) {
    for _ in 0..10 {
        match sends_at_once(rt.alloc()) {
            Ok(sends) => {
                holds(&rt, sends);
                return;
            }
            Err(fault) => equal(&rt, fault, LaneFault::NoMemory),
        }
    }
    panic!(rt; "refused each time")
}
