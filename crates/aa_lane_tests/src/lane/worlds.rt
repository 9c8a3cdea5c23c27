//! The lane as plain data.
use crate::comparing::{equal, holds};
use crate::lane::happenings::{Happening, Said};
use crate::sum::Sum;
use aa_lane::SendFault::{Closed, Full};
use aa_lane::{Event, Lane, LaneFault, NoMemory, Reply, World, replay};
use std::alloc::Global;
use std::collections::VecDeque;
use std::process::Abort;
use std::vec::IntoIter;

// Each call of a function with a large contract stands in a function that promises nothing, so that no test's goal carries it.
pub fn a_world<'m>(
    rt: &impl Abort,
    alloc: Global,
    sum: &'m Sum,
    capacity: u32,
    start: u64,
) -> World<'m, Sum> {
    World::new(alloc, sum, capacity, start).expect(rt, "a world")
}

pub fn apply(world: &mut World<Sum>, happening: Happening) -> Said {
    match world.apply(happening.event()) {
        Ok(reply) => Said::of(reply),
        Err(_) => Said::NoMemory,
    }
}

fn plays(rt: &impl Abort, world: &mut World<Sum>, rows: &[(Happening, Said)]) {
    for row in rows {
        equal(rt, apply(world, row.0), row.1);
    }
}

const SUM_FROM_FIVE: [(Happening, Said); 10] = [
    (Happening::Take, Said::Idle),
    (Happening::Finish, Said::NoJob),
    (Happening::Send(3), Said::Accepted(0)),
    (Happening::Take, Said::Taken(0)),
    (Happening::Take, Said::Held),
    (Happening::Finish, Said::Finished(0)),
    (Happening::Collect, Said::Given(0)),
    (Happening::Shut, Said::Count(1)),
    (Happening::Shut, Said::Count(1)),
    (Happening::Take, Said::Settled),
];

// The request with this number, and its answer.
fn kept(world: &World<Sum>, number: u64) -> (Option<u64>, Option<u64>) {
    (
        world.request(number).copied(),
        world.answer(number).copied(),
    )
}

#[test]
fn the_sum_from_five(rt: HostRuntime) {
    let sum = Sum;
    let mut world = a_world(&rt, rt.alloc(), &sum, 2, 5);
    plays(&rt, &mut world, &SUM_FROM_FIVE);
    equal(&rt, kept(&world, 0), (Some(3), Some(8)));
    equal(&rt, kept(&world, 1), (None, None));
    equal(&rt, world.label(), 8);
}

// Why a world and a lane of that capacity aren't made.
fn refused(alloc: Global, capacity: u32) -> [Option<LaneFault>; 2] {
    let sum = Sum;
    let of_world = World::new(alloc, &sum, capacity, 5).err();
    [of_world, Lane::new(alloc, &sum, 7, capacity, 5).err()]
}

#[test]
fn capacities_of_a_world_and_of_a_lane(rt: HostRuntime) {
    const BAD: Option<LaneFault> = Some(LaneFault::BadCapacity);
    for (capacity, fault) in [
        (0, BAD),
        (1, None),
        (1024, None),
        (1025, BAD),
        (u32::MAX, BAD),
    ] {
        equal(&rt, refused(rt.alloc(), capacity), [fault, fault]);
    }
}

const REFUSALS: [(Happening, Said); 10] = [
    (Happening::Send(1), Said::Accepted(0)),
    (Happening::Send(2), Said::Unsent(Full, 2)),
    (Happening::Take, Said::Taken(0)),
    (Happening::Shut, Said::Count(1)),
    (Happening::Finish, Said::Finished(0)),
    (Happening::Send(2), Said::Unsent(Full, 2)),
    (Happening::Collect, Said::Given(0)),
    (Happening::Send(2), Said::Unsent(Closed, 2)),
    (Happening::Take, Said::Settled),
    (Happening::Collect, Said::Nothing),
];

#[test]
fn refusals_of_a_world(rt: HostRuntime) {
    let sum = Sum;
    let mut world = a_world(&rt, rt.alloc(), &sum, 1, 0);
    plays(&rt, &mut world, &REFUSALS);
}

// Whether there was memory for the event.
pub fn comes(events: &mut VecDeque<Event<Sum>>, happening: Happening) -> bool {
    events.push_back(happening.event()).is_ok()
}

// The events of these rows.
fn events_of(rt: &impl Abort, alloc: Global, rows: &[(Happening, Said)]) -> VecDeque<Event<Sum>> {
    let mut events = VecDeque::new(alloc);
    for row in rows {
        holds(rt, comes(&mut events, row.0));
    }
    events
}

// One reply.
fn one_reply(rt: &impl Abort, alloc: Global) -> Vec<Reply<Sum>> {
    let mut replies = Vec::new(alloc);
    holds(rt, replies.push(Reply::Idle).is_ok());
    replies
}

pub fn replayed(
    world: &mut World<Sum>,
    events: &mut VecDeque<Event<Sum>>,
    replies: &mut Vec<Reply<Sum>>,
) -> Result<(), NoMemory> {
    replay(world, events, replies)
}

fn next_said(replies: &mut IntoIter<Reply<Sum>>) -> Option<Said> {
    replies.next().map(Said::of)
}

/// The next replies are those of the rows.
pub fn are_said(rt: &impl Abort, replies: &mut IntoIter<Reply<Sum>>, rows: &[(Happening, Said)]) {
    for row in rows {
        equal(rt, next_said(replies), Some(row.1));
    }
}

// The replies are the one that was there, and those of the rows.
fn are_told(rt: &impl Abort, replies: Vec<Reply<Sum>>) {
    equal(rt, replies.len(), 11);
    let mut replies = replies.into_iter();
    equal(rt, next_said(&mut replies), Some(Said::Idle));
    are_said(rt, &mut replies, &SUM_FROM_FIVE);
}

// How many events are left, and the replies.
fn all_replayed(
    rt: &impl Abort,
    alloc: Global,
    world: &mut World<Sum>,
) -> (usize, Vec<Reply<Sum>>) {
    let mut events = events_of(rt, alloc, &SUM_FROM_FIVE);
    let mut replies = one_reply(rt, alloc);
    holds(rt, replayed(world, &mut events, &mut replies).is_ok());
    (events.len(), replies)
}

#[test]
fn a_replay_appends_a_reply_for_each_event(rt: HostRuntime) {
    let sum = Sum;
    let mut world = a_world(&rt, rt.alloc(), &sum, 2, 5);
    let (left, replies) = all_replayed(&rt, rt.alloc(), &mut world);
    equal(&rt, left, 0);
    are_told(&rt, replies);
    equal(&rt, world.label(), 8);
}
