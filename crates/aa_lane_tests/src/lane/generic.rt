//! Generic use of lanes: a machine that borrows, bounds that name a machine's types, ends that other threads may have, and
//! what callers prove of a shutter that they never use.
ghost use Rattle.std.specs.Prelude.{◌≡◌, ◌≢◌, ◌+◌, ◌%◌, ◌++◌, ◌∷◌, [], None, true, IfOk, length};
ghost use Rattle.aa_lane.specs.Ends.{known};
ghost use Rattle.aa_lane.specs.Log.{by};
ghost use Rattle.aa_lane.specs.declared.cells.Who.TheVariants.{ByOwner};
ghost use Rattle.aa_lane.specs.declared.event.Event.TheVariants.{Send, Shut};
ghost use Rattle.aa_lane.specs.declared.event.Reply.TheVariants.{Accepted, Count};

use crate::comparing::{equal, holds};
use crate::lane::bench::open;
use aa_lane::{Ends, Lane, Leaver, Owner, Served, Server, Shutter, Totals, Unsent};
use aa_machine::Machine;
use std::alloc::Global;
use std::process::Abort;

/// Adds the request and a number that stands elsewhere to the state, modulo 1,000, and answers the new state.
#[derive(Drop)]
struct Offset<'n> {
    by: &'n u64,
}

impl<'n> Machine for Offset<'n> {
    type State = u64;

    type Request = u64;

    type Answer = u64;

    ghost next = { λ m s q. (s % 1000 + q % 1000 + m.by.now % 1000) % 1000 };

    ghost reply = { λ m s q. (s % 1000 + q % 1000 + m.by.now % 1000) % 1000 };

    fn step(&self, state: &mut u64, request: &u64) -> u64 {
        *state = (*state % 1000 + *request % 1000 + *self.by % 1000) % 1000;
        *state
    }
}

// Sends a request, has it answered, and gives the answer and its number.
fn asks<M: Machine<State = u64, Request = u64, Answer = u64>>(
    lane: &Lane<M>,
    owner: &mut Owner<M>,
    server: Server<M>,
    request: u64,
) -> (Server<M>, (u64, u64))
    requires owner { owner.old.lane ≡ known lane.now }
    requires server { server.lane ≡ known lane.now }
    ensures owner { owner.new.lane ≡ known lane.now }
    ensures server { result.0.lane ≡ known lane.now }
{
    if owner.send(lane, request).is_err() {
        return (server, (0, 0));
    }
    let server = match server.serve(lane) {
        Served::Did(next) => next,
        Served::Idle(next) => next,
        Served::Settled(next) => next,
    };
    match owner.collect(lane) {
        Some(given) => (server, (given.number, given.answer)),
        None => (server, (0, 0)),
    }
}

// What is answered to two requests.
fn asks_twice<M: Machine<State = u64, Request = u64, Answer = u64>>(
    lane: &Lane<M>,
    owner: Owner<M>,
    server: Server<M>,
) -> [(u64, u64); 2]
    requires owner { owner.lane ≡ known lane.now }
    requires server { server.lane ≡ known lane.now }
{
    let mut owner = owner;
    let (server, first) = asks(lane, &mut owner, server, 10);
    let (_server, second) = asks(lane, &mut owner, server, 1);
    [first, second]
}

#[test]
fn a_machine_that_borrows_answers(rt: HostRuntime) {
    let by = 500;
    let machine = Offset { by: &by };
    let (lane, owner, server, _shutter) = open(&rt, rt.alloc(), &machine, 3, 2, 7);
    equal(&rt, asks_twice(&lane, owner, server), [(0, 517), (1, 18)]);
}

fn sent_between_threads<T: Send>(value: T) -> T
    ensures { result ≡ value }
{
    value
}

fn shared_between_threads<T: Sync>(_value: &T) -> bool
    ensures { result ≡ true }
{
    true
}

// Of any machine that threads may share, the lane is shared and its ends are sent.
fn goes_to_threads<M: Machine + Sync>(
    lane: &Lane<M>,
    owner: Owner<M>,
    server: Server<M>,
    shutter: Shutter<M>,
) -> bool
where
    M::State: Send + Sync,
    M::Request: Send + Sync,
    M::Answer: Send + Sync,
    ensures { result ≡ true }
{
    let _owner = sent_between_threads(owner);
    let _server = sent_between_threads(server);
    let _shutter = sent_between_threads(shutter);
    shared_between_threads(lane)
}

#[test]
fn a_lane_and_its_ends_go_to_threads(rt: HostRuntime) {
    let by = 1;
    let machine = Offset { by: &by };
    let (lane, owner, server, shutter) = open(&rt, rt.alloc(), &machine, 3, 2, 7);
    holds(&rt, goes_to_threads(&lane, owner, server, shutter));
}

// Where the shutter was never used, no request was refused since the lane was shut.
fn closes_unshut<M: Machine>(lane: Lane<M>, ends: Ends<M>) -> Totals<M>
    requires lanes { (ends.owner.lane ≡ known lane) × (ends.server.lane ≡ known lane) × (ends.shutter.lane ≡ known lane) }
    requires unused { ends.shutter.count ≡ None }
    ensures { ends.owner.closed ≢ true }
{
    lane.close(ends)
}

// A lane whose shutter was never used.
fn new_lane<'m, M: Machine<State = u64>>(
    rt: &impl Abort,
    alloc: Global,
    machine: &'m M,
) -> (Lane<'m, M>, Owner<M>, Server<M>, Shutter<M>)
    ensures ends { (result.1.lane ≡ known result.0) × (result.2.lane ≡ known result.0) × (result.3.lane ≡ known result.0) }
    ensures unused { result.3.count ≡ None }
{
    Lane::new(alloc, machine, 3, 2, 7).expect(rt, "a lane")
}

#[test]
fn an_unused_shutter_closed_nothing(rt: HostRuntime) {
    let by = 0;
    let machine = Offset { by: &by };
    let (lane, owner, server, shutter) = new_lane(&rt, rt.alloc(), &machine);
    let owner = owner.exit(&lane);
    let totals = closes_unshut(
        lane,
        Ends {
            owner,
            server,
            shutter,
        },
    );
    equal(&rt, (totals.accepted, totals.state), (0, 7));
}

// Sends a request and leaves. What the owner has then seen of the lane's log has these two events of its own more, in this
// order, and no others.
fn sends_and_leaves<M: Machine>(
    lane: &Lane<M>,
    owner: Owner<M>,
    request: M::Request,
) -> Result<Leaver<M>, Unsent<M>>
    requires { owner.lane ≡ known lane.now }
    ensures { IfOk result (λ l. by ByOwner l.log ≡ (by ByOwner owner.log ++ (Send request, Accepted (length owner.sent)) ∷ []) ++ (Shut, Count (length owner.sent + 1)) ∷ []) }
{
    let mut owner = owner;
    match owner.send(lane, request) {
        Ok(_) => Ok(owner.exit(lane)),
        Err(unsent) => Err(unsent),
    }
}

// How many requests the leaver says were accepted.
fn accepted_of<M: Machine>(lane: &Lane<M>, owner: Owner<M>, request: M::Request) -> Option<u64>
    requires { owner.lane ≡ known lane.now }
{
    match sends_and_leaves(lane, owner, request) {
        Ok(leaver) => Some(leaver.accepted()),
        Err(_) => None,
    }
}

#[test]
fn two_events_of_one_end_stand_in_one_order(rt: HostRuntime) {
    let by = 1;
    let machine = Offset { by: &by };
    let (lane, owner, _server, _shutter) = open(&rt, rt.alloc(), &machine, 3, 2, 7);
    equal(&rt, accepted_of(&lane, owner, 10), Some(1));
}
