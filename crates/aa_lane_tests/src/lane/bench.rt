//! A lane of any machine and its three ends on one thread, and steps of them as plain data.
ghost use Rattle.std.specs.Prelude.{◌≡◌};
ghost use Rattle.aa_lane.specs.Ends.{known};

use aa_lane::{Answered, Ends, Lane, Owner, SendFault, Served, Server, Shutter, Unsent};
use aa_machine::Machine;
use std::alloc::Global;
use std::process::Abort;

/// What is done at a lane, with the number that a request is.
#[derive(Clone, Copy, PartialEq, Eq, Debug)]
pub enum Step {
    Send(u64),
    Serve,
    Collect,
    Shut,
}

/// What came of it: for an answer its number, its request and itself.
#[derive(Clone, Copy, PartialEq, Eq, Debug)]
pub enum Outcome {
    Sent(u64),
    Unsent(SendFault, u64),
    Did,
    Idle,
    Settled,
    Got(u64, u64, u64),
    Nothing,
    Count(u64),
    NoMemory,
}

/// The ends of a lane beside it.
#[derive(Drop)]
pub struct Bench<'l, 'm, M: Machine> {
    pub lane: &'l Lane<'m, M>,
    pub owner: Owner<M>,
    pub server: Server<M>,
    pub shutter: Shutter<M>,
    ghost owner_of: { owner.lane ≡ known lane.now },
    ghost server_of: { server.lane ≡ known lane.now },
    ghost shutter_of: { shutter.lane ≡ known lane.now },
}

impl<'l, 'm, M: Machine> Bench<'l, 'm, M> {
    pub fn of(
        lane: &'l Lane<'m, M>,
        owner: Owner<M>,
        server: Server<M>,
        shutter: Shutter<M>,
    ) -> Bench<'l, 'm, M>
        requires owner { owner.lane ≡ known lane.now }
        requires server { server.lane ≡ known lane.now }
        requires shutter { shutter.lane ≡ known lane.now }
        ensures { result.lane ≡ lane.entry }
    {
        Bench {
            lane,
            owner,
            server,
            shutter,
        }
    }

    pub fn sends(self, request: M::Request) -> (Bench<'l, 'm, M>, Result<u64, Unsent<M>>)
        ensures { result.0.lane ≡ self.entry.lane }
    {
        let Bench {
            lane,
            mut owner,
            server,
            shutter,
        } = self;
        let sent = owner.send(lane, request);
        (Bench::of(lane, owner, server, shutter), sent)
    }

    pub fn serves(self) -> (Bench<'l, 'm, M>, Outcome)
        ensures { result.0.lane ≡ self.entry.lane }
    {
        let Bench {
            lane,
            owner,
            server,
            shutter,
        } = self;
        let (server, outcome) = served(lane, server);
        (Bench::of(lane, owner, server, shutter), outcome)
    }

    pub fn collects(self) -> (Bench<'l, 'm, M>, Option<Answered<M>>)
        ensures { result.0.lane ≡ self.entry.lane }
    {
        let Bench {
            lane,
            mut owner,
            server,
            shutter,
        } = self;
        let given = owner.collect(lane);
        (Bench::of(lane, owner, server, shutter), given)
    }

    pub fn shuts(self) -> (Bench<'l, 'm, M>, Outcome)
        ensures { result.0.lane ≡ self.entry.lane }
    {
        let Bench {
            lane,
            owner,
            server,
            mut shutter,
        } = self;
        let count = shutter.shut(lane);
        (
            Bench::of(lane, owner, server, shutter),
            Outcome::Count(count),
        )
    }

    pub fn leaves(self) -> Ends<M>
        ensures { (result.owner.lane ≡ known self.entry.lane.now) × (result.server.lane ≡ known self.entry.lane.now) × (result.shutter.lane ≡ known self.entry.lane.now) }
    {
        let Bench {
            lane,
            owner,
            server,
            shutter,
        } = self;
        Ends {
            owner: owner.exit(lane),
            server,
            shutter,
        }
    }
}

/// A lane and its ends.
pub fn open<'m, M: Machine>(
    rt: &impl Abort,
    alloc: Global,
    machine: &'m M,
    tag: u32,
    capacity: u32,
    start: M::State,
) -> (Lane<'m, M>, Owner<M>, Server<M>, Shutter<M>)
    ensures { (result.1.lane ≡ known result.0) × (result.2.lane ≡ known result.0) × (result.3.lane ≡ known result.0) }
{
    Lane::new(alloc, machine, tag, capacity, start).expect(rt, "a lane")
}

/// The server after one service, and what came of it.
pub fn served<M: Machine>(lane: &Lane<M>, server: Server<M>) -> (Server<M>, Outcome)
    requires { server.lane ≡ known lane.now }
    ensures { result.0.lane ≡ known lane.now }
{
    match server.serve(lane) {
        Served::Did(server) => (server, Outcome::Did),
        Served::Idle(server) => (server, Outcome::Idle),
        Served::Settled(server) => (server, Outcome::Settled),
    }
}

/// How many requests were accepted, answered and collected, and the state at the end.
pub fn closed<M: Machine<State = u64>>(lane: Lane<M>, ends: Ends<M>) -> [u64; 4]
    requires { (ends.owner.lane ≡ known lane) × (ends.server.lane ≡ known lane) × (ends.shutter.lane ≡ known lane) }
{
    let totals = lane.close(ends);
    [
        totals.accepted,
        totals.answered,
        totals.collected,
        totals.state,
    ]
}
