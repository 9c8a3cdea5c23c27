//! A lane of one slot over the policy of the first job: each call on its ends, and what it answers.

ghost use Rattle.std.specs.Prelude.{◌≡◌};
ghost use Rattle.aa_lane.specs.Ends.{known};

use crate::comparing::equal;
use crate::jobs::{FIRST_JOB, a_job, compiled};
use aa_jobs::{Job, Work};
use aa_lane::{Ends, Lane, Owner, SendFault, Served, Server, Shutter};
use aa_mediate::Mediator;
use aa_model::{Label, Request};
use std::process::Abort;

/// What a call came to: of a request what it asks for, of an answer also its number and whether it grants that.
#[derive(Clone, Copy, PartialEq, Eq, Debug)]
enum Outcome {
    Sent(u64),
    Unsent(SendFault, u8),
    Got(u64, u8, bool),
    Nothing,
    Did,
    Idle,
    Settled,
}

const FULL: Outcome = Outcome::Unsent(SendFault::Full, 1);

const FULL_TO_WRITE: Outcome = Outcome::Unsent(SendFault::Full, 2);

const CLOSED: Outcome = Outcome::Unsent(SendFault::Closed, 1);

/// The first job's requests: to read, and to write.
const READ: usize = 0;

const WRITE: usize = 1;

/// A copy of a request of the job's first task.
fn request_of(job: &Job, number: usize) -> Option<Request> {
    let task = job.tasks.as_slice().first()?;
    match task.requests.as_slice().get(number) {
        Some(Work::Ask(request)) => request.try_clone().ok(),
        _ => None,
    }
}

/// The permissions that it asks for: 1 is to read, 2 to write.
fn asked_by(request: &Request) -> u8 {
    match request {
        Request::File(file) => file.mask().0,
        _ => 0,
    }
}

fn is_sent<'p>(
    rt: &impl Abort,
    lane: &Lane<Mediator<'p>>,
    owner: &mut Owner<Mediator<'p>>,
    job: &Job,
    number: usize,
    wanted: Outcome,
)
    requires { owner.old.lane ≡ known lane.now }
    ensures { owner.new.lane ≡ known lane.now }
{
    let request = request_of(job, number).expect(rt, "a request");
    let found = match owner.send(lane, request) {
        Ok(number) => Outcome::Sent(number),
        Err(unsent) => Outcome::Unsent(unsent.fault, asked_by(&unsent.request)),
    };
    equal(rt, found, wanted);
}

fn is_collected<'p>(
    rt: &impl Abort,
    lane: &Lane<Mediator<'p>>,
    owner: &mut Owner<Mediator<'p>>,
    wanted: Outcome,
)
    requires { owner.old.lane ≡ known lane.now }
    ensures { owner.new.lane ≡ known lane.now }
{
    let found = match owner.collect(lane) {
        Some(given) => Outcome::Got(given.number, asked_by(&given.request), given.answer.granted),
        None => Outcome::Nothing,
    };
    equal(rt, found, wanted);
}

fn is_served<'p>(
    rt: &impl Abort,
    lane: &Lane<Mediator<'p>>,
    server: Server<Mediator<'p>>,
    wanted: Outcome,
) -> Server<Mediator<'p>>
    requires { server.lane ≡ known lane.now }
    ensures { result.lane ≡ known lane.now }
{
    let (server, found) = match server.serve(lane) {
        Served::Did(server) => (server, Outcome::Did),
        Served::Idle(server) => (server, Outcome::Idle),
        Served::Settled(server) => (server, Outcome::Settled),
    };
    equal(rt, found, wanted);
    server
}

fn closed<'p>(lane: Lane<Mediator<'p>>, ends: Ends<Mediator<'p>>) -> ([u64; 3], Label)
    requires { (ends.owner.lane ≡ known lane) × (ends.server.lane ≡ known lane) × (ends.shutter.lane ≡ known lane) }
{
    let totals = lane.close(ends);
    (
        [totals.accepted, totals.answered, totals.collected],
        totals.state,
    )
}

/// A lane of one slot, and its ends.
fn a_lane<'m, 'p>(
    rt: &(impl Abort + AllocGlobal),
    mediator: &'m Mediator<'p>,
) -> (
    Lane<'m, Mediator<'p>>,
    Owner<Mediator<'p>>,
    Server<Mediator<'p>>,
    Shutter<Mediator<'p>>,
)
    ensures { (result.1.lane ≡ known result.0) × (result.2.lane ≡ known result.0) × (result.3.lane ≡ known result.0) }
{
    Lane::new(rt.alloc(), mediator, 0, 1, Label::Confined(0, 0)).expect(rt, "a lane")
}

/// A request is refused while another is on its way, and is the second then.
fn fills<'p>(
    rt: &impl Abort,
    lane: &Lane<Mediator<'p>>,
    owner: &mut Owner<Mediator<'p>>,
    server: Server<Mediator<'p>>,
    job: &Job,
) -> Server<Mediator<'p>>
    requires owner { owner.old.lane ≡ known lane.now }
    requires server { server.lane ≡ known lane.now }
    ensures owner { owner.new.lane ≡ known lane.now }
    ensures server { result.lane ≡ known lane.now }
{
    is_sent(rt, lane, owner, job, READ, Outcome::Sent(0));
    is_sent(rt, lane, owner, job, WRITE, FULL_TO_WRITE);
    let server = is_served(rt, lane, server, Outcome::Did);
    is_collected(rt, lane, owner, Outcome::Got(0, 1, true));
    is_sent(rt, lane, owner, job, WRITE, Outcome::Sent(1));
    server
}

/// Nothing more is accepted by the shut lane, and what it holds is answered.
fn empties<'p>(
    rt: &impl Abort,
    lane: &Lane<Mediator<'p>>,
    owner: &mut Owner<Mediator<'p>>,
    server: Server<Mediator<'p>>,
    job: &Job,
) -> Server<Mediator<'p>>
    requires owner { owner.old.lane ≡ known lane.now }
    requires server { server.lane ≡ known lane.now }
    ensures owner { owner.new.lane ≡ known lane.now }
    ensures server { result.lane ≡ known lane.now }
{
    let server = is_served(rt, lane, server, Outcome::Did);
    is_sent(rt, lane, owner, job, READ, FULL);
    is_collected(rt, lane, owner, Outcome::Got(1, 2, false));
    is_sent(rt, lane, owner, job, READ, CLOSED);
    let server = is_served(rt, lane, server, Outcome::Settled);
    is_collected(rt, lane, owner, Outcome::Nothing);
    server
}

/// What the lane counts once all that has happened, and the label then.
fn totals(rt: &(impl Abort + AllocGlobal), job: &Job, mediator: &Mediator) -> ([u64; 3], Label) {
    let (lane, mut owner, server, mut shutter) = a_lane(rt, mediator);
    let server = fills(rt, &lane, &mut owner, server, job);
    equal(rt, shutter.shut(&lane), 2);
    let server = empties(rt, &lane, &mut owner, server, job);
    let owner = owner.exit(&lane);
    closed(
        lane,
        Ends {
            owner,
            server,
            shutter,
        },
    )
}

#[test]
fn a_lane_of_one_slot_over_a_policy_is_filled_and_shut(rt: HostRuntime) {
    let job = a_job(&rt, FIRST_JOB);
    let policies = compiled(&rt, &job);
    let mediator = Mediator::new(policies.as_slice());
    let found = totals(&rt, &job, &mediator);
    equal(&rt, found, ([2, 2, 2], Label::Confined(0, 0)));
}
