//! A machine whose requests and answers own memory, and its lanes with what is alive at each step.
ghost use Rattle.std.specs.Prelude.{◌≡◌, ◌+◌, ◌%◌, ℕ};
ghost use Rattle.aa_lane.specs.Ends.{known};

use crate::comparing::equal;
use crate::lane::bench::{Bench, Outcome, Step};
use aa_lane::{Answered, Lane, Owner, Unsent};
use aa_machine::Machine;
use std::alloc::Global;
use std::marker::Model;
use std::process::Abort;
use std::rc::Rc;

/// Something on the heap, with a count of its owners.
pub type Held = Option<Rc<u64, Global>>;

/// A weight, and a part of something on the heap, which the weight's contracts don't see.
#[derive(Drop)]
pub struct Parcel {
    pub weight: u64,
    held: Held,
}

impl Model for Parcel {
    ghost Value = { ℕ };

    ghost view = { λ p. p.weight };
}

/// Adds up weights modulo 1,000, and answers with a part of what the request holds.
#[derive(Drop)]
pub struct Scales;

impl Machine for Scales {
    type State = u64;

    type Request = Parcel;

    type Answer = Parcel;

    ghost next = { λ _ s q. (s % 1000 + q % 1000) % 1000 };

    ghost reply = { λ _ s q. (s % 1000 + q % 1000) % 1000 };

    fn step(&self, state: &mut u64, request: &Parcel) -> Parcel {
        *state = (*state % 1000 + request.weight % 1000) % 1000;
        a_parcel(*state, &request.held)
    }
}

pub fn a_parcel(weight: u64, held: &Held) -> Parcel
    ensures { result ≡ weight }
{
    let held = match held {
        Some(held) => held.clone().ok(),
        None => None,
    };
    Parcel { weight, held }
}

pub fn owners(held: &Held) -> usize {
    match held {
        Some(held) => Rc::strong_count(held),
        None => 0,
    }
}

pub fn a_thing(alloc: Global) -> Held {
    Rc::new(alloc, 5).ok()
}

fn outcome_of_send(sent: &Result<u64, Unsent<Scales>>) -> Outcome {
    match sent {
        Ok(number) => Outcome::Sent(*number),
        Err(unsent) => Outcome::Unsent(unsent.fault, unsent.request.weight),
    }
}

fn outcome_of_collect(given: &Option<Answered<Scales>>) -> Outcome {
    match given {
        Some(given) => Outcome::Got(given.number, given.request.weight, given.answer.weight),
        None => Outcome::Nothing,
    }
}

// The step, and how many owners there are before what it gave back is dropped, and then.
fn does<'l, 'm>(
    bench: Bench<'l, 'm, Scales>,
    step: Step,
    held: &Held,
) -> (Bench<'l, 'm, Scales>, Outcome, [usize; 2])
    ensures { result.0.lane ≡ bench.entry.lane }
{
    match step {
        Step::Send(weight) => {
            let (bench, sent) = bench.sends(a_parcel(weight, held));
            let (outcome, before) = (outcome_of_send(&sent), owners(held));
            drop(sent);
            (bench, outcome, [before, owners(held)])
        }
        Step::Serve => {
            let (bench, outcome) = bench.serves();
            (bench, outcome, [owners(held), owners(held)])
        }
        Step::Collect => {
            let (bench, given) = bench.collects();
            let (outcome, before) = (outcome_of_collect(&given), owners(held));
            drop(given);
            (bench, outcome, [before, owners(held)])
        }
        Step::Shut => {
            let (bench, outcome) = bench.shuts();
            (bench, outcome, [owners(held), owners(held)])
        }
    }
}

/// Each step has its outcome, with so many owners before what it gave back is dropped, and then.
pub fn plays<'l, 'm>(
    rt: &impl Abort,
    bench: Bench<'l, 'm, Scales>,
    held: &Held,
    rows: &[(Step, Outcome, [usize; 2])],
) -> Bench<'l, 'm, Scales>
    ensures { result.lane ≡ bench.entry.lane }
{
    let mut bench = bench;
    for row in rows {
        let (next, outcome, counts) = does(bench, row.0, held);
        bench = next;
        equal(rt, (outcome, counts), (row.1, row.2));
    }
    bench
}

/// A parcel is sent, and what isn't accepted is dropped.
pub fn sent(lane: &Lane<Scales>, owner: &mut Owner<Scales>, weight: u64, held: &Held) -> Outcome
    requires { owner.old.lane ≡ known lane.now }
    ensures { owner.new.lane ≡ known lane.now }
{
    outcome_of_send(&owner.send(lane, a_parcel(weight, held)))
}

/// The owner looks for an answer, which is dropped.
pub fn collected(lane: &Lane<Scales>, owner: &mut Owner<Scales>) -> Outcome
    requires { owner.old.lane ≡ known lane.now }
    ensures { owner.new.lane ≡ known lane.now }
{
    outcome_of_collect(&owner.collect(lane))
}
