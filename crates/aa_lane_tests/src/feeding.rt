//! An owner that sends and collects on a thread of its own, and what shuts its lane.
ghost use Rattle.std.specs.Prelude.{◌≡◌};
ghost use Rattle.aa_lane.specs.Ends.{known};

use crate::sum::{Sum, sum_up_to};
use aa_lane::SendFault::Closed;
use aa_lane::{Lane, Owner, Shutter};
use std::sync::Wait;
use std::thread;

/// How many requests an owner sent, how many answers it has, and whether each was the one that one thread gets.
#[derive(Clone, Copy, PartialEq, Eq, Debug)]
pub struct Fed {
    pub sent: u64,
    pub got: u64,
    pub right: bool,
}

impl Fed {
    /// So many were sent, and each has its answer.
    pub fn whole(count: u64) -> Fed {
        Fed {
            sent: count,
            got: count,
            right: true,
        }
    }
}

/// One more request is sent, unless the lane is shut. Whether more may be sent later.
fn sends(lane: &Lane<Sum>, owner: &mut Owner<Sum>, fed: &mut Fed) -> bool
    requires { owner.old.lane ≡ known lane.now }
    ensures { owner.new.lane ≡ owner.old.lane }
{
    match owner.send(lane, fed.sent) {
        Ok(number) => {
            fed.right = fed.right && number == fed.sent;
            fed.sent = fed.sent.wrapping_add(1);
            true
        }
        Err(unsent) => unsent.fault != Closed,
    }
}

/// One more answer is collected, if there is one.
fn collects(lane: &Lane<Sum>, owner: &mut Owner<Sum>, fed: &mut Fed)
    requires { owner.old.lane ≡ known lane.now }
    ensures { owner.new.lane ≡ owner.old.lane }
{
    match owner.collect(lane) {
        Some(given) => {
            let right = given.number == fed.got && given.request == fed.got;
            fed.right = fed.right && right && given.answer == sum_up_to(fed.got);
            fed.got = fed.got.wrapping_add(1);
        }
        None => thread::yield_now(),
    }
}

/// Sends the numbers from 0 on until `count` are sent or the lane is shut, and collects the answers to all of them.
pub fn feed(rt: &impl Wait, lane: &Lane<Sum>, owner: Owner<Sum>, count: u64) -> (Owner<Sum>, Fed)
    requires { owner.lane ≡ known lane.now }
    ensures { result.0.lane ≡ known lane.now }
{
    let mut owner = owner;
    let mut open = true;
    let mut fed = Fed::whole(0);
    'feeding: for _ in rt.forever() {
        if open && fed.sent < count {
            open = sends(lane, &mut owner, &mut fed);
        } else if fed.got == fed.sent {
            break;
        }
        collects(lane, &mut owner, &mut fed);
    }
    (owner, fed)
}

/// Shuts the lane after a while, and gives the count of what it accepted.
pub fn shut_later(lane: &Lane<Sum>, shutter: Shutter<Sum>) -> (Shutter<Sum>, u64)
    requires { shutter.lane ≡ known lane.now }
    ensures { result.0.lane ≡ known lane.now }
{
    let mut shutter = shutter;
    for _ in 0..500 {
        thread::yield_now();
    }
    let count = shutter.shut(lane);
    (shutter, count)
}
