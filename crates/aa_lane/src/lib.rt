//! Lanes: lock-free queues in which one owner sends requests and one server answers them, in order, for any machine.
//!
//! `Lane::new` takes a `Machine`, a tag, a capacity and a state, and gives a lane and its three ends, which may go to
//! other threads; of a lane's calls it alone takes memory, and none waits. `Owner::send` hands in a request,
//! `Server::serve` answers the next one, and `Owner::collect` gives the next answer. `Owner::exit` or `Shutter::shut`
//! ends the sending, and `Lane::close` takes all ends back and gives the `Totals`. `World` is a lane as plain lists:
//! `World::apply` makes one `Event` happen. The meaning lies there, in `after` and `answer_to`: each call of a running
//! lane tells which event of the world it was (`HappensAt`), and `HasOneOrder` puts all of them in one order. What is
//! answered is left to the machine, and threads and many lanes to `aa_pool`.
//!
//! An example, from `aa_lane_tests` (`a_machine_that_borrows_answers`):
//!
//! ```text
//! let by = 500;
//! let machine = Offset { by: &by };
//! let (lane, owner, server, _shutter) = open(&rt, rt.alloc(), &machine, 3, 2, 7);
//! equal(&rt, asks_twice(&lane, owner, server), [(0, 517), (1, 18)]);
//! ```
#![tactic(auto)]

mod cells;
mod event;
mod lane;
mod plays;
mod rule;
mod steps;
mod world;

pub use aa_machine::Machine;
pub use event::{Event, LaneFault, NoMemory, Reply, SendFault, Unapplied};
pub use lane::{
    Answered, Busy, Ends, Lane, Leaver, Owner, Served, Server, Shutter, Taken, Totals, Unsent,
};
pub use steps::{log_laws, notes_stay_true, steps_are_events};
pub use world::{World, always_lawful, replay, world_laws, worlds_apart};
