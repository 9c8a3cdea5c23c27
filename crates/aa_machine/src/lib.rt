//! Machines that decide requests one after another, and what they make of lists of requests.
//!
//! `Machine` is a trait of one call: `step` takes a state and a request, moves the state on and gives the answer.
//! Whoever implements it says by the ghost members `next` and `reply` which state and which answer that are, as
//! functions of machine, state and request; so contracts can speak of whole lists of requests (definitions
//! `state_after` and `replies`). `Mediator` of `aa_mediate` is the machine that decides by policies, with a task's
//! label as its state. `Lane` of `aa_lane` carries requests to any machine, and `serve_all` of `aa_pool` serves many
//! lanes; what a request is and how it is decided is left to the machine.
//!
//! An example, from `aa_lane_tests` (`a_machine_that_borrows_answers`):
//!
//! ```text
//! let by = 500;
//! let machine = Offset { by: &by };
//! let (lane, owner, server, _shutter) = open(&rt, rt.alloc(), &machine, 3, 2, 7);
//! equal(&rt, asks_twice(&lane, owner, server), [(0, 517), (1, 18)]);
//! ```
#![tactic(auto)]

mod machine;

pub use machine::Machine;
