//! Many tasks, each through a lane of its own: a pool of workers that serve them, while their requests are sent and
//! their answers collected.
//!
//! `answer_all` takes a `Machine`, tasks (a state to begin from, and requests), the capacity of each lane and a number
//! of workers. It gives an `Outcome` for each task, in order: its answers, and what its lane counted; or a `Refusal`
//! with the tasks as they were. On the way `Engine::open` makes a lane for each task; with several workers one thread
//! feeds the lanes and collects, while they serve those that have requests; in the end all lanes are closed. Who feeds
//! lanes by calls of its own has them served by `serve_all`, or by `serve_with` and a `Bell`. The meaning lies in
//! `answers_to`, a task's answers one after another, and in `AreOutcomes`. The steps of one lane are left to `aa_lane`,
//! what is decided to the machine, labels to `aa_engine`.
//!
//! An example, from `aa_lane_tests` (`answers_are_the_same_by_any_number_of_workers`):
//!
//! ```text
//! for workers in [1, 2, 4, 16] {
//!     for capacity in [1, 2, 1024] {
//!         let found = answered_by(&rt, rt.alloc(), 5, 1500, capacity, workers);
//!         equal(&rt, found, all_of(5, 7500));
//!     }
//! }
//! ```
#![tactic(auto)]

mod bell;
mod beside;
mod close;
mod crew;
mod engine;
mod feed;
mod feeding;
mod hand;
mod lane_server;
mod next;
mod pool;
mod serve;
mod serving;
mod sharing;
mod tasks;
mod watch;

pub use aa_lane::{Answered, Totals};
pub use aa_machine::Machine;
pub use bell::{Bell, Shift};
pub use close::Outcome;
pub use engine::{Engine, EngineFault, shut_all};
pub use serve::{PoolFault, PoolRefusal, serve_all, serve_with};
pub use tasks::{Refusal, Task, answer_all};
