//! Tests of whole jobs: what each command answers, and readers and writers that fail.
//!
//! A job is given as bytes: `gives` has `check_job`, `run_job` or `replay_job` of `aa_engine` read it and compares what
//! is written, or the fault and that nothing is written. `a_job` and `compiled` go by `read_job` and
//! `compile_policies`, and `answers` by `mediate` or `mediate_lent`, with any number of workers. `stream_tests` has
//! readers and writers that fail at each place, `limit_tests` as many tasks, requests and events as there may be,
//! `gate_tests` two tasks that wait for each other, and `lane_tests` a lane over a policy. Expected lines are written
//! out beside the jobs. What a single request is answered is left to `aa_decision_tests`, and further whole jobs to
//! stored ones in `tests/jobs`.
//!
//! An example, from `aa_engine_tests` (`tasks_move_whatever_the_capacity`):
//!
//! ```text
//! let mut job = Vec::from_slice(rt.alloc(), front).expect(&rt, "memory");
//! job.extend_from_slice(rest.as_bytes()).expect(&rt, "memory");
//! for workers in [1, 2, 16] {
//!     gives(&rt, Command::Run(workers), job.as_slice(), Ok(MOVED));
//! }
//! ```
#![tactic(auto)]

#[cfg(test)]
mod comparing;
#[cfg(test)]
mod front_tests;
#[cfg(test)]
mod gate_tests;
#[cfg(test)]
mod growth_tests;
#[cfg(test)]
mod jobs;
#[cfg(test)]
mod lane_tests;
#[cfg(test)]
mod limit_tests;
#[cfg(test)]
mod mediate_tests;
#[cfg(test)]
mod reading_tests;
#[cfg(test)]
mod stream_tests;
