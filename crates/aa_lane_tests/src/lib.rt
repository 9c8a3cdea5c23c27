//! Tests of lanes, of the pool, and of tasks that are fed through them.
//!
//! Three modules follow the crates from below: `lane` has running lanes beside their worlds, on one thread and on
//! several, `pool` lanes that many workers serve, `feed` tasks that `answer_all` of `aa_pool` answers. The machine of
//! most tests is `Sum`, which adds numbers modulo 1,000, so each answer is known from its place alone (`sum_up_to`);
//! `Pairs` is one whose requests wait for each other, and shows that two workers are at work at once. A test counts
//! what was accepted, answered and collected, since the order between threads is free. Lanes over policies are left to
//! `aa_engine_tests`, and races to ThreadSanitizer in the gate.
//!
//! An example, from `aa_lane_tests` (`answers_are_the_same_by_any_number_of_workers`):
//!
//! ```text
//! for workers in [1, 2, 4, 16] {
//!     for capacity in [1, 2, 1024] {
//!         let found = answered_by(&rt, rt.alloc(), 5, 1500, capacity, workers);
//!         equal(&rt, found, all_of(5, 7500));
//!     }
//! }
//! ```
#![tactic(auto)]

#[cfg(test)]
mod comparing;
#[cfg(test)]
mod feed;
#[cfg(test)]
mod feeding;
#[cfg(test)]
mod lane;
#[cfg(test)]
mod pairs;
#[cfg(test)]
mod pool;
#[cfg(test)]
mod sum;
