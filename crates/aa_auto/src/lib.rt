//! Deterministic automata that say which patterns match a text.
//!
//! `Automaton::build` takes patterns, and `Automaton::of` pointers to them, with a limit; by subset construction it
//! makes one table for all of them, or answers `TooManyStates` where they need more rows. `Automaton::place` walks a
//! text once, a step for each byte, to its row. `Automaton::at_row` gives the numbers of the patterns that match there,
//! and `Automaton::matching` does both. Rows with equal lists share one (`Automaton::list_of`), so a caller keeps once
//! what it makes of a list. `Automaton::beside` and `Automaton::narrowed` make an automaton of two that are there. The
//! meaning lies in `IsAutomaton`: each text leads to the row of its places, which lists the patterns that match it.
//! What a pattern matches is left to `aa_pattern`, what rules say at a row to `aa_compile`, and which texts lead to it
//! to `aa_regions`.
//!
//! An example, from `aa_decision_tests` (`a_growth_refused_to_build_is_no_memory`):
//!
//! ```text
//! match automaton(&rt, "/a* /ab /** /{a,b*,}.", 100) {
//!     Ok(automaton) => {
//!         equal(&rt, automaton.matching(b"/ab"), [0, 1, 2].as_slice());
//!         equal(&rt, automaton.matching(b"/a"), [0, 2].as_slice());
//!         equal(&rt, automaton.matching(b"/a."), [0, 2, 3].as_slice());
//!         equal(&rt, automaton.matching(b"/."), [2, 3].as_slice());
//!         equal(&rt, automaton.matching(b"/b/."), [2].as_slice());
//!         equal(&rt, automaton.matching(b"/").len(), 0);
//! ```
#![tactic(auto)]

mod automaton;
mod beside;
mod build;
mod classes;
mod closing;
mod finals;
mod joining;
mod jumps;
mod keys;
mod lists;
mod merging;
mod moves;
mod net;
mod nodes;
mod noted;
mod numbers;
mod pairs;
mod positions;
mod sets;
mod sorted;

pub use automaton::Automaton;
pub use build::BuildFault;
