//! Tests of what decides, from outside: automata, compiled policies, and the mediator; beside the rules said one by
//! one, slow and the companion of what is compiled from them.
//!
//! A test spells policies as texts and requests as words: `policies_in` compiles the texts, `request` reads a word,
//! `step` answers a task of a label, and `answered` tells the answer in words, all in the module `texts`. Each module
//! of tests is named after what it asks, as `automaton_tests`, `region_tests` and `reachability_tests` are.
//! `verdict_by_rules` is the one public call: it asks each pattern of a profile's file rules in turn, and its contract
//! says the same as that of the compiled tables (definition `file_verdict`), so that both can be compared. What tasks
//! are answered in whole jobs is left to `aa_engine_tests` and to stored jobs in `tests/jobs`.
//!
//! An example, from `aa_decision_tests` (`rows_say_what_the_rules_say`):
//!
//! ```text
//! let compiled = compiled(rt.alloc(), text, 4096).expect(&rt, text);
//! for path in PATHS.split(' ') {
//!     for owned in [false, true] {
//!         let profiles = compiled.policy().profiles.as_slice();
//!         let profile = profiles.first().expect(&rt, "a profile");
//!         let said = verdict_by_rules(profile.files.as_slice(), path.as_bytes(), owned);
//!         equal_in(&rt, sets(&compiled, 0, path, owned), Some(said), path);
//!     }
//! }
//! ```
#![tactic(auto)]

#[cfg(test)]
mod automaton_tests;
#[cfg(test)]
mod comparing;
#[cfg(test)]
mod difference_tests;
#[cfg(test)]
mod join_tests;
#[cfg(test)]
mod label_tests;
#[cfg(test)]
mod line_tests;
#[cfg(test)]
mod list_tests;
mod plain;
#[cfg(test)]
mod policy_tests;
#[cfg(test)]
mod quantity_tests;
#[cfg(test)]
mod reachability_tests;
#[cfg(test)]
mod redundancy_tests;
#[cfg(test)]
mod region_tests;
#[cfg(test)]
mod representative_tests;
#[cfg(test)]
mod skipping_tests;
#[cfg(test)]
mod texts;
#[cfg(test)]
mod unclean_path_tests;

pub use plain::verdict_by_rules;
