//! What the contracts of the language's crates leave to tests: words and their places, worked policies as they are
//! read, tables of names, patterns and variables at their limits, and growths that are refused.
//!
//! A test goes the way of a text: `word_tests` from bytes to `words`, `pattern_tests` to `read_pattern` and `expand`,
//! `policy_tests` to `parse`, each against rows of what is expected. `hand_tests` has words that no text gives, and
//! policies that are cut short or changed in one byte; `table_tests` names with their numbers, `place_tests` lines and
//! columns, `tree_tests` names of files and includes, `limit_tests` the largest texts. `growth_tests` passes whichever
//! allocation fails, for it asks again. The helpers in `texts` and `comparing` have no clauses, so that proofs of tests
//! stay short. What other texts are read or refused as is left to stored cases in `tests/language`.
//!
//! An example, from `aa_language_tests` (`each_byte_of_a_policy_may_be_another`):
//!
//! ```text
//! let text =
//!     "@{A}=b\nprofile p /a { owner /x{a,b} Px -> q, network tcp, profile c { } }".as_bytes();
//! for n in 0..text.len() {
//!     for other in [0, b'{', b'}', b'"', b',', b'/', b'@', b'\\', b'(', 255] {
//!         if let Ok(mut changed) = Vec::from_slice(rt.alloc(), text) {
//!             changed[n] = other;
//!             assert!(rt; is_read_or_refused(&rt, changed.as_slice()), "at {n}");
//!         }
//!     }
//! }
//! ```
#![tactic(auto)]

#[cfg(test)]
mod comparing;
#[cfg(test)]
mod growth_tests;
#[cfg(test)]
mod hand_tests;
#[cfg(test)]
mod limit_tests;
#[cfg(test)]
mod pattern_tests;
#[cfg(test)]
mod place_tests;
#[cfg(test)]
mod policy_tests;
#[cfg(test)]
mod table_tests;
#[cfg(test)]
mod texts;
#[cfg(test)]
mod tree_tests;
#[cfg(test)]
mod word_tests;
