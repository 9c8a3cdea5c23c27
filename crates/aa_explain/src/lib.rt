//! Why a request is decided as it is: the rules that decide, where rules stand, and two rules that conflict with a
//! shortest text.
//!
//! `rule_places` takes the words of a policy, and gives for each profile, in the order in which the policy numbers
//! them, where its head and each of its rules stand. `deciders_of` takes a compiled policy, the number of a profile and
//! a request, and gives the rules that decide by their numbers, and what none allows; `target_deciders` does so for the
//! target of a link. `clash_of` takes file rules, and gives two of them that say differently how one text is executed,
//! with a shortest such text. The meaning lies in `ArePlaces`, `reasons_of` and `Conflict`. The answer itself is left
//! to `aa_mediate`, the text of a rule to `aa_rule_text`, and what is printed to `aa_ask` and `aa_diagnostics`.
//!
//! An example, from `aa_decision_tests` (`a_growth_refused_to_search_is_no_memory`):
//!
//! ```text
//! match conflict(rt.alloc(), "profile p { /* px, /l* ix, }", 100) {
//!     Ok(found) => {
//!         let clash = found.expect(&rt, "a conflict");
//!         equal(&rt, (clash.first, clash.second), (0, 1));
//!         return holds(&rt, clash.text.as_slice() == b"/l".as_slice());
//! ```
#![tactic(auto)]

mod deciders;
mod heads;
mod pairs;
mod places;
mod search;
mod told;
mod ways;

pub use deciders::{Decider, Deciders, Listed, deciders_of, target_deciders};
pub use places::{Extent, ProfilePlaces, rule_places};
pub use search::{Clash, clash_of};
pub use told::Saying;
