//! The rules of policy files that are passed over and flags without effect, as they read: they decide nothing, but
//! somebody who compares two policies must see which of them one alone has.
//!
//! `rules_apart` takes the policies of two sides and gives, profile by profile where both sides have it, each such rule
//! or flag that stands in one of them alone, as an `Apart`: on which `Side` it stands, its text and its place. Texts
//! are compared as sets, so a rule that stands twice says no more than one. `listed_of` gives those of one profile in
//! the order in which they are read, and `number_named` finds a profile by its name. The meaning lies in the definition
//! `all_apart`. Where a rule stands is left to `aa_explain`, its words to `aa_rule_text`, and how a line reads to
//! `aa_diff`.
//!
//! Shown by tests/policy_files/a_diff_of_rules_that_are_passed_over.
#![tactic(auto)]

mod apart;
mod listed;

pub use apart::{Apart, Side, copy_of, number_named, rules_apart};
pub use listed::{ListedRule, listed_of};
