//! The rules of a profile that another one hasn't, by what they say: not by how they read, nor by where they stand. And
//! those of them that match a request and name some of what it asks for, and the profile that an execution finds by an
//! attachment that the other policy hasn't.
//!
//! A request that two policies answer differently is explained by the rules that only one of them has. `changed_rules`
//! takes a profile and another, and gives the numbers of such rules, list by list. `rules_on` takes these beside a
//! request, and keeps those that match it and name some of what it asks for. `attached_alone` gives the profile that an
//! execution finds by an attachment which the other policy hasn't. The meaning lies in `AreChanged`, by what rules say,
//! and in `rules_on` and `attached_alone`. Which requests are answered differently is left to `aa_differences`, where
//! rules stand to `aa_explain`; `aa_diff` calls each function both ways and prints what it gives.
//!
//! Shown by tests/policy_files/a_diff_by_the_places_of_rules.
#![tactic(auto)]

mod attachments;
mod changed;
mod codes;
mod forms;
mod laws;
mod matching;

pub use attachments::attached_alone;
pub use changed::{ChangedRules, changed_rules};
pub use laws::attachments_are_led_to;
pub use matching::rules_on;
