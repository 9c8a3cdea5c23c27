//! Requests that two lists of policies answer differently, at labels that are called the same.
//!
//! `policy_differences` takes two lists of compiled policies, the old and the new, and a limit. It gives a
//! `Comparison`: each `Difference` is a request with both labels and both answers, and each other request that differs
//! has the answers of one of its kind among them; labels whose patterns need more states than the limit are `untold`.
//! `label_differences` compares at two labels alone. Where profiles weren't read, `label_is_open` says whether they
//! could change an answer at a label. The meaning lies in `IsDifference` and `ListAllBut`; the law
//! `same_policies_run_alike` says that policies without a difference answer every list of requests alike. Which
//! requests are tried is left to `aa_representatives`, answers to `aa_mediate`, the rules that account for a difference
//! to `aa_changed_rules`, and what is printed to `aa_diff`.
//!
//! An example, from `aa_decision_tests` (`what_another_label_is_asked_is_not_listed_at_this_one`):
//!
//! ```text
//! let old = "profile p { } profile q { capability kill, }";
//! let new = "profile p { } profile q { }";
//! let found = compared(&rt, old, new, 4096).expect(&rt, "differences");
//! equal(&rt, found.differences.len(), 1);
//! for difference in found.differences.as_slice() {
//!     let found = (difference.from, difference.to);
//!     equal(&rt, found, (Label::Confined(0, 1), Label::Confined(0, 1)));
//!     holds(&rt, matches!(&difference.request, Request::Cap(_)));
//! ```
#![tactic(auto)]

mod answers;
mod at_labels;
mod comparison;
mod differences;
mod labels;
mod laws;
mod openings;
mod patterns;
mod sameness;

pub use at_labels::{Difference, label_differences};
pub use comparison::{Comparison, Excess, UntoldLabels};
pub use differences::policy_differences;
pub use laws::{same_bodies_reply_alike, same_policies_run_alike};
pub use openings::{change_is_open, closed_labels_are_decided, label_is_open, rule_is_open};
