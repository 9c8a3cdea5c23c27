//! What a policy allows and is seldom meant: each finding a predicate over the rules of a profile and the files that
//! they speak of.
//!
//! `attached_of` takes compiled policies and a limit, and gives once for all profiles the paths at which attachments
//! tie. `findings_of` takes it beside the number of a profile, and gives a list of `Finding`: its `Kind` (a rule that
//! lets a program run unconfined, one that repeats an earlier one, and so on), the rule or attachment, and a shortest
//! path at which it shows. The meaning lies in `AreFindingsAt`, which is told by predicates such as
//! `is_unconfined_exec` and `is_idle` over finitely many rows; the laws `rows_tell_of_files` and `regions_tell_of_ties`
//! say that these stand for all files that can be asked for. Regions are left to `aa_regions`, the places of rules and
//! what is printed to `aa_lint`.
//!
//! Shown by tests/policy_files/what_is_seldom_meant.
#![tactic(auto)]

mod applied;
mod attached;
mod below;
mod exec;
mod fault;
mod files;
mod finding;
mod found;
mod gathering;
mod index;
mod keys;
mod laws;
mod patterns;
mod rows;
mod sameness;
mod shortest;
mod sorts;
mod ties;

pub use below::{Attached, attached_of};
pub use fault::FindingsFault;
pub use finding::{Finding, Kind, Subject};
pub use found::findings_of;
pub use laws::{regions_tell_of_ties, rows_tell_of_files};
pub use rows::Row;
