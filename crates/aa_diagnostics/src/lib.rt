//! What is said of a fault of policy files: where it lies, why, on which way that place is reached, and what else
//! helps.
//!
//! A compiler's fault is a kind and a spot (`PolicyFault`); people need the file, the line with a caret, a sentence and
//! what to look at next. `fault_of_unit` takes why a unit can't be read, `describe` the fault of one that has no
//! policy, `describe_repeated` and `describe_together` what is wrong with several units, and `unreadable` a path; each
//! gives a `FaultReport`. `has_place` tells whether a fault lies at a place that can be shown, and `earlier_profile`
//! and `earlier_variable` find what a repeated name repeats. The meaning lies in the definition `IsDescribed`, whose
//! sentences are those of `specs/Sentences.antt`. Reading files is left to `aa_files`, finding the fault to `aa_load`,
//! the two rules of a conflict to `aa_explain`, and how a report is printed to `aa_text`.
//!
//! Shown by tests/policy_files/a_fault_in_an_included_file.
#![tactic(auto)]

mod conflict;
mod described;
mod further;
mod left_out;
mod limits;
mod names;
mod profiles;
mod sentence;
mod unit_faults;
mod variables;

pub use described::{describe, describe_repeated, describe_together, has_place, unreadable};
pub use profiles::earlier_profile;
pub use unit_faults::fault_of_unit;
pub use variables::earlier_variable;
