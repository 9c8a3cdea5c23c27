//! What `redundant` prints: the rules of a policy of files without which every reply is as it is, each once where it
//! stands, and those that can go together.
//!
//! `redundant_files` takes settings and `RedundantOptions`, with a file of rules that are accepted, and gives what is
//! printed. The places of rules are numbered, so that a rule of an included file, which several profiles have, is one;
//! `redundant_places` of `aa_redundancy` finds which of them can go and which rules are why; and each is printed with
//! its place, its text and that reason, in one of the forms that `Form` of `aa_check` names. The meaning lies in the
//! definitions `AnswersStay` and `IsRedundantOutput`; the law `redundant_rules_are_sound` says that they can go also
//! where files are skipped. Whether a rule is redundant is left to `aa_redundancy`, lines that are accepted to
//! `aa_report`, and the policy of files to `aa_command` and `aa_skipped`.
//!
//! Shown by tests/policy_files/rules_that_are_redundant.
#![tactic(auto)]

mod accepted;
mod command;
mod explained;
mod forms;
mod json;
mod known;
mod laws;
mod leading;
mod numbers;
mod places;
mod sarif;
mod shown;
mod told;
mod untold;

pub use command::{RedundantOptions, redundant_files};
pub use laws::redundant_rules_are_sound;
