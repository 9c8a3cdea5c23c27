//! What `lint` finds: what the policy of files allows and is seldom meant, each with its place, its rule and why.
//!
//! `lint_files` takes settings and `LintOptions`, with the names of findings that are left out and a file of those that
//! are accepted, and gives what is printed. `findings_of` of `aa_findings` finds what is seldom meant of each profile;
//! here each finding gets the place and the text of its rule and a sentence, those that are left out or accepted go,
//! and the rest is printed in one of the forms that `Form` of `aa_check` names. A profile of which nothing can be found
//! is named with the reason. The meaning lies in the definitions `AreTold` and `IsLintOutput`. Which rules are found is
//! left to `aa_findings`, the text of a rule to `aa_rule_text`, lines that are accepted to `aa_report`, and the policy
//! of files to `aa_command` and `aa_skipped`.
//!
//! Shown by tests/policy_files/what_is_seldom_meant.
#![tactic(auto)]

mod command;
mod finding_names;
mod forms;
mod gathering;
mod jsons;
mod known;
mod sarif;
mod shown;
mod telling;
mod told;
mod untold;

pub use command::{LintOptions, lint_files};
