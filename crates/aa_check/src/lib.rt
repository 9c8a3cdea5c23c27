//! What `check` finds of the files of a policy, each by itself, and how that is printed.
//!
//! `check_files` takes settings and `CheckOptions` and gives what is printed. Below it `check` reads and compiles each
//! file and gives a `CheckReport`: of each file its profiles with what is counted of them, or its faults and how many
//! profiles it seems to hold. `push_report` and `push_faults` print it for people; `push_json_report`,
//! `push_gcc_report` and `push_sarif_report` print the other forms that `Form` names. The meaning lies in the
//! definitions `IsChecked` and `IsCheckOutput`. A file's policy is left to `aa_load`, the report on its first fault to
//! `aa_diagnostics`, those behind it to `aa_faults`, and what its heads tell to `aa_skipped`. Other commands write
//! their SARIF logs with `push_sarif_head`, `push_rule_members` and `push_run`.
//!
//! An example, from `aapolicy_tests` (`that_something_cannot_be_read_is_told_before_that_a_policy_is_refused`):
//!
//! ```text
//! let rows = "/m=include <a>\n§/n=include <c>\n";
//! let tree = tree_beside(&rt, rows, "/i/a", Unread::NotAFile);
//! equal(&rt, prints(&rt, &tree, "/m /n", SAID), true);
//! ```
#![tactic(auto)]

mod checked;
mod checking;
mod command;
mod counting;
mod form;
mod gcc;
mod jsons;
mod lines;
mod naming;
mod report;
mod sarif;

pub use checked::{push_faults, push_report};
pub use checking::check;
pub use command::{CheckOptions, check_files};
pub use form::Form;
pub use gcc::push_gcc_report;
pub use jsons::push_json_report;
pub use report::{CheckReport, FileReport, Passed, ProfileReport};
pub use sarif::{
    Invocations, Level, Location, Message, Notification, Related, push_rule_members, push_run,
    push_sarif_head, push_sarif_report,
};
