//! What `log` finds: the requests of logs with how often each comes, what a policy answers them, and how that is
//! printed.
//!
//! `log_files` takes settings, `LogOptions` and where logs lie, and gives what is printed. `read_reports` reads the
//! logs into a `SaidReport`, in which equal requests are one `Entry` with how often and where first it comes;
//! `report_printed` prints it. Where files are to answer that now, `push_against` or `push_json_against` prints which
//! requests their policy answers otherwise than then, with the rules, and counts all. The meaning lies in the
//! definitions `IsFoundIn` and `IsLogOutput`; the law `requests_tell` says that two requests are counted together only
//! where they are one. What a line asks is left to `aa_logs` and `aa_messages`, the verdict to `aa_ask`, reports of
//! parts to `aa_merge`, and skipped files to `aa_against`.
//!
//! Shown by tests/policy_files/a_log_against_a_changed_policy.
#![tactic(auto)]

mod against;
mod command;
mod laws;
mod listed;
mod logging;
mod printing;
mod refused;
mod said;
mod warned;

pub use against::{
    push_against, push_all_shown, push_counts, push_json_against, push_json_answers,
};
pub use command::{LogOptions, log_files, read_reports, report_printed, status_or};
pub use laws::{keys_tell, lines_are_merged, lines_ask_so, requests_tell};
pub use listed::{push_entry_members, push_json_report, push_json_rest, push_word_member};
pub use logging::{Entry, LinePlace, LogReport, SkippedLines};
pub use printing::{push_entry, push_line_place, push_report, push_rest, push_skipped_lines};
pub use refused::log_refused;
pub use said::SaidReport;
pub use warned::push_unclear;
