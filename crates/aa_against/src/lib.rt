//! What `log --against` answers where files are skipped: the requests that are decided as without them, and those that
//! they could decide otherwise.
//!
//! `log_skipping` takes what `log_files` of `aa_log` takes. It reads the logs by `read_reports`, gets the policy that
//! `with_read_policy` of `aa_skipped` makes of the files that aren't refused, and parts the requests: those that no
//! skipped file could decide are printed as `log --against` prints them, and the others follow as undecided, each with
//! the files that could decide it. The meaning lies in the definitions `decided_among`, `open_among` and `IsPartLog`,
//! and the law `replays_are_sound` says that an answer which is given stands whatever profiles the skipped files have
//! below their heads. Which files could decide is left to `aa_undecided`, and how a request and its reasons read to
//! `aa_log`.
//!
//! Shown by tests/policy_files/a_log_against_files_that_are_skipped.
#![tactic(auto)]

mod command;
mod jsons;
mod laws;
mod parting;
mod printing;

pub use command::log_skipping;
pub use laws::replays_are_sound;
