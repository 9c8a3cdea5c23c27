//! What `ask` answers where files are skipped: verdicts, and which requests their profiles leave undecided.
//!
//! `ask_skipping` takes what `ask_files` of `aa_ask` takes, and asks the policy that `with_read_policy` of `aa_skipped`
//! makes of the files that aren't refused. Each request is `Answered` by the verdict of that policy where
//! `files_deciding` finds no skipped file that could change it; else it is a `Doubt` with these files, and so is each
//! request behind it where all are one task's. The meaning lies in the definitions `answers` and `files_deciding`, and
//! the law `answers_are_sound` says that a verdict stands whatever profiles the skipped files have below their heads.
//! Which answers a profile could change is left to `aa_skipping`. Other commands take from here how such files are told
//! (`all_placed`, `push_undecided`, `push_files_member`), and which may hold the profile of a name
//! (`files_holding_in`).
//!
//! Shown by tests/policy_files/ask_is_undecided_behind_a_skipped_move.
#![tactic(auto)]

mod answered;
mod asking;
mod command;
mod deciding;
mod jsons;
mod laws;
mod named;
mod opening;
mod shown;

pub use answered::{Answered, Doubt, SkippedAt};
pub use command::ask_skipping;
pub use deciding::{all_placed, files_deciding, push_if};
pub use jsons::push_files_member;
pub use laws::answers_are_sound;
pub use named::{files_holding_in, may_hold};
pub use opening::{holders, one_may_hold};
pub use shown::{push_reason, push_refused_at, push_undecided};
