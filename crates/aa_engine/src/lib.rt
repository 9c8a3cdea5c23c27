//! Answers jobs: a job's bytes in, lines out.
//!
//! `run_job`, `check_job` and `replay_job` take a reader and a writer, `run_bytes`, `check_bytes` and `replay_bytes`
//! the bytes of a job; they write or give the text of their command, or a `RunFault`. A job goes through `read_job` of
//! `aa_jobs` and `compile_policies` of `aa_policies`; for `run_job`, `mediate_lent` has its tasks answered through
//! `answer_all` of `aa_pool`, and `run_output` makes their lines. Who has a job and a machine of its own calls
//! `mediate`. The meaning lies in `IsRunOutput`, `IsCheckOutput` and `IsReplayOutput`, from a job's bytes to the text,
//! and in `IsExplained` for faults. Answers are left to `aa_mediate`, audit lines to `aa_audit`, and the command line
//! to `aamediate`.
//!
//! An example, from `aa_engine_tests` (`a_reader_may_give_bytes_one_by_one`):
//!
//! ```text
//! for (command, text) in COMMANDS {
//!     let reader = giving(FIRST_JOB, 0, FIRST_JOB.len() + 1);
//!     gives(&rt, command, reader, Ok(text));
//! }
//! ```
#![tactic(auto)]

mod deciding;
mod engine;
mod fault;
mod in_memory;
mod in_turn;
mod laws;
mod lending;
mod output;
mod replay;
mod stream;
mod tasks;
mod texts;

pub use aa_lane::Answered;
pub use deciding::mediate;
pub use engine::{check_job, replay_job, run_job};
pub use fault::RunFault;
pub use in_memory::{check_bytes, replay_bytes, run_bytes};
pub use laws::{
    same_policies_check_alike, same_policies_replay_alike, same_policies_reply_alike,
    same_policies_run_alike, words_decide_texts,
};
pub use lending::{Lent, LentRequest, mediate_lent};
pub use output::check_output;
pub use replay::replay_output;
pub use tasks::{MediateFault, unknown_task};
pub use texts::run_output;
