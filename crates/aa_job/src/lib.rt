//! The job that `job` makes of policy files and the tasks of logs.
//!
//! `job_files` takes settings, `JobOptions` and where logs lie, and gives what is printed: the job that `aamediate`
//! reads. The files are found and read by `rooted` and `load_units` of `aa_command`, and each is a policy of its own.
//! `shared_sources` joins what they include, and refuses a name that stands for two things; `JobTasks` takes the lines
//! of logs and keeps the tasks whose profile a policy has; and `push_job` appends the job. The meaning lies in the
//! definitions `AreShared`, `IsJobWritten` and `IsJobOutput`. Compiling is left to `aa_load`, what lines ask to
//! `aa_messages` and `aa_logs`, and the text of a job to `aa_notation`; that such a job reads back is a law of
//! `aa_round_trip_laws`.
//!
//! Shown by tests/policy_files/a_job_of_a_log_across_files.
#![tactic(auto)]

mod command;
mod job;
mod policies;
mod shared;

pub use command::{JobOptions, job_files};
pub use job::{JobFault, JobTasks, push_job};
pub use shared::shared_sources;
