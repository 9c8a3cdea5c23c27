//! Laws alone: what is written of jobs, of requests and of answers is read as just that.
//!
//! A law is a function that does nothing: its contract holds a text that one crate writes against what another reads.
//! `requests_are_read` speaks of a request as an item of a task, `jobs_are_read` of a whole job as `aa_notation` writes
//! it and `aa_jobs` reads it (definition `JobsAreRead`), `printed_jobs_are_read` and `log_jobs_are_read` of what
//! `push_job` of `aa_job` writes of files and logs; that the requests of logs can be made at all is
//! `logs_ask_what_can_be_made`. By `own_lines_are_read` the audit line of an answer, as `aa_audit` writes it, is read
//! by `aa_logs` as that request, but for whose the file is (`OwnLinesAreRead`). No other crate calls these functions;
//! writing and reading stay in the crates that are named here.
//!
//! Shown by tests/alike.
#![tactic(auto)]

mod job_laws;
mod line_laws;
mod log_laws;

pub use job_laws::{jobs_are_read, requests_are_read};
pub use line_laws::own_lines_are_read;
pub use log_laws::{log_jobs_are_read, logs_ask_what_can_be_made, printed_jobs_are_read};
