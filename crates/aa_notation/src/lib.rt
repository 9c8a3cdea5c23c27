//! How requests and jobs are written: a request in one word and read again, a job as JSON.
//!
//! `read_word` takes a word as it stands on a command line, as `r:/etc/passwd` or `cap:kill`, and gives the request
//! that it is; where it is none, `word_refusal` says why and which may have been meant. `push_word` appends a request
//! as a word that is read as that request again (the law `words_are_read`). For a job, `is_policy_count` and
//! `is_job_text` tell whether one can hold these policies and tasks, `policy_of` which policy has a task's profile, and
//! `left_out` how many requests it can't hold; `push_job_text` appends the job. The meaning lies in the definitions
//! `request_in`, `word_text` and `job_text`. Reading jobs is left to `aa_jobs`, and the law that a printed job reads
//! back to `aa_round_trip_laws`.
//!
//! An example, from `aapolicy_tests` (`a_request_is_written_as_it_is_read_whichever_growth_is_refused`):
//!
//! ```text
//! for word in WORDS.split(' ') {
//!     match again(rt.alloc(), word) {
//!         Ok(written) => equal_in(&rt, written.as_slice(), word.as_bytes(), word),
//!         Err(fault) => equal_in(&rt, fault == WordFault::NoMemory, true, word),
//!     }
//! }
//! ```
#![tactic(auto)]

mod digits;
mod job;
mod kinds;
mod laws;
mod named;
mod read;
mod refused;
mod request;
mod split;
mod write;

pub use job::{
    Include, JobPolicy, is_job_text, is_policy_count, left_out, policy_of, push_job_text,
};
pub use kinds::{push_word, read_word, word_of};
pub use laws::words_are_read;
pub use read::WordFault;
pub use refused::word_refusal;
