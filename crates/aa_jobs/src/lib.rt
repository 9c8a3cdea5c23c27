//! Reads jobs.
//!
//! A job is a text of JSON with the texts of policies, what they may include, tasks with what each asks, and events.
//! `read_job` takes its bytes, and gives a `Job`, or the first `JobFault` in a fixed order: too many bytes, no JSON,
//! another shape, over a limit, a request that can't be made. It goes over the tokens once, and items become requests
//! as they are read. The meaning lies in `job_of`, from bytes to the job or its fault. What JSON is comes from the
//! kit's crates `json` and `serde_json`, what a request may be from `aa_model`; texts of policies are left to
//! `aa_policies`, and labels to `aa_engine`.
//!
//! An example, from `aa_engine_tests` (`jobs_are_read`):
//!
//! ```text
//!     (
//!         r#"{"policies":["a"],"tasks":[]}"#,
//!         "several|policy a|states 4096 capacity 1",
//!     ),
//!     (
//!         r#"{"policy":"a","tasks":[]}"#,
//!         "one|policy a|states 4096 capacity 1",
//!     ),
//! ];
//! for (text, wanted) in JOBS {
//!     let job = read_job(rt.alloc(), text.as_bytes()).expect(&rt, text);
//!     equal(&rt, told(&rt, &job).as_str(), *wanted);
//! ```
#![tactic(auto)]

mod job;
mod job_fault;
mod keyed;
mod limits;
mod meaning;
mod raw;
mod reading;
mod shape;
mod stream;
mod tree;

pub use aa_words::Include;
pub use job::{Event, EventName, Job, Task, Work};
pub use job_fault::JobFault;
pub use reading::read_job;
