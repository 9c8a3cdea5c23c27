//! The messages that lines of logs carry: what the journal prints as JSON and what syslog repeats, and which lines
//! aren't understood.
//!
//! A line of a log may hold the kernel's message in a form of the program that wrote the log. `said_in` takes a line
//! and gives the message with how often the line says it: `message_in` takes it out of an object that the journal
//! prints as JSON, and `repeated_in` out of what syslog writes in place of equal messages one after another.
//! `is_unclear_as` takes what `line_of` of `aa_logs` makes of the message, and tells whether it isn't understood: one
//! that isn't the access control's, but may hide one that is; `is_unclear` tells the same of a line alone. The meaning
//! lies in the definitions `said_in` and `is_unclear`. What a message asks is left to `aa_logs`, and counting to
//! `aa_log` and `aa_job`.
//!
//! Shown by tests/policy_files/a_job_of_messages.
#![tactic(auto)]

mod journal;
mod part;
mod repeated;
mod said;
mod unclear;

pub use journal::message_in;
pub use repeated::{Repeated, repeated_in};
pub use said::{Said, said_in};
pub use unclear::{is_unclear, is_unclear_as};
