//! What the lines of a log ask: their fields, the requests that these are, the lines one after another, and what is
//! counted of them.
//!
//! `read_log` hands the lines of a log one by one to something that takes `Lines`, so that no log need lie in memory as
//! a whole. `is_chosen` tells whether a line is of the profiles and of the time that are wanted, and `line_of` what it
//! is: a `Record` with the request, who asked it and what became of it, a line that asks nothing, with the reason, or
//! one that isn't the access control's. Below that `read_line` gives a line's words, `last_of` the field of a key and
//! `name_of` the name that it stands for. `take_record` puts a record to the tasks of a job; `answered`, `is_change`
//! and `Counts` set what became of requests beside what they are answered now. The meaning lies in the definitions
//! `line_in` and `log_lines`. Messages that other programs wrap are left to `aa_messages`, and what is printed to
//! `aa_log`.
//!
//! An example, from `aapolicy_tests` (`a_growth_refused_to_a_line_is_no_memory`):
//!
//! ```text
//! let line: &[u8] =
//!     b"apparmor=\"DENIED\" operation=\"link\" profile=70 name=2F61 target=\"/b\" pid=1";
//! if let Ok(found) = line_of(rt.alloc(), line) {
//!     let then = match &found {
//!         Line::Asks(record) => Some(record.then),
//!         Line::Other | Line::Skipped(_) => None,
//!     };
//!     equal(&rt, then == Some(Then::Denied), true);
//! }
//! ```
#![tactic(auto)]

mod answer;
mod asked;
mod chosen;
mod counts;
mod field;
mod key;
mod keyed;
mod line;
mod lines;
mod mask;
mod piece;
mod reading;
mod reason;
mod task;
mod value;
mod word;

pub use answer::{Now, answered, is_change, is_newly_denied, now_name, then_name};
pub use chosen::{Choice, is_chosen};
pub use counts::Counts;
pub use line::{Line, Reason, Record, Then, line_of};
pub use lines::{Lines, read_log};
pub use reading::{last_of, read_line};
pub use reason::named;
pub use task::{LogTask, take_record};
pub use value::name_of;
pub use word::{Form, LogWord};
