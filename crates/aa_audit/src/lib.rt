//! Writes audit lines, with the names and sets of permissions in them.
//!
//! `push_audit_line` takes compiled policies, the label of a task before a request, the request and its answer. Where
//! the answer has a note, it appends one line without its end, in the form of the kernel's log: what was decided on
//! which operation, the profile, and the keys of the request; a reload has no line. It says whether there is one.
//! `audit_line` gives the line by itself. The meaning lies in `line`. Answers are left to `aa_mediate`, how names,
//! quoted texts and masks are written to `aa_base`, and where lines stand in an output to `aa_engine`; that such a line
//! is read again as the request that it was written of is the law `own_lines_are_read` of `aa_round_trip_laws`.
//!
//! An example, from `aa_decision_tests` (`a_reload_has_no_line`):
//!
//! ```text
//! let rows: &[Row] = &[
//!     ("reload:1", None, Label::Confined(1, 0), ""),
//!     ("reload:1", Some((Audit, 0)), Label::Confined(1, 0), ""),
//!     ("reload:2", Some((Denied, 0)), FIRST, ""),
//!     ("reload:2", Some((Allowed, 0)), FIRST, ""),
//! ];
//! are_lines(&rt, "profile p { }¦profile p { }", rows);
//! ```
#![tactic(auto)]

mod audit;
mod keys;

pub use audit::{audit_line, push_audit_line};
