//! Reports, line by line: as Markdown, in which no text leaves its place, and without findings that are accepted.
//!
//! A report is text: findings, which stand below the heading of what they are about or each by itself. `entries_in`
//! reads the findings of a stored report that has such headings, and `lines_in` those of one without. `lines_as_set`
//! makes them a set in which `is_among` looks a finding up, so that one that stands there is left out, and
//! `push_all_gone` appends which of the stored ones aren't found any more. `push_markdown` appends a report as
//! Markdown, each text of it in a code span that the text can't end (the law `spans_end_at_fences`). The meaning lies
//! in the definitions `entries_in`, `is_among`, `all_gone` and `markdown_of`. What a finding is and how its line reads
//! is left to `aa_diff`, `aa_lint` and `aa_redundant`.
//!
//! Shown by tests/policy_files/differences_that_are_accepted_as_markdown.
#![tactic(auto)]

mod accepted;
mod entries;
mod laws;
mod lines;
mod markdown;
mod sets;
mod spans;

pub use accepted::push_all_gone;
pub use entries::{entries_in, holds};
pub use laws::spans_end_at_fences;
pub use lines::{after_digits, lines_in, slices_of};
pub use markdown::push_markdown;
pub use sets::{is_among, lines_as_set};
