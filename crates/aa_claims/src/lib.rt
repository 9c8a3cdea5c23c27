//! Claims on what policies allow, as they are written: one a line, in words, and what is wrong with one that is none.
//!
//! `read_claims` takes the text of a file and gives its claims in order, each a `ClaimLine` with a `ClaimWord` for each
//! of its words; else the first thing that is wrong, at its byte, of which `claim_report` makes a report with the line
//! and a caret. `is_reach` tells whether a claim is one on labels that tasks never get to, `names_within` whom it is
//! about, `names_led` to which labels nothing leads, and `names_behind` and `keyword_of` find the clause of any
//! keyword. The meaning lies in the definitions `AreClaims` and `SaysFault`. Here a word is no more than its text: what
//! it asks, whom a name names and whether a claim holds is left to `aa_assert`.
//!
//! Shown by tests/policy_files/claims_with_an_open_quote.
#![tactic(auto)]

mod fault;
mod forms;
mod lines;
mod report;
mod words;

pub use fault::{ClaimFault, Wrong};
pub use forms::{is_reach, is_word, keyword_of, names_behind, names_led, names_within};
pub use lines::{ClaimLine, read_claims};
pub use report::claim_report;
pub use words::ClaimWord;
