//! Questions in JSON: policy files in memory, and what `check`, `ask` and `diff` answer to them.
//!
//! Programs in other languages ask through `aa_library`, and no file is read. `check_question`, `ask_question` and
//! `diff_question` take the bytes of a question and give what the command prints with `--json`, or why the bytes are no
//! question. `read_question` and `read_diff_question` read the bytes; the files that they hold become `Texts`, which is
//! a `Tree` in memory; and `check_files`, `ask_files` or `diff_files` answers by that tree. The meaning lies in the
//! definitions `question_of`, `diff_question_of` and `IsAnswer`. What is answered is left to `aa_check`, `aa_ask` and
//! `aa_diff`, and how bytes are handed over to `aa_library`.
//!
//! Shown by tests/embedding.
#![tactic(auto)]

mod answering;
mod memory;
mod question;
mod reading;
mod values;

pub use answering::{ask_question, check_question, diff_question};
pub use memory::Texts;
pub use question::{
    AskedFiles, AskedManner, AskedPlaces, AskedSide, DiffQuestion, Member, Question, QuestionFault,
};
pub use reading::{read_diff_question, read_question};
