//! The text of a rule and of a head, as it is shown: found by the words of the language, wherever its lines end.
//!
//! A report that names a rule by its place shows the rule itself beside it. Given are a text and the byte that is the
//! place of a rule: `rule_text` gives the rule from its first word to its comma, and `head_text` the head of a profile
//! up to a second byte, both with one space where white space and comments stand between words, and at most 120 bytes
//! long, cut by `shortened` at a whole character. `words_text` gives all words between two bytes, however long they
//! are. The meaning lies in the definitions `rule_text`, `head_text` and `words_text`. How long a word is and what
//! white space is tells `aa_words`; at which byte a rule stands is left to `aa_explain`, and how the text is printed to
//! `aa_text`.
//!
//! Shown by tests/policy_files/how_rules_are_shown.
#![tactic(auto)]

mod ruled;
mod short;

pub use ruled::{head_text, rule_text, words_text};
pub use short::shortened;
