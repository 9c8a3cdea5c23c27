//! Reads the rules of a body, each by itself.
//!
//! `rule_of` takes the words of a policy, a place among them and the place behind the text. It gives a `RuleTree` and
//! the place behind the rule's comma (definition `IsRule`), or a `PolicyFault` where reading can't go on (`RuleFails`).
//! The tree says what is written: a rule on files, capabilities, sockets or changes of profile with its qualifiers, or
//! the keyword of one that is passed over; paths and names in it are slices of the text. What reads heads and
//! assignments looks at words by `word_of_kind`, `keyword_stands`, `path_at` and `profile_name_at`, and refuses them by
//! `fault` and `item_fault`. Where a body begins and ends, and what its rules mean, is left to `aa_policy`; words to
//! `aa_words`.
//!
//! An example, from `aa_language_tests` (`an_empty_mode_grants_nothing`):
//!
//! ```text
//! let words = [
//!     word(WordKind::Name, b"allow", 0),
//!     word(WordKind::Path, b"/x", 1),
//!     word(WordKind::Name, b"", 2),
//!     word(WordKind::Comma, b",", 3),
//! ];
//! let found = granted_by_nothing(&words, Spot { file: 0, byte: 4 });
//! equal(&rt, found, Some(0));
//! ```
#![tactic(auto)]

mod cap_rules;
mod change_rules;
mod faults;
mod file_rules;
mod lookahead;
mod modes;
mod names;
mod net_rules;
mod rules;
mod tree;

pub use aa_model::{CapRule, ExecKind, Fallback, NetRule};
pub use faults::item_fault;
pub use lookahead::{
    closes, fault, keyword_stands, path_at, profile_name_at, spot_of, word_of_kind,
};
pub use modes::ExecMode;
pub use names::{begins_with, is_plain_name, is_right_name, name_fault};
pub use rules::rule_of;
pub use tree::{ChangeTree, ExecTree, FileTree, NameTree, Qualifiers, RuleTree};
