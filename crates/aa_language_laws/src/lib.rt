//! Laws alone: where the words of a policy end, which texts are modes, and which are variables, said in the words of
//! the language.
//!
//! A law is a function that does nothing: what its contract says is proved of the definitions by which the lexer and
//! the parser are told. `paths_end_first`, `runs_end_first` and `passed_over_rules_end_first` say that what they are
//! named after goes on up to the first place where it ends (definition `EndsFirst`), and `quotes_close_first` where a
//! quoted text is closed; `open_brackets_lack_their_own` and `open_braces_lack_their_own` what it is to stand within
//! brackets and braces. `modes_are_their_parts` says which letters and exec parts a mode is put together of
//! (`IsModeOf`), and by `variables_are_alike` lexer, assignments and patterns agree on variables. `worked_modes` and
//! its like show definitions at work. No other crate calls these functions, and the definitions stay in `aa_words`,
//! `aa_glob`, `aa_rules` and `aa_policy`.
//!
//! An example, from `aa_language_laws` (`worked_modes`):
//!
//! ```text
//! pub fn worked_modes()
//!     ensures front { IsModeOf false (codes "rwPix") (mode 71 (how Profile true Inherit)) }
//!     ensures both { IsModeOf false (codes "rpixk") (mode 81 (how Profile false Inherit)) }
//!     ensures denied { IsModeOf true (codes "rx") (mode 65 None) }
//!     ensures mixed { (m : Mode) → IsModeOf false (codes "wa") m → ⊥ }
//!     ensures plain { (m : Mode) → IsModeOf false (codes "rx") m → ⊥ }
//!     ensures twice { (m : Mode) → IsModeOf false (codes "ixrpx") m → ⊥ }
//! {}
//! ```
#![tactic(auto)]

mod laws;
mod worked;

pub use laws::{
    modes_are_their_parts, open_braces_lack_their_own, open_brackets_lack_their_own,
    passed_over_rules_end_first, paths_end_first, quotes_close_first, runs_end_first,
    variables_are_alike,
};
pub use worked::{
    worked_first_names, worked_flags, worked_modes, worked_paths, worked_quotes, worked_rules,
    worked_socket_names, worked_variables,
};
