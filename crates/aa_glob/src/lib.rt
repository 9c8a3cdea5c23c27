//! Texts read as patterns over paths, and words with variables that expand to them.
//!
//! `read_pattern` takes a text as it stands and gives its `Pattern`, or why it is none (definition `tokens`). Variables
//! are made by `Vars::new`, given values by `Vars::set` and more values by `Vars::add`, as the assignments `=` and `+=`
//! do; `expand` then takes a word and gives a pattern for each choice of values, the leftmost use varying slowest, or
//! why there are none (definition `Expands`). By the laws `tokens_decide_items` and `expands_once` a text alone, and a
//! word with its variables, decide the result. Which texts a pattern matches is left to `aa_pattern`, whose names are
//! passed on, and where patterns and assignments stand in a policy to `aa_policy`.
//!
//! An example, from `aa_language_tests` (`a_growth_refused_to_set_add_or_expand_is_no_memory`):
//!
//! ```text
//! let mut vars = Vars::new(rt.alloc());
//! at_last!(&rt, NONE, set(&mut vars, "A", &[b"a", b"b"]));
//! at_last!(&rt, NONE, add(&mut vars, "A", &[b"c*"]));
//! at_last!(&rt, NONE, set(&mut vars, "B", &[b"@{A}x"]));
//! let found = set(&mut vars, "B", &[]);
//! equal(&rt, found, Err(PolicyKind::VariableTwice));
//! let patterns = at_last!(&rt, NONE, expansions(&rt, &vars, b"/@{A}//@{B}"));
//! const PATHS: &str = "/a/ax /a/bx /a/cx /b/ax /b/bx /b/cx /c/ax /c/bx /c/cx";
//! match_in_turn(&rt, patterns.as_slice(), PATHS);
//! ```
#![tactic(auto)]

mod building;
mod classes;
mod expanding;
mod laws;
mod pieces;
mod reader;
mod sign;
mod summary;
mod token_laws;
mod vars;
mod walk;

pub use aa_pattern::{
    ByteSet, Item, Pattern, begins, continues, is_one_byte, is_skippable, matching_is_decided,
    places_decide_matching, places_decide_next, same_items_match,
};
pub use expanding::expand;
pub use laws::expands_once;
pub use reader::read_pattern;
pub use token_laws::tokens_decide_items;
pub use vars::Vars;
