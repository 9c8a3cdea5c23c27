//! The words of a policy text, and the sources that it may include.
//!
//! The texts that a policy may include are put under their names by `Sources::new` and `Sources::add`. `words` takes
//! them with the main text and gives a `WordList`, each `Word` with its kind, its bytes and its `Span`, or the first
//! fault in reading order (definition `Splits`: a text has one list of words). Blanks and comments are no words, an
//! include stands for the words of its source, and a rule that is passed over is one word beside its comma.
//! `includes_of` gives the includes of a text alone, by which `aa_files` finds the files that a policy needs;
//! `name_length`, `path_length` and the like tell how long a single run is. What words mean is left to `aa_rules` and
//! `aa_policy`, and the patterns within them to `aa_glob`.
//!
//! An example, from `aa_language_tests` (`bytes_that_are_no_utf8_stand_in_words`):
//!
//! ```text
//! let sources = Sources::new(rt.alloc());
//! let found = words_of(&rt, &sources, b"/\xff\xfe \xc3z").expect(&rt, "words");
//! assert!(rt;
//!     told(&rt, found.list.as_slice()).as_slice() == b"0 Path /\xff\xfe|4 Name \xc3z".as_slice()
//! );
//! ```
#![tactic(auto)]

mod cut;
mod found;
mod include;
mod includes;
mod lexer;
mod piece;
mod reading;
mod runs;
mod skips;
mod sources;
mod stops;
mod word;

pub use found::{IncludeAt, includes_of};
pub use include::Include;
pub use includes::{
    begins_hash_include, behind_keyword, form_of_include, include_length, may_be_missing,
    name_of_include,
};
pub use lexer::words;
pub use runs::{
    assigned_length, comment_length, is_white_space, is_whole_variable, name_length, path_length,
    quote_length, quoted_length, value_length,
};
pub use skips::skipped_length;
pub use sources::Sources;
pub use word::{Span, Word, WordKind, WordList};
