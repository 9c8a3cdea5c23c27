//! Whether all, some or none of a set of requests are granted at a label.
//!
//! A `Word` is a set of requests: to use the files of a pattern by some masks, to execute them, or one request.
//! `quantity_of` takes compiled policies, a label, a word and a limit, and gives a `Quantity`: every request is
//! granted, some are, or none is, with requests that show it, at clean paths where there are such, and of these with a
//! shortest. `first_of` looks for one that is answered as an `Aim` says, for example one that leads to some label.
//! Where profiles weren't read, `word_is_open` says whether they could change what is answered. The meaning lies in
//! `IsQuantity` and `IsFirst`. Regions are left to `aa_representatives`, answers to `aa_mediate`; words are read and
//! answers printed by `aa_who` and `aa_assert`.
//!
//! An example, from `aa_decision_tests` (`where_none_is_granted_a_shortest_refused_one_is_shown`):
//!
//! ```text
//! let any = reading(&rt, "/a*", Whose::Both);
//! is_never(&rt, "profile p { /b r, }", &any, "r:/a");
//! let others = reading(&rt, "/a", Whose::Others);
//! is_never(&rt, "profile p { owner /a r, }", &others, "r:/a");
//! let chown = Word::One(request(&rt, "cap:chown"));
//! is_never(&rt, "profile p { capability kill, }", &chown, "cap:chown");
//! ```
#![tactic(auto)]

mod aim;
mod doubts;
mod fault;
mod literal;
mod order;
mod quantity;
mod requests;
mod shortest;
mod word;

pub use aim::{Aim, First, Labels};
pub use doubts::{byte_of, closed_words_are_decided, is_search, may_attach, word_is_open};
pub use fault::QuantityFault;
pub use quantity::{Quantity, first_of, quantity_of};
pub use word::{ExecsWord, FilesWord, Whose, Word};
