//! Patterns over paths: their items, what they match, and the places of a text in them.
//!
//! A `Pattern` is a list of items: each `Item` is a byte, one of the wildcards of apparmor.d(5), a `ByteSet`
//! (`ByteSet::from_flags`) or a choice between lists of items. `Pattern::matches` takes a path and answers whether that
//! can be cut into as many parts as there are items, each allowed by its item (definition `Matches`); `is_literal` and
//! `literal_front` tell how many items are bytes. `begins`, `continues`, `is_skippable` and `is_one_byte` tell which
//! bytes what an item allows may have. The places of a text are the positions in patterns up to which it is matched
//! (`IsPlace`): by the laws `places_decide_matching` and `places_decide_next` they decide which patterns match and
//! which places follow, as automata need it. Reading a pattern's text is left to `aa_glob`, and matching many patterns
//! at once to `aa_auto`.
//!
//! An example, from `aa_language_tests` (`more_items_than_any_text_spells_on_a_text_longer_than_any_path`):
//!
//! ```text
//! let mut items = Vec::new(rt.alloc());
//! for _ in 0..TEXT {
//!     push(&rt, &mut items, Item::Byte(b'/'));
//!     push(&rt, &mut items, Item::Run);
//! }
//! let pattern = Pattern { items };
//! is_row_matched(&rt, &pattern, (b"/a", TEXT, b""), true);
//! is_row_matched(&rt, &pattern, (b"/a", TEXT, b"/"), false);
//! ```
#![tactic(auto)]

mod deciding;
mod flags;
mod gaps;
mod growth;
mod halves;
mod item;
mod laws;
mod matching;
mod pattern;
mod places;
mod step;

pub use deciding::matching_is_decided;
pub use item::{ByteSet, Item};
pub use laws::same_items_match;
pub use pattern::Pattern;
pub use places::{places_decide_matching, places_decide_next};
pub use step::{begins, continues, is_one_byte, is_skippable};
