//! Texts that are made piece by piece: lines and columns, excerpts, JSON, faults and names as they are printed.
//!
//! A byte of a text becomes a line and a column by `place_of`, or where many bytes of one text are asked for, by
//! `PlacedText::new` and `PlacedText::place_of` (definition `place_in`); `excerpt` gives its line with a caret below it
//! (`excerpt_of`). A `FaultReport` has such places, and is appended to a `Vec` by `push_fault`, as JSON by `push_json`
//! of the trait `ToJson`. Single pieces are `push_text`, `push_number`, `push_name` and, for bytes that a terminal may
//! be handed, `push_visible`; of JSON `push_json_text` (`json_text`), `push_member` and `push_list`. By the laws
//! `texts_are_read` and `values_are_read` what is written as JSON is read as that value. Which faults there are and
//! what is said of each is left to `aa_diagnostics`, and HTML to `aa_page`.
//!
//! An example, from `aa_language_tests` (`an_excerpt_whose_growth_is_refused_is_none`):
//!
//! ```text
//! let found = at_last!(&rt, AllocError, excerpt(rt.alloc(), b"a\n\xC3\xA4b c", 4));
//! let is_so = found.as_slice() == b"    2 | \xC3\xA4b c\n      |  ^\n".as_slice();
//! holds(&rt, is_so);
//! ```
#![tactic(auto)]

mod cut;
mod fault;
mod json_text;
mod line;
mod memory;
mod name;
mod nearest;
mod place;
mod place_laws;
mod placed;
mod position;
mod reading_laws;
mod shown;
mod text;
mod to_json;
mod visible;

pub use fault::{FaultReport, Link, push_fault};
pub use json_text::{is_text, push_bool, push_json_bytes, push_json_text, push_key};
pub use line::without_return;
pub use memory::NoMemory;
pub use name::push_name;
pub use nearest::nearest_name;
pub use place::{Place, place_of};
pub use place_laws::places_rise;
pub use placed::PlacedText;
pub use position::{PlaceAt, place_at, push_json_place, push_place, push_where};
pub use reading_laws::{texts_are_read, values_are_read};
pub use shown::excerpt;
pub use text::{push_number, push_text};
pub use to_json::{
    ListItem, ToJson, push_comma, push_list, push_list_in, push_list_member, push_member,
    push_member_if, push_next_key,
};
pub use visible::push_visible;
