//! What all crates share: lists and texts that contracts compare, the kinds of refusal, tables of names and sets, and
//! how names and sets are written.
//!
//! Lists and bytes are kept as `Seq` and `Text`, made by `from_vec` or `Text::copy_of`, which contracts see as their
//! lists; `into_vec` gives them back. A word becomes a `Cap`, a `Family` or a `SockType` by `from_name`, whose `number`
//! is its place in a table (definition `number_in`), and `name` tells it again. Why a policy is refused is a
//! `PolicyFault`, of a `PolicyKind` and a `Spot`; why a path can't be read is `Unread`. Names and sets of permissions
//! are appended to any `Sink` by `push_value` and `push_mask` (definitions `value` and `mask`), hexadecimal digits by
//! `push_hex`, and `from_hex` reads digits (`digits_in`). Patterns are left to `aa_pattern`, rules and requests to
//! `aa_model`, lines and JSON to `aa_text`.
//!
//! An example, from `aa_language_tests` (`a_fault_is_printed_with_number_kind_and_place`):
//!
//! ```text
//! let fault = PolicyFault {
//!     kind: PolicyKind::WriteWithAppend,
//!     at: Spot { file: 0, byte: 15 },
//! };
//! let line = format!(in rt.alloc(); "{fault}").expect(&rt, "memory");
//! equal(&rt, line.as_str(), "refused 8 WriteWithAppend 0:15");
//! ```
#![tactic(auto)]

mod cap;
mod caps;
mod family;
mod fault;
mod hex;
mod perms;
mod seq;
mod sink;
mod sock_type;
mod table;
mod text;
mod unread;
mod values;

pub use cap::Cap;
pub use caps::Caps;
pub use family::Family;
pub use fault::{PolicyFault, PolicyKind, Spot};
pub use hex::{from_hex, push_hex, push_small_hex};
pub use perms::Perms;
pub use seq::Seq;
pub use sink::Sink;
pub use sock_type::SockType;
pub use text::Text;
pub use unread::Unread;
pub use values::{plain_text, push_letters, push_mask, push_quoted, push_value};
