//! Reads the words of a policy: assignments, heads of profiles, bodies, and what they mean.
//!
//! `parse` takes the `WordList` that `words` of `aa_words` gives, and answers the `Policy` that it spells (definition
//! `Spells`), or the first refusal of three passes: over the words as they are written, over the paths and names in
//! them, and over the profiles together. By the law `spelled_once` words spell at most one policy, but for where
//! patterns lie in memory (`SamePolicy`). Parts are read alone by `preamble_of` (assignments and abi rules),
//! `begins_profile` and `head_of`: so `aa_diagnostics` and `aa_explain` find where faults and rules stand. A single
//! rule is left to `rule_of` of `aa_rules`, and the expansion of a path to `expand` of `aa_glob`; conflicts between
//! rules, and numbers of states, are found by `compile` of `aa_compile`.
//!
//! An example, from `aa_language_tests` (`no_front_of_a_policy_is_one`):
//!
//! ```text
//! let text = b"profile p { /x w, /x a, }";
//! for n in 1..text.len() {
//!     assert!(rt; read(&rt, &text[..n]).is_err(), "at {n}");
//! }
//! holds(&rt, read(&rt, text).is_ok());
//! ```
#![tactic(auto)]

mod access;
mod assignments;
mod bodies;
mod changes;
mod expansion;
mod families;
mod heads;
mod items;
mod limits;
mod listing;
mod parser;
mod preamble;
mod refusal;
mod tree;

pub use aa_base::{Cap, Caps, Family, Perms, Seq, SockType, Text};
pub use aa_model::{
    CapRule, ChangeRule, Exec, ExecKind, Fallback, FileRule, NetRule, PassedOver, Policy, Profile,
};
pub use aa_pattern::matching_is_decided;
pub use assignments::begins_assignment;
pub use heads::{
    AttachmentTree, HeadFlags, HeadTree, TitleTree, begins_profile, head_of, is_idle_flag,
};
pub use parser::{parse, spelled_once};
pub use preamble::{abi_of, preamble_of};
