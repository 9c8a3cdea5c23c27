//! Compiling a policy: what its rules say at each state of an automaton, which profile is attached, what refuses it,
//! and what is kept of it for deciding requests.
//!
//! `compile` takes a `Policy` of `aa_model` and a limit of states, and gives a `Compiled`, or a `CompileRefusal` with
//! the policy in it. Then `Compiled::find`, `Compiled::attach` and `Compiled::attach_child` give the number of a
//! profile, `Compiled::verdict` what its file rules say of a path, by one walk, and `Compiled::transition` where an
//! execution with that verdict leads. `label_of`, `name_of_label` and `profile_of` go from names to labels and back;
//! `applies`, `holds_cap`, `holds_net` and `holds_change` tell of one rule. The meaning lies in `IsAccepted` and
//! `IsRefused`, which say what compiles, and in `IsVerdictOf`, `attached` and `transition`. Subset construction is left
//! to `aa_auto`, the answer to a request to `aa_mediate`, and where two rules conflict to `aa_explain`.
//!
//! An example, from `aa_decision_tests` (`a_growth_refused_to_compile_is_no_memory`):
//!
//! ```text
//! let text = "profile p /p* { /q Px, /c cx -> c, profile c /c { } } profile q /q { }";
//! for _ in 0..3 {
//!     match compiled(rt.alloc(), text, 100) {
//!         Ok(policy) => {
//!             equal(&rt, policy.attach(b"/pp"), Some(0));
//!             equal(&rt, transition(&rt, &policy, 0, "/q"), To(Some(2), true));
//!             equal(&rt, transition(&rt, &policy, 0, "/c"), To(Some(1), false));
//! ```
#![tactic(auto)]

mod applying;
mod attach;
mod compiling;
mod conflicts;
mod groups;
mod labels;
mod mark;
mod numbering;
mod owners;
mod rows;
mod sets;
mod side;
mod tables;
mod targets;
mod transition;
mod ways;

pub use aa_model::Label;
pub use applying::{
    applies, applies_literally, holds_cap, holds_change, holds_net, is_matched, matches_literally,
    says_how,
};
pub use attach::{AttachRows, Attachment};
pub use compiling::{CompileRefusal, Compiled, compile};
pub use labels::{first_profiles, label_of, name_of_label, profile_of};
pub use mark::{Mark, Way};
pub use rows::{FileRows, Row, RowsFault};
pub use sets::RuleSets;
pub use side::{Chosen, Verdict};
pub use transition::Transition;
