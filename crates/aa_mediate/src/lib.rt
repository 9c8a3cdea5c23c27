//! Decides requests by the rules of a list of compiled policies.
//!
//! `Mediator::new` borrows compiled policies and is seen as their list. It is a `Machine`: its `step` takes the label
//! of a task and a `Request`, gives an `Answer` (granted or not, scrubbed or not, a note for the log), and moves the
//! label to the answer's; no memory is taken. `Mediator::attach` and `Mediator::attach_child` say which profile is
//! attached to a path. The meaning lies in `reply`, the answer to a request at a label by the policy that the label
//! names. What file rules say and where executions lead is left to `aa_compile`, the line of a note to `aa_audit`,
//! which rules decided to `aa_explain`, and many requests from many tasks to `aa_lane` and `aa_pool`, which know a
//! `Machine` alone.
//!
//! An example, from `aa_decision_tests` (`a_label_that_is_not_there_is_refused_everything`):
//!
//! ```text
//! const EVERYTHING: &str =
//!     "r:/x x:/x l:/x->/x cap:chown net:inet/raw change:p change:unconfined reload:0";
//! let list = policies_in(&rt, "profile p flags=(audit) { /x r, }");
//! for label in [Confined(0, 1), Confined(1, 0), Unconfined(1)] {
//!     for word in EVERYTHING.split(' ') {
//!         let found = step(&list, label, &request(&rt, word));
//!         equal_in(&rt, found, refused(label), word);
//! ```
#![tactic(auto)]

mod agreement;
mod attachments;
mod bits;
mod decided;
mod held;
mod link;
mod mediator;
mod reply;

pub use aa_compile::{CompileRefusal, Compiled, compile, label_of, name_of_label, profile_of};
pub use aa_machine::Machine;
pub use aa_model::{
    Answer, ChangeRequest, ExecRequest, FileRequest, Label, LinkRequest, Note, NoteWord, Request,
    RequestFault,
};
pub use agreement::chosen_rules_agree;
pub use mediator::Mediator;
