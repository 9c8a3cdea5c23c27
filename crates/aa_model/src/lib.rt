//! Policies and requests as data: profiles with their rules, what tasks ask, what confines them, and what they are
//! answered.
//!
//! A `Policy` has a list of each `Profile` with its rules (`FileRule`, `CapRule`, `NetRule`, `ChangeRule`), and the
//! rules that are `PassedOver`. A `Request` is made by `Request::file`, `Request::link`, `Request::exec`,
//! `Request::cap`, `Request::net`, `Request::change` or `Request::reload`; a path, a mask or a name that no task can
//! ask for is a `RequestFault` (definitions `is_path`, `is_mask`, `is_wanted_name`), so what is made needs no later
//! check. A `Label` is what confines a task, and an `Answer` says whether a request is granted, which label the task
//! has then, and by its `Note` what an audit line tells. Nothing is decided here: `parse` of `aa_policy` gives
//! policies, `compile` of `aa_compile` takes them, and `Mediator` of `aa_mediate` answers requests.
//!
//! An example, from `aa_decision_tests` (`a_growth_refused_to_a_line_is_no_memory`):
//!
//! ```text
//! let policy = compiled(rt.alloc(), "profile p { }", 4096);
//! let asked = Request::exec(rt.alloc(), b"/bin/x y", false);
//! if let (Ok(policy), Ok(asked)) = (policy, asked) {
//!     if is_line(&rt, &[policy], ROW, &asked).is_ok() {
//!         return;
//!     }
//! }
//! ```
#![tactic(auto)]

mod answer;
mod change;
mod exec;
mod fault;
mod file;
mod label;
mod link;
mod path;
mod policy;
mod request;
mod rule;

pub use answer::{Answer, Note, NoteWord};
pub use change::ChangeRequest;
pub use exec::ExecRequest;
pub use fault::RequestFault;
pub use file::FileRequest;
pub use label::Label;
pub use link::LinkRequest;
pub use policy::{PassedOver, Policy, Profile};
pub use request::Request;
pub use rule::{CapRule, ChangeRule, Exec, ExecKind, Fallback, FileRule, NetRule};
