//! The labels that a task can get to, each by a shortest list of requests.
//!
//! `arrivals_from` takes a `Going` (compiled policies, and whether what complain mode alone grants moves a task), a
//! label and a limit; `arrivals_beside` takes a `Course`, which also has profiles that weren't read, and may count
//! clean paths alone. Both give a `Reached`: an `Arrival` for each label, shorter lists of requests first, and the
//! labels from which it isn't told where requests lead on. `way_to` then gives the requests that lead to one arrival.
//! `near_arrivals` and `near_beside` go by one request. The meaning lies in `AreArrivals`: each label that a list of
//! requests leads to, once, with a shortest list. Answers are left to `aa_mediate`, regions of paths to
//! `aa_representatives`, and what is printed to `aa_reach` and `aa_assert`.
//!
//! An example, from `aa_decision_tests` (`each_way_leads_to_its_label`):
//!
//! ```text
//! let text = "profile a { /x px -> b, } profile b { /y px -> c, } profile c { /z ux, }";
//! let list = policies_in(&rt, text);
//! let found = found_from(&rt, list.as_slice(), FIRST, 4096).arrivals;
//! for number in 0..found.len() {
//!     let way = way_to(rt.alloc(), found.as_slice(), number).expect(&rt, "memory");
//!     equal(&rt, way.len(), found[number].length);
//!     let mut label = FIRST;
//!     for request in way.as_slice() {
//!         label = step(list.as_slice(), label, request).1;
//!     }
//!     equal(&rt, label, found[number].label);
//! ```
#![tactic(auto)]

mod beside;
mod changes;
mod clean;
mod codes;
mod execs;
mod extent;
mod going;
mod moves;
mod order;
mod reached;
mod search;
mod trail;
mod ways;

pub use beside::{Course, is_doubted, is_sure};
pub use clean::are_clean;
pub use going::{Going, answer_of, complains_by, is_by_complain, label_after};
pub use reached::{Reached, Untold, Why};
pub use search::{arrivals_beside, arrivals_from, near_arrivals, near_beside};
pub use trail::{Arrival, Step};
pub use ways::way_to;
