//! Requests that stand for all others at a label: a reply looks at a path only through which patterns match it.
//!
//! What holds of all requests is decided by finitely many. `representatives_of_both` takes a label of each of two lists
//! of compiled policies and a limit, and gives requests such that each other that can be asked is answered at both
//! labels as one of its kind; `representatives_of_both_and` also divides paths by one more pattern. `representatives`
//! does so at one label, and `file_representatives`, `exec_representatives`, `link_representatives`,
//! `change_representatives` and `reload_representatives` kind by kind. `deciding_regions` and its like give regions of
//! paths alone. The meaning lies in `AreRepresentatives` and `RepresentBoth`, the reason in the law
//! `alike_paths_reply_alike`. Regions are left to `aa_regions`, and what the answers are compared with to
//! `aa_differences`, `aa_quantifiers` and `aa_reachability`.
//!
//! An example, from `aa_decision_tests` (`one_of_five_changes_is_granted`):
//!
//! ```text
//! let text = "profile p { change_profile -> q, } profile q { } profile r { }";
//! let list = policies_in(&rt, text);
//! let found = change_representatives(rt.alloc(), list.as_slice(), FIRST, 4096).expect(&rt, text);
//! equal(&rt, granted(list.as_slice(), found.as_slice()), (5, 1));
//! ```
#![tactic(auto)]

mod all;
mod apart;
mod automata;
mod both;
mod changes;
mod classes;
mod entries;
mod execs;
mod fault;
mod files;
mod laws;
mod links;
mod more;
mod names;
mod paths;
mod patterns;
mod regions;
mod reloads;
mod said;

pub use all::{representatives, representatives_of_both, representatives_of_both_and};
pub use changes::change_representatives;
pub use fault::RepresentativesFault;
pub use laws::alike_paths_reply_alike;
pub use links::link_representatives;
pub use paths::{exec_representatives, file_representatives};
pub use regions::{
    deciding_regions, deciding_regions_and_within, deciding_regions_within,
    filing_regions_and_within, filing_regions_within,
};
pub use reloads::reload_representatives;
