//! What `reach` answers: the labels that a task can get to, each with a shortest list of requests that leads there.
//!
//! `reach_files` takes settings and `ReachOptions` with the texts that name where a task begins, and gives what is
//! printed: answers for people or as JSON, the graph of all labels in the language of Graphviz, or a page of both. From
//! each label where a task begins `arrivals_beside` of `aa_reachability` finds those that it gets to; the requests that
//! lead there are printed as words that `ask` reads as these requests (the law `words_lead`). The meaning lies in the
//! definitions `AreFound` and `IsReachOutput`; the laws `labels_are_sound` and `searches_are_enforced` say what holds
//! beside skipped files and without complain mode. The search is left to `aa_reachability`, the frame of the page to
//! `aa_page`, and the policy of files to `aa_command` and `aa_skipped`.
//!
//! Shown by tests/policy_files/reach_from_a_profile.
#![tactic(auto)]

mod answering;
mod beside;
mod command;
mod dot;
mod doubts;
mod fault;
mod graph;
mod heads;
mod html;
mod json;
mod laws;
mod naming;
mod parts;
mod routes;
mod searching;
mod shown;

pub use command::{ReachOptions, reach_files};
pub use laws::{labels_are_sound, searches_are_enforced, words_lead};
