//! The policy that files are: each unit compiled by itself, and texts that are read, joined and compiled as one.
//!
//! A unit is a main text with its sources, as `aa_files` reads it. `compile_unit` takes one and gives the policy that
//! it spells by itself, as `check` wants it; `sources_of` numbers its sources before. `load_policy` takes several
//! `Texts` and gives one `Loaded` policy, as if all were loaded into one kernel: each text is parsed, a `Joining` puts
//! its profiles behind those of the texts before (`new`, `add`, `into_policy`), and the whole is compiled once; beside
//! the policy stands of which text each profile is and where its rules are. What is refused is told by `LoadingFault`,
//! in a fixed order. The meaning lies in the definitions `IsPolicyOfUnit`, `IsOnePolicy` and `joined`. Compiling one
//! text is left to `aa_policies`, the places of rules to `aa_explain`, and the sentence on a fault to `aa_diagnostics`.
//!
//! An example, from `aa_decision_tests` (`policies_become_one`):
//!
//! ```text
//!     // Names of a refused policy stay free.
//!     (
//!         "profile a { }¦profile b { } profile a { }¦profile b { }",
//!         "a|b|",
//!         repeated(0, 1),
//!     ),
//! ] {
//!     let joined = join(&rt, texts);
//!     equal_in(&rt, told(&rt, &joined.0).as_str(), wanted, texts);
//!     equal_in(&rt, joined.1, fault, texts);
//! }
//! ```
#![tactic(auto)]

mod alone;
mod fault;
mod join_fault;
mod joined;
mod joining;
mod kept;
mod laws;
mod loaded;
mod moving;
mod numbers;
mod reading;
mod texts;
mod unit_policy;

pub use fault::{LoadingFault, RepeatedName};
pub use join_fault::{JoinFault, Refused, Repeated};
pub use joining::Joining;
pub use laws::joined_policies_find_both;
pub use loaded::{Loaded, load_policy};
pub use texts::Texts;
pub use unit_policy::{compile_unit, sources_of};
