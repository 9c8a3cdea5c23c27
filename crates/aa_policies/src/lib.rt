//! The policies that texts spell, compiled.
//!
//! `compile_policies` takes the texts that may be included, the texts of policies and a limit of states. It gives a
//! `Compiled` for each text, in order, or a `RefusedPolicy`: the number of the first that is refused, and its fault
//! with the place. `compile_text` does so for one text beside its `Sources`. Each text goes through `words` of
//! `aa_words`, `parse` of `aa_policy` and `compile` of `aa_compile`, and is done before the next one is begun. The
//! meaning lies in `IsPolicyOf` and `ArePoliciesOf`, the causes in `IsFaultOfText` and `IsRefusedBy`. Jobs are left to
//! `aa_engine`, and files, with several in one policy, to `aa_load`.
//!
//! An example, from `aa_decision_tests` (`policies_stand_in_the_order_of_their_texts`):
//!
//! ```text
//! let texts = "profile p { }¦profile q { } profile p { }";
//! let policies = compiled(&rt, "", texts, 1).expect(&rt, "policies");
//! equal(&rt, found(&policies, 0, "p"), Some(0));
//! equal(&rt, found(&policies, 0, "q"), None);
//! equal(&rt, found(&policies, 1, "p"), Some(1));
//! equal(&rt, found(&policies, 1, "q"), Some(0));
//! ```
#![tactic(auto)]

mod compiling;
mod refused;
mod sources;

pub use aa_compile::Compiled;
pub use compiling::{compile_policies, compile_text};
pub use refused::RefusedPolicy;
