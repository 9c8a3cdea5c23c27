//! What `assert` answers: which claims are broken, by which profiles, each with a request that shows it and the rules.
//!
//! `assert_files` takes settings and `AssertOptions` with the file of claims, and gives what is printed. `read_claims`
//! of `aa_claims` reads that file. Before one is answered, each claim is looked at for names of nobody and for what
//! nothing can break; then it is judged at each label that it is about: by a first request that breaks it (`first_at`
//! of `aa_who`), by the labels that are got to (`arrivals_beside` of `aa_reachability`), or by complain mode. The
//! meaning lies in the definitions `IsAnswerOf` and `IsAssertOutput`; the laws `answers_tell_what_holds`,
//! `claims_are_sound`, `verdicts_are_enforced` and `unbreakable_claims_hold` say what an answer is worth. The verdict
//! with its rules is left to `aa_ask`, skipped files to `aa_undecided`, and forms for other tools to `aa_check`.
//!
//! Shown by tests/policy_files/claims_of_the_manual.
#![tactic(auto)]

mod answering;
mod asked;
mod breaking;
mod command;
mod enforced;
mod finding;
mod gathering;
mod gcc;
mod json;
mod judging;
mod kind;
mod laws;
mod leading;
mod names;
mod outcomes;
mod part;
mod passage;
mod sarif;
mod scope;
mod shown;
mod stating;
mod unclean;
mod way;

pub use command::{AssertOptions, assert_files};
pub use laws::{
    answers_tell_what_holds, claims_are_sound, unbreakable_claims_hold, verdicts_are_enforced,
};
