//! All faults of a unit, one behind another: each is the first fault of the text in which the rules and assignments at
//! fault before it are white space.
//!
//! Given are a unit, its first fault and how many more are wanted; `further_faults` gives a report on each. In turn it
//! finds by `extent_at` which bytes the rule or assignment at fault has, writes white space over them by `blank`, so
//! that all other places stay, and compiles the unit again. It ends where the unit is accepted, where the fault belongs
//! to no rule or assignment, or where enough are told. The meaning lies in the definition `AreFurther`, and that of one
//! step in `IsExtentAt` and `IsBlanked`. Compiling is left to `aa_load` and the sentence on a fault to
//! `aa_diagnostics`; `aa_check` prints them.
//!
//! Shown by tests/policy_files/all_faults_of_a_file.
#![tactic(auto)]

mod blanking;
mod extent;
mod faults;
mod statements;

pub use blanking::blank;
pub use extent::{Extent, extent_at};
pub use faults::further_faults;
