//! What reports of parts of logs say together: reads what `log --json` printed of each, and makes the one report of
//! all.
//!
//! Logs can be reported in parts, side by side, and the reports put together. `merge_files` takes where the parts lie
//! and `MergeOptions`, and gives what `log` prints of all these logs one after another. `read_part` reads the bytes of
//! a report as a `Part`; `Merging` begins with the first (`new`) and takes each in turn (`add`); and `report_printed`
//! of `aa_log` prints the whole. What is no report, or can't follow those before, is told by `PartFault`. The meaning
//! lies in the definitions `report_of` and `merged`, and that of what is printed in `IsMergeOutput`. No policy is read:
//! what `log --against` answers is refused as a part. How a report reads is left to `aa_log`, and JSON to the kit's
//! `json` and `serde_json`.
//!
//! Shown by tests/policy_files/parts_of_logs.
#![tactic(auto)]

mod adding;
mod command;
mod fault;
mod named;
mod names;
mod part;
mod places;
mod reading;
mod refusals;
mod rows;
mod values;

pub use adding::Merging;
pub use command::{MergeOptions, merge_files};
pub use fault::{Member, PartFault};
pub use part::{Part, PartRow, PartSkipped, PartUnclear};
pub use places::Parts;
pub use reading::read_part;
