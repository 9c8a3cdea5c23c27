//! Files that are refused and skipped: what their heads tell of their profiles, and the one policy of the others.
//!
//! Where a command skips files that are refused, the others answer. `with_read_policy` takes what `with_policy` of
//! `aa_command` takes: `sort_paths` reads each file and parts those that are refused, each a `Skipped` with its fault,
//! from the rest; `part_repeated` skips also files of which more than one may have a profile of one name; and what
//! implements `UsePart` gets the policy of the rest beside the skipped files. `unread_of` tells what the heads of a
//! refused unit say of its profiles. The meaning lies in the definitions `IsPrintedOf` and `AreHeadsOf`. Which answers
//! a skipped profile could change is left to `aa_skipping`; the law `each_file_decides` says that this can be asked of
//! each file by itself.
//!
//! Shown by tests/policy_files/ask_skips_files_of_one_name.
#![tactic(auto)]

mod bodies;
mod flags;
mod heads;
mod laws;
mod policy;
mod repeated;
mod skipped;
mod sorting;
mod telling;

pub use heads::unread_of;
pub use laws::each_file_decides;
pub use policy::{UsePart, with_read_policy};
pub use repeated::part_repeated;
pub use skipped::{Skipped, Sorted};
pub use sorting::sort_paths;
pub use telling::{behind_skipped, push_skipped_count};
