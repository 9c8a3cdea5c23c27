//! What the commands on files share: their settings, the one policy of all files, what is said where nothing is
//! answered, and how an output is written.
//!
//! A command takes `Settings` and arguments and gives an `Output`: answers, faults and an exit status. `with_policy`
//! stands between: `rooted` finds the files that the arguments stand for, `load_units` reads them, `with_units`
//! compiles them as one policy, and what implements `Use` gets this as `Decided`, with the places of its texts and
//! rules. Where that fails, `unit_refused`, `policy_refused` and others say why in place of answers; `behind_warnings`
//! puts warnings before an output, and `in_json` prints a refusal as JSON. `Untold` is a profile of which a command can
//! tell nothing, and says why. `write_output` and `exit_status` end the
//! program. `Logs` hands on the lines of logs. The meaning lies in the definition `IsPrintedFor`. Reading files is left
//! to `aa_files`, compiling to `aa_load`, and sentences to `aa_diagnostics`.
//!
//! Shown by tests/policy_files/complain_by_a_folder_is_warned_of.
#![tactic(auto)]

mod counts;
mod decided;
mod json;
mod logs;
mod output;
mod placed;
mod policy;
mod refusals;
mod roots;
mod settings;
mod untold;
mod warnings;
mod writing;

pub use counts::{count_of, passed_in, push_passed};
pub use decided::Decided;
pub use json::in_json;
pub use logs::{Logs, UnreadLog};
pub use output::Output;
pub use placed::{PlacedUnit, place_units};
pub use policy::{Use, load_units, with_policy, with_units};
pub use refusals::{
    fault_refused, path_refused, policy_refused, refused, unanswered, unit_refused,
};
pub use roots::rooted;
pub use settings::Settings;
pub use untold::{Untold, push_untold_lines, push_untold_member};
pub use warnings::behind_warnings;
pub use writing::{Unwritten, exit_status, write_output};
