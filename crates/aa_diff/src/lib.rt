//! What `diff` prints: the requests that two policies of files answer differently, line by line, with the rules that
//! account for it.
//!
//! `diff_files` takes two trees with the settings of each and `DiffOptions`, and gives what is printed. Each side is
//! compiled as one policy; `policy_differences` of `aa_differences` lists requests that they answer differently, those
//! that differ alike become one `Finding` with each `Rule` that accounts for it, findings that are accepted are left
//! out, and the rest is printed in the `DiffForm` that is wanted, each with a `Sign` (`sign_of`). The meaning lies in
//! the definitions `IsDiffOutput` and `gathered`; the laws `differences_are_sound`, `gains_are_told` and
//! `lines_tell_entries` say what a line, or none, tells. Which rules are changed is left to `aa_changed_rules`, those
//! that never decide to `aa_passed_over`, accepted lines and Markdown to `aa_report`, and the page to `aa_page`.
//!
//! Shown by tests/policy_files/a_diff_has_each_kind_of_line.
#![tactic(auto)]

mod accepted;
mod change;
mod command;
mod deciding;
mod finding;
mod gathering;
mod heads;
mod html;
mod joining;
mod json;
mod laws;
mod lines;
mod naming;
mod options;
mod order;
mod part;
mod places;
mod printing;
mod report;
mod rules;
mod sides;
mod signs;
mod unclean;
mod untold;
mod untold_shown;
mod witness;

pub use command::diff_files;
pub use finding::{Finding, Who};
pub use laws::{differences_are_sound, gains_are_told, lines_tell_entries, printing_keeps_lines};
pub use options::{DiffForm, DiffOptions, Wanted};
pub use rules::Rule;
pub use signs::{Sign, sign_of};
