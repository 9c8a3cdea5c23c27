//! Paths that no kernel asks for, since a component of them is empty, `.` or `..`: what they are, a test, and a pattern
//! that tells them.
//!
//! A kernel asks for resolved paths, so a difference that shows at `/a//b` alone is none for a task. `is_unclean` tests
//! a path, and `is_at_unclean_path` a request by each path that it has; `does_request_count` says whether it counts
//! where unclean paths may be left out. `unclean_pattern` makes a pattern that matches just the unclean ones of the
//! paths that can be asked for: beside the patterns of rules it divides their regions, so that a clean path of each is
//! found where there is one. The meaning lies in `IsUnclean`, `IsAtUncleanPath` and `TellsUnclean`. Regions are left to
//! `aa_regions`; clean paths are preferred in `aa_differences`, `aa_quantifiers` and `aa_reachability`.
//!
//! An example, from `aa_decision_tests` (`a_dot_or_two_dots_are_unclean_within_and_at_the_end`):
//!
//! ```text
//! let one = ["/.", "/./", "/./a", "/a/.", "/a/./", "/a/./b"];
//! are_told(&rt, &one, true);
//! let two = ["/..", "/../", "/../a", "/a/..", "/a/../", "/a/../b"];
//! are_told(&rt, &two, true);
//! ```
#![tactic(auto)]

mod paths;
mod pattern;
mod requests;

pub use paths::is_unclean;
pub use pattern::unclean_pattern;
pub use requests::{does_request_count, is_at_unclean_path};
