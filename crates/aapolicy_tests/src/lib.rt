//! Tests of what `aapolicy` reads and prints, over trees of files in memory: which files are read, whole reports,
//! request words and the lines of logs.
//!
//! `MemoryTree` is a `Tree` of `aa_files` whose files, folders and broken links are planted one by one
//! (`MemoryTree::new`, `plant_file`, `plant_folder`, `plant_refused`), and `FailingTree` answers as one does but for
//! one look-up, which fails. What is known to lie where is told by the definitions `files_of` and, where a look-up
//! fails, `known_by`; so commands are called with both as with the system's files. `unit_tests` asks `load` and
//! `roots_of` which files are read, `check_tests` what `check` prints, `log_tests` fields, words and choices. Look-ups
//! fail in turn, each for each cause. What the commands answer on trees that are read is left to stored cases in
//! `tests/policy_files`.
//!
//! An example, from `aapolicy_tests` (`a_file_of_a_folder_that_cannot_be_read_is_refused`):
//!
//! ```text
//! const ROWS: &str = "/m=include <d>\n§/b/d/a=# a\n§/b/d:a c";
//! let tree = tree_beside(&rt, ROWS, "/b/d/c", Unread::NotAllowed);
//! is_loaded(&rt, &tree, "/m", "/b/d/c NotAllowed");
//! ```
#![tactic(auto)]

#[cfg(test)]
mod check_tests;
#[cfg(test)]
mod comparing;
mod failing;
#[cfg(test)]
mod log_tests;
mod names;
#[cfg(test)]
mod planting;
mod tree;
#[cfg(test)]
mod unit_tests;

pub use failing::FailingTree;
pub use names::Names;
pub use tree::{MemoryTree, Planted};
