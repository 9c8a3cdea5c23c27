//! Policy files where they lie: the names in folders, which files the command line names, and what each includes on
//! which way.
//!
//! A `Tree` tells what lies at a path: the files of the host (`HostRuntime`), or texts in memory. `roots_of` takes the
//! arguments of a command and gives the files that they stand for, with warnings of those that are passed over. `load`
//! reads one of these and breadth first all that it includes, in the folders that `searched_folders` puts in order, and
//! gives a `Unit`: the main text and a `Source` for each included name at which something lies; else a `UnitFault`
//! names the path that can't be read. `text_at` finds the file behind the number that a place has, and `links_to` the
//! includes on the way to it. The meaning lies in the definitions `root_paths` and `IsUnit`. Which includes a text has
//! is left to `aa_words`, what a unit spells to `aa_load`, and the sentence on a fault to `aa_diagnostics`.
//!
//! An example, from `aapolicy_tests` (`a_main_text_is_a_file_or_standard_input`):
//!
//! ```text
//! let mut tree = tree_of(&rt, "-=# a file\n§/f:");
//! tree.input
//!     .extend_from_slice(b"# input\n")
//!     .expect(&rt, "memory");
//! let unit = loaded(rt.alloc(), &tree, "-");
//! let is_input = |it: Unit| it.text.as_slice() == b"# input\n".as_slice()
//!     && it.path.as_slice() == b"-".as_slice();
//! equal(&rt, unit.ok().map(is_input), Some(true));
//! is_loaded(&rt, &tree, "/f", "/f NotAFile");
//! is_loaded(&rt, &tree, "/g", "/g NotFound");
//! ```
#![tactic(auto)]

mod folder;
mod folder_laws;
mod names;
mod order;
mod roots;
mod said;
mod search;
mod trail;
mod tree;
mod unit;
mod walk;

pub use folder::{can_be_included, folder_text};
pub use folder_laws::lines_include_their_paths;
pub use names::{is_passed_over, leaves_a_warning};
pub use order::put_in_byte_order;
pub use roots::{Roots, roots_of};
pub use said::{excerpt_if, place_if};
pub use search::{candidates, joined_path, searched_folders};
pub use trail::links_to;
pub use tree::{Content, Tree};
pub use unit::{
    Source, Unit, UnitFault, is_folder_at, node_named, node_of, paths_of, text_at, text_of_node,
};
pub use walk::{load, load_text, main_text};
