//! A folder that is included.

ghost use Rattle.std.specs.Prelude.{◌≡◌, ◌++◌, OnOk, IfOk, not};
ghost use Rattle.std.specs.List.{list_any};
ghost use Rattle.aa_files.specs.FolderNames.{passes_over};
ghost use Rattle.aa_files.specs.Searches.{path_in};
ghost use Rattle.aa_files.specs.Folders.{can_stand, include_line, folder_lines};
ghost use Rattle.aa_files.specs.Texts.{slices};
ghost use Rattle.aa_words.specs.Includes.{ends_include_name};

use crate::names::is_passed_over;
use crate::search::joined_path;
use std::alloc::{AllocError, Global};

fn ends_name(b: u8) -> bool
    ensures { result ≡ ends_include_name 34 b }
{
    b == b'"' || b == b'\n' || b == 0
}

fn has_name_end(path: &[u8]) -> bool
    ensures { result ≡ list_any (λ b. ends_include_name 34 b) path.now }
{
    path.iter().any(|b| ends_name(*b))
}

/// Whether a path can be included by a line of a folder's text: it has no quote, no line end and no zero byte.
pub fn can_be_included(path: &[u8]) -> bool
    ensures { result ≡ can_stand path.now }
{
    !has_name_end(path)
}

#[tactic(auto, unfolding(crate::specs::Folders::include_line))]
fn push_line(out: &mut Vec<u8>, path: &[u8]) -> Result<(), AllocError>
    ensures { OnOk result (out.new.items ≡ out.old.items ++ include_line path.now) }
{
    out.extend_from_slice("include \"".as_bytes())?;
    out.extend_from_slice(path)?;
    out.extend_from_slice("\"\n".as_bytes())
}

/// The text that a folder stands for where it is included: a line `include "FOLDER/NAME"` for each of these names in turn, but
/// for those that are passed over.
pub fn folder_text(alloc: Global, folder: &[u8], names: &[&[u8]]) -> Result<Vec<u8>, AllocError>
    ensures { IfOk result (λ text. text.items ≡ folder_lines folder.now (slices names.now)) }
{
    let mut out = Vec::new(alloc);
    for name in names {
        if !is_passed_over(name) {
            let path = joined_path(alloc, folder, name)?;
            push_line(&mut out, path.as_slice())?;
        }
    }
    Ok(out)
}
