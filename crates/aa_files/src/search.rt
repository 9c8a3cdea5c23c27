//! Where an include is looked for.

ghost use Rattle.std.specs.Prelude.{◌≡◌, ◌++◌, ◌∷◌, [], codes, map, take, IfOk, if◌then◌else◌};
ghost use Rattle.aa_files.specs.Searches.{path_in, searched, named_before};
ghost use Rattle.aa_files.specs.Texts.{texts, slices};

use crate::names::has_ending;
use std::alloc::{AllocError, Global};

/// A name in a folder, with one slash between them.
pub fn joined_path(alloc: Global, folder: &[u8], name: &[u8]) -> Result<Vec<u8>, AllocError>
    ensures { IfOk result (λ path. path.items ≡ path_in folder.now name.now) }
{
    let mut path = Vec::from_slice(alloc, folder)?;
    if !has_ending(folder, "/".as_bytes()) {
        path.extend_from_slice("/".as_bytes())?;
    }
    path.extend_from_slice(name)?;
    Ok(path)
}

/// The folders in which a name in `< >` is searched: those that the command line names, in their order, and the base folder last.
pub fn searched_folders<'f>(
    alloc: Global,
    named: &[&'f [u8]],
    base: &'f [u8],
) -> Result<Vec<&'f [u8]>, AllocError>
    ensures { IfOk result (λ folders. slices folders.items ≡ named_before (slices named.entry.now) base.entry.now) }
{
    let mut folders = Vec::from_slice(alloc, named)?;
    folders.push(base)?;
    Ok(folders)
}

fn in_each(alloc: Global, name: &[u8], folders: &[&[u8]]) -> Result<Vec<Vec<u8>>, AllocError>
    ensures { IfOk result (λ paths. texts paths.items ≡ map (λ folder. path_in folder name.now) (slices folders.now)) }
{
    let mut paths = Vec::new(alloc);
    for folder in folders {
        paths.push(joined_path(alloc, folder, name)?)?;
    }
    Ok(paths)
}

fn just(alloc: Global, name: &[u8]) -> Result<Vec<Vec<u8>>, AllocError>
    ensures { IfOk result (λ paths. texts paths.items ≡ name.now ∷ []) }
{
    let mut paths = Vec::new(alloc);
    paths.push(Vec::from_slice(alloc, name)?)?;
    Ok(paths)
}

/// The paths at which an include's source may lie, the one that counts first: of a name in `< >` in each folder in turn, of a
/// name in quotes that path alone (apparmor.d(5), section `#include` mechanism). The first at which something lies decides.
pub fn candidates(
    alloc: Global,
    in_angles: bool,
    name: &[u8],
    folders: &[&[u8]],
) -> Result<Vec<Vec<u8>>, AllocError>
    ensures { IfOk result (λ paths. texts paths.items ≡ searched in_angles name.now (slices folders.now)) }
{
    if in_angles {
        in_each(alloc, name, folders)
    } else {
        just(alloc, name)
    }
}
