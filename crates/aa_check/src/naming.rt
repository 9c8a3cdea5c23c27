//! Profiles whose names come twice.

ghost use Rattle.std.specs.Prelude.{◌≡◌, ◌++◌, ◌∷◌, [], Some, None, length, option_map, slice_get, OnOk, IfOk, if◌then◌else◌};
ghost use Rattle.aa_files.specs.Texts.{texts};
ghost use Rattle.aa_base.specs.FirstNumbers.{AddsName};
ghost use Rattle.aa_check.specs.Names.{first_with, twice_by, warning_of, warnings_of, IsFirst, AddsNames, IsWarned};

use crate::report::{FileReport, ProfileReport};
use aa_text::{push_name, push_text};
use std::alloc::{AllocError, Global};
use std::collections::HashMap;

/// The numbers of the files that have a profile of a name first.
pub(crate) type FirstFiles = HashMap<Vec<u8>, usize>;

/// Says that a file has a profile whose name one before it has.
#[tactic(auto, unfolding(crate::specs::Names::twice_text))]
fn twice(
    alloc: Global,
    file: &FileReport,
    name: &[u8],
    earlier: &FileReport,
) -> Result<Vec<u8>, AllocError>
    ensures { IfOk result (λ line. line.items ≡ twice_by file.now name.now earlier.now) }
{
    let mut line = Vec::from_slice(alloc, file.path.as_slice())?;
    push_text(&mut line, ": the profile ")?;
    push_name(&mut line, alloc, name)?;
    push_text(&mut line, " is in ")?;
    line.extend_from_slice(earlier.path.as_slice())?;
    push_text(&mut line, " too")?;
    Ok(line)
}

fn file_at(files: &[FileReport], number: usize) -> Option<&FileReport>
    ensures { option_map (λ f. f.now) result ≡ slice_get files.entry.now number }
{
    files.get(number)
}

/// The first file that has a profile of that name.
fn first_with<'f>(
    files: &'f [FileReport],
    first: &FirstFiles,
    name: &[u8],
) -> Option<&'f FileReport>
    requires { IsFirst first.now files.now }
    ensures { option_map (λ f. f.now) result ≡ first_with name.now files.entry.now }
{
    match first.get(name) {
        Some(number) => file_at(files, *number),
        None => None,
    }
}

/// Adds the warning of a profile, if one of the files before has a profile of its name.
fn push_warning(
    alloc: Global,
    files: &[FileReport],
    file: &FileReport,
    profile: &ProfileReport,
    first: &FirstFiles,
    warnings: &mut Vec<Vec<u8>>,
) -> Result<(), AllocError>
    requires { IsFirst first.now files.now }
    ensures { OnOk result (texts warnings.new.items ≡ texts warnings.old.items ++ warning_of files.now file.now profile.now) }
{
    let name = profile.name.as_slice();
    if let Some(earlier) = first_with(files, first, name) {
        warnings.push(twice(alloc, file, name, earlier)?)?;
    }
    Ok(())
}

/// A warning for each profile of a file whose name one of the files before has.
fn warnings_of(
    alloc: Global,
    files: &[FileReport],
    file: &FileReport,
    first: &FirstFiles,
) -> Result<Vec<Vec<u8>>, AllocError>
    requires { IsFirst first.now files.now }
    ensures { IfOk result (λ warnings. texts warnings.items ≡ warnings_of files.now file.now) }
{
    let mut warnings = Vec::new(alloc);
    for profile in &file.profiles {
        push_warning(alloc, files, file, profile, first, &mut warnings)?;
    }
    Ok(warnings)
}

/// Keeps which file has a profile of that name first.
fn add_name(
    alloc: Global,
    first: &mut FirstFiles,
    name: &[u8],
    number: usize,
) -> Result<(), AllocError>
    ensures { OnOk result (AddsName first.old name.now number first.new) }
{
    if first.contains_key(name) {
        return Ok(());
    }
    let _ = first.insert(Vec::from_slice(alloc, name)?, number)?;
    Ok(())
}

fn add_names(
    alloc: Global,
    first: &mut FirstFiles,
    profiles: &[ProfileReport],
    number: usize,
) -> Result<(), AllocError>
    ensures { OnOk result (AddsNames first.old profiles.now number first.new) }
{
    for profile in profiles {
        add_name(alloc, first, profile.name.as_slice(), number)?;
    }
    Ok(())
}

/// A file with its warnings of profiles whose names one of the files before has. Of each name `first` keeps which file has it first.
pub(crate) fn warned(
    alloc: Global,
    files: &[FileReport],
    file: FileReport,
    first: &mut FirstFiles,
) -> Result<FileReport, AllocError>
    requires { IsFirst first.old files.now }
    ensures warned { IfOk result (λ f. IsWarned files.now file f) }
    ensures known { IfOk result (λ f. IsFirst first.new (files.now ++ f ∷ [])) }
{
    let warnings = warnings_of(alloc, files, &file, first)?;
    add_names(alloc, first, file.profiles.as_slice(), files.len())?;
    Ok(FileReport { warnings, ..file })
}
