//! The files that the command line names.

ghost use Rattle.std.specs.Prelude.{◌≡◌, ◌++◌, ◌∷◌, [], ◌<◌, ◌≤◌, List, ℕ, Option, Some, is_some, vec_len, slice_get, codes, Contains, OnOk, IfOk, IfErr, IfSome, if◌then◌else◌};
ghost use Rattle.aa_files.specs.Searches.{path_in};
ghost use Rattle.aa_files.specs.FolderNames.{is_leftover};
ghost use Rattle.aa_files.specs.Texts.{texts};
ghost use Rattle.aa_files.specs.Files.{Files, Taken, listed};
ghost use Rattle.aa_files.specs.RootFaults.{looked_paths, IsFaultOf, IsArgumentFault, IsRootFault};
ghost use Rattle.aa_files.specs.Roots.{is_named_in, is_wanted, wanted_path, leftover_line, complain_line, warning_lines, folder_of, paths_among, lines_among, root_paths, root_lines};

use crate::names::{is_passed_over, leaves_a_warning};
use crate::search::joined_path;
use crate::tree::Tree;
use crate::unit::{UnitFault, fault_at};
use aa_base::Unread;
use std::alloc::{AllocError, Global};

/// The most files that a command line stands for.
const MAX_FILES: usize = 4096;

/// The files to be read, in order, and what people should know of those that aren't.
#[derive(Drop)]
pub struct Roots {
    pub paths: Vec<Vec<u8>>,
    pub warnings: Vec<Vec<u8>>,
}

/// Adds a line on a file, if that is so of it.
fn push_line_if(
    alloc: Global,
    is_so: bool,
    path: &[u8],
    what: &str,
    lines: &mut Vec<Vec<u8>>,
) -> Result<(), AllocError>
    ensures { OnOk result (texts lines.new.items ≡ texts lines.old.items ++ (if is_so then (path.now ++ what.now) ∷ [] else [])) }
{
    if !is_so {
        return Ok(());
    }
    let mut line = Vec::from_slice(alloc, path)?;
    line.extend_from_slice(what.as_bytes())?;
    lines.push(line)?;
    Ok(())
}

/// Says of a leftover that it is passed over.
fn warn_of_leftover(
    alloc: Global,
    path: &[u8],
    name: &[u8],
    lines: &mut Vec<Vec<u8>>,
) -> Result<(), AllocError>
    ensures { OnOk result (texts lines.new.items ≡ texts lines.old.items ++ leftover_line path.now name.now) }
{
    let what = ": passed over, by its name";
    push_line_if(alloc, leaves_a_warning(name), path, what, lines)
}

/// Whether something of that name lies in a folder of the base folder.
fn is_in<T: Tree>(
    alloc: Global,
    tree: &T,
    base: &[u8],
    folder: &str,
    name: &[u8],
) -> Result<bool, UnitFault>
    ensures told { IfOk result (λ b. IfSome (T.taken tree.now) (λ t. b ≡ is_named_in t base.now folder.now name.now)) }
    ensures fault { IfErr result (IsFaultOf (λ path. path ≡ path_in (path_in base.now folder.now) name.now) (λ _. ⊥)) }
{
    let inner = joined_path(alloc, base, folder.as_bytes())?;
    let path = joined_path(alloc, inner.as_slice(), name)?;
    match tree.is_taken(path.as_slice()) {
        Ok(is_taken) => Ok(is_taken),
        Err(why) => Err(fault_at(path, why)),
    }
}

/// Whether a folder's file is read: it isn't passed over by its name, and isn't disabled.
fn is_wanted<T: Tree>(alloc: Global, tree: &T, base: &[u8], name: &[u8]) -> Result<bool, UnitFault>
    ensures told { IfOk result (λ b. IfSome (T.taken tree.now) (λ t. b ≡ is_wanted t base.now name.now)) }
    ensures fault { IfErr result (IsFaultOf (Contains (looked_paths base.now name.now)) (λ _. ⊥)) }
{
    if is_passed_over(name) {
        return Ok(false);
    }
    Ok(!is_in(alloc, tree, base, "disable", name)?)
}

/// Says of a file that is read that its name in the base folder's `force-complain` changes nothing.
fn warn_of_complain<T: Tree>(
    alloc: Global,
    tree: &T,
    base: &[u8],
    path: &[u8],
    name: &[u8],
    lines: &mut Vec<Vec<u8>>,
) -> Result<(), UnitFault>
    ensures lines { OnOk result (IfSome (T.taken tree.now) (λ t. texts lines.new.items ≡ texts lines.old.items ++ complain_line t base.now path.now name.now)) }
    ensures fault { IfErr result (IsFaultOf (Contains (looked_paths base.now name.now)) (λ _. ⊥)) }
{
    let is_named = is_in(alloc, tree, base, "force-complain", name)?;
    let what = ": force-complain isn't applied, the text decides";
    push_line_if(alloc, is_named, path, what, lines)?;
    Ok(())
}

/// Adds a file that is read, unless there are too many.
fn push_path(path: Vec<u8>, roots: &mut Roots) -> Result<(), UnitFault>
    ensures added { OnOk result (roots.new.paths.items ≡ roots.old.paths.items ++ path ∷ []) }
    ensures warnings { OnOk result (roots.new.warnings.items ≡ roots.old.warnings.items) }
    ensures within { OnOk result (vec_len roots.old.paths < MAX_FILES) }
    ensures fault { IfErr result (IsFaultOf (λ _. ⊥) (λ at. (at ≡ path.items) × (MAX_FILES ≤ vec_len roots.old.paths))) }
{
    if roots.paths.len() >= MAX_FILES {
        return Err(fault_at(path, Unread::TooLarge));
    }
    roots.paths.push(path)?;
    Ok(())
}

/// Adds a folder's file that is read.
fn push_wanted<T: Tree>(
    alloc: Global,
    tree: &T,
    base: &[u8],
    path: Vec<u8>,
    name: &[u8],
    roots: &mut Roots,
) -> Result<(), UnitFault>
    ensures few { OnOk result (vec_len roots.new.paths ≤ MAX_FILES) }
    ensures paths { OnOk result (texts roots.new.paths.items ≡ texts roots.old.paths.items ++ path.items ∷ []) }
    ensures warnings { OnOk result (IfSome (T.taken tree.now) (λ t. texts roots.new.warnings.items ≡ texts roots.old.warnings.items ++ complain_line t base.now path.items name.now)) }
    ensures fault { IfErr result (IsFaultOf (Contains (looked_paths base.now name.now)) (λ at. (at ≡ path.items) × (MAX_FILES ≤ vec_len roots.old.paths))) }
{
    warn_of_complain(
        alloc,
        tree,
        base,
        path.as_slice(),
        name,
        &mut roots.warnings,
    )?;
    push_path(path, roots)
}

/// Adds a folder's file, if it is read, and what people should know of it.
fn push_file<T: Tree>(
    alloc: Global,
    tree: &T,
    base: &[u8],
    folder: &[u8],
    name: &[u8],
    roots: &mut Roots,
) -> Result<(), UnitFault>
    ensures few { OnOk result (vec_len roots.old.paths ≤ MAX_FILES → vec_len roots.new.paths ≤ MAX_FILES) }
    ensures paths { OnOk result (IfSome (T.taken tree.now) (λ t. texts roots.new.paths.items ≡ texts roots.old.paths.items ++ wanted_path t base.now folder.now name.now)) }
    ensures warnings { OnOk result (IfSome (T.taken tree.now) (λ t. texts roots.new.warnings.items ≡ texts roots.old.warnings.items ++ warning_lines t base.now folder.now name.now)) }
    ensures fault { vec_len roots.old.paths ≤ MAX_FILES → IfErr result (IsFaultOf (Contains (looked_paths base.now name.now))
        (λ at. IfSome (T.taken tree.now) (λ t. slice_get (texts roots.old.paths.items ++ wanted_path t base.now folder.now name.now) MAX_FILES ≡ Some at))) }
{
    let path = joined_path(alloc, folder, name)?;
    warn_of_leftover(alloc, path.as_slice(), name, &mut roots.warnings)?;
    let is_read = is_wanted(alloc, tree, base, name)?;
    if is_read {
        Ok(push_wanted(alloc, tree, base, path, name, roots)?)
    } else {
        Ok(())
    }
}

fn push_folder<T: Tree>(
    alloc: Global,
    tree: &T,
    base: &[u8],
    folder: &[u8],
    roots: &mut Roots,
) -> Result<(), UnitFault>
    ensures few { OnOk result (vec_len roots.old.paths ≤ MAX_FILES → vec_len roots.new.paths ≤ MAX_FILES) }
    ensures paths { OnOk result (IfSome (T.files tree.now) (λ f. IfSome (T.taken tree.now) (λ t. texts roots.new.paths.items ≡ texts roots.old.paths.items ++ paths_among t base.now folder.now (listed (f folder.now))))) }
    ensures warnings { OnOk result (IfSome (T.files tree.now) (λ f. IfSome (T.taken tree.now) (λ t. texts roots.new.warnings.items ≡ texts roots.old.warnings.items ++ lines_among t base.now folder.now (listed (f folder.now))))) }
    ensures fault { vec_len roots.old.paths ≤ MAX_FILES → IfErr result (IsArgumentFault (T.files tree.now) (T.taken tree.now) (λ a f. listed (f a)) base.now folder.now (texts roots.old.paths.items)) }
{
    let names = match tree.names_in(alloc, folder) {
        Ok(names) => names,
        Err(why) => return Err(fault_at(Vec::from_slice(alloc, folder)?, why)),
    };
    for name in &names {
        push_file(alloc, tree, base, folder, name.as_slice(), roots)?;
    }
    Ok(())
}

/// Whether an argument stands for the files in a folder. What can't be looked at is taken for a file, and refused when it is read.
fn is_for_files<T: Tree>(tree: &T, argument: &[u8]) -> Result<bool, UnitFault>
    ensures told { IfOk result (λ b. IfSome (T.files tree.now) (λ f. b ≡ is_some (folder_of f argument.now))) }
    ensures fault { IfErr result (λ why. why ≡ UnitFault.NoMemory) }
{
    if argument == "-".as_bytes() {
        return Ok(false);
    }
    match tree.is_folder(argument) {
        Ok(is_folder) => Ok(is_folder),
        Err(Unread::NoMemory) => Err(UnitFault::NoMemory),
        Err(_) => Ok(false),
    }
}

/// Adds the files that an argument stands for.
fn push_argument<T: Tree>(
    alloc: Global,
    tree: &T,
    base: &[u8],
    argument: &[u8],
    roots: &mut Roots,
) -> Result<(), UnitFault>
    ensures few { OnOk result (vec_len roots.old.paths ≤ MAX_FILES → vec_len roots.new.paths ≤ MAX_FILES) }
    ensures paths { OnOk result (IfSome (T.files tree.now) (λ f. IfSome (T.taken tree.now) (λ t. texts roots.new.paths.items ≡ texts roots.old.paths.items ++ paths_among t base.now argument.now (folder_of f argument.now)))) }
    ensures warnings { OnOk result (IfSome (T.files tree.now) (λ f. IfSome (T.taken tree.now) (λ t. texts roots.new.warnings.items ≡ texts roots.old.warnings.items ++ lines_among t base.now argument.now (folder_of f argument.now)))) }
    ensures fault { vec_len roots.old.paths ≤ MAX_FILES → IfErr result (IsArgumentFault (T.files tree.now) (T.taken tree.now) (λ a f. folder_of f a) base.now argument.now (texts roots.old.paths.items)) }
{
    if is_for_files(tree, argument)? {
        push_folder(alloc, tree, base, argument, roots)
    } else {
        push_path(Vec::from_slice(alloc, argument)?, roots)
    }
}

/// The files that these arguments stand for: a folder stands for those directly in it, in byte order of their names, without those
/// that are passed over or disabled in the base folder. A file that is named itself is read in any case; `-` is standard input. The
/// first file beyond 4,096 is refused as too large.
pub fn roots_of<T: Tree>(
    alloc: Global,
    tree: &T,
    base: &[u8],
    arguments: &[Vec<u8>],
) -> Result<Roots, UnitFault>
    ensures few { IfOk result (λ roots. vec_len roots.paths ≤ MAX_FILES) }
    ensures paths { IfOk result (λ roots. IfSome (T.files tree.now) (λ f. IfSome (T.taken tree.now) (λ t. texts roots.paths.items ≡ root_paths f t base.now (texts arguments.now)))) }
    ensures warnings { IfOk result (λ roots. IfSome (T.files tree.now) (λ f. IfSome (T.taken tree.now) (λ t. texts roots.warnings.items ≡ root_lines f t base.now (texts arguments.now)))) }
    ensures fault { IfErr result (IsRootFault (T.files tree.now) (T.taken tree.now) base.now (texts arguments.now)) }
{
    let mut roots = Roots {
        paths: Vec::new(alloc),
        warnings: Vec::new(alloc),
    };
    for argument in arguments {
        push_argument(alloc, tree, base, argument.as_slice(), &mut roots)?;
    }
    Ok(roots)
}
