//! A main text with all that it includes, breadth first.

ghost use Rattle.std.specs.Prelude.{◌≡◌, ◌≢◌, ◌+◌, Option, Some, None, option_map, IfOk, IfErr, OnOk, MatchOption, IfSome, Contains, slice_get, slice_index_or};
ghost use Rattle.std.specs.List.{list_any};
ghost use Rattle.std.specs.Str.{bytes_eq};
ghost use Rattle.std.specs.BTreeMap.{IsOrdered, insert_entry};
ghost use Rattle.aa_files.specs.Texts.{texts, slices};
ghost use Rattle.aa_files.specs.FilesData.{read, IsMain, IsMainText};
ghost use Rattle.aa_files.specs.Walks.{Entry, by_bytes, known_of, walked_texts, LiesAt, NothingAt, in_order};
ghost use Rattle.aa_files.specs.WalkData.{asked, wanted_data, wants, AreWanted, IsAdded, LooksUp, IsWalkedTo, IsUnit};
ghost use Rattle.aa_files.specs.UnitFaults.{IsLookFault, IsLookUpFault, IsWalkFault, IsLoadFault};
ghost use Rattle.aa_words.specs.FoundData.{include_data};

use crate::said::ambiguous;
use crate::tree::{Found, Tree, what_lies_at};
use crate::unit::{Source, Unit, UnitFault, fault_at, paths_of};
use aa_base::Unread;
use aa_words::{IncludeAt, includes_of};
use std::alloc::{AllocError, Global};
use std::collections::BTreeMap;

/// The most sources of a unit.
const MAX_SOURCES: usize = 4095;

/// A name that is included, and the paths at which its source may lie.
#[derive(Drop)]
struct Wanted {
    /// Its include's first byte.
    byte: usize,
    name: Vec<u8>,
    paths: Vec<Vec<u8>>,
}

fn wanted_at(
    alloc: Global,
    include: &IncludeAt<'_>,
    folders: &[&[u8]],
) -> Result<Wanted, AllocError>
    ensures { IfOk result (λ w. wanted_data w ≡ wants (slices folders.now) (include_data include.now)) }
{
    Ok(Wanted {
        byte: include.byte,
        name: Vec::from_slice(alloc, include.name())?,
        paths: paths_of(alloc, include, folders)?,
    })
}

/// What the includes of a text want.
fn wanted_by(alloc: Global, text: &[u8], folders: &[&[u8]]) -> Result<Vec<Wanted>, AllocError>
    ensures { IfOk result (λ ws. AreWanted (slices folders.now) text.now ws.items) }
{
    let includes = includes_of(alloc, text)?;
    let mut wanted = Vec::new(alloc);
    for include in &includes {
        wanted.push(wanted_at(alloc, include, folders)?)?;
    }
    Ok(wanted)
}

/// The text of a number: 0 is the main text, and the sources count from 1 in the order in which they were found.
fn walked_text(unit: &Unit, number: usize) -> &[u8]
    ensures { result.now ≡ slice_index_or (walked_texts unit.now.text.items unit.now.sources.items) number unit.now.text.items }
{
    if number == 0 {
        return unit.text.as_slice();
    }
    match unit.sources.get(number - 1) {
        Some(source) => source.text.as_slice(),
        None => unit.text.as_slice(),
    }
}

/// What lies at the first of the paths at which something lies.
fn first_found<T: Tree>(
    alloc: Global,
    tree: &T,
    paths: Vec<Vec<u8>>,
) -> Result<Option<(Vec<u8>, Found)>, UnitFault>
    ensures found { IfOk result (λ found. MatchOption found (NothingAt (T.files tree.now) (texts paths.items))
        (λ f. LiesAt (T.files tree.now) (texts paths.items) f.0.items (read f.1))) }
    ensures fault { IfErr result (IsLookFault (texts paths.items)) }
{
    for path in paths {
        match what_lies_at(alloc, tree, path.as_slice()) {
            Ok(found) => return Ok(Some((path, found))),
            Err(why) => match why {
                Unread::NotFound => {}
                _ => return Err(fault_at(path, why)),
            },
        }
    }
    Ok(None)
}

fn has_path(paths: &[Vec<u8>], path: &[u8]) -> bool
    ensures { result ≡ list_any (λ one. bytes_eq one.items path.now) paths.now }
{
    paths.iter().any(|one| one.as_slice() == path)
}

/// The path of what was found.
fn path_of(found: &Option<(Vec<u8>, Found)>) -> Option<&[u8]>
    ensures { option_map (λ p. p.now) result ≡ option_map (λ f. f.0.items) found.now }
{
    match found {
        Some((path, _)) => Some(path.as_slice()),
        None => None,
    }
}

/// Refuses a name with a source that doesn't lie where the form in which it is wanted now looks.
fn check_known<T: Tree>(
    alloc: Global,
    tree: &T,
    unit: &Unit,
    node: usize,
    index: usize,
    wanted: Wanted,
) -> Result<(), UnitFault>
    requires { known_of unit.now.known.entries wanted.name.items ≡ Some (Some index) }
    ensures agrees { OnOk result (IfSome (slice_get unit.now.sources.items index) (λ s. Contains (texts wanted.paths.items) s.path.items)) }
    ensures fault { IfErr result (IsLookUpFault (T.files tree.now) unit.now node wanted.byte (asked wanted)) }
{
    let Some(source) = unit.sources.get(index) else {
        return Ok(());
    };
    if has_path(wanted.paths.as_slice(), source.path.as_slice()) {
        return Ok(());
    }
    let byte = wanted.byte;
    let found = first_found(alloc, tree, wanted.paths)?;
    let (before, here) = (Some(source.path.as_slice()), path_of(&found));
    let fault = ambiguous(alloc, unit, node, byte, before, here)?;
    Err(UnitFault::Ambiguous(fault))
}

/// Refuses a name without a source where the form in which it is wanted now finds one.
fn check_missing<T: Tree>(
    alloc: Global,
    tree: &T,
    unit: &Unit,
    node: usize,
    wanted: Wanted,
) -> Result<(), UnitFault>
    requires { known_of unit.now.known.entries wanted.name.items ≡ Some None }
    ensures agrees { OnOk result (NothingAt (T.files tree.now) (texts wanted.paths.items)) }
    ensures fault { IfErr result (IsLookUpFault (T.files tree.now) unit.now node wanted.byte (asked wanted)) }
{
    let byte = wanted.byte;
    match first_found(alloc, tree, wanted.paths)? {
        Some((path, _)) => {
            let here = Some(path.as_slice());
            let fault = ambiguous(alloc, unit, node, byte, None, here)?;
            Err(UnitFault::Ambiguous(fault))
        }
        None => Ok(()),
    }
}

/// Enters a name that has no source.
fn enter_missing(unit: &mut Unit, name: Vec<u8>) -> Result<(), AllocError>
    ensures path { unit.new.path.items ≡ unit.old.path.items }
    ensures text { unit.new.text.items ≡ unit.old.text.items }
    ensures sources { unit.new.sources.items ≡ unit.old.sources.items }
    ensures entries { OnOk result (unit.new.known.entries ≡ insert_entry by_bytes unit.old.known.entries name None) }
{
    let _ = unit.known.insert(name, None)?;
    Ok(())
}

/// The text of what was found, and whether it stands for a folder.
fn text_of(found: Found) -> (Vec<u8>, bool)
    ensures text { result.0.items ≡ (read found).0 }
    ensures folder { result.1 ≡ (read found).1 }
{
    match found {
        Found::Text(text) => (text, false),
        Found::Folder(text) => (text, true),
    }
}

/// Enters a name with its source.
fn enter_source(
    unit: &mut Unit,
    name: Vec<u8>,
    path: Vec<u8>,
    found: Found,
) -> Result<(), UnitFault>
    ensures path { OnOk result (unit.new.path.items ≡ unit.old.path.items) }
    ensures text { OnOk result (unit.new.text.items ≡ unit.old.text.items) }
    ensures fault { IfErr result (λ e. e ≢ UnitFault.NoMemory → e ≡ UnitFault.At path Unread.TooLarge) }
    ensures added { OnOk result (IsAdded name.items path.items (read found) unit.old.sources.items unit.old.known.entries unit.new.sources.items unit.new.known.entries) }
{
    if unit.sources.len() >= MAX_SOURCES {
        return Err(fault_at(path, Unread::TooLarge));
    }
    let (text, is_folder) = text_of(found);
    let key = name.clone()?;
    let _ = unit.known.insert(key, Some(unit.sources.len()))?;
    unit.sources.push(Source {
        name,
        path,
        text,
        is_folder,
    })?;
    Ok(())
}

/// Looks for the source of a name that isn't known.
fn look_up_new<T: Tree>(
    alloc: Global,
    tree: &T,
    unit: &mut Unit,
    wanted: Wanted,
) -> Result<(), UnitFault>
    requires { known_of unit.old.known.entries wanted.name.items ≡ None }
    ensures adds { OnOk result (LooksUp (T.files tree.now) (asked wanted) unit.old unit.new) }
    ensures fault { IfErr result (IsLookFault (texts wanted.paths.items)) }
{
    let Wanted { name, paths, .. } = wanted;
    match first_found(alloc, tree, paths)? {
        Some((path, found)) => Ok(enter_source(unit, name, path, found)?),
        None => Ok(enter_missing(unit, name)?),
    }
}

/// Looks for the source of a name that a node includes, unless that was done before.
fn look_up<T: Tree>(
    alloc: Global,
    tree: &T,
    unit: &mut Unit,
    node: usize,
    wanted: Wanted,
) -> Result<(), UnitFault>
    ensures adds { OnOk result (LooksUp (T.files tree.now) (asked wanted) unit.old unit.new) }
    ensures fault { IfErr result (IsLookUpFault (T.files tree.now) unit.old node wanted.byte (asked wanted)) }
{
    let known = unit.known.get(wanted.name.as_slice()).copied();
    match known {
        Some(Some(index)) => check_known(alloc, tree, unit, node, index, wanted),
        Some(None) => check_missing(alloc, tree, unit, node, wanted),
        None => look_up_new(alloc, tree, unit, wanted),
    }
}

/// Looks for the sources of all names that a text of the unit includes: number 0 is the main text.
fn walk_text<T: Tree>(
    alloc: Global,
    tree: &T,
    folders: &[&[u8]],
    unit: &mut Unit,
    number: usize,
) -> Result<(), UnitFault>
    requires { IsWalkedTo (T.files tree.now) (slices folders.now) unit.old.path.items unit.old.text.items number unit.old }
    ensures walked { OnOk result (IsWalkedTo (T.files tree.now) (slices folders.now) unit.old.path.items unit.old.text.items (number + 1) unit.new) }
    ensures fault { IfErr result (λ e. e ≢ UnitFault.NoMemory → IsWalkFault (T.files tree.now) (slices folders.now) unit.old.path.items unit.old.text.items e) }
{
    if number > unit.sources.len() {
        return Ok(());
    }
    let wanted = wanted_by(alloc, walked_text(unit, number), folders)?;
    for one in wanted {
        look_up(alloc, tree, unit, number, one)?;
    }
    Ok(())
}

/// The sources in byte order of their names.
fn ordered(
    alloc: Global,
    known: &BTreeMap<Vec<u8>, Option<usize>>,
) -> Result<Vec<usize>, AllocError>
    ensures sorted { IsOrdered by_bytes known.now }
    ensures order { IfOk result (λ order. order.items ≡ in_order known.now.entries) }
{
    let mut order = Vec::new(alloc);
    for index in known.values() {
        if let Some(index) = index {
            order.push(*index)?;
        }
    }
    Ok(order)
}

/// A main text with all that it includes, breadth first.
pub fn load_text<T: Tree>(
    alloc: Global,
    tree: &T,
    folders: &[&[u8]],
    path: Vec<u8>,
    text: Vec<u8>,
) -> Result<Unit, UnitFault>
    ensures unit { IfOk result (λ unit. IsUnit (T.files tree.now) (slices folders.now) path.items text.items unit) }
    ensures fault { IfErr result (λ e. e ≢ UnitFault.NoMemory → IsWalkFault (T.files tree.now) (slices folders.now) path.items text.items e) }
{
    let mut unit = Unit {
        path,
        text,
        sources: Vec::new(alloc),
        known: BTreeMap::new(alloc),
        order: Vec::new(alloc),
    };
    for number in 0..MAX_SOURCES + 1 {
        walk_text(alloc, tree, folders, &mut unit, number)?;
    }
    unit.order = ordered(alloc, &unit.known)?;
    Ok(unit)
}

/// The text of a file; the path `-` is standard input.
pub fn main_text<T: Tree>(alloc: Global, tree: &T, path: &[u8]) -> Result<Vec<u8>, Unread>
    ensures { IsMain (T.files tree.now) (T.input tree.now) path.now result }
{
    if path == "-".as_bytes() {
        return tree.input_text(alloc);
    }
    match what_lies_at(alloc, tree, path)? {
        Found::Text(text) => Ok(text),
        Found::Folder(_) => Err(Unread::NotAFile),
    }
}

/// Reads a file, and breadth first all that it includes. The path `-` is standard input.
pub fn load<T: Tree>(
    alloc: Global,
    tree: &T,
    folders: &[&[u8]],
    path: &[u8],
) -> Result<Unit, UnitFault>
    ensures main { IfOk result (λ unit. IsMainText (T.files tree.now) (T.input tree.now) path.now unit.text.items) }
    ensures unit { IfOk result (λ unit. IsUnit (T.files tree.now) (slices folders.now) path.now unit.text.items unit) }
    ensures fault { IfErr result (λ e. e ≢ UnitFault.NoMemory → IsLoadFault (T.files tree.now) (T.input tree.now) (slices folders.now) path.now e) }
{
    let path = Vec::from_slice(alloc, path)?;
    match main_text(alloc, tree, path.as_slice()) {
        Ok(text) => load_text(alloc, tree, folders, path, text),
        Err(why) => Err(fault_at(path, why)),
    }
}
