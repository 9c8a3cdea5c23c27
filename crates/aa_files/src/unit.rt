//! A file of the command line with all that it includes.

ghost use Rattle.std.specs.Prelude.{◌≡◌, ◌-◌, ◌==◌, None, option_map, slice_get, IfOk, if◌then◌else◌};
ghost use Rattle.aa_words.specs.Includes.{included_name};
ghost use Rattle.aa_files.specs.Texts.{texts, slices};
ghost use Rattle.aa_files.specs.Searches.{searched};
ghost use Rattle.aa_files.specs.Names.{opens_name, names_in_angles};
ghost use Rattle.aa_files.specs.UnitFaults.{fault_of};
ghost use Rattle.aa_files.specs.Numbers.{source_in_unit, path_in, text_in};
ghost use Rattle.aa_files.specs.Nodes.{source_of_node, path_of_node, text_of_node, is_folder_node, is_folder_in, node_among, node_in, node_named};

use crate::search::candidates;
use aa_base::Unread;
use aa_text::FaultReport;
use aa_words::IncludeAt;
use std::alloc::{AllocError, AllocFailed, Global};
use std::collections::BTreeMap;

/// A source that is included.
#[derive(Drop)]
pub struct Source {
    pub name: Vec<u8>,
    pub path: Vec<u8>,
    pub text: Vec<u8>,
    /// Whether it stands for a folder.
    pub is_folder: bool,
}

/// A main text with its sources, in the order in which they were found.
#[derive(Drop)]
pub struct Unit {
    /// The path of the main text; `-` for standard input.
    pub path: Vec<u8>,
    pub text: Vec<u8>,
    pub sources: Vec<Source>,
    /// Which source has a name, if something lies at one of its paths.
    pub known: BTreeMap<Vec<u8>, Option<usize>>,
    /// The sources by the numbers that places in the policy have, from 1: in byte order of their names.
    pub order: Vec<usize>,
}

/// Why a unit can't be read.
#[derive(Drop)]
pub enum UnitFault {
    NoMemory,
    /// What lies at this path.
    At { path: Vec<u8>, why: Unread },
    /// A name stands for two sources.
    Ambiguous(FaultReport),
}

impl From<AllocError> for UnitFault {
    ghost use Rattle.aa_files.specs.declared.unit.UnitFault.TheVariants.{NoMemory};

    ghost from_gives = { λ _ e. e ≡ NoMemory };

    fn from(_e: AllocError) -> UnitFault {
        UnitFault::NoMemory
    }
}

impl<T: Drop> From<AllocFailed<T>> for UnitFault {
    ghost use Rattle.aa_files.specs.declared.unit.UnitFault.TheVariants.{NoMemory};

    ghost from_gives = { λ _ e. e ≡ NoMemory };

    fn from(_e: AllocFailed<T>) -> UnitFault {
        UnitFault::NoMemory
    }
}

/// Why what lies at a path can't be read.
pub(crate) fn fault_at(path: Vec<u8>, why: Unread) -> UnitFault
    ensures { result ≡ fault_of path why }
{
    match why {
        Unread::NoMemory => UnitFault::NoMemory,
        _ => UnitFault::At { path, why },
    }
}

fn opens_name(b: u8) -> bool
    ensures { result ≡ opens_name b }
{
    b == b'<' || b == b'"'
}

/// Whether an include's name stands in `< >`.
fn is_in_angles(include: &[u8]) -> bool
    ensures { result ≡ names_in_angles include.now }
{
    let mut rest = include;
    while let [b, after @ ..] = rest {
        if opens_name(*b) {
            return *b == b'<';
        }
        rest = after;
    }
    false
}

/// The paths at which an include's source may lie.
pub fn paths_of(
    alloc: Global,
    include: &IncludeAt<'_>,
    folders: &[&[u8]],
) -> Result<Vec<Vec<u8>>, AllocError>
    ensures { IfOk result (λ paths. texts paths.items ≡ searched (names_in_angles include.now.text.now) (included_name include.now.text.now) (slices folders.now)) }
{
    candidates(alloc, is_in_angles(include.text), include.name(), folders)
}

/// The source of a node; none where that is the main text. Node 0 is the main text, and node `n + 1` the source `n`.
fn source_of_node(unit: &Unit, node: usize) -> Option<&Source>
    ensures { option_map (λ s. s.now) result ≡ source_of_node unit.now node }
{
    if node == 0 {
        return None;
    }
    unit.sources.get(node - 1)
}

/// The path of a node, its text, and whether it stands for a folder.
pub fn text_of_node(unit: &Unit, node: usize) -> (&[u8], &[u8], bool)
    ensures path { result.0.now ≡ path_of_node unit.now node }
    ensures text { result.1.now ≡ text_of_node unit.now node }
    ensures folder { result.2 ≡ is_folder_node unit.now node }
{
    match source_of_node(unit, node) {
        Some(source) => (
            source.path.as_slice(),
            source.text.as_slice(),
            source.is_folder,
        ),
        None => (unit.path.as_slice(), unit.text.as_slice(), false),
    }
}

/// The number of a source among those of the unit, by the number that places in the policy have.
fn index_of(order: &[usize], number: u16) -> Option<usize>
    ensures { result ≡ (if number == 0 then None else slice_get order.now (number - 1)) }
{
    if number == 0 {
        return None;
    }
    order.get(number as usize - 1).copied()
}

/// The source of a number that places in the policy have; none where that is the main text's.
fn source_at(unit: &Unit, number: u16) -> Option<&Source>
    ensures { option_map (λ s. s.now) result ≡ source_in_unit unit.now number }
{
    match index_of(unit.order.as_slice(), number) {
        Some(index) => unit.sources.get(index),
        None => None,
    }
}

/// The node of the source of that number, if there are so many.
fn node_among(count: usize, number: usize) -> Option<usize>
    ensures { result ≡ node_among count number }
{
    if number < count {
        Some(number + 1)
    } else {
        None
    }
}

/// The node of a number that places have: 0 is the main text's, and the sources count from 1 in byte order of their names.
pub fn node_of(unit: &Unit, number: u16) -> usize
    ensures { result ≡ node_in unit.now number }
{
    match index_of(unit.order.as_slice(), number) {
        Some(index) => node_among(unit.sources.len(), index).unwrap_or(0),
        None => 0,
    }
}

/// The path and the text of a file of a unit, by the number that places in it have.
pub fn text_at(unit: &Unit, number: u16) -> (&[u8], &[u8])
    ensures path { result.0.now ≡ path_in unit.now number }
    ensures text { result.1.now ≡ text_in unit.now number }
{
    match source_at(unit, number) {
        Some(source) => (source.path.as_slice(), source.text.as_slice()),
        None => (unit.path.as_slice(), unit.text.as_slice()),
    }
}

/// Whether a number that places have is that of a source that stands for a folder.
pub fn is_folder_at(unit: &Unit, number: u16) -> bool
    ensures { result ≡ is_folder_in unit.now number }
{
    match source_at(unit, number) {
        Some(source) => source.is_folder,
        None => false,
    }
}

/// The node of the source that a name leads to, if something lies at one of its paths.
pub fn node_named(unit: &Unit, name: &[u8]) -> Option<usize>
    ensures { result ≡ node_named unit.now name.now }
{
    match unit.known.get(name).copied() {
        Some(Some(index)) => node_among(unit.sources.len(), index),
        _ => None,
    }
}
