//! What several files include, taken together.

ghost use Rattle.std.specs.Prelude.{◌≡◌, find, map, option_map, OnOk, IfOk, IfErr};
ghost use Rattle.std.specs.Ordering.{nat_cmp};
ghost use Rattle.std.specs.Cmp.Lexicographic.{slice_cmp};
ghost use Rattle.std.specs.BTreeMap.{IsOrdered};
ghost use Rattle.std.specs.Str.{bytes_eq};
ghost use Rattle.aa_words.specs.Includes.{included_name};
ghost use Rattle.aa_job.specs.Shared.{source_of, is_same, found_source, meant, told, spot_byte, last_file, sources_in, IsFirstByte, IsFirstInclude, IsAmbiguous, NamedIn, AddsName, NameStays, AddsNames, IsOtherwise, AreShared, IsTakenOtherwise};

use aa_base::{PolicyFault, PolicyKind, Spot};
use aa_diagnostics::describe;
use aa_files::{Source, Unit, UnitFault, text_at};
use aa_text::{FaultReport, push_text};
use aa_words::{IncludeAt, includes_of};
use std::alloc::{AllocError, Global};
use std::collections::BTreeMap;

/// What a name stands for in the first unit that includes it.
#[derive(Clone, Copy)]
struct Meaning<'u> {
    unit: &'u Unit,
    /// None where nothing lies at its paths.
    source: Option<&'u Source>,
}

/// Whether a name stands for one text in two units, or for none in both.
fn is_same(first: Option<&Source>, second: Option<&Source>) -> bool
    ensures { result ≡ is_same (found_source first.entry) (found_source second.entry) }
{
    match (first, second) {
        (None, None) => true,
        (Some(first), Some(second)) => first.text.as_slice() == second.text.as_slice(),
        _ => false,
    }
}

fn is_of(include: &IncludeAt<'_>, name: &[u8]) -> bool
    ensures { result ≡ bytes_eq (included_name include.now.text.now) name.now }
{
    include.name() == name
}

/// The first include of a name.
fn first_of<'i, 's>(includes: &'i [IncludeAt<'s>], name: &[u8]) -> Option<&'i IncludeAt<'s>>
    ensures { option_map (λ i. i.now) result ≡ find (λ i. bytes_eq (included_name i.text.now) name.now) includes.entry.now }
{
    includes.iter().find(|include| is_of(include, name))
}

fn byte_of(include: Option<&IncludeAt<'_>>) -> Option<usize>
    ensures { result ≡ option_map (λ i. i.byte) (option_map (λ i. i.now) include.entry) }
{
    include.map(|include| include.byte)
}

/// The first byte of the first include of a name in a text.
fn first_byte(alloc: Global, text: &[u8], name: &[u8]) -> Result<Option<usize>, AllocError>
    ensures { IfOk result (IsFirstByte text.now name.now) }
{
    let includes = includes_of(alloc, text)?;
    Ok(byte_of(first_of(includes.as_slice(), name)))
}

/// A byte as a place has it.
fn spot_byte(byte: usize) -> u32
    ensures { result ≡ spot_byte byte }
{
    u32::try_from(byte).unwrap_or(0)
}

/// The number of the last text of a unit.
fn last_file(unit: &Unit) -> u16
    ensures { result ≡ last_file unit.now }
{
    u16::try_from(unit.sources.len()).unwrap_or(u16::MAX)
}

/// Where a unit first includes a name: in its main text, or else in its sources by their names.
fn first_include(alloc: Global, unit: &Unit, name: &[u8]) -> Result<Spot, AllocError>
    ensures { IfOk result (IsFirstInclude unit.now name.now) }
{
    for file in 0..=last_file(unit) {
        let (_, text) = text_at(unit, file);
        if let Some(byte) = first_byte(alloc, text, name)? {
            return Ok(Spot {
                file,
                byte: spot_byte(byte),
            });
        }
    }
    Ok(Spot { file: 0, byte: 0 })
}

/// How two units take a name.
fn said(alloc: Global, known: Meaning<'_>, source: Option<&Source>) -> Result<Vec<u8>, AllocError>
    ensures { IfOk result (λ message. message.items ≡ told known.entry.unit.now.path.items (found_source known.entry.source) (found_source source.entry)) }
{
    let mut message = Vec::new(alloc);
    match (known.source, source) {
        (Some(first), Some(second)) => {
            message.extend_from_slice(first.path.as_slice())?;
            push_text(&mut message, " and ")?;
            message.extend_from_slice(second.path.as_slice())?;
            push_text(&mut message, " both have this name")?;
        }
        (None, Some(second)) => {
            message.extend_from_slice(second.path.as_slice())?;
            push_text(&mut message, " has this name, and nothing has it for ")?;
            message.extend_from_slice(known.unit.path.as_slice())?;
        }
        (Some(first), None) => {
            push_text(&mut message, "nothing has this name here, and ")?;
            message.extend_from_slice(first.path.as_slice())?;
            push_text(&mut message, " has it for ")?;
            message.extend_from_slice(known.unit.path.as_slice())?;
        }
        (None, None) => {}
    }
    Ok(message)
}

/// What is said of a name that a unit takes otherwise than one before it.
fn ambiguous(
    alloc: Global,
    known: Meaning<'_>,
    unit: &Unit,
    name: &[u8],
    source: Option<&Source>,
) -> Result<FaultReport, AllocError>
    ensures { IfOk result (IsAmbiguous unit.now name.now (told known.entry.unit.now.path.items (found_source known.entry.source) (found_source source.entry))) }
{
    let at = first_include(alloc, unit, name)?;
    // (the place and the way to it are told alike of every fault of an include)
    let kind = PolicyKind::IncludeDepth;
    let mut report = describe(alloc, &[], 0, unit, PolicyFault { kind, at })?;
    report.kind = "AmbiguousInclude";
    report.message = said(alloc, known, source)?;
    Ok(report)
}

/// The source of that number, if it is one.
fn source_at(sources: &[Source], index: Option<usize>) -> Option<&Source>
    ensures { found_source result ≡ source_of sources.now index }
{
    match index {
        Some(index) => sources.get(index),
        None => None,
    }
}

/// Adds a name of a unit, unless it stands for something else already.
fn add_name<'u>(
    alloc: Global,
    unit: &'u Unit,
    name: &'u [u8],
    source: Option<&'u Source>,
    meanings: &mut BTreeMap<&'u [u8], Meaning<'u>>,
) -> Result<(), UnitFault>
    ensures ok { OnOk result (AddsName name.now (record { by = unit.now; source = found_source source.entry }) meanings.old.entries meanings.new.entries) }
    ensures refused { IfErr result (NamedIn (NameStays name.now (record { by = unit.now; source = found_source source.entry }) meanings.old.entries)) }
{
    match meanings.get(name) {
        Some(known) if is_same(known.source, source) => Ok(()),
        Some(known) => {
            let fault = ambiguous(alloc, *known, unit, name, source)?;
            Err(UnitFault::Ambiguous(fault))
        }
        None => {
            let _ = meanings.insert(name, Meaning { unit, source })?;
            Ok(())
        }
    }
}

/// Adds the names of a unit, unless one stands for something else already.
fn add_names<'u>(
    alloc: Global,
    unit: &'u Unit,
    meanings: &mut BTreeMap<&'u [u8], Meaning<'u>>,
) -> Result<(), UnitFault>
    ensures ok { OnOk result (AddsNames unit.now meanings.old.entries meanings.new.entries) }
    ensures refused { IfErr result (NamedIn (IsOtherwise unit.now meanings.old.entries)) }
{
    for (name, index) in unit.known.iter() {
        let source = source_at(unit.sources.as_slice(), *index);
        add_name(alloc, unit, name.as_slice(), source, meanings)?;
    }
    Ok(())
}

/// The sources that names stand for, in byte order of the names.
fn sources_of<'u>(
    alloc: Global,
    meanings: &BTreeMap<&'u [u8], Meaning<'u>>,
) -> Result<Vec<&'u Source>, AllocError>
    ensures sorted { IsOrdered (λ a b. slice_cmp nat_cmp a.now b.now) meanings.now }
    ensures sources { IfOk result (λ v. map (λ s. s.now) v.items ≡ sources_in meanings.now.entries) }
{
    let mut sources = Vec::new(alloc);
    for meaning in meanings.values() {
        if let Some(source) = meaning.source {
            sources.push(source)?;
        }
    }
    Ok(sources)
}

/// The sources of all units, in byte order of their names. Refused where a name stands for one text in a unit, and in a later one for
/// another or for none, or for one where it stood for none.
pub fn shared_sources(alloc: Global, units: &[Unit]) -> Result<Vec<&Source>, UnitFault>
    ensures shared { IfOk result (λ v. AreShared units.now (map (λ s. s.now) v.items)) }
    ensures refused { IfErr result (NamedIn (IsTakenOtherwise units.now)) }
{
    let mut meanings = BTreeMap::new(alloc);
    for unit in units {
        add_names(alloc, unit, &mut meanings)?;
    }
    Ok(sources_of(alloc, &meanings)?)
}
