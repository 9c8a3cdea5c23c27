//! What else helps: where includes were looked for, and where the earlier one stands, of two that can't be there both.

ghost use Rattle.std.specs.Prelude.{◌≡◌, ◌⊎◌, ◌↔◌, ◌++◌, ◌∷◌, [], List, map, codes, option_to_list, IsTrue, OnOk, IfOk};
ghost use Rattle.aa_base.specs.Kinds.{IsRefusal};
ghost use Rattle.aa_glob.specs.Variables.{Variable};
ghost use Rattle.aa_files.specs.Texts.{texts, slices};
ghost use Rattle.aa_words.specs.Splits.{WordData, words_data};
ghost use Rattle.aa_words.specs.FoundData.{include_data};
ghost use Rattle.aa_policy.specs.Preamble.{IsTwice};
ghost use Rattle.aa_policy.specs.Bodies.{ProfileData, IsPolicy};
ghost use Rattle.aa_policy.specs.Spelling.{IsDuplicate};
ghost use Rattle.aa_diagnostics.specs.Named.{named_of};
ghost use Rattle.aa_diagnostics.specs.Earlier.{set_again, named_again, IsSetFirst, IsNamedFirst};
ghost use Rattle.aa_load.specs.UnitPolicy.{limit_of, IsFaultOfUnit};
ghost use Rattle.aa_diagnostics.specs.Further.{spot_line, spot_lines, tried, tried_at, AreTried, ShowsFirstSet, ShowsFirstNamed, IsFurther, HasWords, ShowsSetTwice, ShowsNamedTwice, ShowsEarlier};

use crate::conflict::conflict_lines;
use crate::profiles::earlier_profile;
use crate::variables::earlier_variable;
use aa_base::{PolicyFault, PolicyKind, Spot};
use aa_files::{Unit, paths_of, text_at};
use aa_load::sources_of;
use aa_text::{push_place, push_text};
use aa_words::{IncludeAt, WordList, includes_of, words};
use std::alloc::{AllocError, Global};

/// What stands before it, a file's path, and a place in it.
fn spot_line(alloc: Global, unit: &Unit, what: &str, at: Spot) -> Result<Vec<u8>, AllocError>
    ensures { IfOk result (λ line. line.items ≡ spot_line unit.now what.now at) }
{
    let (path, text) = text_at(unit, at.file);
    let mut line = Vec::new(alloc);
    push_text(&mut line, what)?;
    line.extend_from_slice(path)?;
    push_place(&mut line, text, at.byte as usize)?;
    Ok(line)
}

/// A line for that place, if there is one.
pub(crate) fn spot_lines(
    alloc: Global,
    unit: &Unit,
    what: &str,
    at: Option<Spot>,
) -> Result<Vec<Vec<u8>>, AllocError>
    ensures { IfOk result (λ lines. texts lines.items ≡ map (spot_line unit.now what.now) (option_to_list at)) }
{
    let mut lines = Vec::new(alloc);
    if let Some(at) = at {
        lines.push(spot_line(alloc, unit, what, at)?)?;
    }
    Ok(lines)
}

fn tried_line(alloc: Global, path: &[u8]) -> Result<Vec<u8>, AllocError>
    ensures { IfOk result (λ line. line.items ≡ tried path.now) }
{
    let mut line = Vec::new(alloc);
    push_text(&mut line, "tried ")?;
    line.extend_from_slice(path)?;
    Ok(line)
}

fn push_tried(alloc: Global, paths: &[Vec<u8>], lines: &mut Vec<Vec<u8>>) -> Result<(), AllocError>
    ensures { OnOk result (texts lines.new.items ≡ texts lines.old.items ++ map tried (texts paths.now)) }
{
    for path in paths {
        lines.push(tried_line(alloc, path.as_slice())?)?;
    }
    Ok(())
}

fn push_tried_at(
    alloc: Global,
    folders: &[&[u8]],
    byte: usize,
    include: &IncludeAt<'_>,
    lines: &mut Vec<Vec<u8>>,
) -> Result<(), AllocError>
    ensures { OnOk result (texts lines.new.items ≡ texts lines.old.items ++ tried_at (slices folders.now) byte (include_data include.now)) }
{
    if include.byte != byte {
        return Ok(());
    }
    push_tried(alloc, paths_of(alloc, include, folders)?.as_slice(), lines)
}

/// Where the include at a byte of a text was looked for.
fn tried(
    alloc: Global,
    folders: &[&[u8]],
    text: &[u8],
    byte: usize,
) -> Result<Vec<Vec<u8>>, AllocError>
    ensures { IfOk result (λ lines. AreTried (slices folders.now) text.now byte (texts lines.items)) }
{
    let includes = includes_of(alloc, text)?;
    let mut lines = Vec::new(alloc);
    for include in &includes {
        push_tried_at(alloc, folders, byte, include, &mut lines)?;
    }
    Ok(lines)
}

pub(crate) fn is_want_of_memory(fault: PolicyFault) -> bool
    ensures { IsTrue result ↔ (fault.kind ≡ PolicyKind.NoMemory) }
{
    fault.kind == PolicyKind::NoMemory
}

/// What was found; nothing where it was refused for another cause than memory.
fn unless_refused(
    alloc: Global,
    lines: Result<Vec<Vec<u8>>, PolicyFault>,
) -> Result<Vec<Vec<u8>>, AllocError>
    ensures { IfOk result (λ found. (IsRefusal lines × (texts found.items ≡ [])) ⊎ (lines ≡ Ok found)) }
{
    match lines {
        Ok(lines) => Ok(lines),
        Err(fault) => {
            if is_want_of_memory(fault) {
                return Err(AllocError);
            }
            Ok(Vec::new(alloc))
        }
    }
}

/// Where the variable is set first, by the words of the unit, that is set again at a place.
fn set_in(
    alloc: Global,
    unit: &Unit,
    list: &WordList<'_>,
    at: Spot,
) -> Result<Vec<Vec<u8>>, PolicyFault>
    ensures shown { IfOk result (λ lines. texts lines.items ≡ spot_lines unit.now (codes "set at ") (set_again at [] (words_data list.now.list.items))) }
    ensures twice { IfOk result (λ lines. IsTwice (words_data list.now.list.items) at
        → ((first : Spot) × IsSetFirst (words_data list.now.list.items) at first × (texts lines.items ≡ spot_line unit.now (codes "set at ") first ∷ []))) }
    ensures memory { IsRefusal result → ⊥ }
{
    let first = earlier_variable(list, at);
    Ok(spot_lines(alloc, unit, "set at ", first)?)
}

/// Where the variable is set first that is set again at a place.
fn set_lines(alloc: Global, unit: &Unit, at: Spot) -> Result<Vec<Vec<u8>>, PolicyFault>
    ensures shown { IfOk result (λ lines. ShowsFirstSet unit.now at (texts lines.items)) }
    ensures twice { IfOk result (λ lines. (ws : List WordData) → HasWords unit.now ws → IsTwice ws at → ShowsSetTwice unit.now at (texts lines.items)) }
    ensures refused { IsRefusal result → (ws : List WordData) → HasWords unit.now ws → ⊥ }
{
    let sources = sources_of(alloc, unit)?;
    let list = words(alloc, &sources, unit.text.as_slice())?;
    set_in(alloc, unit, &list, at)
}

/// Where the first profile stands, by the words of the unit, that has the full name of the one whose name stands at a place.
fn earlier_in(
    alloc: Global,
    unit: &Unit,
    list: &WordList<'_>,
    at: Spot,
) -> Result<Vec<Vec<u8>>, PolicyFault>
    ensures shown { IfOk result (λ lines. (vars : List Variable) × (tree : List ProfileData) × IsPolicy (words_data list.now.list.items) vars tree
        × (texts lines.items ≡ spot_lines unit.now (codes "earlier at ") (named_again at [] (map named_of tree)))) }
    ensures twice { IfOk result (λ lines. IsDuplicate (words_data list.now.list.items) at
        → ((first : Spot) × IsNamedFirst (words_data list.now.list.items) at first × (texts lines.items ≡ spot_line unit.now (codes "earlier at ") first ∷ []))) }
    ensures refused { IsRefusal result → (vars : List Variable) (tree : List ProfileData) → IsPolicy (words_data list.now.list.items) vars tree → ⊥ }
{
    let first = earlier_profile(alloc, list, at)?;
    Ok(spot_lines(alloc, unit, "earlier at ", first)?)
}

/// Where the first profile stands that has the full name of the one whose name stands at a place.
fn earlier_lines(alloc: Global, unit: &Unit, at: Spot) -> Result<Vec<Vec<u8>>, PolicyFault>
    ensures shown { IfOk result (λ lines. ShowsFirstNamed unit.now at (texts lines.items)) }
    ensures twice { IfOk result (λ lines. (ws : List WordData) → HasWords unit.now ws → IsDuplicate ws at → ShowsNamedTwice unit.now at (texts lines.items)) }
    ensures refused { IsRefusal result → (ws : List WordData) → HasWords unit.now ws → (vars : List Variable) (tree : List ProfileData) → IsPolicy ws vars tree → ⊥ }
{
    let sources = sources_of(alloc, unit)?;
    let list = words(alloc, &sources, unit.text.as_slice())?;
    earlier_in(alloc, unit, &list, at)
}

/// The lines behind a fault of a unit, whose includes are searched in these folders.
pub(crate) fn further_of(
    alloc: Global,
    folders: &[&[u8]],
    states: u32,
    unit: &Unit,
    kind: PolicyKind,
    at: Spot,
) -> Result<Vec<Vec<u8>>, AllocError>
    ensures further { IfOk result (λ lines. IsFurther unit.now (slices folders.now) states at (texts lines.items) kind) }
    ensures earlier { IfOk result (λ lines. IsFaultOfUnit (limit_of states) unit.now (record { kind = kind; at = at }) → ShowsEarlier unit.now at (texts lines.items) kind) }
{
    let (_, text) = text_at(unit, at.file);
    match kind {
        PolicyKind::MissingInclude => tried(alloc, folders, text, at.byte as usize),
        PolicyKind::VariableTwice => unless_refused(alloc, set_lines(alloc, unit, at)),
        PolicyKind::DuplicateProfile => unless_refused(alloc, earlier_lines(alloc, unit, at)),
        PolicyKind::ConflictingExec => {
            unless_refused(alloc, conflict_lines(alloc, unit, at, states))
        }
        _ => Ok(Vec::new(alloc)),
    }
}
