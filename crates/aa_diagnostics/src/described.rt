//! What is said of a fault.

ghost use Rattle.std.specs.Prelude.{◌≡◌, ◌==◌, ◌&&◌, ◌++◌, [], ◌∷◌, codes, IfOk};
ghost use Rattle.aa_base.specs.Kinds.{kind_name};
ghost use Rattle.aa_files.specs.Texts.{texts, slices};
ghost use Rattle.aa_diagnostics.specs.Further.{spot_line};
ghost use Rattle.aa_diagnostics.specs.Sentences.{message};
ghost use Rattle.aa_diagnostics.specs.Reports.{is_too_large, is_of_whole, has_place, IsWhy, IsReport, IsDescribed, IsOfWhole, unread_kind, unread_message};

use crate::further::{further_of, spot_lines};
use crate::limits::limit_of;
use crate::sentence::message_of;
use aa_base::{PolicyFault, PolicyKind, Spot, Unread};
use aa_files::{Unit, excerpt_if, is_folder_at, links_to, node_of, place_if, text_at};
use aa_text::{FaultReport, push_text};
use std::alloc::{AllocError, Global};

fn is_too_large(kind: PolicyKind) -> bool
    ensures { result ≡ is_too_large kind }
{
    matches!(kind, PolicyKind::TooLarge)
}

/// Whether a fault is said of the whole main text.
fn is_of_whole(unit: &Unit, fault: PolicyFault) -> bool
    ensures { result ≡ is_of_whole unit.now fault }
{
    is_too_large(fault.kind) && node_of(unit, fault.at.file) == 0 && fault.at.byte == 0
}

/// Whether a fault has a place in its file. One that speaks of the whole text, or lies in the text that a folder stands for, has none.
pub fn has_place(unit: &Unit, fault: PolicyFault) -> bool
    ensures { result ≡ has_place unit.now fault }
{
    !is_folder_at(unit, fault.at.file) && !is_of_whole(unit, fault)
}

/// Why there is a fault.
fn why(alloc: Global, unit: &Unit, fault: PolicyFault, states: u32) -> Result<Vec<u8>, AllocError>
    ensures { IfOk result (λ said. IsWhy unit.now states fault said.items) }
{
    if is_of_whole(unit, fault) {
        return limit_of(alloc, unit);
    }
    let (_, text) = text_at(unit, fault.at.file);
    message_of(alloc, fault.kind, states, text, fault.at.byte as usize)
}

/// What is said of a fault: in which file it lies and where, and why.
fn report_of(
    alloc: Global,
    unit: &Unit,
    fault: PolicyFault,
    states: u32,
    further: Vec<Vec<u8>>,
) -> Result<FaultReport, AllocError>
    ensures { IfOk result (λ r. IsReport unit.now states fault (texts further.items) r) }
{
    let (path, text) = text_at(unit, fault.at.file);
    let byte = fault.at.byte as usize;
    let there = has_place(unit, fault);
    Ok(FaultReport {
        kind: fault.kind.name(),
        path: Vec::from_slice(alloc, path)?,
        place: place_if(there, text, byte),
        message: why(alloc, unit, fault, states)?,
        excerpt: excerpt_if(alloc, there, text, byte)?,
        chain: links_to(alloc, unit, node_of(unit, fault.at.file))?,
        further,
    })
}

/// What is said of a fault of a unit's policy, of which an automaton may have so many states: in which file it lies and where, why,
/// and what else helps.
pub fn describe(
    alloc: Global,
    folders: &[&[u8]],
    states: u32,
    unit: &Unit,
    fault: PolicyFault,
) -> Result<FaultReport, AllocError>
    ensures { IfOk result (λ r. IsDescribed unit.now (slices folders.now) states fault r) }
{
    let further = further_of(alloc, folders, states, unit, fault.kind, fault.at)?;
    report_of(alloc, unit, fault, states, further)
}

/// What is said of a profile whose name an earlier profile of another unit has.
pub fn describe_repeated(
    alloc: Global,
    unit: &Unit,
    at: Spot,
    earlier: &Unit,
    earlier_at: Spot,
) -> Result<FaultReport, AllocError>
    ensures { IfOk result (λ r. IsReport unit.now 0 (record { kind = PolicyKind.DuplicateProfile; at = at }) (spot_line earlier.now (codes "earlier at ") earlier_at ∷ []) r) }
{
    let further = spot_lines(alloc, earlier, "earlier at ", Some(earlier_at))?;
    let kind = PolicyKind::DuplicateProfile;
    report_of(alloc, unit, PolicyFault { kind, at }, 0, further)
}

/// What is said of a path as a whole.
fn report_of_whole(
    alloc: Global,
    kind: &'static str,
    path: &[u8],
    message: Vec<u8>,
) -> Result<FaultReport, AllocError>
    ensures { IfOk result (λ r. IsOfWhole kind.entry.now path.now message.items r) }
{
    Ok(FaultReport {
        kind,
        path: Vec::from_slice(alloc, path)?,
        place: None,
        message,
        excerpt: Vec::new(alloc),
        chain: Vec::new(alloc),
        further: Vec::new(alloc),
    })
}

/// What is said of a limit that units pass together and none of them alone: it lies in no one place of the first.
pub fn describe_together(
    alloc: Global,
    first: &Unit,
    kind: PolicyKind,
    states: u32,
) -> Result<FaultReport, AllocError>
    ensures { IfOk result (λ r. IsOfWhole (kind_name kind) first.now.path.items (message states [] 0 kind ++ codes " (all files together)") r) }
{
    let mut message = message_of(alloc, kind, states, &[], 0)?;
    push_text(&mut message, " (all files together)")?;
    report_of_whole(alloc, kind.name(), first.path.as_slice(), message)
}

fn unread_kind(why: Unread) -> &'static str
    ensures { result.now ≡ unread_kind why }
{
    match why {
        Unread::TooLarge => "TooLarge",
        Unread::NoMemory
        | Unread::NotFound
        | Unread::NotAllowed
        | Unread::NotAFile
        | Unread::Failed => "Unreadable",
    }
}

fn unread_message(why: Unread) -> &'static str
    ensures { result.now ≡ unread_message why }
{
    match why {
        Unread::NoMemory => "it can't be read (no memory)",
        Unread::NotFound => "it can't be read (not found)",
        Unread::NotAllowed => "it can't be read (not allowed)",
        Unread::NotAFile => "it can't be read (not a file)",
        Unread::Failed => "it can't be read (failed)",
        Unread::TooLarge => {
            "a file has at most 1,048,576 bytes, a command line 4,096 files, and a profile file 4,095 included texts"
        }
    }
}

/// What is said of a path that can't be read.
pub fn unreadable(alloc: Global, path: &[u8], why: Unread) -> Result<FaultReport, AllocError>
    ensures { IfOk result (λ r. IsOfWhole (unread_kind why) path.now (unread_message why) r) }
{
    let message = Vec::from_slice(alloc, unread_message(why).as_bytes())?;
    report_of_whole(alloc, unread_kind(why), path, message)
}
