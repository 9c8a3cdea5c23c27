//! What `merge` prints.

ghost use Rattle.std.specs.Prelude.{◌≡◌, ◌≢◌, ◌++◌, ◌∷◌, [], List, map, Option, Some, Ok, IfOk, IfErr, IfSome, MatchOption};
ghost use Rattle.aa_files.specs.Texts.{texts, slices};
ghost use Rattle.aa_command.specs.Printed.{printed};
ghost use Rattle.aa_command.specs.Refusals.{SaysFault, SaysUnread};
ghost use Rattle.aa_merge.specs.Command.{IsPartAt, IsTogether, AreMerged, before_of, IsRefusedPart, IsFirstUnmerged, IsOutputFor, AreListed, AreWanted, IsMergeOutput, SaysRefused};
ghost use Rattle.aa_merge.specs.Faults.{IsOfPart};
ghost use Rattle.aa_merge.specs.Held.{part_data, IsSaidAs};
ghost use Rattle.aa_merge.specs.Parts.{Report, all_merged, merged};
ghost use Rattle.aa_merge.specs.Reading.{report_of};
ghost use Rattle.aa_merge.specs.Unmerged.{IsNoPart, IsUnmerged, IsUnmergedPart, IsMergedPrinted, IsTogetherPrinted, SaysUnmerged};
ghost use Rattle.aa_merge.specs.Wholes.{IsHeld, IsNotAdded};

use crate::adding::Merging;
use crate::fault::PartFault;
use crate::names::Names;
use crate::part::Part;
use crate::places::Parts;
use crate::reading::read_part;
use crate::refusals::report_of;
use aa_base::Unread;
use aa_command::{Logs, Output, fault_refused, path_refused, refused};
use aa_log::{LogOptions, report_printed};
use aa_logs::Choice;
use aa_text::NoMemory;
use std::alloc::{AllocError, Global};

/// Which parts are merged, and how their report is printed.
#[derive(Clone, Copy)]
pub struct MergeOptions<'a> {
    pub parts: &'a [Vec<u8>],
    /// A file with the paths of more parts, one a line.
    pub list: Option<&'a [u8]>,
    pub is_json: bool,
}

/// Why a part isn't merged.
#[derive(Drop)]
enum Unmerged {
    Unread(Unread),
    Refused(PartFault),
}

/// A part that isn't merged.
#[derive(Drop)]
struct UnmergedPart<'a> {
    path: &'a [u8],
    why: Unmerged,
}

/// The part that bytes are.
fn part_of(alloc: Global, bytes: &[u8]) -> Result<Part, Unmerged>
    ensures part { IfOk result (λ p. report_of bytes.now ≡ Ok (part_data p)) }
    ensures not { IfErr result (λ why. IsNoPart bytes.now why) }
{
    match read_part(alloc, bytes) {
        Ok(part) => Ok(part),
        Err(fault) => Err(Unmerged::Refused(fault)),
    }
}

/// The part that lies at a path.
fn part_at<P: Parts>(alloc: Global, parts: &P, path: &[u8]) -> Result<Part, Unmerged>
    ensures part { IfOk result (λ p. IsPartAt (P.parts parts.now) path.now (part_data p)) }
    ensures not { IfErr result (λ why. (before : List Report) → IsUnmerged (P.parts parts.now) before path.now why) }
{
    match parts.bytes_at(alloc, path) {
        Ok(bytes) => part_of(alloc, bytes.as_slice()),
        Err(why) => Err(Unmerged::Unread(why)),
    }
}

/// What the parts before one say together, or nothing where there are none.
fn begun<'a>(alloc: Global, before: Option<Merging<'a>>, part: &Part) -> Merging<'a>
    ensures { (rs : List Report) → IsTogether rs before.entry → IsHeld (before_of rs (part_data part.now)) result }
{
    match before {
        Some(merging) => merging,
        None => Merging::new(alloc, part),
    }
}

/// Adds a part to those before it, if there are any.
fn with_part<'a>(
    alloc: Global,
    before: Option<Merging<'a>>,
    part: &Part,
) -> Result<Merging<'a>, PartFault>
    ensures added { IfOk result (λ m. (rs : List Report) → IsTogether rs before.entry → IsTogether (rs ++ part_data part.now ∷ []) (Some m)) }
    ensures not { IfErr result (λ e. (rs : List Report) → IsTogether rs before.entry → IsNotAdded (before_of rs (part_data part.now)) (part_data part.now) e) }
{
    let mut merging = begun(alloc, before, part);
    merging.add(alloc, part)?;
    Ok(merging)
}

fn merge_next<'a, P: Parts>(
    alloc: Global,
    parts: &P,
    before: Option<Merging<'a>>,
    path: &[u8],
) -> Result<Merging<'a>, Unmerged>
    ensures added { IfOk result (λ m. (rs : List Report) → IsTogether rs before.entry → (r : Report) × IsPartAt (P.parts parts.now) path.now r × IsTogether (rs ++ r ∷ []) (Some m)) }
    ensures not { IfErr result (λ why. (rs : List Report) → IsTogether rs before.entry → IsUnmerged (P.parts parts.now) rs path.now why) }
{
    let part = part_at(alloc, parts, path)?;
    match with_part(alloc, before, &part) {
        Ok(merging) => Ok(merging),
        Err(fault) => Err(Unmerged::Refused(fault)),
    }
}

/// What the parts at those paths say together; nothing where there are none.
fn merge_all<'a, 'p, P: Parts>(
    alloc: Global,
    parts: &P,
    paths: &'p [Vec<u8>],
) -> Result<Option<Merging<'a>>, UnmergedPart<'p>>
    ensures merged { IfOk result (λ m. AreMerged (P.parts parts.now) (texts paths.now) m) }
    ensures not { IfErr result (λ u. IsUnmergedPart (P.parts parts.now) (texts paths.now) u) }
{
    let mut merging = None;
    for path in paths {
        match merge_next(alloc, parts, merging, path.as_slice()) {
            Ok(next) => merging = Some(next),
            Err(why) => {
                return Err(UnmergedPart {
                    path: path.as_slice(),
                    why,
                });
            }
        }
    }
    Ok(merging)
}

/// The paths as slices.
fn slices_of<'p>(alloc: Global, paths: &'p [Vec<u8>]) -> Result<Vec<&'p [u8]>, AllocError>
    ensures { IfOk result (λ s. slices s.items ≡ texts paths.entry.now) }
{
    let mut slices = Vec::with_capacity(alloc, paths.len())?;
    for path in paths {
        slices.push(path.as_slice())?;
    }
    Ok(slices)
}

/// No names.
fn none_named() -> &'static [Vec<u8>] {
    &[]
}

/// How the report of the logs at these paths is printed.
fn options_of<'a>(logs: &'a [&'a [u8]], is_json: bool) -> LogOptions<'a>
    ensures logs { result.logs ≡ logs.entry }
    ensures json { result.is_json ≡ is_json }
{
    let choice = Choice {
        profiles: none_named(),
        since: None,
        until: None,
    };
    LogOptions {
        logs,
        choice,
        wants_skipped: false,
        against: none_named(),
        wants_all: false,
        is_json,
    }
}

/// Says what parts say together.
fn merged_printed(alloc: Global, merging: &Merging<'_>, is_json: bool) -> Result<Output, NoMemory>
    ensures { IfOk result (λ out. IsMergedPrinted merging.now is_json (printed out)) }
{
    let logs = slices_of(alloc, merging.paths.as_slice())?;
    let options = options_of(logs.as_slice(), is_json);
    report_printed(alloc, &options, &merging.said)
}

/// Says what parts say together, or that there is none.
fn together_printed(
    alloc: Global,
    merging: Option<Merging<'_>>,
    is_json: bool,
) -> Result<Output, NoMemory>
    ensures { IfOk result (λ out. IsTogetherPrinted merging.entry is_json (printed out)) }
{
    match merging {
        Some(merging) => merged_printed(alloc, &merging, is_json),
        None => refused(alloc, "error: merge takes at least one part\n", 2),
    }
}

/// Says why a part is refused.
fn fault_printed(alloc: Global, path: &[u8], fault: PartFault) -> Result<Output, NoMemory>
    ensures { IfOk result (λ out. SaysFault (IsOfPart path.now fault) 1 (printed out)) }
{
    let report = report_of(alloc, path, fault)?;
    fault_refused(alloc, &report, 1)
}

/// Says why a part is refused, with 3 where there are too many requests.
fn refused_printed(alloc: Global, path: &[u8], fault: PartFault) -> Result<Output, NoMemory>
    ensures { IfOk result (λ out. SaysRefused path.now fault (printed out)) }
{
    match fault {
        PartFault::NoMemory => Err(NoMemory),
        PartFault::TooMany => path_refused(alloc, path, Unread::TooLarge),
        _ => fault_printed(alloc, path, fault),
    }
}

/// Says why a part isn't merged.
fn unmerged_printed(alloc: Global, unmerged: UnmergedPart<'_>) -> Result<Output, NoMemory>
    ensures { IfOk result (λ out. SaysUnmerged unmerged.entry.path.now unmerged.entry.why (printed out)) }
{
    match unmerged.why {
        Unmerged::Unread(why) => path_refused(alloc, unmerged.path, why),
        Unmerged::Refused(fault) => refused_printed(alloc, unmerged.path, fault),
    }
}

fn merge_named<P: Parts>(
    alloc: Global,
    parts: &P,
    is_json: bool,
    paths: &[Vec<u8>],
) -> Result<Output, NoMemory>
    ensures { IfOk result (λ out. IsOutputFor (P.parts parts.now) is_json (texts paths.now) (printed out)) }
{
    match merge_all(alloc, parts, paths) {
        Ok(merging) => together_printed(alloc, merging, is_json),
        Err(unmerged) => unmerged_printed(alloc, unmerged),
    }
}

fn copies_of(alloc: Global, paths: &[Vec<u8>]) -> Result<Vec<Vec<u8>>, AllocError>
    ensures { IfOk result (λ copies. texts copies.items ≡ texts paths.now) }
{
    let mut copies = Vec::with_capacity(alloc, paths.len())?;
    for path in paths {
        copies.push(Vec::from_slice(alloc, path.as_slice())?)?;
    }
    Ok(copies)
}

/// The paths that a list names.
fn named_in<L: Logs>(alloc: Global, lists: &L, list: &[u8]) -> Result<Vec<Vec<u8>>, Unread>
    ensures { IfOk result (λ named. AreListed (L.lying lists.now) list.now (texts named.items)) }
{
    let mut names = Names::new(alloc);
    lists.read_lines(alloc, list, &mut names)?;
    Ok(names.paths)
}

/// The paths of the command line, and behind them those of the list.
fn paths_of<L: Logs>(
    alloc: Global,
    lists: &L,
    options: &MergeOptions<'_>,
) -> Result<Vec<Vec<u8>>, Unread>
    ensures { IfOk result (λ paths. AreWanted (L.lying lists.now) options.now (texts paths.items)) }
{
    let mut paths = copies_of(alloc, options.parts)?;
    let Some(list) = options.list else {
        return Ok(paths);
    };
    let mut named = named_in(alloc, lists, list)?;
    paths.append(&mut named)?;
    Ok(paths)
}

/// Says why the list can't be read; where none is named, there was no memory.
fn list_refused(alloc: Global, options: &MergeOptions<'_>, why: Unread) -> Result<Output, NoMemory>
    ensures { IfOk result (λ out. MatchOption options.now.list ⊥ (λ path. SaysUnread path.now why (printed out))) }
{
    match options.list {
        Some(list) => path_refused(alloc, list, why),
        None => Err(NoMemory),
    }
}

/// Says what the reports of parts of logs say together, as `log` says it of the logs one after another.
pub fn merge_files<P: Parts, L: Logs>(
    alloc: Global,
    parts: &P,
    lists: &L,
    options: &MergeOptions<'_>,
) -> Result<Output, NoMemory>
    ensures { IfOk result (λ out. IsMergeOutput (P.parts parts.now) (L.lying lists.now) options.now (printed out)) }
{
    match paths_of(alloc, lists, options) {
        Ok(paths) => merge_named(alloc, parts, options.is_json, paths.as_slice()),
        Err(why) => list_refused(alloc, options, why),
    }
}
