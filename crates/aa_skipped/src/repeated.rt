//! Files of which more than one may have a profile of one name.

ghost use Rattle.std.specs.Prelude.{◌≡◌, ◌++◌, count_by, IfOk};
ghost use Rattle.std.specs.List.{AllZip, list_any};
ghost use Rattle.aa_base.specs.Kinds.{kind_name};
ghost use Rattle.aa_diagnostics.specs.Reports.{IsOfWhole};
ghost use Rattle.aa_skipped.specs.declared.skipped.Skipped.{Skipped};
ghost use Rattle.aa_skipped.specs.Heads.{AreHeadsOf};
ghost use Rattle.aa_skipped.specs.Repeated.{may_meet, may_share, is_repeated, repeated_words, IsSetAside, IsParted, ArePartedBy, AreParted};

use crate::heads::unread_of;
use crate::skipped::{Found, Skipped, Sorted};
use crate::sorting::put;
use aa_base::PolicyKind;
use aa_files::Unit;
use aa_skipping::{Head, Unread, is_of};
use aa_text::{FaultReport, NoMemory};
use std::alloc::{AllocError, Global};

/// Whether profiles with these heads, or children of theirs, may have one name.
fn may_meet(head: &Head, other: &Head) -> bool
    ensures { result ≡ may_meet head.now other.now }
{
    let name = head.name.as_slice();
    let second = other.name.as_slice();
    is_of(name, second) || is_of(second, name)
}

fn meets_one(heads: &[Head], head: &Head) -> bool
    ensures { result ≡ list_any (may_meet head.now) heads.now }
{
    heads.iter().any(|other| may_meet(head, other))
}

fn one_meets(heads: &[Head], others: &[Head]) -> bool
    ensures { result ≡ list_any (λ h. list_any (may_meet h) others.now) heads.now }
{
    heads.iter().any(|head| meets_one(others, head))
}

/// Whether two files may have profiles of one name.
fn may_share(one: &Unread, other: &Unread) -> bool
    ensures { result ≡ may_share one.now other.now }
{
    one_meets(one.heads.as_slice(), other.heads.as_slice())
}

fn count_sharing(read: &[Unread], unread: &Unread) -> usize
    ensures { result ≡ count_by (may_share unread.now) read.now }
{
    read.iter().filter(|other| may_share(unread, other)).count()
}

fn one_shares(skipped: &[Skipped], unread: &Unread) -> bool
    ensures { result ≡ list_any (λ (k : Skipped). may_share unread.now k.unread) skipped.now }
{
    skipped.iter().any(|file| may_share(unread, &file.unread))
}

/// Whether another file than this one may have a profile of a name of its.
fn is_repeated(read: &[Unread], skipped: &[Skipped], unread: &Unread) -> bool
    ensures { result ≡ is_repeated read.now skipped.now unread.now }
{
    count_sharing(read, unread) > 1 || one_shares(skipped, unread)
}

/// What is said of a file of which another has a profile's name.
#[tactic(auto, unfolding(crate::specs::Repeated::repeated_words))]
fn repeated_fault(alloc: Global, path: &[u8]) -> Result<FaultReport, AllocError>
    ensures { IfOk result (λ r. IsOfWhole (kind_name PolicyKind.DuplicateProfile) path.now repeated_words r) }
{
    Ok(FaultReport {
        kind: PolicyKind::DuplicateProfile.name(),
        path: Vec::from_slice(alloc, path)?,
        place: None,
        message: Vec::from_slice(alloc, "another file has a profile of this name".as_bytes())?,
        excerpt: Vec::new(alloc),
        chain: Vec::new(alloc),
        further: Vec::new(alloc),
    })
}

/// What is known of the profiles of each unit.
fn all_heads(alloc: Global, units: &[Unit]) -> Result<Vec<Unread>, NoMemory>
    ensures { IfOk result (λ read. AllZip AreHeadsOf units.now read.items) }
{
    let mut read = Vec::new(alloc);
    for unit in units {
        let unread = unread_of(alloc, unit)?;
        read.push(unread)?;
    }
    Ok(read)
}

/// A unit that is skipped, since another file has a profile's name.
fn set_aside(alloc: Global, unit: &Unit, unread: Unread) -> Result<Skipped, NoMemory>
    ensures path { IfOk result (λ k. k.path.items ≡ unit.now.path.items) }
    ensures unread { IfOk result (λ k. k.unread ≡ unread) }
    ensures told { IfOk result (λ k. IsOfWhole (kind_name PolicyKind.DuplicateProfile) unit.now.path.items repeated_words k.fault) }
{
    let path = unit.path.as_slice();
    Ok(Skipped {
        path: Vec::from_slice(alloc, path)?,
        fault: repeated_fault(alloc, path)?,
        unread,
    })
}

fn part_unit(
    alloc: Global,
    read: &[Unread],
    skipped: &[Skipped],
    unit: Unit,
) -> Result<Found, NoMemory>
    ensures { IfOk result (λ found. IsParted read.now skipped.now unit found) }
{
    let unread = unread_of(alloc, &unit)?;
    if is_repeated(read, skipped, &unread) {
        return Ok(Found::Left(set_aside(alloc, &unit, unread)?));
    }
    Ok(Found::Read(unit))
}

fn part_units(
    alloc: Global,
    read: &[Unread],
    skipped: &[Skipped],
    units: Vec<Unit>,
) -> Result<Sorted, NoMemory>
    ensures { IfOk result (λ parted. ArePartedBy read.now skipped.now units.items parted.units.items parted.skipped.items) }
{
    let mut parted = Sorted {
        units: Vec::new(alloc),
        skipped: Vec::new(alloc),
    };
    for unit in units {
        let found = part_unit(alloc, read, skipped, unit)?;
        put(&mut parted, found)?;
    }
    Ok(parted)
}

/// Skips also the files that are read of which more than one may have a profile of one name, and those of which a skipped file may have
/// one: which of these profiles is loaded last isn't known.
pub fn part_repeated(alloc: Global, sorted: Sorted) -> Result<Sorted, NoMemory>
    ensures { IfOk result (λ parted. AreParted sorted.units.items sorted.skipped.items parted.units.items parted.skipped.items) }
{
    let Sorted { units, mut skipped } = sorted;
    let read = all_heads(alloc, units.as_slice())?;
    let mut parted = part_units(alloc, read.as_slice(), skipped.as_slice(), units)?;
    skipped.append(&mut parted.skipped)?;
    let Sorted { units, skipped: _ } = parted;
    Ok(Sorted { units, skipped })
}
