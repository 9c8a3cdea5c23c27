//! Redundant rules of profiles, by the places where they stand.

ghost use Rattle.std.specs.Prelude.{◌≡◌, ◌<◌, ◌≤◌, ◌++◌, IfOk, IfErr, OnOk, Contains, length};
ghost use Rattle.aa_pattern.specs.Limits.{most_states};
ghost use Rattle.aa_compile.specs.Rows.{patterns_of};
ghost use Rattle.aa_representatives.specs.Alike.{change_patterns};
ghost use Rattle.aa_redundancy.specs.declared.fault.UntoldProfile.{UntoldProfile};
ghost use Rattle.aa_redundancy.specs.Faults.{IsFaultOf, IsFaultIn};
ghost use Rattle.aa_redundancy.specs.Without.{without};
ghost use Rattle.aa_redundancy.specs.Sameness.{SameFiles, SameCaps, SameNets, SameChanges};
ghost use Rattle.aa_redundancy.specs.Covering.{Within, FilesWithin, CapsWithin, NetsWithin, ChangesWithin};
ghost use Rattle.aa_redundancy.specs.Tables.{Equal, Decides, AllDecide};
ghost use Rattle.aa_redundancy.specs.Places.{gone_at, ProfileAlike, ProfileWithin};
ghost use Rattle.aa_redundancy.specs.Kept.{IsUntold, KeptAlike, KeptWithin, HoldsBut, SameBut};
ghost use Rattle.aa_redundancy.specs.Adding.{four, AddsKept, AddsProfile, AddsProfileIn, AreTablesOf};
ghost use Rattle.aa_redundancy.specs.Reasons.{AreReasons};
ghost use Rattle.aa_redundancy.specs.Going.{AreGoing};

use crate::entries::{table_of_caps, table_of_nets};
use crate::fault::{RedundancyFault, UntoldProfile, excess_of};
use crate::files::table_of_files;
use crate::going::{Going, going_of};
use crate::kept::table_of_kept;
use crate::names::table_of_changes;
use crate::places::{PlaceNumbers, placed};
use crate::reasons::{Reason, reasons_of};
use crate::tables::Table;
use aa_model::Profile;
use std::alloc::{AllocError, Global};

fn placed_files(
    alloc: Global,
    profile: &Profile,
    numbers: &PlaceNumbers,
    limit: usize,
) -> Result<Table, RedundancyFault>
    requires some { 0 < limit }
    requires limit { limit ≤ most_states }
    ensures alike { IfOk result (λ t. Decides Equal t (λ gone others. SameFiles (without (gone_at gone numbers.now.files) profile.now.files) (without (gone_at others numbers.now.files) profile.now.files))) }
    ensures within { IfOk result (λ t. Decides Within t (λ gone others. FilesWithin (without (gone_at gone numbers.now.files) profile.now.files) (without (gone_at others numbers.now.files) profile.now.files))) }
    ensures many { IfErr result (λ e. IsFaultOf (patterns_of profile.now.files) limit e) }
{
    let table = table_of_files(alloc, profile.files.as_slice(), limit)?;
    let placed = placed(alloc, table, numbers.files.as_slice())?;
    Ok(placed)
}

fn placed_changes(
    alloc: Global,
    profile: &Profile,
    numbers: &PlaceNumbers,
    limit: usize,
) -> Result<Table, RedundancyFault>
    requires some { 0 < limit }
    requires limit { limit ≤ most_states }
    ensures alike { IfOk result (λ t. Decides Equal t (λ gone others. SameChanges (without (gone_at gone numbers.now.changes) profile.now.changes) (without (gone_at others numbers.now.changes) profile.now.changes))) }
    ensures within { IfOk result (λ t. Decides Within t (λ gone others. ChangesWithin (without (gone_at gone numbers.now.changes) profile.now.changes) (without (gone_at others numbers.now.changes) profile.now.changes))) }
    ensures many { IfErr result (λ e. IsFaultOf (change_patterns profile.now.changes) limit e) }
{
    let table = table_of_changes(alloc, profile.changes.as_slice(), limit)?;
    let placed = placed(alloc, table, numbers.changes.as_slice())?;
    Ok(placed)
}

fn placed_caps(
    alloc: Global,
    profile: &Profile,
    numbers: &PlaceNumbers,
) -> Result<Table, AllocError>
    ensures alike { IfOk result (λ t. Decides Equal t (λ gone others. SameCaps (without (gone_at gone numbers.now.caps) profile.now.caps) (without (gone_at others numbers.now.caps) profile.now.caps))) }
    ensures within { IfOk result (λ t. Decides Within t (λ gone others. CapsWithin (without (gone_at gone numbers.now.caps) profile.now.caps) (without (gone_at others numbers.now.caps) profile.now.caps))) }
{
    let table = table_of_caps(alloc, profile.caps.as_slice())?;
    let placed = placed(alloc, table, numbers.caps.as_slice())?;
    Ok(placed)
}

fn placed_nets(
    alloc: Global,
    profile: &Profile,
    numbers: &PlaceNumbers,
) -> Result<Table, AllocError>
    ensures alike { IfOk result (λ t. Decides Equal t (λ gone others. SameNets (without (gone_at gone numbers.now.nets) profile.now.nets) (without (gone_at others numbers.now.nets) profile.now.nets))) }
    ensures within { IfOk result (λ t. Decides Within t (λ gone others. NetsWithin (without (gone_at gone numbers.now.nets) profile.now.nets) (without (gone_at others numbers.now.nets) profile.now.nets))) }
{
    let table = table_of_nets(alloc, profile.nets.as_slice())?;
    let placed = placed(alloc, table, numbers.nets.as_slice())?;
    Ok(placed)
}

/// The tables of the rules of a profile, sort by sort.
#[derive(Drop)]
pub(crate) struct ProfileTables {
    files: Table,
    caps: Table,
    nets: Table,
    changes: Table,
}

/// What is made of the first profiles: tables of their rules, and which profiles can't be told.
#[derive(Drop)]
pub(crate) struct AllTables {
    tables: Vec<Table>,
    untold: Vec<UntoldProfile>,
}

/// The tables of a profile's rules by what they say.
fn told_tables(
    alloc: Global,
    profile: &Profile,
    numbers: &PlaceNumbers,
    limit: usize,
) -> Result<ProfileTables, RedundancyFault>
    requires some { 0 < limit }
    requires limit { limit ≤ most_states }
    ensures alike { IfOk result (λ ts. AllDecide Equal (four ts) (ProfileAlike profile.now numbers.now)) }
    ensures within { IfOk result (λ ts. AllDecide Within (four ts) (ProfileWithin profile.now numbers.now)) }
    ensures many { IfErr result (λ e. IsFaultIn profile.now limit e) }
{
    let files = placed_files(alloc, profile, numbers, limit)?;
    let changes = placed_changes(alloc, profile, numbers, limit)?;
    let caps = placed_caps(alloc, profile, numbers)?;
    let nets = placed_nets(alloc, profile, numbers)?;
    Ok(ProfileTables {
        files,
        caps,
        nets,
        changes,
    })
}

/// The tables by which none of them goes.
fn kept_tables(
    alloc: Global,
    profile: &Profile,
    numbers: &PlaceNumbers,
) -> Result<ProfileTables, AllocError>
    ensures alike { IfOk result (λ ts. AllDecide Equal (four ts) (KeptAlike profile.now numbers.now)) }
    ensures within { IfOk result (λ ts. AllDecide Within (four ts) (KeptWithin profile.now numbers.now)) }
{
    let files = table_of_kept(
        alloc,
        profile.files.as_slice().len(),
        numbers.files.as_slice(),
    )?;
    let caps = table_of_kept(
        alloc,
        profile.caps.as_slice().len(),
        numbers.caps.as_slice(),
    )?;
    let nets = table_of_kept(
        alloc,
        profile.nets.as_slice().len(),
        numbers.nets.as_slice(),
    )?;
    let changes = table_of_kept(
        alloc,
        profile.changes.as_slice().len(),
        numbers.changes.as_slice(),
    )?;
    Ok(ProfileTables {
        files,
        caps,
        nets,
        changes,
    })
}

/// Adds the tables of a profile.
fn push_four(tables: &mut Vec<Table>, own: ProfileTables) -> Result<(), AllocError>
    ensures { OnOk result (tables.new.items ≡ tables.old.items ++ four own) }
{
    let ProfileTables {
        files,
        caps,
        nets,
        changes,
    } = own;
    tables.push(files)?;
    tables.push(caps)?;
    tables.push(nets)?;
    tables.push(changes)?;
    Ok(())
}

/// Adds the profile of that number as one that can't be told, and its tables by which none of its rules goes.
fn push_kept(
    all: &mut AllTables,
    alloc: Global,
    profile: &Profile,
    numbers: &PlaceNumbers,
    number: usize,
    fault: RedundancyFault,
) -> Result<(), AllocError>
    ensures { OnOk result (AddsKept profile.now numbers.now number fault all.old all.new) }
{
    let why = excess_of(fault)?;
    let own = kept_tables(alloc, profile, numbers)?;
    push_four(&mut all.tables, own)?;
    all.untold.push(UntoldProfile { number, why })?;
    Ok(())
}

/// Adds the profile of that number: by what its rules say, or as one that can't be told.
fn push_profile(
    all: &mut AllTables,
    alloc: Global,
    profile: &Profile,
    numbers: &PlaceNumbers,
    number: usize,
    limit: usize,
) -> Result<(), AllocError>
    requires some { 0 < limit }
    requires limit { limit ≤ most_states }
    ensures { OnOk result (AddsProfile profile.now numbers.now number limit all.old all.new) }
{
    match told_tables(alloc, profile, numbers, limit) {
        Ok(own) => push_four(&mut all.tables, own),
        Err(fault) => push_kept(all, alloc, profile, numbers, number, fault),
    }
}

/// Adds that of that number, if it and its numbers are there.
fn push_profile_at(
    all: &mut AllTables,
    alloc: Global,
    profiles: &[Profile],
    numbers: &[PlaceNumbers],
    number: usize,
    limit: usize,
) -> Result<(), AllocError>
    requires some { 0 < limit }
    requires limit { limit ≤ most_states }
    ensures { OnOk result (AddsProfileIn profiles.now numbers.now number limit all.old all.new) }
{
    let (Some(profile), Some(numbers)) = (profiles.get(number), numbers.get(number)) else {
        return Ok(());
    };
    push_profile(all, alloc, profile, numbers, number, limit)
}

/// The tables of the rules of all profiles, and which of these can't be told.
fn tables_of(
    alloc: Global,
    profiles: &[Profile],
    numbers: &[PlaceNumbers],
    limit: usize,
) -> Result<AllTables, AllocError>
    requires some { 0 < limit }
    requires limit { limit ≤ most_states }
    ensures { IfOk result (λ all. AreTablesOf profiles.now numbers.now limit (length profiles.now) all) }
{
    let mut all = AllTables {
        tables: Vec::new(alloc),
        untold: Vec::new(alloc),
    };
    for number in 0..profiles.len() {
        push_profile_at(&mut all, alloc, profiles, numbers, number, limit)?;
    }
    Ok(all)
}

/// Which places can go with their rules, and of each that can go by itself why.
#[derive(Drop)]
pub struct Redundant {
    pub going: Going,
    /// Of each that can go by itself, in order.
    pub reasons: Vec<Reason>,
    /// The profiles of which it can't be told, in order.
    pub untold: Vec<UntoldProfile>,
}

/// The places that can go with their rules, of so many: by itself each without whose rules every profile says the same of whatever can
/// be asked, with those places beside whose rules it is so, and together some such that aren't held and without which all that are left
/// still do. Of each profile stand the numbers of its rules' places. An automaton may have at most `limit` states. Where the rules of a
/// profile on files or on changes of the profile have too many patterns, or need more states, none of its rules goes, and the profile is
/// told besides.
pub fn redundant_places(
    alloc: Global,
    profiles: &[Profile],
    numbers: &[PlaceNumbers],
    count: usize,
    held: &[bool],
    limit: usize,
) -> Result<Redundant, AllocError>
    requires some { 0 < limit }
    requires limit { limit ≤ most_states }
    ensures going { IfOk result (λ r. AreGoing (SameBut r.untold.items profiles.now numbers.now (length profiles.now)) count held.now r.going) }
    ensures reasons { IfOk result (λ r. AreReasons (HoldsBut ProfileAlike KeptAlike r.untold.items profiles.now numbers.now (length profiles.now)) (HoldsBut ProfileWithin KeptWithin r.untold.items profiles.now numbers.now (length profiles.now)) r.going.alone.items r.reasons.items) }
    ensures untold { IfOk result (λ r. (u : UntoldProfile) → Contains r.untold.items u → IsUntold profiles.now limit u) }
{
    let AllTables { tables, untold } = tables_of(alloc, profiles, numbers, limit)?;
    let going = going_of(alloc, tables.as_slice(), count, held)?;
    let reasons = reasons_of(alloc, tables.as_slice(), going.alone.as_slice())?;
    Ok(Redundant {
        going,
        reasons,
        untold,
    })
}
