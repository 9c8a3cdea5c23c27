//! What deciding by the profiles of a policy needs.

ghost use Rattle.std.specs.Prelude.{◌≡◌, ◌<◌, ◌≤◌, ◌⊎◌, ℕ, [], length, slice_index_or, IfOk, IfErr};
ghost use Rattle.aa_base.specs.Kinds.{no_memory};
ghost use Rattle.aa_model.specs.Lawful.{IsWithinLimits};
ghost use Rattle.aa_compile.specs.Rows.{patterns_of};
ghost use Rattle.std.specs.List.{slice_get};
ghost use Rattle.std.specs.Option.{option_map_or};
ghost use Rattle.aa_pattern.specs.Limits.{most_patterns, most_states};
ghost use Rattle.aa_compile.specs.Groups.{lists};
ghost use Rattle.aa_compile.specs.Transitions.{children, no_targets};
ghost use Rattle.aa_compile.specs.Numbering.{IsNumbering};
ghost use Rattle.aa_compile.specs.Checks.{rows_fault, states_fault, first_spot, IsRight, AreRight, Passes, PassBefore, Fails, Refuses};

use crate::attach::AttachRows;
use crate::groups::group_at;
use crate::owners::owners_of;
use crate::rows::{FileRows, RowsFault};
use crate::targets::{Targets, all_targets};
use aa_auto::BuildFault;
use aa_base::{PolicyFault, PolicyKind, Spot};
use aa_model::Profile;
use std::alloc::Global;
use std::collections::HashMap;

/// What deciding by a profile needs.
#[derive(Drop)]
pub(crate) struct ProfileRows {
    pub(crate) files: FileRows,
    pub(crate) children: AttachRows,
    /// What the names behind arrows stand for, rule by rule.
    pub(crate) targets: Vec<Targets>,
    /// The number of the file rule that each pattern belongs to.
    pub(crate) owners: Vec<usize>,
}

impl ProfileRows {
    /// What the name in rule number `target` stands for.
    pub(crate) fn targets_at(&self, target: usize) -> Targets
        ensures { result ≡ option_map_or (λ (t : Targets). t) (slice_get self.now.targets.items target) no_targets }
    {
        match self.targets.get(target) {
            Some(targets) => *targets,
            None => Targets::none(),
        }
    }
}

fn fault_of_rows(fault: RowsFault, at: Spot) -> PolicyFault
    ensures { result ≡ rows_fault fault at }
{
    let kind = match fault {
        RowsFault::NoMemory => return PolicyFault::NO_MEMORY,
        RowsFault::TooManyStates => PolicyKind::TooManyStates,
        RowsFault::Conflict => PolicyKind::ConflictingExec,
    };
    PolicyFault { kind, at }
}

pub(crate) fn fault_of_states(fault: BuildFault, at: Spot) -> PolicyFault
    ensures { result ≡ states_fault fault at }
{
    match fault {
        BuildFault::NoMemory => PolicyFault::NO_MEMORY,
        BuildFault::TooManyStates => PolicyFault {
            kind: PolicyKind::TooManyStates,
            at,
        },
    }
}

fn rows_of_profile(
    alloc: Global,
    numbers: &HashMap<Vec<u8>, u16>,
    groups: &[Vec<u16>],
    profiles: &[Profile],
    number: u16,
    profile: &Profile,
    limit: usize,
) -> Result<ProfileRows, PolicyFault>
    requires numbers { IsNumbering numbers.now profiles.now }
    requires group { slice_index_or (lists groups.now) number [] ≡ children profiles.now number }
    requires within { number < length groups.now }
    requires limits { IsWithinLimits profiles.now }
    requires files { length (patterns_of profile.now.files) ≤ most_patterns }
    requires some { 0 < limit }
    requires limit { limit ≤ most_states }
    ensures right { IfOk result (IsRight profiles.now number profile.now) }
    ensures passes { IfOk result (λ _. Passes profiles.now limit number profile.now) }
    ensures fails { IfErr result (λ f. (f ≡ no_memory) ⊎ Fails profiles.now limit number profile.now f) }
{
    let files = match FileRows::build(alloc, profile.files.as_slice(), limit) {
        Ok(files) => files,
        Err(fault) => return Err(fault_of_rows(fault, profile.at)),
    };
    let below = group_at(groups, number as usize);
    let children = match AttachRows::build(alloc, profiles, below, limit) {
        Ok(children) => children,
        Err(fault) => return Err(fault_of_states(fault, profile.at)),
    };
    let targets = all_targets(alloc, numbers, profiles, profile)?;
    let owners = owners_of(alloc, profile.files.as_slice())?;
    Ok(ProfileRows {
        files,
        children,
        targets,
        owners,
    })
}

/// What each profile needs, in order.
pub(crate) fn rows_of(
    alloc: Global,
    numbers: &HashMap<Vec<u8>, u16>,
    groups: &[Vec<u16>],
    profiles: &[Profile],
    limit: usize,
) -> Result<Vec<ProfileRows>, PolicyFault>
    requires numbers { IsNumbering numbers.now profiles.now }
    requires groups { (n : ℕ) → n < length profiles.now → slice_index_or (lists groups.now) n [] ≡ children profiles.now n }
    requires many { length groups.now ≡ length profiles.now }
    requires limits { IsWithinLimits profiles.now }
    requires some { 0 < limit }
    requires limit { limit ≤ most_states }
    ensures right { IfOk result (λ rows. AreRight profiles.now (length profiles.now) rows.items) }
    ensures passes { IfOk result (λ _. PassBefore profiles.now limit (length profiles.now)) }
    ensures fails { IfErr result (λ f. (f ≡ no_memory) ⊎ Refuses profiles.now limit f) }
{
    let mut rows = Vec::new(alloc);
    for (number, profile) in profiles.iter().enumerate() {
        match rows_of_profile(
            alloc,
            numbers,
            groups,
            profiles,
            number as u16,
            profile,
            limit,
        ) {
            Ok(profile_rows) => rows.push(profile_rows)?,
            Err(fault) => return Err(fault),
        }
    }
    Ok(rows)
}
