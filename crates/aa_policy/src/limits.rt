//! The limits, noticed while profiles are read: past one nothing is kept of a profile but its name. And the third pass.

ghost use Rattle.std.specs.Prelude.{◌≡◌, ◌⊎◌, ◌+◌, ◌≤◌, ◌↔◌, ◌++◌, ◌∷◌, [], List, IsTrue, length, IfOk, IfErr, OnOk};
ghost use Rattle.std.specs.List.{IsDistinct};
ghost use Rattle.std.specs.Str.{bytes_eq};
ghost use Rattle.aa_pattern.specs.Limits.{most_patterns};
ghost use Rattle.aa_base.specs.Kinds.{no_memory};
ghost use Rattle.aa_model.specs.declared.rule.FileRule.{FileRule};
ghost use Rattle.aa_model.specs.declared.policy.Profile.{Profile};
ghost use Rattle.aa_model.specs.Lawful.{names_of, attachments_with, attachment_patterns};
ghost use Rattle.aa_policy.specs.Keeping.{KeepsRules, KeepsProfile, KeepsProfiles, FitsBeside, HasRoom, HasNoPatterns, IsNamedAs};
ghost use Rattle.aa_policy.specs.Spelling.{IsRepeated};

use aa_base::{PolicyFault, PolicyKind, Seq};
use aa_model::{FileRule, Profile};
use std::alloc::{AllocError, Global};
use std::collections::BTreeSet;

/// The most profiles of a policy.
const MAX_PROFILES: usize = 4096;

/// The most bytes of a full name.
const MAX_NAME: usize = 1024;

/// The most patterns of a profile's file rules.
const MAX_PATTERNS: usize = 65535;

/// The most attachment patterns of the profiles below one parent, or of the top-level profiles.
const MAX_ATTACHMENTS: usize = 65535;

/// The file rules of a profile, kept while they have no more patterns than a profile may have.
#[derive(Drop)]
pub struct KeptRules {
    pub rules: Vec<FileRule>,
    /// How many patterns more they may have.
    pub room: usize,
    /// Whether the rules that were read have more patterns than that.
    pub over: bool,
}

/// A profile as it is read.
#[derive(Drop)]
pub struct ReadProfile {
    pub profile: Profile,
    /// Whether the file rules that were read have more patterns than a profile may have.
    pub over: bool,
}

/// Profiles, kept while no limit is passed; from then on their names alone.
#[derive(Drop)]
pub struct KeptProfiles {
    pub profiles: Vec<Profile>,
    /// How many attachment patterns more the profiles below each parent may have, or less than that.
    pub room: usize,
    /// Whether the profiles that were read are past a limit.
    pub over: bool,
}

/// Room for that many rules, of which none is read.
pub fn no_rules(alloc: Global, count: usize) -> Result<KeptRules, AllocError>
    ensures { IfOk result (λ k. KeepsRules [] k) }
{
    Ok(KeptRules {
        rules: Vec::with_capacity(alloc, count)?,
        room: MAX_PATTERNS,
        over: false,
    })
}

/// Keeps a rule more, unless a profile may not have its patterns beside those before it.
pub fn push_rule(kept: &mut KeptRules, rule: FileRule) -> Result<(), AllocError>
    ensures { OnOk result ((spelled : List FileRule) → KeepsRules spelled kept.old → KeepsRules (spelled ++ rule ∷ []) kept.new) }
{
    let more = rule.patterns.as_slice().len();
    if kept.over || more > kept.room {
        kept.over = true;
        return Ok(());
    }
    kept.rules.push(rule)?;
    kept.room -= more;
    Ok(())
}

/// Room for that many profiles, of which none is read.
pub fn no_profiles(alloc: Global, count: usize) -> Result<KeptProfiles, AllocError>
    ensures { IfOk result (λ k. KeepsProfiles [] k) }
{
    Ok(KeptProfiles {
        profiles: Vec::with_capacity(alloc, count)?,
        room: MAX_ATTACHMENTS,
        over: false,
    })
}

/// How many attachment patterns a profile has, if it has that parent.
fn attachments_with(profile: &Profile, parent: Option<u16>) -> usize
    ensures { result ≡ attachments_with parent profile.now }
{
    if profile.parent == parent {
        profile.attachments.as_slice().len()
    } else {
        0
    }
}

/// Whether the profiles below a parent may have so many attachment patterns more.
fn has_room_below(profiles: &[Profile], parent: Option<u16>, more: usize) -> bool
    ensures { IsTrue result ↔ (attachment_patterns parent profiles.now + more ≤ most_patterns) }
{
    if more > MAX_ATTACHMENTS {
        return false;
    }
    let mut room = MAX_ATTACHMENTS - more;
    for profile in profiles {
        let taken = attachments_with(profile, parent);
        if taken > room {
            return false;
        }
        room -= taken;
    }
    true
}

/// Whether a policy may have a profile beside the others; those below its parent are counted only where there may be no
/// room for its attachment patterns.
// So the count is linear where all profiles together have no more attachment patterns than those below one parent may have.
fn fits_beside(kept: &KeptProfiles, profile: &Profile) -> bool
    ensures { HasRoom kept.now.profiles.items kept.now.room → (IsTrue result ↔ FitsBeside kept.now.profiles.items profile.now) }
{
    let more = profile.attachments.as_slice().len();
    kept.profiles.len() < MAX_PROFILES
        && profile.name.as_slice().len() <= MAX_NAME
        && (more <= kept.room || has_room_below(kept.profiles.as_slice(), profile.parent, more))
}

/// A profile without its patterns.
fn without_patterns(alloc: Global, profile: Profile) -> Profile
    ensures named { IsNamedAs profile result }
    ensures none { HasNoPatterns result }
{
    let mut profile = profile;
    profile.attachments = Seq::from_vec(Vec::new(alloc));
    profile.files = Seq::from_vec(Vec::new(alloc));
    profile
}

/// Keeps a profile more, or its name alone from where a limit is passed.
pub fn push_profile(
    alloc: Global,
    kept: &mut KeptProfiles,
    read: ReadProfile,
) -> Result<(), AllocError>
    ensures { OnOk result ((spelled : List Profile) (p : Profile) → KeepsProfiles spelled kept.old → KeepsProfile p read → KeepsProfiles (spelled ++ p ∷ []) kept.new) }
{
    let ReadProfile { profile, over } = read;
    if kept.over || over || !fits_beside(kept, &profile) {
        kept.profiles.push(without_patterns(alloc, profile))?;
        kept.over = true;
        return Ok(());
    }
    let more = profile.attachments.as_slice().len();
    kept.profiles.push(profile)?;
    kept.room = kept.room.saturating_sub(more);
    Ok(())
}

/// Refuses the first profile whose name an earlier one has. Names are looked up in their order, so
/// that it takes no longer with names that their author chose.
// A hash of the kit has a known seed where no run time is at hand: names made for it would make the walk quadratic.
pub fn check_names(alloc: Global, profiles: &[Profile]) -> Result<(), PolicyFault>
    ensures distinct { OnOk result (IsDistinct bytes_eq (names_of profiles.now)) }
    ensures repeated { IfErr result (λ e. (e ≡ no_memory) ⊎ ((e.kind ≡ PolicyKind.DuplicateProfile) × IsRepeated profiles.now e.at)) }
{
    let mut names = BTreeSet::new(alloc);
    for profile in profiles {
        let added = names.insert(profile.name.as_slice())?;
        if !added {
            return Err(PolicyFault {
                kind: PolicyKind::DuplicateProfile,
                at: profile.at,
            });
        }
    }
    Ok(())
}
