//! What is kept of the policies so far.

ghost use Rattle.std.specs.Prelude.{◌≡◌, ◌||◌, ◌+◌, ◌≤◌, None, Some, length, nat_lt, IfOk, IfErr, OnOk, OnErr};
ghost use Rattle.std.specs.List.{list_any};
ghost use Rattle.aa_pattern.specs.Limits.{most_patterns};
ghost use Rattle.aa_model.specs.Lawful.{attachments_with, attachment_patterns};
ghost use Rattle.aa_load.specs.Joined.{rows_of, joined};
ghost use Rattle.aa_load.specs.Faults.{is_too_large, fault_of};
ghost use Rattle.aa_load.specs.Kept.{kept_rows, IsKept, IsReady};

use crate::join_fault::JoinFault;
use crate::moving::{move_profiles, move_rules};
use crate::numbers::{first_repeated, note_all};
use aa_model::{PassedOver, Policy, Profile};
use std::alloc::{AllocError, Global};
use std::collections::BTreeMap;

/// The most profiles of a policy.
const MAX_PROFILES: usize = 4096;

/// The most attachment patterns of the top-level profiles.
const MAX_ATTACHMENTS: usize = 65535;

/// What is kept of the policies so far.
#[derive(Drop)]
pub struct Kept {
    pub profiles: Vec<Profile>,
    pub passed_over: Vec<PassedOver>,
    /// The number of the profile of each name. Names are looked up in their own order, so that it takes no longer with
    /// names that their author chose.
    pub numbers: BTreeMap<Vec<u8>, u16>,
    /// How many attachment patterns the top-level profiles have.
    pub attachments: usize,
}

/// How many attachment patterns a profile has, if it is a top-level one.
fn attachments_at_top(profile: &Profile) -> usize
    ensures { result ≡ attachments_with None profile.now }
{
    if profile.parent.is_none() {
        profile.attachments.as_slice().len()
    } else {
        0
    }
}

/// How many attachment patterns the top-level profiles have.
fn count_attachments(profiles: &[Profile]) -> usize
    requires { attachment_patterns None profiles.now ≤ most_patterns }
    ensures { result ≡ attachment_patterns None profiles.now }
{
    let mut count = 0;
    for profile in profiles {
        count += attachments_at_top(profile);
    }
    count
}

/// Whether there are more profiles than a policy may have, or more attachment patterns than its top-level profiles may.
fn is_over(profiles: usize, attachments: usize) -> bool
    ensures { result ≡ (nat_lt 4096 profiles || nat_lt most_patterns attachments) }
{
    profiles > MAX_PROFILES || attachments > MAX_ATTACHMENTS
}

/// Whether behind so many profiles a rule would be one of a profile whose number is too large.
fn has_far_rule(rules: &[PassedOver], before: usize) -> bool
    requires { before ≤ 4096 }
    ensures { result ≡ list_any (λ r. nat_lt 65535 (r.profile + before)) rules.now }
{
    rules
        .iter()
        .any(|rule| rule.profile as usize + before > u16::MAX as usize)
}

/// Whether a limit is passed with the profiles and rules of a policy, where the top-level profiles then have so many
/// attachment patterns.
fn is_too_large(kept: &Kept, policy: &Policy, attachments: usize) -> bool
    requires kept { IsKept kept.now }
    requires count { attachments ≡ attachment_patterns None (joined (kept_rows kept.now) (rows_of policy.now)).profiles }
    ensures { result ≡ is_too_large (joined (kept_rows kept.now) (rows_of policy.now)) }
{
    let before = kept.profiles.len();
    is_over(before + policy.profiles.as_slice().len(), attachments)
        || has_far_rule(policy.passed_over.as_slice(), before)
}

/// How many attachment patterns the top-level profiles have together with those of a policy, if it can be added.
/// Refused, in this order: `DuplicateProfile`, `TooLarge`.
pub fn check(kept: &Kept, policy: &Policy) -> Result<usize, JoinFault>
    requires { IsKept kept.now }
    ensures none { OnOk result (fault_of (kept_rows kept.now) (rows_of policy.now) ≡ None) }
    ensures count { IfOk result (λ n. n ≡ attachment_patterns None (joined (kept_rows kept.now) (rows_of policy.now)).profiles) }
    ensures fault { IfErr result (λ f. fault_of (kept_rows kept.now) (rows_of policy.now) ≡ Some f) }
{
    let profiles = policy.profiles.as_slice();
    if let Some(repeated) = first_repeated(&kept.numbers, profiles) {
        return Err(JoinFault::DuplicateProfile(repeated));
    }
    let attachments = kept.attachments + count_attachments(profiles);
    if is_too_large(kept, policy, attachments) {
        return Err(JoinFault::TooLarge);
    }
    Ok(attachments)
}

/// Makes room for the profiles and rules of a policy that can be added, and notes the numbers of its profiles. Where memory
/// runs out all is as before.
pub fn make_room(alloc: Global, kept: &mut Kept, policy: &Policy) -> Result<(), AllocError>
    requires kept { IsKept kept.old }
    requires joinable { fault_of (kept_rows kept.old) (rows_of policy.now) ≡ None }
    ensures rows { kept_rows kept.new ≡ kept_rows kept.old }
    ensures ok { OnOk result (IsReady kept.new policy.now) }
    ensures err { OnErr result (IsKept kept.new) }
{
    let profiles = policy.profiles.as_slice();
    kept.profiles.reserve(profiles.len())?;
    kept.passed_over
        .reserve(policy.passed_over.as_slice().len())?;
    note_all(alloc, &mut kept.numbers, kept.profiles.len(), profiles)
}

/// Adds the profiles and rules of a policy for which there is room; so many attachment patterns the top-level profiles
/// then have.
pub fn take_in(kept: &mut Kept, policy: Policy, attachments: usize)
    requires ready { IsReady kept.old policy }
    requires count { attachments ≡ attachment_patterns None (joined (kept_rows kept.old) (rows_of policy)).profiles }
    ensures kept { IsKept kept.new }
    ensures rows { kept_rows kept.new ≡ joined (kept_rows kept.old) (rows_of policy) }
{
    let before = kept.profiles.len() as u16;
    let Policy {
        profiles,
        passed_over,
    } = policy;
    let mut profiles = profiles.into_vec();
    let mut rules = passed_over.into_vec();
    move_profiles(&mut profiles, before);
    move_rules(&mut rules, before);
    let _ = kept.profiles.append(&mut profiles);
    let _ = kept.passed_over.append(&mut rules);
    kept.attachments = attachments;
}
