//! How many patterns decide at labels, at most.

ghost use Rattle.std.specs.Prelude.{◌≡◌, ◌≤◌, ◌<◌, ◌*◌, ◌+◌, [], true, ℕ, Option, length, IfSome};
ghost use Rattle.std.specs.List.{slice_get};
ghost use Rattle.std.specs.Option.{option_map_or};
ghost use Rattle.aa_pattern.specs.Limits.{most_patterns};
ghost use Rattle.aa_model.specs.Lawful.{attachment_patterns};
ghost use Rattle.aa_model.specs.declared.policy.Policy.{Policy};
ghost use Rattle.aa_compile.specs.Labels.{policy_number};
ghost use Rattle.aa_compile.specs.Rows.{patterns_of};
ghost use Rattle.aa_reachability.specs.Extents.{IsExtent, IsFewAt};

use aa_compile::{Compiled, profile_of};
use aa_model::{FileRule, Label, Profile};

/// More patterns than can be matched together.
pub(crate) const TOO_MANY: usize = 65_536;

/// A policy, by its number, and at least as many as its profiles have attachments.
#[derive(Clone, Copy)]
pub(crate) struct Extent {
    policy: u16,
    attachments: usize,
}

/// These and so many more, but no more than is too many.
fn counted(count: usize, more: usize) -> usize
    requires { count ≤ 65536 }
    ensures bounded { result ≤ 65536 }
    ensures exact { result < 65536 → result ≡ count + more }
{
    (count + more.min(TOO_MANY)).min(TOO_MANY)
}

/// At least as many as the profiles below one, or the top-level ones, have attachments, unless these are too many.
fn attachments_in(profiles: &[Profile]) -> usize
    ensures bounded { result ≤ 65536 }
    ensures most { (parent : Option ℕ) → result < 65536 → attachment_patterns parent profiles.now ≤ result }
{
    let mut count = 0;
    for profile in profiles {
        count = counted(count, profile.attachments.as_slice().len());
    }
    count
}

/// How many patterns rules have, unless these are too many.
fn patterns_in(rules: &[FileRule]) -> usize
    ensures bounded { result ≤ 65536 }
    ensures exact { result < 65536 → length (patterns_of rules.now) ≡ result }
{
    let mut count = 0;
    for rule in rules {
        count = counted(count, rule.patterns.as_slice().len());
    }
    count
}

/// The number of the policy that decides at a label.
pub(crate) fn number_of(label: Label) -> u16
    ensures { result ≡ policy_number label }
{
    match label {
        Label::Unconfined(policy) => policy,
        Label::Confined(policy, _) => policy,
    }
}

/// The profiles of the policy of that number, if it is there.
pub(crate) fn profiles_in(policies: &[Compiled], policy: u16) -> &[Profile]
    ensures { result.now ≡ option_map_or (λ (p : Policy). p.profiles) (slice_get policies.now policy) [] }
{
    match policies.get(policy as usize) {
        Some(compiled) => compiled.policy().profiles.as_slice(),
        None => &[],
    }
}

/// The policy that decides at a label, and how many attachments it has.
pub(crate) fn extent_at(policies: &[Compiled], label: Label) -> Extent
    ensures { IsExtent policies.now result }
{
    let policy = number_of(label);
    let attachments = attachments_in(profiles_in(policies, policy));
    Extent {
        policy,
        attachments,
    }
}

/// Whether a profile has few patterns, beside twice so many attachments.
fn has_few(profile: &Profile, attachments: usize) -> bool
    requires { attachments ≤ 65536 }
    ensures { result ≡ true → (attachments < 65536) × (length (patterns_of profile.now.files) + 2 * attachments ≤ most_patterns) }
{
    patterns_in(profile.files.as_slice()) + 2 * attachments < TOO_MANY
}

/// The profile of a label of that policy, if there is one at which few patterns decide.
pub(crate) fn profile_with_few<'p>(
    policies: &'p [Compiled],
    extent: Extent,
    label: Label,
) -> Option<&'p Profile>
    requires { IsExtent policies.now extent }
    ensures { IfSome result (λ p. IsFewAt policies.now label p.now) }
{
    let Label::Confined(policy, number) = label else {
        return None;
    };
    if policy != extent.policy {
        return None;
    }
    let profile = profile_of(policies, policy, number)?;
    if !has_few(profile, extent.attachments) {
        return None;
    }
    Some(profile)
}
