//! Profiles and rules behind others.

ghost use Rattle.std.specs.Prelude.{◌≡◌, ◌+◌, ◌≤◌, map, IfSome};
ghost use Rattle.std.specs.List.{All};
ghost use Rattle.aa_load.specs.Joined.{moved, moved_rule};

use aa_model::{PassedOver, Profile};

/// Moves a profile behind so many others.
fn move_profile(profile: &mut Profile, before: u16)
    requires { IfSome profile.old.parent (λ n. n + before ≤ 65535) }
    ensures { profile.new ≡ moved before profile.old }
{
    if let Some(parent) = profile.parent {
        profile.parent = Some(parent + before);
    }
}

/// Moves profiles behind so many others.
pub fn move_profiles(profiles: &mut [Profile], before: u16)
    requires { All (λ p. IfSome p.parent (λ n. n + before ≤ 65535)) profiles.old }
    ensures { profiles.new ≡ map (moved before) profiles.old }
{
    for profile in profiles.iter_mut() {
        move_profile(profile, before);
    }
}

/// Moves rules that never decide behind so many profiles.
pub fn move_rules(rules: &mut [PassedOver], before: u16)
    requires { All (λ r. r.profile + before ≤ 65535) rules.old }
    ensures { rules.new ≡ map (moved_rule before) rules.old }
{
    for rule in rules.iter_mut() {
        rule.profile += before;
    }
}
