//! From labels to names and profiles, and back.

ghost use Rattle.std.specs.Prelude.{◌≡◌, option_map};
ghost use Rattle.std.specs.Option.{option_map_or};
ghost use Rattle.std.specs.List.{slice_get};
ghost use Rattle.aa_model.specs.declared.policy.Policy.{Policy};
ghost use Rattle.aa_compile.specs.Labels.{profile_in, first_profiles, label_name, label_in, label_named};

use crate::compiling::Compiled;
use aa_model::{Label, Profile};

/// The profile of that number in the policy of that number, if there are both.
pub fn profile_of(policies: &[Compiled], policy: u16, profile: u16) -> Option<&Profile>
    ensures { option_map (λ p. p.now) result ≡ profile_in policies.now policy profile }
{
    let compiled = policies.get(policy as usize)?;
    compiled.policy().profiles.as_slice().get(profile as usize)
}

/// The profiles of the first policy.
pub fn first_profiles(policies: &[Compiled]) -> &[Profile]
    ensures { result.now ≡ first_profiles policies.now }
{
    match policies.get(0) {
        Some(compiled) => compiled.policy().profiles.as_slice(),
        None => &[],
    }
}

/// How a label is called: by the full name of its profile, or `unconfined`. One that the policies don't have has no name.
#[tactic(auto, unfolding(crate::specs::Labels::label_name))]
pub fn name_of_label<'p>(policies: &'p [Compiled], label: Label) -> &'p [u8]
    ensures { result.now ≡ label_name policies.now label }
{
    match label {
        Label::Unconfined(_) => "unconfined".as_bytes(),
        Label::Confined(policy, profile) => match profile_of(policies, policy, profile) {
            Some(profile) => profile.name.as_slice(),
            None => &[],
        },
    }
}

fn label_by(compiled: &Compiled, policy: u16, name: &[u8]) -> Option<Label>
    ensures { result ≡ label_in policy name.now compiled.now }
{
    if name == "unconfined".as_bytes() {
        return Some(Label::Unconfined(policy));
    }
    match compiled.find(name) {
        Some(profile) => Some(Label::Confined(policy, profile)),
        None => None,
    }
}

/// The label of that name in the policy of that number, if there are both: `unconfined`, or a full profile name.
pub fn label_of(policies: &[Compiled], policy: u16, name: &[u8]) -> Option<Label>
    ensures { result ≡ label_named policies.now policy name.now }
{
    match policies.get(policy as usize) {
        Some(compiled) => label_by(compiled, policy, name),
        None => None,
    }
}
