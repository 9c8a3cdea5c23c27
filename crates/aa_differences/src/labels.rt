//! Labels that are called the same in two lists of policies.

ghost use Rattle.std.specs.Prelude.{◌≡◌, ◌≤◌, ◌⊎◌, ℕ, None, IfOk, OnOk, Contains, length};
ghost use Rattle.aa_model.specs.declared.label.Label.{Label};
ghost use Rattle.aa_model.specs.declared.request.Request.{Request};
ghost use Rattle.aa_compile.specs.Labels.{profile_in};
ghost use Rattle.aa_differences.specs.declared.labels.Labels.{Labels};
ghost use Rattle.aa_differences.specs.Same.{SameLabel, AnsweredAlike};
ghost use Rattle.aa_differences.specs.Pairs.{AddsPairs, HasPairsOf, HasPairsAt};

use aa_compile::{Compiled, profile_of};
use aa_model::Label;
use std::alloc::{AllocError, Global};

/// Two labels.
#[derive(Clone, Copy, Drop)]
pub(crate) struct Labels {
    pub(crate) from: Label,
    pub(crate) to: Label,
}

/// Adds the labels of the profile of that number and of the one that is called the same, if there are both.
fn add_profile(
    labels: &mut Vec<Labels>,
    old: &[Compiled],
    new: &[Compiled],
    policy: u16,
    number: u16,
) -> Result<(), AllocError>
    ensures adds { OnOk result (AddsPairs old.now new.now labels.old.items labels.new.items) }
    ensures has { OnOk result (HasPairsOf old.now new.now policy number labels.new.items) }
{
    let Some(profile) = profile_of(old, policy, number) else {
        return Ok(());
    };
    let Some(compiled) = new.get(policy as usize) else {
        return Ok(());
    };
    let Some(other) = compiled.find(profile.name.as_slice()) else {
        return Ok(());
    };
    labels.push(Labels {
        from: Label::Confined(policy, number),
        to: Label::Confined(policy, other),
    })?;
    Ok(())
}

/// How many profiles a policy has; none where it isn't there.
fn count_of(policies: &[Compiled], policy: u16) -> u16
    ensures { (n : ℕ) → result ≤ n → profile_in policies.now policy n ≡ None }
{
    match policies.get(policy as usize) {
        Some(compiled) => compiled.policy().profiles.as_slice().len() as u16,
        None => 0,
    }
}

/// Adds the labels of a policy's profiles, each with the one that is called the same.
fn add_profiles(
    labels: &mut Vec<Labels>,
    old: &[Compiled],
    new: &[Compiled],
    policy: u16,
) -> Result<(), AllocError>
    ensures adds { OnOk result (AddsPairs old.now new.now labels.old.items labels.new.items) }
    ensures has { OnOk result ((n : ℕ) → HasPairsOf old.now new.now policy n labels.new.items) }
{
    for number in 0..count_of(old, policy) {
        add_profile(labels, old, new, policy, number)?;
    }
    Ok(())
}

/// Adds the labels of policies of that number.
fn add_policy(
    labels: &mut Vec<Labels>,
    old: &[Compiled],
    new: &[Compiled],
    policy: u16,
) -> Result<(), AllocError>
    ensures adds { OnOk result (AddsPairs old.now new.now labels.old.items labels.new.items) }
    ensures has { OnOk result (HasPairsAt old.now new.now policy labels.new.items) }
{
    let free = Label::Unconfined(policy);
    labels.push(Labels {
        from: free,
        to: free,
    })?;
    add_profiles(labels, old, new, policy)
}

/// The labels that are called the same; all others that are get the same answers.
pub(crate) fn same_labels(
    alloc: Global,
    old: &[Compiled],
    new: &[Compiled],
) -> Result<Vec<Labels>, AllocError>
    requires old { length old.now ≤ 65536 }
    requires new { length new.now ≤ 65536 }
    ensures each { IfOk result (λ ls. (x : Labels) → Contains ls.items x → SameLabel old.now new.now x.from x.to) }
    ensures all { IfOk result (λ ls. (l m : Label) → SameLabel old.now new.now l m → ((r : Request) → AnsweredAlike old.now new.now l m r) ⊎ Contains ls.items (record { from = l; to = m })) }
{
    let mut labels = Vec::new(alloc);
    for policy in 0..old.len().max(new.len()) {
        add_policy(&mut labels, old, new, policy as u16)?;
    }
    Ok(labels)
}
