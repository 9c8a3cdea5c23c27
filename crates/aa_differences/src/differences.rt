//! Differences of two lists of policies.

ghost use Rattle.std.specs.Prelude.{◌≡◌, ◌↔◌, ◌+◌, ◌++◌, ◌<◌, ◌≤◌, ◌∷◌, [], true, Err, IfOk, OnOk, Contains, length};
ghost use Rattle.aa_pattern.specs.Limits.{most_states};
ghost use Rattle.aa_differences.specs.declared.at_labels.Difference.{Difference};
ghost use Rattle.aa_differences.specs.declared.comparison.Excess.{Excess};
ghost use Rattle.aa_differences.specs.declared.comparison.UntoldLabels.{UntoldLabels};
ghost use Rattle.aa_differences.specs.declared.labels.Labels.{Labels};
ghost use Rattle.aa_differences.specs.Same.{SameLabel, SamePolicies};
ghost use Rattle.aa_differences.specs.Sameness.{SameHeads};
ghost use Rattle.aa_differences.specs.Differences.{IsDifference, ListAllAt, ListAllBut, IsUntold, AreTold, AddsAllAt};
ghost use Rattle.aa_differences.specs.Faults.{fault_of};

use crate::at_labels::{Difference, label_differences};
use crate::comparison::{Comparison, Excess, UntoldLabels};
use crate::labels::{Labels, same_labels};
use crate::sameness::{same_body_at, same_heads};
use aa_compile::Compiled;
use aa_model::Label;
use aa_representatives::RepresentativesFault;
use std::alloc::{AllocError, Global};

/// What the patterns have too much of, if it isn't memory that there is too little of.
fn excess_of(fault: RepresentativesFault) -> Result<Excess, AllocError>
    ensures { IfOk result (λ why. fault ≡ fault_of why) }
{
    match fault {
        RepresentativesFault::NoMemory => Err(AllocError),
        RepresentativesFault::TooManyPatterns => Ok(Excess::Patterns),
        RepresentativesFault::TooManyStates => Ok(Excess::States),
    }
}

/// Adds labels at which differences can't be told.
fn add_untold(
    found: &mut Comparison,
    from: Label,
    to: Label,
    fault: RepresentativesFault,
) -> Result<(), AllocError>
    ensures differences { found.new.differences.items ≡ found.old.differences.items }
    ensures untold { OnOk result ((why : Excess) × (fault ≡ fault_of why) × (found.new.untold.items ≡ found.old.untold.items ++ record { from = from; to = to; why = why } ∷ [])) }
{
    let why = excess_of(fault)?;
    found.untold.push(UntoldLabels { from, to, why })?;
    Ok(())
}

/// Adds the differences at two labels, or that they can't be told there. Where all heads are the same there is none at a label whose body
/// is the same, and none is looked for.
fn add_differences_at(
    alloc: Global,
    found: &mut Comparison,
    old: &[Compiled],
    from: Label,
    new: &[Compiled],
    to: Label,
    has_same_heads: bool,
    limit: usize,
) -> Result<(), AllocError>
    requires labels { SameLabel old.now new.now from to }
    requires heads { has_same_heads ≡ true → SameHeads old.now new.now }
    requires some { 0 < limit }
    requires limit { limit ≤ most_states }
    ensures { OnOk result (AddsAllAt old.now new.now limit from to found.old found.new) }
{
    if has_same_heads && same_body_at(old, from, new, to) {
        return Ok(());
    }
    match label_differences(alloc, old, from, new, to, limit) {
        Ok(mut more) => {
            found.differences.append(&mut more)?;
            Ok(())
        }
        Err(fault) => add_untold(found, from, to, fault),
    }
}

/// The differences at each two of these labels.
fn differences_of(
    alloc: Global,
    old: &[Compiled],
    new: &[Compiled],
    labels: &[Labels],
    has_same_heads: bool,
    limit: usize,
) -> Result<Comparison, AllocError>
    requires labels { (x : Labels) → Contains labels.now x → SameLabel old.now new.now x.from x.to }
    requires heads { has_same_heads ≡ true → SameHeads old.now new.now }
    requires some { 0 < limit }
    requires limit { limit ≤ most_states }
    ensures each { IfOk result (λ found. (d : Difference) → Contains found.differences.items d → IsDifference old.now new.now d) }
    ensures untold { IfOk result (λ found. (u : UntoldLabels) → Contains found.untold.items u → IsUntold old.now new.now limit u) }
    ensures all { IfOk result (λ found. (x : Labels) → Contains labels.now x → AreTold found.untold.items x.from x.to → ListAllAt old.now new.now x.from x.to found.differences.items) }
{
    let mut found = Comparison {
        differences: Vec::new(alloc),
        untold: Vec::new(alloc),
    };
    for at in labels {
        add_differences_at(
            alloc,
            &mut found,
            old,
            at.from,
            new,
            at.to,
            has_same_heads,
            limit,
        )?;
    }
    Ok(found)
}

/// The requests that two lists of policies answer differently at labels that are called the same, finitely many: each other has the
/// answers of one of its kind among them. A request that leads to labels which are called otherwise is answered differently. Labels
/// whose patterns are too many, or need together more than `limit` states, are told in place of what is answered differently there.
/// Profiles that are the same cost no more than to be compared where both lists have the same profiles by names, parents and
/// attachments in one order.
pub fn policy_differences(
    alloc: Global,
    old: &[Compiled],
    new: &[Compiled],
    limit: usize,
) -> Result<Comparison, AllocError>
    requires few_old { length old.now ≤ 65536 }
    requires few_new { length new.now ≤ 65536 }
    requires some { 0 < limit }
    requires limit { limit ≤ most_states }
    ensures each { IfOk result (λ found. (d : Difference) → Contains found.differences.items d → IsDifference old.now new.now d) }
    ensures untold { IfOk result (λ found. (u : UntoldLabels) → Contains found.untold.items u → IsUntold old.now new.now limit u) }
    ensures all { IfOk result (λ found. ListAllBut old.now new.now found.untold.items found.differences.items) }
    ensures none { IfOk result (λ found. found.untold.items ≡ [] → (found.differences.items ≡ []) ↔ SamePolicies old.now new.now) }
{
    let labels = same_labels(alloc, old, new)?;
    let has_same_heads = same_heads(old, new);
    let found = differences_of(alloc, old, new, labels.as_slice(), has_same_heads, limit)?;
    Ok(found)
}
