//! What is found of a profile.

ghost use Rattle.std.specs.Prelude.{◌≡◌, ◌<◌, ◌≤◌, ◌+◌, length, Some, IfOk, IfErr};
ghost use Rattle.std.specs.List.{slice_get};
ghost use Rattle.aa_pattern.specs.Limits.{most_states};
ghost use Rattle.aa_findings.specs.Below.{AreBelow, AreAttached};
ghost use Rattle.aa_findings.specs.Found.{AreFindings, HasNoFindings, AreFindingsIn, HasNoFindingsIn, AreFindingsAt, HasNoFindingsAt};

use crate::applied::applied_of;
use crate::below::{Attached, Below, shared_below};
use crate::fault::FindingsFault;
use crate::finding::Finding;
use crate::gathering::push_rules;
use crate::rows::rows_of;
use crate::ties::push_tie;
use aa_compile::Compiled;
use aa_model::Profile;
use std::alloc::Global;

/// What is found of a profile of a policy.
fn findings_in(
    alloc: Global,
    compiled: &Compiled,
    below: &[Below],
    number: u16,
    profile: &Profile,
    limit: usize,
) -> Result<Vec<Finding>, FindingsFault>
    requires below { AreBelow compiled.now.profiles limit (length compiled.now.profiles + 1) below.now }
    requires profile { slice_get compiled.now.profiles number ≡ Some profile.now }
    requires some { 0 < limit }
    requires limit { limit ≤ most_states }
    ensures found { IfOk result (λ found. AreFindings compiled.now.profiles number profile.now found.items) }
    ensures many { IfErr result (λ e. HasNoFindings compiled.now.profiles profile.now limit e) }
{
    let shared = shared_below(below, profile.parent)?;
    let mut found = Vec::new(alloc);
    push_tie(&mut found, alloc, number as usize, shared)?;
    let rows = rows_of(alloc, compiled, number, profile, limit)?;
    let index = applied_of(alloc, compiled, number, profile, rows.as_slice())?;
    push_rules(
        &mut found,
        alloc,
        rows.as_slice(),
        index.as_slice(),
        profile,
    )?;
    Ok(found)
}

/// The same of the profile with that number; nothing where there is none.
fn findings_at(
    alloc: Global,
    compiled: &Compiled,
    below: &[Below],
    number: u16,
    limit: usize,
) -> Result<Vec<Finding>, FindingsFault>
    requires below { AreBelow compiled.now.profiles limit (length compiled.now.profiles + 1) below.now }
    requires some { 0 < limit }
    requires limit { limit ≤ most_states }
    ensures found { IfOk result (λ found. AreFindingsIn compiled.now.profiles number (slice_get compiled.now.profiles number) found.items) }
    ensures many { IfErr result (λ e. HasNoFindingsIn compiled.now.profiles (slice_get compiled.now.profiles number) limit e) }
{
    match compiled.policy().profiles.as_slice().get(number as usize) {
        Some(profile) => findings_in(alloc, compiled, below, number, profile, limit),
        None => Ok(Vec::new(alloc)),
    }
}

/// What is found of the profile with that number in the first of the policies: of its attachments, and then of its rules on files, on
/// capabilities, on sockets and on changes of the profile, each in its order; nothing where there is no such profile. An automaton
/// may have at most `limit` states. The errors are `TooManyPatterns`, `TooManyStates` and `NoMemory`.
pub fn findings_of(
    alloc: Global,
    policies: &[Compiled],
    attached: &Attached,
    number: u16,
    limit: usize,
) -> Result<Vec<Finding>, FindingsFault>
    requires attached { AreAttached policies.now limit attached.now }
    requires some { 0 < limit }
    requires limit { limit ≤ most_states }
    ensures found { IfOk result (λ found. AreFindingsAt policies.now number found.items) }
    ensures many { IfErr result (λ e. HasNoFindingsAt policies.now number limit e) }
{
    match policies.get(0) {
        Some(compiled) => findings_at(alloc, compiled, attached.below.as_slice(), number, limit),
        None => Ok(Vec::new(alloc)),
    }
}
