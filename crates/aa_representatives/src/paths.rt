//! Requests that stand for all others of their kind.

ghost use Rattle.std.specs.Prelude.{◌≡◌, ◌+◌, ◌<◌, ◌≤◌, Err, IfOk, length};
ghost use Rattle.aa_pattern.specs.Limits.{most_patterns, most_states};
ghost use Rattle.aa_auto.specs.Tables.{HasPlaces};
ghost use Rattle.aa_representatives.specs.Alike.{deciding};
ghost use Rattle.aa_representatives.specs.Askable.{IsFile, IsExec};
ghost use Rattle.aa_representatives.specs.Representatives.{AreRepresentatives};

use crate::execs::add_execs;
use crate::fault::RepresentativesFault;
use crate::files::add_files;
use crate::regions::deciding_regions;
use aa_compile::Compiled;
use aa_model::{Label, Request};
use std::alloc::Global;

/// Requests to use files, such that each other that can be asked at the label gets the reply of one of them: at a shortest path of
/// each region, by each mask, of the owner and of others. The errors are `TooManyPatterns`, `TooManyStates` and `NoMemory`.
pub fn file_representatives(
    alloc: Global,
    policies: &[Compiled],
    label: Label,
    limit: usize,
) -> Result<Vec<Request>, RepresentativesFault>
    requires some { 0 < limit }
    requires limit { limit ≤ most_states }
    ensures representatives { IfOk result (λ rs. AreRepresentatives policies.now label IsFile rs.items) }
    ensures many_patterns { result ≡ Err RepresentativesFault.TooManyPatterns → most_patterns < length (deciding policies.now label) }
    ensures few_patterns { IfOk result (λ _. length (deciding policies.now label) ≤ most_patterns) }
    ensures many_states { result ≡ Err RepresentativesFault.TooManyStates → HasPlaces (deciding policies.now label) (limit + 1) }
    ensures few_states { IfOk result (λ _. HasPlaces (deciding policies.now label) (limit + 1) → ⊥) }
{
    let regions = deciding_regions(alloc, policies, label, limit)?;
    let mut requests = Vec::new(alloc);
    add_files(alloc, &mut requests, regions.as_slice())?;
    Ok(requests)
}

/// Requests to execute files, such that each other that can be asked at the label gets the reply of one of them, and so leads to the
/// same label: at a shortest path of each region, of the owner and of others. The errors are as above.
pub fn exec_representatives(
    alloc: Global,
    policies: &[Compiled],
    label: Label,
    limit: usize,
) -> Result<Vec<Request>, RepresentativesFault>
    requires some { 0 < limit }
    requires limit { limit ≤ most_states }
    ensures representatives { IfOk result (λ rs. AreRepresentatives policies.now label IsExec rs.items) }
    ensures many_patterns { result ≡ Err RepresentativesFault.TooManyPatterns → most_patterns < length (deciding policies.now label) }
    ensures few_patterns { IfOk result (λ _. length (deciding policies.now label) ≤ most_patterns) }
    ensures many_states { result ≡ Err RepresentativesFault.TooManyStates → HasPlaces (deciding policies.now label) (limit + 1) }
    ensures few_states { IfOk result (λ _. HasPlaces (deciding policies.now label) (limit + 1) → ⊥) }
{
    let regions = deciding_regions(alloc, policies, label, limit)?;
    let mut requests = Vec::new(alloc);
    add_execs(alloc, &mut requests, regions.as_slice())?;
    Ok(requests)
}
