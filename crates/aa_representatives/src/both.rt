//! Requests that stand for all others at two labels at once, kind by kind.

ghost use Rattle.std.specs.Prelude.{◌≡◌, ◌+◌, ◌<◌, ◌≤◌, ◌++◌, ◌∷◌, [], Err, IfOk, Contains, length};
ghost use Rattle.aa_pattern.specs.Limits.{most_patterns, most_states};
ghost use Rattle.aa_auto.specs.Tables.{HasPlaces};
ghost use Rattle.aa_model.specs.declared.label.Label.{Label};
ghost use Rattle.aa_model.specs.declared.request.Request.{Request};
ghost use Rattle.aa_representatives.specs.Askable.{IsAskable, IsFile, IsLink, IsExec, IsCap, IsNet, IsChange, IsReload};
ghost use Rattle.aa_representatives.specs.Apart.{StandApart};
ghost use Rattle.aa_representatives.specs.Both.{deciding_both, many_names_of_both, HaveNamePlacesOfBoth, StandAtBoth};

use crate::apart::paths_to_link_apart;
use crate::changes::{add_changes, regions_of_names};
use crate::entries::{add_caps, add_nets};
use crate::execs::add_execs;
use crate::fault::RepresentativesFault;
use crate::files::add_files;
use crate::links::add_links;
use crate::names::{changing_patterns_of_both, name_patterns};
use crate::patterns::add_patterns;
use crate::regions::{
    deciding_regions_of_both, deciding_regions_of_both_and, filing_regions_of_both,
    filing_regions_of_both_and,
};
use crate::reloads::{MAX_POLICY, add_reloads};
use crate::said::paths_to_link;
use aa_compile::Compiled;
use aa_model::{Label, Request};
use aa_pattern::Pattern;
use std::alloc::{AllocError, Global};

/// Requests for files, executions and links.
// Files at one path of each region by the file rules: no attachment has a say in them.
pub(crate) fn at_paths(
    alloc: Global,
    one: &[Compiled],
    from: Label,
    other: &[Compiled],
    to: Label,
    limit: usize,
) -> Result<Vec<Request>, RepresentativesFault>
    requires some { 0 < limit }
    requires limit { limit ≤ most_states }
    ensures each { IfOk result (λ rs. (r : Request) → Contains rs.items r → IsAskable r) }
    ensures files { IfOk result (λ rs. StandAtBoth one.now from other.now to IsFile rs.items) }
    ensures execs { IfOk result (λ rs. StandAtBoth one.now from other.now to IsExec rs.items) }
    ensures links { IfOk result (λ rs. StandAtBoth one.now from other.now to IsLink rs.items) }
    ensures many_patterns { result ≡ Err RepresentativesFault.TooManyPatterns → most_patterns < length (deciding_both one.now from other.now to) }
    ensures few_patterns { IfOk result (λ _. length (deciding_both one.now from other.now to) ≤ most_patterns) }
    ensures many_states { result ≡ Err RepresentativesFault.TooManyStates → HasPlaces (deciding_both one.now from other.now to) (limit + 1) }
    ensures few_states { IfOk result (λ _. HasPlaces (deciding_both one.now from other.now to) (limit + 1) → ⊥) }
{
    let regions = deciding_regions_of_both(alloc, one, from, other, to, limit)?;
    let filing = filing_regions_of_both(alloc, one, from, other, to, limit)?;
    let paths = paths_to_link(alloc, one, from, other, to, regions.as_slice())?;
    let mut requests = Vec::new(alloc);
    add_files(alloc, &mut requests, filing.as_slice())?;
    add_execs(alloc, &mut requests, regions.as_slice())?;
    add_links(alloc, &mut requests, paths.as_slice())?;
    Ok(requests)
}

/// Those that stand for all where one more pattern matches paths of such alone.
pub(crate) fn at_paths_and(
    alloc: Global,
    one: &[Compiled],
    from: Label,
    other: &[Compiled],
    to: Label,
    pattern: &Pattern,
    limit: usize,
) -> Result<Vec<Request>, RepresentativesFault>
    requires some { 0 < limit }
    requires limit { limit ≤ most_states }
    ensures each { IfOk result (λ rs. (r : Request) → Contains rs.items r → IsAskable r) }
    ensures files { IfOk result (λ rs. StandApart one.now from other.now to pattern.now IsFile rs.items) }
    ensures execs { IfOk result (λ rs. StandApart one.now from other.now to pattern.now IsExec rs.items) }
    ensures links { IfOk result (λ rs. StandApart one.now from other.now to pattern.now IsLink rs.items) }
    ensures many_patterns { result ≡ Err RepresentativesFault.TooManyPatterns → most_patterns < length (deciding_both one.now from other.now to) + 1 }
    ensures few_patterns { IfOk result (λ _. length (deciding_both one.now from other.now to) ≤ most_patterns) }
    ensures many_states { result ≡ Err RepresentativesFault.TooManyStates → HasPlaces (deciding_both one.now from other.now to ++ pattern.now ∷ []) (limit + 1) }
{
    let regions = deciding_regions_of_both_and(alloc, one, from, other, to, pattern, limit)?;
    let filing = filing_regions_of_both_and(alloc, one, from, other, to, pattern, limit)?;
    let paths = paths_to_link_apart(alloc, one, from, other, to, pattern, regions.as_slice())?;
    let mut requests = Vec::new(alloc);
    add_files(alloc, &mut requests, filing.as_slice())?;
    add_execs(alloc, &mut requests, regions.as_slice())?;
    add_links(alloc, &mut requests, paths.as_slice())?;
    Ok(requests)
}

/// Requests to change the profile.
pub(crate) fn at_names(
    alloc: Global,
    one: &[Compiled],
    from: Label,
    other: &[Compiled],
    to: Label,
    limit: usize,
) -> Result<Vec<Request>, RepresentativesFault>
    requires some { 0 < limit }
    requires limit { limit ≤ most_states }
    ensures each { IfOk result (λ rs. (r : Request) → Contains rs.items r → IsAskable r) }
    ensures changes { IfOk result (λ rs. StandAtBoth one.now from other.now to IsChange rs.items) }
    ensures many_patterns { result ≡ Err RepresentativesFault.TooManyPatterns → most_patterns < many_names_of_both one.now from other.now to }
    ensures few_patterns { IfOk result (λ _. many_names_of_both one.now from other.now to ≤ most_patterns) }
    ensures many_states { result ≡ Err RepresentativesFault.TooManyStates → HaveNamePlacesOfBoth one.now from other.now to (limit + 1) }
{
    let names = name_patterns(alloc, one, from)?;
    let others = name_patterns(alloc, other, to)?;
    let mut patterns = changing_patterns_of_both(alloc, one, from, other, to)?;
    add_patterns(&mut patterns, names.as_slice())?;
    add_patterns(&mut patterns, others.as_slice())?;
    let regions = regions_of_names(alloc, patterns.as_slice(), limit)?;
    let mut requests = Vec::new(alloc);
    add_changes(alloc, &mut requests, regions.as_slice())?;
    Ok(requests)
}

/// Requests for capabilities and sockets, and to be decided by another policy.
pub(crate) fn by_numbers(
    alloc: Global,
    one: &[Compiled],
    other: &[Compiled],
) -> Result<Vec<Request>, AllocError>
    ensures each { IfOk result (λ rs. (r : Request) → Contains rs.items r → IsAskable r) }
    ensures caps { IfOk result (λ rs. (l m : Label) → StandAtBoth one.now l other.now m IsCap rs.items) }
    ensures nets { IfOk result (λ rs. (l m : Label) → StandAtBoth one.now l other.now m IsNet rs.items) }
    ensures reloads { IfOk result (λ rs. (l m : Label) → StandAtBoth one.now l other.now m IsReload rs.items) }
{
    let count = one.len().max(other.len()).min(MAX_POLICY) + 1;
    let mut requests = Vec::new(alloc);
    add_caps(&mut requests)?;
    add_nets(&mut requests)?;
    add_reloads(&mut requests, count)?;
    Ok(requests)
}
