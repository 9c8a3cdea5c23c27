//! Executions that lead to each label to which one leads.

ghost use Rattle.std.specs.Prelude.{◌≡◌, ◌+◌, ◌<◌, ◌≤◌, ◌∷◌, ◌++◌, [], true, false, Bool, Err, IfOk, IfSome, OnOk, IsSome, Contains, length};
ghost use Rattle.aa_pattern.specs.declared.pattern.Pattern.{Pattern};
ghost use Rattle.aa_pattern.specs.Limits.{most_patterns, most_states};
ghost use Rattle.aa_auto.specs.Tables.{IsText, HasPlaces};
ghost use Rattle.aa_model.specs.Requests.{is_path};
ghost use Rattle.aa_model.specs.declared.request.Request.{Request};
ghost use Rattle.aa_model.specs.declared.rule.FileRule.{FileRule};
ghost use Rattle.aa_regions.specs.declared.regions.Region.{Region};
ghost use Rattle.aa_regions.specs.Regions.{IsAsked};
ghost use Rattle.aa_compile.specs.FileRules.{says_how};
ghost use Rattle.aa_representatives.specs.Alike.{deciding};
ghost use Rattle.aa_representatives.specs.Askable.{IsExec};
ghost use Rattle.aa_representatives.specs.Representatives.{Adds, HasExecs};
ghost use Rattle.aa_representatives.specs.Names.{literal_of, items_of};
ghost use Rattle.aa_unclean_paths.specs.Told.{TellsUnclean};
ghost use Rattle.aa_reachability.specs.Extents.{IsExtent};
ghost use Rattle.aa_reachability.specs.Moves.{LeadExecs, MatchesAll, HaveManyPathsFor, HavePathPlacesFor};
ghost use Rattle.aa_reachability.specs.Single.{HasExecsOf, HasExecsOfRule};

use crate::extent::{Extent, profile_with_few};
use aa_compile::Compiled;
use aa_model::{FileRule, Label, Profile, Request, RequestFault};
use aa_pattern::{Item, Pattern};
use aa_regions::Region;
use aa_representatives::{RepresentativesFault, deciding_regions, deciding_regions_and_within};
use aa_unclean_paths::unclean_pattern;
use std::alloc::{AllocError, Global};

/// The one text that a pattern of bytes alone matches.
pub(crate) fn text_of(alloc: Global, pattern: &Pattern) -> Result<Option<Vec<u8>>, AllocError>
    ensures { IfOk result (λ o. IfSome o (λ text. items_of pattern.now ≡ literal_of text.items)) }
{
    let mut text = Vec::new(alloc);
    for item in pattern.items.as_slice() {
        let Item::Byte(byte) = item else {
            return Ok(None);
        };
        text.push(*byte)?;
    }
    Ok(Some(text))
}

/// Adds the request to execute a file, where it can be asked for.
fn add_exec(
    alloc: Global,
    requests: &mut Vec<Request>,
    path: &[u8],
    owned: bool,
) -> Result<(), AllocError>
    requires { IsText path.now }
    ensures adds { OnOk result (Adds IsExec requests.old.items requests.new.items) }
    ensures has { OnOk result (is_path path.now ≡ true → Contains requests.new.items (Request.Exec (record { path = path.now; owned = owned }))) }
{
    match Request::exec(alloc, path, owned) {
        Ok(request) => {
            requests.push(request)?;
            Ok(())
        }
        Err(RequestFault::BadPath) => Ok(()),
        Err(_) => Err(AllocError),
    }
}

/// Adds the requests to execute a file, of the owner and of others, where they can be asked.
fn add_execs_at(alloc: Global, requests: &mut Vec<Request>, path: &[u8]) -> Result<(), AllocError>
    ensures adds { OnOk result (Adds IsExec requests.old.items requests.new.items) }
    ensures has { OnOk result (is_path path.now ≡ true → HasExecs path.now requests.new.items) }
{
    add_exec(alloc, requests, path, true)?;
    add_exec(alloc, requests, path, false)?;
    Ok(())
}

/// Adds the requests to execute the file that a pattern of bytes alone matches, and says whether it is one.
fn add_execs_of(
    alloc: Global,
    requests: &mut Vec<Request>,
    pattern: &Pattern,
) -> Result<bool, AllocError>
    ensures adds { OnOk result (Adds IsExec requests.old.items requests.new.items) }
    ensures has { IfOk result (λ all. all ≡ true → HasExecsOf requests.new.items pattern.now) }
{
    match text_of(alloc, pattern)? {
        Some(text) => {
            add_execs_at(alloc, requests, text.as_slice())?;
            Ok(true)
        }
        None => Ok(false),
    }
}

/// Adds the requests to execute the files that patterns of bytes alone match, and says whether they all are such.
fn add_execs_of_all(
    alloc: Global,
    requests: &mut Vec<Request>,
    patterns: &[Pattern],
) -> Result<bool, AllocError>
    ensures adds { OnOk result (Adds IsExec requests.old.items requests.new.items) }
    ensures has { IfOk result (λ all. all ≡ true → (p : Pattern) → Contains patterns.now p → HasExecsOf requests.new.items p) }
{
    for pattern in patterns {
        let is_one = add_execs_of(alloc, requests, pattern)?;
        if !is_one {
            return Ok(false);
        }
    }
    Ok(true)
}

/// Whether a rule says how a program may be executed.
fn says_how(rule: &FileRule) -> bool
    ensures { result ≡ says_how rule.now }
{
    !rule.deny && rule.exec.is_some()
}

/// The same of a rule, if it says how a program may be executed.
fn add_execs_of_rule(
    alloc: Global,
    requests: &mut Vec<Request>,
    rule: &FileRule,
) -> Result<bool, AllocError>
    ensures adds { OnOk result (Adds IsExec requests.old.items requests.new.items) }
    ensures has { IfOk result (λ all. all ≡ true → HasExecsOfRule requests.new.items rule.now) }
{
    if !says_how(rule) {
        return Ok(true);
    }
    let are_all = add_execs_of_all(alloc, requests, rule.patterns.as_slice())?;
    Ok(are_all)
}

fn add_execs_of_rules(
    alloc: Global,
    requests: &mut Vec<Request>,
    rules: &[FileRule],
) -> Result<bool, AllocError>
    ensures adds { OnOk result (Adds IsExec requests.old.items requests.new.items) }
    ensures has { IfOk result (λ all. all ≡ true → (r : FileRule) → Contains rules.now r → HasExecsOfRule requests.new.items r) }
{
    for rule in rules {
        let are_all = add_execs_of_rule(alloc, requests, rule)?;
        if !are_all {
            return Ok(false);
        }
    }
    Ok(true)
}

/// The requests to execute the files that the rules of a profile name, where those that say how name them one by one.
fn execs_of(alloc: Global, profile: &Profile) -> Result<Option<Vec<Request>>, AllocError>
    ensures each { IfOk result (λ o. IfSome o (λ rs. (r : Request) → Contains rs.items r → IsExec r)) }
    ensures has { IfOk result (λ o. IfSome o (λ rs. (r : FileRule) → Contains profile.now.files r → HasExecsOfRule rs.items r)) }
{
    let mut requests = Vec::new(alloc);
    let are_all = add_execs_of_rules(alloc, &mut requests, profile.files.as_slice())?;
    if are_all {
        Ok(Some(requests))
    } else {
        Ok(None)
    }
}

/// The same at a label, where few patterns decide: no automaton is made.
fn few_execs(
    alloc: Global,
    policies: &[Compiled],
    extent: Extent,
    label: Label,
) -> Result<Option<Vec<Request>>, AllocError>
    requires { IsExtent policies.now extent }
    ensures lead { IfOk result (λ o. IfSome o (λ rs. (clean : Bool) → LeadExecs clean policies.now label rs.items)) }
    ensures few { IfOk result (λ o. IfSome o (λ _. length (deciding policies.now label) ≤ most_patterns)) }
{
    let Some(profile) = profile_with_few(policies, extent, label) else {
        return Ok(None);
    };
    let execs = execs_of(alloc, profile)?;
    Ok(execs)
}

/// Adds the requests to execute a file, of the owner and of others, at the path of each region.
fn add_execs_of_regions(
    alloc: Global,
    requests: &mut Vec<Request>,
    regions: &[Region],
) -> Result<(), AllocError>
    requires { (r : Region) → Contains regions.now r → IsAsked r.witness }
    ensures adds { OnOk result (Adds IsExec requests.old.items requests.new.items) }
    ensures has { OnOk result ((r : Region) → Contains regions.now r → HasExecs r.witness requests.new.items) }
{
    for region in regions {
        add_execs_at(alloc, requests, region.witness.as_slice())?;
    }
    Ok(())
}

/// Those at the paths of regions.
fn execs_of_regions(alloc: Global, regions: &[Region]) -> Result<Vec<Request>, AllocError>
    requires { (r : Region) → Contains regions.now r → IsAsked r.witness }
    ensures each { IfOk result (λ rs. (r : Request) → Contains rs.items r → IsExec r) }
    ensures has { IfOk result (λ rs. (r : Region) → Contains regions.now r → HasExecs r.witness rs.items) }
{
    let mut requests = Vec::new(alloc);
    add_execs_of_regions(alloc, &mut requests, regions)?;
    Ok(requests)
}

/// The same at a label: those at a shortest path of each region of paths that are answered alike.
fn region_execs(
    alloc: Global,
    policies: &[Compiled],
    label: Label,
    limit: usize,
) -> Result<Vec<Request>, RepresentativesFault>
    requires some { 0 < limit }
    requires limit { limit ≤ most_states }
    ensures lead { IfOk result (λ rs. LeadExecs false policies.now label rs.items) }
    ensures many_patterns { result ≡ Err RepresentativesFault.TooManyPatterns → most_patterns < length (deciding policies.now label) }
    ensures few_patterns { IfOk result (λ _. length (deciding policies.now label) ≤ most_patterns) }
    ensures many_states { result ≡ Err RepresentativesFault.TooManyStates → HasPlaces (deciding policies.now label) (limit + 1) }
{
    let regions = deciding_regions(alloc, policies, label, limit)?;
    let requests = execs_of_regions(alloc, regions.as_slice())?;
    Ok(requests)
}

/// A pattern, made by hand as `**`, that matches each path.
fn any_path(alloc: Global) -> Result<Pattern, AllocError>
    ensures { IfOk result MatchesAll }
{
    let items = Vec::from_array(alloc, [Item::Deep])?;
    Ok(Pattern { items })
}

/// The same where unclean paths are told apart: the path of a region with clean ones is clean.
fn clean_region_execs(
    alloc: Global,
    policies: &[Compiled],
    label: Label,
    unclean: &Pattern,
    any: &Pattern,
    limit: usize,
) -> Result<Vec<Request>, RepresentativesFault>
    requires unclean { TellsUnclean unclean.now }
    requires any { MatchesAll any.now }
    requires some { 0 < limit }
    requires limit { limit ≤ most_states }
    ensures lead { IfOk result (λ rs. LeadExecs true policies.now label rs.items) }
    ensures many_patterns { result ≡ Err RepresentativesFault.TooManyPatterns → most_patterns < length (deciding policies.now label) + 2 }
    ensures few_patterns { IfOk result (λ _. length (deciding policies.now label) ≤ most_patterns) }
    ensures many_states { result ≡ Err RepresentativesFault.TooManyStates → HasPlaces (unclean.now ∷ deciding policies.now label ++ any.now ∷ []) (limit + 1) }
{
    let regions = deciding_regions_and_within(alloc, policies, label, unclean, any, limit)?;
    let requests = execs_of_regions(alloc, regions.as_slice())?;
    Ok(requests)
}

/// Those of the regions that are needed where clean paths alone count or all.
fn execs_by_regions(
    alloc: Global,
    policies: &[Compiled],
    label: Label,
    only_clean: bool,
    limit: usize,
) -> Result<Vec<Request>, RepresentativesFault>
    requires some { 0 < limit }
    requires limit { limit ≤ most_states }
    ensures lead { IfOk result (λ rs. LeadExecs only_clean policies.now label rs.items) }
    ensures many_patterns { result ≡ Err RepresentativesFault.TooManyPatterns → HaveManyPathsFor only_clean policies.now label }
    ensures few_patterns { IfOk result (λ _. length (deciding policies.now label) ≤ most_patterns) }
    ensures many_states { result ≡ Err RepresentativesFault.TooManyStates → HavePathPlacesFor only_clean policies.now label (limit + 1) }
{
    if !only_clean {
        return region_execs(alloc, policies, label, limit);
    }
    let unclean = unclean_pattern(alloc)?;
    let any = any_path(alloc)?;
    clean_region_execs(alloc, policies, label, &unclean, &any, limit)
}

/// Executions that can be asked, such that each that moves a task is answered as one of them with no longer a path; where clean paths alone
/// count, one at a clean path as one at such. The errors are `TooManyPatterns`, `TooManyStates` and `NoMemory`.
pub(crate) fn execs_at(
    alloc: Global,
    policies: &[Compiled],
    extent: Extent,
    label: Label,
    only_clean: bool,
    limit: usize,
) -> Result<Vec<Request>, RepresentativesFault>
    requires some { 0 < limit }
    requires limit { limit ≤ most_states }
    requires extent { IsExtent policies.now extent }
    ensures lead { IfOk result (λ rs. LeadExecs only_clean policies.now label rs.items) }
    ensures many_patterns { result ≡ Err RepresentativesFault.TooManyPatterns → HaveManyPathsFor only_clean policies.now label }
    ensures few_patterns { IfOk result (λ _. length (deciding policies.now label) ≤ most_patterns) }
    ensures many_states { result ≡ Err RepresentativesFault.TooManyStates → HavePathPlacesFor only_clean policies.now label (limit + 1) }
{
    if let Some(requests) = few_execs(alloc, policies, extent, label)? {
        return Ok(requests);
    }
    let requests = execs_by_regions(alloc, policies, label, only_clean, limit)?;
    Ok(requests)
}
