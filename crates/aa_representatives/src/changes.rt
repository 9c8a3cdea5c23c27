//! Requests to change the profile.

ghost use Rattle.std.specs.Prelude.{◌≡◌, ◌+◌, ◌<◌, ◌≤◌, [], true, Err, IfOk, OnOk, Contains, length};
ghost use Rattle.aa_pattern.specs.Limits.{most_patterns, most_states};
ghost use Rattle.aa_auto.specs.Nodes.{pointed};
ghost use Rattle.aa_auto.specs.Tables.{IsText, HasPlaces};
ghost use Rattle.aa_model.specs.Requests.{is_wanted_name};
ghost use Rattle.aa_model.specs.declared.request.Request.{Request};
ghost use Rattle.aa_regions.specs.declared.regions.Region.{Region};
ghost use Rattle.aa_regions.specs.Regions.{AreRegions};
ghost use Rattle.aa_representatives.specs.Askable.{IsChange};
ghost use Rattle.aa_representatives.specs.Names.{many_name_patterns, AreNamePatterns, HaveNamePlaces};
ghost use Rattle.aa_representatives.specs.Representatives.{AreRepresentatives, Adds, HasChange};

use crate::fault::RepresentativesFault;
use crate::names::{changing_patterns, name_patterns};
use crate::patterns::add_patterns;
use crate::regions::MAX_PATTERNS;
use aa_compile::Compiled;
use aa_model::{Label, Request, RequestFault};
use aa_pattern::Pattern;
use aa_regions::{Region, regions_of};
use std::alloc::{AllocError, Global};

/// The longest name that can be asked for.
const MAX_NAME: usize = 1024;

/// Adds the request to change to a name, where that can be asked for.
fn add_change(alloc: Global, requests: &mut Vec<Request>, name: &[u8]) -> Result<(), AllocError>
    requires { IsText name.now }
    ensures adds { OnOk result (Adds IsChange requests.old.items requests.new.items) }
    ensures has { OnOk result (HasChange name.now requests.new.items) }
{
    match Request::change(alloc, name) {
        Ok(request) => {
            requests.push(request)?;
            Ok(())
        }
        Err(RequestFault::BadName) => Ok(()),
        Err(_) => Err(AllocError),
    }
}

/// Adds this request at the name of each region.
pub(crate) fn add_changes(
    alloc: Global,
    requests: &mut Vec<Request>,
    regions: &[Region],
) -> Result<(), AllocError>
    requires { (r : Region) → Contains regions.now r → IsText r.witness }
    ensures adds { OnOk result (Adds IsChange requests.old.items requests.new.items) }
    ensures has { OnOk result ((r : Region) → Contains regions.now r → HasChange r.witness requests.new.items) }
{
    for region in regions {
        add_change(alloc, requests, region.witness.as_slice())?;
    }
    Ok(())
}

/// The regions of the texts that a name may be, and of the empty one.
pub(crate) fn regions_of_names(
    alloc: Global,
    patterns: &[&Pattern],
    limit: usize,
) -> Result<Vec<Region>, RepresentativesFault>
    requires some { 0 < limit }
    requires limit { limit ≤ most_states }
    ensures regions { IfOk result (λ rs. AreRegions (pointed patterns.now) [] 1 1024 rs.items) }
    ensures many_patterns { result ≡ Err RepresentativesFault.TooManyPatterns → most_patterns < length patterns.now }
    ensures few_patterns { IfOk result (λ _. length patterns.now ≤ most_patterns) }
    ensures many_states { result ≡ Err RepresentativesFault.TooManyStates → HasPlaces (pointed patterns.now) (limit + 1) }
{
    if patterns.len() > MAX_PATTERNS {
        return Err(RepresentativesFault::TooManyPatterns);
    }
    Ok(regions_of(alloc, patterns, limit, b"", 1, MAX_NAME)?)
}

/// Requests to change the profile, such that each other that can be asked at the label gets the reply of one of them: to `unconfined`
/// and each full name of a profile, and of the names that name nothing to a shortest one of each region. The errors are
/// `TooManyPatterns`, of the rules on changes and of these names together, `TooManyStates` and `NoMemory`.
pub fn change_representatives(
    alloc: Global,
    policies: &[Compiled],
    label: Label,
    limit: usize,
) -> Result<Vec<Request>, RepresentativesFault>
    requires some { 0 < limit }
    requires limit { limit ≤ most_states }
    ensures representatives { IfOk result (λ rs. AreRepresentatives policies.now label IsChange rs.items) }
    ensures many_patterns { result ≡ Err RepresentativesFault.TooManyPatterns → most_patterns < many_name_patterns policies.now label }
    ensures few_patterns { IfOk result (λ _. many_name_patterns policies.now label ≤ most_patterns) }
    ensures many_states { result ≡ Err RepresentativesFault.TooManyStates → HaveNamePlaces policies.now label (limit + 1) }
{
    let names = name_patterns(alloc, policies, label)?;
    let mut patterns = changing_patterns(alloc, policies, label)?;
    add_patterns(&mut patterns, names.as_slice())?;
    let regions = regions_of_names(alloc, patterns.as_slice(), limit)?;
    let mut requests = Vec::new(alloc);
    add_changes(alloc, &mut requests, regions.as_slice())?;
    Ok(requests)
}
