//! Requests to make hard links.

ghost use Rattle.std.specs.Prelude.{◌≡◌, ◌+◌, ◌<◌, ◌≤◌, ℕ, List, Err, IfOk, OnOk, Contains, length};
ghost use Rattle.aa_pattern.specs.Limits.{most_patterns, most_states};
ghost use Rattle.aa_auto.specs.Tables.{HasPlaces};
ghost use Rattle.aa_model.specs.declared.request.Request.{Request};
ghost use Rattle.aa_regions.specs.Regions.{IsAsked};
ghost use Rattle.aa_representatives.specs.Alike.{deciding};
ghost use Rattle.aa_representatives.specs.Askable.{IsLink};
ghost use Rattle.aa_representatives.specs.Representatives.{AreRepresentatives, Adds, HasLinks};

use crate::classes::link_paths;
use crate::fault::RepresentativesFault;
use crate::regions::deciding_regions;
use aa_base::Text;
use aa_compile::Compiled;
use aa_model::{Label, Request};
use std::alloc::{AllocError, Global};

/// Adds the request to make a hard link.
fn add_link(
    alloc: Global,
    requests: &mut Vec<Request>,
    link: &[u8],
    target: &[u8],
    owned: bool,
) -> Result<(), AllocError>
    requires link { IsAsked link.now }
    requires target { IsAsked target.now }
    ensures adds { OnOk result (Adds IsLink requests.old.items requests.new.items) }
    ensures has { OnOk result (Contains requests.new.items (Request.Link (record { link = link.now; target = target.now; owned = owned }))) }
{
    match Request::link(alloc, link, target, owned) {
        Ok(request) => {
            requests.push(request)?;
            Ok(())
        }
        Err(_) => Err(AllocError),
    }
}

/// Adds the requests to make a hard link, of the owner and of others.
fn add_links_to(
    alloc: Global,
    requests: &mut Vec<Request>,
    link: &[u8],
    target: &[u8],
) -> Result<(), AllocError>
    requires link { IsAsked link.now }
    requires target { IsAsked target.now }
    ensures adds { OnOk result (Adds IsLink requests.old.items requests.new.items) }
    ensures has { OnOk result (HasLinks link.now target.now requests.new.items) }
{
    add_link(alloc, requests, link, target, true)?;
    add_link(alloc, requests, link, target, false)?;
    Ok(())
}

/// Adds these requests to each of the targets.
fn add_links_at(
    alloc: Global,
    requests: &mut Vec<Request>,
    link: &[u8],
    targets: &[Text],
) -> Result<(), AllocError>
    requires link { IsAsked link.now }
    requires targets { (s : List ℕ) → Contains targets.now s → IsAsked s }
    ensures adds { OnOk result (Adds IsLink requests.old.items requests.new.items) }
    ensures has { OnOk result ((s : List ℕ) → Contains targets.now s → HasLinks link.now s requests.new.items) }
{
    for target in targets {
        add_links_to(alloc, requests, link, target.as_slice())?;
    }
    Ok(())
}

/// Adds these requests at each of the paths, to each of them.
pub(crate) fn add_links(
    alloc: Global,
    requests: &mut Vec<Request>,
    paths: &[Text],
) -> Result<(), AllocError>
    requires { (s : List ℕ) → Contains paths.now s → IsAsked s }
    ensures adds { OnOk result (Adds IsLink requests.old.items requests.new.items) }
    ensures has { OnOk result ((s u : List ℕ) → Contains paths.now s → Contains paths.now u → HasLinks s u requests.new.items) }
{
    for link in paths {
        add_links_at(alloc, requests, link.as_slice(), paths)?;
    }
    Ok(())
}

/// Requests to make hard links, such that each other that can be asked at the label gets the reply of one of them: at a path of each
/// class to a path of each, of the owner and of others. Paths of one class are those that the rules say the same of: the four
/// sets, and how a program is executed. The errors are `TooManyPatterns`, `TooManyStates` and `NoMemory`.
pub fn link_representatives(
    alloc: Global,
    policies: &[Compiled],
    label: Label,
    limit: usize,
) -> Result<Vec<Request>, RepresentativesFault>
    requires some { 0 < limit }
    requires limit { limit ≤ most_states }
    ensures representatives { IfOk result (λ rs. AreRepresentatives policies.now label IsLink rs.items) }
    ensures many_patterns { result ≡ Err RepresentativesFault.TooManyPatterns → most_patterns < length (deciding policies.now label) }
    ensures few_patterns { IfOk result (λ _. length (deciding policies.now label) ≤ most_patterns) }
    ensures many_states { result ≡ Err RepresentativesFault.TooManyStates → HasPlaces (deciding policies.now label) (limit + 1) }
    ensures few_states { IfOk result (λ _. HasPlaces (deciding policies.now label) (limit + 1) → ⊥) }
{
    let regions = deciding_regions(alloc, policies, label, limit)?;
    let paths = link_paths(alloc, policies, label, regions.as_slice())?;
    let mut requests = Vec::new(alloc);
    add_links(alloc, &mut requests, paths.as_slice())?;
    Ok(requests)
}
