//! The one policy that texts are.

ghost use Rattle.std.specs.Prelude.{◌≡◌, ◌≢◌, ◌≤◌, map, IfOk, IfErr};
ghost use Rattle.aa_model.specs.Limits.{most_states};
ghost use Rattle.aa_base.specs.declared.fault.PolicyFault.{PolicyFault};
ghost use Rattle.aa_compile.specs.Checks.{IsAccepted, IsRefused};
ghost use Rattle.aa_explain.specs.Places.{places_data};
ghost use Rattle.aa_load.specs.UnitPolicy.{limit_of};
ghost use Rattle.aa_load.specs.Joining.{IsOnePolicy};
ghost use Rattle.aa_load.specs.Refused.{IsBlamed, IsRefusedBy};

use crate::alone::first_alone;
use crate::fault::LoadingFault;
use crate::joined::join_all;
use crate::reading::Reading;
use crate::texts::Texts;
use aa_base::{PolicyFault, PolicyKind};
use aa_compile::{Compiled, compile};
use aa_explain::ProfilePlaces;
use aa_model::Policy;
use std::alloc::Global;

/// The one policy of texts, and where what it says stands.
#[derive(Drop)]
pub struct Loaded<'u> {
    /// Of each profile, the number of its texts.
    pub owners: Vec<usize>,
    /// Of each profile, where it and its rules stand in them.
    pub places: Vec<ProfilePlaces<'u>>,
    /// The one policy.
    pub policies: Vec<Compiled>,
}

/// How many states an automaton may have.
fn limit_of(states: u32) -> u32
    ensures is { result ≡ limit_of states }
    ensures some { 1 ≤ result }
    ensures bounded { result ≤ most_states }
{
    states.max(1).min(1_000_000)
}

/// What is said of texts that are refused so together.
fn blamed(alloc: Global, all: &[Texts<'_>], limit: u32, fault: PolicyFault) -> LoadingFault
    requires some { 1 ≤ limit }
    requires bounded { limit ≤ most_states }
    ensures memory { fault.kind ≡ PolicyKind.NoMemory → result ≡ LoadingFault.NoMemory }
    ensures other { result ≢ LoadingFault.NoMemory → IsBlamed limit all.now fault result }
{
    if fault.kind == PolicyKind::NoMemory {
        return LoadingFault::NoMemory;
    }
    match first_alone(alloc, all, limit) {
        Some(own) => own,
        None => LoadingFault::Together(fault),
    }
}

/// Compiles what texts become.
fn compile_all(
    alloc: Global,
    all: &[Texts<'_>],
    policy: Policy,
    limit: u32,
) -> Result<Compiled, LoadingFault>
    requires some { 1 ≤ limit }
    requires bounded { limit ≤ most_states }
    ensures ok { IfOk result (λ c. c ≡ policy) }
    ensures accepted { IfOk result (λ _. IsAccepted policy.profiles limit) }
    ensures cause { IfErr result (λ f. f ≢ LoadingFault.NoMemory → ((e : PolicyFault) × IsRefused policy.profiles limit e × IsBlamed limit all.now e f)) }
{
    match compile(alloc, policy, limit) {
        Ok(compiled) => Ok(compiled),
        Err(refusal) => Err(blamed(alloc, all, limit, refusal.fault)),
    }
}

/// The one policy that main texts with their sources are. An automaton of it may have at most so many states, which are 1 to
/// 1,000,000.
///
/// Refused in this order: `OfTexts` for the first that spell no policy, `Repeated` for the first that have a profile of a name that
/// one before has, or `TooLarge` where their counts pass a limit, whichever texts come first; then, where all of them together don't
/// compile, `OfTexts` for the first that are refused by themselves, or else `Together`. `NoMemory` can come at any point.
pub fn load_policy<'u>(
    alloc: Global,
    all: &'u [Texts<'u>],
    states: u32,
) -> Result<Loaded<'u>, LoadingFault>
    ensures ok { IfOk result (λ l. IsOnePolicy all.now (limit_of states) l.owners.items (map places_data l.places.items) l.policies.items) }
    ensures cause { IfErr result (λ f. f ≢ LoadingFault.NoMemory → IsRefusedBy (limit_of states) all.now f) }
{
    let Reading {
        joining,
        places,
        owners,
    } = match join_all(alloc, all) {
        Ok(reading) => reading,
        Err(fault) => return Err(fault),
    };
    let compiled = match compile_all(alloc, all, joining.into_policy(), limit_of(states)) {
        Ok(compiled) => compiled,
        Err(fault) => return Err(fault),
    };
    let mut policies = Vec::new(alloc);
    policies.push(compiled)?;
    Ok(Loaded {
        owners,
        places,
        policies,
    })
}
