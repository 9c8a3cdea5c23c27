//! What a text with its sources spells.

ghost use Rattle.std.specs.Prelude.{◌≡◌, ◌≢◌, map, IfOk, IfErr};
ghost use Rattle.aa_base.specs.declared.fault.PolicyKind.TheVariants.{NoMemory};
ghost use Rattle.aa_explain.specs.Places.{places_data};
ghost use Rattle.aa_load.specs.Spelled.{SpellsAt, IsUnspelled};

use aa_base::{PolicyFault, PolicyKind};
use aa_explain::{ProfilePlaces, rule_places};
use aa_model::Policy;
use aa_policy::parse;
use aa_words::{Sources, words};
use std::alloc::Global;

/// A main text with its sources, or why they can't be handed in.
#[derive(Clone, Copy)]
pub struct Texts<'s> {
    pub sources: &'s Result<Sources, PolicyFault>,
    pub main: &'s [u8],
}

/// The policy that a text spells with these sources, and where its profiles and their rules stand. Refused by the first fault of
/// its words or of its grammar.
pub(crate) fn read_text<'s>(
    alloc: Global,
    sources: &'s Sources,
    text: &'s [u8],
) -> Result<(Policy, Vec<ProfilePlaces<'s>>), PolicyFault>
    ensures read { IfOk result (λ r. SpellsAt sources.now text.now r.0 (map places_data r.1.items)) }
    ensures cause { IfErr result (λ e. e.kind ≢ NoMemory → IsUnspelled sources.now text.now e) }
{
    let list = match words(alloc, sources, text) {
        Ok(list) => list,
        Err(fault) => return Err(fault),
    };
    let policy = match parse(alloc, &list) {
        Ok(policy) => policy,
        Err(fault) => return Err(fault),
    };
    // (words that spell a policy have places: what is wanting here is memory)
    match rule_places(alloc, &list) {
        Ok(places) => Ok((policy, places)),
        Err(_) => Err(PolicyFault::at_start(PolicyKind::NoMemory)),
    }
}
