//! From texts to compiled policies.

ghost use Rattle.std.specs.Prelude.{ℕ, ◌≡◌, ◌≢◌, ◌≤◌, ◌++◌, ◌∷◌, [], length, OnOk, IfOk, IfErr};
ghost use Rattle.aa_model.specs.Limits.{most_states};
ghost use Rattle.aa_base.specs.declared.fault.PolicyKind.TheVariants.{NoMemory};
ghost use Rattle.aa_policies.specs.Policies.{sources_of, IsSpelledBy, IsPolicyOf, ArePoliciesOf, IsFaultOfText, IsFirstRefused, IsRefusedBy};
ghost use Rattle.aa_model.specs.declared.policy.Policy.{Policy};

use crate::refused::RefusedPolicy;
use crate::sources::gather_sources;
use aa_base::{PolicyFault, Text};
use aa_compile::{Compiled, compile};
use aa_model::Policy;
use aa_policy::parse;
use aa_words::{Include, Sources, words};
use std::alloc::Global;

/// The policy that a text spells. Refused by the first fault of its words or of their grammar.
fn policy_of(alloc: Global, sources: &Sources, text: &[u8]) -> Result<Policy, PolicyFault>
    ensures spelled { IfOk result (λ p. IsSpelledBy sources.now text.now p) }
    ensures cause { IfErr result (λ e. e.kind ≢ NoMemory → (limit : ℕ) → IsFaultOfText sources.now limit text.now e) }
{
    match words(alloc, sources, text) {
        Ok(list) => parse(alloc, &list),
        Err(fault) => Err(fault),
    }
}

/// The policy that a text spells, compiled. Refused by the first fault of its words, of their grammar, or of compiling it.
pub fn compile_text(
    alloc: Global,
    sources: &Sources,
    text: &[u8],
    limit: u32,
) -> Result<Compiled, PolicyFault>
    requires some { 1 ≤ limit }
    requires bounded { limit ≤ most_states }
    ensures compiled { IfOk result (λ c. IsPolicyOf sources.now limit text.now c) }
    ensures cause { IfErr result (λ e. e.kind ≢ NoMemory → IsFaultOfText sources.now limit text.now e) }
{
    let policy = match policy_of(alloc, sources, text) {
        Ok(policy) => policy,
        Err(fault) => return Err(fault),
    };
    match compile(alloc, policy, limit) {
        Ok(compiled) => Ok(compiled),
        Err(refusal) => Err(refusal.fault),
    }
}

/// Adds the policy that the text of that number spells to those before it.
fn push_policy(
    alloc: Global,
    sources: &Sources,
    number: u16,
    text: &[u8],
    limit: u32,
    policies: &mut Vec<Compiled>,
) -> Result<(), RefusedPolicy>
    requires some { 1 ≤ limit }
    requires bounded { limit ≤ most_states }
    ensures added { OnOk result ((p : Policy) × IsPolicyOf sources.now limit text.now p × (policies.new.items ≡ policies.old.items ++ p ∷ [])) }
    ensures cause { IfErr result (λ r. r.fault.kind ≢ NoMemory → (r.policy ≡ number) × IsFaultOfText sources.now limit text.now r.fault) }
{
    match compile_text(alloc, sources, text, limit) {
        Ok(compiled) => {
            policies.push(compiled)?;
            Ok(())
        }
        Err(fault) => {
            Err(RefusedPolicy {
                policy: number,
                fault,
            })
        }
    }
}

/// The policies that texts spell with these sources. Refused by the first text that is refused.
fn policies_of(
    alloc: Global,
    sources: &Sources,
    texts: &[Text],
    limit: u32,
) -> Result<Vec<Compiled>, RefusedPolicy>
    requires some { 1 ≤ limit }
    requires bounded { limit ≤ most_states }
    requires few { length texts.now ≤ 65535 }
    ensures all { IfOk result (λ v. ArePoliciesOf sources.now limit texts.now v.items) }
    ensures cause { IfErr result (λ r. r.fault.kind ≢ NoMemory → IsFirstRefused sources.now limit texts.now r) }
{
    let mut policies = Vec::new(alloc);
    for (number, text) in texts.iter().enumerate() {
        let text = text.as_slice();
        push_policy(alloc, sources, number as u16, text, limit, &mut policies)?;
    }
    Ok(policies)
}

/// The policies that texts spell, each with the same sources. An automaton of a policy may have at most `limit` states.
///
/// Refused by the first fault: of the sources, which counts for the first text, and else of text after text, each read and
/// compiled before the next. `NoMemory` can come at any point.
pub fn compile_policies(
    alloc: Global,
    includes: &[Include],
    texts: &[Text],
    limit: u32,
) -> Result<Vec<Compiled>, RefusedPolicy>
    requires some { 1 ≤ limit }
    requires bounded { limit ≤ most_states }
    requires few { length texts.now ≤ 65535 }
    ensures all { IfOk result (λ v. ArePoliciesOf (sources_of includes.now) limit texts.now v.items) }
    ensures cause { IfErr result (λ r. r.fault.kind ≢ NoMemory → IsRefusedBy (sources_of includes.now) limit texts.now r) }
{
    match gather_sources(alloc, includes) {
        Ok(sources) => policies_of(alloc, &sources, texts, limit),
        Err(fault) => Err(RefusedPolicy { policy: 0, fault }),
    }
}
