//! Rules on capabilities (apparmor.d(5), "Capability rules").

ghost use Rattle.std.specs.Prelude.{◌≡◌, ◌≤◌, ℕ, true, List, length, OnErr, IfOk, IfErr};
ghost use Rattle.aa_words.specs.Splits.{WordData};
ghost use Rattle.aa_rules.specs.CapRules.{NamesEnd, IsCapName, numbers_bits, IsCaps};
ghost use Rattle.aa_rules.specs.Faults.{is_word_fault, IsPlaceIn};
ghost use Rattle.aa_rules.specs.Grammar.{Many};
ghost use Rattle.aa_rules.specs.Reading.{rest_of};
ghost use Rattle.aa_rules.specs.RuleFaults.{IsFaultBy, CapFails};

use crate::lookahead::{fault, word_of_kind};
use crate::tree::Qualifiers;
use aa_base::{Cap, Caps, PolicyFault, PolicyKind, Spot};
use aa_model::CapRule;
use aa_words::{Word, WordKind};
use bitflags::Flags;

/// All capabilities.
const ALL: Caps = Caps((1 << 41) - 1);

/// The capabilities that are named from a place on, and the place behind them.
fn caps_named(words: &[Word], start: usize, end: Spot) -> Result<(Caps, usize), PolicyFault>
    requires behind { start ≤ length words.now }
    ensures found { IfOk result (λ r. (numbers : List ℕ) × Many IsCapName NamesEnd (rest_of words.now start) numbers (rest_of words.now r.1) × (r.0.0 ≡ numbers_bits 0 numbers)) }
    ensures refused { OnErr result ((numbers : List ℕ) (rest : List WordData) → Many IsCapName NamesEnd (rest_of words.now start) numbers rest → ⊥) }
    ensures fails { IfErr result (IsFaultBy CapFails (rest_of words.now start) end) }
    ensures cause { IfErr result (λ e. is_word_fault e.kind ≡ true) }
    ensures place { IfErr result (λ e. IsPlaceIn words.now end e.at) }
    ensures within { IfOk result (λ r. (start ≤ r.1) × (r.1 ≤ length words.now)) }
{
    let mut caps = Caps(0);
    let mut at = start;
    'names: while let Some(word) = word_of_kind(words, at, WordKind::Name) {
        let Some(cap) = Cap::from_name(word.text) else {
            return Err(fault(PolicyKind::UnknownWord, words, at, end));
        };
        caps.insert(Caps(1 << cap.number()));
        at += 1;
    }
    Ok((caps, at))
}

/// A rule on capabilities behind its keyword, and the place behind it: without a name it is on
/// all of them.
pub fn cap_rule_of(
    words: &[Word],
    at: usize,
    qualifiers: Qualifiers,
    end: Spot,
) -> Result<(CapRule, usize), PolicyFault>
    requires behind { at ≤ length words.now }
    ensures found { IfOk result (λ r. IsCaps qualifiers (rest_of words.now at) r.0 (rest_of words.now r.1)) }
    ensures refused { OnErr result ((rule : CapRule) (rest : List WordData) → IsCaps qualifiers (rest_of words.now at) rule rest → ⊥) }
    ensures fails { IfErr result (IsFaultBy CapFails (rest_of words.now at) end) }
    ensures cause { IfErr result (λ e. is_word_fault e.kind ≡ true) }
    ensures place { IfErr result (λ e. IsPlaceIn words.now end e.at) }
    ensures within { IfOk result (λ r. (at ≤ r.1) × (r.1 ≤ length words.now)) }
{
    let (named, next) = caps_named(words, at, end)?;
    let caps = if named.0 == 0 { ALL } else { named };
    let rule = CapRule {
        audit: qualifiers.audit,
        deny: qualifiers.deny,
        caps,
    };
    Ok((rule, next))
}
