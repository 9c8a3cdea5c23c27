//! Reads rules, word by word.
//!
//! Functions take `words`, `at` and `end`, and no cursor over the three: a contract would have to say of each cursor that is
//! given back that it is over the same words and has the same end. A place alone needs neither.

ghost use Rattle.std.specs.Prelude.{◌≡◌, ◌<◌, ◌≤◌, true, List, length, OnErr, IfOk, IfErr};
ghost use Rattle.aa_words.specs.Splits.{WordData};
ghost use Rattle.aa_rules.specs.Faults.{is_word_fault, IsPlaceIn};
ghost use Rattle.aa_rules.specs.Grammar.{IsPermission, IsQualified, Says, is_keyword_byte, keyword_of, IsRule};
ghost use Rattle.aa_rules.specs.Reading.{RuleData, rule_data, rest_of};
ghost use Rattle.aa_rules.specs.RuleFaults.{IsFaultBy, SayingFails, RuleFails};

use crate::cap_rules::cap_rule_of;
use crate::change_rules::change_rule_of;
use crate::faults::{Preceding, no_comma_fault};
use crate::file_rules::file_of;
use crate::lookahead::{keyword_stands, optional, word_of_kind};
use crate::net_rules::net_rule_of;
use crate::tree::{Qualifiers, RuleTree};
use aa_base::{PolicyFault, Spot};
use aa_words::{Word, WordKind};

/// Whether `deny` stands at a place, and the place behind it or behind `allow`.
fn permission_of(words: &[Word], at: usize) -> (bool, usize)
    ensures read { IsPermission (rest_of words.now at) result.0 (rest_of words.now result.1) }
    ensures onward { at ≤ result.1 }
    ensures within { at < result.1 → result.1 ≤ length words.now }
{
    if keyword_stands(words, at, "deny".as_bytes()) {
        return (true, at + 1);
    }
    let (_, next) = optional(words, at, "allow".as_bytes());
    (false, next)
}

/// The qualifiers of a rule, and the place behind them.
fn qualifiers_of(words: &[Word], at: usize) -> (Qualifiers, usize)
    ensures read { IsQualified (rest_of words.now at) result.0 (rest_of words.now result.1) }
    ensures onward { at ≤ result.1 }
    ensures within { at < result.1 → result.1 ≤ length words.now }
{
    let (audit, behind) = optional(words, at, "audit".as_bytes());
    let (deny, next) = permission_of(words, behind);
    (Qualifiers { audit, deny }, next)
}

/// Whether a byte may stand in the keyword of a rule that is passed over.
fn is_keyword_byte(b: u8) -> bool
    ensures { result ≡ is_keyword_byte b }
{
    (b > 96 && b < 123) || b == b'_'
}

/// The keyword of a rule that is passed over.
fn keyword_of<'s>(text: &'s [u8]) -> &'s [u8]
    ensures { result.now ≡ keyword_of text.now }
{
    for (i, b) in text.iter().enumerate() {
        if !is_keyword_byte(*b) {
            return &text[..i];
        }
    }
    text
}

/// A rule behind its qualifiers and without its comma, and the place behind it.
fn unqualified_of<'s>(
    words: &[Word<'s>],
    at: usize,
    qualifiers: Qualifiers,
    place: Preceding,
    end: Spot,
) -> Result<(RuleTree<'s>, usize), PolicyFault>
    ensures found { IfOk result (λ r. Says qualifiers (rest_of words.now at) (rule_data r.0) (rest_of words.now r.1)) }
    ensures refused { OnErr result ((r : RuleData) (rest : List WordData) → Says qualifiers (rest_of words.now at) r rest → ⊥) }
    ensures fails { IfErr result (IsFaultBy (SayingFails place.qualified qualifiers.deny) (rest_of words.now at) end) }
    ensures cause { IfErr result (λ e. is_word_fault e.kind ≡ true) }
    ensures place { IfErr result (λ e. IsPlaceIn words.now end e.at) }
    ensures within { IfOk result (λ r. (at < r.1) × (r.1 ≤ length words.now)) }
{
    if let Some(skipped) = word_of_kind(words, at, WordKind::Skipped) {
        return Ok((RuleTree::PassedOver(keyword_of(skipped.text)), at + 1));
    }
    if keyword_stands(words, at, "capability".as_bytes()) {
        let (rule, next) = cap_rule_of(words, at + 1, qualifiers, end)?;
        return Ok((RuleTree::Cap(rule), next));
    }
    if keyword_stands(words, at, "network".as_bytes()) {
        let (rule, next) = net_rule_of(words, at + 1, qualifiers, end)?;
        return Ok((RuleTree::Net(rule), next));
    }
    if keyword_stands(words, at, "change_profile".as_bytes()) {
        let (rule, next) = change_rule_of(words, at + 1, qualifiers, end)?;
        return Ok((RuleTree::Change(rule), next));
    }
    let (file, next) = file_of(words, at, qualifiers, place, end)?;
    Ok((RuleTree::File(file), next))
}

/// A rule with its comma, and the place behind it.
pub fn rule_of<'s>(
    words: &[Word<'s>],
    at: usize,
    end: Spot,
) -> Result<(RuleTree<'s>, usize), PolicyFault>
    ensures found { IfOk result (λ r. IsRule (rest_of words.now at) (rule_data r.0) (rest_of words.now r.1)) }
    ensures refused { OnErr result ((r : RuleData) (rest : List WordData) → IsRule (rest_of words.now at) r rest → ⊥) }
    ensures fails { IfErr result (IsFaultBy RuleFails (rest_of words.now at) end) }
    ensures cause { IfErr result (λ e. is_word_fault e.kind ≡ true) }
    ensures place { IfErr result (λ e. IsPlaceIn words.now end e.at) }
    ensures within { IfOk result (λ r. (at < r.1) × (r.1 ≤ length words.now)) }
{
    let (qualifiers, unqualified) = qualifiers_of(words, at);
    let place = Preceding::behind_qualifiers(at < unqualified);
    let (rule, next) = unqualified_of(words, unqualified, qualifiers, place, end)?;
    let Some(_) = word_of_kind(words, next, WordKind::Comma) else {
        return Err(no_comma_fault(words, next, &rule, end));
    };
    Ok((rule, next + 1))
}
