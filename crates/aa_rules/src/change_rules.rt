//! Rules on changes of profile (apparmor.d(5), "change_profile rules").

ghost use Rattle.std.specs.Prelude.{◌≡◌, ◌<◌, ◌≤◌, ◌+◌, true, List, Option, option_map, length, IfSome, IfNone, OnSome, OnErr, IfOk, IfErr};
ghost use Rattle.aa_words.specs.Splits.{WordData};
ghost use Rattle.aa_rules.specs.ChangeRules.{IsAim, IsAnyAim, IsChanges};
ghost use Rattle.aa_rules.specs.Faults.{is_word_fault, IsPlaceIn};
ghost use Rattle.aa_rules.specs.Reading.{NameData, name_data, ChangeData, change_data, rest_of};
ghost use Rattle.aa_rules.specs.RuleFaults.{IsFaultBy, AimFails};

use crate::faults::no_name_fault;
use crate::lookahead::{profile_name_at, spot_of, word_of_kind};
use crate::names::is_target_name;
use crate::tree::{ChangeTree, NameTree, Qualifiers};
use aa_base::{PolicyFault, Spot};
use aa_words::{Word, WordKind};

/// The name behind an arrow.
fn aim_of<'s>(words: &[Word<'s>], at: usize) -> Option<NameTree<'s>>
    ensures found { IfSome result (λ n. IsAim (rest_of words.now at) (name_data n) (rest_of words.now (at + 2))) }
    ensures missing { IfNone result ((n : NameData) (rest : List WordData) → IsAim (rest_of words.now at) n rest → ⊥) }
    ensures within { OnSome result (at + 1 < length words.now) }
{
    let _arrow = word_of_kind(words, at, WordKind::Arrow)?;
    let word = profile_name_at(words, at + 1)?;
    if !is_target_name(word.text) {
        return None;
    }
    Some(NameTree {
        at: spot_of(word),
        text: word.text,
    })
}

/// The name behind an arrow, if there is an arrow, and the place behind it.
fn any_aim_of<'s>(words: &[Word<'s>], at: usize) -> Option<(Option<NameTree<'s>>, usize)>
    requires within { at ≤ length words.now }
    ensures found { IfSome result (λ r. IsAnyAim (rest_of words.now at) (option_map name_data r.0) (rest_of words.now r.1)) }
    ensures missing { IfNone result ((n : Option NameData) (rest : List WordData) → IsAnyAim (rest_of words.now at) n rest → ⊥) }
    ensures onward { IfSome result (λ r. (at ≤ r.1) × (r.1 ≤ length words.now)) }
{
    if word_of_kind(words, at, WordKind::Arrow).is_none() {
        return Some((None, at));
    }
    let Some(name) = aim_of(words, at) else {
        return None;
    };
    Some((Some(name), at + 2))
}

/// A rule on changes of profile behind its keyword, and the place behind it.
pub fn change_rule_of<'s>(
    words: &[Word<'s>],
    at: usize,
    qualifiers: Qualifiers,
    end: Spot,
) -> Result<(ChangeTree<'s>, usize), PolicyFault>
    requires behind { at ≤ length words.now }
    ensures found { IfOk result (λ r. IsChanges qualifiers (rest_of words.now at) (change_data r.0) (rest_of words.now r.1)) }
    ensures refused { OnErr result ((change : ChangeData) (rest : List WordData) → IsChanges qualifiers (rest_of words.now at) change rest → ⊥) }
    ensures fails { IfErr result (IsFaultBy AimFails (rest_of words.now at) end) }
    ensures cause { IfErr result (λ e. is_word_fault e.kind ≡ true) }
    ensures place { IfErr result (λ e. IsPlaceIn words.now end e.at) }
    ensures within { IfOk result (λ r. (at ≤ r.1) × (r.1 ≤ length words.now)) }
{
    let Some((name, next)) = any_aim_of(words, at) else {
        return Err(no_name_fault(words, at, end));
    };
    Ok((ChangeTree { qualifiers, name }, next))
}
