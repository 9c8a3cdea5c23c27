//! What stands before a policy's profiles: assignments, and abi rules (apparmor.d(5), "Variables" and "ABI").

ghost use Rattle.std.specs.Prelude.{Bool, ◌≡◌, ◌≤◌, ◌<◌, ◌+◌, true, false, ◌∷◌, List, length, Some, IfSome, IfNone, OnSome, IfOk, IfErr, OnErr};
ghost use Rattle.std.specs.Bool.{OnTrue, OnFalse};
ghost use Rattle.aa_base.specs.declared.fault.Spot.{Spot};
ghost use Rattle.aa_glob.specs.Variables.{Variable};
ghost use Rattle.aa_base.specs.Kinds.{IsRefusal};
ghost use Rattle.aa_words.specs.Splits.{WordData, word_data};
ghost use Rattle.aa_rules.specs.Faults.{is_word_fault, IsPlaceIn, IsPlaced};
ghost use Rattle.aa_policy.specs.Preamble.{IsAngled, CanNameAbi, NamesAbi, LacksAbiName, IsAbi, PreambleData, IsPreambleItem, PreambleEnds, IsPreamble, given, variables_of, Misnames, IsMisnamed, IsTwice, IsUndefined, misnamed, IsRefusedWith, IsPreambleRefusal};
ghost use Rattle.aa_policy.specs.HeadFaults.{AbiFails};
ghost use Rattle.aa_rules.specs.Reading.{rest_of};
ghost use Rattle.aa_rules.specs.RuleFaults.{IsFaultBy};

use crate::assignments::{assignment_of, begins_assignment};
use aa_base::{PolicyFault, PolicyKind, Spot};
use aa_glob::Vars;
use aa_rules::{fault, keyword_stands, word_of_kind};
use aa_words::{Word, WordKind};
use std::alloc::Global;

/// Whether a text stands between `<` and `>`.
fn is_angled(text: &[u8]) -> bool
    ensures yes { OnTrue result (IsAngled text.now) }
    ensures no { OnFalse result (IsAngled text.now → ⊥) }
{
    matches!(text, [b'<', .., b'>'])
}

/// Whether a word can name an abi.
fn can_name_abi(kind: WordKind, text: &[u8]) -> bool
    ensures yes { OnTrue result (CanNameAbi kind text.now) }
    ensures no { OnFalse result (CanNameAbi kind text.now → ⊥) }
{
    match kind {
        WordKind::Quoted => true,
        WordKind::Name => is_angled(text),
        _ => false,
    }
}

/// The word at a place, if it can name an abi.
#[tactic(auto, using(crate::proofs::Preambles::abi_here, crate::proofs::Preambles::no_abi_here, crate::proofs::Preambles::no_abi_past))]
fn abi_name_at<'w, 's>(words: &'w [Word<'s>], at: usize) -> Option<&'w Word<'s>>
    ensures found { IfSome result (λ w. NamesAbi (rest_of words.now at) (word_data w.now) (rest_of words.now (at + 1))) }
    ensures missing { IfNone result (LacksAbiName (rest_of words.now at)) }
    ensures within { OnSome result (at < length words.now) }
{
    if at >= words.len() {
        return None;
    }
    let word = &words[at];
    if !can_name_abi(word.kind, word.text) {
        return None;
    }
    Some(word)
}

/// The place behind an abi rule, which has no effect.
pub fn abi_of(words: &[Word], at: usize, end: Spot) -> Result<usize, PolicyFault>
    ensures found { IfOk result (λ next. IsAbi (rest_of words.now at) (rest_of words.now next)) }
    ensures refused { OnErr result ((rest : List WordData) → IsAbi (rest_of words.now at) rest → ⊥) }
    ensures fails { IfErr result (IsFaultBy AbiFails (rest_of words.now at) end) }
    ensures cause { IfErr result (λ e. is_word_fault e.kind ≡ true) }
    ensures place { IfErr result (λ e. IsPlaceIn words.now end e.at) }
    ensures within { IfOk result (λ next. (at < next) × (next ≤ length words.now)) }
{
    if !keyword_stands(words, at, "abi".as_bytes()) {
        return Err(fault(PolicyKind::Syntax, words, at, end));
    }
    let Some(_) = abi_name_at(words, at + 1) else {
        return Err(fault(PolicyKind::Syntax, words, at + 1, end));
    };
    let Some(_) = word_of_kind(words, at + 2, WordKind::Comma) else {
        return Err(fault(PolicyKind::Syntax, words, at + 2, end));
    };
    Ok(at + 3)
}

/// Whether an assignment or an abi rule begins at a place.
fn begins_item(words: &[Word], at: usize) -> bool
    ensures yes { OnTrue result (PreambleEnds (rest_of words.now at) (rest_of words.now at) → ⊥) }
    ensures no { OnFalse result (PreambleEnds (rest_of words.now at) (rest_of words.now at)) }
{
    begins_assignment(words, at) || keyword_stands(words, at, "abi".as_bytes())
}

/// Reads an assignment into the variables, or an abi rule, and gives the place behind it.
fn item_of(
    alloc: Global,
    words: &[Word],
    at: usize,
    vars: &mut Vars,
    end: Spot,
) -> Result<usize, PolicyFault>
    ensures found { IfOk result (λ next. (item : PreambleData) × IsPreambleItem (rest_of words.now at) item (rest_of words.now next) × (given vars.old item ≡ Some vars.new)) }
    ensures refused { IsRefusal result → (item : PreambleData) (more : List Variable) (rest : List WordData)
        → IsPreambleItem (rest_of words.now at) item rest → given vars.old item ≡ Some more → ⊥ }
    ensures cause { IfErr result IsPreambleRefusal }
    ensures place { IfErr result (IsPlaced words.now end) }
    ensures twice { IfErr result (λ e. e.kind ≡ PolicyKind.VariableTwice → Misnames false vars.old (rest_of words.now at) e.at) }
    ensures undefined { IfErr result (λ e. e.kind ≡ PolicyKind.UndefinedVariable → Misnames true vars.old (rest_of words.now at) e.at) }
    ensures misnames { (adds : Bool) (spot : Spot) → Misnames adds vars.old (rest_of words.now at) spot → IsRefusedWith (misnamed adds spot) result }
    ensures within { IfOk result (λ next. (at < next) × (next ≤ length words.now)) }
{
    if keyword_stands(words, at, "abi".as_bytes()) {
        return abi_of(words, at, end);
    }
    assignment_of(alloc, words, at, vars, end)
}

/// The variables that a preamble sets, and the place behind it.
pub fn preamble_of(
    alloc: Global,
    words: &[Word],
    start: usize,
    end: Spot,
) -> Result<(Vars, usize), PolicyFault>
    requires { start ≤ length words.now }
    ensures found { IfOk result (λ r. (items : List PreambleData) × IsPreamble (rest_of words.now start) items (rest_of words.now r.1) × (variables_of items ≡ Some r.0)) }
    ensures refused { IsRefusal result → (items : List PreambleData) (vars : List Variable) (rest : List WordData)
        → IsPreamble (rest_of words.now start) items rest → variables_of items ≡ Some vars → ⊥ }
    ensures cause { IfErr result IsPreambleRefusal }
    ensures place { IfErr result (IsPlaced words.now end) }
    ensures twice { IfErr result (λ e. e.kind ≡ PolicyKind.VariableTwice → IsTwice (rest_of words.now start) e.at) }
    ensures undefined { IfErr result (λ e. e.kind ≡ PolicyKind.UndefinedVariable → IsUndefined (rest_of words.now start) e.at) }
    ensures misnamed { (adds : Bool) (spot : Spot) → IsMisnamed adds (rest_of words.now start) spot → IsRefusedWith (misnamed adds spot) result }
    ensures within { IfOk result (λ r. (start ≤ r.1) × (r.1 ≤ length words.now)) }
{
    let mut vars = Vars::new(alloc);
    let mut at = start;
    'items: while begins_item(words, at) {
        at = item_of(alloc, words, at, &mut vars, end)?;
    }
    Ok((vars, at))
}
