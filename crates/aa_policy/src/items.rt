//! The first pass: reads what is written, word by word.

ghost use Rattle.std.specs.Prelude.{Bool, ◌≡◌, ◌<◌, ◌≤◌, ◌++◌, true, List, Option, map, length, option_map, OnOk, OnErr, IfOk, IfErr};
ghost use Rattle.aa_base.specs.declared.fault.Spot.{Spot};
ghost use Rattle.aa_base.specs.Kinds.{IsRefusal};
ghost use Rattle.aa_words.specs.Splits.{WordData, words_data};
ghost use Rattle.aa_rules.specs.Faults.{IsWordRefusal, IsPlaced};
ghost use Rattle.aa_policy.specs.Bodies.{FamilyData, ProfileData, IsItem, IsPolicy, row_of, family_data, profile_data, tree_data};
ghost use Rattle.aa_glob.specs.Variables.{Variable};
ghost use Rattle.aa_policy.specs.Preamble.{IsMisnamed, IsTwice, IsUndefined, misnamed, IsRefusedWith, IsPreambleRefusal};
ghost use Rattle.aa_rules.specs.Reading.{rest_of};

use crate::assignments::begins_assignment;
use crate::bodies::profile_of;
use crate::families::push_family;
use crate::preamble::{abi_of, preamble_of};
use crate::tree::{FamilyTree, PolicyTree, ProfileTree};
use aa_base::{PolicyFault, PolicyKind, Spot};
use aa_rules::{fault, item_fault, keyword_stands, path_at};
use aa_words::Word;
use std::alloc::{AllocError, Global};

/// An item behind the preamble: a profile, or an abi rule; and the place behind it.
fn top_item_of<'s>(
    alloc: Global,
    words: &[Word<'s>],
    at: usize,
    end: Spot,
) -> Result<(Option<FamilyTree<'s>>, usize), PolicyFault>
    ensures found { IfOk result (λ r. IsItem (rest_of words.now at) (option_map family_data r.0) (rest_of words.now r.1)) }
    ensures refused { IsRefusal result → (i : Option FamilyData) (rest : List WordData) → IsItem (rest_of words.now at) i rest → ⊥ }
    ensures cause { IfErr result (λ e. IsWordRefusal e) }
    ensures place { IfErr result (IsPlaced words.now end) }
    ensures within { IfOk result (λ r. (at < r.1) × (r.1 ≤ length words.now)) }
{
    if keyword_stands(words, at, "abi".as_bytes()) {
        let next = abi_of(words, at, end)?;
        return Ok((None, next));
    }
    if begins_assignment(words, at) {
        return Err(fault(PolicyKind::Syntax, words, at, end));
    }
    if !keyword_stands(words, at, "profile".as_bytes()) && path_at(words, at).is_none() {
        return Err(item_fault(words, at, end));
    }
    let (profile, next) = profile_of(alloc, words, at, end)?;
    Ok((Some(profile), next))
}

/// Adds an item's profile and its children to those before it, if it is one.
fn push_item<'s>(
    row: &mut Vec<ProfileTree<'s>>,
    item: Option<FamilyTree<'s>>,
) -> Result<(), AllocError>
    ensures { OnOk result (map profile_data row.new.items ≡ map profile_data row.old.items ++ row_of (length row.old.items) (option_map family_data item.entry)) }
{
    match item {
        Some(profile) => push_family(row, profile),
        None => Ok(()),
    }
}

/// The policy as it is written.
pub fn tree_of<'s>(
    alloc: Global,
    words: &[Word<'s>],
    end: Spot,
) -> Result<PolicyTree<'s>, PolicyFault>
    ensures found { IfOk result (λ t. IsPolicy (words_data words.now) t.vars (tree_data t.profiles.items)) }
    ensures refused { IsRefusal result → (vars : List Variable) (tree : List ProfileData) → IsPolicy (words_data words.now) vars tree → ⊥ }
    ensures cause { IfErr result (λ e. IsPreambleRefusal e) }
    ensures place { IfErr result (IsPlaced words.now end) }
    ensures twice { IfErr result (λ e. e.kind ≡ PolicyKind.VariableTwice → IsTwice (words_data words.now) e.at) }
    ensures undefined { IfErr result (λ e. e.kind ≡ PolicyKind.UndefinedVariable → IsUndefined (words_data words.now) e.at) }
    ensures misnamed { (adds : Bool) (spot : Spot) → IsMisnamed adds (words_data words.now) spot → IsRefusedWith (misnamed adds spot) result }
{
    let (vars, start) = preamble_of(alloc, words, 0, end)?;
    let mut profiles = Vec::new(alloc);
    let mut at = start;
    'items: while at < words.len() {
        let (item, next) = top_item_of(alloc, words, at, end)?;
        push_item(&mut profiles, item)?;
        at = next;
    }
    Ok(PolicyTree { vars, profiles })
}
