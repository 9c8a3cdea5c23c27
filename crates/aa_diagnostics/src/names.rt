//! The full names of the profiles that words spell, and where they stand.

ghost use Rattle.std.specs.Prelude.{◌≡◌, ◌<◌, ◌≤◌, ◌++◌, ◌∷◌, [], List, Option, map, flat_map, length, OnOk, OnErr, IfOk};
ghost use Rattle.aa_base.specs.Kinds.{IsRefusal};
ghost use Rattle.aa_glob.specs.Variables.{Variable};
ghost use Rattle.aa_words.specs.Splits.{WordData, words_data};
ghost use Rattle.aa_rules.specs.Grammar.{Many, Closes};
ghost use Rattle.aa_rules.specs.Reading.{RuleData, rest_of};
ghost use Rattle.aa_policy.specs.Bodies.{ChildData, FamilyData, PartData, ProfileData, IsStatement, IsChild, IsBodyPart, IsProfile, IsItem, IsPolicy, children_in, if_any, child_name};
ghost use Rattle.aa_diagnostics.specs.Named.{named_data, named_of, child_named, family_names};

use aa_base::{PolicyFault, Spot};
use aa_policy::{abi_of, begins_profile, head_of, preamble_of};
use aa_rules::{closes, keyword_stands, rule_of};
use aa_words::Word;
use std::alloc::{AllocError, Global};

/// A profile's full name, and where it stands.
#[derive(Drop)]
pub struct ProfileName {
    pub at: Spot,
    pub name: Vec<u8>,
}

/// The place behind a statement.
fn statement_end(words: &[Word], at: usize, end: Spot) -> Result<usize, PolicyFault>
    ensures found { IfOk result (λ next. (s : Option RuleData) × IsStatement (rest_of words.now at) s (rest_of words.now next)) }
    ensures refused { OnErr result ((s : Option RuleData) (rest : List WordData) → IsStatement (rest_of words.now at) s rest → ⊥) }
    ensures within { IfOk result (λ next. (at < next) × (next ≤ length words.now)) }
{
    if keyword_stands(words, at, "abi".as_bytes()) {
        let next = abi_of(words, at, end)?;
        return Ok(next);
    }
    let (_, next) = rule_of(words, at, end)?;
    Ok(next)
}

/// The place behind a child's body, its closing brace among it.
fn child_body_end(words: &[Word], start: usize, end: Spot) -> Result<usize, PolicyFault>
    ensures found { IfOk result (λ next. (ss : List (Option RuleData)) × Many IsStatement Closes (rest_of words.now start) ss (rest_of words.now next)) }
    ensures refused { OnErr result ((ss : List (Option RuleData)) (rest : List WordData) → Many IsStatement Closes (rest_of words.now start) ss rest → ⊥) }
    ensures within { IfOk result (λ next. (start < next) × (next ≤ length words.now)) }
{
    let mut at = start;
    'statements: while !closes(words, at) {
        at = statement_end(words, at, end)?;
    }
    Ok(at + 1)
}

/// The full name of a child of the profile of that name.
fn child_name(alloc: Global, parent: &[u8], name: &[u8]) -> Result<Vec<u8>, AllocError>
    ensures { IfOk result (λ full. full.items ≡ child_name parent.now name.now) }
{
    let mut full = Vec::from_slice(alloc, parent)?;
    full.extend_from_slice("//".as_bytes())?;
    full.extend_from_slice(name)?;
    Ok(full)
}

/// Adds a child of the profile of that name, and gives the place behind it.
fn push_child(
    alloc: Global,
    words: &[Word],
    at: usize,
    end: Spot,
    parent: &[u8],
    names: &mut Vec<ProfileName>,
) -> Result<usize, PolicyFault>
    ensures found { IfOk result (λ next. (c : ChildData) × IsChild (rest_of words.now at) c (rest_of words.now next)
        × (map named_data names.new.items ≡ map named_data names.old.items ++ child_named parent.now c ∷ [])) }
    ensures refused { IsRefusal result → (c : ChildData) (rest : List WordData) → IsChild (rest_of words.now at) c rest → ⊥ }
    ensures within { IfOk result (λ next. (at < next) × (next ≤ length words.now)) }
{
    let (head, body) = head_of(words, at, false, end)?;
    let next = child_body_end(words, body, end)?;
    let name = child_name(alloc, parent, head.title.name)?;
    names.push(ProfileName {
        at: head.title.at,
        name,
    })?;
    Ok(next)
}

/// Adds what a part of the body of the profile of that name holds, if it is a child, and gives the place behind it.
fn push_part(
    alloc: Global,
    words: &[Word],
    at: usize,
    end: Spot,
    parent: &[u8],
    names: &mut Vec<ProfileName>,
) -> Result<usize, PolicyFault>
    ensures found { IfOk result (λ next. (p : PartData) × IsBodyPart (rest_of words.now at) p (rest_of words.now next)
        × (map named_data names.new.items ≡ map named_data names.old.items ++ map (child_named parent.now) (children_in p))) }
    ensures refused { IsRefusal result → (p : PartData) (rest : List WordData) → IsBodyPart (rest_of words.now at) p rest → ⊥ }
    ensures within { IfOk result (λ next. (at < next) × (next ≤ length words.now)) }
{
    if begins_profile(words, at) {
        let next = push_child(alloc, words, at, end, parent, names)?;
        return Ok(next);
    }
    let next = statement_end(words, at, end)?;
    Ok(next)
}

/// Adds the children in the body of the profile of that name, and gives the place behind its closing brace.
fn push_body(
    alloc: Global,
    words: &[Word],
    start: usize,
    end: Spot,
    parent: &[u8],
    names: &mut Vec<ProfileName>,
) -> Result<usize, PolicyFault>
    ensures found { IfOk result (λ next. (ps : List PartData) × Many IsBodyPart Closes (rest_of words.now start) ps (rest_of words.now next)
        × (map named_data names.new.items ≡ map named_data names.old.items ++ map (child_named parent.now) (flat_map children_in ps))) }
    ensures refused { IsRefusal result → (ps : List PartData) (rest : List WordData) → Many IsBodyPart Closes (rest_of words.now start) ps rest → ⊥ }
    ensures within { IfOk result (λ next. (start < next) × (next ≤ length words.now)) }
{
    let mut at = start;
    'parts: while !closes(words, at) {
        at = push_part(alloc, words, at, end, parent, names)?;
    }
    Ok(at + 1)
}

/// Adds a top-level profile and its children, and gives the place behind it.
fn push_family(
    alloc: Global,
    words: &[Word],
    at: usize,
    end: Spot,
    names: &mut Vec<ProfileName>,
) -> Result<usize, PolicyFault>
    ensures found { IfOk result (λ next. (f : FamilyData) × IsProfile (rest_of words.now at) f (rest_of words.now next)
        × (map named_data names.new.items ≡ map named_data names.old.items ++ family_names f)) }
    ensures refused { IsRefusal result → (f : FamilyData) (rest : List WordData) → IsProfile (rest_of words.now at) f rest → ⊥ }
    ensures within { IfOk result (λ next. (at < next) × (next ≤ length words.now)) }
{
    let (head, body) = head_of(words, at, true, end)?;
    let name = Vec::from_slice(alloc, head.title.name)?;
    names.push(ProfileName {
        at: head.title.at,
        name,
    })?;
    let next = push_body(alloc, words, body, end, head.title.name, names)?;
    Ok(next)
}

/// Adds the profiles of what stands behind the preamble at a place, if these are some, and gives the place behind it.
fn push_item(
    alloc: Global,
    words: &[Word],
    at: usize,
    end: Spot,
    names: &mut Vec<ProfileName>,
) -> Result<usize, PolicyFault>
    ensures found { IfOk result (λ next. (i : Option FamilyData) × IsItem (rest_of words.now at) i (rest_of words.now next)
        × (map named_data names.new.items ≡ map named_data names.old.items ++ flat_map family_names (if_any i))) }
    ensures refused { IsRefusal result → (i : Option FamilyData) (rest : List WordData) → IsItem (rest_of words.now at) i rest → ⊥ }
    ensures within { IfOk result (λ next. (at < next) × (next ≤ length words.now)) }
{
    if keyword_stands(words, at, "abi".as_bytes()) {
        let next = abi_of(words, at, end)?;
        return Ok(next);
    }
    let next = push_family(alloc, words, at, end, names)?;
    Ok(next)
}

/// The full names of the profiles that words spell, in the order in which a policy numbers them.
pub(crate) fn names_of(
    alloc: Global,
    words: &[Word],
    end: Spot,
) -> Result<Vec<ProfileName>, PolicyFault>
    ensures found { IfOk result (λ names. (vars : List Variable) × (tree : List ProfileData) × IsPolicy (words_data words.now) vars tree
        × (map named_data names.items ≡ map named_of tree)) }
    ensures refused { IsRefusal result → (vars : List Variable) (tree : List ProfileData) → IsPolicy (words_data words.now) vars tree → ⊥ }
{
    let (_, start) = preamble_of(alloc, words, 0, end)?;
    let mut names = Vec::new(alloc);
    let mut at = start;
    'items: while at < words.len() {
        at = push_item(alloc, words, at, end, &mut names)?;
    }
    Ok(names)
}
