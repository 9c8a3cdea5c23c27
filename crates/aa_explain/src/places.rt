//! Where the profiles of a policy with their heads and their rules stand.

ghost use Rattle.std.specs.Prelude.{◌≡◌, ◌<◌, ◌≤◌, ◌++◌, ◌∷◌, [], List, Option, Some, length, map, flat_map, OnOk, IfOk};
ghost use Rattle.aa_base.specs.Kinds.{IsRefusal};
ghost use Rattle.aa_glob.specs.Variables.{Variable};
ghost use Rattle.aa_words.specs.Splits.{WordData, words_data};
ghost use Rattle.aa_rules.specs.Grammar.{Many, Closes};
ghost use Rattle.aa_rules.specs.Reading.{RuleData, rest_of, rule_data};
ghost use Rattle.aa_policy.specs.Bodies.{ChildData, FamilyData, PartData, ProfileData, IsStatement, IsChild, IsBodyPart, IsProfile, IsItem, IsPolicy, if_any};
ghost use Rattle.aa_explain.specs.Heads.{first_spot};
ghost use Rattle.aa_explain.specs.Places.{PlacedRule, EndsAt, PlacedProfile, PlacedPart, PlacedFamily, IsPlacedStatement, IsPlacedChild, IsPlacedPart, IsPlacedFamily, IsPlacedItem, rules_in, children_in, family_row, with_rules, no_places, places_of, places_data, ArePlaces};

use crate::heads::{PlacedHead, placed_head};
use aa_base::{PolicyFault, Spot};
use aa_policy::{abi_of, begins_profile, head_of, preamble_of};
use aa_rules::{RuleTree, closes, keyword_stands, rule_of, spot_of};
use aa_words::{Word, WordList};
use std::alloc::{AllocError, Global};

/// Where a rule begins, and the byte behind its last word in the same reading of a file. So of a head, up to its opening brace, and of a flag.
#[derive(Clone, Copy, Debug)]
pub struct Extent {
    pub at: Spot,
    pub end: u32,
}

/// Where a profile and its rules stand: a rule at its first word, and one that is passed over up to the comma that ends it.
#[derive(Drop)]
pub struct ProfilePlaces<'s> {
    /// Its own name, as its raw bytes.
    pub name: &'s [u8],
    /// The number of the profile that holds it, if it is a child.
    pub parent: Option<usize>,
    /// Where its name stands.
    pub at: Spot,
    /// Where its head stands, up to its opening brace.
    pub head: Extent,
    /// Those of its flags that have no effect.
    pub flags: Vec<Extent>,
    pub files: Vec<Spot>,
    pub caps: Vec<Spot>,
    pub nets: Vec<Spot>,
    pub changes: Vec<Spot>,
    pub passed_over: Vec<Extent>,
}

fn no_rules<'s>(
    alloc: Global,
    name: &'s [u8],
    parent: Option<usize>,
    at: Spot,
    head: PlacedHead,
) -> ProfilePlaces<'s>
    ensures { places_data result ≡ no_places at head.place head.flags.items }
{
    let PlacedHead { place, flags } = head;
    ProfilePlaces {
        name,
        parent,
        at,
        head: place,
        flags,
        files: Vec::new(alloc),
        caps: Vec::new(alloc),
        nets: Vec::new(alloc),
        changes: Vec::new(alloc),
        passed_over: Vec::new(alloc),
    }
}

/// Adds the place of a rule to those of its kind.
#[tactic(auto, using(std::proofs::lemmas::Grind::common_steps), unfolding(crate::specs::Places::with_rules))]
fn push_place(
    places: &mut ProfilePlaces<'_>,
    rule: &RuleTree<'_>,
    extent: Extent,
) -> Result<(), AllocError>
    ensures { OnOk result (places_data places.new ≡ with_rules (places_data places.old) (record { at = extent.at; end = extent.end; rule = rule_data rule.now } ∷ [])) }
{
    match rule {
        RuleTree::File(_) => places.files.push(extent.at)?,
        RuleTree::Cap(_) => places.caps.push(extent.at)?,
        RuleTree::Net(_) => places.nets.push(extent.at)?,
        RuleTree::Change(_) => places.changes.push(extent.at)?,
        RuleTree::PassedOver(_) => places.passed_over.push(extent)?,
    }
    Ok(())
}

/// From where to where the words between two places go.
fn extent_of(words: &[Word<'_>], at: usize, next: usize) -> Extent
    requires some { at < next }
    requires within { next ≤ length words.now }
    ensures begins { first_spot (rest_of words.now at) ≡ Some result.at }
    ensures ends { EndsAt (rest_of words.now at) result.end (rest_of words.now next) }
{
    let first = &words[at];
    let last = &words[next - 1];
    Extent {
        at: spot_of(first),
        end: last.span.end,
    }
}

/// Adds the place of the statement at a place to those of a profile, and gives the place behind it.
fn push_statement<'s>(
    words: &[Word<'s>],
    at: usize,
    end: Spot,
    places: &mut ProfilePlaces<'s>,
) -> Result<usize, PolicyFault>
    ensures found { IfOk result (λ next. (s : Option PlacedRule) × IsPlacedStatement (rest_of words.now at) s (rest_of words.now next) × (places_data places.new ≡ with_rules (places_data places.old) (if_any s))) }
    ensures refused { IsRefusal result → (s : Option RuleData) (rest : List WordData) → IsStatement (rest_of words.now at) s rest → ⊥ }
    ensures within { IfOk result (λ next. (at < next) × (next ≤ length words.now)) }
{
    if keyword_stands(words, at, "abi".as_bytes()) {
        let next = abi_of(words, at, end)?;
        return Ok(next);
    }
    let (rule, next) = rule_of(words, at, end)?;
    push_place(places, &rule, extent_of(words, at, next))?;
    Ok(next)
}

/// Adds the places of a child's rules, up to its closing brace, and gives the place behind it.
fn push_child_body<'s>(
    words: &[Word<'s>],
    start: usize,
    end: Spot,
    places: &mut ProfilePlaces<'s>,
) -> Result<usize, PolicyFault>
    ensures found { IfOk result (λ next. (ss : List (Option PlacedRule)) × Many IsPlacedStatement Closes (rest_of words.now start) ss (rest_of words.now next)
        × (places_data places.new ≡ with_rules (places_data places.old) (flat_map if_any ss))) }
    ensures refused { IsRefusal result → (ss : List (Option RuleData)) (rest : List WordData) → Many IsStatement Closes (rest_of words.now start) ss rest → ⊥ }
    ensures within { IfOk result (λ next. (start < next) × (next ≤ length words.now)) }
{
    let mut at = start;
    'statements: while !closes(words, at) {
        at = push_statement(words, at, end, places)?;
    }
    Ok(at + 1)
}

/// The places of a child of a profile, and the place behind its closing brace.
fn child_at<'s>(
    alloc: Global,
    words: &[Word<'s>],
    at: usize,
    end: Spot,
    parent: usize,
) -> Result<(ProfilePlaces<'s>, usize), PolicyFault>
    ensures found { IfOk result (λ r. (c : PlacedProfile) × IsPlacedChild (rest_of words.now at) c (rest_of words.now r.1) × (places_data r.0 ≡ places_of c)) }
    ensures refused { IsRefusal result → (c : ChildData) (rest : List WordData) → IsChild (rest_of words.now at) c rest → ⊥ }
    ensures within { IfOk result (λ r. (at < r.1) × (r.1 ≤ length words.now)) }
{
    let (head, body) = head_of(words, at, false, end)?;
    let placed = placed_head(alloc, words, at, body)?;
    let mut places = no_rules(alloc, head.title.name, Some(parent), head.title.at, placed);
    let next = push_child_body(words, body, end, &mut places)?;
    Ok((places, next))
}

/// The places of a top-level profile, and of its children.
#[derive(Drop)]
struct Family<'s> {
    own: ProfilePlaces<'s>,
    children: Vec<ProfilePlaces<'s>>,
}

/// Adds the places of the part of a top-level profile's body at a place, and gives the place behind it. The profile has that number.
fn push_part<'s>(
    alloc: Global,
    words: &[Word<'s>],
    at: usize,
    end: Spot,
    number: usize,
    family: &mut Family<'s>,
) -> Result<usize, PolicyFault>
    ensures found { IfOk result (λ next. (p : PlacedPart) × IsPlacedPart (rest_of words.now at) p (rest_of words.now next)
        × (places_data family.new.own ≡ with_rules (places_data family.old.own) (rules_in p))
        × (map places_data family.new.children.items ≡ map places_data family.old.children.items ++ map places_of (children_in p))) }
    ensures refused { IsRefusal result → (p : PartData) (rest : List WordData) → IsBodyPart (rest_of words.now at) p rest → ⊥ }
    ensures within { IfOk result (λ next. (at < next) × (next ≤ length words.now)) }
{
    if !begins_profile(words, at) {
        let next = push_statement(words, at, end, &mut family.own)?;
        return Ok(next);
    }
    let (child, next) = child_at(alloc, words, at, end, number)?;
    family.children.push(child)?;
    Ok(next)
}

/// Adds the places of a top-level profile's body, up to its closing brace, and gives the place behind it.
fn push_body<'s>(
    alloc: Global,
    words: &[Word<'s>],
    start: usize,
    end: Spot,
    number: usize,
    family: &mut Family<'s>,
) -> Result<usize, PolicyFault>
    ensures found { IfOk result (λ next. (ps : List PlacedPart) × Many IsPlacedPart Closes (rest_of words.now start) ps (rest_of words.now next)
        × (places_data family.new.own ≡ with_rules (places_data family.old.own) (flat_map rules_in ps))
        × (map places_data family.new.children.items ≡ map places_data family.old.children.items ++ map places_of (flat_map children_in ps))) }
    ensures refused { IsRefusal result → (ps : List PartData) (rest : List WordData) → Many IsBodyPart Closes (rest_of words.now start) ps rest → ⊥ }
    ensures within { IfOk result (λ next. (start < next) × (next ≤ length words.now)) }
{
    let mut at = start;
    'parts: while !closes(words, at) {
        at = push_part(alloc, words, at, end, number, family)?;
    }
    Ok(at + 1)
}

/// The places of the top-level profile at a place and of its children, and the place behind it. It has that number.
fn family_at<'s>(
    alloc: Global,
    words: &[Word<'s>],
    at: usize,
    end: Spot,
    number: usize,
) -> Result<(Family<'s>, usize), PolicyFault>
    ensures found { IfOk result (λ r. (f : PlacedFamily) × IsPlacedFamily (rest_of words.now at) f (rest_of words.now r.1)
        × (places_data r.0.own ∷ map places_data r.0.children.items ≡ map places_of (family_row f))) }
    ensures refused { IsRefusal result → (f : FamilyData) (rest : List WordData) → IsProfile (rest_of words.now at) f rest → ⊥ }
    ensures within { IfOk result (λ r. (at < r.1) × (r.1 ≤ length words.now)) }
{
    let (head, body) = head_of(words, at, true, end)?;
    let placed = placed_head(alloc, words, at, body)?;
    let mut family = Family {
        own: no_rules(alloc, head.title.name, None, head.title.at, placed),
        children: Vec::new(alloc),
    };
    let next = push_body(alloc, words, body, end, number, &mut family)?;
    Ok((family, next))
}

/// Adds the places of a top-level profile and of its children.
fn push_family<'s>(found: &mut Vec<ProfilePlaces<'s>>, family: Family<'s>) -> Result<(), AllocError>
    ensures { OnOk result (map places_data found.new.items ≡ map places_data found.old.items ++ (places_data family.entry.own ∷ map places_data family.entry.children.items)) }
{
    let Family { own, mut children } = family;
    found.push(own)?;
    found.append(&mut children)?;
    Ok(())
}

/// Adds the places of the profile at a place with its children, and gives the place behind it.
fn push_item<'s>(
    alloc: Global,
    words: &[Word<'s>],
    at: usize,
    end: Spot,
    found: &mut Vec<ProfilePlaces<'s>>,
) -> Result<usize, PolicyFault>
    ensures found { IfOk result (λ next. (i : Option PlacedFamily) × IsPlacedItem (rest_of words.now at) i (rest_of words.now next)
        × (map places_data found.new.items ≡ map places_data found.old.items ++ map places_of (flat_map family_row (if_any i)))) }
    ensures refused { IsRefusal result → (i : Option FamilyData) (rest : List WordData) → IsItem (rest_of words.now at) i rest → ⊥ }
    ensures within { IfOk result (λ next. (at < next) × (next ≤ length words.now)) }
{
    if keyword_stands(words, at, "abi".as_bytes()) {
        return abi_of(words, at, end);
    }
    let (family, next) = family_at(alloc, words, at, end, found.len())?;
    push_family(found, family)?;
    Ok(next)
}

/// The places of the profiles that words spell.
fn places_in<'s>(
    alloc: Global,
    words: &[Word<'s>],
    end: Spot,
) -> Result<Vec<ProfilePlaces<'s>>, PolicyFault>
    ensures placed { IfOk result (λ v. ArePlaces (words_data words.now) (map places_data v.items)) }
    ensures refused { IsRefusal result → (vars : List Variable) (tree : List ProfileData) → IsPolicy (words_data words.now) vars tree → ⊥ }
{
    let (_, start) = preamble_of(alloc, words, 0, end)?;
    let mut found = Vec::new(alloc);
    let mut at = start;
    'items: while at < words.len() {
        at = push_item(alloc, words, at, end, &mut found)?;
    }
    Ok(found)
}

/// Where the profiles that words spell stand, in the order in which a policy numbers them, and where their heads and their rules stand,
/// each list in the order of the policy's.
pub fn rule_places<'s>(
    alloc: Global,
    list: &WordList<'s>,
) -> Result<Vec<ProfilePlaces<'s>>, PolicyFault>
    ensures placed { IfOk result (λ v. ArePlaces (words_data list.now.list.items) (map places_data v.items)) }
    // Words that are refused for another cause than memory are no policy.
    ensures refused { IsRefusal result → (vars : List Variable) (tree : List ProfileData) → IsPolicy (words_data list.now.list.items) vars tree → ⊥ }
{
    places_in(alloc, list.list.as_slice(), list.end)
}
