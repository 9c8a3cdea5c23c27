//! Bodies of profiles, and the profiles themselves (apparmor.d(5), "Profiles").

ghost use Rattle.std.specs.Prelude.{◌≡◌, ◌<◌, ◌≤◌, ◌+◌, ◌++◌, true, List, Option, map, flat_map, length, option_map, OnOk, OnErr, IfOk, IfErr};
ghost use Rattle.aa_base.specs.Kinds.{IsRefusal};
ghost use Rattle.aa_words.specs.Splits.{WordData};
ghost use Rattle.aa_rules.specs.Faults.{is_word_fault, IsWordRefusal, IsPlaceIn, IsPlaced};
ghost use Rattle.aa_rules.specs.Grammar.{Closes, Many};
ghost use Rattle.aa_policy.specs.Bodies.{ChildData, FamilyData, PartData, IsStatement, IsChild, IsBodyPart, IsProfile, if_any, rules_in, children_in, child_data, family_data, part_data};
ghost use Rattle.aa_rules.specs.Reading.{RuleData, rest_of, rule_data};

use crate::heads::{begins_profile, head_of};
use crate::preamble::abi_of;
use crate::tree::{ChildTree, FamilyTree};
use aa_base::{PolicyFault, PolicyKind, Spot};
use aa_rules::{RuleTree, closes, fault, keyword_stands, rule_of};
use aa_words::Word;
use std::alloc::{AllocError, Global};

/// A statement, which has a rule unless it is an abi rule, and the place behind it.
fn statement_of<'s>(
    words: &[Word<'s>],
    at: usize,
    end: Spot,
) -> Result<(Option<RuleTree<'s>>, usize), PolicyFault>
    ensures found { IfOk result (λ r. IsStatement (rest_of words.now at) (option_map rule_data r.0) (rest_of words.now r.1)) }
    ensures refused { OnErr result ((s : Option RuleData) (rest : List WordData) → IsStatement (rest_of words.now at) s rest → ⊥) }
    ensures cause { IfErr result (λ e. is_word_fault e.kind ≡ true) }
    ensures place { IfErr result (λ e. IsPlaceIn words.now end e.at) }
    ensures within { IfOk result (λ r. (at < r.1) × (r.1 ≤ length words.now)) }
{
    if keyword_stands(words, at, "abi".as_bytes()) {
        let next = abi_of(words, at, end)?;
        return Ok((None, next));
    }
    let (rule, next) = rule_of(words, at, end)?;
    Ok((Some(rule), next))
}

/// A statement of a child's body, which holds no profiles, and the place behind it.
fn child_statement_of<'s>(
    words: &[Word<'s>],
    at: usize,
    end: Spot,
) -> Result<(Option<RuleTree<'s>>, usize), PolicyFault>
    ensures found { IfOk result (λ r. IsStatement (rest_of words.now at) (option_map rule_data r.0) (rest_of words.now r.1)) }
    ensures refused { OnErr result ((s : Option RuleData) (rest : List WordData) → IsStatement (rest_of words.now at) s rest → ⊥) }
    ensures cause { IfErr result (λ e. is_word_fault e.kind ≡ true) }
    ensures place { IfErr result (λ e. IsPlaceIn words.now end e.at) }
    ensures within { IfOk result (λ r. (at < r.1) × (r.1 ≤ length words.now)) }
{
    if begins_profile(words, at) {
        return Err(fault(PolicyKind::Unsupported, words, at, end));
    }
    statement_of(words, at, end)
}

/// Adds a statement's rule to those before it, if it has one.
fn push_statement<'s>(
    rules: &mut Vec<RuleTree<'s>>,
    statement: Option<RuleTree<'s>>,
) -> Result<(), AllocError>
    ensures { OnOk result (map rule_data rules.new.items ≡ map rule_data rules.old.items ++ if_any (option_map rule_data statement.entry)) }
{
    match statement {
        Some(rule) => {
            rules.push(rule)?;
            Ok(())
        }
        None => Ok(()),
    }
}

/// The rules of a child's body up to its closing brace, and the place behind it.
fn child_body_of<'s>(
    alloc: Global,
    words: &[Word<'s>],
    start: usize,
    end: Spot,
) -> Result<(Vec<RuleTree<'s>>, usize), PolicyFault>
    ensures found { IfOk result (λ r. (ss : List (Option RuleData)) × Many IsStatement Closes (rest_of words.now start) ss (rest_of words.now r.1) × (map rule_data r.0.items ≡ flat_map if_any ss)) }
    ensures refused { IsRefusal result → (ss : List (Option RuleData)) (rest : List WordData) → Many IsStatement Closes (rest_of words.now start) ss rest → ⊥ }
    ensures cause { IfErr result (λ e. IsWordRefusal e) }
    ensures place { IfErr result (IsPlaced words.now end) }
    ensures within { IfOk result (λ r. (start < r.1) × (r.1 ≤ length words.now)) }
{
    let mut rules = Vec::new(alloc);
    let mut at = start;
    'statements: while !closes(words, at) {
        let (statement, next) = child_statement_of(words, at, end)?;
        push_statement(&mut rules, statement)?;
        at = next;
    }
    Ok((rules, at + 1))
}

/// A child profile, and the place behind its closing brace.
fn child_of<'s>(
    alloc: Global,
    words: &[Word<'s>],
    at: usize,
    end: Spot,
) -> Result<(ChildTree<'s>, usize), PolicyFault>
    ensures found { IfOk result (λ r. IsChild (rest_of words.now at) (child_data r.0) (rest_of words.now r.1)) }
    ensures refused { IsRefusal result → (c : ChildData) (rest : List WordData) → IsChild (rest_of words.now at) c rest → ⊥ }
    ensures cause { IfErr result (λ e. IsWordRefusal e) }
    ensures place { IfErr result (IsPlaced words.now end) }
    ensures within { IfOk result (λ r. (at < r.1) × (r.1 ≤ length words.now)) }
{
    let (head, body) = head_of(words, at, false, end)?;
    let (rules, next) = child_body_of(alloc, words, body, end)?;
    Ok((ChildTree { head, rules }, next))
}

/// What a top-level profile's body holds.
#[derive(Drop)]
enum PartTree<'s> {
    /// A statement, which has a rule unless it is an abi rule.
    States(Option<RuleTree<'s>>),
    /// A child profile.
    Holds(ChildTree<'s>),
}

/// An part of a top-level profile's body, and the place behind it.
fn body_part_of<'s>(
    alloc: Global,
    words: &[Word<'s>],
    at: usize,
    end: Spot,
) -> Result<(PartTree<'s>, usize), PolicyFault>
    ensures found { IfOk result (λ r. IsBodyPart (rest_of words.now at) (part_data r.0) (rest_of words.now r.1)) }
    ensures refused { IsRefusal result → (e : PartData) (rest : List WordData) → IsBodyPart (rest_of words.now at) e rest → ⊥ }
    ensures cause { IfErr result (λ e. IsWordRefusal e) }
    ensures place { IfErr result (IsPlaced words.now end) }
    ensures within { IfOk result (λ r. (at < r.1) × (r.1 ≤ length words.now)) }
{
    if begins_profile(words, at) {
        let (child, next) = child_of(alloc, words, at, end)?;
        return Ok((PartTree::Holds(child), next));
    }
    let (statement, next) = statement_of(words, at, end)?;
    Ok((PartTree::States(statement), next))
}

/// What has been read of a top-level profile's body.
#[derive(Drop)]
struct Body<'s> {
    rules: Vec<RuleTree<'s>>,
    children: Vec<ChildTree<'s>>,
}

/// Adds an part to those before it.
fn push_part<'s>(body: &mut Body<'s>, part: PartTree<'s>) -> Result<(), AllocError>
    ensures rules { OnOk result (map rule_data body.new.rules.items ≡ map rule_data body.old.rules.items ++ rules_in (part_data part.entry)) }
    ensures children { OnOk result (map child_data body.new.children.items ≡ map child_data body.old.children.items ++ children_in (part_data part.entry)) }
{
    match part {
        PartTree::States(statement) => push_statement(&mut body.rules, statement),
        PartTree::Holds(child) => {
            body.children.push(child)?;
            Ok(())
        }
    }
}

/// The rules and children of a top-level profile up to its closing brace, and the place behind it.
fn body_of<'s>(
    alloc: Global,
    words: &[Word<'s>],
    start: usize,
    end: Spot,
) -> Result<(Body<'s>, usize), PolicyFault>
    ensures found { IfOk result (λ r. (es : List PartData) × Many IsBodyPart Closes (rest_of words.now start) es (rest_of words.now r.1)
        × (map rule_data r.0.rules.items ≡ flat_map rules_in es) × (map child_data r.0.children.items ≡ flat_map children_in es)) }
    ensures refused { IsRefusal result → (es : List PartData) (rest : List WordData) → Many IsBodyPart Closes (rest_of words.now start) es rest → ⊥ }
    ensures cause { IfErr result (λ e. IsWordRefusal e) }
    ensures place { IfErr result (IsPlaced words.now end) }
    ensures within { IfOk result (λ r. (start < r.1) × (r.1 ≤ length words.now)) }
{
    let mut body = Body {
        rules: Vec::new(alloc),
        children: Vec::new(alloc),
    };
    let mut at = start;
    'parts: while !closes(words, at) {
        let (part, next) = body_part_of(alloc, words, at, end)?;
        push_part(&mut body, part)?;
        at = next;
    }
    Ok((body, at + 1))
}

/// A top-level profile, and the place behind its closing brace.
pub fn profile_of<'s>(
    alloc: Global,
    words: &[Word<'s>],
    at: usize,
    end: Spot,
) -> Result<(FamilyTree<'s>, usize), PolicyFault>
    ensures found { IfOk result (λ r. IsProfile (rest_of words.now at) (family_data r.0) (rest_of words.now r.1)) }
    ensures refused { IsRefusal result → (p : FamilyData) (rest : List WordData) → IsProfile (rest_of words.now at) p rest → ⊥ }
    ensures cause { IfErr result (λ e. IsWordRefusal e) }
    ensures place { IfErr result (IsPlaced words.now end) }
    ensures within { IfOk result (λ r. (at < r.1) × (r.1 ≤ length words.now)) }
{
    let (head, start) = head_of(words, at, true, end)?;
    let (body, next) = body_of(alloc, words, start, end)?;
    let Body { rules, children } = body;
    let profile = FamilyTree {
        head,
        rules,
        children,
    };
    Ok((profile, next))
}
