//! What rules on changes of profile say.

ghost use Rattle.std.specs.Prelude.{◌≡◌, ◌≢◌, ◌++◌, List, flat_map, map, option_map, Ok, IfOk, IfErr, OnOk};
ghost use Rattle.std.specs.List.{AllZip};
ghost use Rattle.aa_glob.specs.Variables.{Variable};
ghost use Rattle.aa_glob.specs.Reading.{spelled, tokens};
ghost use Rattle.aa_model.specs.declared.rule.ChangeRule.{ChangeRule};
ghost use Rattle.aa_policy.specs.Expansion.{AsName, IsRefused, IsFirstRefused};
ghost use Rattle.aa_policy.specs.Faults.{IsPathRefusal};
ghost use Rattle.aa_rules.specs.Reading.{name_data, change_data, rule_data};
ghost use Rattle.aa_policy.specs.Spelling.{Aims, MeansChange, on_change, changes_of, named_paths, change_paths};

use crate::refusal::refusal_at;
use aa_base::{PolicyFault, PolicyKind};
use aa_glob::read_pattern;
use aa_model::ChangeRule;
use aa_pattern::Pattern;
use aa_rules::{ChangeTree, NameTree, RuleTree};
use std::alloc::Global;

/// The pattern that a name is read as.
fn pattern_of(alloc: Global, name: &NameTree) -> Result<Pattern, PolicyFault>
    ensures read { IfOk result (λ p. tokens name.now.text.now ≡ Ok (spelled p.items.items)) }
    ensures refused { IfErr result (λ e. e.kind ≢ PolicyKind.NoMemory → (vars : List Variable) → IsRefused vars (record { at = name.now.at; text = name.now.text.now; way = AsName }) e) }
    ensures cause { IfErr result IsPathRefusal }
{
    match read_pattern(alloc, name.text) {
        Ok(pattern) => Ok(pattern),
        Err(kind) => Err(refusal_at(kind, name.at)),
    }
}

/// The pattern that the name behind an arrow is read as, if there is one.
fn aimed_pattern(alloc: Global, name: &Option<NameTree>) -> Result<Option<Pattern>, PolicyFault>
    ensures aims { IfOk result (λ p. Aims (option_map name_data name.now) p) }
    ensures refused { IfErr result (λ e. e.kind ≢ PolicyKind.NoMemory → (vars : List Variable) → IsFirstRefused vars (named_paths (option_map name_data name.now)) e) }
    ensures cause { IfErr result IsPathRefusal }
{
    match name {
        Some(name) => Ok(Some(pattern_of(alloc, name)?)),
        None => Ok(None),
    }
}

/// What a rule on changes of profile says.
fn change_rule(alloc: Global, change: &ChangeTree) -> Result<ChangeRule, PolicyFault>
    ensures rule { IfOk result (λ r. MeansChange (change_data change.now) r) }
    ensures refused { IfErr result (λ e. e.kind ≢ PolicyKind.NoMemory → (vars : List Variable) → IsFirstRefused vars (named_paths (option_map name_data change.now.name)) e) }
    ensures cause { IfErr result IsPathRefusal }
{
    Ok(ChangeRule {
        audit: change.qualifiers.audit,
        deny: change.qualifiers.deny,
        pattern: aimed_pattern(alloc, &change.name)?,
    })
}

/// Adds what a rule says to the rules on changes of profile before it, if it is one.
fn push_change_rule(
    alloc: Global,
    rule: &RuleTree,
    found: &mut Vec<ChangeRule>,
) -> Result<(), PolicyFault>
    ensures rule { OnOk result ((rs : List ChangeRule) × (found.new.items ≡ found.old.items ++ rs) × AllZip MeansChange (on_change (rule_data rule.now)) rs) }
    ensures refused { IfErr result (λ e. e.kind ≢ PolicyKind.NoMemory → (vars : List Variable) → IsFirstRefused vars (change_paths (rule_data rule.now)) e) }
    ensures cause { IfErr result IsPathRefusal }
{
    match rule {
        RuleTree::Change(change) => {
            found.push(change_rule(alloc, change)?)?;
            Ok(())
        }
        RuleTree::File(_) | RuleTree::Cap(_) | RuleTree::Net(_) | RuleTree::PassedOver(_) => Ok(()),
    }
}

/// What the rules on changes of profile of a body say, in their order.
pub fn change_rules(alloc: Global, rules: &[RuleTree]) -> Result<Vec<ChangeRule>, PolicyFault>
    ensures rules { IfOk result (λ rs. AllZip MeansChange (changes_of (map rule_data rules.now)) rs.items) }
    ensures refused { IfErr result (λ e. e.kind ≢ PolicyKind.NoMemory → (vars : List Variable) → IsFirstRefused vars (flat_map change_paths (map rule_data rules.now)) e) }
    ensures cause { IfErr result IsPathRefusal }
{
    let mut found = Vec::new(alloc);
    for rule in rules {
        push_change_rule(alloc, rule, &mut found)?;
    }
    Ok(found)
}
