//! The rules that are read and never decide.

ghost use Rattle.std.specs.Prelude.{◌≡◌, ◌≤◌, ◌++◌, OnOk, IfOk, length, map, flat_map};
ghost use Rattle.aa_policy.specs.Bodies.{tree_data};
ghost use Rattle.aa_rules.specs.Reading.{rule_data};
ghost use Rattle.aa_policy.specs.Spelling.{listed_at, passed_over_from};

use crate::tree::ProfileTree;
use aa_base::Text;
use aa_model::PassedOver;
use aa_rules::RuleTree;
use std::alloc::{AllocError, Global};

/// Adds a rule to those before it, if it is one that is passed over.
fn push_listed(
    alloc: Global,
    number: u16,
    rule: &RuleTree,
    found: &mut Vec<PassedOver>,
) -> Result<(), AllocError>
    ensures { OnOk result (found.new.items ≡ found.old.items ++ listed_at number (rule_data rule.now)) }
{
    match rule {
        RuleTree::File(_) | RuleTree::Cap(_) | RuleTree::Net(_) | RuleTree::Change(_) => Ok(()),
        RuleTree::PassedOver(keyword) => {
            let kind = Text::copy_of(alloc, keyword)?;
            found.push(PassedOver {
                profile: number,
                kind,
            })?;
            Ok(())
        }
    }
}

/// Adds the rules of a profile that are passed over.
fn push_all_listed(
    alloc: Global,
    number: u16,
    rules: &[RuleTree],
    found: &mut Vec<PassedOver>,
) -> Result<(), AllocError>
    ensures { OnOk result (found.new.items ≡ found.old.items ++ flat_map (listed_at number) (map rule_data rules.now)) }
{
    for rule in rules {
        push_listed(alloc, number, rule, found)?;
    }
    Ok(())
}

/// The rules that are passed over, each under the number of its profile.
pub fn rules_passed_over(alloc: Global, tree: &[ProfileTree]) -> Result<Vec<PassedOver>, AllocError>
    requires few { length tree.now ≤ 65536 }
    ensures { IfOk result (λ v. v.items ≡ passed_over_from 0 (tree_data tree.now)) }
{
    let mut found = Vec::new(alloc);
    for (number, profile) in tree.iter().enumerate() {
        push_all_listed(alloc, number as u16, profile.rules.as_slice(), &mut found)?;
    }
    Ok(found)
}
