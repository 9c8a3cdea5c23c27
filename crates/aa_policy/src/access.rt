//! The rules of a profile on capabilities and on sockets.

ghost use Rattle.std.specs.Prelude.{◌≡◌, ◌++◌, OnOk, IfOk, map, flat_map};
ghost use Rattle.aa_rules.specs.Reading.{rule_data};
ghost use Rattle.aa_policy.specs.Spelling.{cap_rules_of, net_rules_of};

use aa_model::{CapRule, NetRule};
use aa_rules::RuleTree;
use std::alloc::{AllocError, Global};

/// Adds a rule to those before it, if it is on capabilities.
fn push_cap_rule(rule: &RuleTree, found: &mut Vec<CapRule>) -> Result<(), AllocError>
    ensures { OnOk result (found.new.items ≡ found.old.items ++ cap_rules_of (rule_data rule.now)) }
{
    match rule {
        RuleTree::Cap(cap) => {
            found.push(*cap)?;
            Ok(())
        }
        RuleTree::File(_) | RuleTree::Net(_) | RuleTree::Change(_) | RuleTree::PassedOver(_) => {
            Ok(())
        }
    }
}

/// The rules on capabilities, in their order.
pub fn cap_rules(alloc: Global, rules: &[RuleTree]) -> Result<Vec<CapRule>, AllocError>
    ensures { IfOk result (λ rs. rs.items ≡ flat_map cap_rules_of (map rule_data rules.now)) }
{
    let mut found = Vec::new(alloc);
    for rule in rules {
        push_cap_rule(rule, &mut found)?;
    }
    Ok(found)
}

/// Adds a rule to those before it, if it is on sockets.
fn push_net_rule(rule: &RuleTree, found: &mut Vec<NetRule>) -> Result<(), AllocError>
    ensures { OnOk result (found.new.items ≡ found.old.items ++ net_rules_of (rule_data rule.now)) }
{
    match rule {
        RuleTree::Net(net) => {
            found.push(*net)?;
            Ok(())
        }
        RuleTree::File(_) | RuleTree::Cap(_) | RuleTree::Change(_) | RuleTree::PassedOver(_) => {
            Ok(())
        }
    }
}

/// The rules on sockets, in their order.
pub fn net_rules(alloc: Global, rules: &[RuleTree]) -> Result<Vec<NetRule>, AllocError>
    ensures { IfOk result (λ rs. rs.items ≡ flat_map net_rules_of (map rule_data rules.now)) }
{
    let mut found = Vec::new(alloc);
    for rule in rules {
        push_net_rule(rule, &mut found)?;
    }
    Ok(found)
}
