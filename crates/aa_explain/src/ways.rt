//! The patterns of the rules that say how a program is executed.

ghost use Rattle.std.specs.Prelude.{◌≡◌, ◌++◌, [], map, length, IfOk, OnOk, if◌then◌else◌};
ghost use Rattle.aa_auto.specs.Nodes.{pointed};
ghost use Rattle.aa_compile.specs.FileRules.{says_how};
ghost use Rattle.aa_explain.specs.Clashes.{executing, AreOwners};

use aa_compile::says_how;
use aa_model::FileRule;
use aa_pattern::Pattern;
use std::alloc::{AllocError, Global};

/// The patterns, and beside each the number of its rule.
#[derive(Drop)]
pub(crate) struct Ways<'a> {
    pub(crate) patterns: Vec<&'a Pattern>,
    pub(crate) owners: Vec<usize>,
}

fn add_patterns<'a>(
    ways: &mut Ways<'a>,
    patterns: &'a [Pattern],
    number: usize,
) -> Result<(), AllocError>
    ensures patterns { OnOk result (pointed ways.new.patterns.items ≡ pointed ways.old.patterns.items ++ patterns.now) }
    ensures owners { OnOk result (ways.new.owners.items ≡ ways.old.owners.items ++ map (λ _. number) patterns.now) }
{
    for pattern in patterns {
        ways.patterns.push(pattern)?;
        ways.owners.push(number)?;
    }
    Ok(())
}

fn add_rule<'a>(ways: &mut Ways<'a>, rule: &'a FileRule, number: usize) -> Result<(), AllocError>
    ensures patterns { OnOk result (pointed ways.new.patterns.items ≡ pointed ways.old.patterns.items ++ (if says_how rule.now then rule.now.patterns else [])) }
    ensures owners { OnOk result (ways.new.owners.items ≡ ways.old.owners.items ++ (if says_how rule.now then map (λ _. number) rule.now.patterns else [])) }
{
    if says_how(rule) {
        return add_patterns(ways, rule.patterns.as_slice(), number);
    }
    Ok(())
}

pub(crate) fn ways_of(alloc: Global, rules: &[FileRule]) -> Result<Ways<'_>, AllocError>
    ensures patterns { IfOk result (λ w. pointed w.patterns.items ≡ executing rules.now) }
    ensures owners { IfOk result (λ w. AreOwners rules.now (length rules.now) (pointed w.patterns.items) w.owners.items) }
{
    let mut ways = Ways {
        patterns: Vec::new(alloc),
        owners: Vec::new(alloc),
    };
    for (number, rule) in rules.iter().enumerate() {
        add_rule(&mut ways, rule, number)?;
    }
    Ok(ways)
}
