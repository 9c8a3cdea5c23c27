//! How programs are executed, with numbers for names.

ghost use Rattle.std.specs.Prelude.{◌≡◌, position, IfOk, OnOk};
ghost use Rattle.std.specs.Option.{option_map};
ghost use Rattle.aa_base.specs.FirstNumbers.{AddsName};
ghost use Rattle.aa_compile.specs.Namings.{AreFirstNamings, AddsRule};
ghost use Rattle.aa_compile.specs.Ways.{names, numbered, way_by};

use crate::mark::Way;
use aa_model::{Exec, FileRule};
use std::alloc::{AllocError, Global};
use std::collections::HashMap;

fn add_name(
    alloc: Global,
    firsts: &mut HashMap<Vec<u8>, usize>,
    name: &[u8],
    number: usize,
) -> Result<(), AllocError>
    ensures { OnOk result (AddsName firsts.old name.now number firsts.new) }
{
    if firsts.contains_key(name) {
        return Ok(());
    }
    firsts.insert(Vec::from_slice(alloc, name)?, number)?;
    Ok(())
}

/// Adds the name behind the rule's arrow, unless a rule before it has it.
fn add_rule(
    alloc: Global,
    firsts: &mut HashMap<Vec<u8>, usize>,
    rule: &FileRule,
    number: usize,
) -> Result<(), AllocError>
    ensures { OnOk result (AddsRule firsts.old rule.now number firsts.new) }
{
    let Some(exec) = &rule.exec else {
        return Ok(());
    };
    match &exec.target {
        Some(target) => add_name(alloc, firsts, target.as_slice(), number),
        None => Ok(()),
    }
}

/// The number of the first rule that names each profile behind its arrow, by the profile's name.
fn first_namings(alloc: Global, rules: &[FileRule]) -> Result<HashMap<Vec<u8>, usize>, AllocError>
    ensures { IfOk result (λ m. AreFirstNamings m rules.now) }
{
    let mut firsts = HashMap::new(alloc);
    for (number, rule) in rules.iter().enumerate() {
        add_rule(alloc, &mut firsts, rule, number)?;
    }
    Ok(firsts)
}

fn first_naming(firsts: &HashMap<Vec<u8>, usize>, rules: &[FileRule], name: &[u8]) -> Option<usize>
    requires { AreFirstNamings firsts.now rules.now }
    ensures { result ≡ position (names name.now) rules.now }
{
    let _rules = rules;
    firsts.get(name).copied()
}

fn way_of(firsts: &HashMap<Vec<u8>, usize>, rules: &[FileRule], exec: &Exec) -> Way
    requires { AreFirstNamings firsts.now rules.now }
    ensures { result ≡ way_by rules.now exec.now }
{
    Way {
        kind: exec.kind,
        scrub: exec.scrub,
        fallback: exec.fallback,
        target: match &exec.target {
            Some(target) => first_naming(firsts, rules, target.as_slice()),
            None => None,
        },
    }
}

fn way_of_rule(firsts: &HashMap<Vec<u8>, usize>, rules: &[FileRule], rule: &FileRule) -> Option<Way>
    requires { AreFirstNamings firsts.now rules.now }
    ensures { result ≡ option_map (way_by rules.now) rule.now.exec }
{
    match &rule.exec {
        Some(exec) => Some(way_of(firsts, rules, exec)),
        None => None,
    }
}

/// For each rule, how it says that a program is executed.
pub(crate) fn ways_of(alloc: Global, rules: &[FileRule]) -> Result<Vec<Option<Way>>, AllocError>
    ensures { IfOk result (λ ways. ways.items ≡ numbered (way_by rules.now) rules.now) }
{
    let firsts = first_namings(alloc, rules)?;
    let mut ways = Vec::new(alloc);
    for rule in rules {
        ways.push(way_of_rule(&firsts, rules, rule))?;
    }
    Ok(ways)
}
