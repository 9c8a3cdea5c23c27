//! Rules as lists of numbers, by which those that say the same are found.

ghost use Rattle.std.specs.Prelude.{◌≡◌, ◌++◌, OnOk, IfOk};
ghost use Rattle.std.specs.HashMap.{get_by};
ghost use Rattle.std.specs.Str.{bytes_eq};
ghost use Rattle.aa_base.specs.FirstNumbers.{AddsName};
ghost use Rattle.aa_findings.specs.Keys.{bit, name_key, exec_key, key_with};

use crate::sameness::{fallback_number, kind_number};
use aa_base::Text;
use aa_model::{Exec, FileRule};
use std::alloc::{AllocError, Global};
use std::collections::HashMap;

fn bit(flag: bool) -> usize
    ensures { result ≡ bit flag }
{
    if flag { 1 } else { 0 }
}

fn push_bytes(key: &mut Vec<usize>, bytes: &[u8]) -> Result<(), AllocError>
    ensures { OnOk result (key.new.items ≡ key.old.items ++ bytes.now) }
{
    for byte in bytes {
        key.push(*byte as usize)?;
    }
    Ok(())
}

fn push_name(key: &mut Vec<usize>, name: &Option<Text>) -> Result<(), AllocError>
    ensures { OnOk result (key.new.items ≡ key.old.items ++ name_key name.now) }
{
    let Some(name) = name else {
        key.push(0)?;
        return Ok(());
    };
    let bytes = name.as_slice();
    key.push(bytes.len() + 1)?;
    push_bytes(key, bytes)
}

fn push_way(key: &mut Vec<usize>, exec: &Exec) -> Result<(), AllocError>
    ensures { OnOk result (key.new.items ≡ key.old.items ++ exec_key (Some exec.now)) }
{
    key.push(1)?;
    key.push(kind_number(exec.kind) as usize)?;
    key.push(fallback_number(exec.fallback) as usize)?;
    key.push(bit(exec.scrub))?;
    push_name(key, &exec.target)
}

fn push_exec(key: &mut Vec<usize>, exec: &Option<Exec>) -> Result<(), AllocError>
    ensures { OnOk result (key.new.items ≡ key.old.items ++ exec_key exec.now) }
{
    match exec {
        Some(exec) => push_way(key, exec),
        None => {
            key.push(0)?;
            Ok(())
        }
    }
}

/// What a rule says, and the rows at which it applies.
fn key_of(alloc: Global, rule: &FileRule, applied: &[usize]) -> Result<Vec<usize>, AllocError>
    ensures { IfOk result (λ key. key.items ≡ key_with rule.now applied.now) }
{
    let mut key = Vec::new(alloc);
    key.push(bit(rule.audit))?;
    key.push(bit(rule.deny))?;
    key.push(rule.perms.0 as usize)?;
    push_exec(&mut key, &rule.exec)?;
    key.extend_from_slice(applied)?;
    Ok(key)
}

fn number_of(firsts: &HashMap<Vec<usize>, usize>, key: &[usize]) -> Option<usize>
    ensures { result ≡ get_by (λ k. bytes_eq key.now k.items) firsts.now }
{
    firsts.get(key).copied()
}

fn add_number(
    firsts: &mut HashMap<Vec<usize>, usize>,
    key: Vec<usize>,
    number: usize,
) -> Result<(), AllocError>
    requires { get_by (λ k. bytes_eq key.items k.items) firsts.old ≡ None }
    ensures { OnOk result (AddsName firsts.old key.items number firsts.new) }
{
    let _ = firsts.insert(key, number)?;
    Ok(())
}

/// The number of the earlier rule that says the same, where there is one; else the rule is the first that says so.
pub(crate) fn repeated(
    alloc: Global,
    firsts: &mut HashMap<Vec<usize>, usize>,
    rule: &FileRule,
    applied: &[usize],
    number: usize,
) -> Result<Option<usize>, AllocError>
    ensures found { IfOk result (λ earlier. earlier ≡ get_by (λ k. bytes_eq (key_with rule.now applied.now) k.items) firsts.old) }
    ensures added { OnOk result (AddsName firsts.old (key_with rule.now applied.now) number firsts.new) }
{
    let key = key_of(alloc, rule, applied)?;
    let earlier = number_of(firsts, key.as_slice());
    if earlier.is_some() {
        return Ok(earlier);
    }
    add_number(firsts, key, number)?;
    Ok(None)
}
