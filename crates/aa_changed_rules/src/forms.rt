//! What rules say, as numbers.

ghost use Rattle.std.specs.Prelude.{◌≡◌, ◌++◌, ◌∷◌, [], map, flat_map, OnOk, IfOk, if◌then◌else◌};
ghost use Rattle.aa_changed_rules.specs.Codes.{pattern_code};
ghost use Rattle.aa_changed_rules.specs.Forms.{lists, flag, kind_number, fallback_number, name_form, way_form, exec_form, ascending, counted, counted_all, patterns_form, file_form, cap_form, net_form, any_form, change_form};

use crate::codes::{code_of, push_number};
use aa_base::Text;
use aa_model::{CapRule, ChangeRule, Exec, ExecKind, Fallback, FileRule, NetRule};
use aa_pattern::Pattern;
use std::alloc::{AllocError, Global};
use std::collections::BTreeSet;

fn flag(is_so: bool) -> u64
    ensures { result ≡ flag is_so }
{
    if is_so { 1 } else { 0 }
}

fn kind_number(kind: ExecKind) -> u64
    ensures { result ≡ kind_number kind }
{
    match kind {
        ExecKind::Inherit => 0,
        ExecKind::Unconfined => 1,
        ExecKind::Profile => 2,
        ExecKind::Child => 3,
    }
}

fn fallback_number(fallback: Fallback) -> u64
    ensures { result ≡ fallback_number fallback }
{
    match fallback {
        Fallback::Refuse => 0,
        Fallback::Inherit => 1,
        Fallback::Unconfined => 2,
    }
}

fn push_bytes(out: &mut Vec<u64>, bytes: &[u8]) -> Result<(), AllocError>
    ensures { OnOk result (out.new.items ≡ out.old.items ++ bytes.now) }
{
    for byte in bytes {
        out.push(*byte as u64)?;
    }
    Ok(())
}

/// Adds the numbers of the profile that a rule names, if it names one.
fn push_name(out: &mut Vec<u64>, name: &Option<Text>) -> Result<(), AllocError>
    ensures { OnOk result (out.new.items ≡ out.old.items ++ name_form name.now) }
{
    let Some(name) = name else {
        return Ok(());
    };
    push_number(out, 1)?;
    push_bytes(out, name.as_slice())
}

/// Adds the numbers of how a program is executed.
fn push_way(out: &mut Vec<u64>, exec: &Exec) -> Result<(), AllocError>
    ensures { OnOk result (out.new.items ≡ out.old.items ++ way_form exec.now) }
{
    push_number(out, kind_number(exec.kind))?;
    push_number(out, fallback_number(exec.fallback))?;
    push_number(out, flag(exec.scrub))?;
    push_name(out, &exec.target)
}

/// Adds the numbers of how a program is executed, if the rule says it.
fn push_exec(out: &mut Vec<u64>, exec: &Option<Exec>) -> Result<(), AllocError>
    ensures { OnOk result (out.new.items ≡ out.old.items ++ exec_form exec.now) }
{
    match exec {
        Some(exec) => push_way(out, exec),
        None => Ok(()),
    }
}

/// The numbers of patterns, as a set.
fn codes_of(alloc: Global, patterns: &[Pattern]) -> Result<BTreeSet<Vec<u64>>, AllocError>
    ensures { IfOk result (λ codes. lists codes.keys ≡ ascending (map pattern_code patterns.now)) }
{
    let mut codes = BTreeSet::new(alloc);
    for pattern in patterns {
        codes.insert(code_of(alloc, pattern)?)?;
    }
    Ok(codes)
}

/// Adds numbers behind how many they are.
fn push_counted(out: &mut Vec<u64>, numbers: &[u64]) -> Result<(), AllocError>
    ensures { OnOk result (out.new.items ≡ out.old.items ++ counted numbers.now) }
{
    push_number(out, numbers.len() as u64)?;
    out.extend_from_slice(numbers)
}

fn push_each(out: &mut Vec<u64>, codes: &BTreeSet<Vec<u64>>) -> Result<(), AllocError>
    ensures { OnOk result (out.new.items ≡ out.old.items ++ flat_map counted (lists codes.now.keys)) }
{
    for code in codes.iter() {
        push_counted(out, code.as_slice())?;
    }
    Ok(())
}

/// Adds the numbers of patterns, in an order of their own and each once.
fn push_patterns(out: &mut Vec<u64>, alloc: Global, patterns: &[Pattern]) -> Result<(), AllocError>
    ensures { OnOk result (out.new.items ≡ out.old.items ++ patterns_form patterns.now) }
{
    let codes = codes_of(alloc, patterns)?;
    push_number(out, codes.len() as u64)?;
    push_each(out, &codes)
}

/// What a rule on files says.
pub(crate) fn file_form(alloc: Global, rule: &FileRule) -> Result<Vec<u64>, AllocError>
    ensures { IfOk result (λ form. form.items ≡ file_form rule.now) }
{
    let mut form = Vec::new(alloc);
    push_number(&mut form, flag(rule.audit))?;
    push_number(&mut form, flag(rule.deny))?;
    push_number(&mut form, flag(rule.owner))?;
    push_number(&mut form, rule.perms.0 as u64)?;
    push_patterns(&mut form, alloc, rule.patterns.as_slice())?;
    push_exec(&mut form, &rule.exec)?;
    Ok(form)
}

/// What a rule on capabilities says.
pub(crate) fn cap_form(alloc: Global, rule: &CapRule) -> Result<Vec<u64>, AllocError>
    ensures { IfOk result (λ form. form.items ≡ cap_form rule.now) }
{
    let mut form = Vec::new(alloc);
    push_number(&mut form, flag(rule.audit))?;
    push_number(&mut form, flag(rule.deny))?;
    push_number(&mut form, rule.caps.0)?;
    Ok(form)
}

/// What a rule on sockets says.
pub(crate) fn net_form(alloc: Global, rule: &NetRule) -> Result<Vec<u64>, AllocError>
    ensures { IfOk result (λ form. form.items ≡ net_form rule.now) }
{
    let mut form = Vec::new(alloc);
    push_number(&mut form, flag(rule.audit))?;
    push_number(&mut form, flag(rule.deny))?;
    push_number(&mut form, rule.families)?;
    push_number(&mut form, rule.kinds as u64)?;
    Ok(form)
}

/// Adds the numbers of a pattern, if there is one.
fn push_any(out: &mut Vec<u64>, alloc: Global, pattern: &Option<Pattern>) -> Result<(), AllocError>
    ensures { OnOk result (out.new.items ≡ out.old.items ++ any_form pattern.now) }
{
    let Some(pattern) = pattern else {
        return Ok(());
    };
    let code = code_of(alloc, pattern)?;
    push_counted(out, code.as_slice())
}

/// What a rule on changes of profile says.
pub(crate) fn change_form(alloc: Global, rule: &ChangeRule) -> Result<Vec<u64>, AllocError>
    ensures { IfOk result (λ form. form.items ≡ change_form rule.now) }
{
    let mut form = Vec::new(alloc);
    push_number(&mut form, flag(rule.audit))?;
    push_number(&mut form, flag(rule.deny))?;
    push_any(&mut form, alloc, &rule.pattern)?;
    Ok(form)
}
