//! The faults of a unit behind its first.

ghost use Rattle.std.specs.Prelude.{◌≡◌, ◌≢◌, ◌≤◌, ◌++◌, ℕ, List, None, Some, length, IfOk, OnOk};
ghost use Rattle.aa_files.specs.Texts.{slices};
ghost use Rattle.aa_text.specs.declared.fault.FaultReport.{FaultReport};
ghost use Rattle.aa_diagnostics.specs.Reports.{IsDescribed};
ghost use Rattle.aa_faults.specs.Further.{IsRuleAtFault, IsFirstFault, IsMended, AreFurther};

use crate::blanking::blank;
use crate::extent::{Extent, extent_at, is_want_of_memory};
use aa_base::PolicyFault;
use aa_diagnostics::{describe, has_place};
use aa_files::Unit;
use aa_load::compile_unit;
use aa_text::{FaultReport, NoMemory};
use std::alloc::{AllocError, Global};

/// The bytes of the rule or assignment at fault; none where the fault is of something else.
fn rule_at_fault(
    alloc: Global,
    unit: &Unit,
    fault: PolicyFault,
) -> Result<Option<Extent>, AllocError>
    ensures { IfOk result (λ extent. IsRuleAtFault unit.now fault extent) }
{
    if !has_place(unit, fault) {
        return Ok(None);
    }
    extent_at(alloc, unit, fault.at)
}

/// The next fault of a unit, in which the rule or assignment of a fault becomes white space; none where it has no such, or none is left.
fn next_fault(
    alloc: Global,
    states: u32,
    unit: &mut Unit,
    fault: PolicyFault,
) -> Result<Option<PolicyFault>, NoMemory>
    ensures { IfOk result (λ next. IsMended states unit.old fault next unit.new) }
{
    match rule_at_fault(alloc, unit, fault)? {
        Some(extent) => {
            blank(unit, extent);
            fault_of(alloc, unit, states)
        }
        None => Ok(None),
    }
}

/// The fault of a unit, if it has one.
fn fault_of(alloc: Global, unit: &Unit, states: u32) -> Result<Option<PolicyFault>, NoMemory>
    ensures { IfOk result (λ fault. IsFirstFault states unit.now fault) }
{
    match compile_unit(alloc, unit, states) {
        Ok(_) => Ok(None),
        Err(fault) => {
            if is_want_of_memory(fault) {
                return Err(NoMemory);
            }
            Ok(Some(fault))
        }
    }
}

/// What is told of the faults of a unit behind that one: each is the first of the unit in which the rules and assignments at fault before it are
/// white space. No more are told where the fault is none of a rule or an assignment, and not more than so many.
pub fn further_faults(
    alloc: Global,
    folders: &[&[u8]],
    states: u32,
    unit: Unit,
    fault: PolicyFault,
    most: usize,
) -> Result<Vec<FaultReport>, NoMemory>
    ensures { IfOk result (λ told. AreFurther (slices folders.now) states most unit fault told.items) }
{
    let mut unit = unit;
    let mut fault = fault;
    let mut told = Vec::new(alloc);
    'faults: while told.len() < most {
        match next_fault(alloc, states, &mut unit, fault)? {
            Some(next) => {
                told.push(describe(alloc, folders, states, &unit, next)?)?;
                fault = next;
            }
            None => return Ok(told),
        }
    }
    Ok(told)
}
