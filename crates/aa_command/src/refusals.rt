//! What is printed where nothing is answered.

ghost use Rattle.std.specs.Prelude.{◌≡◌, ◌≢◌, IfOk, if◌then◌else◌};
ghost use Rattle.aa_files.specs.Texts.{slices};
ghost use Rattle.aa_command.specs.Printed.{printed, faults_alone, fault_alone};
ghost use Rattle.aa_command.specs.Refusals.{SaysUnitFault, SaysPolicyFault, SaysUnread};

use crate::output::Output;
use crate::settings::Settings;
use aa_base::{PolicyFault, PolicyKind, Unread};
use aa_diagnostics::{describe, fault_of_unit, unreadable};
use aa_files::{Unit, UnitFault};
use aa_text::{FaultReport, NoMemory, ToJson, push_fault, push_text};
use std::alloc::Global;

/// Says why, with a status of its own.
pub fn refused(alloc: Global, line: &str, status: u8) -> Result<Output, NoMemory>
    ensures { IfOk result (λ out. printed out ≡ faults_alone line.now status) }
{
    let mut output = Output::new(alloc);
    push_text(&mut output.faults, line)?;
    output.status = status;
    Ok(output)
}

/// Says a fault, with a status of its own.
pub fn fault_refused(alloc: Global, fault: &FaultReport, status: u8) -> Result<Output, NoMemory>
    ensures { IfOk result (λ out. printed out ≡ fault_alone fault.now status) }
{
    let mut output = Output::new(alloc);
    push_fault(&mut output.faults, fault)?;
    fault.push_json(&mut output.refusal, alloc)?;
    output.status = status;
    Ok(output)
}

/// The status of a file that is refused, by whether it can't be read.
fn status_of(is_unread: bool) -> u8
    ensures { result ≡ (if is_unread then 3 else 1) }
{
    if is_unread { 3 } else { 1 }
}

/// Says why files can't be read.
pub fn unit_refused(alloc: Global, fault: UnitFault) -> Result<Output, NoMemory>
    ensures { IfOk result (λ out. SaysUnitFault fault (printed out)) }
{
    let (fault, is_unread) = fault_of_unit(alloc, fault)?;
    fault_refused(alloc, &fault, status_of(is_unread))
}

/// Says why a unit has no policy.
pub fn policy_refused(
    alloc: Global,
    settings: &Settings<'_>,
    unit: &Unit,
    fault: PolicyFault,
) -> Result<Output, NoMemory>
    ensures says { IfOk result (λ out. SaysPolicyFault (slices settings.now.folders.now) settings.now.states unit.now fault (printed out)) }
    ensures other { IfOk result (λ _. fault.kind ≢ PolicyKind.NoMemory) }
{
    if fault.kind == PolicyKind::NoMemory {
        return Err(NoMemory);
    }
    let report = describe(alloc, settings.folders, settings.states, unit, fault)?;
    fault_refused(alloc, &report, 1)
}

/// Says why what lies at a path can't be read.
pub fn path_refused(alloc: Global, path: &[u8], why: Unread) -> Result<Output, NoMemory>
    ensures says { IfOk result (λ out. SaysUnread path.now why (printed out)) }
    ensures other { IfOk result (λ _. why ≢ Unread.NoMemory) }
{
    if why == Unread::NoMemory {
        return Err(NoMemory);
    }
    fault_refused(alloc, &unreadable(alloc, path, why)?, 3)
}

/// Says a line in place of answers, and ends with status 1.
pub fn unanswered(alloc: Global, line: Vec<u8>) -> Output
    ensures { printed result ≡ faults_alone line.items 1 }
{
    let mut output = Output::new(alloc);
    output.faults = line;
    output.status = 1;
    output
}
