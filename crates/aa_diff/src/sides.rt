//! Which side is refused.

ghost use Rattle.std.specs.Prelude.{◌≡◌, ◌<◌, ◌≤◌, ◌++◌, OnOk, IfOk};
ghost use Rattle.aa_command.specs.Printed.{printed};
ghost use Rattle.aa_diff.specs.Sides.{behind, marked, refused_text, note_text, noted};

use aa_command::Output;
use aa_text::{NoMemory, push_number, push_text};
use std::alloc::{AllocError, Global};

/// What is added to the status of an output that a policy gave, until it is known that none was refused.
const MARK: u8 = 128;

/// Marks an output as one that a policy gave.
pub(crate) fn mark(mut output: Output) -> Output
    requires { output.status < 128 }
    ensures { printed result ≡ marked (printed output) }
{
    output.status += MARK;
    output
}

/// Appends that a side can't be compared, and why.
fn push_refused(out: &mut Vec<u8>, side: &str, faults: &[u8]) -> Result<(), AllocError>
    ensures { OnOk result (out.new.items ≡ out.old.items ++ refused_text side.now faults.now) }
{
    push_text(out, "error: ")?;
    push_text(out, side)?;
    push_text(out, " can't be compared:\n")?;
    out.extend_from_slice(faults)
}

/// Appends how many files a side skips, where it skips some.
fn push_note(out: &mut Vec<u8>, side: &str, count: usize) -> Result<(), AllocError>
    ensures { OnOk result (out.new.items ≡ out.old.items ++ note_text side.now count) }
{
    if count == 0 {
        return Ok(());
    }
    push_text(out, "warning: ")?;
    push_text(out, side)?;
    push_text(out, " skips ")?;
    push_number(out, count)?;
    push_text(out, " files\n")
}

/// What is printed, behind how many files a side skips.
pub(crate) fn note(alloc: Global, side: &str, count: usize, own: Output) -> Result<Output, NoMemory>
    ensures { IfOk result (λ out. printed out ≡ noted side.now count (printed own)) }
{
    let mut noted = own;
    let mut faults = Vec::new(alloc);
    push_note(&mut faults, side, count)?;
    faults.extend_from_slice(noted.faults.as_slice())?;
    noted.faults = faults;
    Ok(noted)
}

fn told_of(alloc: Global, side: &str, output: Output) -> Result<Output, NoMemory>
    ensures { IfOk result (λ out. printed out ≡ behind side.now (printed output)) }
{
    let mut told = output;
    let mut faults = Vec::new(alloc);
    push_refused(&mut faults, side, told.faults.as_slice())?;
    told.faults = faults;
    Ok(told)
}

fn unmarked(output: Output) -> Output
    requires { 128 ≤ output.status }
    ensures { printed output ≡ marked (printed result) }
{
    let mut output = output;
    output.status -= MARK;
    output
}

/// What the policy of a side gave, or that the side is refused and why.
pub(crate) fn of_side(alloc: Global, side: &str, output: Output) -> Result<Output, NoMemory>
    ensures given { IfOk result (λ out. 128 ≤ output.status → printed output ≡ marked (printed out)) }
    ensures refused { IfOk result (λ out. output.status < 128 → printed out ≡ behind side.now (printed output)) }
{
    if output.status >= MARK {
        return Ok(unmarked(output));
    }
    told_of(alloc, side, output)
}
