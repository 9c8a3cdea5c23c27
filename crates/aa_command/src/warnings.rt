//! What is warned of before anything else is printed.

ghost use Rattle.std.specs.Prelude.{◌≡◌, ◌++◌, flat_map, OnOk, IfOk};
ghost use Rattle.aa_files.specs.Texts.{texts};
ghost use Rattle.aa_command.specs.Printed.{printed};
ghost use Rattle.aa_command.specs.Policies.{warning_line, behind_warnings};

use crate::output::Output;
use aa_text::{push_text, push_visible};
use std::alloc::{AllocError, Global};

fn push_warning(out: &mut Vec<u8>, warning: &[u8]) -> Result<(), AllocError>
    ensures { OnOk result (out.new.items ≡ out.old.items ++ warning_line warning.now) }
{
    push_text(out, "warning: ")?;
    push_visible(out, warning)?;
    push_text(out, "\n")
}

fn push_warnings(out: &mut Vec<u8>, warnings: &[Vec<u8>]) -> Result<(), AllocError>
    ensures { OnOk result (out.new.items ≡ out.old.items ++ flat_map warning_line (texts warnings.now)) }
{
    for warning in warnings {
        push_warning(out, warning.as_slice())?;
    }
    Ok(())
}

/// What is printed, behind warnings.
pub fn behind_warnings(
    alloc: Global,
    warnings: &[Vec<u8>],
    own: Output,
) -> Result<Output, AllocError>
    ensures { IfOk result (λ out. printed out ≡ behind_warnings (texts warnings.now) (printed own)) }
{
    let mut faults = Vec::new(alloc);
    push_warnings(&mut faults, warnings)?;
    faults.extend_from_slice(own.faults.as_slice())?;
    Ok(Output {
        answers: own.answers,
        faults,
        refusal: own.refusal,
        status: own.status,
    })
}
