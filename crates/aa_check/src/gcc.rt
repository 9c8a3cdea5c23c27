//! How the findings of `check` are written as compilers write theirs: a line each.

ghost use Rattle.std.specs.Prelude.{◌≡◌, ◌++◌, flat_map, codes, OnOk};
ghost use Rattle.aa_text.specs.Visible.{all_visible};
ghost use Rattle.aa_text.specs.Faults.{where_if};
ghost use Rattle.aa_check.specs.Gcc.{gcc_fault, gcc_fault_if, warning_head, gcc_warning, gcc_warnings, gcc_file, gcc_report};

use crate::report::{CheckReport, FileReport};
use aa_text::{FaultReport, PlaceAt, push_text, push_visible, push_where};
use std::alloc::AllocError;

fn push_where_if(out: &mut Vec<u8>, path: &[u8], place: Option<PlaceAt>) -> Result<(), AllocError>
    ensures { OnOk result (out.new.items ≡ out.old.items ++ where_if path.now place) }
{
    match place {
        Some(place) => push_where(out, path, place),
        None => push_visible(out, path),
    }
}

#[tactic(auto, unfolding(crate::specs::Gcc::gcc_fault))]
fn push_fault(out: &mut Vec<u8>, fault: &FaultReport) -> Result<(), AllocError>
    ensures { OnOk result (out.new.items ≡ out.old.items ++ gcc_fault fault.now) }
{
    push_where_if(out, fault.path.as_slice(), fault.place)?;
    push_text(out, ": error: ")?;
    push_visible(out, fault.message.as_slice())?;
    push_text(out, "\n")
}

fn push_fault_if(out: &mut Vec<u8>, fault: &Option<FaultReport>) -> Result<(), AllocError>
    ensures { OnOk result (out.new.items ≡ out.old.items ++ gcc_fault_if fault.now) }
{
    match fault {
        Some(fault) => push_fault(out, fault),
        None => Ok(()),
    }
}

fn push_further(out: &mut Vec<u8>, faults: &[FaultReport]) -> Result<(), AllocError>
    ensures { OnOk result (out.new.items ≡ out.old.items ++ flat_map gcc_fault faults.now) }
{
    for fault in faults {
        push_fault(out, fault)?;
    }
    Ok(())
}

#[tactic(auto, unfolding(crate::specs::Gcc::warning_head))]
fn push_warning_head(out: &mut Vec<u8>) -> Result<(), AllocError>
    ensures { OnOk result (out.new.items ≡ out.old.items ++ warning_head) }
{
    push_text(out, "aapolicy: warning: ")
}

fn push_warning(out: &mut Vec<u8>, warning: &[u8]) -> Result<(), AllocError>
    ensures { OnOk result (out.new.items ≡ out.old.items ++ (warning_head ++ all_visible warning.now ++ codes "\n")) }
{
    push_warning_head(out)?;
    push_visible(out, warning)?;
    push_text(out, "\n")
}

fn push_each_warning(out: &mut Vec<u8>, warnings: &[Vec<u8>]) -> Result<(), AllocError>
    ensures { OnOk result (out.new.items ≡ out.old.items ++ flat_map gcc_warning warnings.now) }
{
    for warning in warnings {
        push_warning(out, warning.as_slice())?;
    }
    Ok(())
}

fn push_warnings(out: &mut Vec<u8>, is_quiet: bool, warnings: &[Vec<u8>]) -> Result<(), AllocError>
    ensures { OnOk result (out.new.items ≡ out.old.items ++ gcc_warnings is_quiet warnings.now) }
{
    if is_quiet {
        return Ok(());
    }
    push_each_warning(out, warnings)
}

fn push_file(out: &mut Vec<u8>, is_quiet: bool, file: &FileReport) -> Result<(), AllocError>
    ensures { OnOk result (out.new.items ≡ out.old.items ++ gcc_file is_quiet file.now) }
{
    push_fault_if(out, &file.fault)?;
    push_further(out, file.further.as_slice())?;
    push_warnings(out, is_quiet, file.warnings.as_slice())
}

fn push_files(out: &mut Vec<u8>, is_quiet: bool, files: &[FileReport]) -> Result<(), AllocError>
    ensures { OnOk result (out.new.items ≡ out.old.items ++ flat_map (gcc_file is_quiet) files.now) }
{
    for file in files {
        push_file(out, is_quiet, file)?;
    }
    Ok(())
}

/// Appends a line for each warning, unless quiet is wanted, and for each fault: `PATH:LINE:COLUMN: error: SENTENCE`.
pub fn push_gcc_report(
    out: &mut Vec<u8>,
    is_quiet: bool,
    report: &CheckReport,
) -> Result<(), AllocError>
    ensures { OnOk result (out.new.items ≡ out.old.items ++ gcc_report is_quiet report.now) }
{
    push_warnings(out, is_quiet, report.warnings.as_slice())?;
    push_files(out, is_quiet, report.files.as_slice())
}
