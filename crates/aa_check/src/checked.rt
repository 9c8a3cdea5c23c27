//! How the findings of `check` are printed.

ghost use Rattle.std.specs.Prelude.{◌≡◌, ◌++◌, map, flat_map, codes, is_some, OnOk, if◌then◌else◌};
ghost use Rattle.aa_text.specs.Visible.{all_visible};
ghost use Rattle.aa_text.specs.Faults.{fault_text};
ghost use Rattle.aa_check.specs.Counts.{told};
ghost use Rattle.aa_check.specs.Printed.{count_text, told_text, profile_line, passed_text, passed_line, file_line, file_text, last_line, untold_text, held_text, held_line, report_text, warning_line, warning_lines, fault_if, file_faults, faults_text};

use crate::report::{CheckReport, Count, FileReport, Passed, ProfileReport};
use aa_text::{FaultReport, push_fault, push_name, push_number, push_text, push_visible};
use std::alloc::{AllocError, Global};

#[tactic(auto, unfolding(crate::specs::Printed::count_text))]
fn push_count(out: &mut Vec<u8>, count: usize, what: &str) -> Result<(), AllocError>
    ensures { OnOk result (out.new.items ≡ out.old.items ++ count_text count what.now) }
{
    push_text(out, " ")?;
    push_number(out, count)?;
    push_text(out, what)
}

fn push_counts(out: &mut Vec<u8>, counts: &[Count]) -> Result<(), AllocError>
    ensures { OnOk result (out.new.items ≡ out.old.items ++ flat_map told_text (map told counts.now)) }
{
    for count in counts {
        push_count(out, count.number, count.words)?;
    }
    Ok(())
}

/// Appends the line of a profile.
#[tactic(auto, unfolding(crate::specs::Printed::profile_line))]
fn push_profile(out: &mut Vec<u8>, alloc: Global, profile: &ProfileReport) -> Result<(), AllocError>
    ensures { OnOk result (out.new.items ≡ out.old.items ++ profile_line profile.now) }
{
    push_text(out, "  profile ")?;
    push_name(out, alloc, profile.name.as_slice())?;
    push_counts(out, &profile.counts())?;
    push_text(out, "\n")
}

fn push_profiles(
    out: &mut Vec<u8>,
    alloc: Global,
    profiles: &[ProfileReport],
) -> Result<(), AllocError>
    ensures { OnOk result (out.new.items ≡ out.old.items ++ flat_map profile_line profiles.now) }
{
    for profile in profiles {
        push_profile(out, alloc, profile)?;
    }
    Ok(())
}

#[tactic(auto, unfolding(crate::specs::Printed::passed_text))]
fn push_keyword(out: &mut Vec<u8>, passed: &Passed) -> Result<(), AllocError>
    ensures { OnOk result (out.new.items ≡ out.old.items ++ passed_text passed.now) }
{
    push_text(out, " ")?;
    out.extend_from_slice(passed.keyword.as_slice())?;
    push_count(out, passed.count, "")
}

fn push_keywords(out: &mut Vec<u8>, passed_over: &[Passed]) -> Result<(), AllocError>
    ensures { OnOk result (out.new.items ≡ out.old.items ++ flat_map passed_text passed_over.now) }
{
    for passed in passed_over {
        push_keyword(out, passed)?;
    }
    Ok(())
}

/// Appends the line of the keywords whose rules are passed over, where there are any.
#[tactic(auto, unfolding(crate::specs::Printed::passed_line))]
fn push_passed(out: &mut Vec<u8>, passed_over: &[Passed]) -> Result<(), AllocError>
    ensures { OnOk result (out.new.items ≡ out.old.items ++ passed_line passed_over.now) }
{
    if passed_over.len() == 0 {
        return Ok(());
    }
    push_text(out, "  passed over")?;
    push_keywords(out, passed_over)?;
    push_text(out, "\n")
}

fn verdict_of(fault: &Option<FaultReport>) -> &'static str
    ensures { result.now ≡ (if is_some fault.now then codes "refused " else codes "ok ") }
{
    if fault.is_some() { "refused " } else { "ok " }
}

#[tactic(auto, unfolding(crate::specs::Printed::file_line))]
fn push_file_line(out: &mut Vec<u8>, file: &FileReport) -> Result<(), AllocError>
    ensures { OnOk result (out.new.items ≡ out.old.items ++ file_line file.now) }
{
    push_text(out, verdict_of(&file.fault))?;
    push_visible(out, file.path.as_slice())?;
    push_text(out, "\n")
}

fn push_file(out: &mut Vec<u8>, alloc: Global, file: &FileReport) -> Result<(), AllocError>
    ensures { OnOk result (out.new.items ≡ out.old.items ++ file_text file.now) }
{
    push_file_line(out, file)?;
    push_profiles(out, alloc, file.profiles.as_slice())?;
    push_passed(out, file.passed_over.as_slice())
}

fn push_files(out: &mut Vec<u8>, alloc: Global, files: &[FileReport]) -> Result<(), AllocError>
    ensures { OnOk result (out.new.items ≡ out.old.items ++ flat_map file_text files.now) }
{
    for file in files {
        push_file(out, alloc, file)?;
    }
    Ok(())
}

#[tactic(auto, unfolding(crate::specs::Printed::last_line))]
fn push_last_line(out: &mut Vec<u8>, report: &CheckReport) -> Result<(), AllocError>
    ensures { OnOk result (out.new.items ≡ out.old.items ++ last_line report.now) }
{
    push_number(out, report.files.len())?;
    push_text(out, " files")?;
    push_count(out, report.refused, " refused")?;
    push_count(out, report.profiles, " profiles\n")
}

fn push_untold(out: &mut Vec<u8>, count: usize) -> Result<(), AllocError>
    ensures { OnOk result (out.new.items ≡ out.old.items ++ untold_text count) }
{
    if count == 0 {
        return Ok(());
    }
    push_text(out, ", and any in ")?;
    push_number(out, count)?;
    push_text(out, " of them")
}

#[tactic(auto, unfolding(crate::specs::Printed::held_text))]
fn push_held(out: &mut Vec<u8>, held: usize, untold: usize) -> Result<(), AllocError>
    ensures { OnOk result (out.new.items ≡ out.old.items ++ held_text held untold) }
{
    push_text(out, "refused files seem to hold ")?;
    push_number(out, held)?;
    push_text(out, " profiles")?;
    push_untold(out, untold)?;
    push_text(out, "\n")
}

/// Appends how many profiles files that are refused seem to hold, where there are such.
fn push_held_line(out: &mut Vec<u8>, report: &CheckReport) -> Result<(), AllocError>
    ensures { OnOk result (out.new.items ≡ out.old.items ++ held_line report.now) }
{
    if report.refused == 0 {
        return Ok(());
    }
    push_held(out, report.held, report.untold)
}

/// Appends what is found of each file, and the counts of all.
pub fn push_report(out: &mut Vec<u8>, alloc: Global, report: &CheckReport) -> Result<(), AllocError>
    ensures { OnOk result (out.new.items ≡ out.old.items ++ report_text report.now) }
{
    push_files(out, alloc, report.files.as_slice())?;
    push_last_line(out, report)?;
    push_held_line(out, report)
}

fn push_warning(out: &mut Vec<u8>, warning: &[u8]) -> Result<(), AllocError>
    ensures { OnOk result (out.new.items ≡ out.old.items ++ (codes "warning: " ++ all_visible warning.now ++ codes "\n")) }
{
    push_text(out, "warning: ")?;
    push_visible(out, warning)?;
    push_text(out, "\n")
}

fn push_each_warning(out: &mut Vec<u8>, warnings: &[Vec<u8>]) -> Result<(), AllocError>
    ensures { OnOk result (out.new.items ≡ out.old.items ++ flat_map warning_line warnings.now) }
{
    for warning in warnings {
        push_warning(out, warning.as_slice())?;
    }
    Ok(())
}

/// Appends warnings, but none where quiet is wanted.
fn push_warnings(out: &mut Vec<u8>, warnings: &[Vec<u8>], is_quiet: bool) -> Result<(), AllocError>
    ensures { OnOk result (out.new.items ≡ out.old.items ++ warning_lines is_quiet warnings.now) }
{
    if is_quiet {
        return Ok(());
    }
    push_each_warning(out, warnings)
}

#[tactic(auto, unfolding(crate::specs::Printed::fault_if))]
fn push_fault_if(out: &mut Vec<u8>, fault: &Option<FaultReport>) -> Result<(), AllocError>
    ensures { OnOk result (out.new.items ≡ out.old.items ++ fault_if fault.now) }
{
    match fault {
        Some(fault) => push_fault(out, fault),
        None => Ok(()),
    }
}

fn push_further(out: &mut Vec<u8>, faults: &[FaultReport]) -> Result<(), AllocError>
    ensures { OnOk result (out.new.items ≡ out.old.items ++ flat_map fault_text faults.now) }
{
    for fault in faults {
        push_fault(out, fault)?;
    }
    Ok(())
}

fn push_file_faults(out: &mut Vec<u8>, file: &FileReport, is_quiet: bool) -> Result<(), AllocError>
    ensures { OnOk result (out.new.items ≡ out.old.items ++ file_faults is_quiet file.now) }
{
    push_fault_if(out, &file.fault)?;
    push_further(out, file.further.as_slice())?;
    push_warnings(out, file.warnings.as_slice(), is_quiet)
}

fn push_each_fault(
    out: &mut Vec<u8>,
    files: &[FileReport],
    is_quiet: bool,
) -> Result<(), AllocError>
    ensures { OnOk result (out.new.items ≡ out.old.items ++ flat_map (file_faults is_quiet) files.now) }
{
    for file in files {
        push_file_faults(out, file, is_quiet)?;
    }
    Ok(())
}

/// Appends the faults and warnings; where quiet is wanted, the faults alone.
pub fn push_faults(
    out: &mut Vec<u8>,
    report: &CheckReport,
    is_quiet: bool,
) -> Result<(), AllocError>
    ensures { OnOk result (out.new.items ≡ out.old.items ++ faults_text is_quiet report.now) }
{
    push_warnings(out, report.warnings.as_slice(), is_quiet)?;
    push_each_fault(out, report.files.as_slice(), is_quiet)
}
