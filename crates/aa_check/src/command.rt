//! What `check` prints.

ghost use Rattle.std.specs.Prelude.{◌≡◌, ◌++◌, [], OnOk, IfOk, if◌then◌else◌};
ghost use Rattle.aa_command.specs.Setting.{setting_of};
ghost use Rattle.aa_check.specs.Printed.{report_text};
ghost use Rattle.aa_command.specs.Printed.{printed};
ghost use Rattle.aa_check.specs.Command.{answers_in, faults_in, check_printed, IsCheckOutput};

use crate::checked::{push_faults, push_report};
use crate::checking::check;
use crate::form::Form;
use crate::gcc::push_gcc_report;
use crate::jsons::push_json_report;
use crate::report::CheckReport;
use crate::sarif::push_sarif_report;
use aa_command::{Output, Settings};
use aa_files::Tree;
use aa_text::NoMemory;
use std::alloc::{AllocError, Global};

/// Which files are checked, and how what is found is printed.
#[derive(Clone, Copy)]
pub struct CheckOptions<'a> {
    pub files: &'a [Vec<u8>],
    pub form: Form,
    /// Whether faults alone are printed; it says nothing of JSON and SARIF.
    pub is_quiet: bool,
}

/// Appends what is found for people, unless quiet is wanted.
fn push_found(
    out: &mut Vec<u8>,
    alloc: Global,
    is_quiet: bool,
    report: &CheckReport,
) -> Result<(), AllocError>
    ensures { OnOk result (out.new.items ≡ out.old.items ++ (if is_quiet then [] else report_text report.now)) }
{
    if is_quiet {
        return Ok(());
    }
    push_report(out, alloc, report)
}

/// Appends what stands on standard output.
fn push_answers(
    out: &mut Vec<u8>,
    alloc: Global,
    form: Form,
    is_quiet: bool,
    report: &CheckReport,
) -> Result<(), AllocError>
    ensures { OnOk result (out.new.items ≡ out.old.items ++ answers_in form is_quiet report.now) }
{
    match form {
        Form::Text => push_found(out, alloc, is_quiet, report),
        Form::Json => push_json_report(out, alloc, report),
        Form::Gcc => push_gcc_report(out, is_quiet, report),
        Form::Sarif => push_sarif_report(out, alloc, report),
    }
}

/// Appends what stands on standard error.
fn push_faults_apart(
    out: &mut Vec<u8>,
    form: Form,
    is_quiet: bool,
    report: &CheckReport,
) -> Result<(), AllocError>
    ensures { OnOk result (out.new.items ≡ out.old.items ++ faults_in form is_quiet report.now) }
{
    match form {
        Form::Text => push_faults(out, report, is_quiet),
        _ => Ok(()),
    }
}

fn report_printed(
    alloc: Global,
    options: &CheckOptions<'_>,
    report: &CheckReport,
) -> Result<Output, NoMemory>
    ensures { IfOk result (λ out. printed out ≡ check_printed options.now report.now) }
{
    let mut output = Output::new(alloc);
    push_faults_apart(&mut output.faults, options.form, options.is_quiet, report)?;
    push_answers(
        &mut output.answers,
        alloc,
        options.form,
        options.is_quiet,
        report,
    )?;
    output.status = report.status();
    Ok(output)
}

/// Reads and compiles each file by itself, and says what is found.
pub fn check_files<T: Tree>(
    alloc: Global,
    tree: &T,
    settings: &Settings<'_>,
    options: &CheckOptions<'_>,
) -> Result<Output, NoMemory>
    ensures { IfOk result (λ out. IsCheckOutput (setting_of (T.files tree.now) (T.taken tree.now) (T.input tree.now) settings.now) options.now (printed out)) }
{
    let report = check(alloc, tree, settings, options.files)?;
    report_printed(alloc, options, &report)
}
