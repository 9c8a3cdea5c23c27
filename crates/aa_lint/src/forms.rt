//! What is found, in each form.

ghost use Rattle.std.specs.Prelude.{◌≡◌, ◌++◌, map, OnOk};
ghost use Rattle.aa_skipped.specs.Telling.{count_text};
ghost use Rattle.aa_lint.specs.Telling.{telling};
ghost use Rattle.aa_lint.specs.Shown.{lines_text};
ghost use Rattle.aa_lint.specs.Lint.{lint_data};
ghost use Rattle.aa_lint.specs.Forms.{answers_in};

use crate::gathering::Lint;
use crate::jsons::push_json_lint;
use crate::sarif::push_sarif_lint;
use crate::shown::{push_gcc_lines, push_lines};
use crate::told::Told;
use aa_check::Form;
use aa_skipped::push_skipped_count;
use std::alloc::{AllocError, Global};

/// Appends what is found and how many files are skipped, a line each.
fn push_text_lines(
    out: &mut Vec<u8>,
    alloc: Global,
    skipped: usize,
    told: &[Told],
) -> Result<(), AllocError>
    ensures { OnOk result (out.new.items ≡ out.old.items ++ (lines_text (map telling told.now) ++ count_text skipped)) }
{
    push_lines(out, alloc, told)?;
    push_skipped_count(out, skipped)
}

/// Appends what is found, in the form that is wanted; text and JSON tell how many files are skipped.
pub(crate) fn push_answers(
    out: &mut Vec<u8>,
    alloc: Global,
    form: Form,
    skipped: usize,
    lint: &Lint,
) -> Result<(), AllocError>
    ensures { OnOk result (out.new.items ≡ out.old.items ++ answers_in form skipped (lint_data lint.now)) }
{
    let told = lint.told.as_slice();
    let untold = lint.untold.as_slice();
    match form {
        Form::Text => push_text_lines(out, alloc, skipped, told),
        Form::Json => push_json_lint(out, alloc, skipped, told, untold),
        Form::Gcc => push_gcc_lines(out, alloc, told),
        Form::Sarif => push_sarif_lint(out, alloc, told, untold),
    }
}
