//! Redundant rules in each form.

ghost use Rattle.std.specs.Prelude.{◌≡◌, ◌++◌, map, OnOk};
ghost use Rattle.aa_skipped.specs.Telling.{count_text};
ghost use Rattle.aa_redundant.specs.Told.{telling, explaining};
ghost use Rattle.aa_command.specs.Untold.{untelling};
ghost use Rattle.aa_redundant.specs.Shown.{rules_text};
ghost use Rattle.aa_redundant.specs.Forms.{answers_in};
ghost use Rattle.aa_command.specs.Counts.{passed_text};

use crate::explained::ExplainedRule;
use crate::json::push_json_rules;
use crate::sarif::push_sarif_rules;
use crate::shown::{push_gcc_lines, push_rules};
use crate::told::ToldRule;
use aa_check::Form;
use aa_command::{Untold, push_passed};
use aa_skipped::push_skipped_count;
use std::alloc::{AllocError, Global};

/// Appends them as a text, how many rules decide nothing, and how many files are skipped.
fn push_text_rules(
    out: &mut Vec<u8>,
    passed: usize,
    skipped: usize,
    redundant: &[ExplainedRule],
    undecided: &[ToldRule],
    going: &[ToldRule],
) -> Result<(), AllocError>
    ensures { OnOk result (out.new.items ≡ out.old.items ++ (rules_text (map explaining redundant.now) (map telling undecided.now) (map telling going.now) ++ passed_text passed ++ count_text skipped)) }
{
    push_rules(out, redundant, undecided, going)?;
    push_passed(out, passed)?;
    push_skipped_count(out, skipped)
}

/// Appends the rules that can go by themselves, in the form that is wanted; text and JSON have besides those that can go together, those
/// that may lead to profiles of skipped files, how many rules decide nothing, and how many files are skipped; JSON and SARIF, of which
/// profiles it can't be told.
pub(crate) fn push_answers(
    out: &mut Vec<u8>,
    alloc: Global,
    form: Form,
    passed: usize,
    skipped: usize,
    redundant: &[ExplainedRule],
    untold: &[Untold],
    undecided: &[ToldRule],
    going: &[ToldRule],
) -> Result<(), AllocError>
    ensures { OnOk result (out.new.items ≡ out.old.items ++ answers_in form passed skipped (map explaining redundant.now) (map untelling untold.now) (map telling undecided.now) (map telling going.now)) }
{
    match form {
        Form::Text => push_text_rules(out, passed, skipped, redundant, undecided, going),
        Form::Json => push_json_rules(
            out, alloc, passed, skipped, redundant, untold, undecided, going,
        ),
        Form::Gcc => push_gcc_lines(out, redundant),
        Form::Sarif => push_sarif_rules(out, alloc, redundant, untold),
    }
}
