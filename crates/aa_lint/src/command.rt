//! What `lint` prints.

ghost use Rattle.std.specs.Prelude.{◌≡◌, ◌++◌, [], IfOk, OnOk, map, option_map};
ghost use Rattle.aa_files.specs.Texts.{texts, slices};
ghost use Rattle.aa_command.specs.Setting.{setting_of};
ghost use Rattle.aa_command.specs.Printed.{printed, faults_alone};
ghost use Rattle.aa_text.specs.Nearest.{nearest_name};
ghost use Rattle.aa_lint.specs.Names.{all_names};
ghost use Rattle.aa_lint.specs.Telling.{telling};
ghost use Rattle.aa_command.specs.Untold.{untelling, untold_lines};
ghost use Rattle.aa_report.specs.Lines.{lines_in};
ghost use Rattle.aa_lint.specs.Known.{unknown, gone_among};
ghost use Rattle.aa_lint.specs.Lint.{lint_data};
ghost use Rattle.aa_lint.specs.Command.{open_status, status_of, lint_printed, meant_part, no_name, first_unknown, IsLintOf, IsLintBut, IsLintBy, IsLintIf, IsLintOutput};

use crate::finding_names::{is_name, meant_by};
use crate::forms::push_answers;
use crate::gathering::{Lint, lint_all};
use crate::known::{lines_of, push_gone_among, unknown_of};
use crate::told::Told;
use aa_check::Form;
use aa_command::{
    Decided, Output, Settings, Untold, Use, path_refused, push_untold_lines, with_policy,
};
use aa_files::{Tree, main_text};
use aa_report::{lines_as_set, lines_in};
use aa_skipped::{Skipped, UsePart, with_read_policy};
use aa_text::{NoMemory, push_text, push_visible};
use std::alloc::{AllocError, Global};

/// What is looked for in which files, and how it is printed.
#[derive(Clone, Copy)]
pub struct LintOptions<'a> {
    /// The files with profiles.
    pub files: &'a [Vec<u8>],
    /// The names of findings that are left out.
    pub except: &'a [Vec<u8>],
    /// The file with findings that are accepted, a line each as it is printed.
    pub known: Option<&'a [u8]>,
    pub form: Form,
    /// Whether files that are refused are skipped.
    pub skips: bool,
}

/// 5 where files are skipped, which aren't looked at.
fn open_status(skipped: &[Skipped]) -> u8
    ensures { result ≡ open_status skipped.now }
{
    match skipped {
        [] => 0,
        [_, ..] => 5,
    }
}

/// 1 where of a profile nothing can be found, else 4 where something is, and else 5 where files are skipped.
fn status_of(untold: &[Untold], told: &[Told], skipped: &[Skipped]) -> u8
    ensures { result ≡ status_of (map untelling untold.now) (map telling told.now) skipped.now }
{
    if !untold.is_empty() {
        return 1;
    }
    if !told.is_empty() {
        return 4;
    }
    open_status(skipped)
}

/// Appends of which profiles nothing can be found, and which accepted lines aren't found.
fn push_faults(
    out: &mut Vec<u8>,
    alloc: Global,
    lines: &[&[u8]],
    lint: &Lint,
) -> Result<(), AllocError>
    ensures { OnOk result (out.new.items ≡ out.old.items ++ untold_lines (lint_data lint.now).untold ++ gone_among (slices lines.now) (lint_data lint.now)) }
{
    let found = lines_of(alloc, lint.told.as_slice())?;
    push_untold_lines(out, lint.untold.as_slice())?;
    push_gone_among(out, alloc, found.as_slice(), lines)
}

/// What is found, but for accepted lines.
fn without(alloc: Global, lines: &[&[u8]], lint: Lint) -> Result<Lint, AllocError>
    ensures { IfOk result (λ left. lint_data left ≡ unknown (slices lines.now) (lint_data lint)) }
{
    let Lint { told, untold } = lint;
    let set = lines_as_set(alloc, lines)?;
    Ok(Lint {
        told: unknown_of(alloc, &set, lines, told)?,
        untold,
    })
}

/// Prints what is found, but for accepted lines.
fn output_of(
    alloc: Global,
    form: Form,
    lines: &[&[u8]],
    skipped: &[Skipped],
    lint: Lint,
) -> Result<Output, AllocError>
    ensures { IfOk result (λ out. printed out ≡ lint_printed form (slices lines.now) skipped.now (lint_data lint)) }
{
    let mut output = Output::new(alloc);
    push_faults(&mut output.faults, alloc, lines, &lint)?;
    let left = without(alloc, lines, lint)?;
    push_answers(&mut output.answers, alloc, form, skipped.len(), &left)?;
    output.status = status_of(left.untold.as_slice(), left.told.as_slice(), skipped);
    Ok(output)
}

/// Looks at the policy of files.
#[derive(Drop)]
struct Linting<'a> {
    states: u32,
    options: &'a LintOptions<'a>,
    /// The lines of findings that are accepted.
    lines: &'a [&'a [u8]],
}

impl UsePart for Linting<'_> {
    ghost gives = { λ a skipped d out. IsLintOf a.states a.options.now (slices a.lines.now) skipped d out };

    fn use_part(
        &self,
        alloc: Global,
        skipped: &[Skipped],
        decided: Decided<'_>,
    ) -> Result<Output, NoMemory> {
        let lint = lint_all(alloc, decided, self.states, self.options.except)?;
        Ok(output_of(alloc, self.options.form, self.lines, skipped, lint)?)
    }
}

impl Use for Linting<'_> {
    ghost gives = { λ a d out. IsLintOf a.states a.options.now (slices a.lines.now) [] d out };

    fn use_policy(&self, alloc: Global, decided: Decided<'_>) -> Result<Output, NoMemory> {
        self.use_part(alloc, &[], decided)
    }
}

/// The first of these names that no finding has.
fn first_unknown(names: &[Vec<u8>]) -> Option<&[u8]>
    ensures { option_map (λ name. name.now) result ≡ first_unknown (texts names.entry.now) }
{
    let mut rest = names;
    while let [name, after @ ..] = rest {
        if !is_name(name.as_slice()) {
            return Some(name.as_slice());
        }
        rest = after;
    }
    None
}

/// Appends the name that may have been meant, if there is one.
fn push_meant(out: &mut Vec<u8>, word: &[u8]) -> Result<(), AllocError>
    ensures { OnOk result (out.new.items ≡ out.old.items ++ meant_part (nearest_name all_names word.now)) }
{
    let Some(name) = meant_by(word) else {
        return Ok(());
    };
    push_text(out, "; write ")?;
    push_text(out, name)
}

/// Appends what is said of a name that no finding has.
#[tactic(auto, unfolding(crate::specs::Command::no_name))]
fn push_no_name(out: &mut Vec<u8>, name: &[u8]) -> Result<(), AllocError>
    ensures { OnOk result (out.new.items ≡ out.old.items ++ no_name name.now) }
{
    push_text(out, "error: no finding is called so: ")?;
    push_visible(out, name)?;
    push_meant(out, name)?;
    push_text(out, "\n")
}

/// Refuses a name that no finding has.
fn name_refused(alloc: Global, name: &[u8]) -> Result<Output, NoMemory>
    ensures { IfOk result (λ out. printed out ≡ faults_alone (no_name name.now) 2) }
{
    let mut output = Output::new(alloc);
    push_no_name(&mut output.faults, name)?;
    output.status = 2;
    Ok(output)
}

/// Prints what is found, but for these lines, in the files that are named, or in those that aren't refused.
fn lint_but<T: Tree>(
    alloc: Global,
    tree: &T,
    settings: &Settings<'_>,
    options: &LintOptions<'_>,
    lines: &[&[u8]],
) -> Result<Output, NoMemory>
    ensures { IfOk result (λ out. IsLintBut (setting_of (T.files tree.now) (T.taken tree.now) (T.input tree.now) settings.now) options.now (slices lines.now) (printed out)) }
{
    let linting = Linting {
        states: settings.states,
        options,
        lines,
    };
    if options.skips {
        return with_read_policy(alloc, tree, settings, options.files, &linting);
    }
    with_policy(alloc, tree, settings, options.files, &linting)
}

/// Prints what is found, but for the lines of a text.
fn lint_text<T: Tree>(
    alloc: Global,
    tree: &T,
    settings: &Settings<'_>,
    options: &LintOptions<'_>,
    text: &[u8],
) -> Result<Output, NoMemory>
    ensures { IfOk result (λ out. IsLintBut (setting_of (T.files tree.now) (T.taken tree.now) (T.input tree.now) settings.now) options.now (lines_in text.now) (printed out)) }
{
    let lines = lines_in(alloc, text)?;
    lint_but(alloc, tree, settings, options, lines.as_slice())
}

/// Prints what is found, but for the lines of a file.
fn lint_by<T: Tree>(
    alloc: Global,
    tree: &T,
    settings: &Settings<'_>,
    options: &LintOptions<'_>,
    path: &[u8],
) -> Result<Output, NoMemory>
    ensures { IfOk result (λ out. IsLintBy (setting_of (T.files tree.now) (T.taken tree.now) (T.input tree.now) settings.now) options.now path.now (printed out)) }
{
    match main_text(alloc, tree, path) {
        Ok(text) => lint_text(alloc, tree, settings, options, text.as_slice()),
        Err(why) => path_refused(alloc, path, why),
    }
}

/// Prints what is found, but for the lines of the file with what is accepted, where there is one.
fn lint_if<T: Tree>(
    alloc: Global,
    tree: &T,
    settings: &Settings<'_>,
    options: &LintOptions<'_>,
) -> Result<Output, NoMemory>
    ensures { IfOk result (λ out. IsLintIf (setting_of (T.files tree.now) (T.taken tree.now) (T.input tree.now) settings.now) options.now (option_map (λ path. path.now) options.now.known) (printed out)) }
{
    match options.known {
        Some(path) => lint_by(alloc, tree, settings, options, path),
        None => lint_but(alloc, tree, settings, options, &[]),
    }
}

/// Prints what the one policy that files are allows and is seldom meant, but for findings of the names that are left out, and for those
/// that are accepted; of which lines of these nothing is found is told besides. Where files that are refused are skipped, the others are
/// looked at, and it is undecided whether nothing is found.
pub fn lint_files<T: Tree>(
    alloc: Global,
    tree: &T,
    settings: &Settings<'_>,
    options: &LintOptions<'_>,
) -> Result<Output, NoMemory>
    ensures { IfOk result (λ out. IsLintOutput (setting_of (T.files tree.now) (T.taken tree.now) (T.input tree.now) settings.now) options.now (printed out)) }
{
    match first_unknown(options.except) {
        Some(name) => name_refused(alloc, name),
        None => lint_if(alloc, tree, settings, options),
    }
}
