//! What `who` prints.

ghost use Rattle.std.specs.Prelude.{◌≡◌, ◌++◌, [], map, OnOk, IfOk, if◌then◌else◌};
ghost use Rattle.std.specs.List.{list_any};
ghost use Rattle.aa_files.specs.Texts.{texts};
ghost use Rattle.aa_command.specs.Setting.{setting_of};
ghost use Rattle.aa_command.specs.Printed.{printed};
ghost use Rattle.aa_undecided.specs.Answers.{placed};
ghost use Rattle.aa_who.specs.Answers.{answered};
ghost use Rattle.aa_who.specs.Shown.{is_nobodys};
ghost use Rattle.aa_who.specs.Json.{json_answers};
ghost use Rattle.aa_who.specs.Command.{told_text, answers_text, status_of, who_printed, IsWhoOf, IsWhoBy, IsWhoOutput};
ghost use Rattle.aa_command.specs.Counts.{passed_in};

use crate::answering::{WordAnswer, answers_to};
use crate::fault::WhoFault;
use crate::json::push_json_answers;
use crate::shown::{is_nobodys, push_answers, push_untold};
use aa_command::{
    Decided, Output, Settings, Use, passed_in, push_passed, refused, unanswered, with_policy,
};
use aa_files::Tree;
use aa_skipped::{Skipped, UsePart, push_skipped_count, with_read_policy};
use aa_text::NoMemory;
use aa_undecided::{all_placed, holders, one_may_hold};
use std::alloc::{AllocError, Global};

/// The most words of a call.
const MAX_WORDS: usize = 65536;

/// What is asked of which files, and how the answers are printed.
#[derive(Clone, Copy)]
pub struct WhoOptions<'a> {
    /// The files with profiles.
    pub files: &'a [Vec<u8>],
    pub words: &'a [Vec<u8>],
    pub is_json: bool,
    /// Whether the status alone answers.
    pub is_quiet: bool,
    /// Whether files that are refused are skipped.
    pub skips: bool,
    /// Whether unclean paths count as others.
    pub unclean: bool,
}

/// Appends the answers, how many rules decide nothing, and how many files are skipped.
fn push_told(
    out: &mut Vec<u8>,
    alloc: Global,
    passed: usize,
    skipped: &[Skipped],
    answers: &[WordAnswer],
) -> Result<(), AllocError>
    ensures { OnOk result (out.new.items ≡ out.old.items ++ told_text passed skipped.now (map answered answers.now)) }
{
    let files = holders(alloc, skipped)?;
    push_answers(out, alloc, files.as_slice(), answers)?;
    push_passed(out, passed)?;
    push_skipped_count(out, skipped.len())
}

/// The same as JSON.
fn push_json(
    out: &mut Vec<u8>,
    alloc: Global,
    passed: usize,
    skipped: &[Skipped],
    answers: &[WordAnswer],
) -> Result<(), AllocError>
    ensures { OnOk result (out.new.items ≡ out.old.items ++ json_answers passed (map placed skipped.now) (map answered answers.now)) }
{
    let files = all_placed(alloc, skipped)?;
    push_json_answers(out, alloc, passed, files.as_slice(), answers)
}

/// Appends answers as they are wanted, of a policy of which so many rules decide nothing.
fn push_wanted(
    out: &mut Vec<u8>,
    alloc: Global,
    options: &WhoOptions<'_>,
    passed: usize,
    skipped: &[Skipped],
    answers: &[WordAnswer],
) -> Result<(), AllocError>
    ensures { OnOk result (out.new.items ≡ out.old.items ++ answers_text options.now passed skipped.now (map answered answers.now)) }
{
    if options.is_json {
        return push_json(out, alloc, passed, skipped, answers);
    }
    if options.is_quiet {
        return Ok(());
    }
    push_told(out, alloc, passed, skipped, answers)
}

fn is_one_nobodys(answers: &[WordAnswer]) -> bool
    ensures { result ≡ list_any (λ a. is_nobodys (answered a)) answers.now }
{
    answers.iter().any(|answer| is_nobodys(answer))
}

/// Whether nobody is granted one of the words.
fn has_nobodys(answers: &[WordAnswer]) -> bool
    ensures { result ≡ list_any is_nobodys (map answered answers.now) }
{
    is_one_nobodys(answers)
}

/// 1 where something can't be told, else 5 where skipped files may hold profiles, and else 4 where nobody is granted a word.
fn status_of(untold: &[u8], is_open: bool, has_nobodys: bool) -> u8
    ensures { result ≡ status_of untold.now is_open has_nobodys }
{
    if !untold.is_empty() {
        return 1;
    }
    if is_open {
        return 5;
    }
    if has_nobodys { 4 } else { 0 }
}

fn output_of(
    alloc: Global,
    options: &WhoOptions<'_>,
    passed: usize,
    skipped: &[Skipped],
    answers: &[WordAnswer],
) -> Result<Output, AllocError>
    ensures { IfOk result (λ out. printed out ≡ who_printed options.now passed skipped.now (map answered answers.now)) }
{
    let mut output = Output::new(alloc);
    push_wanted(
        &mut output.answers,
        alloc,
        options,
        passed,
        skipped,
        answers,
    )?;
    push_untold(&mut output.faults, answers)?;
    let untold = output.faults.as_slice();
    output.status = status_of(untold, one_may_hold(skipped), has_nobodys(answers));
    Ok(output)
}

/// Answers words by the policy of files.
#[derive(Drop)]
struct Asking<'a> {
    states: u32,
    options: &'a WhoOptions<'a>,
}

impl UsePart for Asking<'_> {
    ghost gives = { λ a skipped d out. IsWhoOf a.states a.options.now skipped d out };

    fn use_part(
        &self,
        alloc: Global,
        skipped: &[Skipped],
        decided: Decided<'_>,
    ) -> Result<Output, NoMemory> {
        if self.options.words.is_empty() {
            return refused(alloc, "error: who takes at least one word\n", 2);
        }
        let unclean = self.options.unclean;
        match answers_to(alloc, decided, self.states, unclean, self.options.words) {
            Ok(answers) => {
                let passed = passed_in(decided.policies);
                let answers = answers.as_slice();
                Ok(output_of(alloc, self.options, passed, skipped, answers)?)
            }
            Err(WhoFault::NoMemory) => Err(NoMemory),
            Err(WhoFault::Refused(line)) => Ok(unanswered(alloc, line)),
        }
    }
}

impl Use for Asking<'_> {
    ghost gives = { λ a d out. IsWhoOf a.states a.options.now [] d out };

    fn use_policy(&self, alloc: Global, decided: Decided<'_>) -> Result<Output, NoMemory> {
        self.use_part(alloc, &[], decided)
    }
}

/// Answers the words by the files that are named, or by those that aren't refused.
fn who_by<T: Tree>(
    alloc: Global,
    tree: &T,
    settings: &Settings<'_>,
    options: &WhoOptions<'_>,
) -> Result<Output, NoMemory>
    ensures { IfOk result (λ out. IsWhoBy (setting_of (T.files tree.now) (T.taken tree.now) (T.input tree.now) settings.now) options.now (printed out)) }
{
    let asking = Asking {
        states: settings.states,
        options,
    };
    if options.skips {
        return with_read_policy(alloc, tree, settings, options.files, &asking);
    }
    with_policy(alloc, tree, settings, options.files, &asking)
}

/// Prints of each word which profiles of the one policy that files are have rules that allow what it asks: all of it, or some. A profile
/// of which that can't be told is said, and the others are told. Refused are words that ask nothing. Where files that are refused are
/// skipped, the others answer, and it is undecided whether nobody is granted a word.
pub fn who_files<T: Tree>(
    alloc: Global,
    tree: &T,
    settings: &Settings<'_>,
    options: &WhoOptions<'_>,
) -> Result<Output, NoMemory>
    ensures { IfOk result (λ out. IsWhoOutput (setting_of (T.files tree.now) (T.taken tree.now) (T.input tree.now) settings.now) options.now (printed out)) }
{
    if options.words.len() > MAX_WORDS {
        return refused(alloc, "error: who takes at most 65536 words\n", 2);
    }
    who_by(alloc, tree, settings, options)
}
