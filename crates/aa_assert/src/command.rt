//! What `assert` prints.

ghost use Rattle.std.specs.Prelude.{◌≡◌, ◌++◌, [], map, OnOk, IfOk};
ghost use Rattle.aa_files.specs.FilesData.{IsMainText};
ghost use Rattle.aa_claims.specs.Reports.{IsClaimReport};
ghost use Rattle.aa_command.specs.Refusals.{SaysFault};
ghost use Rattle.aa_command.specs.Setting.{setting_of};
ghost use Rattle.aa_command.specs.Printed.{printed, faults_alone};
ghost use Rattle.aa_undecided.specs.Answers.{placed};
ghost use Rattle.aa_assert.specs.Answers.{answered};
ghost use Rattle.aa_assert.specs.Json.{json_answers};
ghost use Rattle.aa_assert.specs.Command.{told_text, wanted_text, status_of, assert_printed, empty_text, IsAssertOf, IsAssertBy, IsAssertSaid, IsAssertOutput};

use crate::answering::{Answer, answers_to};
use crate::gcc::push_gcc_answers;
use crate::json::push_json_answers;
use crate::part::Part;
use crate::sarif::push_sarif_answers;
use crate::shown::{count_broken, count_undecided, push_answers, push_untold};
use aa_check::Form;
use aa_claims::{ClaimFault, ClaimLine, Wrong, claim_report, read_claims};
use aa_command::{
    Decided, Output, Settings, Use, fault_refused, passed_in, path_refused, push_passed,
    with_policy,
};
use aa_files::{Tree, main_text};
use aa_skipped::{Skipped, UsePart, push_skipped_count, with_read_policy};
use aa_text::{NoMemory, push_text, push_visible};
use aa_undecided::all_placed;
use std::alloc::{AllocError, Global};

/// Which claims are answered by which files, and how.
#[derive(Clone, Copy)]
pub struct AssertOptions<'a> {
    /// The file with claims.
    pub claims: &'a [u8],
    /// The files with profiles.
    pub files: &'a [Vec<u8>],
    /// Whether of each claim the first is printed alone by whom it is broken.
    pub is_first: bool,
    /// Whether requests at unclean paths count as others.
    pub unclean: bool,
    pub form: Form,
    /// Whether files that are refused are skipped.
    pub skips: bool,
}

/// 1 where something can't be told, else 4 where a claim is broken, and else 5 where one is undecided.
fn status_of(untold: &[u8], broken: usize, undecided: usize) -> u8
    ensures { result ≡ status_of untold.now broken undecided }
{
    if !untold.is_empty() {
        return 1;
    }
    if broken != 0 {
        return 4;
    }
    if undecided == 0 { 0 } else { 5 }
}

/// Appends the answers, how many rules decide nothing, and how many files are skipped.
fn push_told(
    out: &mut Vec<u8>,
    alloc: Global,
    options: &AssertOptions<'_>,
    passed: usize,
    skipped: &[Skipped],
    answers: &[Answer],
) -> Result<(), AllocError>
    ensures { OnOk result (out.new.items ≡ out.old.items ++ told_text options.now passed skipped.now (map answered answers.now)) }
{
    push_answers(out, alloc, options.claims, answers)?;
    push_passed(out, passed)?;
    push_skipped_count(out, skipped.len())
}

/// The same as JSON.
fn push_json(
    out: &mut Vec<u8>,
    alloc: Global,
    passed: usize,
    skipped: &[Skipped],
    answers: &[Answer],
) -> Result<(), AllocError>
    ensures { OnOk result (out.new.items ≡ out.old.items ++ json_answers passed (map placed skipped.now) (map answered answers.now)) }
{
    let files = all_placed(alloc, skipped)?;
    push_json_answers(out, alloc, passed, files.as_slice(), answers)
}

/// Appends answers as they are wanted, by a policy of which so many rules decide nothing.
fn push_wanted(
    out: &mut Vec<u8>,
    alloc: Global,
    options: &AssertOptions<'_>,
    passed: usize,
    skipped: &[Skipped],
    answers: &[Answer],
) -> Result<(), AllocError>
    ensures { OnOk result (out.new.items ≡ out.old.items ++ wanted_text options.now passed skipped.now (map answered answers.now)) }
{
    match options.form {
        Form::Text => push_told(out, alloc, options, passed, skipped, answers),
        Form::Json => push_json(out, alloc, passed, skipped, answers),
        Form::Gcc => push_gcc_answers(out, alloc, options.claims, answers),
        Form::Sarif => push_sarif_answers(out, alloc, options.claims, answers),
    }
}

fn output_of(
    alloc: Global,
    options: &AssertOptions<'_>,
    passed: usize,
    skipped: &[Skipped],
    answers: &[Answer],
) -> Result<Output, AllocError>
    ensures { IfOk result (λ out. printed out ≡ assert_printed options.now passed skipped.now (map answered answers.now)) }
{
    let mut output = Output::new(alloc);
    push_wanted(
        &mut output.answers,
        alloc,
        options,
        passed,
        skipped,
        answers,
    )?;
    push_untold(&mut output.faults, answers)?;
    let untold = output.faults.as_slice();
    output.status = status_of(untold, count_broken(answers), count_undecided(answers));
    Ok(output)
}

/// Says what is wrong at a byte of the claims.
fn wrong_said(
    alloc: Global,
    path: &[u8],
    text: &[u8],
    at: usize,
    wrong: &Wrong,
) -> Result<Output, NoMemory>
    ensures { IfOk result (λ out. SaysFault (IsClaimReport path.now text.now at wrong.now) 1 (printed out)) }
{
    let report = claim_report(alloc, path, text, at, wrong)?;
    fault_refused(alloc, &report, 1)
}

/// Answers claims by the policy of files.
#[derive(Drop)]
struct Asserting<'a> {
    states: u32,
    options: &'a AssertOptions<'a>,
    /// The text that the claims are.
    text: &'a [u8],
    claims: &'a [ClaimLine],
}

impl UsePart for Asserting<'_> {
    ghost gives = { λ a skipped d out. IsAssertOf a.states a.options.now a.text.now a.claims.now skipped d out };

    fn use_part(
        &self,
        alloc: Global,
        skipped: &[Skipped],
        decided: Decided<'_>,
    ) -> Result<Output, NoMemory> {
        let options = self.options;
        let part = Part {
            decided,
            skipped,
            unclean: options.unclean,
        };
        match answers_to(alloc, part, self.states, options.is_first, self.claims) {
            Ok(answers) => {
                let passed = passed_in(decided.policies);
                let answers = answers.as_slice();
                Ok(output_of(alloc, options, passed, skipped, answers)?)
            }
            Err(ClaimFault::NoMemory) => Err(NoMemory),
            Err(ClaimFault::At(at, wrong)) => {
                wrong_said(alloc, options.claims, self.text, at, &wrong)
            }
        }
    }
}

impl Use for Asserting<'_> {
    ghost gives = { λ a d out. IsAssertOf a.states a.options.now a.text.now a.claims.now [] d out };

    fn use_policy(&self, alloc: Global, decided: Decided<'_>) -> Result<Output, NoMemory> {
        self.use_part(alloc, &[], decided)
    }
}

/// Answers these claims, which a text is, by the policy of files.
fn answer_claims<T: Tree>(
    alloc: Global,
    tree: &T,
    settings: &Settings<'_>,
    options: &AssertOptions<'_>,
    text: &[u8],
    claims: &[ClaimLine],
) -> Result<Output, NoMemory>
    ensures { IfOk result (λ out. IsAssertBy (setting_of (T.files tree.now) (T.taken tree.now) (T.input tree.now) settings.now) options.now text.now claims.now (printed out)) }
{
    let asserting = Asserting {
        states: settings.states,
        options,
        text,
        claims,
    };
    if options.skips {
        return with_read_policy(alloc, tree, settings, options.files, &asserting);
    }
    with_policy(alloc, tree, settings, options.files, &asserting)
}

/// Says that no claim stands in the file at a path.
#[tactic(auto, unfolding(crate::specs::Command::empty_text))]
fn empty_said(alloc: Global, path: &[u8]) -> Result<Output, NoMemory>
    ensures { IfOk result (λ out. printed out ≡ faults_alone (empty_text path.now) 1) }
{
    let mut output = Output::new(alloc);
    push_visible(&mut output.faults, path)?;
    push_text(&mut output.faults, ": no claim stands here\n")?;
    output.status = 1;
    Ok(output)
}

/// Answers these claims, which a text is. A file without one is refused: nothing would be looked at.
fn assert_claims<T: Tree>(
    alloc: Global,
    tree: &T,
    settings: &Settings<'_>,
    options: &AssertOptions<'_>,
    text: &[u8],
    claims: &[ClaimLine],
) -> Result<Output, NoMemory>
    ensures { IfOk result (λ out. IsAssertSaid (setting_of (T.files tree.now) (T.taken tree.now) (T.input tree.now) settings.now) options.now text.now claims.now (printed out)) }
{
    match claims {
        [] => empty_said(alloc, options.claims),
        [_, ..] => answer_claims(alloc, tree, settings, options, text, claims),
    }
}

/// Answers the claims that a text is.
fn assert_text<T: Tree>(
    alloc: Global,
    tree: &T,
    settings: &Settings<'_>,
    options: &AssertOptions<'_>,
    text: &[u8],
) -> Result<Output, NoMemory>
    requires { IsMainText (T.files tree.now) (T.input tree.now) options.now.claims.now text.now }
    ensures { IfOk result (λ out. IsAssertOutput (setting_of (T.files tree.now) (T.taken tree.now) (T.input tree.now) settings.now) options.now (printed out)) }
{
    match read_claims(alloc, text) {
        Ok(claims) => assert_claims(alloc, tree, settings, options, text, claims.as_slice()),
        Err(ClaimFault::NoMemory) => Err(NoMemory),
        Err(ClaimFault::At(at, wrong)) => wrong_said(alloc, options.claims, text, at, &wrong),
    }
}

/// Prints of each claim of a file by which profiles of the one policy that files are it is broken: each with a request that breaks it, at a
/// clean path where there is one and of these with a shortest, and the rules that decide it; behind those by whom at unclean paths alone,
/// where these don't count. A profile of which that can't be told is said, and the others are told. Refused, at its word, is what is no
/// claim, then what states nothing of somebody who is there, or what nothing can break, whatever the rules say, and then, once those before it
/// are answered, what asks for no path that can be asked for; and a file without a claim. Where files that are refused are skipped, a claim that nobody breaks whom is read, and that their profiles could
/// break, is undecided.
pub fn assert_files<T: Tree>(
    alloc: Global,
    tree: &T,
    settings: &Settings<'_>,
    options: &AssertOptions<'_>,
) -> Result<Output, NoMemory>
    ensures { IfOk result (λ out. IsAssertOutput (setting_of (T.files tree.now) (T.taken tree.now) (T.input tree.now) settings.now) options.now (printed out)) }
{
    match main_text(alloc, tree, options.claims) {
        Ok(text) => assert_text(alloc, tree, settings, options, text.as_slice()),
        Err(why) => path_refused(alloc, options.claims, why),
    }
}
