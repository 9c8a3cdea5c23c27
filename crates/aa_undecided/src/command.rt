//! What `ask` prints where files that are refused are skipped.

ghost use Rattle.std.specs.Prelude.{◌≡◌, ◌≤◌, ◌++◌, map, vec_len, OnOk, IfOk};
ghost use Rattle.std.specs.List.{list_any};
ghost use Rattle.aa_files.specs.Texts.{texts};
ghost use Rattle.aa_command.specs.Setting.{setting_of};
ghost use Rattle.aa_command.specs.Printed.{printed};
ghost use Rattle.aa_ask.specs.Command.{IsAskedBehind, IsAskedFrom};
ghost use Rattle.aa_ask.specs.Unattached.{opening_warning};
ghost use Rattle.aa_undecided.specs.Answers.{placed_all, answered, files_opening};
ghost use Rattle.aa_undecided.specs.Command.{answers_shown, is_denied, is_open, status_by, warning_unless, part_printed, words_answered, part_asked, IsPartAsked, IsPartOutput};

use crate::answered::{Answered, SkippedAt};
use crate::asking::ask_part;
use crate::jsons::push_json_answers;
use crate::opening::files_opening;
use crate::shown::push_answers;
use aa_ask::{
    AskFault, AskOptions, MAX_WORDS, many_refused, opening_warning, push_words, words_refused,
};
use aa_command::{Decided, Output, Settings, refused, unanswered};
use aa_files::{Tree, main_text};
use aa_skipped::{Skipped, UsePart, with_read_policy};
use aa_text::NoMemory;
use std::alloc::{AllocError, Global};

/// Appends answers as they are wanted.
fn push_shown(
    out: &mut Vec<u8>,
    alloc: Global,
    options: &AskOptions<'_>,
    answers: &[Answered],
) -> Result<(), AllocError>
    ensures { OnOk result (out.new.items ≡ out.old.items ++ answers_shown options.now (map answered answers.now)) }
{
    if options.is_json {
        return push_json_answers(out, alloc, answers);
    }
    if options.is_quiet {
        return Ok(());
    }
    push_answers(out, alloc, options.manner.program.is_some(), answers)
}

fn is_denied(answer: &Answered) -> bool
    ensures { result ≡ is_denied (answered answer.now) }
{
    match answer {
        Answered::Decided(verdict) => !verdict.granted,
        Answered::Undecided(_) => false,
    }
}

fn is_open(answer: &Answered) -> bool
    ensures { result ≡ is_open (answered answer.now) }
{
    match answer {
        Answered::Decided(_) => false,
        Answered::Undecided(_) => true,
    }
}

fn one_is_denied(answers: &[Answered]) -> bool
    ensures { result ≡ list_any (λ a. is_denied (answered a)) answers.now }
{
    answers.iter().any(|answer| is_denied(answer))
}

fn one_is_open(answers: &[Answered]) -> bool
    ensures { result ≡ list_any (λ a. is_open (answered a)) answers.now }
{
    answers.iter().any(|answer| is_open(answer))
}

/// Whether one of them is denied.
fn is_one_denied(answers: &[Answered]) -> bool
    ensures { result ≡ list_any is_denied (map answered answers.now) }
{
    one_is_denied(answers)
}

/// Whether one of them is undecided.
fn is_one_open(answers: &[Answered]) -> bool
    ensures { result ≡ list_any is_open (map answered answers.now) }
{
    one_is_open(answers)
}

/// The status that answers.
fn status_of(answers: &[Answered]) -> u8
    ensures { result ≡ status_by (map answered answers.now) }
{
    if is_one_denied(answers) {
        return 4;
    }
    if is_one_open(answers) { 5 } else { 0 }
}

fn shown(
    alloc: Global,
    options: &AskOptions<'_>,
    warning: Vec<u8>,
    answers: &[Answered],
) -> Result<Output, NoMemory>
    ensures { IfOk result (λ out. printed out ≡ part_printed options.now warning.items (Ok (map answered answers.now))) }
{
    let mut output = Output::new(alloc);
    push_shown(&mut output.answers, alloc, options, answers)?;
    output.faults = warning;
    output.status = status_of(answers);
    Ok(output)
}

/// What is warned of, unless it isn't known for these files under which label is asked.
fn warning_unless(
    alloc: Global,
    options: &AskOptions<'_>,
    decided: Decided<'_>,
    files: &[SkippedAt],
) -> Result<Vec<u8>, NoMemory>
    ensures { IfOk result (λ text. text.items ≡ warning_unless (placed_all files.now) (opening_warning decided.entry.policies.now options.now.manner)) }
{
    match files {
        [] => opening_warning(alloc, decided.policies, options.manner),
        [_, ..] => Ok(Vec::new(alloc)),
    }
}

/// The same for those of these files that could decide it.
fn warning_of(
    alloc: Global,
    options: &AskOptions<'_>,
    skipped: &[Skipped],
    decided: Decided<'_>,
) -> Result<Vec<u8>, NoMemory>
    ensures { IfOk result (λ text. text.items ≡ warning_unless (files_opening decided.entry skipped.now options.now.manner) (opening_warning decided.entry.policies.now options.now.manner)) }
{
    let files = files_opening(alloc, decided, skipped, options.manner)?;
    warning_unless(alloc, options, decided, files.as_slice())
}

fn answer_words(
    alloc: Global,
    options: &AskOptions<'_>,
    words: &[Vec<u8>],
    skipped: &[Skipped],
    decided: Decided<'_>,
) -> Result<Output, NoMemory>
    ensures { IfOk result (λ out. printed out ≡ words_answered options.now (texts words.now) skipped.now decided.entry) }
{
    let warning = warning_of(alloc, options, skipped, decided)?;
    match ask_part(alloc, decided, skipped, options.manner, words) {
        Ok(answers) => shown(alloc, options, warning, answers.as_slice()),
        Err(AskFault::NoMemory) => Err(NoMemory),
        Err(AskFault::Refused(line)) => Ok(unanswered(alloc, line)),
    }
}

/// Words that are asked of the policy of the files that aren't skipped.
#[derive(Drop)]
struct Answering<'a> {
    options: &'a AskOptions<'a>,
    words: &'a [Vec<u8>],
}

impl UsePart for Answering<'_> {
    ghost gives = { λ a skipped d out. out ≡ part_asked a.options.now (texts a.words.now) skipped d };

    fn use_part(
        &self,
        alloc: Global,
        skipped: &[Skipped],
        decided: Decided<'_>,
    ) -> Result<Output, NoMemory> {
        if self.words.is_empty() {
            return refused(alloc, "error: ask takes at least one word\n", 2);
        }
        answer_words(alloc, self.options, self.words, skipped, decided)
    }
}

fn ask_words<T: Tree>(
    alloc: Global,
    tree: &T,
    settings: &Settings<'_>,
    options: &AskOptions<'_>,
    words: &[Vec<u8>],
) -> Result<Output, NoMemory>
    ensures { IfOk result (λ out. IsPartAsked (setting_of (T.files tree.now) (T.taken tree.now) (T.input tree.now) settings.now) options.now (texts words.now) (printed out)) }
{
    let answering = Answering { options, words };
    with_read_policy(alloc, tree, settings, options.files, &answering)
}

/// Adds the words of the text of a file to those of the command line, and asks them all.
fn ask_added<T: Tree>(
    alloc: Global,
    tree: &T,
    settings: &Settings<'_>,
    options: &AskOptions<'_>,
    mut words: Vec<Vec<u8>>,
    from: &[u8],
    text: &[u8],
) -> Result<Output, NoMemory>
    requires { vec_len words ≤ MAX_WORDS }
    ensures { IfOk result (λ out. IsAskedBehind (IsPartAsked (setting_of (T.files tree.now) (T.taken tree.now) (T.input tree.now) settings.now) options.now) from.now (texts words.items) text.now (printed out)) }
{
    match push_words(alloc, text, &mut words) {
        Ok(()) => ask_words(alloc, tree, settings, options, words.as_slice()),
        Err(why) => many_refused(alloc, from, why),
    }
}

/// Adds the words of a file to those of the command line, and asks them all.
fn ask_from<T: Tree>(
    alloc: Global,
    tree: &T,
    settings: &Settings<'_>,
    options: &AskOptions<'_>,
    words: Vec<Vec<u8>>,
    from: &[u8],
) -> Result<Output, NoMemory>
    requires { vec_len words ≤ MAX_WORDS }
    ensures { IfOk result (λ out. IsAskedFrom (setting_of (T.files tree.now) (T.taken tree.now) (T.input tree.now) settings.now) (IsPartAsked (setting_of (T.files tree.now) (T.taken tree.now) (T.input tree.now) settings.now) options.now) from.now (texts words.items) (printed out)) }
{
    match main_text(alloc, tree, from) {
        Ok(text) => ask_added(alloc, tree, settings, options, words, from, text.as_slice()),
        Err(why) => words_refused(alloc, from, why),
    }
}

/// Decides the requests that the words of the command line are, and those of the file that it names, by the one policy that those of the
/// files are that aren't refused. The others are skipped: of each its fault is said, and which profiles it seems to hold; and a request is
/// undecided where these could change the answer.
pub fn ask_skipping<T: Tree>(
    alloc: Global,
    tree: &T,
    settings: &Settings<'_>,
    options: &AskOptions<'_>,
    words: Vec<Vec<u8>>,
) -> Result<Output, NoMemory>
    ensures { IfOk result (λ out. IsPartOutput (setting_of (T.files tree.now) (T.taken tree.now) (T.input tree.now) settings.now) options.now (texts words.items) (printed out)) }
{
    if words.len() > MAX_WORDS {
        return refused(alloc, "error: ask takes at most 65536 words\n", 2);
    }
    match options.from {
        Some(from) => ask_from(alloc, tree, settings, options, words, from),
        None => ask_words(alloc, tree, settings, options, words.as_slice()),
    }
}
