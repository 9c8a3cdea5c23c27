//! What `ask` prints.

ghost use Rattle.std.specs.Prelude.{◌≡◌, ◌≤◌, ◌++◌, map, vec_len, OnOk, IfOk, if◌then◌else◌};
ghost use Rattle.aa_files.specs.Texts.{texts};
ghost use Rattle.aa_ask.specs.Told.{told};
ghost use Rattle.aa_ask.specs.Asked.{answers};
ghost use Rattle.aa_command.specs.Setting.{setting_of};
ghost use Rattle.aa_command.specs.Printed.{printed};
ghost use Rattle.aa_ask.specs.Command.{verdicts_text, is_one_denied, ask_printed, words_answered, asked_of, IsAsked, IsAskedBehind, IsAskedFrom, IsAskOutput};

use crate::asking::{AskFault, Manner, ask, is_one_denied};
use crate::json::push_json_verdicts;
use crate::refused::{many_refused, words_refused};
use crate::shown::push_verdicts;
use crate::unattached::opening_warning;
use crate::verdict::Verdict;
use crate::words::{MAX_WORDS, push_words};
use aa_command::{Decided, Output, Settings, Use, refused, unanswered, with_policy};
use aa_files::{Tree, main_text};
use aa_text::NoMemory;
use std::alloc::{AllocError, Global};

/// What is asked of which files, and how the answers are printed.
#[derive(Clone, Copy)]
pub struct AskOptions<'a> {
    /// The files with profiles.
    pub files: &'a [Vec<u8>],
    /// A file with more requests, one a line.
    pub from: Option<&'a [u8]>,
    pub manner: Manner<'a>,
    pub is_json: bool,
    /// Whether the status alone answers.
    pub is_quiet: bool,
}

/// Appends verdicts as they are wanted.
fn push_answers(
    out: &mut Vec<u8>,
    alloc: Global,
    options: &AskOptions<'_>,
    verdicts: &[Verdict],
) -> Result<(), AllocError>
    ensures { OnOk result (out.new.items ≡ out.old.items ++ verdicts_text options.now (map told verdicts.now)) }
{
    if options.is_json {
        return push_json_verdicts(out, alloc, verdicts);
    }
    if options.is_quiet {
        return Ok(());
    }
    push_verdicts(out, alloc, options.manner.program.is_some(), verdicts)
}

/// The status that answers.
fn status_of(verdicts: &[Verdict]) -> u8
    ensures { result ≡ (if is_one_denied (map told verdicts.now) then 4 else 0) }
{
    if is_one_denied(verdicts) { 4 } else { 0 }
}

fn answered(
    alloc: Global,
    options: &AskOptions<'_>,
    warning: Vec<u8>,
    verdicts: &[Verdict],
) -> Result<Output, NoMemory>
    ensures { IfOk result (λ out. printed out ≡ ask_printed options.now warning.items (Ok (map told verdicts.now))) }
{
    let mut output = Output::new(alloc);
    push_answers(&mut output.answers, alloc, options, verdicts)?;
    output.faults = warning;
    output.status = status_of(verdicts);
    Ok(output)
}

fn answer_words(
    alloc: Global,
    options: &AskOptions<'_>,
    decided: Decided<'_>,
    words: &[Vec<u8>],
) -> Result<Output, NoMemory>
    ensures { IfOk result (λ out. printed out ≡ words_answered options.now decided.entry (texts words.now)) }
{
    let warning = opening_warning(alloc, decided.policies, options.manner)?;
    match ask(alloc, decided, options.manner, words) {
        Ok(verdicts) => answered(alloc, options, warning, verdicts.as_slice()),
        Err(AskFault::NoMemory) => Err(NoMemory),
        Err(AskFault::Refused(line)) => Ok(unanswered(alloc, line)),
    }
}

/// Answers words by the policy of files.
#[derive(Drop)]
struct Answering<'a> {
    options: &'a AskOptions<'a>,
    words: &'a [Vec<u8>],
}

impl Use for Answering<'_> {
    ghost gives = { λ a d out. out ≡ asked_of a.options.now d (texts a.words.now) };

    fn use_policy(&self, alloc: Global, decided: Decided<'_>) -> Result<Output, NoMemory> {
        if self.words.is_empty() {
            return refused(alloc, "error: ask takes at least one word\n", 2);
        }
        answer_words(alloc, self.options, decided, self.words)
    }
}

fn ask_words<T: Tree>(
    alloc: Global,
    tree: &T,
    settings: &Settings<'_>,
    options: &AskOptions<'_>,
    words: &[Vec<u8>],
) -> Result<Output, NoMemory>
    ensures { IfOk result (λ out. IsAsked (setting_of (T.files tree.now) (T.taken tree.now) (T.input tree.now) settings.now) options.now (texts words.now) (printed out)) }
{
    let answering = Answering { options, words };
    with_policy(alloc, tree, settings, options.files, &answering)
}

/// Adds the words of the text of a file to those of the command line, and asks them all.
fn ask_added<T: Tree>(
    alloc: Global,
    tree: &T,
    settings: &Settings<'_>,
    options: &AskOptions<'_>,
    mut words: Vec<Vec<u8>>,
    from: &[u8],
    text: &[u8],
) -> Result<Output, NoMemory>
    requires { vec_len words ≤ MAX_WORDS }
    ensures { IfOk result (λ out. IsAskedBehind (IsAsked (setting_of (T.files tree.now) (T.taken tree.now) (T.input tree.now) settings.now) options.now) from.now (texts words.items) text.now (printed out)) }
{
    match push_words(alloc, text, &mut words) {
        Ok(()) => ask_words(alloc, tree, settings, options, words.as_slice()),
        Err(why) => many_refused(alloc, from, why),
    }
}

/// Adds the words of a file to those of the command line, and asks them all.
fn ask_from<T: Tree>(
    alloc: Global,
    tree: &T,
    settings: &Settings<'_>,
    options: &AskOptions<'_>,
    words: Vec<Vec<u8>>,
    from: &[u8],
) -> Result<Output, NoMemory>
    requires { vec_len words ≤ MAX_WORDS }
    ensures { IfOk result (λ out. IsAskedFrom (setting_of (T.files tree.now) (T.taken tree.now) (T.input tree.now) settings.now) (IsAsked (setting_of (T.files tree.now) (T.taken tree.now) (T.input tree.now) settings.now) options.now) from.now (texts words.items) (printed out)) }
{
    match main_text(alloc, tree, from) {
        Ok(text) => ask_added(alloc, tree, settings, options, words, from, text.as_slice()),
        Err(why) => words_refused(alloc, from, why),
    }
}

/// Decides the requests that the words of the command line are, and those of the file that it names, by the one policy that files are.
pub fn ask_files<T: Tree>(
    alloc: Global,
    tree: &T,
    settings: &Settings<'_>,
    options: &AskOptions<'_>,
    words: Vec<Vec<u8>>,
) -> Result<Output, NoMemory>
    ensures { IfOk result (λ out. IsAskOutput (setting_of (T.files tree.now) (T.taken tree.now) (T.input tree.now) settings.now) options.now (texts words.items) (printed out)) }
{
    if words.len() > MAX_WORDS {
        return refused(alloc, "error: ask takes at most 65536 words\n", 2);
    }
    match options.from {
        Some(from) => ask_from(alloc, tree, settings, options, words, from),
        None => ask_words(alloc, tree, settings, options, words.as_slice()),
    }
}
