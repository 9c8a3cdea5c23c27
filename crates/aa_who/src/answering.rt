//! The answers to words.

ghost use Rattle.std.specs.Prelude.{◌≡◌, ◌++◌, codes, map, IfOk, IfErr};
ghost use Rattle.aa_text.specs.Visible.{all_visible};
ghost use Rattle.aa_files.specs.Texts.{texts};
ghost use Rattle.aa_load.specs.UnitPolicy.{limit_of};
ghost use Rattle.aa_who.specs.Words.{SaysMisread, IsMisreadLine};
ghost use Rattle.aa_who.specs.Counts.{SaysNoPath};
ghost use Rattle.aa_who.specs.Answers.{answered, IsAnswerTo, IsAnswerBy, AreAnswers, SaysNoAnswer, SaysFirst};

use crate::counting::{Counted, count_at};
use crate::fault::{Misread, WhoFault};
use crate::granting::{Grants, grants_of};
use crate::reading::{read_asked, said_of};
use aa_command::{Decided, count_of};
use aa_model::Label;
use aa_quantifiers::Word;
use aa_text::{push_text, push_visible};
use std::alloc::{AllocError, Global};

/// Who is granted what a word asks.
#[derive(Drop)]
pub(crate) struct WordAnswer {
    pub(crate) word: Vec<u8>,
    pub(crate) grants: Grants,
    /// How many profiles there are.
    pub(crate) profiles: usize,
    /// How much of it a task without a profile is granted.
    pub(crate) free: Counted,
}

/// Who is granted the requests of a word.
fn answer_by(
    alloc: Global,
    decided: Decided<'_>,
    states: u32,
    unclean: bool,
    word: &Word,
    text: &[u8],
) -> Result<WordAnswer, WhoFault>
    ensures answered { IfOk result (λ a. IsAnswerBy decided.entry (limit_of states) unclean text.now word.now (answered a)) }
    ensures refused { IfErr result (λ e. SaysNoPath word.now text.now e) }
{
    let free = count_at(
        alloc,
        decided.policies,
        states,
        Label::Unconfined(0),
        word,
        text,
    )?;
    let grants = grants_of(alloc, decided, states, unclean, word, text)?;
    Ok(WordAnswer {
        word: Vec::from_slice(alloc, text)?,
        grants,
        profiles: count_of(decided.policies) as usize,
        free,
    })
}

/// The line on a word that is no request.
fn no_request_line(alloc: Global, word: &[u8], why: &[u8]) -> Result<Vec<u8>, AllocError>
    ensures { IfOk result (λ line. line.items ≡ codes "error: this is no request: " ++ all_visible word.now ++ codes ": " ++ all_visible why.now ++ codes "\n") }
{
    let mut line = Vec::from_slice(alloc, "error: this is no request: ".as_bytes())?;
    push_visible(&mut line, word)?;
    push_text(&mut line, ": ")?;
    push_visible(&mut line, why)?;
    push_text(&mut line, "\n")?;
    Ok(line)
}

/// The line on a word that is read as no requests.
fn misread_line(alloc: Global, word: &[u8], misread: &Misread) -> Result<Vec<u8>, AllocError>
    ensures { IfOk result (λ line. IsMisreadLine word.now misread.now line.items) }
{
    match misread {
        Misread::NoMemory => Err(AllocError),
        Misread::NoRequest(why) => no_request_line(alloc, word, why.as_slice()),
        Misread::NoPattern => said_of(alloc, "error: the path is no pattern: ", word),
    }
}

/// The refusal of a word that is read as no requests.
fn unread(alloc: Global, word: &[u8], misread: &Misread) -> WhoFault
    requires { SaysMisread word.now misread.now }
    ensures { SaysNoAnswer word.now result }
{
    match misread_line(alloc, word, misread) {
        Ok(line) => WhoFault::Refused(line),
        Err(_) => WhoFault::NoMemory,
    }
}

/// Who is granted what a word asks.
fn answer_to(
    alloc: Global,
    decided: Decided<'_>,
    states: u32,
    unclean: bool,
    text: &[u8],
) -> Result<WordAnswer, WhoFault>
    ensures answered { IfOk result (λ a. IsAnswerTo decided.entry (limit_of states) unclean text.now (answered a)) }
    ensures refused { IfErr result (λ e. SaysNoAnswer text.now e) }
{
    match read_asked(alloc, text) {
        Ok(word) => answer_by(alloc, decided, states, unclean, &word, text),
        Err(misread) => Err(unread(alloc, text, &misread)),
    }
}

/// The answer to each word, or what is said of the first that asks nothing.
pub(crate) fn answers_to(
    alloc: Global,
    decided: Decided<'_>,
    states: u32,
    unclean: bool,
    words: &[Vec<u8>],
) -> Result<Vec<WordAnswer>, WhoFault>
    ensures answered { IfOk result (λ list. AreAnswers decided.entry (limit_of states) unclean (texts words.now) (map answered list.items)) }
    ensures refused { IfErr result (λ e. SaysFirst decided.entry (limit_of states) unclean (texts words.now) e) }
{
    let mut answers = Vec::new(alloc);
    for word in words {
        answers.push(answer_to(alloc, decided, states, unclean, word.as_slice())?)?;
    }
    Ok(answers)
}
