//! What a question is answered.

ghost use Rattle.std.specs.Prelude.{◌≡◌, ◌≢◌, ◌++◌, option_map, codes, OnOk, IfOk, Ok, Err};
ghost use Rattle.aa_files.specs.Searches.{named_before};
ghost use Rattle.aa_files.specs.Texts.{texts, slices};
ghost use Rattle.aa_command.specs.Printed.{printed, faults_alone};
ghost use Rattle.aa_question.specs.declared.question.QuestionFault.{QuestionFault};
ghost use Rattle.aa_question.specs.Questions.{member_name, question_of, diff_question_of, asked, diff_asked, files_data, places_data, manner_data};
ghost use Rattle.aa_question.specs.Answers.{unknown_line, bad_line, no_question, IsManner, IsCheckOf, IsAskOf, IsDiffOf, IsAnswer};

use crate::question::{
    AskedFiles, AskedManner, AskedPlaces, DiffQuestion, Member, Question, QuestionFault,
};
use crate::reading::{read_diff_question, read_question};
use aa_ask::{AskOptions, Manner, ask_files};
use aa_check::{CheckOptions, Form, check_files};
use aa_command::{Output, Settings};
use aa_diff::{DiffForm, DiffOptions, Wanted, diff_files};
use aa_files::searched_folders;
use aa_text::{NoMemory, push_text, push_visible};
use std::alloc::{AllocError, Global};

/// The status of bytes that are no question.
const NO_QUESTION: u8 = 2;

fn slices_of(alloc: Global, list: &[Vec<u8>]) -> Result<Vec<&[u8]>, AllocError>
    ensures { IfOk result (λ found. slices found.items ≡ texts list.entry.now) }
{
    let mut found = Vec::with_capacity(alloc, list.len())?;
    for one in list {
        found.push(one.as_slice())?;
    }
    Ok(found)
}

/// The folders in which includes are searched.
fn folders_of(alloc: Global, places: &AskedPlaces) -> Result<Vec<&[u8]>, AllocError>
    ensures { IfOk result (λ folders. slices folders.items ≡ named_before (texts places.entry.now.folders.items) places.entry.now.base.items) }
{
    let named = slices_of(alloc, places.folders.as_slice())?;
    searched_folders(alloc, named.as_slice(), places.base.as_slice())
}

fn check_asked(alloc: Global, question: &Question) -> Result<Output, NoMemory>
    ensures { IfOk result (λ out. IsCheckOf (asked question.now) (printed out)) }
{
    let folders = folders_of(alloc, &question.places)?;
    let settings = Settings {
        base: question.places.base.as_slice(),
        folders: folders.as_slice(),
        states: question.places.states,
    };
    let options = CheckOptions {
        files: question.files.paths.as_slice(),
        form: Form::Json,
        is_quiet: false,
    };
    check_files(alloc, &question.files.texts, &settings, &options)
}

fn slice_if(bytes: &Option<Vec<u8>>) -> Option<&[u8]>
    ensures { option_map (λ b. b.now) result ≡ option_map (λ b. b.items) bytes.entry.now }
{
    match bytes {
        Some(bytes) => Some(bytes.as_slice()),
        None => None,
    }
}

fn manner_of(asked: &AskedManner) -> Manner<'_>
    ensures { IsManner (manner_data asked.entry.now) result }
{
    Manner {
        profile: slice_if(&asked.profile),
        program: slice_if(&asked.program),
        owned: asked.owned,
        is_sequence: asked.is_sequence,
    }
}

fn ask_asked<'q>(
    alloc: Global,
    files: &'q AskedFiles,
    places: &'q AskedPlaces,
    manner: &'q AskedManner,
    words: Vec<Vec<u8>>,
) -> Result<Output, NoMemory>
    ensures { IfOk result (λ out. IsAskOf (record { files = files_data files.entry.now; places = places_data places.entry.now; manner = manner_data manner.entry.now; words = texts words.items }) (printed out)) }
{
    let folders = folders_of(alloc, places)?;
    let settings = Settings {
        base: places.base.as_slice(),
        folders: folders.as_slice(),
        states: places.states,
    };
    let options = AskOptions {
        files: files.paths.as_slice(),
        from: None,
        manner: manner_of(manner),
        is_json: true,
        is_quiet: false,
    };
    ask_files(alloc, &files.texts, &settings, &options, words)
}

/// Asks the words of a question.
fn ask_words(alloc: Global, question: Question) -> Result<Output, NoMemory>
    ensures { IfOk result (λ out. IsAskOf (asked question) (printed out)) }
{
    let Question {
        files,
        places,
        manner,
        words,
    } = question;
    ask_asked(alloc, &files, &places, &manner, words)
}

fn diff_asked(alloc: Global, question: &DiffQuestion) -> Result<Output, NoMemory>
    ensures { IfOk result (λ out. IsDiffOf (diff_asked question.now) (printed out)) }
{
    let before = folders_of(alloc, &question.old.places)?;
    let after = folders_of(alloc, &question.new.places)?;
    let old = Settings {
        base: question.old.places.base.as_slice(),
        folders: before.as_slice(),
        states: question.old.places.states,
    };
    let new = Settings {
        base: question.new.places.base.as_slice(),
        folders: after.as_slice(),
        states: question.new.places.states,
    };
    let wanted = Wanted {
        gains: question.gains,
        profiles: question.profiles.as_slice(),
        names: question.profiles.as_slice(),
    };
    let options = DiffOptions {
        old: question.old.files.paths.as_slice(),
        new: question.new.files.paths.as_slice(),
        wanted,
        form: DiffForm::Json,
        skips: false,
        accepted: &[],
        known: None,
        unclean: false,
    };
    diff_files(
        alloc,
        &question.old.files.texts,
        &question.new.files.texts,
        &old,
        &new,
        &options,
    )
}

/// Appends which member is unknown.
#[tactic(auto, unfolding(crate::specs::Answers::unknown_line))]
fn push_unknown(line: &mut Vec<u8>, name: &[u8]) -> Result<(), AllocError>
    ensures { OnOk result (line.new.items ≡ line.old.items ++ unknown_line name.now) }
{
    push_text(line, "error: the question has an unknown member: ")?;
    push_visible(line, name)?;
    push_text(line, "\n")
}

/// Appends which member isn't understood.
#[tactic(auto, unfolding(crate::specs::Answers::bad_line))]
fn push_bad(line: &mut Vec<u8>, name: &[u8]) -> Result<(), AllocError>
    ensures { OnOk result (line.new.items ≡ line.old.items ++ bad_line name.now) }
{
    push_text(line, "error: the question's member isn't understood: ")?;
    line.extend_from_slice(name)?;
    push_text(line, "\n")
}

/// The name of a member of the object that another is.
fn path_within(alloc: Global, side: Member, name: &[u8]) -> Result<Vec<u8>, AllocError>
    ensures { IfOk result (λ path. path.items ≡ member_name side ++ codes "." ++ name.now) }
{
    let mut path = Vec::new(alloc);
    push_text(&mut path, side.name())?;
    push_text(&mut path, ".")?;
    path.extend_from_slice(name)?;
    Ok(path)
}

/// Appends why bytes are no question.
#[tactic(auto, unfolding(crate::specs::Answers::no_question))]
fn push_fault(line: &mut Vec<u8>, alloc: Global, fault: &QuestionFault) -> Result<(), AllocError>
    ensures { OnOk result (line.new.items ≡ line.old.items ++ no_question fault.now) }
{
    match fault {
        QuestionFault::NoMemory => push_text(line, "no memory\n"),
        QuestionFault::NotJson => push_text(line, "error: the question is no JSON\n"),
        QuestionFault::NotObject => push_text(line, "error: the question is no object\n"),
        QuestionFault::Unknown(name) => push_unknown(line, name.as_slice()),
        QuestionFault::Bad(member) => push_bad(line, member.name().as_bytes()),
        QuestionFault::UnknownIn(side, name) => {
            let path = path_within(alloc, *side, name.as_slice())?;
            push_unknown(line, path.as_slice())
        }
        QuestionFault::BadIn(side, member) => {
            let path = path_within(alloc, *side, member.name().as_bytes())?;
            push_bad(line, path.as_slice())
        }
    }
}

/// Says why bytes are no question.
fn refuse(alloc: Global, fault: QuestionFault) -> Result<Output, NoMemory>
    ensures said { IfOk result (λ out. printed out ≡ faults_alone (no_question fault) 2) }
    ensures other { IfOk result (λ _. fault ≢ QuestionFault.NoMemory) }
{
    if let QuestionFault::NoMemory = fault {
        return Err(NoMemory);
    }
    let mut output = Output::new(alloc);
    push_fault(&mut output.faults, alloc, &fault)?;
    output.status = NO_QUESTION;
    Ok(output)
}

/// What `check --json` prints of the files of the question that bytes are, or why they are none.
pub fn check_question(alloc: Global, bytes: &[u8]) -> Result<Output, NoMemory>
    ensures { IfOk result (λ out. IsAnswer question_of IsCheckOf bytes.now (printed out)) }
{
    match read_question(alloc, bytes) {
        Ok(question) => check_asked(alloc, &question),
        Err(fault) => refuse(alloc, fault),
    }
}

/// What `ask --json` prints to the words of the question that bytes are, or why they are none.
pub fn ask_question(alloc: Global, bytes: &[u8]) -> Result<Output, NoMemory>
    ensures { IfOk result (λ out. IsAnswer question_of IsAskOf bytes.now (printed out)) }
{
    match read_question(alloc, bytes) {
        Ok(question) => ask_words(alloc, question),
        Err(fault) => refuse(alloc, fault),
    }
}

/// What `diff --json` prints of the two sides of the question that bytes are, or why they are none.
pub fn diff_question(alloc: Global, bytes: &[u8]) -> Result<Output, NoMemory>
    ensures { IfOk result (λ out. IsAnswer diff_question_of IsDiffOf bytes.now (printed out)) }
{
    match read_diff_question(alloc, bytes) {
        Ok(question) => diff_asked(alloc, &question),
        Err(fault) => refuse(alloc, fault),
    }
}
