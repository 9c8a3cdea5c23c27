//! The library `libaamediate`: bytes in, texts out, for programs in any language that calls C.
//!
//! A job is given to `aamediate_check`, `aamediate_run` or `aamediate_replay`, a question in JSON to `aapolicy_check`,
//! `aapolicy_ask` or `aapolicy_diff`. Each call takes a buffer for its text and one for the line on a fault, tells in
//! `Sizes` how many bytes text and line have, and returns a status (`docs/EMBEDDING.md`): 5 where the buffer has no
//! room for the text. Nothing is kept between two calls. The text is what the command of that name writes for the job
//! (definition `IsAnswered`) or prints with `--json` of the question (`IsQuestioned`). It is made by `check_bytes`,
//! `run_bytes` and `replay_bytes` of `aa_engine`, or by `check_question`, `ask_question` and `diff_question` of
//! `aa_question`; here it is copied into the buffers.
//!
//! Shown by tests/embedding.
#![tactic(auto)]

mod answering;
mod fault_line;
mod handing;
mod questioning;

ghost use Rattle.aa_engine.specs.Engines.{IsCheckOutput, IsRunOutput, IsReplayOutput, IsDecided};
ghost use Rattle.aa_question.specs.Questions.{question_of, diff_question_of};
ghost use Rattle.aa_question.specs.Answers.{IsCheckOf, IsAskOf, IsDiffOf};
ghost use Rattle.aa_library.specs.Answered.{IsAnswered};
ghost use Rattle.aa_library.specs.Questioned.{IsQuestioned};

use aa_engine::{check_bytes, replay_bytes, run_bytes};
use aa_question::{ask_question, check_question, diff_question};
use answering::answer;
pub use handing::Sizes;
use questioning::hand;
use std::alloc::Global;

/// What `aamediate check` writes for the bytes of a job.
#[unsafe(no_mangle)]
pub extern "C" fn aamediate_check(
    alloc: Global,
    job: &[u8],
    text: &mut [u8],
    fault: &mut [u8],
    sizes: &mut Sizes,
) -> u32
    ensures answered { IsAnswered IsCheckOutput job.now text.old text.new fault.old fault.new sizes.new result }
    ensures decided { IsDecided IsCheckOutput }
{
    let made = check_bytes(alloc, job);
    answer(alloc, made, text, fault, sizes)
}

/// What `aamediate run` writes for the bytes of a job. The tasks are answered one after the other.
#[unsafe(no_mangle)]
pub extern "C" fn aamediate_run(
    alloc: Global,
    job: &[u8],
    text: &mut [u8],
    fault: &mut [u8],
    sizes: &mut Sizes,
) -> u32
    ensures answered { IsAnswered IsRunOutput job.now text.old text.new fault.old fault.new sizes.new result }
    ensures decided { IsDecided IsRunOutput }
{
    let made = run_bytes(alloc, job);
    answer(alloc, made, text, fault, sizes)
}

/// What `aamediate replay` writes for the bytes of a job.
#[unsafe(no_mangle)]
pub extern "C" fn aamediate_replay(
    alloc: Global,
    job: &[u8],
    text: &mut [u8],
    fault: &mut [u8],
    sizes: &mut Sizes,
) -> u32
    ensures answered { IsAnswered IsReplayOutput job.now text.old text.new fault.old fault.new sizes.new result }
    ensures decided { IsDecided IsReplayOutput }
{
    let made = replay_bytes(alloc, job);
    answer(alloc, made, text, fault, sizes)
}

/// What `aapolicy check --json` prints of the files of the question that bytes are.
#[unsafe(no_mangle)]
pub extern "C" fn aapolicy_check(
    alloc: Global,
    question: &[u8],
    text: &mut [u8],
    fault: &mut [u8],
    sizes: &mut Sizes,
) -> u32
    ensures { IsQuestioned question_of IsCheckOf question.now text.old text.new fault.old fault.new sizes.new result }
{
    let made = check_question(alloc, question);
    hand(made, text, fault, sizes)
}

/// What `aapolicy ask --json` prints to the words of the question that bytes are.
#[unsafe(no_mangle)]
pub extern "C" fn aapolicy_ask(
    alloc: Global,
    question: &[u8],
    text: &mut [u8],
    fault: &mut [u8],
    sizes: &mut Sizes,
) -> u32
    ensures { IsQuestioned question_of IsAskOf question.now text.old text.new fault.old fault.new sizes.new result }
{
    let made = ask_question(alloc, question);
    hand(made, text, fault, sizes)
}

/// What `aapolicy diff --json` prints of the two sides of the question that bytes are.
#[unsafe(no_mangle)]
pub extern "C" fn aapolicy_diff(
    alloc: Global,
    question: &[u8],
    text: &mut [u8],
    fault: &mut [u8],
    sizes: &mut Sizes,
) -> u32
    ensures { IsQuestioned diff_question_of IsDiffOf question.now text.old text.new fault.old fault.new sizes.new result }
{
    let made = diff_question(alloc, question);
    hand(made, text, fault, sizes)
}
