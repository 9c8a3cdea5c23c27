//! How an output is written.

ghost use Rattle.std.specs.Prelude.{◌≡◌, ◌≢◌, ℕ, ◌≤◌, length, take, OnOk, OnErr, IfOk, IfErr, MatchResult};
ghost use Rattle.std.specs.Io.KnownBytes.{Appends, WriteAppends};
ghost use Rattle.aa_command.specs.Written.{unwritten_status};

use crate::output::Output;
use std::io::{ErrorKind, Write};

/// Something can't be written.
const FAILED: u8 = 3;

/// The exit status of a program whose output nobody reads any more, as a shell tells it of the signal SIGPIPE.
const CLOSED: u8 = 141;

/// What of an output can't be written.
#[derive(Clone, Copy, Debug, PartialEq, Eq)]
pub enum Unwritten {
    Faults,
    Answers,
    /// The answers, since whoever reads them has gone.
    Closed,
}

/// A text can't be written.
#[derive(Clone, Copy)]
struct Cut {
    /// Whether whoever reads it has gone.
    is_closed: bool,
}

/// Writes some of a text, again where a signal interrupts it, and gives how many bytes.
#[tactic(auto, using(crate::proofs::Streams::kept_on))]
fn write_some<W: Write>(writer: &mut W, text: &[u8]) -> Result<usize, Cut>
    ensures bound { IfOk result (λ n. n ≤ length text.now) }
    ensures bytes { WriteAppends (W.contents writer.old) (W.contents writer.new) result text.now }
{
    for _ in 0..u64::MAX {
        match writer.write(text) {
            Ok(n) => return Ok(n),
            Err(e) => {
                if e.kind() != ErrorKind::Interrupted {
                    let is_closed = e.kind() == ErrorKind::BrokenPipe;
                    return Err(Cut { is_closed });
                }
            }
        }
    }
    Err(Cut { is_closed: false })
}

/// Writes the text, all of it or a front of it.
fn write_text<W: Write>(writer: &mut W, text: &[u8]) -> Result<(), Cut>
    ensures ok { OnOk result (Appends (W.contents writer.old) (W.contents writer.new) text.now) }
    ensures err { OnErr result ((n : ℕ) × (n ≤ length text.now)
        × Appends (W.contents writer.old) (W.contents writer.new) (take n text.now)) }
{
    let mut at = 0;
    'writes: while at < text.len() {
        match write_some(writer, &text[at..]) {
            Ok(0) => return Err(Cut { is_closed: false }),
            Ok(n) => at += n,
            Err(cut) => return Err(cut),
        }
    }
    Ok(())
}

/// Why an output isn't written, by what became of its faults and of its answers.
fn unwritten_of(is_said: bool, cut: Cut) -> Unwritten
    ensures { result ≢ Unwritten.Faults }
{
    if is_said && cut.is_closed {
        Unwritten::Closed
    } else {
        Unwritten::Answers
    }
}

/// Writes an output, first the faults and then the answers, and gives its exit status. Where the faults can't be written the answers
/// are; of what can't be written there is a front.
pub fn write_output<E: Write, A: Write>(
    errors: &mut E,
    answers: &mut A,
    output: &Output,
) -> Result<u8, Unwritten>
    ensures status { IfOk result (λ status. status ≡ output.now.status) }
    ensures said { OnOk result (Appends (E.contents errors.old) (E.contents errors.new) output.now.faults.items) }
    ensures answered { OnOk result (Appends (A.contents answers.old) (A.contents answers.new) output.now.answers.items) }
    ensures unsaid { OnErr result ((n : ℕ) × (n ≤ length output.now.faults.items)
        × Appends (E.contents errors.old) (E.contents errors.new) (take n output.now.faults.items)) }
    ensures answered_all_the_same { IfErr result (λ e. e ≡ Unwritten.Faults → Appends (A.contents answers.old) (A.contents answers.new) output.now.answers.items) }
    ensures unanswered { IfErr result (λ e. e ≢ Unwritten.Faults → ((n : ℕ) × (n ≤ length output.now.answers.items)
        × Appends (A.contents answers.old) (A.contents answers.new) (take n output.now.answers.items))) }
{
    let said = write_text(errors, output.faults.as_slice());
    match write_text(answers, output.answers.as_slice()) {
        Err(cut) => Err(unwritten_of(said.is_ok(), cut)),
        Ok(()) if said.is_err() => Err(Unwritten::Faults),
        Ok(()) => Ok(output.status),
    }
}

fn status_of(unwritten: Unwritten) -> u8
    ensures { result ≡ unwritten_status unwritten }
{
    match unwritten {
        Unwritten::Closed => CLOSED,
        _ => FAILED,
    }
}

/// The exit status of an output that was written, or of one that can't be.
pub fn exit_status(written: Result<u8, Unwritten>) -> u8
    ensures { MatchResult written (λ status. result ≡ status) (λ why. result ≡ unwritten_status why) }
{
    match written {
        Ok(status) => status,
        Err(why) => status_of(why),
    }
}
