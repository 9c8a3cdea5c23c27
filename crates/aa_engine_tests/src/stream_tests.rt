//! Readers and writers that fail, or take and give little.

ghost use Rattle.std.specs.Prelude.{◌<◌, ◌≤◌};

use crate::comparing::holds;
use crate::jobs::{COMMANDS, Command, FIRST_JOB, TOO_LARGE, answer, gives};
use aa_engine::RunFault;
use std::io;
use std::io::{ErrorKind, Read, Write};
use std::process::Abort;
use std::sync::Wait;
use std::thread::Threads;

/// Gives the bytes of a text and then so many blanks, in portions, and fails so after so many calls.
#[derive(Drop)]
struct Giver<'a> {
    text: &'a [u8],
    blanks: usize,
    portion: usize,
    /// What a portion grows by, in times.
    growth: usize,
    calls: usize,
    how: ErrorKind,
}

impl Read for Giver<'_> {
    fn read(&mut self, buf: &mut [u8]) -> io::Result<usize> {
        if self.calls == 0 {
            return Err(io::Error::from(self.how));
        }
        self.calls -= 1;
        let room = self.portion.min(buf.len());
        self.portion = self.portion.saturating_mul(self.growth);
        if self.text.is_empty() {
            let n = self.blanks.min(room);
            buf[..n].fill(b' ');
            self.blanks -= n;
            return Ok(n);
        }
        let n = self.text.len().min(room);
        buf[..n].copy_from_slice(&self.text[..n]);
        self.text = &self.text[n..];
        Ok(n)
    }
}

/// Gives them one by one, and fails after so many calls.
fn giving(text: &[u8], blanks: usize, calls: usize) -> Giver<'_> {
    let (portion, growth, how) = (1, 1, ErrorKind::Other);
    Giver {
        text,
        blanks,
        portion,
        growth,
        calls,
        how,
    }
}

#[test]
fn nothing_is_written_where_the_reader_fails(rt: HostRuntime) {
    for (command, _) in COMMANDS {
        for calls in 0..=FIRST_JOB.len() {
            let reader = giving(FIRST_JOB, 0, calls);
            gives(&rt, command, reader, Err(RunFault::Read));
            let mut reader = giving(FIRST_JOB, 0, calls);
            reader.how = ErrorKind::Interrupted;
            gives(&rt, command, reader, Err(RunFault::Read));
        }
    }
}

#[test]
fn a_reader_may_give_bytes_one_by_one(rt: HostRuntime) {
    for (command, text) in COMMANDS {
        let reader = giving(FIRST_JOB, 0, FIRST_JOB.len() + 1);
        gives(&rt, command, reader, Ok(text));
    }
}

#[test]
fn a_reader_without_end_is_given_up(rt: HostRuntime) {
    for (command, _) in COMMANDS {
        let reader = giving(b"", usize::MAX, usize::MAX);
        gives(&rt, command, reader, Err(RunFault::Read));
    }
}

#[test]
fn a_reader_is_called_at_most_33554432_times(rt: HostRuntime) {
    for (blanks, fault) in [(33_554_431, TOO_LARGE), (33_554_432, RunFault::Read)] {
        let reader = giving(b"", blanks, usize::MAX);
        gives(&rt, Command::Check, reader, Err(fault));
    }
}

#[test]
fn a_job_with_blanks_behind_it_has_at_most_16777216_bytes(rt: HostRuntime) {
    for (command, text) in COMMANDS {
        for bytes in [16_777_216usize, 16_777_217, 16_777_218, 50_000_000] {
            let blanks = bytes.saturating_sub(FIRST_JOB.len());
            let mut reader = giving(FIRST_JOB, blanks, usize::MAX);
            reader.growth = 2;
            match bytes {
                16_777_216 => gives(&rt, command, reader, Ok(text)),
                _ => gives(&rt, command, reader, Err(TOO_LARGE)),
            }
        }
    }
}

/// Takes one byte a call. When it is full it fails, or takes nothing and says so.
#[derive(Drop)]
struct FullWriter {
    taken: Vec<u8>,
    room: usize,
    is_quiet: bool,
}

impl Write for FullWriter {
    fn write(&mut self, buf: &[u8]) -> io::Result<usize> {
        let Some(byte) = buf.first() else {
            return Ok(0);
        };
        if self.room == 0 && self.is_quiet {
            return Ok(0);
        }
        if self.room == 0 {
            return Err(io::Error::from(ErrorKind::Other));
        }
        self.taken.push(*byte)?;
        self.room -= 1;
        Ok(1)
    }

    fn flush(&mut self) -> io::Result<()> {
        Ok(())
    }
}

/// Each front of what a command writes is taken, and then the writer fails, or takes nothing.
fn fails_behind_each_front<R: Abort + Threads + Wait + Sync + AllocGlobal>(rt: &R, is_quiet: bool) {
    for (command, text) in COMMANDS {
        for room in 0..text.len() {
            let (mut reader, taken) = (FIRST_JOB, Vec::new(rt.alloc()));
            let mut writer = FullWriter {
                taken,
                room,
                is_quiet,
            };
            let given = answer(rt, command, &mut reader, &mut writer);
            holds(rt, given == Err(RunFault::Write));
            holds(rt, writer.taken.as_slice() == &text[..room]);
        }
    }
}

#[test]
fn a_front_is_written_where_the_writer_fails(rt: HostRuntime) {
    fails_behind_each_front(&rt, false);
}

#[test]
fn a_writer_that_takes_nothing_failed(rt: HostRuntime) {
    fails_behind_each_front(&rt, true);
}
