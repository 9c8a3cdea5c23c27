//! Reads policies as they lie in files and logs of what was asked, and says what is wrong and where, and which rules decide.
#![tactic(auto)]

mod command;
mod commands;
mod handed;
mod opened;
mod progress;
mod shown;
mod watched;

use aa_command::{Output, Unwritten, exit_status, write_output};
use clap::error::{Error, ErrorKind};
use command::matches_of;
use commands::run_named;
use shown::shown_words;
use std::alloc::Global;
use std::process::ExitCode;
use std::{env, io};

/// Memory ran out, or something can't be read or written.
const FAILED: u8 = 3;

/// The command line is refused.
const REFUSED: u8 = 2;

fn say_no_memory(rt: &HostRuntime) -> u8 {
    let _ = eprintln!(rt; "no memory");
    FAILED
}

fn say_unwritten(rt: &HostRuntime) -> u8 {
    let _ = eprintln!(rt; "the output can't be written");
    FAILED
}

/// Why a command line is refused, told of words as a terminal may be handed them.
fn shown_error(alloc: Global, words: &[String], error: Error) -> Error {
    let Ok(shown) = shown_words(alloc, words) else {
        return error;
    };
    match matches_of(alloc, shown.as_slice()) {
        Err(shown) => shown,
        Ok(_) => error,
    }
}

/// Says what the command line is refused for, or the help or the version that it asks for, and gives the exit status.
fn refuse_command(rt: &HostRuntime, error: &Error) -> u8 {
    if error.kind() == ErrorKind::OutOfMemory {
        return say_no_memory(rt);
    }
    let written = error.print(rt);
    if error.use_stderr() {
        return REFUSED;
    }
    match written {
        Ok(()) => 0,
        Err(e) if e.kind() == io::ErrorKind::BrokenPipe => exit_status(Err(Unwritten::Closed)),
        Err(_) => say_unwritten(rt),
    }
}

/// Writes what was found, and gives the exit status.
fn print_output(rt: &HostRuntime, output: &Output) -> u8 {
    let written = write_output(&mut rt.stderr(), &mut io::writer(rt), output);
    if matches!(written, Err(Unwritten::Answers)) {
        let _ = eprintln!(rt; "the output can't be written");
    }
    exit_status(written)
}

/// Does what the command line asks, and gives the exit status.
fn answer_command(rt: &HostRuntime) -> u8 {
    let alloc = rt.alloc();
    let words: Vec<String> = match env::args(rt) {
        Err(error) if error.kind() == io::ErrorKind::OutOfMemory => return say_no_memory(rt),
        Err(_) => {
            let _ = eprintln!(rt; "error: the arguments can't be read as text");
            return REFUSED;
        }
        Ok(args) => match args.collect(alloc) {
            Err(_) => return say_no_memory(rt),
            Ok(words) => words,
        },
    };
    let matches = match matches_of(alloc, words.as_slice()) {
        Err(error) => {
            let error = shown_error(alloc, words.as_slice(), error);
            return refuse_command(rt, &error);
        }
        Ok(matches) => matches,
    };
    match run_named(rt, &matches) {
        Ok(output) => print_output(rt, &output),
        Err(_) => say_no_memory(rt),
    }
}

fn main(rt: HostRuntime) -> ExitCode {
    ExitCode::from(answer_command(&rt))
}
