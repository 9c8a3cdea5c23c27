//! Reads a job, decides its requests, and writes the verdicts.
#![tactic(auto)]

ghost use Rattle.aa_arguments.specs.Commands.{IsAskable};

use aa_arguments::{Command, command_named};
use aa_engine::{RunFault, check_job, replay_job, run_job};
use clap::Error;
use clap::error::ErrorKind;
use std::process::ExitCode;
use std::sync::Wait;
use std::thread::Threads;
use std::{env, io};

/// Says the fault on standard error, and gives its exit status.
fn refuse(rt: &HostRuntime, fault: RunFault) -> u8 {
    let _ = eprintln!(rt; "{fault}");
    fault.status()
}

/// Says why the words of the command line can't be had, and gives the exit status.
fn refuse_words(rt: &HostRuntime, error: &io::Error) -> u8 {
    if error.kind() == io::ErrorKind::OutOfMemory {
        return refuse(rt, RunFault::NoMemory);
    }
    let _ = eprintln!(rt; "error: the arguments can't be read as text");
    2
}

/// Says what the command line is refused for, or the help or version that it asks for, and gives the exit status.
fn refuse_command(rt: &HostRuntime, error: &Error) -> u8 {
    if error.kind() == ErrorKind::OutOfMemory {
        return refuse(rt, RunFault::NoMemory);
    }
    let is_written = error.print(rt).is_ok();
    if error.use_stderr() {
        return 2;
    }
    if is_written {
        0
    } else {
        refuse(rt, RunFault::Write)
    }
}

/// Does what the command line asks, and gives the exit status.
fn answer_command<H: Threads + Wait + Sync>(rt: &HostRuntime, threads: &H) -> u8 {
    let alloc = rt.alloc();
    let words: Vec<String> = match env::args(rt) {
        Err(error) => return refuse_words(rt, &error),
        Ok(args) => match args.collect(alloc) {
            Err(_) => return refuse(rt, RunFault::NoMemory),
            Ok(words) => words,
        },
    };
    match command_named(alloc, words.as_slice()) {
        Err(error) => refuse_command(rt, &error),
        Ok(command) => match answer_job(rt, threads, command) {
            Ok(()) => 0,
            Err(fault) => refuse(rt, fault),
        },
    }
}

/// Answers the job on standard input. Workers are started by `threads`.
fn answer_job<H: Threads + Wait + Sync>(
    rt: &HostRuntime,
    threads: &H,
    command: Command,
) -> Result<(), RunFault>
    requires { IsAskable command }
{
    let alloc = rt.alloc();
    let mut reader = rt.reader();
    let mut writer = io::writer(rt);
    match command {
        Command::Check => check_job(alloc, &mut reader, &mut writer),
        Command::Run(workers) => run_job(threads, alloc, &mut reader, &mut writer, workers),
        Command::Replay => replay_job(alloc, &mut reader, &mut writer),
    }
}

fn main(rt: HostRuntime) -> ExitCode {
    ExitCode::from(answer_command(&rt, &rt))
}
