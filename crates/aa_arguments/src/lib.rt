//! What the words of aamediate's command line ask.
//!
//! `command_named` takes the words of a command line, the program's name first, and answers a `Command`: to check a
//! job, to run it by a number of workers, or to replay its events. Else it gives the error of `clap`, which prints
//! itself: help, the version, or why the words are refused. What is answered is what the words ask (definition
//! `IsAskedBy`, over the subcommands of `program_line`), and the number of workers is from 1 to 16 (`IsAskable`), as
//! `run_job` requires it. `aamediate` calls it once, and leaves what is asked to `check_job`, `run_job` and
//! `replay_job` of `aa_engine`.
//!
//! Shown by tests/jobs/seventeen-workers.
#![tactic(auto)]

mod command;

pub use command::{Command, command_named};
