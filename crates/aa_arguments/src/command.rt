//! The command line.

ghost use Rattle.std.specs.Prelude.{◌≡◌, ◌↔◌, false, codes, map, option_map, string_bytes, IsTrue, IfOk, IfSome};
ghost use Rattle.clap.specs.declared.builder.command.Command.TheViews.{out-Command as fields_of};
ghost use Rattle.clap.specs.Words.{app_of, found_of, new_app, one_text, subcommand_name_of};
ghost use Rattle.aa_arguments.specs.Commands.{run_line, bare_line, program_line, IsWorkers, IsAskable, AsksFor, IsAskedBy};

use clap::{Arg, ArgAction, ArgMatches, Error, value_parser};
use std::alloc::{AllocError, Global};

/// What the program is asked to do with the job on its standard input.
#[derive(Clone, Copy, Debug, PartialEq, Eq)]
pub enum Command {
    /// To say whether its policies compile.
    Check,
    /// To have its requests decided by that many workers, 1 to 16.
    Run(u32),
    /// To make its events happen.
    Replay,
}

const VERSION: &str = "0.1.0";

/// What a job is, an example, and the exit statuses.
const JOB: &str =
    r#"A job is one JSON object: a policy, and tasks with their requests. A task's label is the full
name of the profile that it begins in, or "unconfined". This job asks to read a file and to
write it:

  {"policy": "profile p { /etc/passwd r, }",
   "tasks": [{"label": "p",
              "requests": [{"file": "/etc/passwd", "mask": "r"},
                           {"file": "/etc/passwd", "mask": "w"}]}]}

For it, `aamediate run` writes

  0 0 granted label="p"
  0 1 denied label="p"
  apparmor="DENIED" operation="file" profile="p" name="/etc/passwd" requested_mask="w" denied_mask="w"

that is, for each request: the number of its task, its own number, the verdict and the label
after it; then its audit line, if it has one.

Exit status:
  0  the job was answered
  1  the job is refused, or one of its policies, or a task's label names no profile
  2  the command line is refused
  3  memory ran out, or reading or writing failed

A refusal is one line on standard error. docs/JOBS.md has all requests, lines and refusals."#;

const CHECK: &str =
    r#"Writes how many profiles and file rules each policy has, and names each rule that is only
listed. It doesn't look at the labels of the tasks."#;

const RUN: &str =
    r#"Decides as far as a task's first "exit". Each request gives its verdict, and then its audit line,
if it has one. Each task has a queue of its own; the output is the same for any number of workers.
Several workers want queues of 64 requests or more: the job's "capacity", 1 where it has none."#;

const REPLAY: &str =
    r#"Each task has a queue of its own. The job's "events" happen at them in order: the task of a
number sends its next request, or one is taken, finished or collected, or the queue is shut.
Each event gives one line. For example:

  {"policy": "profile p { /etc/passwd r, }",
   "tasks": [{"label": "p", "requests": [{"file": "/etc/passwd", "mask": "r"}]}],
   "events": [[0, "send"], [0, "take"], [0, "finish"], [0, "collect"]]}"#;

fn check<'a>(alloc: Global) -> clap::Command<'a>
    ensures app { app_of result ≡ new_app (codes "check") }
    ensures local { (fields_of result).has_globals ≡ false }
{
    clap::Command::new(alloc, "check")
        .about("Reads the policies of a job, and counts their rules")
        .override_usage("aamediate check < JOB")
        .after_help(CHECK)
}

/// The name of the option.
const WORKERS: &str = "workers";

fn run<'a>(alloc: Global) -> Result<clap::Command<'a>, AllocError>
    ensures app { IfOk result (λ c. app_of c ≡ run_line) }
    ensures local { IfOk result (λ c. (fields_of c).has_globals ≡ false) }
{
    let workers = Arg::new(alloc, WORKERS)
        .long(WORKERS)
        .value_name("N")
        .help("How many threads decide, 1 to 16")
        .value_parser(value_parser!(u32).range(1..=16))
        .default_value("1")
        .action(ArgAction::Set);
    clap::Command::new(alloc, "run")
        .about("Decides the requests of a job's tasks")
        .override_usage("aamediate run [--workers <N>] < JOB")
        .after_help(RUN)
        .arg(workers)
}

fn replay<'a>(alloc: Global) -> clap::Command<'a>
    ensures app { app_of result ≡ new_app (codes "replay") }
    ensures local { (fields_of result).has_globals ≡ false }
{
    clap::Command::new(alloc, "replay")
        .about("Makes the events of a job happen, and says what each was answered")
        .override_usage("aamediate replay < JOB")
        .after_help(REPLAY)
}

fn program<'a>(alloc: Global) -> clap::Command<'a>
    ensures app { app_of result ≡ bare_line }
    ensures local { (fields_of result).has_globals ≡ false }
{
    clap::Command::new(alloc, "aamediate")
        .version(VERSION)
        .about("Decides what AppArmor profiles permit: reads a job from standard input")
        .override_usage("aamediate <COMMAND> < JOB")
        .after_help(JOB)
        .subcommand_required(true)
}

fn command_line<'a>(alloc: Global) -> Result<clap::Command<'a>, AllocError>
    ensures app { IfOk result (λ c. app_of c ≡ program_line) }
    ensures local { IfOk result (λ c. (fields_of c).has_globals ≡ false) }
{
    program(alloc)
        .subcommand(check(alloc))?
        .subcommand(run(alloc)?)?
        .subcommand(replay(alloc))
}

/// Whether the subcommand of that name is met.
fn is_named(matches: &ArgMatches, name: &str) -> bool
    ensures { IsTrue result ↔ (subcommand_name_of matches.now ≡ Some name.now) }
{
    matches.subcommand_matches(name).is_some()
}

/// The number of workers that is given; one where there is none.
fn workers_of(matches: Option<&ArgMatches>) -> u32
    ensures within { IsWorkers result }
    ensures asked { IfSome (option_map (λ m. m.now) matches.entry) (λ m. AsksFor (one_text (found_of m) (codes "workers")) result) }
{
    let given = match matches {
        Some(matches) => matches.get_one::<u32>(WORKERS).unwrap_or(1),
        None => 1,
    };
    given.clamp(1, 16)
}

/// The command that the words of a command line name; the first word is the program's name.
pub fn command_named(alloc: Global, words: &[String]) -> Result<Command, Error>
    ensures within { IfOk result IsAskable }
    ensures asked { IfOk result (IsAskedBy (map string_bytes words.now)) }
{
    let matches = command_line(alloc)?.try_get_matches_from(words)?;
    if is_named(&matches, "check") {
        return Ok(Command::Check);
    }
    if is_named(&matches, "replay") {
        return Ok(Command::Replay);
    }
    Ok(Command::Run(workers_of(matches.subcommand_matches("run"))))
}
