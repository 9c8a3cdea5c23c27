//! The command line.

use aa_files::searched_folders;
use clap::error::Error;
use clap::{Arg, ArgAction, ArgMatches, Command};
use std::alloc::{AllocError, Global};

/// Where policies lie, unless another folder is named.
const BASE: &str = "/etc/apparmor.d";

/// The version of the program.
const VERSION: &str = "0.1.0";

/// How many states an automaton may have, unless another number is given.
const STATES: u32 = 65535;

/// The most states that may be allowed.
const MOST_STATES: u32 = 1_000_000;

const CHECK: &str =
    "Reads and compiles profiles, says what is wrong and where, and counts their rules, as in: aapolicy check /etc/apparmor.d/usr.sbin.cupsd";

const ASK: &str =
    "Decides requests, and names the rules that decided, as in: aapolicy ask /etc/apparmor.d/usr.sbin.cupsd r:/etc/passwd x:/bin/sh cap:net_admin";

const DIFF: &str =
    "Says which requests two policies answer differently, and names the rules, as in: aapolicy diff --old-base old/apparmor.d -b new/apparmor.d old/apparmor.d new/apparmor.d";

const WHO: &str =
    "Says which profiles' rules allow what is asked, all of it or some, as in: aapolicy who /etc/apparmor.d 'w:/home/**' cap:sys_admin";

const ASSERT: &str =
    "Says which claims on what is allowed are broken, by whom, and names the rules, as in: aapolicy assert claims /etc/apparmor.d";

const REACH: &str =
    "Says which labels a task can get to, each by a shortest list of requests, as in: aapolicy reach /etc/apparmor.d --from web --to unconfined";

const LINT: &str =
    "Says what a policy allows and is seldom meant, as in: aapolicy lint /etc/apparmor.d/usr.sbin.cupsd";

const REDUNDANT: &str =
    "Says without which rules every reply stays as it is, as in: aapolicy redundant /etc/apparmor.d";

const JOB: &str =
    "Prints the job that aamediate run decides alike, as in: aapolicy job /etc/apparmor.d/usr.sbin.cupsd --log /var/log/kern.log";

const LOG: &str =
    "Says what a log's lines ask, and how a policy answers them now, as in: aapolicy log /var/log/kern.log --against /etc/apparmor.d/usr.sbin.cupsd";

const MERGE: &str =
    "Makes one report of what log --json printed of parts of logs, as in: aapolicy merge out/000001.json out/000002.json";

/// The exit statuses, and where more stands.
const STATUSES: &str = "Exit status, where several hold the first:
  2  the command line is refused
  3  a file or folder can't be read, the output can't be written, or memory ran out
  1  a policy is refused, what is asked for isn't there, or a line of a log isn't understood
  4  all was read, and the answer is no
  5  files that are skipped could change the answer
  141  whoever reads the answers has gone before they were all written
  0  else

docs/AAPOLICY.md has what each command reads and prints, docs/FAULTS.md what is refused.";

/// How an argument is written.
#[derive(Clone, Copy)]
enum Form {
    /// As words, if any.
    Words,
    /// As a word, which must be there.
    NeededWord,
    /// As words, of which one must be there.
    NeededWords,
    /// By its name and a value, which help calls so.
    Value(&'static str),
    /// The same, once or more often.
    Values(&'static str),
    /// By its name alone.
    Flag,
}

/// An argument of a command.
struct Argument {
    name: &'static str,
    /// Its short name.
    letter: Option<char>,
    form: Form,
    /// The argument that may not stand beside it.
    barred: Option<&'static str>,
    help: &'static str,
}

/// What each command takes that reads policies, behind its own arguments.
const POLICY_ARGUMENTS: &[Argument] = &[
    Argument {
        name: "base",
        letter: Some('b'),
        form: Form::Value("DIR"),
        barred: None,
        help: "The folder in which includes are searched last [default: /etc/apparmor.d]",
    },
    Argument {
        name: "Include",
        letter: Some('I'),
        form: Form::Values("DIR"),
        barred: None,
        help: "A folder in which includes are searched before, in the order of these",
    },
    Argument {
        name: "states",
        letter: None,
        form: Form::Value("N"),
        barred: None,
        help: "How many states an automaton may have, 1 to 1000000 [default: 65535]",
    },
    Argument {
        name: "stdin-name",
        letter: None,
        form: Form::Value("PATH"),
        barred: None,
        help: "What standard input is called, where - is read as a text: that path stands for it",
    },
];

/// What each command takes that goes on beside files that are refused, behind its own arguments.
const SKIPPING_ARGUMENTS: &[Argument] = &[
    Argument {
        name: "skip-refused",
        letter: None,
        form: Form::Flag,
        barred: None,
        help: "Skip files that are refused; what their profiles could change is undecided, with the exit status 5",
    },
    Argument {
        name: "undecided",
        letter: None,
        form: Form::Value("ok"),
        barred: None,
        help: "Take the exit status 0 for 5",
    },
];

/// What `check` takes.
const CHECK_ARGUMENTS: &[Argument] = &[
    Argument {
        name: "PROFILE",
        letter: None,
        form: Form::Words,
        barred: None,
        help: "A file with profiles, or a folder of such files; - is standard input [default: the base folder]",
    },
    Argument {
        name: "format",
        letter: None,
        form: Form::Value("FORM"),
        barred: Some("json"),
        help: "How to answer: text, json, gcc (PATH:LINE:COLUMN: error: SENTENCE, a line each) or sarif (version 2.1.0) [default: text]",
    },
    Argument {
        name: "json",
        letter: None,
        form: Form::Flag,
        barred: None,
        help: "Answer in JSON, as --format json",
    },
    Argument {
        name: "quiet",
        letter: Some('q'),
        form: Form::Flag,
        barred: None,
        help: "Print only faults",
    },
];

/// Whether unclean paths count.
const UNCLEAN: Argument = Argument {
    name: "unclean",
    letter: None,
    form: Form::Flag,
    barred: None,
    help: "Count paths that no kernel asks for, with a component that is empty, . or .., as others",
};

/// What `diff` takes.
const DIFF_ARGUMENTS: &[Argument] = &[
    Argument {
        name: "OLD",
        letter: None,
        form: Form::NeededWord,
        barred: None,
        help: "A file with profiles, or a folder of such files; - is standard input",
    },
    Argument {
        name: "NEW",
        letter: None,
        form: Form::NeededWord,
        barred: None,
        help: "What it is compared with",
    },
    Argument {
        name: "old-base",
        letter: None,
        form: Form::Value("DIR"),
        barred: None,
        help: "The folder in which includes of OLD are searched last [default: that of -b, which is for both then]",
    },
    Argument {
        name: "gains",
        letter: None,
        form: Form::Flag,
        barred: None,
        help: "Print only what is newly granted, and the rules that are passed over",
    },
    Argument {
        name: "profile",
        letter: None,
        form: Form::Values("NAME"),
        barred: None,
        help: "Print only lines of the profile with this full name, or of unconfined tasks; of each of these, where there are several",
    },
    UNCLEAN,
    Argument {
        name: "known",
        letter: None,
        form: Form::Value("FILE"),
        barred: None,
        help: "Leave out findings that stand in a file, as they are printed below the heading of their profile; those that aren't found are told",
    },
    Argument {
        name: "format",
        letter: None,
        form: Form::Value("FORM"),
        barred: Some("json"),
        help: "How to answer: text, json, html (one page, which fetches nothing and runs no script) or markdown (lists below headings, for a merge request) [default: text]",
    },
    Argument {
        name: "html",
        letter: None,
        form: Form::Flag,
        barred: Some("format"),
        help: "Answer by a page, as --format html",
    },
    Argument {
        name: "json",
        letter: None,
        form: Form::Flag,
        barred: Some("html"),
        help: "Answer in JSON, as --format json",
    },
];

/// What `ask` takes.
const ASK_ARGUMENTS: &[Argument] = &[
    Argument {
        name: "PROFILE",
        letter: None,
        form: Form::NeededWord,
        barred: None,
        help: "A file with profiles, or a folder of such files; - is standard input",
    },
    Argument {
        name: "WORD",
        letter: None,
        form: Form::Words,
        barred: None,
        help: "LETTERS:PATH, x:PATH, l:PATH->PATH, cap:NAME, net:FAMILY/TYPE or change:NAME; owned: before the first three where the object is the task's user's",
    },
    Argument {
        name: "also",
        letter: None,
        form: Form::Values("PROFILE"),
        barred: None,
        help: "More files with profiles, whose profiles are there too",
    },
    Argument {
        name: "profile",
        letter: None,
        form: Form::Value("NAME"),
        barred: None,
        help: "The profile that asks, or unconfined",
    },
    Argument {
        name: "program",
        letter: None,
        form: Form::Value("PATH"),
        barred: Some("profile"),
        help: "The program that asks, under the profile that it gets where an unconfined task executes it",
    },
    Argument {
        name: "from",
        letter: None,
        form: Form::Value("FILE"),
        barred: None,
        help: "Read requests from a file too, one a line",
    },
    Argument {
        name: "owned",
        letter: None,
        form: Form::Flag,
        barred: None,
        help: "Every object is the task's user's",
    },
    Argument {
        name: "sequence",
        letter: None,
        form: Form::Flag,
        barred: None,
        help: "The requests are one task's: an execution moves it",
    },
    Argument {
        name: "json",
        letter: None,
        form: Form::Flag,
        barred: None,
        help: "Answer in JSON",
    },
    Argument {
        name: "quiet",
        letter: Some('q'),
        form: Form::Flag,
        barred: None,
        help: "Print nothing: the exit status answers",
    },
];

/// What `lint` takes.
const LINT_ARGUMENTS: &[Argument] = &[
    Argument {
        name: "PROFILE",
        letter: None,
        form: Form::NeededWords,
        barred: None,
        help: "A file with profiles, or a folder of such files, which are one policy together; - is standard input",
    },
    Argument {
        name: "except",
        letter: None,
        form: Form::Values("NAME"),
        barred: None,
        help: "Leave out what is found by this name: unconfined-exec, write-exec, all-files, any-profile, duplicate, idle-deny or tie; of each of these, where there are several",
    },
    Argument {
        name: "known",
        letter: None,
        form: Form::Value("FILE"),
        barred: None,
        help: "Leave out findings that are lines of a file, as they are printed; lines that aren't found are told",
    },
    Argument {
        name: "format",
        letter: None,
        form: Form::Value("FORM"),
        barred: Some("json"),
        help: "How to answer: text, json, gcc (PATH:LINE:COLUMN: warning: SENTENCE [NAME], a line each) or sarif (version 2.1.0) [default: text]",
    },
    Argument {
        name: "json",
        letter: None,
        form: Form::Flag,
        barred: None,
        help: "Answer in JSON, as --format json",
    },
];

/// What `redundant` takes.
const REDUNDANT_ARGUMENTS: &[Argument] = &[
    Argument {
        name: "PROFILE",
        letter: None,
        form: Form::NeededWords,
        barred: None,
        help: "A file with profiles, or a folder of such files, which are one policy together; - is standard input",
    },
    Argument {
        name: "known",
        letter: None,
        form: Form::Value("FILE"),
        barred: None,
        help: "Leave out redundant rules whose lines stand in a file, as they are printed; lines that aren't found are told",
    },
    Argument {
        name: "format",
        letter: None,
        form: Form::Value("FORM"),
        barred: Some("json"),
        help: "How to answer: text, json, gcc (PATH:LINE:COLUMN: warning: SENTENCE [redundant], a line each) or sarif (version 2.1.0) [default: text]",
    },
    Argument {
        name: "json",
        letter: None,
        form: Form::Flag,
        barred: None,
        help: "Answer in JSON, as --format json",
    },
];

/// What `who` takes.
const WHO_ARGUMENTS: &[Argument] = &[
    Argument {
        name: "PROFILE",
        letter: None,
        form: Form::NeededWord,
        barred: None,
        help: "A file with profiles, or a folder of such files, which are one policy together; - is standard input",
    },
    Argument {
        name: "WORD",
        letter: None,
        form: Form::Words,
        barred: None,
        help: "[owned:|other:]LETTERS:PATTERN, with letters of rwakm, w to write or to append, or x to execute, and a pattern that begins with / and has no variable; cap:NAME, net:FAMILY/TYPE, change:NAME",
    },
    Argument {
        name: "also",
        letter: None,
        form: Form::Values("PROFILE"),
        barred: None,
        help: "More files with profiles, whose profiles are there too",
    },
    UNCLEAN,
    Argument {
        name: "json",
        letter: None,
        form: Form::Flag,
        barred: None,
        help: "Answer in JSON",
    },
    Argument {
        name: "quiet",
        letter: Some('q'),
        form: Form::Flag,
        barred: Some("json"),
        help: "Print nothing: the exit status answers",
    },
];

/// What `assert` takes.
const ASSERT_ARGUMENTS: &[Argument] = &[
    Argument {
        name: "CLAIMS",
        letter: None,
        form: Form::NeededWord,
        barred: None,
        help: "A file of claims, one a line: never WORD, with in NAME.., except NAME.. or to NAME.. behind it, always WORD, with in NAME.. or not, always enforced, or never reach NAME.. from NAME..; - is standard input",
    },
    Argument {
        name: "PROFILE",
        letter: None,
        form: Form::NeededWords,
        barred: None,
        help: "A file with profiles, or a folder of such files, which are one policy together; - is standard input",
    },
    Argument {
        name: "first",
        letter: None,
        form: Form::Flag,
        barred: None,
        help: "Print of each claim only the first by whom it is broken",
    },
    UNCLEAN,
    Argument {
        name: "format",
        letter: None,
        form: Form::Value("FORM"),
        barred: Some("json"),
        help: "How to answer: text, json, gcc (CLAIMS:LINE:1: error: SENTENCE [KIND], a line each, and a note for each rule) or sarif (version 2.1.0) [default: text]",
    },
    Argument {
        name: "json",
        letter: None,
        form: Form::Flag,
        barred: None,
        help: "Answer in JSON, as --format json",
    },
];

/// What `reach` takes.
const REACH_ARGUMENTS: &[Argument] = &[
    Argument {
        name: "PROFILE",
        letter: None,
        form: Form::NeededWords,
        barred: None,
        help: "A file with profiles, or a folder of such files, which are one policy together; - is standard input",
    },
    Argument {
        name: "from",
        letter: None,
        form: Form::Values("LABEL"),
        barred: None,
        help: "Where the task begins: a profile's full name, in which * stands for any bytes, or unconfined; each of these, where there are several",
    },
    Argument {
        name: "to",
        letter: None,
        form: Form::Value("LABEL"),
        barred: Some("dot"),
        help: "Print only the lists that lead to this label, or no: the exit status is 4 if one does",
    },
    Argument {
        name: "as-enforced",
        letter: None,
        form: Form::Flag,
        barred: None,
        help: "Leave out what complain mode alone grants",
    },
    UNCLEAN,
    Argument {
        name: "dot",
        letter: None,
        form: Form::Flag,
        barred: Some("json"),
        help: "Print the graph of all labels for Graphviz, each edge with a request",
    },
    Argument {
        name: "html",
        letter: None,
        form: Form::Flag,
        barred: Some("dot"),
        help: "Answer by one page of HTML with the graph of all labels, which fetches nothing and runs no script",
    },
    Argument {
        name: "json",
        letter: None,
        form: Form::Flag,
        barred: Some("html"),
        help: "Answer in JSON",
    },
];

/// What chooses lines of logs.
const CHOICE_ARGUMENTS: &[Argument] = &[
    Argument {
        name: "profile",
        letter: None,
        form: Form::Values("NAME"),
        barred: None,
        help: "Read only lines of the profile with this full name; of each of these, where there are several",
    },
    Argument {
        name: "since",
        letter: None,
        form: Form::Value("SECONDS"),
        barred: None,
        help: "Read only lines whose stamp has this second since 1970 or a later one",
    },
    Argument {
        name: "until",
        letter: None,
        form: Form::Value("SECONDS"),
        barred: None,
        help: "Read only lines whose stamp has this second since 1970 or an earlier one",
    },
];

/// What `job` takes, before the choice of lines.
const JOB_ARGUMENTS: &[Argument] = &[
    Argument {
        name: "PROFILE",
        letter: None,
        form: Form::NeededWords,
        barred: None,
        help: "A file with profiles, or a folder of such files, each a policy of its own; - is standard input",
    },
    Argument {
        name: "log",
        letter: None,
        form: Form::Values("FILE"),
        barred: None,
        help: "A log whose lines become the job's tasks",
    },
    Argument {
        name: "json",
        letter: None,
        form: Form::Flag,
        barred: None,
        help: "Tell in JSON too why there is no job",
    },
];

/// What `log` takes, before the choice of lines.
const LOG_ARGUMENTS: &[Argument] = &[
    Argument {
        name: "FILE",
        letter: None,
        form: Form::NeededWords,
        barred: None,
        help: "A log; - is standard input",
    },
    Argument {
        name: "against",
        letter: None,
        form: Form::Values("PROFILE"),
        barred: None,
        help: "A file or folder whose profiles answer what was asked; all of them together, where there are several",
    },
    Argument {
        name: "all",
        letter: None,
        form: Form::Flag,
        barred: None,
        help: "With --against, print what stays, too",
    },
    Argument {
        name: "skipped",
        letter: None,
        form: Form::Flag,
        barred: None,
        help: "Print the place of each line that is skipped",
    },
    Argument {
        name: "json",
        letter: None,
        form: Form::Flag,
        barred: None,
        help: "Answer in JSON",
    },
];

/// What `merge` takes.
const MERGE_ARGUMENTS: &[Argument] = &[
    Argument {
        name: "PART",
        letter: None,
        form: Form::Words,
        barred: None,
        help: "A file with what log --json printed, in the order of the logs; - is standard input",
    },
    Argument {
        name: "parts",
        letter: None,
        form: Form::Value("FILE"),
        barred: None,
        help: "A file with the paths of more parts, one a line; - is standard input",
    },
    Argument {
        name: "json",
        letter: None,
        form: Form::Flag,
        barred: None,
        help: "Answer in JSON, which is a part again",
    },
];

fn action_of(form: Form) -> ArgAction {
    match form {
        Form::Words | Form::NeededWords | Form::Values(_) => ArgAction::Append,
        Form::NeededWord | Form::Value(_) => ArgAction::Set,
        Form::Flag => ArgAction::SetTrue,
    }
}

fn is_needed(form: Form) -> bool {
    matches!(form, Form::NeededWord | Form::NeededWords)
}

/// The name that help gives to a value.
fn value_of(form: Form) -> Option<&'static str> {
    match form {
        Form::Value(name) | Form::Values(name) => Some(name),
        _ => None,
    }
}

fn is_word(form: Form) -> bool {
    matches!(form, Form::Words | Form::NeededWord | Form::NeededWords)
}

fn with_value<'a>(argument: Arg<'a>, name: Option<&'static str>) -> Arg<'a> {
    match name {
        Some(name) => argument.value_name(name),
        None => argument,
    }
}

fn with_name<'a>(argument: Arg<'a>, row: &Argument) -> Arg<'a> {
    if is_word(row.form) {
        argument
    } else {
        argument.long(row.name)
    }
}

fn with_letter<'a>(argument: Arg<'a>, letter: Option<char>) -> Arg<'a> {
    match letter {
        Some(letter) => argument.short(letter),
        None => argument,
    }
}

fn argument_of<'a>(alloc: Global, row: &Argument) -> Result<Arg<'a>, AllocError> {
    let argument = Arg::new(alloc, row.name)
        .help(row.help)
        .action(action_of(row.form))
        .required(is_needed(row.form));
    let argument = with_value(with_name(argument, row), value_of(row.form));
    let argument = with_letter(argument, row.letter);
    match row.barred {
        Some(other) => argument.conflicts_with(other),
        None => Ok(argument),
    }
}

fn with_arguments<'a>(
    alloc: Global,
    command: Command<'a>,
    rows: &[Argument],
) -> Result<Command<'a>, AllocError> {
    let mut command = command;
    for row in rows {
        let argument = argument_of(alloc, row)?;
        command = command.arg(argument)?;
    }
    Ok(command)
}

/// A command.
struct Named {
    name: &'static str,
    about: &'static str,
    arguments: &'static [Argument],
    /// What it takes besides, before what each command takes that reads policies.
    more: &'static [Argument],
    reads_policies: bool,
    /// Whether it goes on beside files that are refused.
    skips: bool,
}

/// The commands on policies as they are.
const POLICY_COMMANDS: &[Named] = &[
    Named {
        name: "check",
        about: CHECK,
        arguments: CHECK_ARGUMENTS,
        more: &[],
        reads_policies: true,
        skips: false,
    },
    Named {
        name: "diff",
        about: DIFF,
        arguments: DIFF_ARGUMENTS,
        more: &[],
        reads_policies: true,
        skips: true,
    },
    Named {
        name: "job",
        about: JOB,
        arguments: JOB_ARGUMENTS,
        more: CHOICE_ARGUMENTS,
        reads_policies: true,
        skips: false,
    },
];

/// The commands on what is asked.
const REQUEST_COMMANDS: &[Named] = &[
    Named {
        name: "ask",
        about: ASK,
        arguments: ASK_ARGUMENTS,
        more: &[],
        reads_policies: true,
        skips: true,
    },
    Named {
        name: "who",
        about: WHO,
        arguments: WHO_ARGUMENTS,
        more: &[],
        reads_policies: true,
        skips: true,
    },
    Named {
        name: "assert",
        about: ASSERT,
        arguments: ASSERT_ARGUMENTS,
        more: &[],
        reads_policies: true,
        skips: true,
    },
    Named {
        name: "reach",
        about: REACH,
        arguments: REACH_ARGUMENTS,
        more: &[],
        reads_policies: true,
        skips: true,
    },
];

/// The commands on rules.
const RULE_COMMANDS: &[Named] = &[
    Named {
        name: "lint",
        about: LINT,
        arguments: LINT_ARGUMENTS,
        more: &[],
        reads_policies: true,
        skips: true,
    },
    Named {
        name: "redundant",
        about: REDUNDANT,
        arguments: REDUNDANT_ARGUMENTS,
        more: &[],
        reads_policies: true,
        skips: true,
    },
];

/// The commands on logs.
const LOG_COMMANDS: &[Named] = &[
    Named {
        name: "log",
        about: LOG,
        arguments: LOG_ARGUMENTS,
        more: CHOICE_ARGUMENTS,
        reads_policies: true,
        skips: true,
    },
    Named {
        name: "merge",
        about: MERGE,
        arguments: MERGE_ARGUMENTS,
        more: &[],
        reads_policies: false,
        skips: false,
    },
];

fn skipping_arguments(skips: bool) -> &'static [Argument] {
    if skips { SKIPPING_ARGUMENTS } else { &[] }
}

/// The command with all that it takes.
fn with_all_arguments<'a>(
    alloc: Global,
    command: Command<'a>,
    row: &Named,
) -> Result<Command<'a>, AllocError> {
    let command = with_arguments(alloc, command, row.arguments)?;
    let command = with_arguments(alloc, command, skipping_arguments(row.skips))?;
    let command = with_arguments(alloc, command, row.more)?;
    if row.reads_policies {
        with_arguments(alloc, command, POLICY_ARGUMENTS)
    } else {
        Ok(command)
    }
}

/// The program, with no command yet.
fn program<'a>(alloc: Global) -> Command<'a> {
    Command::new(alloc, "aapolicy")
        .about("Reads AppArmor policies as they lie in files, and logs of what was asked")
        .version(VERSION)
        .subcommand_required(true)
        .after_help(STATUSES)
}

/// Whether a command's name is one of the words. None is called otherwise, nor is its help asked for.
fn is_among(words: &[String], name: &str) -> bool {
    for word in words {
        if word.as_str() == name {
            return true;
        }
    }
    false
}

/// The command with what it takes, where these words may call it, and else by its name alone.
fn command_of<'a>(alloc: Global, row: &Named, words: &[String]) -> Result<Command<'a>, AllocError> {
    let command = Command::new(alloc, row.name).about(row.about);
    if is_among(words, row.name) {
        with_all_arguments(alloc, command, row)
    } else {
        Ok(command)
    }
}

fn with_command<'a>(
    alloc: Global,
    program: Command<'a>,
    row: &Named,
    words: &[String],
) -> Result<Command<'a>, AllocError> {
    program.subcommand(command_of(alloc, row, words)?)
}

fn policy_commands() -> &'static [Named] {
    POLICY_COMMANDS
}

fn request_commands() -> &'static [Named] {
    REQUEST_COMMANDS
}

fn rule_commands() -> &'static [Named] {
    RULE_COMMANDS
}

fn log_commands() -> &'static [Named] {
    LOG_COMMANDS
}

fn with_commands<'a>(
    alloc: Global,
    program: Command<'a>,
    rows: &[Named],
    words: &[String],
) -> Result<Command<'a>, AllocError> {
    let mut program = program;
    for row in rows {
        program = with_command(alloc, program, row, words)?;
    }
    Ok(program)
}

/// The program with its commands, in the order of help, as these words need it.
fn command_line<'a>(alloc: Global, words: &[String]) -> Result<Command<'a>, AllocError> {
    let program = with_commands(alloc, program(alloc), policy_commands(), words)?;
    let program = with_commands(alloc, program, request_commands(), words)?;
    let program = with_commands(alloc, program, rule_commands(), words)?;
    with_commands(alloc, program, log_commands(), words)
}

/// The words of the command line, read. The first word is the program's name.
pub(crate) fn matches_of<'a>(alloc: Global, words: &'a [String]) -> Result<ArgMatches<'a>, Error> {
    command_line(alloc, words)?.try_get_matches_from(words)
}

/// The folder in which policies lie.
pub(crate) fn base_of<'a>(matches: &ArgMatches<'a>) -> &'a [u8] {
    matches.get_str("base").unwrap_or(BASE).as_bytes()
}

/// The folder in which includes of the old policy are searched last.
pub(crate) fn old_base_of<'a>(matches: &ArgMatches<'a>) -> &'a [u8] {
    match matches.get_str("old-base") {
        Some(base) => base.as_bytes(),
        None => base_of(matches),
    }
}

/// The folders in which includes are searched, in order, where that is the last.
pub(crate) fn folders_before<'a>(
    alloc: Global,
    matches: &ArgMatches<'a>,
    base: &'a [u8],
) -> Result<Vec<&'a [u8]>, AllocError> {
    let named = values_of(alloc, matches, "Include")?;
    searched_folders(alloc, named.as_slice(), base)
}

/// The folders in which includes are searched, in order.
pub(crate) fn folders_of<'a>(
    alloc: Global,
    matches: &ArgMatches<'a>,
) -> Result<Vec<&'a [u8]>, AllocError> {
    folders_before(alloc, matches, base_of(matches))
}

/// The values of an argument, as bytes.
pub(crate) fn values_of<'a>(
    alloc: Global,
    matches: &ArgMatches<'a>,
    id: &str,
) -> Result<Vec<&'a [u8]>, AllocError> {
    let mut values = Vec::new(alloc);
    if let Some(named) = matches.get_strs(id) {
        for value in named {
            values.push(value.as_bytes())?;
        }
    }
    Ok(values)
}

/// The values of an argument, copied.
pub(crate) fn copies_of(
    alloc: Global,
    matches: &ArgMatches<'_>,
    id: &str,
) -> Result<Vec<Vec<u8>>, AllocError> {
    let mut values = Vec::new(alloc);
    if let Some(named) = matches.get_strs(id) {
        for value in named {
            values.push(Vec::from_slice(alloc, value.as_bytes())?)?;
        }
    }
    Ok(values)
}

/// How many states an automaton may have; none where the number is none that may be given.
pub(crate) fn states_of(matches: &ArgMatches<'_>) -> Option<u32> {
    let Some(text) = matches.get_str("states") else {
        return Some(STATES);
    };
    match text.parse::<u32>() {
        Ok(states) if states >= 1 && states <= MOST_STATES => Some(states),
        _ => None,
    }
}

/// Whether undecided answers are taken for well; none where the word is none that may be given.
pub(crate) fn undecided_of(matches: &ArgMatches<'_>) -> Option<bool> {
    match matches.get_str("undecided") {
        None => Some(false),
        Some("ok") => Some(true),
        Some(_) => None,
    }
}

/// The second that an option gives, if it is there; none where it is no number.
pub(crate) fn second_of(matches: &ArgMatches<'_>, id: &str) -> Option<Option<u64>> {
    match matches.get_str(id) {
        Some(text) => match text.parse::<u64>() {
            Ok(second) => Some(Some(second)),
            Err(_) => None,
        },
        None => Some(None),
    }
}
