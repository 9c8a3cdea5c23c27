//! What the command line asks of each command.

use crate::command::{
    base_of, copies_of, folders_before, folders_of, old_base_of, second_of, states_of,
    undecided_of, values_of,
};
use crate::handed::Handed;
use crate::opened::{file_of, files_of, given_to, is_input};
use crate::progress::Progress;
use crate::watched::Watched;
use aa_against::log_skipping;
use aa_ask::{AskOptions, Manner, ask_files};
use aa_assert::{AssertOptions, assert_files};
use aa_check::{CheckOptions, Form, check_files};
use aa_command::{Output, Settings, in_json, refused};
use aa_diff::{DiffForm, DiffOptions, Wanted, diff_files};
use aa_job::{JobOptions, job_files};
use aa_lint::{LintOptions, lint_files};
use aa_log::{LogOptions, log_files};
use aa_logs::{Choice, Form as Written, LogWord, name_of};
use aa_merge::{MergeOptions, merge_files};
use aa_reach::{ReachOptions, reach_files};
use aa_redundant::{RedundantOptions, redundant_files};
use aa_text::NoMemory;
use aa_undecided::ask_skipping;
use aa_who::{WhoOptions, who_files};
use clap::ArgMatches;
use std::alloc::{AllocError, Global};

/// The files and logs of the host, and who is told of their reading.
type Host<'a> = Watched<'a, HostRuntime, Progress<'a>>;

/// The exit status of undecided answers.
const UNDECIDED: u8 = 5;

/// The value of an option as bytes, if it is there.
fn value_of<'a>(matches: &ArgMatches<'a>, id: &str) -> Option<&'a [u8]> {
    match matches.get_str(id) {
        Some(value) => Some(value.as_bytes()),
        None => None,
    }
}

/// The form of the answer that is wanted; none where there is no such form.
fn form_of(matches: &ArgMatches<'_>) -> Option<Form> {
    if matches.get_flag("json") {
        return Some(Form::Json);
    }
    match matches.get_str("format") {
        None | Some("text") => Some(Form::Text),
        Some("json") => Some(Form::Json),
        Some("gcc") => Some(Form::Gcc),
        Some("sarif") => Some(Form::Sarif),
        Some(_) => None,
    }
}

/// Says which forms there are.
fn form_refused(alloc: Global) -> Result<Output, NoMemory> {
    refused(alloc, "error: --format takes text, json, gcc or sarif\n", 2)
}

/// The form in which differences are wanted; none where there is no such form.
fn diff_form_of(matches: &ArgMatches<'_>) -> Option<DiffForm> {
    if matches.get_flag("json") {
        return Some(DiffForm::Json);
    }
    if matches.get_flag("html") {
        return Some(DiffForm::Html);
    }
    match matches.get_str("format") {
        None | Some("text") => Some(DiffForm::Text),
        Some("json") => Some(DiffForm::Json),
        Some("html") => Some(DiffForm::Html),
        Some("markdown") => Some(DiffForm::Markdown),
        Some(_) => None,
    }
}

/// Says in which forms differences are told.
fn diff_form_refused(alloc: Global) -> Result<Output, NoMemory> {
    refused(
        alloc,
        "error: --format takes text, json, html or markdown\n",
        2,
    )
}

fn run_check(
    rt: &HostRuntime,
    tree: &Handed<'_, Host<'_>>,
    matches: &ArgMatches<'_>,
    settings: &Settings<'_>,
) -> Result<Output, NoMemory> {
    let alloc = rt.alloc();
    let mut files = files_of(alloc, matches, "PROFILE")?;
    if files.is_empty() {
        files.push(Vec::from_slice(alloc, settings.base)?)?;
    }
    let Some(form) = form_of(matches) else {
        return form_refused(alloc);
    };
    let options = CheckOptions {
        files: files.as_slice(),
        form,
        is_quiet: matches.get_flag("quiet"),
    };
    check_files(alloc, tree, settings, &options)
}

/// The files with profiles of `ask` and of `who`.
fn asked_files(alloc: Global, matches: &ArgMatches<'_>) -> Result<Vec<Vec<u8>>, AllocError> {
    let mut files = files_of(alloc, matches, "PROFILE")?;
    files.append(&mut files_of(alloc, matches, "also")?)?;
    Ok(files)
}

fn run_ask(
    rt: &HostRuntime,
    tree: &Handed<'_, Host<'_>>,
    matches: &ArgMatches<'_>,
    settings: &Settings<'_>,
) -> Result<Output, NoMemory> {
    let alloc = rt.alloc();
    let files = asked_files(alloc, matches)?;
    let options = AskOptions {
        files: files.as_slice(),
        from: file_of(matches, "from"),
        manner: Manner {
            profile: value_of(matches, "profile"),
            program: value_of(matches, "program"),
            owned: matches.get_flag("owned"),
            is_sequence: matches.get_flag("sequence"),
        },
        is_json: matches.get_flag("json"),
        is_quiet: matches.get_flag("quiet"),
    };
    let words = copies_of(alloc, matches, "WORD")?;
    if matches.get_flag("skip-refused") {
        return ask_skipping(alloc, tree, settings, &options, words);
    }
    ask_files(alloc, tree, settings, &options, words)
}

fn run_diff(
    rt: &HostRuntime,
    tree: &Handed<'_, Host<'_>>,
    matches: &ArgMatches<'_>,
    settings: &Settings<'_>,
) -> Result<Output, NoMemory> {
    let alloc = rt.alloc();
    let old = files_of(alloc, matches, "OLD")?;
    let new = files_of(alloc, matches, "NEW")?;
    let profiles = profiles_of(alloc, matches)?;
    let names = copies_of(alloc, matches, "profile")?;
    let base = old_base_of(matches);
    let folders = folders_before(alloc, matches, base)?;
    let before = Settings {
        base,
        folders: folders.as_slice(),
        states: settings.states,
    };
    let wanted = Wanted {
        gains: matches.get_flag("gains"),
        profiles: profiles.as_slice(),
        names: names.as_slice(),
    };
    let Some(form) = diff_form_of(matches) else {
        return diff_form_refused(alloc);
    };
    let options = DiffOptions {
        old: old.as_slice(),
        new: new.as_slice(),
        wanted,
        form,
        skips: matches.get_flag("skip-refused"),
        accepted: &[],
        known: file_of(matches, "known"),
        unclean: matches.get_flag("unclean"),
    };
    diff_files(alloc, tree, tree, &before, settings, &options)
}

fn run_who(
    rt: &HostRuntime,
    tree: &Handed<'_, Host<'_>>,
    matches: &ArgMatches<'_>,
    settings: &Settings<'_>,
) -> Result<Output, NoMemory> {
    let alloc = rt.alloc();
    let files = asked_files(alloc, matches)?;
    let words = copies_of(alloc, matches, "WORD")?;
    let options = WhoOptions {
        files: files.as_slice(),
        words: words.as_slice(),
        is_json: matches.get_flag("json"),
        is_quiet: matches.get_flag("quiet"),
        skips: matches.get_flag("skip-refused"),
        unclean: matches.get_flag("unclean"),
    };
    who_files(alloc, tree, settings, &options)
}

fn run_assert(
    rt: &HostRuntime,
    tree: &Handed<'_, Host<'_>>,
    matches: &ArgMatches<'_>,
    settings: &Settings<'_>,
) -> Result<Output, NoMemory> {
    let alloc = rt.alloc();
    let files = files_of(alloc, matches, "PROFILE")?;
    let Some(form) = form_of(matches) else {
        return form_refused(alloc);
    };
    let options = AssertOptions {
        claims: file_of(matches, "CLAIMS").unwrap_or("-".as_bytes()),
        files: files.as_slice(),
        is_first: matches.get_flag("first"),
        unclean: matches.get_flag("unclean"),
        form,
        skips: matches.get_flag("skip-refused"),
    };
    assert_files(alloc, tree, settings, &options)
}

fn run_reach(
    rt: &HostRuntime,
    tree: &Handed<'_, Host<'_>>,
    matches: &ArgMatches<'_>,
    settings: &Settings<'_>,
) -> Result<Output, NoMemory> {
    let alloc = rt.alloc();
    let files = files_of(alloc, matches, "PROFILE")?;
    let from = copies_of(alloc, matches, "from")?;
    let options = ReachOptions {
        files: files.as_slice(),
        from: from.as_slice(),
        to: value_of(matches, "to"),
        as_enforced: matches.get_flag("as-enforced"),
        is_json: matches.get_flag("json"),
        is_dot: matches.get_flag("dot"),
        is_html: matches.get_flag("html"),
        skips: matches.get_flag("skip-refused"),
        unclean: matches.get_flag("unclean"),
    };
    reach_files(alloc, tree, settings, &options)
}

fn run_lint(
    rt: &HostRuntime,
    tree: &Handed<'_, Host<'_>>,
    matches: &ArgMatches<'_>,
    settings: &Settings<'_>,
) -> Result<Output, NoMemory> {
    let alloc = rt.alloc();
    let files = files_of(alloc, matches, "PROFILE")?;
    let except = copies_of(alloc, matches, "except")?;
    let Some(form) = form_of(matches) else {
        return form_refused(alloc);
    };
    let options = LintOptions {
        files: files.as_slice(),
        except: except.as_slice(),
        known: file_of(matches, "known"),
        form,
        skips: matches.get_flag("skip-refused"),
    };
    lint_files(alloc, tree, settings, &options)
}

fn run_redundant(
    rt: &HostRuntime,
    tree: &Handed<'_, Host<'_>>,
    matches: &ArgMatches<'_>,
    settings: &Settings<'_>,
) -> Result<Output, NoMemory> {
    let alloc = rt.alloc();
    let files = files_of(alloc, matches, "PROFILE")?;
    let Some(form) = form_of(matches) else {
        return form_refused(alloc);
    };
    let options = RedundantOptions {
        files: files.as_slice(),
        known: file_of(matches, "known"),
        form,
        skips: matches.get_flag("skip-refused"),
    };
    redundant_files(alloc, tree, settings, &options)
}

fn run_log(
    rt: &HostRuntime,
    tree: &Handed<'_, Host<'_>>,
    matches: &ArgMatches<'_>,
    settings: &Settings<'_>,
    choice: Choice<'_>,
) -> Result<Output, NoMemory> {
    let alloc = rt.alloc();
    let logs = values_of(alloc, matches, "FILE")?;
    let against = files_of(alloc, matches, "against")?;
    let options = LogOptions {
        logs: logs.as_slice(),
        choice,
        wants_skipped: matches.get_flag("skipped"),
        against: against.as_slice(),
        wants_all: matches.get_flag("all"),
        is_json: matches.get_flag("json"),
    };
    if !matches.get_flag("skip-refused") {
        return log_files(alloc, tree, tree.tree, settings, &options);
    }
    if options.against.is_empty() {
        return refused(alloc, "error: --skip-refused takes --against\n", 2);
    }
    log_skipping(alloc, tree, tree.tree, settings, &options)
}

fn run_job(
    rt: &HostRuntime,
    tree: &Handed<'_, Host<'_>>,
    matches: &ArgMatches<'_>,
    settings: &Settings<'_>,
    choice: Choice<'_>,
) -> Result<Output, NoMemory> {
    let alloc = rt.alloc();
    let files = files_of(alloc, matches, "PROFILE")?;
    let logs = values_of(alloc, matches, "log")?;
    let options = JobOptions {
        files: files.as_slice(),
        logs: logs.as_slice(),
        choice,
    };
    job_files(alloc, tree, tree.tree, settings, &options)
}

/// Which lines of logs the command line wants, of profiles of these names; none where a second is no number.
fn choice_of<'a>(matches: &ArgMatches<'_>, profiles: &'a [Vec<u8>]) -> Option<Choice<'a>> {
    Some(Choice {
        profiles,
        since: second_of(matches, "since")?,
        until: second_of(matches, "until")?,
    })
}

/// The names of profiles whose lines are wanted: each as it stands, and what it is in hexadecimal digits, as names are printed that
/// hold other bytes.
fn profiles_of(alloc: Global, matches: &ArgMatches<'_>) -> Result<Vec<Vec<u8>>, AllocError> {
    let mut profiles = copies_of(alloc, matches, "profile")?;
    for name in values_of(alloc, matches, "profile")? {
        let word = LogWord {
            form: Written::Plain,
            key: &[],
            text: name,
        };
        profiles.push(name_of(alloc, &word)?)?;
    }
    Ok(profiles)
}

/// Does what a command that reads logs asks, or says why not.
fn run_with_logs(
    rt: &HostRuntime,
    tree: &Handed<'_, Host<'_>>,
    name: &str,
    matches: &ArgMatches<'_>,
    settings: &Settings<'_>,
) -> Result<Output, NoMemory> {
    let alloc = rt.alloc();
    let profiles = profiles_of(alloc, matches)?;
    let Some(choice) = choice_of(matches, profiles.as_slice()) else {
        let line = "error: --since and --until take a number of seconds\n";
        return refused(alloc, line, 2);
    };
    match name {
        "job" => run_job(rt, tree, matches, settings, choice),
        _ => run_log(rt, tree, matches, settings, choice),
    }
}

/// Does what the command line asks, or says why not.
fn run_wanted(
    rt: &HostRuntime,
    tree: &Handed<'_, Host<'_>>,
    name: &str,
    matches: &ArgMatches<'_>,
    settings: &Settings<'_>,
) -> Result<Output, NoMemory> {
    match name {
        "check" => run_check(rt, tree, matches, settings),
        "ask" => run_ask(rt, tree, matches, settings),
        "diff" => run_diff(rt, tree, matches, settings),
        "who" => run_who(rt, tree, matches, settings),
        "assert" => run_assert(rt, tree, matches, settings),
        "reach" => run_reach(rt, tree, matches, settings),
        "lint" => run_lint(rt, tree, matches, settings),
        "redundant" => run_redundant(rt, tree, matches, settings),
        _ => run_with_logs(rt, tree, name, matches, settings),
    }
}

/// The arguments of a command that name files, of which `-` is standard input.
fn file_arguments(name: &str) -> &'static [&'static str] {
    match name {
        "check" => &["PROFILE"],
        "ask" => &["PROFILE", "also", "from"],
        "diff" => &["OLD", "NEW", "known"],
        "who" => &["PROFILE", "also"],
        "assert" => &["CLAIMS", "PROFILE"],
        "reach" => &["PROFILE"],
        "lint" => &["PROFILE", "known"],
        "redundant" => &["PROFILE", "known"],
        "log" => &["FILE", "against"],
        "merge" => &["PART", "parts"],
        _ => &["PROFILE", "log"],
    }
}

/// How often the command line names standard input.
fn count_inputs(alloc: Global, name: &str, matches: &ArgMatches<'_>) -> Result<usize, AllocError> {
    let mut count: usize = 0;
    for id in file_arguments(name) {
        let values = values_of(alloc, matches, id)?;
        let inputs = values.iter().filter(|value| is_input(value)).count();
        count = count.saturating_add(inputs);
    }
    Ok(count)
}

/// Says that more than one file is standard input.
fn input_refused(alloc: Global) -> Result<Output, NoMemory> {
    refused(alloc, "error: standard input can be read once\n", 2)
}

/// The output with the status 0 for that of undecided answers, where these are taken for well.
fn taken(output: Output, undecided_is_well: bool) -> Output {
    if undecided_is_well && output.status == UNDECIDED {
        return Output {
            status: 0,
            ..output
        };
    }
    output
}

/// Does what a command asks that reads policies, or says why not.
fn run_with_policies(
    rt: &HostRuntime,
    name: &str,
    matches: &ArgMatches<'_>,
) -> Result<Output, NoMemory> {
    let alloc = rt.alloc();
    let folders = folders_of(alloc, matches)?;
    let Some(states) = states_of(matches) else {
        return refused(alloc, "error: --states takes a number, 1 to 1000000\n", 2);
    };
    let Some(undecided_is_well) = undecided_of(matches) else {
        return refused(alloc, "error: --undecided takes ok\n", 2);
    };
    if count_inputs(alloc, name, matches)? > 1 {
        return input_refused(alloc);
    }
    let settings = Settings {
        base: base_of(matches),
        folders: folders.as_slice(),
        states,
    };
    let given = given_to(rt, name, matches)?;
    let given = given.as_slice();
    let progress = Progress::new(rt);
    let host = Watched {
        inner: rt,
        watch: &progress,
    };
    let tree = Handed { tree: &host, given };
    let output = run_wanted(rt, &tree, name, matches, &settings);
    progress.end();
    Ok(taken(output?, undecided_is_well))
}

fn run_merge(rt: &HostRuntime, matches: &ArgMatches<'_>) -> Result<Output, NoMemory> {
    let alloc = rt.alloc();
    if count_inputs(alloc, "merge", matches)? > 1 {
        return input_refused(alloc);
    }
    let parts = copies_of(alloc, matches, "PART")?;
    let options = MergeOptions {
        parts: parts.as_slice(),
        list: value_of(matches, "parts"),
        is_json: matches.get_flag("json"),
    };
    merge_files(alloc, rt, rt, &options)
}

fn run_command(rt: &HostRuntime, name: &str, matches: &ArgMatches<'_>) -> Result<Output, NoMemory> {
    match name {
        "merge" => run_merge(rt, matches),
        _ => run_with_policies(rt, name, matches),
    }
}

/// Does what the command line asks.
pub(crate) fn run_named(rt: &HostRuntime, matches: &ArgMatches<'_>) -> Result<Output, NoMemory> {
    let Some((name, matches)) = matches.subcommand() else {
        return refused(rt.alloc(), "error: no command is given\n", 2);
    };
    let output = run_command(rt, name, matches)?;
    if matches!(form_of(matches), Some(Form::Json)) {
        return Ok(in_json(rt.alloc(), output)?);
    }
    Ok(output)
}
