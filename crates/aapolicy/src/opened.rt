//! What the command line names and can be read once: pipes that the caller has opened, and standard input under a name.

ghost use Rattle.std.specs.Prelude.{◌≡◌};
ghost use Rattle.aapolicy.specs.Opened.{is_opened, is_input};

use crate::handed::{Given, given_at};
use aa_base::Unread;
use aa_files::Tree;
use clap::ArgMatches;
use std::alloc::{AllocError, Global};
use std::fs::{self, File};
use std::io::Read;

/// The most bytes of a text.
const MAX_TEXT: u64 = 1048576;

/// Whether a path names what the caller has opened, as `<(..)` does in shells.
fn is_opened(path: &[u8]) -> bool
    ensures { result ≡ is_opened path.now }
{
    path == "/dev/stdin".as_bytes()
        || path.starts_with("/dev/fd/".as_bytes())
        || path.starts_with("/proc/self/fd/".as_bytes())
}

/// Whether a path names standard input.
pub(crate) fn is_input(path: &[u8]) -> bool
    ensures { result ≡ is_input path.now }
{
    path == "-".as_bytes()
        || path == "/dev/stdin".as_bytes()
        || path == "/dev/fd/0".as_bytes()
        || path == "/proc/self/fd/0".as_bytes()
}

/// The arguments of a command that name files whose text is read; logs aren't among them.
fn text_arguments(name: &str) -> &'static [&'static str] {
    match name {
        "ask" => &["PROFILE", "also", "from"],
        "diff" => &["OLD", "NEW", "known"],
        "who" => &["PROFILE", "also"],
        "assert" => &["CLAIMS", "PROFILE"],
        "lint" => &["PROFILE", "known"],
        "log" => &["against"],
        _ => &["PROFILE"],
    }
}

/// What standard input is called, where it has a name.
fn input_name<'a>(matches: &ArgMatches<'a>) -> Option<&'a str> {
    match matches.get_str("stdin-name") {
        None | Some("-") => None,
        Some(name) => Some(name),
    }
}

/// Whether something lies there that is neither a file nor a folder.
fn is_pipe(rt: &HostRuntime, path: &str) -> Result<bool, AllocError> {
    match fs::metadata(rt, path).map_err(Unread::from) {
        Ok(found) => Ok(!found.is_file() && !found.is_dir()),
        Err(Unread::NoMemory) => Err(AllocError),
        Err(_) => Ok(false),
    }
}

fn text_at(rt: &HostRuntime, path: &str) -> Result<Vec<u8>, Unread> {
    let mut file = File::open(rt, path)?;
    let mut bytes = Vec::new(rt.alloc());
    let _ = (&mut file).take(MAX_TEXT + 1).read_to_end(&mut bytes)?;
    if bytes.len() as u64 > MAX_TEXT {
        return Err(Unread::TooLarge);
    }
    Ok(bytes)
}

fn push_given(
    alloc: Global,
    path: &str,
    text: Result<Vec<u8>, Unread>,
    given: &mut Vec<Given>,
) -> Result<(), AllocError> {
    let path = Vec::from_slice(alloc, path.as_bytes())?;
    given.push(Given { path, text })?;
    Ok(())
}

/// Reads a pipe that the caller has opened, unless that was done.
fn push_opened(rt: &HostRuntime, path: &str, given: &mut Vec<Given>) -> Result<(), AllocError> {
    if !is_opened(path.as_bytes()) || given_at(given.as_slice(), path.as_bytes()).is_some() {
        return Ok(());
    }
    if is_pipe(rt, path)? {
        push_given(rt.alloc(), path, text_at(rt, path), given)?;
    }
    Ok(())
}

/// Reads the text that an argument names, where it can be read once.
fn push_named(
    rt: &HostRuntime,
    input: Option<&str>,
    path: &str,
    given: &mut Vec<Given>,
) -> Result<(), AllocError> {
    match input {
        Some(name) if path == "-" => push_given(rt.alloc(), name, rt.input_text(rt.alloc()), given),
        _ => push_opened(rt, path, given),
    }
}

fn push_all_named(
    rt: &HostRuntime,
    matches: &ArgMatches<'_>,
    id: &str,
    given: &mut Vec<Given>,
) -> Result<(), AllocError> {
    let Some(paths) = matches.get_strs(id) else {
        return Ok(());
    };
    for path in paths {
        push_named(rt, input_name(matches), *path, given)?;
    }
    Ok(())
}

/// The texts that the command line names and that can be read once, each read: pipes that the caller has opened, under their paths,
/// and standard input, where it is called otherwise than `-`, under its name.
pub(crate) fn given_to(
    rt: &HostRuntime,
    name: &str,
    matches: &ArgMatches<'_>,
) -> Result<Vec<Given>, AllocError> {
    let mut given = Vec::new(rt.alloc());
    for id in text_arguments(name) {
        push_all_named(rt, matches, id, &mut given)?;
    }
    Ok(given)
}

/// The files that an argument names, standard input by its name.
pub(crate) fn files_of(
    alloc: Global,
    matches: &ArgMatches<'_>,
    id: &str,
) -> Result<Vec<Vec<u8>>, AllocError> {
    let input = input_name(matches).unwrap_or("-");
    let mut files = Vec::new(alloc);
    if let Some(paths) = matches.get_strs(id) {
        for path in paths {
            let named = if *path == "-" { input } else { *path };
            files.push(Vec::from_slice(alloc, named.as_bytes())?)?;
        }
    }
    Ok(files)
}

/// The file that an argument names, if there is one, standard input by its name.
pub(crate) fn file_of<'a>(matches: &ArgMatches<'a>, id: &str) -> Option<&'a [u8]> {
    match matches.get_str(id) {
        Some("-") => Some(input_name(matches).unwrap_or("-").as_bytes()),
        Some(path) => Some(path.as_bytes()),
        None => None,
    }
}
