//! Whole reports of `check` on trees whose files are known, and that no look-up which fails is taken for an answer: it is told of the path
//! that was looked at, and all else is as it was, or there is no memory.

use crate::comparing::{equal, equal_in};
use crate::planting::{copies, failing_behind, planted, tree_beside, tree_of};
use aa_base::Unread;
use aa_check::{check, push_faults, push_report};
use aa_command::Settings;
use aa_files::Tree;
use aa_text::NoMemory;
use std::alloc::Global;
use std::process::Abort;

/// What `check` prints of the arguments between blanks, on standard output and behind `!` on standard error, and behind `=` the exit status.
/// Includes are searched in `/i` and then in the base folder `/b`.
fn printed<T: Tree>(alloc: Global, tree: &T, arguments: &str) -> Result<Vec<u8>, NoMemory> {
    let folders: [&[u8]; 2] = [b"/i", b"/b"];
    let settings = Settings {
        base: b"/b",
        folders: folders.as_slice(),
        states: 65535,
    };
    let copies = copies(alloc, arguments)?;
    let found = check(alloc, tree, &settings, copies.as_slice())?;
    let mut text = Vec::new(alloc);
    push_report(&mut text, alloc, &found)?;
    text.extend_from_slice(b"!")?;
    push_faults(&mut text, &found, false)?;
    text.extend_from_slice(&[b'=', b'0'.wrapping_add(found.status())])?;
    Ok(text)
}

/// `check` prints just this, where there is memory.
fn prints<T: Tree>(
    rt: &(impl Abort + AllocGlobal),
    tree: &T,
    arguments: &str,
    wanted: &str,
) -> bool {
    match printed(rt.alloc(), tree, arguments) {
        Ok(text) => {
            let found = str::from_utf8(text.as_slice()).ok();
            equal_in(rt, found, Some(wanted), arguments);
            true
        }
        Err(NoMemory) => false,
    }
}

#[test]
fn that_something_cannot_be_read_is_told_before_that_a_policy_is_refused(rt: HostRuntime) {
    const SAID: &str =
        "refused /m\nrefused /n\n2 files 2 refused 0 profiles\nrefused files seem to hold 0 profiles, and any in 2 of them\n!/i/a: Unreadable: it can't be read (not a file)\n/n:1:1: MissingInclude: nothing of that name is there\n    1 | include <c>\n      | ^\n      tried /i/c\n      tried /b/c\n=3";
    let rows = "/m=include <a>\n§/n=include <c>\n";
    let tree = tree_beside(&rt, rows, "/i/a", Unread::NotAFile);
    equal(&rt, prints(&rt, &tree, "/m /n", SAID), true);
}

/// A folder `/p` of two profiles that are read, with what they include, and of two files that aren't, and what is printed of it.
const PROFILES: &str =
    "/p/a=include <x>\nprofile a { /x r, }\n§/p/b=no policy§/p/d=profile d {\n  include <e>\n}\n§/b/x=# x\n§/b/e/1=capability chown,\n§/p:d a c~ b§/b/e:1§!/b/disable/b";

const A: &str =
    "ok /p/a\n  profile \"a\" 1 file 0 capability 0 network 1 patterns 4 states 0 passed over\n";

const D: &str =
    "ok /p/d\n  profile \"d\" 0 file 1 capability 0 network 0 patterns 1 states 0 passed over\n";

const LEFTOVER: &str = "warning: /p/c~: passed over, by its name\n";

/// What is printed where all is read.
fn whole(rt: &(impl Abort + AllocGlobal)) -> String {
    format!(in rt.alloc(); "{A}{D}2 files 0 refused 2 profiles\n!{LEFTOVER}=0").expect(rt, "memory")
}

/// The look-ups for the folder, in order. With the first letter it is told what fails: `a`, whether the argument is a folder (it is then read
/// as a file), `f`, which files the folder stands for (no file is told), and what is read of the first or of the second file, `1` and `2` (the
/// other is as it was).
const LOOK_UPS: &str =
    "a/p f/p f/b/disable/a f/b/force-complain/a f/b/disable/b f/b/disable/d f/b/force-complain/d 1/p/a 1/i/x 1/b/x 2/p/d 2/i/e 2/b/e 2/b/e/1";

/// Why a look-up fails, and what is said of it.
const WAYS: [(Unread, &str); 4] = [
    (
        Unread::NotAllowed,
        "Unreadable: it can't be read (not allowed)",
    ),
    (
        Unread::NotAFile,
        "Unreadable: it can't be read (not a file)",
    ),
    (Unread::Failed, "Unreadable: it can't be read (failed)"),
    (
        Unread::TooLarge,
        "TooLarge: a file has at most 1,048,576 bytes, a command line 4,096 files, and a profile file 4,095 included texts",
    ),
];

/// What is printed where a look-up fails.
fn wanted(rt: &(impl Abort + AllocGlobal), look_up: &str, what: &str) -> String {
    let path = look_up.get(1..).expect(rt, look_up);
    match look_up.as_bytes() {
        [b'a', ..] => format!(in rt.alloc();
            "refused {path}\n1 files 1 refused 0 profiles\nrefused files seem to hold 0 profiles, and any in 1 of them\n!{path}: Unreadable: it can't be read (not a file)\n=3"
        ),
        [b'f', ..] => format!(in rt.alloc();
            "refused {path}\n1 files 1 refused 0 profiles\nrefused files seem to hold 0 profiles, and any in 1 of them\n!{path}: {what}\n=3"
        ),
        [b'1', ..] => format!(in rt.alloc();
            "refused /p/a\n{D}2 files 1 refused 1 profiles\nrefused files seem to hold 0 profiles, and any in 1 of them\n!{LEFTOVER}{path}: {what}\n=3"
        ),
        _ => format!(in rt.alloc();
            "{A}refused /p/d\n2 files 1 refused 1 profiles\nrefused files seem to hold 0 profiles, and any in 1 of them\n!{LEFTOVER}{path}: {what}\n=3"
        ),
    }
    .expect(rt, "memory")
}

#[test]
fn each_look_up_that_fails_is_told_at_its_path_and_changes_nothing_else(rt: HostRuntime) {
    let tree = tree_of(&rt, PROFILES);
    for (why, what) in WAYS {
        for (answered, look_up) in LOOK_UPS.split(' ').enumerate() {
            let failing = failing_behind(&tree, answered, why);
            let wanted = wanted(&rt, look_up, what);
            let is_printed = prints(&rt, &failing, "/p", wanted.as_str());
            let is_made = answered < failing.calls.get();
            equal_in(&rt, (is_printed, is_made), (true, true), look_up);
        }
    }
}

#[test]
fn each_look_up_that_fails_for_want_of_memory_is_no_memory(rt: HostRuntime) {
    let tree = tree_of(&rt, PROFILES);
    for answered in 0..LOOK_UPS.split(' ').count() {
        let failing = failing_behind(&tree, answered, Unread::NoMemory);
        equal(&rt, printed(rt.alloc(), &failing, "/p").is_err(), true);
        equal(&rt, failing.calls.get(), answered.wrapping_add(1));
    }
}

#[test]
fn where_no_look_up_fails_there_are_as_many_as_were_tried(rt: HostRuntime) {
    let tree = tree_of(&rt, PROFILES);
    let failing = failing_behind(&tree, 14, Unread::Failed);
    let wanted = whole(&rt);
    equal(&rt, prints(&rt, &failing, "/p", wanted.as_str()), true);
    equal(&rt, failing.calls.get(), 14);
}

/// Whether just this is printed at last. Each refusal before is no memory.
fn are_printed_at_last(
    rt: &(impl Abort + AllocGlobal),
    rows: &str,
    arguments: &str,
    wanted: &str,
) -> bool {
    let mut is_done = false;
    for _ in 0..3 {
        if let Ok(tree) = planted(rt.alloc(), rows) {
            is_done = is_done || prints(rt, &tree, arguments, wanted);
        }
    }
    is_done
}

#[test]
fn a_growth_refused_to_check_a_folder_is_no_memory(rt: HostRuntime) {
    const WANTED: &str =
        "ok /p/a\n  profile \"a\" 1 file 0 capability 0 network 1 patterns 4 states 0 passed over\nok /p/d\n  profile \"d\" 0 file 1 capability 0 network 0 patterns 1 states 0 passed over\n2 files 0 refused 2 profiles\n!warning: /p/c~: passed over, by its name\n=0";
    equal(&rt, are_printed_at_last(&rt, PROFILES, "/p", WANTED), true);
}

#[test]
fn a_growth_refused_to_tell_of_faults_is_no_memory(rt: HostRuntime) {
    const ROWS: &str = "/m=include <a>\ninclude \"a\"\n§/b/a=§a=§/n=include <c>\n";
    const SAID: &str =
        "refused /m\nrefused /nothing\nrefused /n\n3 files 3 refused 0 profiles\nrefused files seem to hold 0 profiles, and any in 3 of them\n!/m:2:1: AmbiguousInclude: /b/a and a both have this name\n    2 | include \"a\"\n      | ^\n/nothing: Unreadable: it can't be read (not found)\n/n:1:1: MissingInclude: nothing of that name is there\n    1 | include <c>\n      | ^\n      tried /i/c\n      tried /b/c\n=3";
    let found = are_printed_at_last(&rt, ROWS, "/m /nothing /n", SAID);
    equal(&rt, found, true);
}
