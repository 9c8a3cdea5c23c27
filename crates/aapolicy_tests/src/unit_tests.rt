//! Which files are read and what they include, in trees whose files are known, and that no look-up which fails is taken for an answer: it is
//! refused at the path that was looked at, and nothing is looked at behind it.

use crate::comparing::{equal, equal_in};
use crate::names::Names;
use crate::planting::{copies, failing_behind, planted, tree_beside, tree_of};
use crate::tree::{MemoryTree, Planted};
use aa_base::Unread;
use aa_files::{Roots, Tree, Unit, UnitFault, load, roots_of};
use std::alloc::{AllocError, Global};
use std::process::Abort;

/// Reads a file with what it includes, searched in `/i`, in `/j` and then in the base folder `/b`.
fn loaded<T: Tree>(alloc: Global, tree: &T, path: &str) -> Result<Unit, UnitFault> {
    let folders: [&[u8]; 3] = [b"/i", b"/j", b"/b"];
    load(alloc, tree, folders.as_slice(), path.as_bytes())
}

/// The files of the arguments between blanks, with the base folder `/b`.
fn rooted<T: Tree>(alloc: Global, tree: &T, arguments: &str) -> Result<Roots, UnitFault> {
    roots_of(alloc, tree, b"/b", copies(alloc, arguments)?.as_slice())
}

fn push(told: &mut String, text: &[u8], sign: &str) -> Result<(), AllocError> {
    told.push_str(str::from_utf8(text).unwrap_or("?"))?;
    told.push_str(sign)?;
    Ok(())
}

/// The path that can't be read, and why.
fn push_fault(alloc: Global, told: &mut String, fault: &UnitFault) -> Result<(), AllocError> {
    match fault {
        UnitFault::NoMemory => push(told, b"NoMemory", ""),
        UnitFault::At { path, why } => {
            push(told, path.as_slice(), " ")?;
            push(told, format!(in alloc; "{why:?}")?.as_bytes(), "")
        }
        UnitFault::Ambiguous(report) => {
            push(
                told,
                format!(in alloc; "Ambiguous {}", report.chain.len())?.as_bytes(),
                "",
            )
        }
    }
}

/// A file's sources, each with its name, its path and its text, or why it can't be read.
fn told(alloc: Global, outcome: &Result<Unit, UnitFault>) -> Result<String, AllocError> {
    let mut told = String::new(alloc);
    match outcome {
        Ok(unit) => {
            for source in unit.sources.as_slice() {
                push(&mut told, source.name.as_slice(), " ")?;
                push(&mut told, source.path.as_slice(), "=")?;
                push(&mut told, source.text.as_slice(), "§")?;
            }
        }
        Err(fault) => push_fault(alloc, &mut told, fault)?,
    }
    Ok(told)
}

/// The files that arguments stand for, and the warnings, or why they can't be told.
fn told_roots(alloc: Global, outcome: &Result<Roots, UnitFault>) -> Result<String, AllocError> {
    let mut told = String::new(alloc);
    match outcome {
        Ok(roots) => {
            for text in roots
                .paths
                .as_slice()
                .iter()
                .chain(roots.warnings.as_slice())
            {
                push(&mut told, text.as_slice(), "§")?;
            }
        }
        Err(fault) => push_fault(alloc, &mut told, fault)?,
    }
    Ok(told)
}

/// The file at a path is read or refused so.
fn is_loaded<T: Tree>(rt: &(impl Abort + AllocGlobal), tree: &T, path: &str, wanted: &str) {
    let found = told(rt.alloc(), &loaded(rt.alloc(), tree, path)).expect(rt, path);
    equal_in(rt, found.as_str(), wanted, path);
}

#[test]
fn the_first_path_at_which_something_lies_decides_whatever_lies_there(rt: HostRuntime) {
    for why in WAYS {
        let tree = tree_beside(&rt, "/m=include <a>\n§/b/a=# base\n", "/j/a", why);
        is_loaded(&rt, &tree, "/m", refusal(&rt, "/j/a", why).as_str());
    }
}

/// Files and folders, and behind `»` the sources of `/m`, or why it is refused.
const TREES: &[&str] = &[
    // What lies nowhere is no source.
    "/m=include <a>\ninclude \"a c\"\ninclude if exists <d>\ninclude if exists \"/e\"\n§/a=# elsewhere\n»",
    // A link in a folder that leads nowhere has its line and no source.
    "/m=include <d>\n§/b/d/a=# a\n§/b/d:a lost§!/b/d/lost»d /b/d=include \"/b/d/a\"\ninclude \"/b/d/lost\"\n§/b/d/a /b/d/a=# a\n§",
    // A folder with a name that no line can include is refused.
    "/m=include <d>\n§/b/d:a b\"»/b/d Failed",
    "/m=include <d>\n§/b/d:\" a»/b/d Failed",
    "/m=include <d>\n§/b/d:a b\nc»/b/d Failed",
    "/m=include <d>\n§/b/d:b\0»/b/d Failed",
];

#[test]
fn files_have_their_sources(rt: HostRuntime) {
    for row in TREES {
        let (rows, wanted) = row.split_once('»').expect(&rt, *row);
        is_loaded(&rt, &tree_of(&rt, rows), "/m", wanted);
    }
}

#[test]
fn includes_are_found_breadth_first_and_numbered_by_their_names(rt: HostRuntime) {
    const ROWS: &str =
        "/m=include <c>\ninclude <none>\ninclude <b>\ninclude <c>\n§/b/c=include <a>\ninclude <b>\n§/b/b=include <d>\ninclude <c>\n§/b/a=include <none>\n§/b/d=";
    const FOUND: &str =
        "c /b/c=include <a>\ninclude <b>\n§b /b/b=include <d>\ninclude <c>\n§a /b/a=include <none>\n§d /b/d=§";
    let tree = tree_of(&rt, ROWS);
    is_loaded(&rt, &tree, "/m", FOUND);
    let unit = loaded(rt.alloc(), &tree, "/m");
    let found = unit
        .ok()
        .map(|it| it.order.as_slice() == [2, 1, 0, 3].as_slice());
    equal(&rt, found, Some(true));
}

#[test]
fn a_main_text_is_a_file_or_standard_input(rt: HostRuntime) {
    let mut tree = tree_of(&rt, "-=# a file\n§/f:");
    tree.input
        .extend_from_slice(b"# input\n")
        .expect(&rt, "memory");
    let unit = loaded(rt.alloc(), &tree, "-");
    let is_input = |it: Unit| it.text.as_slice() == b"# input\n".as_slice()
        && it.path.as_slice() == b"-".as_slice();
    equal(&rt, unit.ok().map(is_input), Some(true));
    is_loaded(&rt, &tree, "/f", "/f NotAFile");
    is_loaded(&rt, &tree, "/g", "/g NotFound");
}

#[test]
fn a_file_of_a_folder_that_cannot_be_read_is_refused(rt: HostRuntime) {
    const ROWS: &str = "/m=include <d>\n§/b/d/a=# a\n§/b/d:a c";
    let tree = tree_beside(&rt, ROWS, "/b/d/c", Unread::NotAllowed);
    is_loaded(&rt, &tree, "/m", "/b/d/c NotAllowed");
}

/// Adds a folder of so many files, whose names are numbers from 10000 on, and files at their paths if they are wanted.
fn add_many(
    rt: &(impl Abort + AllocGlobal),
    tree: &mut MemoryTree,
    folder: &str,
    count: u32,
    is_filled: bool,
) {
    let mut names = Vec::new(rt.alloc());
    for number in 10000..count.wrapping_add(10000) {
        let name = format!(in rt.alloc(); "{number}").expect(rt, "memory");
        if is_filled {
            let path = format!(in rt.alloc(); "{folder}/{name}").expect(rt, "memory");
            tree.plant_file(rt.alloc(), path.as_str(), "")
                .expect(rt, "memory");
        }
        names.push(name.into_bytes()).expect(rt, "memory");
    }
    let names = Names::of(names).expect(rt, "memory");
    let path = Vec::from_slice(rt.alloc(), folder.as_bytes()).expect(rt, "memory");
    tree.planted
        .push((path, Planted::Folder(names)))
        .expect(rt, "memory");
}

#[test]
fn one_source_beyond_the_limit_is_refused_at_its_path(rt: HostRuntime) {
    let mut most = tree_of(&rt, "/m=include <d>\n");
    add_many(&rt, &mut most, "/b/d", 4094, true);
    let unit = loaded(rt.alloc(), &most, "/m");
    equal(&rt, unit.ok().map(|it| it.sources.len()), Some(4095));
    let mut more = tree_of(&rt, "/m=include <d>\n");
    add_many(&rt, &mut more, "/b/d", 4095, true);
    is_loaded(&rt, &more, "/m", "/b/d/14094 TooLarge");
}

/// The files of these arguments are told so.
fn are_rooted<T: Tree>(rt: &(impl Abort + AllocGlobal), tree: &T, arguments: &str, wanted: &str) {
    let found = told_roots(rt.alloc(), &rooted(rt.alloc(), tree, arguments));
    let found = found.expect(rt, arguments);
    equal_in(rt, found.as_str(), wanted, arguments);
}

#[test]
fn one_file_beyond_the_limit_is_refused_at_its_path(rt: HostRuntime) {
    let mut tree = tree_of(&rt, "");
    add_many(&rt, &mut tree, "/p", 4095, false);
    let roots = rooted(rt.alloc(), &tree, "- /p");
    equal(&rt, roots.ok().map(|it| it.paths.len()), Some(4096));
    are_rooted(&rt, &tree, "/p - /q", "/q TooLarge");
    are_rooted(&rt, &tree, "- - /p", "/p/14094 TooLarge");
}

const WAYS: [Unread; 5] = [
    Unread::NoMemory,
    Unread::NotAllowed,
    Unread::NotAFile,
    Unread::Failed,
    Unread::TooLarge,
];

/// How it is told that this path can't be read.
fn refusal(rt: &(impl Abort + AllocGlobal), path: &str, why: Unread) -> String {
    match why {
        Unread::NoMemory => format!(in rt.alloc(); "NoMemory"),
        _ => format!(in rt.alloc(); "{path} {why:?}"),
    }
    .expect(rt, "memory")
}

/// The paths at which a file is looked for, between blanks: each refuses it, where it can't be read. Where none fails, that is found.
fn each_refuses_the_unit(
    rt: &(impl Abort + AllocGlobal),
    tree: &MemoryTree,
    looked: &str,
    found: &str,
) {
    for why in WAYS {
        for (answered, at) in looked.split(' ').enumerate() {
            let tree = failing_behind(tree, answered, why);
            is_loaded(rt, &tree, "/m", refusal(rt, at, why).as_str());
            equal(rt, tree.calls.get(), answered.wrapping_add(1));
        }
        let tree = failing_behind(tree, looked.split(' ').count(), why);
        is_loaded(rt, &tree, "/m", found);
        equal(rt, tree.calls.get(), looked.split(' ').count());
    }
}

#[test]
fn each_look_up_for_a_file_and_its_includes_that_fails_refuses_it_at_the_path(rt: HostRuntime) {
    const ROWS: &str =
        "/m=include <a>\ninclude <d>\ninclude <a>\n§/j/a=include if exists \"none\"\n§/b/a=include <wrong>\n§/b/d/x=# x\n§/b/d/y=include <d>\n§/b/d:README x y";
    const LOOKED: &str = "/m /i/a /j/a /i/d /j/d /b/d none /b/d/x /b/d/y";
    const FOUND: &str =
        "a /j/a=include if exists \"none\"\n§d /b/d=include \"/b/d/x\"\ninclude \"/b/d/y\"\n§/b/d/x /b/d/x=# x\n§/b/d/y /b/d/y=include <d>\n§";
    each_refuses_the_unit(&rt, &tree_of(&rt, ROWS), LOOKED, FOUND);
}

#[test]
fn each_look_up_for_the_other_form_of_a_name_that_fails_refuses_it_at_the_path(rt: HostRuntime) {
    let tree = tree_of(&rt, "/m=include if exists \"a\"\ninclude if exists <a>\n");
    each_refuses_the_unit(&rt, &tree, "/m a /i/a /j/a /b/a", "");
}

#[test]
fn standard_input_that_fails_is_refused(rt: HostRuntime) {
    let tree = tree_of(&rt, "-=");
    for why in WAYS {
        let failing = failing_behind(&tree, 0, why);
        is_loaded(&rt, &failing, "-", refusal(&rt, "-", why).as_str());
        equal(&rt, failing.calls.get(), 1);
    }
}

/// A folder of four files, of which one is passed over and one disabled, and what is told of it.
const PROFILES: &str = "/b/force-complain/a=§/p:a b c~ d§!/b/disable/b";

const TOLD: &str =
    "/p/a§/p/d§/p/a: force-complain isn't applied, the text decides§/p/c~: passed over, by its name§";

#[test]
fn each_look_up_for_the_files_of_a_folder_that_fails_refuses_them_at_the_path(rt: HostRuntime) {
    // Where it is looked behind the folder itself.
    const LOOKED: &str =
        "/p /b/disable/a /b/force-complain/a /b/disable/b /b/disable/d /b/force-complain/d";
    let tree = tree_of(&rt, PROFILES);
    for why in WAYS {
        for (number, at) in LOOKED.split(' ').enumerate() {
            let failing = failing_behind(&tree, number.wrapping_add(1), why);
            let wanted = refusal(&rt, at, why);
            are_rooted(&rt, &failing, "/p", wanted.as_str());
            equal(&rt, failing.calls.get(), number.wrapping_add(2));
        }
        let failing = failing_behind(&tree, 7, why);
        are_rooted(&rt, &failing, "/p", TOLD);
        equal(&rt, failing.calls.get(), 7);
    }
}

#[test]
fn an_argument_that_cannot_be_looked_at_stands_for_itself_but_for_want_of_memory(rt: HostRuntime) {
    let tree = tree_of(&rt, PROFILES);
    for why in WAYS {
        let wanted = if why == Unread::NoMemory {
            "NoMemory"
        } else {
            "/p§"
        };
        are_rooted(&rt, &failing_behind(&tree, 0, why), "/p", wanted);
    }
}

/// A file with includes, and a folder of files of which one is disabled.
const WHOLE: &str =
    "/m=include <a>\ninclude <d>\n§/b/a=include <none>\ninclude <a>\n§/b/d/x=# x\n§/b/d/y=§/b/force-complain/a=§/b/d:y x x~§/p:c b a a~§!/b/disable/b";

/// What is told of the file at a path, or of the files of `/p` and standard input, in a tree of these rows.
fn told_of(alloc: Global, rows: &str, path: &str) -> Result<String, AllocError> {
    let tree = planted(alloc, rows)?;
    match path {
        "/m" => told(alloc, &loaded(alloc, &tree, path)),
        _ => told_roots(alloc, &rooted(alloc, &tree, path)),
    }
}

#[test]
fn a_growth_refused_to_read_files_is_no_memory(rt: HostRuntime) {
    const READ: &str =
        "a /b/a=include <none>\ninclude <a>\n§d /b/d=include \"/b/d/x\"\ninclude \"/b/d/y\"\n§/b/d/x /b/d/x=# x\n§/b/d/y /b/d/y=§";
    const FILES: &str =
        "/p/a§/p/c§-§/p/a: force-complain isn't applied, the text decides§/p/a~: passed over, by its name§";
    // A name in both forms, which lies at two paths. The later form stands in an included file.
    const FORMS: &str = "/m=include <a>\ninclude <c>\n§/b/c=include \"a\"\n§/b/a=§a=";
    for (rows, path, wanted) in [
        (WHOLE, "/m", READ),
        (WHOLE, "/p -", FILES),
        (FORMS, "/m", "Ambiguous 1"),
    ] {
        let mut is_done = false;
        for _ in 0..3 {
            if let Ok(found) = told_of(rt.alloc(), rows, path) {
                is_done = is_done || found.as_str() == wanted;
                equal(&rt, is_done || found.as_str() == "NoMemory", true);
            }
        }
        equal_in(&rt, is_done, true, wanted);
    }
}
