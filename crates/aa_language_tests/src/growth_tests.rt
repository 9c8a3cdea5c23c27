//! Growths that are refused. Each test passes whichever of its growths is refused: it asks again, and what was refused for
//! want of memory has changed nothing.

use crate::comparing::{equal, holds};
use crate::texts::{add, expansions, is_matched, pattern_of, set, words_of};
use aa_base::{PolicyFault, PolicyKind};
use aa_files::{candidates, folder_text, joined_path};
use aa_glob::Vars;
use aa_pattern::Pattern;
use aa_policy::preamble_of;
use aa_text::excerpt;
use aa_words::Sources;
use std::alloc::AllocError;
use std::process::Abort;

/// What a call gives at last. Each refusal before is this one.
macro_rules! at_last {
    ($rt:expr, $none:expr, $call:expr) => {{
        let mut found = None;
        for _ in 0..3 {
            if found.is_none() {
                match $call {
                    Ok(it) => found = Some(it),
                    Err(fault) => equal($rt, fault, $none),
                }
            }
        }
        found.expect($rt, "refused each time")
    }};
}

#[test]
fn a_growth_refused_to_read_is_no_memory(rt: HostRuntime) {
    let read = at_last!(
        &rt,
        PolicyKind::NoMemory,
        pattern_of(&rt, b"/{usr/,}lib/[a-c]*/\\*x?**")
    );
    holds(&rt, is_matched(&read, b"/usr/lib/cd/*xyz/"));
    holds(&rt, is_matched(&read, b"/lib/a/*xy"));
    holds(&rt, !is_matched(&read, b"/usr/lib/d/*xyz/"));
}

#[test]
fn a_growth_refused_is_no_bad_pattern(rt: HostRuntime) {
    for _ in 0..3 {
        match pattern_of(&rt, b"/{a,[b-d]x") {
            Ok(_) => panic!(rt; "a choice that isn't closed"),
            Err(PolicyKind::NoMemory) => {}
            Err(fault) => {
                equal(&rt, fault, PolicyKind::BadPattern);
                return;
            }
        }
    }
    panic!(rt; "refused each time")
}

/// There are as many patterns as paths between blanks, and each matches the path in its place.
fn match_in_turn(rt: &(impl Abort + AllocGlobal), patterns: &[Pattern], paths: &str) {
    equal(rt, patterns.len(), paths.split(' ').count());
    for (pattern, path) in patterns.iter().zip(paths.split(' ')) {
        holds(rt, is_matched(pattern, path.as_bytes()));
    }
}

#[test]
fn a_growth_refused_to_set_add_or_expand_is_no_memory(rt: HostRuntime) {
    const NONE: PolicyKind = PolicyKind::NoMemory;
    let mut vars = Vars::new(rt.alloc());
    at_last!(&rt, NONE, set(&mut vars, "A", &[b"a", b"b"]));
    at_last!(&rt, NONE, add(&mut vars, "A", &[b"c*"]));
    at_last!(&rt, NONE, set(&mut vars, "B", &[b"@{A}x"]));
    let found = set(&mut vars, "B", &[]);
    equal(&rt, found, Err(PolicyKind::VariableTwice));
    let patterns = at_last!(&rt, NONE, expansions(&rt, &vars, b"/@{A}//@{B}"));
    const PATHS: &str = "/a/ax /a/bx /a/cx /b/ax /b/bx /b/cx /c/ax /c/bx /c/cx";
    match_in_turn(&rt, patterns.as_slice(), PATHS);
}

/// How many words a text's preamble has.
fn end_of_preamble(rt: &(impl Abort + AllocGlobal), text: &str) -> Result<usize, PolicyFault> {
    let sources = Sources::new(rt.alloc());
    let list = words_of(rt, &sources, text.as_bytes())?;
    Ok(preamble_of(rt.alloc(), list.list.as_slice(), 0, list.end)?.1)
}

#[test]
fn a_growth_refused_to_a_preamble_is_no_memory(rt: HostRuntime) {
    let text = "abi <x>,\n@{A}=a b\n@{B}=\"c\"\n@{A}+=d e f g h\nprofile p { }";
    let found = at_last!(&rt, PolicyFault::NO_MEMORY, end_of_preamble(&rt, text));
    equal(&rt, found, 17);
}

#[test]
fn an_excerpt_whose_growth_is_refused_is_none(rt: HostRuntime) {
    let found = at_last!(&rt, AllocError, excerpt(rt.alloc(), b"a\n\xC3\xA4b c", 4));
    let is_so = found.as_slice() == b"    2 | \xC3\xA4b c\n      |  ^\n".as_slice();
    holds(&rt, is_so);
}

#[test]
fn a_growth_that_is_refused_gives_no_path_and_no_text(rt: HostRuntime) {
    let folders: [&[u8]; 2] = [b"/x", b"/y"];
    let paths = at_last!(
        &rt,
        AllocError,
        candidates(rt.alloc(), true, b"z", &folders)
    );
    equal(&rt, paths.len(), 2);
    let path = at_last!(&rt, AllocError, joined_path(rt.alloc(), b"/", b"z"));
    holds(&rt, path.as_slice() == b"/z".as_slice());
    let text = at_last!(&rt, AllocError, folder_text(rt.alloc(), b"/x", &folders));
    equal(&rt, text.len(), 32);
}
