//! Which paths have a component that names nothing: worked rows.

use crate::comparing::equal_in;
use aa_unclean_paths::unclean_pattern;
use std::process::Abort;

/// Each of these paths is told so.
fn are_told(rt: &(impl Abort + AllocGlobal), paths: &[&str], unclean: bool) {
    let pattern = unclean_pattern(rt.alloc()).expect(rt, "memory");
    for path in paths {
        equal_in(rt, pattern.matches(path.as_bytes()), unclean, path);
    }
}

#[test]
fn an_empty_component_that_is_not_the_last_is_unclean(rt: HostRuntime) {
    are_told(&rt, &["//", "//a", "/a//", "/a//b", "/a/b///c"], true);
}

#[test]
fn a_dot_or_two_dots_are_unclean_within_and_at_the_end(rt: HostRuntime) {
    let one = ["/.", "/./", "/./a", "/a/.", "/a/./", "/a/./b"];
    are_told(&rt, &one, true);
    let two = ["/..", "/../", "/../a", "/a/..", "/a/../", "/a/../b"];
    are_told(&rt, &two, true);
}

#[test]
fn a_slash_at_the_end_and_names_that_begin_or_end_with_dots_are_clean(rt: HostRuntime) {
    are_told(&rt, &["/", "/a", "/a/", "/a/b/"], false);
    let dots = [
        "/.a",
        "/a.",
        "/..a",
        "/a..",
        "/...",
        "/a.b/..c/",
        "/a/.../b",
    ];
    are_told(&rt, &dots, false);
}
