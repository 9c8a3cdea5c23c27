//! Automata of patterns that are given by their texts: rows, classes, lists, and what is matched.

use crate::comparing::{equal, equal_in, holds_in};
use crate::texts::push_part;
use aa_auto::{Automaton, BuildFault};
use aa_base::PolicyKind;
use aa_glob::read_pattern;
use aa_pattern::Pattern;
use std::process::Abort;

/// Adds the pattern of a text.
pub fn add(
    rt: &(impl Abort + AllocGlobal),
    text: &[u8],
    patterns: &mut Vec<Pattern>,
) -> Result<(), BuildFault> {
    match read_pattern(rt.alloc(), text) {
        Ok(pattern) => patterns.push(pattern)?,
        Err(PolicyKind::NoMemory) => return Err(BuildFault::NoMemory),
        Err(kind) => panic!(rt; "refused as {kind:?}"),
    }
    Ok(())
}

/// The automaton of patterns that are within the bounds of `build`.
fn build(
    rt: &(impl Abort + AllocGlobal),
    patterns: &[Pattern],
    limit: usize,
) -> Result<Automaton, BuildFault> {
    assert!(rt; patterns.len() <= 65535 && limit > 0 && limit <= 1000000);
    Automaton::build(rt.alloc(), patterns, limit)
}

/// The patterns of the texts between which stands a blank; none of `none`.
pub fn patterns(rt: &(impl Abort + AllocGlobal), texts: &str) -> Result<Vec<Pattern>, BuildFault> {
    let mut patterns = Vec::new(rt.alloc());
    if texts != "none" {
        for text in texts.split(' ') {
            add(rt, text.as_bytes(), &mut patterns)?;
        }
    }
    Ok(patterns)
}

/// Their automaton.
pub fn automaton(
    rt: &(impl Abort + AllocGlobal),
    texts: &str,
    limit: usize,
) -> Result<Automaton, BuildFault> {
    let patterns = patterns(rt, texts)?;
    build(rt, patterns.as_slice(), limit)
}

/// How many rows and how many classes an automaton has, where the patterns are within the limit.
fn size(rt: &(impl Abort + AllocGlobal), texts: &str, limit: usize) -> Option<(usize, usize)> {
    match automaton(rt, texts, limit) {
        Ok(automaton) => Some((automaton.rows(), automaton.classes())),
        Err(BuildFault::TooManyStates) => None,
        Err(BuildFault::NoMemory) => panic!(rt; "memory"),
    }
}

/// The automata of these patterns have so many rows and classes, or need more rows than the limit.
fn have_sizes(rt: &(impl Abort + AllocGlobal), rows: &[(&str, usize, Option<(usize, usize)>)]) {
    for (texts, limit, wanted) in rows {
        equal_in(rt, size(rt, *texts, *limit), *wanted, *texts);
    }
}

const SIZES: &[(&str, usize, Option<(usize, usize)>)] = &[
    // A row for each prefix and one for the rest; where there is no pattern, one row; the empty pattern.
    ("/etc/passwd", 13, Some((13, 10))),
    ("/etc/passwd", 12, None),
    ("none", 1, Some((1, 1))),
    ("", 2, Some((2, 1))),
    ("", 1, None),
    // A zero byte is matched by nothing.
    ("\0", 2, Some((2, 1))),
    // Free bytes behind a letter double the rows.
    ("/**a??????????", 4096, Some((2051, 4))),
    ("/**a???????????", 4096, None),
    ("/**a???????????", 4099, Some((4099, 4))),
];

#[test]
fn automata_have_their_rows_and_classes(rt: HostRuntime) {
    have_sizes(&rt, SIZES);
}

#[test]
fn fifteen_free_bytes_need_65539_rows_of_four_cells(rt: HostRuntime) {
    const TEXT: &str = "/**a???????????????";
    have_sizes(&rt, &[(TEXT, 65535, None), (TEXT, 65539, Some((65539, 4)))]);
}

#[test]
fn bytes_that_no_item_tells_apart_are_of_one_class(rt: HostRuntime) {
    const CLASSES: &str =
        "none»1|/etc/passwd»10|/tmp/*»6|/**»3|/[a-c]x»4|/a[^b]c»5|/[^/]*»3|/[ab] /[ba]»3";
    for row in CLASSES.split('|') {
        let (texts, wanted) = row.split_once('»').expect(&rt, row);
        let (_, classes) = size(&rt, texts, 4096).expect(&rt, row);
        let told = format!(in rt.alloc(); "{classes}").expect(&rt, "memory");
        equal_in(&rt, told.as_str(), wanted, row);
    }
}

/// Numbers one behind the other.
fn told(rt: &(impl Abort + AllocGlobal), numbers: &[u16]) -> String {
    let mut told = String::new(rt.alloc());
    for number in numbers {
        let front = if told.is_empty() { "" } else { " " };
        push_part(rt, &mut told, format!(in rt.alloc(); "{front}{number}"));
    }
    told
}

/// A path is matched by the patterns of just these numbers, by `matching`, by its row, and by its row's list.
fn is_matched(rt: &(impl Abort + AllocGlobal), automaton: &Automaton, path: &[u8], numbers: &str) {
    let place = automaton.place(path);
    let found = automaton.matching(path);
    equal(rt, told(rt, found).as_str(), numbers);
    equal(rt, automaton.at_row(place), found);
    equal(rt, automaton.list(automaton.list_of(place)), found);
}

/// Each path is matched so; behind it stand the numbers.
fn matches_just(rt: &(impl Abort + AllocGlobal), automaton: &Automaton, rows: &str) {
    for row in rows.split('|') {
        let (path, numbers) = row.split_once('»').expect(rt, row);
        is_matched(rt, automaton, path.as_bytes(), numbers);
    }
}

/// In a row that begins with `§` patterns, and behind `¦` paths, each with the numbers of those that match it.
const MATCHES: &str = "\
    §A row for each prefix and one for the rest\
    §/etc/passwd¦/etc/passwd»0|/etc/passw»|/etc/passwd\0»\
    §All patterns that match are listed\
    §/a* /ab /**¦/ab»0 1 2|/a»0 2|/»|b»\
    §No pattern, and an empty one\
    §none¦/etc»§¦»0|/»\
    §A class takes one byte of those that it lists\
    §/[a-c]x /a[^b]c /[ab] /[ba]¦/ax»0|/cx»0|/dx»|/aac»1|/a/c»1|/abc»|/a\0c»|/a»2 3|/b»2 3|/c»\
    §/[^/]*¦/a»0|/ab»0|/»|/a/»\
    §A star takes at least one byte where it is a whole part\
    §/tmp/* /tmp/*/ /tmp/a*¦/tmp/»|/tmp/a»0 2|/tmp/a/»1|/tmp//»|/tmp/ab»0 2|/tmp/b»0\
    §A choice matches by each branch\
    §/{a,b*,}.¦/a.»0|/bcd.»0|/.»0|/ac.»|/b/.»\
    §A double star takes no slash first where it is last\
    §/tmp/**¦/tmp/a/b»0|/tmp//b»|/tmp/»\
    §A zero byte is matched by nothing\
    §\0¦\0»§/{,**}¦/a\0»";

#[test]
fn paths_are_matched_by_just_these_patterns(rt: HostRuntime) {
    for row in MATCHES.split('§') {
        if let Some((texts, rows)) = row.split_once('¦') {
            let automaton = automaton(&rt, texts, 100).expect(&rt, texts);
            matches_just(&rt, &automaton, rows);
        }
    }
    let literal = automaton(&rt, "/etc/passwd", 13).expect(&rt, "an automaton");
    is_matched(&rt, &literal, b"\xff", "");
    let any = automaton(&rt, "/{,**}", 100).expect(&rt, "an automaton");
    is_matched(&rt, &any, b"/\xff/\x80", "0");
}

#[test]
fn rows_with_equal_lists_share_one(rt: HostRuntime) {
    for (texts, count, first, second, is_one) in [
        ("/etc/passwd", 2, "/etc", "/e", true),
        ("/a* /ab /**", 4, "/abc", "/ac", true),
        ("/a* /ab /**", 4, "/ab", "/abc", false),
    ] {
        let automaton = automaton(&rt, texts, 100).expect(&rt, texts);
        let list = |path: &str| automaton.list_of(automaton.place(path.as_bytes()));
        equal_in(&rt, automaton.lists(), count, texts);
        equal_in(&rt, list(first) == list(second), is_one, texts);
    }
}

#[test]
fn as_many_patterns_as_there_may_be(rt: HostRuntime) {
    // The paths of a slash and four hexadecimal digits, all but the last.
    let mut patterns = Vec::new(rt.alloc());
    for number in 0..65535u32 {
        let path = format!(in rt.alloc(); "/{number:04x}").expect(&rt, "memory");
        add(&rt, path.as_bytes(), &mut patterns).expect(&rt, "memory");
    }
    equal(&rt, patterns.len(), 65535);
    let automaton = build(&rt, patterns.as_slice(), 1000000).expect(&rt, "an automaton");
    equal(&rt, (automaton.rows(), automaton.classes()), (69906, 18));
    matches_just(&rt, &automaton, "/fffe»65534|/ffff»");
}

#[test]
fn a_growth_refused_to_build_is_no_memory(rt: HostRuntime) {
    for _ in 0..3 {
        match automaton(&rt, "/a* /ab /** /{a,b*,}.", 100) {
            Ok(automaton) => {
                equal(&rt, automaton.matching(b"/ab"), [0, 1, 2].as_slice());
                equal(&rt, automaton.matching(b"/a"), [0, 2].as_slice());
                equal(&rt, automaton.matching(b"/a."), [0, 2, 3].as_slice());
                equal(&rt, automaton.matching(b"/."), [2, 3].as_slice());
                equal(&rt, automaton.matching(b"/b/."), [2].as_slice());
                equal(&rt, automaton.matching(b"/").len(), 0);
                return;
            }
            Err(fault) => holds_in(&rt, fault == BuildFault::NoMemory, "a refusal"),
        }
    }
    panic!(rt; "refused each time")
}

#[test]
fn a_growth_refused_is_not_too_many_states(rt: HostRuntime) {
    for _ in 0..3 {
        match automaton(&rt, "/etc/passwd", 12) {
            Ok(_) => panic!(rt; "13 rows are within 12"),
            Err(BuildFault::NoMemory) => {}
            Err(BuildFault::TooManyStates) => return,
        }
    }
    panic!(rt; "refused each time")
}
