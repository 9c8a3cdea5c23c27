//! Patterns and variables: worked rows, what no word of a rule can be, and what is as large or as deep as its limits let it be, or just over.

use crate::comparing::{equal, equal_in, holds, holds_in};
use crate::texts::{
    add, expansions, extend, filled, is_matched, is_set, pattern_of, pattern_read, row, set,
    words_of,
};
use aa_base::PolicyKind;
use aa_glob::Vars;
use aa_pattern::{Item, Pattern};
use aa_policy::preamble_of;
use aa_words::Sources;
use std::process::Abort;

#[test]
fn nothing_matches_a_zero_byte(rt: HostRuntime) {
    let all = pattern_read(&rt, b"/[\x00-\xff]");
    for text in [
        b"/**".as_slice(),
        b"/?",
        b"/[^a]",
        b"/\x00",
        b"/*",
        b"/[\x00-\xff]",
    ] {
        holds(&rt, !is_matched(&pattern_read(&rt, text), b"/\x00"));
    }
    for (path, wanted) in [
        (b"/\x01".as_slice(), true),
        (b"/\xff", true),
        (b"//", true),
        (b"/", false),
        (b"/ab", false),
    ] {
        equal(&rt, is_matched(&all, path), wanted);
    }
    let last = pattern_read(&rt, b"/\xff");
    let is_so = is_matched(&last, b"/\xff") && !is_matched(&last, b"/\xfe");
    holds(&rt, is_so);
}

#[test]
fn what_no_word_of_a_rule_can_be_is_read_too(rt: HostRuntime) {
    holds(&rt, !is_matched(&pattern_read(&rt, b"/a**"), b"a"));
    for text in ["/a\\", "[", "{"] {
        let found = pattern_of(&rt, text.as_bytes()).err();
        equal_in(&rt, found, Some(PolicyKind::BadPattern), text);
    }
}

#[test]
fn literal_fronts(rt: HostRuntime) {
    for (text, front, is_literal) in [
        ("/usr/{bin,lib}", 5, false),
        ("/usr/*/x", 5, false),
        ("/usr/bin/*", 9, false),
        ("/usr", 4, true),
        ("/usr/?", 5, false),
        ("", 0, true),
        ("/a\\*", 3, true),
    ] {
        let read = pattern_read(&rt, text.as_bytes());
        let found = (read.literal_front(), read.is_literal());
        equal_in(&rt, found, (front, is_literal), text);
    }
}

#[test]
fn variables_are_set_once_and_added_to_once_they_are_there(rt: HostRuntime) {
    let mut vars = Vars::new(rt.alloc());
    let found = add(&mut vars, "A", &[b"x"]);
    equal(&rt, found, Err(PolicyKind::UndefinedVariable));
    equal(&rt, set(&mut vars, "A", &[b"x"]), Ok(()));
    let found = set(&mut vars, "A", &[b"y"]);
    equal(&rt, found, Err(PolicyKind::VariableTwice));
    equal(&rt, add(&mut vars, "A", &[b"z"]), Ok(()));
    let found = add(&mut vars, "B", &[b"z"]);
    equal(&rt, found, Err(PolicyKind::UndefinedVariable));
}

/// Which of the patterns match the path, as numbers one behind the other.
fn matching(rt: &(impl Abort + AllocGlobal), patterns: &[Pattern], path: &str) -> Vec<u8> {
    let (mut found, mut number) = (Vec::new(rt.alloc()), b'0');
    for pattern in patterns {
        if is_matched(pattern, path.as_bytes()) {
            extend(rt, &mut found, &[number]);
        }
        number = number.wrapping_add(1);
    }
    found
}

/// There are as many patterns as paths between blanks, and each path is matched by those of its name, the one in its place among them.
fn match_in_turn(rt: &(impl Abort + AllocGlobal), patterns: &[Pattern], paths: &str, text: &str) {
    for path in paths.split('|') {
        let (mut wanted, mut number) = (Vec::new(rt.alloc()), b'0');
        for other in paths.split('|') {
            if other == path {
                extend(rt, &mut wanted, &[number]);
            }
            number = number.wrapping_add(1);
        }
        let is_so = matching(rt, patterns, path).as_slice() == wanted.as_slice();
        holds_in(rt, is_so, text);
    }
    equal_in(rt, patterns.len(), paths.split('|').count(), text);
}

/// The variables that the words of a text begin with.
fn vars_of(rt: &(impl Abort + AllocGlobal), text: &str) -> Vars {
    let sources = Sources::new(rt.alloc());
    let list = words_of(rt, &sources, text.as_bytes()).expect(rt, text);
    preamble_of(rt.alloc(), list.list.as_slice(), 0, list.end)
        .expect(rt, text)
        .0
}

/// In a row that begins with `§` a text, a word, and behind `»` the paths that its expansions match, each just one but where two are the same.
const EXPANSIONS: &str = "\
    §The leftmost use varies slowest\
    §@{A}=a b¦/@{A}@{A}»/aa|/ab|/ba|/bb§@{A}=a\n@{A}+=b¦/@{A}»/a|/b\
    §What is put in makes no variable\
    §@{A}=@¦/@{A}{A}»/@A\
    §Runs of slashes become one\
    §@{HOME}=/home/*/ /root/¦@{HOME}/.x»/home/u/.x|/root/.x§@{A}=a¦//a//b/»/a/b/\
    §A variable that is used twice is no circle\
    §@{A}=@{B}@{B} @{B}\n@{B}=x¦/@{A}»/xx|/x\
    §A backslash keeps the sign of a variable\
    §¦/\\@{X}»/@X\
    §Variables have their values in order\
    §@{A}=a¦/@{A}»/a§@{A} = b a¦/@{A}»/b|/a§@{A}=a b a a¦/@{A}»/a|/b|/a|/a\
    §@{A}=a\n@{A}+=c b¦/@{A}»/a|/c|/b§@{B}=x\n@{A}=a\n@{B}+=y\n@{A}+=a¦/@{A}»/a|/a\
    §@{A}=\"b c\" d \"\"¦/@{A}»/b c|/d|/§abi <x>,\n@{A}=a\nabi \"y\",\n@{A}+=b\nabi <z>,¦/@{A}»/a|/b\
    §@{A}=@{B_1} c\n@{B_1}=b¦/@{A}»/b|/c§@{A}=a\nprofile p { }\n@{A}+=b¦/@{A}»/a";

#[test]
fn words_expand_in_order(rt: HostRuntime) {
    for row in EXPANSIONS.split('§') {
        if let Some((front, paths)) = row.split_once('»') {
            let (text, word) = front.split_once('¦').expect(&rt, row);
            let patterns = expansions(&rt, &vars_of(&rt, text), word.as_bytes()).expect(&rt, row);
            match_in_turn(&rt, patterns.as_slice(), paths, row);
        }
    }
    let vars = vars_of(&rt, "@{HOME}=/home/*/ /root/");
    let patterns = expansions(&rt, &vars, b"@{HOME}/.x").expect(&rt, "expansions");
    let found = matching(&rt, patterns.as_slice(), "/home/u/v/.x").len();
    equal(&rt, found, 0);
}

/// The most bytes of a pattern's text.
const TEXT: usize = 16384;

/// The most bytes of a path that a request holds.
const PATH: usize = 4095;

/// As many times the first bytes, and the others behind them, are matched, or aren't.
fn is_row_matched(
    rt: &(impl Abort + AllocGlobal),
    pattern: &Pattern,
    (each, count, behind): (&[u8], usize, &[u8]),
    wanted: bool,
) {
    let path = row(rt, each, u32::try_from(count).unwrap_or(0), behind);
    equal(rt, is_matched(pattern, path.as_slice()), wanted);
}

#[test]
fn texts_of_one_byte_over_and_over(rt: HostRuntime) {
    for (byte, count) in [(b'[', TEXT), (b'{', TEXT), (b'\\', TEXT - 1)] {
        let found = pattern_of(&rt, filled(&rt, byte, count).as_slice()).err();
        equal(&rt, found, Some(PolicyKind::BadPattern));
    }
    let kept = pattern_read(&rt, filled(&rt, b'\\', TEXT).as_slice());
    equal(&rt, kept.literal_front(), TEXT / 2);
    is_row_matched(&rt, &kept, (b"\\", TEXT / 2, b""), true);
}

#[test]
fn long_patterns_and_long_texts(rt: HostRuntime) {
    let stars = pattern_read(&rt, filled(&rt, b'*', TEXT).as_slice());
    is_row_matched(&rt, &stars, (b"/", PATH, b""), true);
    let is_so = is_matched(&stars, b"") && !is_matched(&stars, b"/a\x00");
    holds(&rt, is_so);
    let parts = pattern_read(&rt, row(&rt, b"/**", 500, b"x").as_slice());
    is_row_matched(&rt, &parts, (b"/a", PATH / 2, b""), false);
    is_row_matched(&rt, &parts, (b"/a", PATH / 2, b"x"), true);
    let ones = pattern_read(&rt, filled(&rt, b'?', TEXT).as_slice());
    for (count, wanted) in [(TEXT, true), (TEXT - 1, false), (PATH, false)] {
        is_row_matched(&rt, &ones, (b"a", count, b""), wanted);
    }
    let longer = pattern_read(&rt, b"/**x");
    for (behind, wanted) in [(b"".as_slice(), false), (b"x", true), (b"x\x00", false)] {
        is_row_matched(&rt, &longer, (b"/", 10000, behind), wanted);
    }
    let choice = pattern_read(&rt, b"/**{a,b*}x");
    is_row_matched(&rt, &choice, (b"/", 10000, b""), false);
    is_row_matched(&rt, &choice, (b"/", 10000, b"bx"), true);
}

/// Puts an item behind the others.
fn push(rt: &(impl Abort + AllocGlobal), items: &mut Vec<Item>, item: Item) {
    items.push(item).expect(rt, "memory");
}

#[test]
fn more_items_than_any_text_spells_on_a_text_longer_than_any_path(rt: HostRuntime) {
    let mut items = Vec::new(rt.alloc());
    for _ in 0..TEXT {
        push(&rt, &mut items, Item::Byte(b'/'));
        push(&rt, &mut items, Item::Run);
    }
    let pattern = Pattern { items };
    is_row_matched(&rt, &pattern, (b"/a", TEXT, b""), true);
    is_row_matched(&rt, &pattern, (b"/a", TEXT, b"/"), false);
}

#[test]
fn more_than_a_million_items_on_a_text_longer_than_any_path(rt: HostRuntime) {
    let mut items = Vec::new(rt.alloc());
    for _ in 0..1_100_000usize {
        push(&rt, &mut items, Item::Run);
    }
    push(&rt, &mut items, Item::Deep);
    push(&rt, &mut items, Item::One);
    let pattern = Pattern { items };
    is_row_matched(&rt, &pattern, (b"/", 2 * TEXT, b""), false);
    is_row_matched(&rt, &pattern, (b"/", 2 * TEXT, b"a"), true);
}

#[test]
fn a_class_may_list_every_byte(rt: HostRuntime) {
    let mut text = row(&rt, b"/[", 1, b"");
    for byte in 0..=255u8 {
        let kept: &[u8] = if byte.is_ascii_alphanumeric() {
            b""
        } else {
            b"\\"
        };
        extend(&rt, &mut text, kept);
        extend(&rt, &mut text, &[byte]);
    }
    extend(&rt, &mut text, b"]");
    let pattern = pattern_read(&rt, text.as_slice());
    for byte in 0..=255u8 {
        equal(&rt, is_matched(&pattern, &[b'/', byte]), byte != 0);
    }
}

#[test]
fn a_variable_has_at_most_1024_expansions(rt: HostRuntime) {
    for (count, wanted) in [
        (0u32, Ok(0)),
        (1024, Ok(1024)),
        (1025, Err(PolicyKind::TooManyExpansions)),
    ] {
        let mut vars = Vars::new(rt.alloc());
        is_set(&rt, &mut vars, "A", &[]);
        for _ in 0..count {
            equal(&rt, add(&mut vars, "A", &[b"x"]), Ok(()));
        }
        let found = expansions(&rt, &vars, b"/@{A}");
        let matched = found.map(|it| it.iter().filter(|one| is_matched(*one, b"/x")).count());
        equal(&rt, matched, wanted);
    }
}

#[test]
fn a_chain_of_names_may_be_long(rt: HostRuntime) {
    let mut vars = Vars::new(rt.alloc());
    is_set(&rt, &mut vars, "V0", &[b"x"]);
    for number in 1..1000u32 {
        let name = format!(in rt.alloc(); "V{number}").expect(&rt, "memory");
        let value = format!(in rt.alloc(); "@{{V{}}}", number.wrapping_sub(1)).expect(
            &rt, "memory",
        );
        is_set(&rt, &mut vars, name.as_str(), &[value.as_bytes()]);
    }
    let found = expansions(&rt, &vars, b"/@{V999}").expect(&rt, "expansions");
    let is_so = found.len() == 1 && found.iter().all(|it| is_matched(it, b"/x"));
    holds(&rt, is_so);
}
