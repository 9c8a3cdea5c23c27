//! The words of texts. In a table a row begins with `§`: a title, or a text and behind `»` what it is read as.

use crate::comparing::{equal, holds_in};
use crate::texts::{extend, words_of};
use aa_base::Spot;
use aa_words::{Sources, Word};
use std::process::Abort;

/// Where a word begins, and its kind. In what is included its reading and its source stand first.
fn front_of(rt: &(impl Abort + AllocGlobal), word: &Word) -> String {
    let (span, kind) = (word.span, word.kind);
    let front = if span.reading == 0 {
        format!(in rt.alloc(); "{} {kind:?} ", span.start)
    } else {
        format!(in rt.alloc(); "{}.{}.{} {kind:?} ", span.reading, span.file, span.start)
    };
    front.expect(rt, "memory")
}

fn kind_of(rt: &(impl Abort + AllocGlobal), word: &Word) -> String {
    let kind = word.kind;
    format!(in rt.alloc(); "{kind:?}").expect(rt, "memory")
}

/// Words one behind the other.
fn told(rt: &(impl Abort + AllocGlobal), words: &[Word]) -> Vec<u8> {
    let mut told = Vec::new(rt.alloc());
    for word in words {
        let sign: &[u8] = if told.is_empty() { b"" } else { b"|" };
        extend(rt, &mut told, sign);
        extend(rt, &mut told, front_of(rt, word).as_bytes());
        extend(rt, &mut told, word.text);
    }
    told
}

/// The kinds of words, one behind the other.
fn kinds(rt: &(impl Abort + AllocGlobal), words: &[Word]) -> Vec<u8> {
    let mut told = Vec::new(rt.alloc());
    for word in words {
        let sign: &[u8] = if told.is_empty() { b"" } else { b" " };
        extend(rt, &mut told, sign);
        extend(rt, &mut told, kind_of(rt, word).as_bytes());
    }
    told
}

/// Whether each word ends as many bytes behind its first as it has.
fn end_behind_their_bytes(words: &[Word]) -> bool {
    words.iter().all(|it| (it.span.start as usize).wrapping_add(it.text.len())
        == it.span.end as usize)
}

/// The text has these words.
fn has_words(rt: &(impl Abort + AllocGlobal), sources: &Sources, text: &str, wanted: &str) {
    let found = words_of(rt, sources, text.as_bytes()).expect(rt, text);
    let words = found.list.as_slice();
    holds_in(rt, told(rt, words).as_slice() == wanted.as_bytes(), text);
    holds_in(rt, end_behind_their_bytes(words), text);
}

/// The text has words of these kinds.
fn has_kinds(rt: &(impl Abort + AllocGlobal), text: &str, wanted: &str) {
    let sources = Sources::new(rt.alloc());
    let found = words_of(rt, &sources, text.as_bytes()).expect(rt, text);
    let is_so = kinds(rt, found.list.as_slice()).as_slice() == wanted.as_bytes();
    holds_in(rt, is_so, text);
}

/// The text of each row has its words. What it includes is among these sources.
fn have_words(rt: &(impl Abort + AllocGlobal), included: &[(&str, &str)], rows: &str) {
    let mut sources = Sources::new(rt.alloc());
    for (name, text) in included {
        equal(rt, sources.add(name.as_bytes(), text.as_bytes()), Ok(()));
    }
    for row in rows.split('§') {
        if let Some((text, wanted)) = row.split_once('»') {
            has_words(rt, &sources, text, wanted);
        }
    }
}

/// Each of a row's texts, between which stands `¦`, has words of its kinds.
fn have_kinds(rt: &(impl Abort + AllocGlobal), rows: &str) {
    for row in rows.split('§') {
        if let Some((texts, wanted)) = row.split_once('»') {
            for text in texts.split('¦') {
                has_kinds(rt, text, wanted);
            }
        }
    }
}

const WORDS: &str = "\
    §A text that ends too early gives its words\
    §profile p { /x r,»0 Name profile|8 Name p|10 Open {|12 Path /x|15 Name r|16 Comma ,\
    §Blanks and comments are no words\
    §#c\r\na\tb# # d»4 Name a|6 Name b#\
    §Commas end a path only where a rule ends\
    §/{a,b}c rw,»0 Path /{a,b}c|8 Name rw|10 Comma ,\
    §Names end at signs\
    §a-b,<c/d>{@e}+f»0 Name a-b|3 Comma ,|4 Name <c/d>|9 Open {|10 Name @e|12 Close }|13 Name +f\
    §Variables begin a path\
    §@{HOME}/.x r,»0 Path @{HOME}/.x|11 Name r|12 Comma ,\
    §Signs are words\
    §a=b(c)d->e+=+=-f»0 Name a|1 Equals =|2 Name b|3 LeftParen (|4 Name c|5 RightParen )|6 Name d|7 Arrow ->|9 Name e+|11 Equals =|12 PlusEquals +=|14 Name -f\
    §Quoted words stand between their quotes\
    §profile \"a b\" \"\" {\"/x\\\"y\" r,»0 Name profile|9 Quoted a b|15 Quoted |17 Open {|19 Quoted /x\\\"y|26 Name r|27 Comma ,\
    §\"a\\\\\"b \"#{\n\"»1 Quoted a\\\\|5 Name b|8 Quoted #{\n\
    §Values go up to the line end\
    §@{HOME}=/home/*/ /root/\nprofile»0 Path @{HOME}|7 Equals =|8 Value /home/*/|17 Value /root/|24 Name profile\
    §@{XDG_DESKTOP_DIR}=\"Desk\ntop\"a\"b \"\"»0 Path @{XDG_DESKTOP_DIR}|18 Equals =|20 Value Desk\ntop|29 Value a\"b|34 Value \
    §@{A}+=a\\ b\\\nc\nd»0 Path @{A}|4 PlusEquals +=|6 Value a\\|9 Value b|12 Value c|14 Name d\
    §Values may be any bytes\
    §@{A}={b,c} , ->= signal d#e #f\nsignal,»0 Path @{A}|4 Equals =|5 Value {b,c}|11 Value ,|13 Value ->=|17 Value signal|24 Value d#e|31 Skipped signal|37 Comma ,\
    §Rules that are passed over are words\
    §profile p { signal (send, receive) peer=\"a,b\", /x r, }»0 Name profile|8 Name p|10 Open {|12 Skipped signal (send, receive) peer=\"a,b\"|45 Comma ,|47 Path /x|50 Name r|51 Comma ,|53 Close }\
    §audit deny mount options=(rw, bind),»0 Name audit|6 Name deny|11 Skipped mount options=(rw, bind)|35 Comma ,\
    §A change of profile is no rule that is passed over\
    §audit change_profile-> q*, change_profile,»0 Name audit|6 Name change_profile|20 Arrow ->|23 Name q*|25 Comma ,|27 Name change_profile|41 Comma ,\
    §The words of a change of profile are words like others. No comma is looked for behind the last, and none is missing\
    §deny change_profile /bin/sh -> \"a,b\", allow change_profile -> /x{a,b}, change_profile»0 Name deny|5 Name change_profile|20 Path /bin/sh|28 Arrow ->|32 Quoted a,b|36 Comma ,|38 Name allow|44 Name change_profile|59 Arrow ->|62 Path /x{a,b}|69 Comma ,|71 Name change_profile";

#[test]
fn texts_have_their_words(rt: HostRuntime) {
    have_words(&rt, &[], WORDS);
}

const KINDS: &str = "\
    §Blanks and comments are no words\
    §¦ \t\r\n¦# a { , \" } /b»\
    §Commas end a path only where a rule ends\
    §/a,¦/a, # c¦/a,#c¦/a}, ¦/a\\\\, ¦/[a], ¦/{a}}, »Path Comma\
    §/a,b¦/{a,b}¦/{a, ¦/[,] ¦/[, ¦/a\\, ¦/a\\ b¦/a#b¦/[{,]a}»Path\
    §/a,}»Path Comma Close§/{a, b»Path Name\
    §Variables begin a path\
    §@{A}b=c¦@{1A}=c¦@{}=c¦@{A¦@{A}+b¦@{A=b}=c¦/@{A}=b»Path\
    §@{A}=b¦@{A} = b¦@{A} #\n=b»Path Equals Value\
    §@{A_9z}+=b»Path PlusEquals Value\
    §@{1A} = b¦@{A}/ = b¦@{A = b¦@{A.} = b»Path Equals Name\
    §Signs are words\
    §/a px -> b,»Path Name Arrow Name Comma§/a->b /c=(d)»Path Path\
    §Quoted words stand between their quotes\
    §{\"a\"»Open Quoted§}\"a\"»Close Quoted§,\"a\"»Comma Quoted§=\"a\"»Equals Quoted§(\"a\"»LeftParen Quoted\
    §)\"a\"»RightParen Quoted§+=\"a\"»PlusEquals Quoted§->\"a\"»Arrow Quoted§a \"b\"»Name Quoted\
    §Values may be any bytes\
    §@{A}=\"b\"#c\nset,¦@{A} = b\\\r\nset,»Path Equals Value Skipped Comma\
    §A comma in parentheses begins no rule\
    §a (b, signal), signal d,»Name LeftParen Name Comma Name RightParen Comma Skipped Comma\
    §))(,set),set,»RightParen RightParen LeftParen Comma Name RightParen Comma Skipped Comma\
    §({set,set»LeftParen Open Skipped Comma Name\
    §Includes that may be missing are no words\
    §include if exists <m>¦include if\nexists\n<m>,¦include if exists\"m\"¦#include if exists <m>»\
    §Includes of another form\
    §#include¦#include m¦#include<m>¦#includes <m>¦# include <m>¦#include <m»\
    §include<m> a¦includes <m>¦deny include¦deny a # include <m>¦deny a #include <m>»Name Name§deny #include <m>»Name";

#[test]
fn texts_have_words_of_their_kinds(rt: HostRuntime) {
    have_kinds(&rt, KINDS);
}

#[test]
fn each_keyword_begins_a_rule_that_is_passed_over(rt: HostRuntime) {
    const KEYWORDS: &str =
        "signal ptrace dbus unix mount remount umount pivot_root set userns mqueue io_uring";
    for word in KEYWORDS.split(' ') {
        let rows = format!(in rt.alloc();
            "{word},»Skipped Comma§audit deny {word} a,»Name Name Skipped Comma§owner {word}¦{word}s {word}»Name Name"
        );
        have_kinds(&rt, rows.expect(&rt, "memory").as_str());
    }
}

#[test]
fn passed_over_rules_end_at_the_first_comma_outside(rt: HostRuntime) {
    const RULES: &str =
        "mount {a,b} -> /c§dbus [a,(b],)§ptrace ))(, ) }§dbus \"a\\\",b\"§dbus a\\\",b\"§set rlimit # a, \"b {\n nofile <= 8§mount a#b§mount \"a\"# b,\n§mount (#b, )\n)§userns -># a,\n b§userns a>#b§unix->\"/a,b\"§signal {[(\")]},\")]}";
    for rule in RULES.split('§') {
        let row = format!(in rt.alloc(); "{rule},»0 Skipped {rule}|{} Comma ,", rule.len());
        have_words(&rt, &[], row.expect(&rt, "memory").as_str());
    }
}

#[test]
fn includes_stand_for_the_words_of_their_sources(rt: HostRuntime) {
    const ROW: &str =
        "p { include \"b c\", include if exists <a>#include <>,include if exists <z>} »0 Name p|2 Open {|2.1.0 Path /y|2.1.3 Name w|2.1.4 Comma ,|1.2.14 Quoted q r|3.1.0 Path /y|3.1.3 Name w|3.1.4 Comma ,|73 Close }";
    have_words(
        &rt,
        &[("a", "/y w,"), ("b c", "#include <a>\n\"q r\""), ("", "")],
        ROW,
    );
}

#[test]
fn a_rule_begins_behind_an_include(rt: HostRuntime) {
    const ROWS: &str =
        "({include <a>set,set»0 LeftParen (|1 Open {|1.1.0 Name b|1.1.1 Comma ,|1.1.3 Skipped set c|1.1.8 Comma ,|13 Skipped set|16 Comma ,|17 Name set\
        §include <q> ,»1.2.0 Name deny|12 Comma ,§include <q>\"b\"»1.2.0 Name deny|12 Quoted b";
    have_words(&rt, &[("a", "b, set c,"), ("q", "deny")], ROWS);
}

#[test]
fn bytes_that_are_no_utf8_stand_in_words(rt: HostRuntime) {
    let sources = Sources::new(rt.alloc());
    let found = words_of(&rt, &sources, b"/\xff\xfe \xc3z").expect(&rt, "words");
    assert!(rt;
        told(&rt, found.list.as_slice()).as_slice() == b"0 Path /\xff\xfe|4 Name \xc3z".as_slice()
    );
}

#[test]
fn the_end_is_that_of_the_text(rt: HostRuntime) {
    let sources = Sources::new(rt.alloc());
    let found = words_of(&rt, &sources, b"profile p { /x r,").expect(&rt, "words");
    equal(&rt, found.end, Spot { file: 0, byte: 17 });
}
