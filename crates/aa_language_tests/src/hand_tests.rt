//! Words that are made by hand, policies that are cut short or changed, and what texts and lists give back.

use crate::comparing::{equal, equal_in, holds};
use crate::policy_tests::read;
use crate::texts::words_of;
use aa_base::{PolicyFault, PolicyKind, Seq, Spot, Text};
use aa_pattern::matching_is_decided;
use aa_policy::{begins_profile, head_of, parse, spelled_once};
use aa_rules::{RuleTree, rule_of};
use aa_words::{Sources, Span, Word, WordKind, WordList};
use bitflags::Flags;
use std::process::Abort;

/// A word that stands at its number.
fn word(kind: WordKind, text: &[u8], start: u32) -> Word<'_> {
    let (reading, file, end) = (0, 0, start);
    Word {
        kind,
        text,
        span: Span {
            reading,
            file,
            start,
            end,
        },
    }
}

/// The words of `profile NAME { PATH r, }`, which count up.
fn words_by_hand<'s>(
    rt: &(impl Abort + AllocGlobal),
    name: &'s str,
    path: &'s str,
) -> WordList<'s> {
    let list = [
        word(WordKind::Name, b"profile", 0),
        word(WordKind::Name, name.as_bytes(), 1),
        word(WordKind::Open, b"{", 2),
        word(WordKind::Path, path.as_bytes(), 3),
        word(WordKind::Name, b"r", 4),
        word(WordKind::Comma, b",", 5),
        word(WordKind::Close, b"}", 6),
    ];
    WordList {
        list: list.to_vec(rt.alloc()).expect(rt, "memory"),
        end: Spot { file: 0, byte: 7 },
    }
}

/// The number and the byte of a fault; of none 0 and 0.
fn told(fault: Option<PolicyFault>) -> (u8, u32) {
    match fault {
        Some(fault) => (fault.kind.number(), fault.at.byte),
        None => (0, 0),
    }
}

#[test]
fn names_and_paths_of_words_that_no_text_has(rt: HostRuntime) {
    for (name, path, wanted) in [
        ("a@{b", "/x", (5, 1)),
        ("/a", "/x", (0, 0)),
        ("", "/x", (4, 1)),
        ("a", "/x", (0, 0)),
        ("p", "@{HOME}/x", (10, 3)),
        ("p", "x", (14, 3)),
        ("p", "", (14, 3)),
    ] {
        let list = words_by_hand(&rt, name, path);
        equal_in(&rt, told(parse(rt.alloc(), &list).err()), wanted, name);
    }
}

/// What a rule with an empty mode grants.
fn granted_by_nothing(words: &[Word], end: Spot) -> Option<u8> {
    match rule_of(words, 0, end) {
        Ok((RuleTree::File(file), _)) => Some(file.perms.bits()),
        _ => None,
    }
}

#[test]
fn an_empty_mode_grants_nothing(rt: HostRuntime) {
    let words = [
        word(WordKind::Name, b"allow", 0),
        word(WordKind::Path, b"/x", 1),
        word(WordKind::Name, b"", 2),
        word(WordKind::Comma, b",", 3),
    ];
    let found = granted_by_nothing(&words, Spot { file: 0, byte: 4 });
    equal(&rt, found, Some(0));
}

fn begins(rt: &(impl Abort + AllocGlobal), text: &str) -> bool {
    let sources = Sources::new(rt.alloc());
    begins_profile(
        words_of(rt, &sources, text.as_bytes())
            .expect(rt, text)
            .list
            .as_slice(),
        0,
    )
}

#[test]
fn a_profile_begins_at_its_keyword_or_a_path_that_names_it(rt: HostRuntime) {
    const PROFILES: &str = "profile p {¦profile¦/x {¦/x (¦/x flags =¦/x xattrs=¦\"x\" {¦\"\" flags";
    const OTHERS: &str =
        "/x r,¦/x flag {¦/x \"flags\" {¦/x¦/x }¦x {¦profiles p {¦\"profile\" p {¦flags=(enforce) {¦signal,¦}¦";
    for (texts, wanted) in [(PROFILES, true), (OTHERS, false)] {
        for text in texts.split('¦') {
            equal_in(&rt, begins(&rt, text), wanted, text);
        }
    }
}

/// The fault of a text's head.
fn fault_of_head(rt: &(impl Abort + AllocGlobal), text: &str, is_top: bool) -> Option<PolicyFault> {
    let sources = Sources::new(rt.alloc());
    let list = words_of(rt, &sources, text.as_bytes()).expect(rt, text);
    head_of(list.list.as_slice(), 0, is_top, list.end).err()
}

#[test]
fn no_head_begins_with_another_word(rt: HostRuntime) {
    for text in ["", "{", "p {", "signal,"] {
        equal_in(&rt, told(fault_of_head(&rt, text, true)), (4, 0), text);
        equal_in(&rt, told(fault_of_head(&rt, text, false)), (4, 0), text);
    }
}

#[test]
fn no_front_of_a_policy_is_one(rt: HostRuntime) {
    let text = b"profile p { /x w, /x a, }";
    for n in 1..text.len() {
        assert!(rt; read(&rt, &text[..n]).is_err(), "at {n}");
    }
    holds(&rt, read(&rt, text).is_ok());
}

/// A policy with every construct.
const WHOLE: &str =
    "abi <abi/4.0>,\n@{HOME}=/home/*/ /root/\n@{HOME}+=/srv/*/\nprofile p /usr/bin/p flags=(attach_disconnected, enforce) {\n  abi <abi/3.0>,\n  audit deny owner @{HOME}/** w,\n  file r /etc/{passwd,group},\n  /usr/bin/q Cx -> helper,\n  rw \"/tmp/a b\",\n  file,\n  capability chown kill,\n  deny capability,\n  network inet stream,\n  signal (send) peer=q,\n  profile helper { /x r, }\n  /usr/bin/q (enforce) { deny /y w, ptrace, }\n}\n/usr/lib/* { }\n";

/// Whether a text is read, or refused with a kind that there is, within its bytes.
fn is_read_or_refused(rt: &(impl Abort + AllocGlobal), text: &[u8]) -> bool {
    let (number, byte) = told(read(rt, text).err());
    number < 19 && (byte as usize) <= text.len()
}

#[test]
fn each_front_of_a_policy_is_read_or_refused(rt: HostRuntime) {
    let text = WHOLE.as_bytes();
    for n in 0..text.len() {
        assert!(rt; is_read_or_refused(&rt, &text[..n]), "at {n}");
    }
    holds(&rt, read(&rt, text).is_ok());
}

#[test]
fn each_byte_of_a_policy_may_be_another(rt: HostRuntime) {
    let text =
        "@{A}=b\nprofile p /a { owner /x{a,b} Px -> q, network tcp, profile c { } }".as_bytes();
    for n in 0..text.len() {
        for other in [0, b'{', b'}', b'"', b',', b'/', b'@', b'\\', b'(', 255] {
            if let Ok(mut changed) = Vec::from_slice(rt.alloc(), text) {
                changed[n] = other;
                assert!(rt; is_read_or_refused(&rt, changed.as_slice()), "at {n}");
            }
        }
    }
}

#[test]
fn lists_and_texts_give_back_what_they_hold(rt: HostRuntime) {
    let text = Text::copy_of(rt.alloc(), b"ab").expect(&rt, "memory");
    holds(&rt, text.as_slice() == b"ab".as_slice());
    holds(&rt, text.into_vec().as_slice() == b"ab".as_slice());
    let list = Seq::from_vec(Vec::from_slice(rt.alloc(), &[1, 2]).expect(&rt, "memory"));
    holds(&rt, list.as_slice() == [1, 2].as_slice());
    holds(&rt, list.into_vec().as_slice() == [1, 2].as_slice());
}

#[test]
fn a_fault_is_printed_with_number_kind_and_place(rt: HostRuntime) {
    let fault = PolicyFault {
        kind: PolicyKind::WriteWithAppend,
        at: Spot { file: 0, byte: 15 },
    };
    let line = format!(in rt.alloc(); "{fault}").expect(&rt, "memory");
    equal(&rt, line.as_str(), "refused 8 WriteWithAppend 0:15");
}

#[test]
fn laws_are_there(_rt: HostRuntime) {
    spelled_once();
    matching_is_decided();
}
