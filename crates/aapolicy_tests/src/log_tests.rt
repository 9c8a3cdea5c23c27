//! Fields of lines of logs, request words that come back, and growths that are refused. (Cases tell what lines ask, and which are chosen.)

use crate::comparing::{equal, equal_in};
use aa_logs::{Choice, Line, Then, is_chosen, last_of, line_of, name_of, read_line};
use aa_notation::{WordFault, push_word, read_word};
use std::alloc::Global;
use std::process::Abort;

/// What the last field of a key in a line stands for.
fn value_of(rt: &(impl Abort + AllocGlobal), line: &str, key: &str) -> Option<Vec<u8>> {
    let words = read_line(rt.alloc(), line.as_bytes()).expect(rt, "memory");
    let word = last_of(words.as_slice(), key.as_bytes())?;
    Some(name_of(rt.alloc(), word).expect(rt, "memory"))
}

#[test]
fn fields_have_their_values(rt: HostRuntime) {
    let rows: &[(&str, &str, Option<&[u8]>)] = &[
        // A field stands in quotes or is a run.
        ("a=1 b=2", "a", Some(b"1")),
        ("a=1 b=2", "b", Some(b"2")),
        ("a=1 b=2", "c", None),
        ("a=\"x y\" b=2", "a", Some(b"x y")),
        ("a=\"x\"b=2", "b", Some(b"2")),
        ("a=", "a", Some(b"")),
        ("a=\"\"", "a", Some(b"")),
        ("=1 a=2", "", Some(b"=1")),
        ("1a=2", "1a", None),
        ("_a=2", "_a", Some(b"2")),
        // The last value of a key counts.
        ("pid=1 msg='pid=2'", "pid", Some(b"2'")),
        ("pid=1 pid=\"3\"", "pid", Some(b"3")),
        // What a daemon adds stands behind its own separator.
        ("target=\"q\"\x1dUID=\"root\"", "UID", Some(b"root")),
        ("ouid=0\x1dUID=\"root\"", "ouid", Some(b"0")),
        ("a=1\tb=2", "a", Some(b"1")),
        // A name in hexadecimal digits is its bytes.
        ("name=2F6E206D", "name", Some(b"/n m")),
        ("name=2f6e", "name", Some(b"/n")),
        ("name=2F6E2", "name", Some(b"2F6E2")),
        ("name=2F6G", "name", Some(b"2F6G")),
        ("name=\"2F6E\"", "name", Some(b"2F6E")),
        ("name=00FF", "name", Some(b"\x00\xFF")),
    ];
    for (line, key, wanted) in rows {
        let found = value_of(&rt, line, key);
        let value = match &found {
            Some(value) => Some(value.as_slice()),
            None => None,
        };
        equal_in(&rt, value, *wanted, line);
    }
}

#[test]
fn a_growth_refused_to_a_line_is_no_memory(rt: HostRuntime) {
    let line: &[u8] =
        b"apparmor=\"DENIED\" operation=\"link\" profile=70 name=2F61 target=\"/b\" pid=1";
    if let Ok(found) = line_of(rt.alloc(), line) {
        let then = match &found {
            Line::Asks(record) => Some(record.then),
            Line::Other | Line::Skipped(_) => None,
        };
        equal(&rt, then == Some(Then::Denied), true);
    }
}

#[test]
fn a_growth_refused_to_a_choice_is_no_memory(rt: HostRuntime) {
    let line = b"type=AVC msg=audit(1700733602.999:43): apparmor=\"DENIED\" profile=\"p\"";
    if let Ok(name) = Vec::from_slice(rt.alloc(), b"p") {
        let names = [name];
        let choice = Choice {
            profiles: names.as_slice(),
            since: None,
            until: None,
        };
        if let Ok(found) = is_chosen(rt.alloc(), &choice, line) {
            equal(&rt, found, true);
        }
    }
}

/// The word that a request is which a word is.
fn again(alloc: Global, word: &str) -> Result<Vec<u8>, WordFault> {
    let request = read_word(alloc, word.as_bytes(), false)?;
    let mut out = Vec::new(alloc);
    push_word(&mut out, &request)?;
    Ok(out)
}

#[test]
fn a_request_is_written_as_it_is_read_whichever_growth_is_refused(rt: HostRuntime) {
    const WORDS: &str =
        "r:/etc/passwd rwakm:/x owned:rw:/home/u x:/bin/ls owned:x:/bin/ls l:/a->/b owned:l:/a->/b l:2F612D3E62->/c r:2F6E206D cap:net_admin net:inet/stream change:shell change=612062";
    for word in WORDS.split(' ') {
        match again(rt.alloc(), word) {
            Ok(written) => equal_in(&rt, written.as_slice(), word.as_bytes(), word),
            Err(fault) => equal_in(&rt, fault == WordFault::NoMemory, true, word),
        }
    }
}
