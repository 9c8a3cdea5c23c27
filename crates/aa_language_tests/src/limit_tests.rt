//! How large texts may be, and how many sources there may be.

use crate::comparing::{equal, equal_in};
use crate::texts::{filled, row, words_of};
use aa_base::{PolicyFault, PolicyKind, Spot};
use aa_words::Sources;
use std::process::Abort;

const LARGEST: usize = 1048576;

const TOO_LARGE: PolicyFault = PolicyFault {
    kind: PolicyKind::TooLarge,
    at: Spot { file: 0, byte: 0 },
};

const SYNTAX: PolicyFault = PolicyFault {
    kind: PolicyKind::Syntax,
    at: Spot { file: 0, byte: 0 },
};

/// How many words a text has, and the file and the byte at which it ends, or why it is refused.
fn counted(rt: &(impl Abort + AllocGlobal), text: &[u8]) -> Result<(usize, u16, u32), PolicyFault> {
    let sources = Sources::new(rt.alloc());
    let found = words_of(rt, &sources, text)?;
    Ok((found.list.len(), found.end.file, found.end.byte))
}

#[test]
fn parentheses_may_be_deep(rt: HostRuntime) {
    let found = counted(&rt, row(&rt, b"(", 100000, b",a").as_slice());
    equal(&rt, found, Ok((100002, 0, 100002)));
}

#[test]
fn a_text_has_at_most_a_mebibyte(rt: HostRuntime) {
    let found = counted(&rt, filled(&rt, b' ', LARGEST).as_slice());
    equal(&rt, found, Ok((0, 0, 1048576)));
    let more = counted(&rt, row(&rt, b" ", 1048576, b"\0").as_slice());
    equal(&rt, more, Err(TOO_LARGE));
}

#[test]
fn a_source_is_added_once_and_not_too_large(rt: HostRuntime) {
    let mut sources = Sources::new(rt.alloc());
    equal(&rt, sources.add(b"a", b"/x r,"), Ok(()));
    equal(&rt, sources.add(b"a", b""), Err(SYNTAX));
    let most = filled(&rt, b' ', LARGEST);
    let more = filled(&rt, b' ', LARGEST + 1);
    equal(&rt, sources.add(b"b", most.as_slice()), Ok(()));
    equal(&rt, sources.add(b"c", more.as_slice()), Err(TOO_LARGE));
    equal(&rt, sources.add(b"a", more.as_slice()), Err(TOO_LARGE));
}

#[test]
fn at_most_4095_names_are_added(rt: HostRuntime) {
    let mut sources = Sources::new(rt.alloc());
    for number in 0..4096u32 {
        let name = format!(in rt.alloc(); "{number}").expect(&rt, "memory");
        let wanted = if number < 4095 {
            Ok(())
        } else {
            Err(TOO_LARGE)
        };
        let found = sources.add(name.as_bytes(), b"");
        equal_in(&rt, found, wanted, name.as_str());
    }
    equal(&rt, sources.add(b"0", b""), Err(TOO_LARGE));
}
