//! Lines of answers, made by hand: names, masks and labels in them. (Cases tell the lines of what tasks ask.)

use crate::comparing::{equal, equal_in};
use crate::texts::{FIRST, compiled, policies_in, request};
use aa_audit::{audit_line, push_audit_line};
use aa_base::{Perms, plain_text, push_mask, push_value};
use aa_compile::Compiled;
use aa_model::NoteWord::{Allowed, Audit, Denied};
use aa_model::{Answer, Label, Note, NoteWord, Request};
use std::alloc::AllocError;
use std::process::Abort;

/// What is asked, the note's word and permissions, the label after, and the line; an empty one is none.
type Row<'r> = (&'r str, Option<(NoteWord, u8)>, Label, &'r str);

/// The row has the line that it says, made alone and appended.
fn is_line(
    rt: &(impl Abort + AllocGlobal),
    list: &[Compiled],
    row: Row,
    asked: &Request,
) -> Result<(), AllocError> {
    let note = row.1.map(|it| Note {
        word: it.0,
        perms: Perms(it.1),
    });
    let granted = !matches!(row.1, Some((Denied, _)));
    let answer = Answer {
        granted,
        scrub: false,
        label: row.2,
        note,
    };
    let line = audit_line(rt.alloc(), list, FIRST, asked, &answer)?;
    match &line {
        Some(line) => equal(rt, line.as_str(), row.3),
        None => equal(rt, "", row.3),
    }
    let mut out = String::new(rt.alloc());
    out.push_str("> ")?;
    let is_one = push_audit_line(&mut out, list, FIRST, asked, &answer)?;
    let found = (out.as_str().strip_prefix("> "), is_one);
    equal(rt, found, (Some(row.3), !row.3.is_empty()));
    Ok(())
}

/// Each row has the line that it says.
fn are_lines(rt: &(impl Abort + AllocGlobal), texts: &str, rows: &[Row]) {
    let list = policies_in(rt, texts);
    for row in rows {
        is_line(rt, &list, *row, &request(rt, row.0)).expect(rt, "memory");
    }
}

const EACH_PERMISSION: &[Row] = &[
    (
        "rwakm:/x",
        Some((Denied, 127)),
        FIRST,
        "apparmor=\"DENIED\" operation=\"file\" profile=\"p\" name=\"/x\" requested_mask=\"rwakm\" denied_mask=\"rwalkmx\"",
    ),
    (
        "l:/l/x->2F742078",
        Some((Allowed, 72)),
        FIRST,
        "apparmor=\"ALLOWED\" operation=\"link\" profile=\"p\" name=\"/l/x\" target=2F742078 requested_mask=\"l\" denied_mask=\"lx\"",
    ),
];

#[test]
fn each_permission_of_a_note_has_its_letter(rt: HostRuntime) {
    are_lines(&rt, "profile p { }", EACH_PERMISSION);
}

#[test]
fn a_reload_has_no_line(rt: HostRuntime) {
    let rows: &[Row] = &[
        ("reload:1", None, Label::Confined(1, 0), ""),
        ("reload:1", Some((Audit, 0)), Label::Confined(1, 0), ""),
        ("reload:2", Some((Denied, 0)), FIRST, ""),
        ("reload:2", Some((Allowed, 0)), FIRST, ""),
    ];
    are_lines(&rt, "profile p { }¦profile p { }", rows);
}

const OF_TWO_POLICIES: &[Row] = &[(
    "x:/h",
    Some((Audit, 64)),
    Label::Confined(1, 1),
    "apparmor=\"AUDIT\" operation=\"exec\" profile=\"p\" name=\"/h\" requested_mask=\"x\" target=6120622F2F68",
)];

#[test]
fn labels_of_two_policies(rt: HostRuntime) {
    let texts = "profile p { }¦profile \"a b\" { profile h { } }";
    are_lines(&rt, texts, OF_TWO_POLICIES);
}

#[test]
fn names_between_quotes_or_in_hexadecimal(rt: HostRuntime) {
    const NAMES: &[(&str, &str, bool)] = &[
        ("/etc/passwd", "\"/etc/passwd\"", true),
        ("", "\"\"", true),
        ("!~", "\"!~\"", true),
        ("/n m", "2F6E206D", false),
        ("/\"", "2F22", false),
        ("/\u{7f}", "2F7F", false),
        ("/é", "2FC3A9", false),
        ("/\n\u{1}", "2F0A01", false),
        ("\\", "\"\\\"", true),
    ];
    for (name, wanted, is_plain) in NAMES {
        let mut out = String::new(rt.alloc());
        push_value(&mut out, name.as_bytes()).expect(&rt, "memory");
        equal(&rt, out.as_str(), *wanted);
        equal_in(&rt, plain_text(name.as_bytes()).is_some(), *is_plain, name);
    }
}

#[test]
fn every_letter_of_a_mask(rt: HostRuntime) {
    const MASKS: &[(u8, &str)] = &[
        (1, "\"r\""),
        (2, "\"w\""),
        (4, "\"a\""),
        (8, "\"l\""),
        (16, "\"k\""),
        (32, "\"m\""),
        (64, "\"x\""),
        (0, "\"\""),
        (127, "\"rwalkmx\""),
        (86, "\"wakx\""),
    ];
    for (bits, wanted) in MASKS {
        let mut out = String::new(rt.alloc());
        push_mask(&mut out, Perms(*bits)).expect(&rt, "memory");
        equal(&rt, out.as_str(), *wanted);
    }
}

const ROW: Row = (
    "x:/bin/x",
    Some((Allowed, 64)),
    FIRST,
    "apparmor=\"ALLOWED\" operation=\"exec\" profile=\"p\" name=2F62696E2F782079 requested_mask=\"x\" denied_mask=\"x\" target=\"p\"",
);

#[test]
fn a_growth_refused_to_a_line_is_no_memory(rt: HostRuntime) {
    for _ in 0..3 {
        let policy = compiled(rt.alloc(), "profile p { }", 4096);
        let asked = Request::exec(rt.alloc(), b"/bin/x y", false);
        if let (Ok(policy), Ok(asked)) = (policy, asked) {
            if is_line(&rt, &[policy], ROW, &asked).is_ok() {
                return;
            }
        }
    }
    panic!(rt; "refused each time")
}
