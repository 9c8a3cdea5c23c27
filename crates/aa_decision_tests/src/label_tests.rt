//! Labels: their names and their profiles, those that aren't there, and the permissions of notes, where no line tells them.

use crate::comparing::{equal_in, holds_in};
use crate::texts::{FIRST, FREE, answered, policies_in, request, step};
use aa_compile::{Compiled, label_of, name_of_label, profile_of};
use aa_model::Label::{Confined, Unconfined};
use aa_model::{Answer, Label};

const TWO: &str = "profile p { profile h { } }¦profile q { } profile p { }";

#[test]
fn names_of_labels(rt: HostRuntime) {
    const NAMES: &[(Label, &str)] = &[
        (Confined(0, 0), "p"),
        (Confined(0, 1), "p//h"),
        (Confined(1, 0), "q"),
        (Confined(1, 1), "p"),
        (Unconfined(0), "unconfined"),
        (Unconfined(1), "unconfined"),
        (Confined(0, 2), ""),
        (Confined(2, 0), ""),
        (Unconfined(2), "unconfined"),
    ];
    let list = policies_in(&rt, TWO);
    for (label, name) in NAMES {
        equal_in(&rt, name_of_label(&list, *label), name.as_bytes(), name);
    }
}

#[test]
fn profiles_by_their_numbers(rt: HostRuntime) {
    const PROFILES: &[(u16, u16, &str)] = &[
        (0, 0, "p"),
        (0, 1, ""),
        (1, 0, "q"),
        (1, 1, "r"),
        (1, 2, ""),
        (2, 0, ""),
        (65535, 65535, ""),
    ];
    let list = policies_in(&rt, "profile p { }¦profile q { } profile r { }");
    for (policy, profile, name) in PROFILES {
        let found = match profile_of(&list, *policy, *profile) {
            Some(found) => found.name.as_slice(),
            None => "".as_bytes(),
        };
        equal_in(&rt, found, name.as_bytes(), name);
    }
}

#[test]
fn labels_by_their_names(rt: HostRuntime) {
    const LABELS: &[(u16, &str, Option<Label>)] = &[
        (0, "p", Some(Confined(0, 0))),
        (0, "p//h", Some(Confined(0, 1))),
        (1, "p", Some(Confined(1, 1))),
        (1, "q", Some(Confined(1, 0))),
        (0, "q", None),
        (0, "h", None),
        (1, "p//h", None),
        (0, "unconfined", Some(Unconfined(0))),
        (1, "unconfined", Some(Unconfined(1))),
        (2, "unconfined", None),
        (2, "p", None),
        (0, "", None),
    ];
    let list = policies_in(&rt, TWO);
    for (policy, name, label) in LABELS {
        equal_in(&rt, label_of(&list, *policy, name.as_bytes()), *label, name);
    }
}

#[test]
fn no_policies(rt: HostRuntime) {
    let list: Vec<Compiled> = Vec::new(rt.alloc());
    let found = name_of_label(&list, Confined(0, 0));
    equal_in(&rt, found, "".as_bytes(), "of a profile");
    let found = name_of_label(&list, Unconfined(0));
    equal_in(&rt, found, "unconfined".as_bytes(), "of none");
    holds_in(&rt, profile_of(&list, 0, 0).is_none(), "a profile");
    equal_in(&rt, label_of(&list, 0, b"unconfined"), None, "unconfined");
    equal_in(&rt, label_of(&list, 0, b"p"), None, "p");
}

/// Refused without a note, and the label stays.
fn refused(label: Label) -> (Answer, Label) {
    let (granted, scrub, note) = (false, false, None);
    let answer = Answer {
        granted,
        scrub,
        label,
        note,
    };
    (answer, label)
}

#[test]
fn a_label_that_is_not_there_is_refused_everything(rt: HostRuntime) {
    const EVERYTHING: &str =
        "r:/x x:/x l:/x->/x cap:chown net:inet/raw change:p change:unconfined reload:0";
    let list = policies_in(&rt, "profile p flags=(audit) { /x r, }");
    for label in [Confined(0, 1), Confined(1, 0), Unconfined(1)] {
        for word in EVERYTHING.split(' ') {
            let found = step(&list, label, &request(&rt, word));
            equal_in(&rt, found, refused(label), word);
        }
    }
}

#[test]
fn a_reload_to_what_is_not_there_is_refused_without_a_note(rt: HostRuntime) {
    for flags in ["", "flags=(complain)", "flags=(audit)"] {
        let both = format!(in rt.alloc(); "profile p {flags} {{ }}¦profile q {{ }}");
        let list = policies_in(&rt, both.expect(&rt, "memory").as_str());
        for label in [FIRST, FREE] {
            let found = step(&list, label, &request(&rt, "reload:2"));
            equal_in(&rt, found, refused(label), flags);
        }
    }
}

/// In a row that begins with `§` a policy, and behind `¦` what its first profile asks and what that is answered.
const NOTES: &str = "\
    §What an audit rule reports\
    §profile p { audit /x a, /x rw, audit /a ix, audit /l l, audit capability chown, audit change_profile -> q, } profile q { }\
    ¦rwa:/x»audited a|x:/a»audited x|l:/l->/x»audited l|cap:chown»audited|change:q»-> q audited\
    §What the audit flag reports\
    §profile p flags=(audit) { /x r, deny capability kill, network unix, }\
    ¦r:/x»audited r|cap:kill»denied|net:unix/seqpacket»audited\
    §What no rule allows\
    §profile p { } profile q { }¦cap:sys_admin»denied|net:mctp/dgram»denied|change:q»denied\
    §What complain mode grants\
    §profile c flags=(complain) { } profile q { }\
    ¦cap:bpf»allowed|net:inet/raw»allowed|change:q»-> q allowed|change:unconfined»-> unconfined allowed|change:z»allowed";

#[test]
fn notes_have_their_permissions(rt: HostRuntime) {
    for row in NOTES.split('§') {
        if let Some((text, rows)) = row.split_once('¦') {
            let list = policies_in(&rt, text);
            for ask in rows.split('|') {
                let (word, wanted) = ask.split_once('»').expect(&rt, ask);
                let (answer, after) = step(&list, FIRST, &request(&rt, word));
                let found = answered(&rt, &list, FIRST, &answer);
                let found = str::from_utf8(found.as_slice()).ok();
                equal_in(&rt, found, Some(wanted), ask);
                let is_granted = wanted.strip_prefix("denied").is_none();
                let (found, wanted) = ((answer.granted, after), (is_granted, answer.label));
                equal_in(&rt, found, wanted, ask);
            }
        }
    }
}
