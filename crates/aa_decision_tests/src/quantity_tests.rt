//! How many requests of a word are granted, of worked policies: the one that is refused where none is. (Cases tell how many are.)

use crate::comparing::{equal_in, holds};
use crate::texts::{FIRST, policies_in, push_request, request};
use aa_base::{Perms, Seq};
use aa_glob::read_pattern;
use aa_quantifiers::{
    Aim, ExecsWord, FilesWord, First, Labels, Quantity, QuantityFault, Whose, Word, first_of,
    quantity_of,
};
use std::process::Abort;

/// To read the files of a pattern.
fn reading(rt: &(impl Abort + AllocGlobal), pattern: &str, whose: Whose) -> Word {
    let pattern = read_pattern(rt.alloc(), pattern.as_bytes()).expect(rt, pattern);
    let masks = Vec::from_slice(rt.alloc(), &[Perms::READ]).expect(rt, "memory");
    let masks = Seq::from_vec(masks);
    Word::Files(FilesWord {
        pattern,
        masks,
        whose,
    })
}

/// The first profile of the policy is granted nothing of the word, as this request shows.
fn is_never(rt: &(impl Abort + AllocGlobal), policy: &str, word: &Word, wanted: &str) {
    let list = policies_in(rt, policy);
    let found = quantity_of(rt.alloc(), list.as_slice(), FIRST, word, 4096).expect(rt, policy);
    let mut told = Vec::new(rt.alloc());
    match &found {
        Quantity::Never(refused) => push_request(rt, &mut told, refused),
        _ => holds(rt, false),
    }
    equal_in(rt, told.as_slice(), wanted.as_bytes(), policy);
}

#[test]
fn where_none_is_granted_a_shortest_refused_one_is_shown(rt: HostRuntime) {
    let any = reading(&rt, "/a*", Whose::Both);
    is_never(&rt, "profile p { /b r, }", &any, "r:/a");
    let others = reading(&rt, "/a", Whose::Others);
    is_never(&rt, "profile p { owner /a r, }", &others, "r:/a");
    let chown = Word::One(request(&rt, "cap:chown"));
    is_never(&rt, "profile p { capability kill, }", &chown, "cap:chown");
}

#[test]
fn too_many_states_are_no_answer(rt: HostRuntime) {
    let list = policies_in(&rt, "profile p { /a r, }");
    let pattern = read_pattern(rt.alloc(), b"/a*").expect(&rt, "a pattern");
    let word = Word::Execs(ExecsWord {
        pattern,
        whose: Whose::Both,
    });
    let many = quantity_of(rt.alloc(), list.as_slice(), FIRST, &word, 2);
    holds(&rt, matches!(many, Err(QuantityFault::TooManyStates)));
}

/// To execute the files of a pattern.
fn executing(rt: &(impl Abort + AllocGlobal), pattern: &str) -> Word {
    let pattern = read_pattern(rt.alloc(), pattern.as_bytes()).expect(rt, pattern);
    let whose = Whose::Both;
    Word::Execs(ExecsWord { pattern, whose })
}

/// The first request of the word that leads a task of the first profile to one of these labels is this one, or there is none.
fn leads_first(
    rt: &(impl Abort + AllocGlobal),
    policy: &str,
    word: &Word,
    labels: &Labels,
    wanted: &str,
) {
    let list = policies_in(rt, policy);
    let aim = Aim::Led(labels);
    let found = first_of(rt.alloc(), list.as_slice(), FIRST, word, aim, 4096).expect(rt, policy);
    let mut told = Vec::new(rt.alloc());
    if let First::Some(request) = &found {
        push_request(rt, &mut told, request);
    }
    equal_in(rt, told.as_slice(), wanted.as_bytes(), policy);
}

#[test]
fn of_executions_that_lead_to_a_label_one_by_a_shortest_path_is_first(rt: HostRuntime) {
    let policy =
        "profile p { /a px -> q, /ab px -> r, /ac px -> q, /b ux, } profile q { } profile r { }";
    let word = executing(&rt, "/a*");
    for (free, flags, wanted) in [
        (false, [false, true, false], "x:/a"),
        (false, [false, false, true], "x:/ab"),
        (false, [true, false, false], ""),
        (true, [false, false, false], ""),
    ] {
        let profiles = Vec::from_slice(rt.alloc(), &flags).expect(&rt, "memory");
        let labels = Labels { free, profiles };
        leads_first(&rt, policy, &word, &labels, wanted);
    }
}
