//! What two policies answer differently, of worked policies.

use crate::comparing::{equal, equal_in, holds};
use crate::texts::policies_in;
use aa_differences::{Comparison, Difference, Excess, policy_differences};
use aa_model::{Label, Request};
use std::alloc::AllocError;
use std::process::Abort;

/// How many are granted by the new policy alone, by the old one alone, and else.
fn counts(differences: &[Difference]) -> [usize; 3] {
    let mut counts = [0usize; 3];
    for difference in differences {
        let place = match (difference.old.granted, difference.new.granted) {
            (false, true) => 0,
            (true, false) => 1,
            _ => 2,
        };
        counts[place] = counts[place].wrapping_add(1);
    }
    counts
}

/// What comparing the policies gives that the texts spell, between which stands `¦`.
fn compared(
    rt: &(impl Abort + AllocGlobal),
    old: &str,
    new: &str,
    limit: usize,
) -> Result<Comparison, AllocError> {
    let (old, new) = (policies_in(rt, old), policies_in(rt, new));
    assert!(rt; old.len() <= 16 && new.len() <= 16 && limit > 0 && limit <= 4096);
    policy_differences(rt.alloc(), old.as_slice(), new.as_slice(), limit)
}

/// In a row that begins with `§` a remark, or two policies between `¦` and behind `»` how many answers are granted by the new one alone, by
/// the old one alone, and else differ.
const COMPARED: &str = "\
    §Rules in another order, one written as two, and one that another holds\
    §profile p { /a rw, /b r, }¦profile p { /b r, /a w, /a r, owner /a r, }»[0, 0, 0]\
    §An alternation, a variable, and a comment\
    §@{D}=/x /y\nprofile p { @{D}/* r, }¦profile p { /{x,y}/* r, } # two»[0, 0, 0]\
    §Profiles that have other numbers\
    §profile a /a { /b px -> b, } profile b { capability kill, }¦profile b { capability kill, } profile a /a { /b px -> b, }»[0, 0, 0]\
    §Reading is granted; of the 15 other masks with READ less is missing, and of a link from a path that can't be read to `/b` more\
    §profile p { }¦profile p { owner /b r, }»[1, 0, 16]§profile p { owner /b r, }¦profile p { }»[0, 1, 16]\
    §profile p { }¦profile p { /b r, }»[2, 0, 32]\
    §Reading is refused quietly, of the owner and of others\
    §profile p { }¦profile p { deny /a r, }»[0, 0, 32]§profile p { }¦profile p { capability kill, }»[1, 0, 0]\
    §profile p { network inet, }¦profile p { network inet stream, }»[0, 5, 0]\
    §To another label, of the owner and of others\
    §profile p { /b px -> q, } profile q { } profile r { }¦profile p { /b px -> r, } profile q { } profile r { }»[0, 0, 2]\
    §With a scrubbed environment\
    §profile p { /b px -> q, } profile q { }¦profile p { /b Px -> q, } profile q { }»[0, 0, 2]\
    §The same attachment, of another name: two executions, and the changes to both names\
    §profile a /x { }¦profile b /x { }»[1, 1, 2]\
    §Another child is attached\
    §profile p { /x cx, profile c /x { } profile d { } }¦profile p { /x cx, profile c { } profile d /x { } }»[0, 0, 2]\
    §profile p { change_profile -> q, } profile q { }¦profile p { } profile q { }»[0, 1, 0]";

#[test]
fn each_answer_that_differs_is_listed(rt: HostRuntime) {
    for row in COMPARED.split('§') {
        if let Some((policies, wanted)) = row.split_once('»') {
            let (old, new) = policies.split_once('¦').expect(&rt, row);
            let found = compared(&rt, old, new, 4096).expect(&rt, row);
            holds(&rt, found.untold.is_empty());
            let changed = counts(found.differences.as_slice());
            let told = format!(in rt.alloc(); "{changed:?}").expect(&rt, "memory");
            equal_in(&rt, told.as_str(), wanted, row);
        }
    }
}

#[test]
fn a_policy_more_is_told_by_what_is_decided_by_it(rt: HostRuntime) {
    let found = compared(&rt, "profile p { }", "profile p { }¦profile p { }", 4096);
    holds(&rt, found.expect(&rt, "differences").differences.len() > 2);
}

#[test]
fn what_another_label_is_asked_is_not_listed_at_this_one(rt: HostRuntime) {
    let old = "profile p { } profile q { capability kill, }";
    let new = "profile p { } profile q { }";
    let found = compared(&rt, old, new, 4096).expect(&rt, "differences");
    equal(&rt, found.differences.len(), 1);
    for difference in found.differences.as_slice() {
        let found = (difference.from, difference.to);
        equal(&rt, found, (Label::Confined(0, 1), Label::Confined(0, 1)));
        holds(&rt, matches!(&difference.request, Request::Cap(_)));
    }
}

#[test]
fn labels_that_need_more_states_than_the_limit_are_told_beside_the_others(rt: HostRuntime) {
    let old = "profile p { /a r, } profile q { capability kill, }";
    let new = "profile p { /srv/*/a/*/b/*/c/*/d/*/e/*/f r, } profile q { }";
    let found = compared(&rt, old, new, 30).expect(&rt, "differences");
    equal(&rt, found.untold.len(), 1);
    for labels in found.untold.as_slice() {
        equal(
            &rt,
            (labels.from, labels.to),
            (Label::Confined(0, 0), Label::Confined(0, 0)),
        );
        holds(&rt, matches!(labels.why, Excess::States));
    }
    equal(&rt, found.differences.len(), 1);
    for difference in found.differences.as_slice() {
        equal(&rt, difference.from, Label::Confined(0, 1));
    }
}
