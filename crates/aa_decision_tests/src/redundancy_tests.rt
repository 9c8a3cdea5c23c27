//! Which rules of worked policies can go, where each stands at a place of its own or all of one text at one.

use crate::comparing::{equal, equal_in, holds};
use crate::texts::policies_in;
use aa_base::Seq;
use aa_compile::Compiled;
use aa_model::Profile;
use aa_redundancy::{Excess, Going, PlaceNumbers, redundant_places};
use std::process::Abort;

/// So many numbers that nothing before has.
fn numbers(rt: &(impl Abort + AllocGlobal), next: &mut usize, count: usize) -> Seq<usize> {
    let mut numbers = Vec::new(rt.alloc());
    for _ in 0..count {
        numbers.push(*next).expect(rt, "memory");
        *next = next.wrapping_add(1);
    }
    Seq::from_vec(numbers)
}

/// A place for each rule of a profile.
fn own_places(
    rt: &(impl Abort + AllocGlobal),
    next: &mut usize,
    profile: &Profile,
) -> PlaceNumbers {
    PlaceNumbers {
        files: numbers(rt, next, profile.files.as_slice().len()),
        caps: numbers(rt, next, profile.caps.as_slice().len()),
        nets: numbers(rt, next, profile.nets.as_slice().len()),
        changes: numbers(rt, next, profile.changes.as_slice().len()),
    }
}

fn is_set(flags: &[bool], number: usize) -> bool {
    flags.get(number).copied().unwrap_or(false)
}

/// The profiles of the first policy.
fn profiles_in<'a>(rt: &impl Abort, list: &'a [Compiled]) -> &'a [Profile] {
    let compiled = list.get(0).expect(rt, "a policy");
    compiled.policy().profiles.as_slice()
}

/// Of each place `g` where it may go, `r` where it can go by itself alone, `.` where it can't.
fn told(rt: &(impl Abort + AllocGlobal), going: &Going) -> Vec<u8> {
    let mut told = Vec::new(rt.alloc());
    for number in 0..going.alone.len() {
        let alone = is_set(going.alone.as_slice(), number);
        let together = is_set(going.together.as_slice(), number);
        let mark = match (alone, together) {
            (true, true) => b'g',
            (true, false) => b'r',
            (false, false) => b'.',
            (false, true) => b'?',
        };
        told.push(mark).expect(rt, "memory");
    }
    told
}

/// Each rule of the profiles stands at a place of its own; which of these can go.
fn can_go(rt: &(impl Abort + AllocGlobal), text: &str, wanted: &str) {
    let list = policies_in(rt, text);
    let profiles = profiles_in(rt, list.as_slice());
    let mut places = Vec::new(rt.alloc());
    let mut next = 0;
    for profile in profiles {
        let own = own_places(rt, &mut next, profile);
        places.push(own).expect(rt, "memory");
    }
    let redundant = redundant_places(rt.alloc(), profiles, places.as_slice(), next, &[], 4096);
    let redundant = redundant.ok().expect(rt, text);
    let told = told(rt, &redundant.going);
    equal_in(rt, str::from_utf8(told.as_slice()).ok(), Some(wanted), text);
}

/// In a row that begins with `§` a remark, or a policy, and behind `»` its rules on files, capabilities, sockets and changes, profile by
/// profile.
const RULES: &str = "\
    §Covered by a wider rule, by an equal one, by two\
    §profile p { /srv/** r, /srv/a r, }».g\
    §profile p { /a r, /a r, }»rg\
    §profile p { /a rw, /a r, /a w, }»rgg\
    §Covered but for what is reported, for whose it is, for how it is executed\
    §profile p { /srv/** r, audit /srv/a r, }»..\
    §profile p { owner /srv/** r, /srv/a r, }»..\
    §profile p { /srv/** r, owner /srv/a r, }».g\
    §profile p { /bin/* ix, /bin/a px -> q, } profile q { }»..\
    §profile p { /bin/* px -> q, /bin/a px -> q, } profile q { }».g\
    §Overruled, and what overrules\
    §profile p { /a r, deny /a r, }»g.\
    §profile p { deny /a r, }».\
    §profile p { deny /** r, deny /a r, }».g\
    §profile p { audit deny /** r, deny /a r, }».g\
    §profile p { deny /** r, audit deny /a r, }»..\
    §Each at a place of its own in another profile\
    §profile p { /a r, /a r, } profile q { /a r, }»rg.\
    §Capabilities, sockets, changes\
    §profile p { capability kill chown, capability kill, }».g\
    §profile p { capability kill, audit capability kill, }»g.\
    §profile p { network inet, network inet stream, network inet6, }».g.\
    §profile p { change_profile -> a*, change_profile -> ab, change_profile -> b, }».g.\
    §profile p { change_profile, deny change_profile -> a, change_profile -> a, }»..g";

#[test]
fn these_rules_can_go(rt: HostRuntime) {
    for row in RULES.split('§') {
        if let Some((text, wanted)) = row.split_once('»') {
            can_go(&rt, text, wanted);
        }
    }
}

/// The numbers of the places of rules on files.
fn of_files(rt: &(impl Abort + AllocGlobal), files: &[usize]) -> PlaceNumbers {
    let mut next = 0;
    PlaceNumbers {
        files: Seq::from_vec(Vec::from_slice(rt.alloc(), files).expect(rt, "memory")),
        caps: numbers(rt, &mut next, 0),
        nets: numbers(rt, &mut next, 0),
        changes: numbers(rt, &mut next, 0),
    }
}

/// The first profile has two rules at these places, the second one at place 0; which of the two places can go, where some are held.
fn shared_can_go(
    rt: &(impl Abort + AllocGlobal),
    text: &str,
    first: &[usize],
    held: &[bool],
    wanted: &str,
) {
    let list = policies_in(rt, text);
    let profiles = profiles_in(rt, list.as_slice());
    let mut places = Vec::new(rt.alloc());
    places.push(of_files(rt, first)).expect(rt, "memory");
    places.push(of_files(rt, &[0])).expect(rt, "memory");
    let redundant = redundant_places(rt.alloc(), profiles, places.as_slice(), 2, held, 4096);
    let redundant = redundant.ok().expect(rt, text);
    let told = told(rt, &redundant.going);
    equal_in(rt, str::from_utf8(told.as_slice()).ok(), Some(wanted), text);
}

#[test]
fn a_place_goes_with_all_its_rules(rt: HostRuntime) {
    let text = "profile p { /a r, /a r, } profile q { /a r, }";
    shared_can_go(&rt, text, &[0, 1], &[], ".g");
    shared_can_go(&rt, text, &[1, 1], &[], "..");
}

#[test]
fn a_place_that_is_held_stays(rt: HostRuntime) {
    let text = "profile p { /a r, /a r, } profile q { /a r, }";
    shared_can_go(&rt, text, &[0, 1], &[false, true], ".r");
    shared_can_go(&rt, text, &[0, 1], &[true], ".g");
}

#[test]
fn no_rule_goes_of_a_profile_whose_patterns_need_too_many_states(rt: HostRuntime) {
    let text = "profile p { /a r, /a r, /b r, } profile q { /a r, change_profile -> /opt/tool, }";
    let list = policies_in(&rt, text);
    let profiles = profiles_in(&rt, list.as_slice());
    let mut places = Vec::new(rt.alloc());
    places.push(of_files(&rt, &[0, 1, 2])).expect(&rt, "memory");
    places.push(of_files(&rt, &[0])).expect(&rt, "memory");
    let found = redundant_places(rt.alloc(), profiles, places.as_slice(), 3, &[], 7);
    let found = found.ok().expect(&rt, text);
    let told = told(&rt, &found.going);
    equal(&rt, str::from_utf8(told.as_slice()).ok(), Some(".g."));
    equal(&rt, found.untold.len(), 1);
    for profile in found.untold.as_slice() {
        equal(&rt, profile.number, 1);
        holds(&rt, matches!(profile.why, Excess::States));
    }
}
