//! The labels that tasks get to, of worked policies.

ghost use Rattle.std.specs.Prelude.{◌<◌, ◌≤◌};
ghost use Rattle.aa_pattern.specs.Limits.{most_states};
ghost use Rattle.aa_reachability.specs.Reach.{HaveWays};

use crate::comparing::{equal, equal_in, holds};
use crate::texts::{FIRST, policies_in, push_label, push_request, step};
use aa_compile::Compiled;
use aa_model::Label;
use aa_reachability::{Arrival, Going, Reached, Untold, Why, arrivals_from, way_to};
use std::process::Abort;

const SECOND: Label = Label::Confined(0, 1);

/// What is found from a label, by the policies as they are.
fn found_from(
    rt: &(impl Abort + AllocGlobal),
    policies: &[Compiled],
    from: Label,
    limit: usize,
) -> Reached
    requires some { 0 < limit }
    requires bounded { limit ≤ most_states }
    ensures { HaveWays result.arrivals.items }
{
    let going = Going {
        policies,
        as_enforced: false,
    };
    arrivals_from(rt.alloc(), going, from, limit).expect(rt, "memory")
}

/// Each label with the number of requests up to it and the last of them.
fn told(rt: &(impl Abort + AllocGlobal), list: &[Compiled], found: &[Arrival]) -> Vec<u8> {
    let mut told = Vec::new(rt.alloc());
    for arrival in found {
        push_label(rt, &mut told, list, arrival.label);
        let part = format!(in rt.alloc(); " {} ", arrival.length).expect(rt, "memory");
        told.extend_from_slice(part.as_bytes()).expect(rt, "memory");
        if let Some(step) = &arrival.step {
            push_request(rt, &mut told, &step.request);
        }
        told.extend_from_slice(b"|").expect(rt, "memory");
    }
    told
}

/// In a row that begins with `§` a remark, or policies, and behind `»` the labels that the first profile gets to.
const ARRIVALS: &str = "\
    §A profile without rules that move a task\
    §profile a { /x r, /x ix, capability kill, } profile b { }»a 0 |\
    §One execution, and another behind it\
    §profile a { /x px -> b, } profile b { /y px -> c, } profile c { }»a 0 |b 1 x:/x|c 2 x:/y|\
    §The shorter of two ways\
    §profile a { /x px -> b, /z px -> c, } profile b { /y px -> c, } profile c { }»a 0 |b 1 x:/x|c 1 x:/z|\
    §A rule that denies the execution\
    §profile a { /x px -> b, deny /x x, } profile b { }»a 0 |\
    §Out of the profile, and from there to each that is attached or named\
    §profile a { /x ux, } profile b /y { }»a 0 |unconfined 1 x:/x|b 2 x:/y|\
    §Changes of profile\
    §profile a { change_profile -> b, } profile b { } profile c { }»a 0 |b 1 change:b|\
    §Changes of which a rule denies one\
    §profile a { change_profile -> b, deny change_profile -> b, change_profile -> c, } profile b { } profile c { }»a 0 |c 1 change:c|\
    §Changes to names that a pattern matches\
    §profile a { change_profile -> b*, } profile b1 { } profile c { }»a 0 |b1 1 change:b1|\
    §A label of the policy of a task that may ask for another\
    §profile a { /x r, }¦profile a { /x w, }»a 0 |a@1 1 reload:1|";

/// From a label a task gets to these.
fn gets_to(rt: &(impl Abort + AllocGlobal), texts: &str, from: Label, wanted: &str) {
    let list = policies_in(rt, texts);
    let found = found_from(rt, list.as_slice(), from, 4096);
    holds(rt, found.untold.is_empty());
    let told = told(rt, list.as_slice(), found.arrivals.as_slice());
    let found = str::from_utf8(told.as_slice()).ok();
    equal_in(rt, found, Some(wanted), texts);
}

#[test]
fn a_task_gets_to_these_labels(rt: HostRuntime) {
    for row in ARRIVALS.split('§') {
        if let Some((texts, wanted)) = row.split_once('»') {
            gets_to(&rt, texts, FIRST, wanted);
        }
    }
    // A profile that isn't there.
    gets_to(&rt, "profile a { }", SECOND, " 0 |");
}

#[test]
fn each_way_leads_to_its_label(rt: HostRuntime) {
    let text = "profile a { /x px -> b, } profile b { /y px -> c, } profile c { /z ux, }";
    let list = policies_in(&rt, text);
    let found = found_from(&rt, list.as_slice(), FIRST, 4096).arrivals;
    for number in 0..found.len() {
        let way = way_to(rt.alloc(), found.as_slice(), number).expect(&rt, "memory");
        equal(&rt, way.len(), found[number].length);
        let mut label = FIRST;
        for request in way.as_slice() {
            label = step(list.as_slice(), label, request).1;
        }
        equal(&rt, label, found[number].label);
    }
}

#[test]
fn a_label_is_named_behind_which_patterns_need_too_many_states(rt: HostRuntime) {
    let text =
        "profile a { /x px -> b, /y px -> c, } profile b { /**a??????? rix, /z px -> d, } profile c { } profile d { }";
    let list = policies_in(&rt, text);
    let found = found_from(&rt, list.as_slice(), FIRST, 64);
    let told = told(&rt, list.as_slice(), found.arrivals.as_slice());
    equal(
        &rt,
        str::from_utf8(told.as_slice()).ok(),
        Some("a 0 |b 1 x:/x|c 1 x:/y|"),
    );
    let untold = Untold {
        number: 1,
        label: SECOND,
        why: Why::TooManyStates,
    };
    equal(&rt, found.untold.len(), 1);
    equal(&rt, found.untold.get(0).copied(), Some(untold));
}
