//! Compiled policies: what their rules say of paths, who is attached, and what a refused policy leaves. (Cases tell what tasks are answered.)

use crate::comparing::{equal, equal_in};
use crate::plain::verdict_by_rules;
use crate::texts::{compiled, policies_in, spelled};
use aa_base::PolicyKind;
use aa_compile::Transition::To;
use aa_compile::{Compiled, RuleSets, Transition, compile};
use aa_mediate::Mediator;
use std::process::Abort;

/// What is compiled says of an object, where the profile is there.
fn sets(compiled: &Compiled, profile: u16, path: &str, owned: bool) -> Option<RuleSets> {
    if (profile as usize) < compiled.policy().profiles.as_slice().len() {
        return Some(compiled.verdict(profile, path.as_bytes(), owned).sets);
    }
    None
}

/// The bits that the rules of a profile allow, deny, deny with a line, and report. Of the bits, 1 reads, 2 writes and 4 appends.
fn bits(compiled: &Compiled, profile: u16, path: &str, owned: bool) -> Option<[u8; 4]> {
    let sets = sets(compiled, profile, path, owned)?;
    Some([sets.allow.0, sets.deny.0, sets.loud.0, sets.audited.0])
}

#[test]
fn deny_comes_before_allow_in_any_order(rt: HostRuntime) {
    for (text, wanted) in [
        ("profile p { deny /etc/** w, /etc/** rw, }", [7, 6, 0, 0]),
        ("profile p { /etc/** rw, deny /etc/** w, }", [7, 6, 0, 0]),
        (
            "profile p { audit deny /etc/** w, /etc/** rw, }",
            [7, 6, 6, 0],
        ),
        ("profile p { deny /etc/** a, /etc/** rw, }", [7, 4, 0, 0]),
    ] {
        let policy = compiled(rt.alloc(), text, 4096).expect(&rt, text);
        equal_in(&rt, bits(&policy, 0, "/etc/f", false), Some(wanted), text);
    }
}

#[test]
fn owner_rules_apply_to_what_is_owned(rt: HostRuntime) {
    let text =
        "profile p { owner /home/** rw, /home/** r, audit /home/*/a r, audit deny /home/*/s a, }";
    let policy = compiled(rt.alloc(), text, 4096).expect(&rt, text);
    for (path, owned, wanted) in [
        ("/home/u/f", true, [7, 0, 0, 0]),
        ("/home/u/f", false, [1, 0, 0, 0]),
        ("/home/u/s", true, [7, 4, 4, 0]),
        ("/home/u/a", false, [1, 0, 0, 1]),
        ("/etc", true, [0, 0, 0, 0]),
    ] {
        equal_in(&rt, bits(&policy, 0, path, owned), Some(wanted), path);
    }
    equal(&rt, bits(&policy, 1, "/home/u/f", true), None);
}

#[test]
fn rows_say_what_the_rules_say(rt: HostRuntime) {
    const PATHS: &str =
        "/ /home/u/f /home/u/.ssh/k /var/log/ab /etc/s /etc/p /usr/bin/x /usr/sbin/xy";
    let text =
        "profile p { /** r, owner /home/*/** rwk, deny /home/*/.ssh/** wl, audit /var/log/{a,b}* a, audit deny /etc/[^p]* m, /usr/{,s}bin/? mrix, }";
    let compiled = compiled(rt.alloc(), text, 4096).expect(&rt, text);
    for path in PATHS.split(' ') {
        for owned in [false, true] {
            let profiles = compiled.policy().profiles.as_slice();
            let profile = profiles.first().expect(&rt, "a profile");
            let said = verdict_by_rules(profile.files.as_slice(), path.as_bytes(), owned);
            equal_in(&rt, sets(&compiled, 0, path, owned), Some(said), path);
        }
    }
}

#[test]
fn nothing_is_attached_by_a_policy_and_below_a_profile_that_are_not_there(rt: HostRuntime) {
    let text = "profile p /x { profile c /x { } }";
    let policy = compiled(rt.alloc(), text, 4096).expect(&rt, text);
    let none = compiled(rt.alloc(), "", 1).expect(&rt, "no profiles");
    let both = format!(in rt.alloc(); "{text}¦{text}").expect(&rt, "memory");
    let list = policies_in(&rt, both.as_str());
    let mediator = Mediator::new(list.as_slice());
    equal(&rt, policy.attach_child(0, b"/x"), Some(1));
    equal(&rt, mediator.attach_child(1, 0, b"/x"), Some(1));
    equal(&rt, mediator.attach(1, b"/x"), Some(0));
    equal(&rt, mediator.attach(2, b"/x"), None);
    equal(&rt, mediator.attach_child(2, 0, b"/x"), None);
    equal(&rt, mediator.attach_child(0, 2, b"/x"), None);
    equal(&rt, policy.attach_child(9, b"/x"), None);
    equal(&rt, none.attach(b"/x"), None);
    equal(&rt, none.attach_child(0, b"/x"), None);
    equal(&rt, policy.attach(b""), None);
    equal(&rt, policy.find(b""), None);
}

#[test]
fn a_profile_that_is_not_there_has_no_states(rt: HostRuntime) {
    let text = "profile p /etc/* { /x r, }";
    let policy = compiled(rt.alloc(), text, 100).expect(&rt, text);
    equal(&rt, (policy.states(1), policy.states(65535)), (0, 0));
}

#[test]
fn a_refused_policy_is_handed_back(rt: HostRuntime) {
    for (limit, wanted) in [(4u32, Some(2)), (13, None)] {
        let policy = spelled(&rt, "profile p { /etc/passwd r, } profile q { }");
        let refused = compile(rt.alloc(), policy, limit.clamp(1, 1_000_000)).err();
        let found = refused.map(|it| it.policy.profiles.as_slice().len());
        equal(&rt, found, wanted);
    }
}

/// Where an execution of a path that nobody owns leads from a profile.
fn transition(rt: &impl Abort, compiled: &Compiled, profile: u16, path: &str) -> Transition {
    assert!(rt; (profile as usize) < compiled.policy().profiles.as_slice().len());
    let verdict = compiled.verdict(profile, path.as_bytes(), false);
    compiled.transition(profile, path.as_bytes(), false, verdict)
}

#[test]
fn a_growth_refused_to_compile_is_no_memory(rt: HostRuntime) {
    let text = "profile p /p* { /q Px, /c cx -> c, profile c /c { } } profile q /q { }";
    for _ in 0..3 {
        match compiled(rt.alloc(), text, 100) {
            Ok(policy) => {
                equal(&rt, policy.attach(b"/pp"), Some(0));
                equal(&rt, transition(&rt, &policy, 0, "/q"), To(Some(2), true));
                equal(&rt, transition(&rt, &policy, 0, "/c"), To(Some(1), false));
                return;
            }
            Err(fault) => equal(&rt, fault.kind, PolicyKind::NoMemory),
        }
    }
    panic!(rt; "refused each time")
}
