//! Policies that become one.

use crate::comparing::{equal, equal_in};
use crate::texts::{push_part, spelled};
use aa_load::{JoinFault, Joining, Repeated};
use aa_model::Policy;
use std::process::Abort;

/// The policies that the texts spell, between which stands `¦`, joined but for those that are refused, and why the last was that was.
fn join(rt: &(impl Abort + AllocGlobal), texts: &str) -> (Policy, Option<JoinFault>) {
    let mut joining = Joining::new(rt.alloc());
    let mut fault = None;
    for text in texts.split('¦') {
        fault = match joining.add(spelled(rt, text)) {
            Ok(()) => fault,
            Err(refused) => Some(refused.fault),
        };
    }
    (joining.into_policy(), fault)
}

/// The profiles, each with its parent's number, and the rules that are passed over, each with its profile's.
fn told(rt: &(impl Abort + AllocGlobal), policy: &Policy) -> String {
    let mut told = String::new(rt.alloc());
    for profile in policy.profiles.as_slice() {
        let name = str::from_utf8(profile.name.as_slice()).expect(rt, "UTF-8");
        let part = match profile.parent {
            Some(parent) => format!(in rt.alloc(); "{name} of {parent}|"),
            None => format!(in rt.alloc(); "{name}|"),
        };
        push_part(rt, &mut told, part);
    }
    for rule in policy.passed_over.as_slice() {
        let kind = str::from_utf8(rule.kind.as_slice()).expect(rt, "UTF-8");
        let part = format!(in rt.alloc(); "{kind} in {}|", rule.profile);
        push_part(rt, &mut told, part);
    }
    told
}

fn repeated(earlier: u16, later: u16) -> Option<JoinFault> {
    Some(JoinFault::DuplicateProfile(Repeated { earlier, later }))
}

#[test]
fn policies_become_one(rt: HostRuntime) {
    for (texts, wanted, fault) in [
        // Children follow their parents, and rules that are passed over their profiles.
        (
            "profile a { }¦profile b { } profile c { profile d { } }¦profile e { profile f { } }",
            "a|b|c|c//d of 2|e|e//f of 4|",
            None,
        ),
        (
            "profile a { mount, } profile b { }¦profile c { } profile d { dbus, unix, }",
            "a|b|c|d|mount in 0|dbus in 3|unix in 3|",
            None,
        ),
        // A name that is there is refused with both numbers.
        (
            "profile a { }¦profile b { }¦profile c { } profile b { } profile a { }",
            "a|b|",
            repeated(1, 1),
        ),
        // Names of a refused policy stay free.
        (
            "profile a { }¦profile b { } profile a { }¦profile b { }",
            "a|b|",
            repeated(0, 1),
        ),
    ] {
        let joined = join(&rt, texts);
        equal_in(&rt, told(&rt, &joined.0).as_str(), wanted, texts);
        equal_in(&rt, joined.1, fault, texts);
    }
}

#[test]
fn no_policies_have_no_profile(rt: HostRuntime) {
    let policy = Joining::new(rt.alloc()).into_policy();
    equal(&rt, told(&rt, &policy).as_str(), "");
}
