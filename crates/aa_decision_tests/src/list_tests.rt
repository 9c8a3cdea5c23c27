//! Texts that are policies, sources of one name, how a refusal is told, and two rules that conflict.

ghost use Rattle.std.specs.Prelude.{◌≤◌};
ghost use Rattle.aa_model.specs.Lawful.{file_patterns};

use crate::comparing::{equal, equal_in, holds};
use crate::texts::{push_part, read};
use aa_auto::BuildFault;
use aa_base::{PolicyFault, PolicyKind, Spot, Text};
use aa_compile::Compiled;
use aa_explain::{Clash, clash_of};
use aa_model::Profile;
use aa_policies::{RefusedPolicy, compile_policies};
use aa_words::Include;
use std::alloc::{AllocError, Global};
use std::process::Abort;

fn include_of(alloc: Global, (name, text): (&str, &str)) -> Result<Include, AllocError> {
    let name = Text::copy_of(alloc, name.as_bytes())?;
    Ok(Include {
        name,
        text: Text::copy_of(alloc, text.as_bytes())?,
    })
}

/// The sources, which stand between `¦` as `NAME=TEXT`, and the texts, which stand between `¦` too.
fn texts_of(
    alloc: Global,
    sources: &str,
    texts: &str,
) -> Result<(Vec<Include>, Vec<Text>), AllocError> {
    let (mut includes, mut list) = (Vec::new(alloc), Vec::new(alloc));
    for source in sources.split('¦') {
        if let Some(pair) = source.split_once('=') {
            includes.push(include_of(alloc, pair)?)?;
        }
    }
    for text in texts.split('¦') {
        if text != "none" {
            list.push(Text::copy_of(alloc, text.as_bytes())?)?;
        }
    }
    Ok((includes, list))
}

/// The policies of the texts, each of which may include the sources.
fn compiled(
    rt: &(impl Abort + AllocGlobal),
    sources: &str,
    texts: &str,
    limit: u32,
) -> Result<Vec<Compiled>, RefusedPolicy> {
    let Ok((includes, texts)) = texts_of(rt.alloc(), sources, texts) else {
        return Err(RefusedPolicy {
            policy: 0,
            fault: PolicyFault::at_start(PolicyKind::NoMemory),
        });
    };
    assert!(rt; texts.len() <= 65535 && limit > 0 && limit <= 4096);
    compile_policies(rt.alloc(), includes.as_slice(), texts.as_slice(), limit)
}

/// Which policy is refused, the number of its fault, and the file and the byte at which it points.
fn refusal(
    rt: &(impl Abort + AllocGlobal),
    sources: &str,
    texts: &str,
    limit: u32,
) -> Option<(u16, u8, u16, u32)> {
    let RefusedPolicy { policy, fault } = compiled(rt, sources, texts, limit).err()?;
    Some((policy, fault.kind.number(), fault.at.file, fault.at.byte))
}

/// The number of the profile of a full name in a policy.
fn found(policies: &[Compiled], number: usize, name: &str) -> Option<u16> {
    policies.get(number)?.find(name.as_bytes())
}

#[test]
fn each_text_is_a_policy_of_its_own(rt: HostRuntime) {
    const SOURCES: &str = "m=profile m { }¦n=include <m> profile n { }";
    // Texts, and behind `»` how many profiles each policy has.
    const ROWS: &str = "profile p { /x r, }»1 \
        §profile p { profile c { } }¦¦profile p { } profile q { } profile r { }»2 0 3 \
        §none»§include <m>¦include <n> profile p { }¦profile p { }»1 3 1 ";
    for row in ROWS.split('§') {
        let (texts, wanted) = row.split_once('»').expect(&rt, row);
        let policies = compiled(&rt, SOURCES, texts, 4096).expect(&rt, "policies");
        let mut told = String::new(rt.alloc());
        for policy in policies.iter() {
            let count = policy.policy().profiles.as_slice().len();
            push_part(&rt, &mut told, format!(in rt.alloc(); "{count} "));
        }
        equal_in(&rt, told.as_str(), wanted, texts);
    }
}

#[test]
fn policies_stand_in_the_order_of_their_texts(rt: HostRuntime) {
    let texts = "profile p { }¦profile q { } profile p { }";
    let policies = compiled(&rt, "", texts, 1).expect(&rt, "policies");
    equal(&rt, found(&policies, 0, "p"), Some(0));
    equal(&rt, found(&policies, 0, "q"), None);
    equal(&rt, found(&policies, 1, "p"), Some(1));
    equal(&rt, found(&policies, 1, "q"), Some(0));
}

#[test]
fn sources_of_one_name_refuse_the_first_text(rt: HostRuntime) {
    for (sources, texts) in [("m=¦m=", "¦profile p { /x wa, }"), ("m=¦n=¦m=", "none")] {
        let found = refusal(&rt, sources, texts, 4096);
        equal_in(&rt, found, Some((0, 4, 0, 0)), sources);
    }
}

#[test]
fn a_later_policy_is_told_by_its_number(rt: HostRuntime) {
    for (policy, wanted) in [
        (0, "refused 8 WriteWithAppend 0:15"),
        (1, "policy 1 refused 8 WriteWithAppend 0:15"),
        (65535, "policy 65535 refused 8 WriteWithAppend 0:15"),
    ] {
        let fault = PolicyFault {
            kind: PolicyKind::WriteWithAppend,
            at: Spot { file: 0, byte: 15 },
        };
        let refused = RefusedPolicy { policy, fault };
        let told = format!(in rt.alloc(); "{refused}").expect(&rt, "memory");
        equal(&rt, told.as_str(), wanted);
    }
}

#[test]
fn a_growth_refused_to_policies_is_no_memory(rt: HostRuntime) {
    const TEXTS: &str =
        "include <m> profile p /p* { @{A}/q Px, }¦profile p { /x r, audit deny /y/{a,b}* w, } profile q { }¦profile r { /c cx -> c, profile c /c { } }";
    for _ in 0..3 {
        match compiled(&rt, "m=@{A}=/a /b\n", TEXTS, 100) {
            Ok(policies) => {
                equal(&rt, policies.len(), 3);
                equal(&rt, found(&policies, 0, "p"), Some(0));
                equal(&rt, found(&policies, 1, "q"), Some(1));
                equal(&rt, found(&policies, 2, "r//c"), Some(1));
                return;
            }
            Err(refused) => equal(&rt, refused.fault.kind, PolicyKind::NoMemory),
        }
    }
    panic!(rt; "refused each time")
}

#[test]
fn a_growth_refused_is_no_fault_of_a_policy(rt: HostRuntime) {
    let texts = "¦profile p { /a px, /a* ix, /b* ux, /bc px, /[b]c ix, }";
    for _ in 0..3 {
        match refusal(&rt, "m=", texts, 100) {
            None => panic!(rt; "a policy that conflicts"),
            Some((_, 1, file, byte)) => equal(&rt, (file, byte), (0, 0)),
            Some(refused) => return equal(&rt, refused, (1, 16, 0, 8)),
        }
    }
    panic!(rt; "refused each time")
}

/// The conflict of a profile, within so many states.
fn conflict_in(alloc: Global, profile: &Profile, limit: u16) -> Result<Option<Clash>, PolicyKind>
    requires { file_patterns profile.now ≤ 65535 }
{
    match clash_of(alloc, profile.files.as_slice(), limit.max(1) as usize) {
        Ok(clash) => Ok(clash),
        Err(BuildFault::NoMemory) => Err(PolicyKind::NoMemory),
        Err(BuildFault::TooManyStates) => Err(PolicyKind::TooManyStates),
    }
}

/// The conflict of the first profile that the text spells.
fn conflict(alloc: Global, text: &str, limit: u16) -> Result<Option<Clash>, PolicyKind> {
    let policy = read(alloc, text).map_err(|it| it.kind)?;
    match policy.profiles.as_slice().first() {
        Some(profile) => conflict_in(alloc, profile, limit),
        None => Ok(None),
    }
}

#[test]
fn more_states_than_the_limit_are_no_answer(rt: HostRuntime) {
    let text = "profile p { /bin/* px, /bin/l* ix, }";
    let found = conflict(rt.alloc(), text, 3).err();
    equal(&rt, found, Some(PolicyKind::TooManyStates));
    holds(&rt, conflict(rt.alloc(), text, 65535).is_ok());
}

#[test]
fn a_growth_refused_to_search_is_no_memory(rt: HostRuntime) {
    for _ in 0..3 {
        match conflict(rt.alloc(), "profile p { /* px, /l* ix, }", 100) {
            Ok(found) => {
                let clash = found.expect(&rt, "a conflict");
                equal(&rt, (clash.first, clash.second), (0, 1));
                return holds(&rt, clash.text.as_slice() == b"/l".as_slice());
            }
            Err(kind) => equal(&rt, kind, PolicyKind::NoMemory),
        }
    }
    panic!(rt; "refused each time")
}
