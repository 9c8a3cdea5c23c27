//! Worked policies, of which verdicts and lines are worked out elsewhere: that they are read, and as what.

use crate::comparing::holds_in;
use crate::texts::words_of;
use aa_base::PolicyFault;
use aa_model::{Exec, FileRule, Policy, Profile};
use aa_policy::parse;
use aa_words::Sources;
use bitflags::Flags;
use std::alloc::AllocError;
use std::process::Abort;

fn read_with(
    rt: &(impl Abort + AllocGlobal),
    sources: &Sources,
    text: &[u8],
) -> Result<Policy, PolicyFault> {
    parse(rt.alloc(), &words_of(rt, sources, text)?)
}

/// The policy that a text spells.
pub(crate) fn read(rt: &(impl Abort + AllocGlobal), text: &[u8]) -> Result<Policy, PolicyFault> {
    read_with(rt, &Sources::new(rt.alloc()), text)
}

fn push(rt: &(impl Abort + AllocGlobal), told: &mut String, part: &str) {
    told.push_str(part).expect(rt, "memory");
}

/// What stands before a rule, and what else it says.
fn push_rule(
    rt: &(impl Abort + AllocGlobal),
    told: &mut String,
    (audit, deny): (bool, bool),
    part: Result<String, AllocError>,
) {
    push(rt, told, if audit { " audit" } else { "" });
    push(rt, told, if deny { " deny" } else { "" });
    push(rt, told, part.expect(rt, "memory").as_str());
}

/// How a program is executed, whether it is scrubbed, where to else, and where to by name.
fn push_exec(rt: &(impl Abort + AllocGlobal), told: &mut String, exec: &Exec) {
    let (kind, fallback, scrub) = (
        exec.kind,
        exec.fallback,
        if exec.scrub { " scrub" } else { "" },
    );
    let part = format!(in rt.alloc(); " {kind:?}{scrub} else {fallback:?}");
    push(rt, told, part.expect(rt, "memory").as_str());
    if let Some(target) = &exec.target {
        push(rt, told, " to ");
        push(
            rt,
            told,
            str::from_utf8(target.as_slice()).expect(rt, "UTF-8"),
        );
    }
}

/// What stands before a file rule, its bits, and of how many items each of its patterns is.
fn push_file(rt: &(impl Abort + AllocGlobal), told: &mut String, rule: &FileRule) {
    let (bits, owner) = (rule.perms.bits(), if rule.owner { " owner" } else { "" });
    push_rule(
        rt,
        told,
        (rule.audit, rule.deny),
        format!(in rt.alloc(); "{owner} {bits}"),
    );
    for pattern in rule.patterns.as_slice() {
        let part = format!(in rt.alloc(); " of {}", pattern.items.len());
        push(rt, told, part.expect(rt, "memory").as_str());
    }
    if let Some(exec) = &rule.exec {
        push_exec(rt, told, exec);
    }
    push(rt, told, ";");
}

fn push_profile(rt: &(impl Abort + AllocGlobal), told: &mut String, profile: &Profile) {
    let (name, sign) = (
        profile.name.as_slice(),
        if told.is_empty() { "" } else { " " },
    );
    let name = str::from_utf8(name).expect(rt, "UTF-8");
    let part = format!(in rt.alloc(); "{sign}{name}@{}", profile.at.byte).expect(rt, "memory");
    push(rt, told, part.as_str());
    push(rt, told, if profile.complain { " complain" } else { "" });
    push(rt, told, if profile.audit { " audit:" } else { ":" });
    for rule in profile.files.as_slice() {
        push_file(rt, told, rule);
    }
    for rule in profile.caps.as_slice() {
        let part = format!(in rt.alloc(); " cap {:x};", rule.caps.0);
        push_rule(rt, told, (rule.audit, rule.deny), part);
    }
    for rule in profile.nets.as_slice() {
        let part = format!(in rt.alloc(); " net {:x} {:x};", rule.families, rule.kinds);
        push_rule(rt, told, (rule.audit, rule.deny), part);
    }
    // (of a name the bytes with which all begin that it stands for)
    for rule in profile.changes.as_slice() {
        let front = rule.pattern.as_ref().map_or(0, |it| it.literal_front());
        push_rule(
            rt,
            told,
            (rule.audit, rule.deny),
            format!(in rt.alloc(); " change {front};"),
        );
    }
}

/// The text is read so.
fn is_read(rt: &(impl Abort + AllocGlobal), text: &str, wanted: &str) {
    let policy = read(rt, text.as_bytes()).expect(rt, text);
    let mut told = String::new(rt.alloc());
    for profile in policy.profiles.as_slice() {
        push_profile(rt, &mut told, profile);
    }
    holds_in(rt, told.as_str() == wanted, text);
}

/// In a row that begins with `§` a text, and behind `»` its profiles, each with the byte of its name, its flags and its rules.
const WORKED: &str = "\
    §A profile that audits has its flag and its rules\
    §profile p flags=(audit) { deny /s r, /x r, }»p@8 audit: deny 1 of 2; 1 of 2;\
    §A profile that complains has its flag and its rules\
    §profile p flags=(complain) { deny /s r, /bin/x px, }»p@8 complain: deny 1 of 2; 64 of 6 Profile else Refuse;\
    §Rules that deny are read in either order\
    §profile p { deny /etc/** w, /etc/** rw, }»p@8: deny 6 of 6; 7 of 6;\
    §profile p { /etc/** rw, deny /etc/** w, }»p@8: 7 of 6; deny 6 of 6;\
    §profile p { audit deny /etc/** w, /etc/** rw, }»p@8: audit deny 6 of 6; 7 of 6;\
    §profile p { deny /etc/** a, /etc/** rw, }»p@8: deny 4 of 6; 7 of 6;\
    §Each exec part says where to else\
    §profile p { /a pix, /b px, /c pux, /d Px -> q, /e PUx, } profile q { }»p@8: 64 of 2 Profile else Inherit; 64 of 2 Profile else Refuse; 64 of 2 Profile else Unconfined; 64 of 2 Profile scrub else Refuse to q; 64 of 2 Profile scrub else Unconfined; q@65:\
    §Rules on links are file rules\
    §profile p { /l/* rwl, /t/a r, /t/b rw, }»p@8: 15 of 4; 1 of 4; 7 of 4;\
    §profile p { /l/x lix, /t/x ux, }»p@8: 72 of 4 Inherit else Refuse; 64 of 4 Unconfined else Refuse;\
    §Rules on capabilities and sockets stand together\
    §profile p { capability net_admin, audit capability chown, deny capability kill, network inet, network tcp, }»p@8: cap 1000; audit cap 1; deny cap 20; net 2 3f; net 202 1;\
    §Changes are allowed and denied by name\
    §profile p { change_profile -> q*, deny change_profile -> qd, audit change_profile -> r, } profile q { } profile qd { } profile r { } profile c flags=(complain) { }»p@8: change 1; deny change 2; audit change 1; q@98: qd@112: r@127: c@141 complain:\
    §Paths are patterns, of so many items\
    §profile p { /tmp/* r, /tmp/** r, /{**,} r, /a//b r, ///a r, /[a-c]x r, /a\\* r, \"/a b?\" r, /] r, /{a,{b,c}}d r, }»p@8: 1 of 6; 1 of 6; 1 of 2; 1 of 4; 1 of 2; 1 of 3; 1 of 3; 1 of 5; 1 of 2; 1 of 3;";

#[test]
fn worked_policies_are_read(rt: HostRuntime) {
    for row in WORKED.split('§') {
        if let Some((text, wanted)) = row.split_once('»') {
            is_read(&rt, text, wanted);
        }
    }
}
