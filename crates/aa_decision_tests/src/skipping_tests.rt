//! What is undecided where the heads of some profiles alone are known, or nothing of them.

use crate::comparing::equal_in;
use crate::texts::{label, policies_in, request, spelled, step};
use aa_base::Seq;
use aa_compile::{Compiled, name_of_label};
use aa_model::{Policy, Profile, Request};
use aa_skipping::{Head, Unread, is_undecided};
use std::process::Abort;

const READ: &str = "
profile web /usr/bin/web {
  /usr/bin/** px, /opt/pux pux, /opt/u ux, /opt/i ix,
  /opt/named px -> helper, /opt/tool px -> tool, /opt/part cx -> part, /opt/lost cx -> lost, /opt/search cx,
  deny /opt/denied x, change_profile -> helper,
  profile part /opt/search { }
}
profile tool /usr/bin/tool { }
profile star /usr/bin/s* { }
profile quiet flags=(complain) { deny change_profile -> two, }
";

const UNREAD: &str = "
profile helper /usr/bin/helper { /x r, }
profile tie /usr/bin/s*r { profile own { } }
profile two /usr/bin/{to*,longer/front*} { }
profile part { }
";

fn push_head(rt: &impl Abort, heads: &mut Vec<Head>, profile: Profile) {
    let Profile {
        name,
        parent,
        attachments,
        ..
    } = profile;
    if parent.is_none() {
        heads.push(Head { name, attachments }).expect(rt, "memory");
    }
}

/// The heads of the top-level profiles that a text spells.
fn heads_of(rt: &(impl Abort + AllocGlobal), text: &str) -> Seq<Head> {
    let Policy { profiles, .. } = spelled(rt, text);
    let mut heads = Vec::new(rt.alloc());
    for profile in profiles.into_vec() {
        push_head(rt, &mut heads, profile);
    }
    Seq::from_vec(heads)
}

/// Whether both policies grant the same to a task in a profile of that name, and lead it to profiles of one name.
fn answer_alike(
    rt: &impl Abort,
    read: &[Compiled],
    joined: &[Compiled],
    name: &str,
    request: &Request,
) -> bool {
    let (before, one) = step(read, label(rt, read, name), request);
    let (after, other) = step(joined, label(rt, joined, name), request);
    before.granted == after.granted
        && before.scrub == after.scrub
        && name_of_label(read, one) == name_of_label(joined, other)
}

fn undecided(
    rt: &(impl Abort + AllocGlobal),
    read: &[Compiled],
    unread: &Unread,
    name: &str,
    request: &Request,
) -> bool {
    let from = label(rt, read, name);
    let found = match read {
        [compiled, ..] => is_undecided(rt.alloc(), compiled, unread, from, request),
        [] => Ok(false),
    };
    found.expect(rt, "memory")
}

/// Where the second text wasn't read but for its heads, what each task asks is decided or not, as it says, task by task between `|`; and what
/// is decided is answered by both texts together as by the first alone.
fn leaves(
    rt: &(impl Abort + AllocGlobal),
    unread_text: &str,
    others: bool,
    wanted: bool,
    rows: &str,
) {
    let unread = Unread {
        heads: heads_of(rt, unread_text),
        others,
    };
    let both = format!(in rt.alloc(); "{READ}\n{unread_text}").expect(rt, "memory");
    let read = policies_in(rt, READ);
    let joined = policies_in(rt, both.as_str());
    for row in rows.split('|') {
        let (name, asked) = row.split_once(' ').expect(rt, row);
        for word in asked.split(' ') {
            let request = request(rt, word);
            let found = undecided(rt, &read, &unread, name, &request);
            let alike = answer_alike(rt, &read, &joined, name, &request);
            equal_in(rt, (found, found || alike), (wanted, true), word);
        }
    }
}

/// What is undecided, and what is decided, where the heads of the unread are known.
fn leaves_by_heads(rt: &(impl Abort + AllocGlobal), open: &str, decided: &str) {
    leaves(rt, UNREAD, false, true, open);
    leaves(rt, UNREAD, false, false, decided);
}

#[test]
fn a_search_is_undecided_where_an_unread_attachment_matches_and_none_that_was_read_is_stronger(
    rt: HostRuntime,
) {
    const OPEN: &str =
        "unconfined x:/usr/bin/helper x:/usr/bin/sir x:/usr/bin/toad|web x:/usr/bin/helper x:/usr/bin/sir";
    const DECIDED: &str =
        "unconfined x:/usr/bin/web x:/usr/bin/tool x:/usr/bin/sh x:/usr/bin/none|web x:/usr/bin/tool x:/usr/bin/none x:/opt/pux x:/opt/search";
    leaves_by_heads(&rt, OPEN, DECIDED);
}

#[test]
fn a_name_is_undecided_where_an_unread_profile_or_its_child_may_have_it(rt: HostRuntime) {
    const OPEN: &str =
        "web x:/opt/named change:helper|quiet change:helper|unconfined change:helper change:tie//own change:tie//other";
    const DECIDED: &str =
        "web x:/opt/tool x:/opt/part x:/opt/lost|unconfined change:ties change:tie/own change:web change:web//part change:web//lost change:unconfined";
    leaves_by_heads(&rt, OPEN, DECIDED);
}

#[test]
fn what_the_rules_refuse_anyway_is_decided(rt: HostRuntime) {
    const DECIDED: &str =
        "web x:/opt/denied x:/opt/none change:two|quiet change:two x:/usr/bin/helper";
    leaves(&rt, UNREAD, false, false, DECIDED);
}

#[test]
fn where_nothing_is_known_of_some_each_search_and_each_name_that_is_not_found_is_undecided(
    rt: HostRuntime,
) {
    const OPEN: &str = "unconfined x:/usr/bin/web change:none|web x:/usr/bin/tool x:/opt/lost";
    const DECIDED: &str =
        "unconfined change:web|web x:/opt/u x:/opt/i x:/opt/search x:/opt/denied change:none";
    leaves(&rt, "", true, true, OPEN);
    leaves(&rt, "", true, false, DECIDED);
}

#[test]
fn what_moves_no_task_is_decided(rt: HostRuntime) {
    const DECIDED: &str = "web r:/x l:/x->/y cap:chown net:inet/raw|unconfined r:/x";
    leaves(&rt, UNREAD, false, false, DECIDED);
    leaves(&rt, "", true, false, DECIDED);
}
