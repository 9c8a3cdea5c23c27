//! Requests that stand for all others at a label, of worked policies.

use crate::comparing::{equal, holds};
use crate::texts::{FIRST, FREE, policies_in, step};
use aa_compile::Compiled;
use aa_model::Label::Confined;
use aa_model::{Label, Request};
use aa_representatives::{
    RepresentativesFault, change_representatives, exec_representatives, file_representatives,
    link_representatives, reload_representatives,
};

/// The path of an execution, whether the task's user owns the file, and the label that it leads to.
const BY_ATTACHMENTS: &[(&[u8], bool, Label)] = &[
    (b"/", true, FREE),
    (b"/", false, FREE),
    (b"/usr/bin/a", true, Confined(0, 1)),
    (b"/usr/bin/a", false, Confined(0, 1)),
    (b"/usr/bin/web", true, Confined(0, 0)),
    (b"/usr/bin/web", false, Confined(0, 0)),
];

#[test]
fn six_executions_stand_for_all_of_an_unconfined_task(rt: HostRuntime) {
    let text = "profile web /usr/bin/web { } profile other /usr/bin/* { }";
    let list = policies_in(&rt, text);
    let found = exec_representatives(rt.alloc(), list.as_slice(), FREE, 4096).expect(&rt, text);
    equal(&rt, found.len(), BY_ATTACHMENTS.len());
    for (request, row) in found.iter().zip(BY_ATTACHMENTS) {
        match request {
            Request::Exec(exec) => equal(&rt, (exec.path(), exec.owned()), (row.0, row.1)),
            _ => holds(&rt, false),
        }
        equal(&rt, step(list.as_slice(), FREE, request).1, row.2);
    }
}

/// How many requests there are, and how many of them are granted to the first profile.
fn granted(list: &[Compiled], requests: &[Request]) -> (usize, usize) {
    let granted = requests
        .iter()
        .filter(|it| step(list, FIRST, *it).0.granted);
    (requests.len(), granted.count())
}

// Three regions, by 31 masks, of the owner and of others. Reading `/a` is granted to both, and to the owner of `/b` writing,
// appending, and both.
#[test]
fn five_of_the_requests_for_files_are_granted(rt: HostRuntime) {
    let text = "profile p { /a r, owner /b w, }";
    let list = policies_in(&rt, text);
    let found = file_representatives(rt.alloc(), list.as_slice(), FIRST, 4096).expect(&rt, text);
    equal(&rt, granted(list.as_slice(), found.as_slice()), (186, 5));
    let refused = file_representatives(rt.alloc(), list.as_slice(), FIRST, 2);
    let is_so = matches!(refused, Err(RepresentativesFault::TooManyStates));
    holds(&rt, is_so);
}

// A name that names nothing, the three profiles, and `unconfined`.
#[test]
fn one_of_five_changes_is_granted(rt: HostRuntime) {
    let text = "profile p { change_profile -> q, } profile q { } profile r { }";
    let list = policies_in(&rt, text);
    let found = change_representatives(rt.alloc(), list.as_slice(), FIRST, 4096).expect(&rt, text);
    equal(&rt, granted(list.as_slice(), found.as_slice()), (5, 1));
}

#[test]
fn policies_that_are_none_are_answered_as_the_first_of_them(rt: HostRuntime) {
    let list = policies_in(&rt, "profile p { }¦profile q { }");
    let found = reload_representatives(rt.alloc(), list.as_slice()).expect(&rt, "requests");
    equal(&rt, granted(list.as_slice(), found.as_slice()), (3, 1));
}

// Of four regions the rules say the same of two; so there are three paths to link at and three to link to, of the owner and of
// others. What may be read may be linked to.
#[test]
fn four_of_eighteen_links_are_granted(rt: HostRuntime) {
    let text = "profile p { /a rl, /b r, /c r, }";
    let list = policies_in(&rt, text);
    let found = link_representatives(rt.alloc(), list.as_slice(), FIRST, 4096).expect(&rt, text);
    equal(&rt, granted(list.as_slice(), found.as_slice()), (18, 4));
}
