//! What is read of jobs, and how faults are told. (Cases tell what each request asks.)

use crate::comparing::{equal, push, push_part};
use aa_base::{PolicyFault, PolicyKind, Spot, Text};
use aa_engine::RunFault;
use aa_jobs::{Event, Include, Job, JobFault, Task, Work, read_job};
use aa_model::Request;
use aa_policies::RefusedPolicy;
use std::process::Abort;

/// The text that bytes are.
fn text_of<'a>(rt: &impl Abort, bytes: &'a [u8]) -> &'a str {
    str::from_utf8(bytes).expect(rt, "UTF-8")
}

fn push_policies(rt: &impl Abort, told: &mut String, policies: &[Text]) {
    for policy in policies {
        push(rt, told, "|policy ");
        push(rt, told, text_of(rt, policy.as_slice()));
    }
}

fn push_includes(rt: &(impl Abort + AllocGlobal), told: &mut String, includes: &[Include]) {
    for include in includes {
        let name = text_of(rt, include.name.as_slice());
        let text = text_of(rt, include.text.as_slice());
        push_part(rt, told, format!(in rt.alloc(); "|include {name} {text}"));
    }
}

/// Its label, its policy, and a word for each item, of a request for a file its path and its mask.
fn push_task(rt: &(impl Abort + AllocGlobal), told: &mut String, task: &Task) {
    let (label, policy) = (text_of(rt, task.label.as_slice()), task.policy);
    push_part(rt, told, format!(in rt.alloc(); "|task {label} {policy}:"));
    for work in task.requests.as_slice() {
        let part = match work {
            Work::Ask(Request::File(file)) => {
                let path = text_of(rt, file.path());
                let owned = if file.owned() { " owned" } else { "" };
                format!(in rt.alloc(); " {path} {}{owned}", file.mask().0)
            }
            Work::Ask(Request::Reload(number)) => format!(in rt.alloc(); " reload {number}"),
            Work::Ask(_) => format!(in rt.alloc(); " another"),
            Work::Exit => format!(in rt.alloc(); " exit"),
        };
        push_part(rt, told, part);
    }
}

fn push_events(rt: &(impl Abort + AllocGlobal), told: &mut String, events: &[Event]) {
    for event in events {
        let (task, name) = (event.task, event.name);
        push_part(rt, told, format!(in rt.alloc(); "|{task} {name:?}"));
    }
}

/// A job's policies, includes, numbers, tasks and events.
fn told(rt: &(impl Abort + AllocGlobal), job: &Job) -> String {
    let mut told = String::new(rt.alloc());
    push(rt, &mut told, if job.several { "several" } else { "one" });
    push_policies(rt, &mut told, job.policies.as_slice());
    push_includes(rt, &mut told, job.includes.as_slice());
    let (states, capacity) = (job.states, job.capacity);
    let numbers = format!(in rt.alloc(); "|states {states} capacity {capacity}");
    push_part(rt, &mut told, numbers);
    for task in job.tasks.as_slice() {
        push_task(rt, &mut told, task);
    }
    push_events(rt, &mut told, job.events.as_slice());
    told
}

const WORKED: &str =
    r#"{"policy":"profile p { /etc/passwd r, }","tasks":[{"label":"p","requests":[{"file":"/etc/passwd","mask":"r"},{"file":"/etc/passwd","mask":"w"}]}]}"#;

/// A job with all that one may have.
const WHOLE: &str =
    r#" {"events":[[0,"send"],[1,"take"],[0,"finish"],[1,"collect"],[0,"shut"]],"capacity":1024,"states":1000000,
        "tasks":[{"requests":[],"label":"unconfined"},{"label":"","requests":["exit",{"owned":true,"mask":"mkawrrr","file":"/"},"exit"]}],
        "includes":{"b":"2","a/x":"1","Z":"0"},"policy":"\u0041\n"} "#;

/// A job of three policies, with tasks in the last and in the first.
const SEVERAL: &str =
    r#"{"policies":["a","b","c"],"tasks":[{"label":"p","policy":2,"requests":[{"reload":1},"exit",{"reload":2}]},{"requests":[],"label":"q"}]}"#;

#[test]
fn jobs_are_read(rt: HostRuntime) {
    const JOBS: &[(&str, &str)] = &[
        (
            WORKED,
            "one|policy profile p { /etc/passwd r, }|states 4096 capacity 1|task p 0: /etc/passwd 1 /etc/passwd 2",
        ),
        (
            WHOLE,
            "one|policy A\n|include Z 0|include a/x 1|include b 2|states 1000000 capacity 1024|task unconfined 0:|task  0: exit / 55 owned exit|0 Send|1 Take|0 Finish|1 Collect|0 Shut",
        ),
        (
            SEVERAL,
            "several|policy a|policy b|policy c|states 4096 capacity 1|task p 2: reload 1 exit reload 2|task q 0:",
        ),
        (
            r#"{"policies":["a"],"tasks":[]}"#,
            "several|policy a|states 4096 capacity 1",
        ),
        (
            r#"{"policy":"a","tasks":[]}"#,
            "one|policy a|states 4096 capacity 1",
        ),
    ];
    for (text, wanted) in JOBS {
        let job = read_job(rt.alloc(), text.as_bytes()).expect(&rt, text);
        equal(&rt, told(&rt, &job).as_str(), *wanted);
    }
}

#[test]
fn faults_have_numbers_and_names(rt: HostRuntime) {
    for (fault, number, wanted) in [
        (JobFault::NoMemory, 1, "job 1 NoMemory"),
        (JobFault::NotJson, 2, "job 2 NotJson"),
        (JobFault::BadShape, 3, "job 3 BadShape"),
        (JobFault::BadRequest, 4, "job 4 BadRequest"),
        (JobFault::TooLarge, 5, "job 5 TooLarge"),
    ] {
        let told = format!(in rt.alloc(); "{fault}").expect(&rt, "memory");
        equal(&rt, (told.as_str(), fault.number()), (wanted, number));
    }
}

fn of_policy(policy: u16) -> RunFault {
    let at = Spot { file: 0, byte: 15 };
    RunFault::Policy(RefusedPolicy {
        policy,
        fault: PolicyFault {
            kind: PolicyKind::WriteWithAppend,
            at,
        },
    })
}

#[test]
fn each_fault_has_a_line_and_a_status(rt: HostRuntime) {
    for (fault, wanted, status) in [
        (RunFault::NoMemory, "no memory", 3),
        (RunFault::Read, "read failed", 3),
        (RunFault::Write, "write failed", 3),
        (RunFault::Job(JobFault::BadRequest), "job 4 BadRequest", 1),
        (of_policy(0), "refused 8 WriteWithAppend 0:15", 1),
        (of_policy(1), "policy 1 refused 8 WriteWithAppend 0:15", 1),
        (RunFault::UnknownProfile(0), "task 0 has no profile", 1),
    ] {
        let told = format!(in rt.alloc(); "{fault}").expect(&rt, "memory");
        equal(&rt, (told.as_str(), fault.status()), (wanted, status));
    }
}
