//! A job's text.

ghost use Rattle.std.specs.Prelude.{◌≡◌, ◌++◌, ◌&&◌, ◌||◌, not, count_by, length, ◌≤◌, false, true, OnOk, IfOk};
ghost use Rattle.std.specs.List.{list_all, list_any, position};
ghost use Rattle.std.specs.Str.{is_utf8, bytes_eq};
ghost use Rattle.aa_notation.specs.Kinds.{has_text};
ghost use Rattle.aa_notation.specs.Jobs.{left_out, if_text, requests_text, has_profile, policy_of, decider_text, task_text, tasks_text, include_text, includes_text, texts_text, policies_text, given_text, asked_text, job_text, is_policy_count, is_job_text};

use crate::kinds::{has_text, push_request};
use crate::request::push_first;
use aa_logs::LogTask;
use aa_model::Request;
use aa_text::{
    is_text, push_comma, push_json_bytes, push_key, push_next_key, push_number, push_text,
};
use std::alloc::{AllocError, Global};

/// The most policies of a job.
const MOST_POLICIES: usize = 16;

/// A policy of a job.
#[derive(Clone, Copy, Debug)]
pub struct JobPolicy<'a> {
    pub text: &'a [u8],
    /// The full names of its profiles.
    pub names: &'a [Vec<u8>],
}

/// A text that the policies include, and its name.
#[derive(Clone, Copy, Debug)]
pub struct Include<'a> {
    pub name: &'a [u8],
    pub text: &'a [u8],
}

/// Appends a request, unless it is no UTF-8, behind a comma where one stands before.
#[tactic(auto, unfolding(crate::specs::Jobs::if_text))]
fn push_if_text(
    out: &mut Vec<u8>,
    alloc: Global,
    is_later: bool,
    request: &Request,
) -> Result<(), AllocError>
    ensures { OnOk result (out.new.items ≡ out.old.items ++ if_text is_later request.now) }
{
    if !has_text(request) {
        return Ok(());
    }
    push_comma(out, is_later)?;
    push_request(out, alloc, request)
}

#[tactic(auto, unfolding(crate::specs::Jobs::requests_text))]
fn push_requests(out: &mut Vec<u8>, alloc: Global, requests: &[Request]) -> Result<(), AllocError>
    ensures { OnOk result (out.new.items ≡ out.old.items ++ requests_text false requests.now) }
{
    let mut rest = requests;
    let mut is_later = false;
    while let [request, after @ ..] = rest {
        push_if_text(out, alloc, is_later, request)?;
        is_later = is_later || has_text(request);
        rest = after;
    }
    Ok(())
}

fn is_name(name: &[u8], label: &[u8]) -> bool
    ensures { result ≡ bytes_eq name.now label.now }
{
    name == label
}

fn has_profile(policy: &JobPolicy<'_>, label: &[u8]) -> bool
    ensures { result ≡ has_profile label.now policy.now }
{
    policy
        .names
        .iter()
        .any(|name| is_name(name.as_slice(), label))
}

/// The number of the first policy that has a profile of that full name.
pub fn policy_of(policies: &[JobPolicy<'_>], label: &[u8]) -> Option<usize>
    ensures { result ≡ policy_of label.now policies.now }
{
    policies
        .iter()
        .position(|policy| has_profile(policy, label))
}

/// Appends which policy decides for a task of that label, where there is not one policy alone.
#[tactic(auto, unfolding(crate::specs::Jobs::decider_text))]
fn push_decider(
    out: &mut Vec<u8>,
    policies: &[JobPolicy<'_>],
    label: &[u8],
) -> Result<(), AllocError>
    ensures { OnOk result (out.new.items ≡ out.old.items ++ decider_text policies.now label.now) }
{
    if policies.len() == 1 {
        return Ok(());
    }
    let Some(number) = policy_of(policies, label) else {
        return Ok(());
    };
    push_next_key(out, "policy")?;
    push_number(out, number)
}

#[tactic(auto, unfolding(crate::specs::Jobs::task_text))]
fn push_task(
    out: &mut Vec<u8>,
    alloc: Global,
    policies: &[JobPolicy<'_>],
    task: &LogTask,
) -> Result<(), AllocError>
    ensures { OnOk result (out.new.items ≡ out.old.items ++ task_text policies.now task.now) }
{
    push_text(out, "{")?;
    push_first(out, alloc, "label", task.label.as_slice())?;
    push_next_key(out, "requests")?;
    push_text(out, "[")?;
    push_requests(out, alloc, task.requests.as_slice())?;
    push_text(out, "]")?;
    push_decider(out, policies, task.label.as_slice())?;
    push_text(out, "}")
}

#[tactic(auto, unfolding(crate::specs::Jobs::tasks_text))]
fn push_tasks(
    out: &mut Vec<u8>,
    alloc: Global,
    policies: &[JobPolicy<'_>],
    tasks: &[LogTask],
) -> Result<(), AllocError>
    ensures { OnOk result (out.new.items ≡ out.old.items ++ tasks_text policies.now false tasks.now) }
{
    let mut rest = tasks;
    let mut is_later = false;
    while let [task, after @ ..] = rest {
        push_comma(out, is_later)?;
        push_task(out, alloc, policies, task)?;
        is_later = true;
        rest = after;
    }
    Ok(())
}

#[tactic(auto, unfolding(crate::specs::Jobs::include_text))]
fn push_include(out: &mut Vec<u8>, alloc: Global, include: &Include<'_>) -> Result<(), AllocError>
    ensures { OnOk result (out.new.items ≡ out.old.items ++ include_text include.now) }
{
    push_json_bytes(out, alloc, include.name)?;
    push_text(out, ":")?;
    push_json_bytes(out, alloc, include.text)
}

#[tactic(auto, unfolding(crate::specs::Jobs::includes_text))]
fn push_includes(
    out: &mut Vec<u8>,
    alloc: Global,
    includes: &[Include<'_>],
) -> Result<(), AllocError>
    ensures { OnOk result (out.new.items ≡ out.old.items ++ includes_text false includes.now) }
{
    let mut rest = includes;
    let mut is_later = false;
    while let [include, after @ ..] = rest {
        push_comma(out, is_later)?;
        push_include(out, alloc, include)?;
        is_later = true;
        rest = after;
    }
    Ok(())
}

#[tactic(auto, unfolding(crate::specs::Jobs::texts_text))]
fn push_texts(
    out: &mut Vec<u8>,
    alloc: Global,
    policies: &[JobPolicy<'_>],
) -> Result<(), AllocError>
    ensures { OnOk result (out.new.items ≡ out.old.items ++ texts_text false policies.now) }
{
    let mut rest = policies;
    let mut is_later = false;
    while let [policy, after @ ..] = rest {
        push_comma(out, is_later)?;
        push_json_bytes(out, alloc, policy.text)?;
        is_later = true;
        rest = after;
    }
    Ok(())
}

#[tactic(auto, unfolding(crate::specs::Jobs::policies_text))]
fn push_policies(
    out: &mut Vec<u8>,
    alloc: Global,
    policies: &[JobPolicy<'_>],
) -> Result<(), AllocError>
    ensures { OnOk result (out.new.items ≡ out.old.items ++ policies_text policies.now) }
{
    if let [policy] = policies {
        return push_first(out, alloc, "policy", policy.text);
    }
    push_key(out, "policies")?;
    push_text(out, "[")?;
    push_texts(out, alloc, policies)?;
    push_text(out, "]")
}

/// Appends what the policies are made of.
#[tactic(auto, unfolding(crate::specs::Jobs::given_text))]
fn push_given(
    out: &mut Vec<u8>,
    alloc: Global,
    policies: &[JobPolicy<'_>],
    includes: &[Include<'_>],
) -> Result<(), AllocError>
    ensures { OnOk result (out.new.items ≡ out.old.items ++ given_text policies.now includes.now) }
{
    push_text(out, "{")?;
    push_policies(out, alloc, policies)?;
    push_next_key(out, "includes")?;
    push_text(out, "{")?;
    push_includes(out, alloc, includes)?;
    push_text(out, "},")
}

/// Appends the tasks and the limit on states, and ends the object and the line.
#[tactic(auto, unfolding(crate::specs::Jobs::asked_text))]
fn push_asked(
    out: &mut Vec<u8>,
    alloc: Global,
    policies: &[JobPolicy<'_>],
    tasks: &[LogTask],
    states: u32,
) -> Result<(), AllocError>
    ensures { OnOk result (out.new.items ≡ out.old.items ++ asked_text policies.now tasks.now states) }
{
    push_key(out, "tasks")?;
    push_text(out, "[")?;
    push_tasks(out, alloc, policies, tasks)?;
    push_text(out, "],")?;
    push_key(out, "states")?;
    push_number(out, states)?;
    push_text(out, "}\n")
}

/// Appends a job and a line end: the texts of policies, the texts that they include, and tasks, each decided by the first policy
/// that has its profile. Requests that are no UTF-8 are left out.
pub fn push_job_text(
    out: &mut Vec<u8>,
    alloc: Global,
    policies: &[JobPolicy<'_>],
    includes: &[Include<'_>],
    tasks: &[LogTask],
    states: u32,
) -> Result<(), AllocError>
    ensures { OnOk result (out.new.items ≡ out.old.items ++ job_text policies.now includes.now tasks.now states) }
{
    push_given(out, alloc, policies, includes)?;
    push_asked(out, alloc, policies, tasks, states)
}

/// Whether a job may have so many policies.
pub fn is_policy_count(count: usize) -> bool
    ensures { result ≡ is_policy_count count }
{
    1 <= count && count <= MOST_POLICIES
}

fn is_policy_text(policy: &JobPolicy<'_>) -> bool
    ensures { result ≡ is_utf8 policy.now.text.now }
{
    is_text(policy.text)
}

fn is_include_text(include: &Include<'_>) -> bool
    ensures { result ≡ (is_utf8 include.now.name.now && is_utf8 include.now.text.now) }
{
    is_text(include.name) && is_text(include.text)
}

fn is_label_text(task: &LogTask) -> bool
    ensures { result ≡ is_utf8 task.now.label.items }
{
    is_text(task.label.as_slice())
}

fn are_include_texts(includes: &[Include<'_>]) -> bool
    ensures { result ≡ list_all (λ i. is_utf8 i.name.now && is_utf8 i.text.now) includes.now }
{
    includes.iter().all(|include| is_include_text(include))
}

fn are_label_texts(tasks: &[LogTask]) -> bool
    ensures { result ≡ list_all (λ t. is_utf8 t.label.items) tasks.now }
{
    tasks.iter().all(|task| is_label_text(task))
}

fn are_policy_texts(policies: &[JobPolicy<'_>]) -> bool
    ensures { result ≡ list_all (λ p. is_utf8 p.text.now) policies.now }
{
    policies.iter().all(|policy| is_policy_text(policy))
}

/// Whether a job's texts, their names and the labels of its tasks are UTF-8, so that a job can hold them.
pub fn is_job_text(policies: &[JobPolicy<'_>], includes: &[Include<'_>], tasks: &[LogTask]) -> bool
    ensures { result ≡ is_job_text policies.now includes.now tasks.now }
{
    are_policy_texts(policies) && are_include_texts(includes) && are_label_texts(tasks)
}

fn left_out_of(requests: &[Request]) -> usize
    ensures { result ≡ count_by (λ r. not (has_text r)) requests.now }
{
    requests.iter().filter(|request| !has_text(request)).count()
}

/// How many of the tasks' requests are no UTF-8, up to the greatest number of 64 bits.
pub fn left_out(tasks: &[LogTask]) -> u64
    ensures { result ≡ left_out tasks.now }
{
    let mut count: u64 = 0;
    for task in tasks {
        count = count.saturating_add(left_out_of(task.requests.as_slice()) as u64);
    }
    count
}
