//! The shape of a job: what stands in its JSON value, or `BadShape`.

ghost use Rattle.std.specs.Prelude.{◌≡◌, List, Result, codes, map, Some, None};
ghost use Rattle.std.specs.List.{list_all, list_any};
ghost use Rattle.std.specs.Str.{bytes_eq};
ghost use Rattle.serde_json.specs.Data.{object};
ghost use Rattle.serde_json.specs.Find.{get};
ghost use Rattle.aa_jobs.specs.declared.job_fault.JobFault.TheVariants.{BadShape};
ghost use Rattle.aa_jobs.specs.Steps.{Gives, only_if, each};
ghost use Rattle.aa_jobs.specs.Shape.{keys_of, is_key, has_only, text_in, number_in, list_in, text_at, number_from, has, pair_shape, include_shape, includes_in, includes_from, policies_from};
ghost use Rattle.aa_jobs.specs.Parts.{job_with, raw_run, raw_texts, run_with, task_with, texts_shape};
ghost use Rattle.aa_jobs.specs.Made.{MadeItems, MadeTask, if_known, made_event, made_event_shape, made_events_from, mapped};
ghost use Rattle.aa_jobs.specs.Meaning.{event_name};
ghost use Rattle.aa_jobs.specs.Raw.{raw_text, raw_items, raw_task, raw_event, raw_job};
ghost use Rattle.aa_jobs.specs.Trees.{tree_data, object_data, entry_data};

use crate::job::EventName;
use crate::job_fault::JobFault;
use crate::raw::{RawEvent, RawItems, RawJob, RawRun, RawTask, RawTexts};
use crate::tree::{self, Member, Tree};
use aa_base::Text;
use aa_words::Include;
use std::alloc::Global;
use std::collections::BTreeMap;

/// The number of the policy that decides for a task where it doesn't say.
const DEFAULT_POLICY: u64 = 0;

/// How many states an automaton may have where the job doesn't say.
const DEFAULT_STATES: u64 = 4096;

/// How many requests a lane holds where the job doesn't say.
const DEFAULT_CAPACITY: u64 = 1;

/// The keys of the whole job.
const WHOLE_KEYS: [&str; 7] = [
    "policy", "policies", "includes", "tasks", "states", "capacity", "events",
];

/// The objects of a job.
#[derive(Clone, Copy)]
pub enum Part {
    Whole,
    OfTask,
    OfFile,
    OfLink,
    OfExec,
    OfCap,
    OfNet,
    OfChange,
    OfReload,
}

/// The keys that such an object may have.
fn keys_of(part: Part) -> &'static [&'static str]
    ensures { map raw_text result.now ≡ keys_of part }
{
    match part {
        Part::Whole => &WHOLE_KEYS,
        Part::OfTask => &["label", "policy", "requests"],
        Part::OfFile => &["file", "mask", "owned"],
        Part::OfLink => &["link", "to", "owned"],
        Part::OfExec => &["exec", "owned"],
        Part::OfCap => &["cap"],
        Part::OfNet => &["net", "type"],
        Part::OfChange => &["change"],
        Part::OfReload => &["reload"],
    }
}

fn is_among(keys: &[&str], key: &str) -> bool
    ensures { result ≡ list_any (λ k. bytes_eq key.now k.now) keys.now }
{
    keys.iter().any(|known| key == *known)
}

fn is_known(part: Part, key: &str) -> bool
    ensures { result ≡ is_key part key.now }
{
    is_among(keys_of(part), key)
}

fn only_known(part: Part, members: &[Member]) -> bool
    ensures { result ≡ list_all (λ m. is_key part m.0.now) members.now }
{
    members.iter().all(|member| is_known(part, member.0))
}

fn members_fit(part: Part, members: &[Member]) -> bool
    ensures { result ≡ has_only part (object_data members.now) }
{
    only_known(part, members)
}

/// The keys of an object are all known.
fn expect(part: Part, members: &[Member]) -> Result<(), JobFault>
    ensures { Gives (λ u. u) result (only_if (has_only part (object_data members.now)) BadShape) }
{
    if members_fit(part, members) {
        Ok(())
    } else {
        Err(JobFault::BadShape)
    }
}

fn text<'t>(value: &Tree<'t>) -> Result<&'t str, JobFault>
    ensures { Gives (λ s. s.now) result (text_in (tree_data value.now)) }
{
    tree::text(value).ok_or(JobFault::BadShape)
}

fn number(value: &Tree) -> Result<u64, JobFault>
    ensures { Gives (λ n. n) result (number_in (tree_data value.now)) }
{
    tree::unsigned(value).ok_or(JobFault::BadShape)
}

fn list<'v, 't>(value: &'v Tree<'t>) -> Result<&'v [Tree<'t>], JobFault>
    ensures { Gives (λ s. map tree_data s.now) result (list_in (tree_data value.now)) }
{
    tree::items(value).ok_or(JobFault::BadShape)
}

fn text_of<'t>(members: &[Member<'t>], key: &str) -> Result<&'t str, JobFault>
    ensures { Gives (λ s. s.now) result (text_at key.now (object (object_data members.now))) }
{
    match tree::member(members, key) {
        Some(member) => text(member),
        None => Err(JobFault::BadShape),
    }
}

fn number_of(members: &[Member], key: &str, default: u64) -> Result<u64, JobFault>
    ensures { Gives (λ n. n) result (number_from default (get key.now (object (object_data members.now)))) }
{
    match tree::member(members, key) {
        None => Ok(default),
        Some(member) => number(member),
    }
}

fn has_key(members: &[Member], key: &str) -> bool
    ensures { result ≡ has key.now (object (object_data members.now)) }
{
    tree::member(members, key).is_some()
}

/// A task whose items are read by themselves.
#[tactic(auto, unfolding(crate::specs::Parts::task_with))]
pub fn task(
    alloc: Global,
    members: &[Member],
    items: Result<RawItems, JobFault>,
) -> Result<RawTask, JobFault>
    ensures { (given : Result MadeItems JobFault) → Gives raw_items items given → Gives raw_task result (task_with given (object (object_data members.now))) }
{
    expect(Part::OfTask, members)?;
    let label = text_of(members, "label")?;
    let policy = number_of(members, "policy", DEFAULT_POLICY)?;
    let items = items?;
    let label = Text::copy_of(alloc, label.as_bytes())?;
    Ok(RawTask {
        label,
        policy,
        items,
    })
}

fn event_named(name: &str) -> Option<EventName>
    ensures { result ≡ if_known (event_name name.now) }
{
    if name == "send" {
        Some(EventName::Send)
    } else if name == "take" {
        Some(EventName::Take)
    } else if name == "finish" {
        Some(EventName::Finish)
    } else if name == "collect" {
        Some(EventName::Collect)
    } else if name == "shut" {
        Some(EventName::Shut)
    } else {
        None
    }
}

fn pair(list: &[Tree]) -> Result<RawEvent, JobFault>
    ensures { Gives raw_event result (mapped made_event (pair_shape (map tree_data list.now))) }
{
    match list {
        [task, name] => Ok(RawEvent {
            task: number(task)?,
            name: event_named(text(name)?),
        }),
        _ => Err(JobFault::BadShape),
    }
}

#[tactic(auto, unfolding(crate::specs::Shape::event_shape))]
fn event(value: &Tree) -> Result<RawEvent, JobFault>
    ensures { Gives raw_event result (made_event_shape (tree_data value.now)) }
{
    pair(list(value)?)
}

fn events(alloc: Global, list: &[Tree]) -> Result<Vec<RawEvent>, JobFault>
    ensures { Gives (λ v. map raw_event v.items) result (each made_event_shape (map tree_data list.now)) }
{
    let mut events = Vec::with_capacity(alloc, list.len())?;
    for value in list {
        events.push(event(value)?)?;
    }
    Ok(events)
}

fn events_of(alloc: Global, members: &[Member]) -> Result<Vec<RawEvent>, JobFault>
    ensures { Gives (λ v. map raw_event v.items) result (made_events_from (get (codes "events") (object (object_data members.now)))) }
{
    match tree::member(members, "events") {
        None => Ok(Vec::new(alloc)),
        Some(member) => events(alloc, list(member)?),
    }
}

/// A copy of the text that a value has to be.
fn text_copy(alloc: Global, value: &Tree) -> Result<Text, JobFault>
    ensures { Gives (λ t. t) result (text_in (tree_data value.now)) }
{
    let text = text(value)?;
    Ok(Text::copy_of(alloc, text.as_bytes())?)
}

#[tactic(auto, unfolding(crate::specs::Shape::include_shape))]
fn include(alloc: Global, name: &str, value: &Tree) -> Result<Include, JobFault>
    ensures { Gives (λ i. i) result (include_shape (name.now, tree_data value.now)) }
{
    let text = text_copy(alloc, value)?;
    let name = Text::copy_of(alloc, name.as_bytes())?;
    Ok(Include { name, text })
}

/// The included texts, in byte order of their names.
fn includes<'t>(
    alloc: Global,
    found: &BTreeMap<&'t str, &Tree<'t>>,
) -> Result<Vec<Include>, JobFault>
    ensures { Gives (λ v. v.items) result (each include_shape (map entry_data found.now.entries)) }
{
    let mut includes = Vec::new(alloc);
    for (name, value) in found {
        includes.push(include(alloc, name, value)?)?;
    }
    Ok(includes)
}

fn includes_in(alloc: Global, value: &Tree) -> Result<Vec<Include>, JobFault>
    ensures { Gives (λ v. v.items) result (includes_in (tree_data value.now)) }
{
    match tree::members(value) {
        None => Err(JobFault::BadShape),
        Some(members) => includes(alloc, &tree::sorted(alloc, members)?),
    }
}

fn includes_of(alloc: Global, members: &[Member]) -> Result<Vec<Include>, JobFault>
    ensures { Gives (λ v. v.items) result (includes_from (get (codes "includes") (object (object_data members.now)))) }
{
    match tree::member(members, "includes") {
        None => Ok(Vec::new(alloc)),
        Some(member) => includes_in(alloc, member),
    }
}

fn texts(alloc: Global, list: &[Tree]) -> Result<Vec<Text>, JobFault>
    ensures { Gives (λ v. v.items) result (each text_in (map tree_data list.now)) }
{
    let mut texts = Vec::with_capacity(alloc, list.len())?;
    for value in list {
        texts.push(text_copy(alloc, value)?)?;
    }
    Ok(texts)
}

fn one_text(alloc: Global, value: &Tree) -> Result<Vec<Text>, JobFault>
    ensures { Gives (λ v. v.items) result (policies_from (Some (tree_data value.now)) None) }
{
    let mut texts = Vec::new(alloc);
    texts.push(text_copy(alloc, value)?)?;
    Ok(texts)
}

/// The policies: the one text of `policy`, or the texts of `policies`, and not both.
fn policies_of(alloc: Global, members: &[Member]) -> Result<Vec<Text>, JobFault>
    ensures { Gives (λ v. v.items) result (policies_from (get (codes "policy") (object (object_data members.now))) (get (codes "policies") (object (object_data members.now)))) }
{
    match (
        tree::member(members, "policy"),
        tree::member(members, "policies"),
    ) {
        (Some(one), None) => one_text(alloc, one),
        (None, Some(several)) => texts(alloc, list(several)?),
        _ => Err(JobFault::BadShape),
    }
}

/// The policies and the included texts.
#[tactic(auto, unfolding(crate::specs::Parts::texts_shape))]
fn texts_of(alloc: Global, members: &[Member]) -> Result<RawTexts, JobFault>
    ensures { Gives raw_texts result (texts_shape (object (object_data members.now))) }
{
    let policies = policies_of(alloc, members)?;
    let includes = includes_of(alloc, members)?;
    Ok(RawTexts { policies, includes })
}

/// The tasks, which are read by themselves, the numbers and the events.
#[tactic(auto, unfolding(crate::specs::Parts::run_with))]
fn run_of(
    alloc: Global,
    members: &[Member],
    tasks: Result<Vec<RawTask>, JobFault>,
) -> Result<RawRun, JobFault>
    ensures { (given : Result (List MadeTask) JobFault) → Gives (λ v. map raw_task v.items) tasks given → Gives raw_run result (run_with given (object (object_data members.now))) }
{
    let tasks = tasks?;
    let states = number_of(members, "states", DEFAULT_STATES)?;
    let capacity = number_of(members, "capacity", DEFAULT_CAPACITY)?;
    let events = events_of(alloc, members)?;
    Ok(RawRun {
        tasks,
        states,
        capacity,
        events,
    })
}

/// All that stands in a job whose tasks are read by themselves.
#[tactic(auto, unfolding(crate::specs::Parts::job_with))]
pub fn job(
    alloc: Global,
    members: &[Member],
    tasks: Result<Vec<RawTask>, JobFault>,
) -> Result<RawJob, JobFault>
    ensures { (given : Result (List MadeTask) JobFault) → Gives (λ v. map raw_task v.items) tasks given → Gives raw_job result (job_with given (object (object_data members.now))) }
{
    expect(Part::Whole, members)?;
    let several = has_key(members, "policies");
    let RawTexts { policies, includes } = texts_of(alloc, members)?;
    let run = run_of(alloc, members, tasks)?;
    let RawRun {
        tasks,
        states,
        capacity,
        events,
    } = run;
    Ok(RawJob {
        policies,
        several,
        includes,
        tasks,
        states,
        capacity,
        events,
    })
}
