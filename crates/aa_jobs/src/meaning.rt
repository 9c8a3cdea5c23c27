//! What stands in a job means these tasks and events, or `BadRequest`.

ghost use Rattle.std.specs.Prelude.{◌≡◌, ◌++◌, ◌∷◌, [], ◌==◌, List, map, true, false, Result, IfErr, IfOk, IfSome, MatchOption, OnOk};
ghost use Rattle.std.specs.List.{list_any, list_all};
ghost use Rattle.aa_jobs.specs.declared.job_fault.JobFault.TheVariants.{NoMemory};
ghost use Rattle.aa_jobs.specs.Steps.{Gives, each};
ghost use Rattle.aa_jobs.specs.Limits.{within_limits};
ghost use Rattle.aa_jobs.specs.declared.job.Work.TheVariants.{Ask};
ghost use Rattle.aa_jobs.specs.Made.{event_in, is_there, made_items, made_sizes, meaning_in, task_in, works_in};
ghost use Rattle.aa_jobs.specs.Meaning.{is_letter, bit_if, mask_bits, file_request, link_request, exec_request, cap_request, net_request, change_request, reload_request, asked, work_of};
ghost use Rattle.aa_jobs.specs.Raw.{kept_work, raw_item, raw_items, raw_task, raw_event, raw_job};
ghost use Rattle.aa_jobs.specs.Written.{WrittenItem};

use crate::job::{Event, Job, Task, Work};
use crate::job_fault::JobFault;
use crate::limits::MAX_POLICIES;
use crate::raw::{KeptWork, RawEvent, RawItem, RawItems, RawJob, RawTask};
use aa_base::{Cap, Family, Perms, Seq, SockType};
use aa_model::{Request, RequestFault};
use bitflags::Flags;
use std::alloc::{AllocError, Global};

fn are_letters(letters: &[u8]) -> bool
    ensures { result ≡ list_all is_letter letters.now }
{
    letters.iter().all(|b| *b == b'r' || *b == b'w' || *b == b'a' || *b == b'k' || *b == b'm')
}

fn has_letter(letters: &[u8], letter: u8) -> bool
    ensures { result ≡ list_any (λ b. b == letter) letters.now }
{
    letters.iter().any(|b| *b == letter)
}

/// The permission, where its letter stands.
fn perm_if(letters: &[u8], letter: u8, perm: Perms) -> Perms
    ensures { result.0 ≡ bit_if letters.now letter perm.0 }
{
    if has_letter(letters, letter) {
        perm
    } else {
        Perms(0)
    }
}

/// The permissions of a mask's letters, in any order and repeated at will.
fn mask_of(letters: &[u8]) -> Perms
    ensures { result.0 ≡ mask_bits letters.now }
{
    perm_if(letters, b'r', Perms::READ)
        .union(perm_if(letters, b'w', Perms::WRITE))
        .union(perm_if(letters, b'a', Perms::APPEND))
        .union(perm_if(letters, b'k', Perms::LOCK))
        .union(perm_if(letters, b'm', Perms::MMAP))
}

/// The permissions of `r`, `w` or `rw`, as most masks are written.
fn plain_mask(letters: &[u8]) -> Option<Perms>
    ensures { IfSome result (λ mask. (list_all is_letter letters.now ≡ true) × (mask.0 ≡ mask_bits letters.now)) }
{
    match letters {
        [b'r'] => Some(Perms::READ),
        [b'w'] => Some(Perms::WRITE),
        [b'r', b'w'] => Some(Perms::READ.union(Perms::WRITE)),
        _ => None,
    }
}

/// The permissions of a mask's letters, if all of them are known.
fn known_mask(letters: &[u8]) -> Option<Perms>
    ensures { MatchOption result (list_all is_letter letters.now ≡ false) (λ mask. (list_all is_letter letters.now ≡ true) × (mask.0 ≡ mask_bits letters.now)) }
{
    if let Some(mask) = plain_mask(letters) {
        return Some(mask);
    }
    if !are_letters(letters) {
        return None;
    }
    Some(mask_of(letters))
}

fn file_work(alloc: Global, path: &[u8], letters: &[u8], owned: bool) -> Result<Request, JobFault>
    ensures { Gives (λ r. r) result (file_request path.now letters.now owned) }
{
    let Some(mask) = known_mask(letters) else {
        return Err(JobFault::BadRequest);
    };
    match Request::file(alloc, path, mask, owned) {
        Ok(request) => Ok(request),
        Err(RequestFault::NoMemory) => Err(JobFault::NoMemory),
        Err(RequestFault::BadPath | RequestFault::BadMask | RequestFault::BadName) => {
            Err(JobFault::BadRequest)
        }
    }
}

fn link_work(alloc: Global, path: &[u8], target: &[u8], owned: bool) -> Result<Request, JobFault>
    ensures { Gives (λ r. r) result (link_request path.now target.now owned) }
{
    match Request::link(alloc, path, target, owned) {
        Ok(request) => Ok(request),
        Err(RequestFault::NoMemory) => Err(JobFault::NoMemory),
        Err(RequestFault::BadPath | RequestFault::BadMask | RequestFault::BadName) => {
            Err(JobFault::BadRequest)
        }
    }
}

fn exec_work(alloc: Global, path: &[u8], owned: bool) -> Result<Request, JobFault>
    ensures { Gives (λ r. r) result (exec_request path.now owned) }
{
    match Request::exec(alloc, path, owned) {
        Ok(request) => Ok(request),
        Err(RequestFault::NoMemory) => Err(JobFault::NoMemory),
        Err(RequestFault::BadPath | RequestFault::BadMask | RequestFault::BadName) => {
            Err(JobFault::BadRequest)
        }
    }
}

fn cap_work(name: &[u8]) -> Result<Request, JobFault>
    ensures { Gives (λ r. r) result (cap_request name.now) }
{
    let cap = Cap::from_name(name).ok_or(JobFault::BadRequest)?;
    Ok(Request::cap(cap))
}

fn net_work(family: &[u8], kind: &[u8]) -> Result<Request, JobFault>
    ensures { Gives (λ r. r) result (net_request family.now kind.now) }
{
    let family = Family::from_name(family).ok_or(JobFault::BadRequest)?;
    let kind = SockType::from_name(kind).ok_or(JobFault::BadRequest)?;
    Ok(Request::net(family, kind))
}

fn change_work(alloc: Global, name: &[u8]) -> Result<Request, JobFault>
    ensures { Gives (λ r. r) result (change_request name.now) }
{
    match Request::change(alloc, name) {
        Ok(request) => Ok(request),
        Err(RequestFault::NoMemory) => Err(JobFault::NoMemory),
        Err(RequestFault::BadPath | RequestFault::BadMask | RequestFault::BadName) => {
            Err(JobFault::BadRequest)
        }
    }
}

/// A request to be decided by one of that many policies.
fn reload_work(policy: u64, policies: u16) -> Result<Request, JobFault>
    ensures { Gives (λ r. r) result (reload_request policies policy) }
{
    if policy < policies as u64 {
        Ok(Request::reload(policy as u16))
    } else {
        Err(JobFault::BadRequest)
    }
}

/// The request, as it is kept.
fn kept(request: Request) -> KeptWork
    ensures { kept_work result ≡ Ask request }
{
    match request {
        Request::File(file) => KeptWork::File(file),
        Request::Link(link) => KeptWork::Link(link),
        Request::Exec(exec) => KeptWork::Exec(exec),
        Request::Cap(cap) => KeptWork::Cap(cap),
        Request::Net(family, kind) => KeptWork::Net(family, kind),
        Request::Change(change) => KeptWork::Change(change),
        Request::Reload(policy) => KeptWork::Reload(policy),
    }
}

fn asked(request: Result<Request, JobFault>) -> Result<KeptWork, JobFault>
    ensures { (given : Result Request JobFault) → Gives (λ r. r) request given → Gives kept_work result (asked given) }
{
    match request {
        Ok(request) => Ok(kept(request)),
        Err(fault) => Err(fault),
    }
}

#[tactic(auto, unfolding(crate::specs::Meaning::work_of))]
fn work(alloc: Global, item: &RawItem, policies: u16) -> Result<KeptWork, JobFault>
    ensures { Gives kept_work result (work_of policies (raw_item item.now)) }
{
    match item {
        RawItem::Exit => Ok(KeptWork::Exit),
        RawItem::File {
            owned,
            path,
            letters,
        } => asked(file_work(alloc, path.as_bytes(), letters.as_bytes(), *owned)),
        RawItem::Link {
            owned,
            path,
            target,
        } => asked(link_work(alloc, path.as_bytes(), target.as_bytes(), *owned)),
        RawItem::Exec { owned, path } => asked(exec_work(alloc, path.as_bytes(), *owned)),
        RawItem::Cap { name } => asked(cap_work(name.as_bytes())),
        RawItem::Net { family, kind } => asked(net_work(family.as_bytes(), kind.as_bytes())),
        RawItem::Change { name } => asked(change_work(alloc, name.as_bytes())),
        RawItem::Reload { policy } => asked(reload_work(*policy, policies)),
    }
}

/// Adds what one more item asks, in a job of as many policies as there may be.
pub fn add_item(alloc: Global, items: &mut RawItems, item: &RawItem) -> Result<(), JobFault>
    ensures added { (ws : List WrittenItem) → raw_items items.old ≡ made_items ws → OnOk result (raw_items items.new ≡ made_items (ws ++ raw_item item.now ∷ [])) }
    ensures cause { IfErr result (λ e. e ≡ NoMemory) }
{
    match work(alloc, item, MAX_POLICIES) {
        Ok(work) => items.works.push(work)?,
        Err(JobFault::NoMemory) => return Err(JobFault::NoMemory),
        Err(_) => {
            items.are_good = false;
            items.works.push(KeptWork::Exit)?;
        }
    }
    Ok(())
}

fn is_there(kept: &KeptWork, policies: u16) -> bool
    ensures { result ≡ is_there policies (kept_work kept.now) }
{
    match kept {
        KeptWork::Reload(policy) => *policy < policies,
        _ => true,
    }
}

fn are_there(list: &[KeptWork], policies: u16) -> bool
    ensures { result ≡ list_all (λ k. is_there policies (kept_work k)) list.now }
{
    list.iter().all(|kept| is_there(kept, policies))
}

fn each_is_there(list: &[KeptWork], policies: u16) -> bool
    ensures { result ≡ list_all (is_there policies) (map kept_work list.now) }
{
    are_there(list, policies)
}

fn asked_work(kept: KeptWork) -> Work
    ensures { result ≡ kept_work kept }
{
    match kept {
        KeptWork::Exit => Work::Exit,
        KeptWork::File(file) => Work::Ask(Request::File(file)),
        KeptWork::Link(link) => Work::Ask(Request::Link(link)),
        KeptWork::Exec(exec) => Work::Ask(Request::Exec(exec)),
        KeptWork::Cap(cap) => Work::Ask(Request::Cap(cap)),
        KeptWork::Net(family, kind) => Work::Ask(Request::Net(family, kind)),
        KeptWork::Change(change) => Work::Ask(Request::Change(change)),
        KeptWork::Reload(policy) => Work::Ask(Request::Reload(policy)),
    }
}

fn asked_works(alloc: Global, list: Vec<KeptWork>) -> Result<Vec<Work>, AllocError>
    ensures { IfOk result (λ v. v.items ≡ map kept_work list.items) }
{
    let mut works = Vec::with_capacity(alloc, list.len())?;
    for kept in list {
        works.push(asked_work(kept))?;
    }
    Ok(works)
}

/// What the items ask, where each can be asked for and each policy that they name is one of that many.
fn works(alloc: Global, items: RawItems, policies: u16) -> Result<Vec<Work>, JobFault>
    ensures { Gives (λ v. v.items) result (works_in policies (raw_items items)) }
{
    let RawItems { works, are_good } = items;
    if are_good && each_is_there(works.as_slice(), policies) {
        Ok(asked_works(alloc, works)?)
    } else {
        Err(JobFault::BadRequest)
    }
}

#[tactic(auto, unfolding(crate::specs::Made::task_in))]
fn task(alloc: Global, raw: RawTask, policies: u16) -> Result<Task, JobFault>
    ensures { Gives (λ t. t) result (task_in policies (raw_task raw)) }
{
    let RawTask {
        label,
        policy,
        items,
    } = raw;
    if policy >= policies as u64 {
        return Err(JobFault::BadRequest);
    }
    let requests = works(alloc, items, policies)?;
    Ok(Task {
        label,
        policy: policy as u16,
        requests: Seq::from_vec(requests),
    })
}

/// The tasks.
fn tasks(alloc: Global, list: Vec<RawTask>, policies: u16) -> Result<Vec<Task>, JobFault>
    ensures { Gives (λ v. v.items) result (each (task_in policies) (map raw_task list.items)) }
{
    let mut tasks = Vec::with_capacity(alloc, list.len())?;
    for raw in list {
        tasks.push(task(alloc, raw, policies)?)?;
    }
    Ok(tasks)
}

/// An event, at one of that many tasks.
#[tactic(auto, unfolding(crate::specs::Made::event_in))]
fn event(raw: &RawEvent, tasks: u32) -> Result<Event, JobFault>
    ensures { Gives (λ e. e) result (event_in tasks (raw_event raw.now)) }
{
    let name = raw.name.ok_or(JobFault::BadRequest)?;
    if raw.task < tasks as u64 {
        Ok(Event {
            task: raw.task as u32,
            name,
        })
    } else {
        Err(JobFault::BadRequest)
    }
}

fn events(alloc: Global, list: &[RawEvent], tasks: u32) -> Result<Vec<Event>, JobFault>
    ensures { Gives (λ v. v.items) result (each (event_in tasks) (map raw_event list.now)) }
{
    let mut events = Vec::with_capacity(alloc, list.len())?;
    for raw in list {
        events.push(event(raw, tasks)?)?;
    }
    Ok(events)
}

/// The job that stands there.
#[tactic(auto, unfolding(crate::specs::Made::meaning_in))]
pub fn job_from(alloc: Global, raw: RawJob) -> Result<Job, JobFault>
    requires { within_limits (made_sizes (raw_job raw)) ≡ true }
    ensures { Gives (λ j. j) result (meaning_in (raw_job raw)) }
{
    let list = raw.tasks;
    let rows = list.as_slice();
    let count = rows.len() as u32;
    let texts = raw.policies.as_slice();
    let tasks = tasks(alloc, list, texts.len() as u16)?;
    let events = events(alloc, raw.events.as_slice(), count)?;
    Ok(Job {
        policies: Seq::from_vec(raw.policies),
        several: raw.several,
        includes: Seq::from_vec(raw.includes),
        tasks: Seq::from_vec(tasks),
        states: raw.states as u32,
        capacity: raw.capacity as u32,
        events: Seq::from_vec(events),
    })
}
