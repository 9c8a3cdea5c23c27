//! How large a job may be.

ghost use Rattle.std.specs.Prelude.{◌≡◌, length, map, nat_le};
ghost use Rattle.std.specs.List.{list_all};
ghost use Rattle.aa_jobs.specs.Limits.{include_sizes, policies_fit, texts_fit, lists_fit, numbers_fit, within_limits};
ghost use Rattle.aa_jobs.specs.Made.{made_sizes};
ghost use Rattle.aa_jobs.specs.Raw.{raw_task, raw_job};

use crate::raw::{RawJob, RawTask};
use aa_base::Text;
use aa_words::Include;

/// How many policies there may be.
pub const MAX_POLICIES: u16 = 16;

/// How many bytes each policy's text, and each included one, may have.
const MAX_TEXT: usize = 1_048_576;

/// How many texts may be included.
const MAX_INCLUDES: usize = 4095;

/// How many tasks there may be.
const MAX_TASKS: usize = 1024;

/// How many items a task's list may have.
const MAX_ITEMS: usize = 65_536;

/// How many events there may be.
const MAX_EVENTS: usize = 1_000_000;

/// How many states an automaton may be allowed.
const MAX_STATES: u64 = 1_000_000;

/// How many requests a lane may hold.
const MAX_CAPACITY: u64 = 1024;

fn all_texts_fit(includes: &[Include]) -> bool
    ensures { result ≡ list_all (λ i. nat_le (length i.text) 1048576) includes.now }
{
    includes
        .iter()
        .all(|include| include.text.as_slice().len() <= MAX_TEXT)
}

fn each_text_fits(includes: &[Include]) -> bool
    ensures { result ≡ list_all (λ n. nat_le n 1048576) (include_sizes includes.now) }
{
    all_texts_fit(includes)
}

fn all_tasks_fit(tasks: &[RawTask]) -> bool
    ensures { result ≡ list_all (λ t. nat_le (length t.items.works.items) 65536) tasks.now }
{
    tasks.iter().all(|task| task.items.works.len() <= MAX_ITEMS)
}

fn each_task_fits(tasks: &[RawTask]) -> bool
    ensures { result ≡ list_all (λ n. nat_le n 65536) (map (λ t. length t.items.works) (map raw_task tasks.now)) }
{
    all_tasks_fit(tasks)
}

fn all_policies_fit(policies: &[Text]) -> bool
    ensures { result ≡ list_all (λ p. nat_le (length p) 1048576) policies.now }
{
    policies
        .iter()
        .all(|policy| policy.as_slice().len() <= MAX_TEXT)
}

fn each_policy_fits(policies: &[Text]) -> bool
    ensures { result ≡ list_all (λ n. nat_le n 1048576) (map length policies.now) }
{
    all_policies_fit(policies)
}

fn policies_within(job: &RawJob) -> bool
    ensures { result ≡ policies_fit (made_sizes (raw_job job.now)) }
{
    1 <= job.policies.len()
        && job.policies.len() <= MAX_POLICIES as usize
        && each_policy_fits(job.policies.as_slice())
}

fn texts_within(job: &RawJob) -> bool
    ensures { result ≡ texts_fit (made_sizes (raw_job job.now)) }
{
    policies_within(job)
        && job.includes.len() <= MAX_INCLUDES
        && each_text_fits(job.includes.as_slice())
}

fn lists_within(job: &RawJob) -> bool
    ensures { result ≡ lists_fit (made_sizes (raw_job job.now)) }
{
    job.tasks.len() <= MAX_TASKS
        && each_task_fits(job.tasks.as_slice())
        && job.events.len() <= MAX_EVENTS
}

fn numbers_within(job: &RawJob) -> bool
    ensures { result ≡ numbers_fit (made_sizes (raw_job job.now)) }
{
    1 <= job.states && job.states <= MAX_STATES && 1 <= job.capacity && job.capacity <= MAX_CAPACITY
}

/// Whether nothing that stands in the job is over its limit.
pub fn is_within_limits(job: &RawJob) -> bool
    ensures { result ≡ within_limits (made_sizes (raw_job job.now)) }
{
    texts_within(job) && lists_within(job) && numbers_within(job)
}
