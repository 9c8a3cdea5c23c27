//! Events that happen at the tasks of a job, each at the world of its own task.

ghost use Rattle.std.specs.Prelude.{◌≡◌, ◌++◌, ◌<◌, ◌≤◌, OnOk, IfOk, Some, None, codes, length, decimal, slice_get};
ghost use Rattle.std.specs.String.{string_bytes};
ghost use Rattle.aa_engine.specs.Answers.{first_unknown};
ghost use Rattle.aa_engine.specs.Replay.{offered, named_event, is_refused, left_after, is_send, count_word, given_text, said_text, told, event_line, says, task_says, task_after, without_request, line_at, tasks_after, replay_lines, opened, replay_text};

use crate::output::{push_integer, push_outcome};
use crate::tasks::opening_label;
use aa_compile::Compiled;
use aa_jobs::{Event as Listed, EventName, Job, Task, Work};
use aa_lane::{Event, Reply, SendFault, World};
use aa_mediate::Mediator;
use std::alloc::{AllocError, Global};
use std::marker::Model;

/// A task's world, and the items of its list that it has still to offer.
#[derive(Drop)]
pub struct TaskAtPlay<'j> {
    world: World<'j, Mediator<'j>>,
    left: &'j [Work],
}

impl<'j> Model for TaskAtPlay<'j> {
    ghost use Rattle.aa_model.specs.contracts.policy.Policy as policy;
    ghost use Rattle.std.specs.Coded.{codes};
    ghost use Rattle.aa_engine.specs.Replay.{TaskState};

    ghost Value = { TaskState };

    ghost coded = { Prim.hlevel (codes, policy.the_row.coded) };

    ghost view = { λ t. record { world = t.world; left = t.left.now } };
}

fn is_send(name: EventName) -> bool
    ensures { result ≡ is_send name }
{
    match name {
        EventName::Send => true,
        EventName::Take | EventName::Finish | EventName::Collect | EventName::Shut => false,
    }
}

/// The event of the next item.
fn next_event<'p>(left: &[Work]) -> Result<Option<Event<Mediator<'p>>>, AllocError>
    ensures { IfOk result (λ e. e ≡ named_event EventName.Send left.now) }
{
    match left {
        [] => Ok(None),
        [Work::Exit, ..] => Ok(Some(Event::Shut)),
        [Work::Ask(request), ..] => Ok(Some(Event::Send(request.try_clone()?))),
    }
}

fn event_of<'p>(name: EventName, left: &[Work]) -> Result<Option<Event<Mediator<'p>>>, AllocError>
    ensures { IfOk result (λ e. e ≡ named_event name left.now) }
{
    match name {
        EventName::Send => next_event(left),
        EventName::Take => Ok(Some(Event::Take)),
        EventName::Finish => Ok(Some(Event::Finish)),
        EventName::Collect => Ok(Some(Event::Collect)),
        EventName::Shut => Ok(Some(Event::Shut)),
    }
}

/// What a task's world said, without the request that came back.
#[derive(Clone, Copy, Debug, PartialEq, Eq)]
pub enum Said {
    Accepted(u64),
    Spent,
    Full,
    Closed,
    Taken(u64),
    Idle,
    Settled,
    Held,
    Finished(u64),
    NoJob,
    Given(u64),
    Nothing,
    Count(u64),
}

fn without_request<'p>(reply: Reply<Mediator<'p>>) -> Said
    ensures { result ≡ without_request reply.entry }
{
    match reply {
        Reply::Accepted(n) => Said::Accepted(n),
        Reply::Unsent(SendFault::Spent, _) => Said::Spent,
        Reply::Unsent(SendFault::Full, _) => Said::Full,
        Reply::Unsent(SendFault::Closed, _) => Said::Closed,
        Reply::Taken(n) => Said::Taken(n),
        Reply::Idle => Said::Idle,
        Reply::Settled => Said::Settled,
        Reply::Held => Said::Held,
        Reply::Finished(n) => Said::Finished(n),
        Reply::NoJob => Said::NoJob,
        Reply::Given(n) => Said::Given(n),
        Reply::Nothing => Said::Nothing,
        Reply::Count(n) => Said::Count(n),
    }
}

fn is_refused(said: Said) -> bool
    ensures { result ≡ is_refused said }
{
    match said {
        Said::Spent | Said::Full | Said::Closed => true,
        _ => false,
    }
}

/// The items that are left after an event of that name, where its reply refuses the item that was offered or doesn't.
fn left_behind<'j>(name: EventName, refused: bool, left: &'j [Work]) -> &'j [Work]
    ensures { result.now ≡ left_after name refused left.now }
{
    if refused || !is_send(name) {
        return left;
    }
    match left {
        [] => left,
        [_, rest @ ..] => rest,
    }
}

impl<'j> TaskAtPlay<'j> {
    /// Makes the event of that name happen. Without an item left to send, nothing happens, and nothing is said.
    fn play(&mut self, name: EventName) -> Result<Option<Said>, AllocError>
        ensures after { OnOk result (self.new ≡ task_after self.old name) }
        ensures said { IfOk result (λ s. s ≡ task_says self.old name) }
    {
        let Some(event) = event_of(name, self.left)? else {
            return Ok(None);
        };
        let Ok(reply) = self.world.apply(event) else {
            return Err(AllocError);
        };
        let said = without_request(reply);
        self.left = left_behind(name, is_refused(said), self.left);
        Ok(Some(said))
    }
}

fn count_word(name: EventName) -> &'static str
    ensures { result.now ≡ count_word name }
{
    if is_send(name) { " exit " } else { " shut " }
}

/// Appends a word and a number.
fn push_numbered(out: &mut String, word: &str, number: u64) -> Result<(), AllocError>
    ensures { OnOk result (string_bytes out.new ≡ string_bytes out.old ++ (word.now ++ decimal number)) }
{
    out.push_str(word)?;
    push_integer(out, number)
}

/// Appends that an answer was collected, and what it says.
fn push_given<'p>(
    out: &mut String,
    several: bool,
    policies: &[Compiled],
    world: &World<'p, Mediator<'p>>,
    number: u64,
) -> Result<(), AllocError>
    ensures { OnOk result (string_bytes out.new ≡ string_bytes out.old ++ (codes " collect " ++ (decimal number ++ given_text several policies.now (slice_get world.now.answers number)))) }
{
    push_numbered(out, " collect ", number)?;
    match world.answer(number) {
        Some(answer) => push_outcome(out, several, policies, answer),
        None => Ok(()),
    }
}

/// Appends what a task's world said.
#[tactic(auto, unfolding(crate::specs::Replay::said_text))]
fn push_said<'p>(
    out: &mut String,
    several: bool,
    policies: &[Compiled],
    name: EventName,
    world: &World<'p, Mediator<'p>>,
    said: Said,
) -> Result<(), AllocError>
    ensures { OnOk result (string_bytes out.new ≡ string_bytes out.old ++ said_text several policies.now name world.now.answers said) }
{
    match said {
        Said::Accepted(n) => push_numbered(out, " send accepted ", n),
        Said::Spent => out.push_str(" send spent"),
        Said::Full => out.push_str(" send full"),
        Said::Closed => out.push_str(" send closed"),
        Said::Taken(n) => push_numbered(out, " take ", n),
        Said::Idle => out.push_str(" take idle"),
        Said::Settled => out.push_str(" take settled"),
        Said::Held => out.push_str(" take held"),
        Said::Finished(n) => push_numbered(out, " finish ", n),
        Said::NoJob => out.push_str(" finish none"),
        Said::Given(n) => push_given(out, several, policies, world, n),
        Said::Nothing => out.push_str(" collect none"),
        Said::Count(n) => push_numbered(out, count_word(name), n),
    }
}

/// Appends what a task's world said, or that no item was left to send.
fn push_told<'p>(
    out: &mut String,
    several: bool,
    policies: &[Compiled],
    name: EventName,
    world: &World<'p, Mediator<'p>>,
    said: Option<Said>,
) -> Result<(), AllocError>
    ensures { OnOk result (string_bytes out.new ≡ string_bytes out.old ++ told several policies.now name world.now.answers said) }
{
    match said {
        Some(said) => push_said(out, several, policies, name, world, said),
        None => out.push_str(" send none"),
    }
}

/// Makes an event happen at a task, and appends its line.
#[tactic(auto, unfolding(crate::specs::Replay::event_line))]
fn push_line<'j>(
    out: &mut String,
    several: bool,
    policies: &[Compiled],
    number: u32,
    task: &mut TaskAtPlay<'j>,
    name: EventName,
) -> Result<(), AllocError>
    ensures task { OnOk result (task.new ≡ task_after task.old name) }
    ensures line { OnOk result (string_bytes out.new ≡ string_bytes out.old ++ event_line several policies.now number task.old name) }
{
    let said = task.play(name)?;
    push_integer(out, number)?;
    push_told(out, several, policies, name, &task.world, said)?;
    out.push_str("\n")
}

/// Makes an event happen at the task that it names, and appends its line.
fn push_event<'j>(
    out: &mut String,
    several: bool,
    policies: &[Compiled],
    tasks: &mut [TaskAtPlay<'j>],
    event: Listed,
) -> Result<(), AllocError>
    requires { event.task < length tasks.old }
    ensures tasks { OnOk result (tasks.new ≡ tasks_after tasks.old event) }
    ensures line { OnOk result (string_bytes out.new ≡ string_bytes out.old ++ line_at several policies.now tasks.old event) }
{
    push_line(
        out,
        several,
        policies,
        event.task,
        &mut tasks[event.task as usize],
        event.name,
    )
}

/// A world for each task, in which nothing has happened.
fn open_tasks<'j>(
    alloc: Global,
    policies: &[Compiled],
    mediator: &'j Mediator<'j>,
    capacity: u32,
    tasks: &'j [Task],
) -> Result<Vec<TaskAtPlay<'j>>, AllocError>
    requires same { mediator.now ≡ policies.now }
    requires room { (0 < capacity) × (capacity ≤ 1024) }
    requires known { first_unknown policies.now tasks.now ≡ None }
    ensures { IfOk result (λ states. opened policies.now capacity tasks.now ≡ Some states.items) }
{
    let mut states = Vec::new(alloc);
    for task in tasks {
        let Some(label) = opening_label(policies, task) else {
            unreachable!()
        };
        let Ok(world) = World::new(alloc, mediator, capacity, label) else {
            unreachable!()
        };
        states.push(TaskAtPlay {
            world,
            left: task.requests.as_slice(),
        })?;
    }
    Ok(states)
}

/// The text of `replay`, for a job each of whose labels names a profile.
pub fn replay_output(alloc: Global, job: &Job, policies: &[Compiled]) -> Result<String, AllocError>
    requires { first_unknown policies.now job.now.tasks ≡ None }
    ensures { IfOk result (λ text. replay_text job.now.several policies.now job.now.capacity job.now.tasks job.now.events ≡ Some (string_bytes text)) }
{
    let mediator = Mediator::new(policies);
    let mut out = String::new(alloc);
    let mut states = open_tasks(
        alloc,
        policies,
        &mediator,
        job.capacity,
        job.tasks.as_slice(),
    )?;
    for event in job.events.as_slice() {
        push_event(
            &mut out,
            job.several,
            policies,
            states.as_mut_slice(),
            *event,
        )?;
    }
    Ok(out)
}
