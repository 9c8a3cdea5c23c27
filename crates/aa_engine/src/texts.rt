//! The text of a job's tasks, whose parts threads make side by side.

ghost use Rattle.std.specs.Prelude.{◌≡◌, ◌<◌, ℕ, All, IfOk, None, Some, flat_map, length, map, slice_index_or};
ghost use Rattle.std.specs.String.{string_bytes};
ghost use Rattle.aa_engine.specs.Answers.{task_label, job_answers_by, first_unknown};
ghost use Rattle.aa_engine.specs.Output.{task_lines, lines_from};
ghost use Rattle.aa_engine.specs.Texts.{joined_lines};

use crate::lending::Lent;
use crate::output::push_task;
use crate::tasks::opening_label;
use aa_compile::Compiled;
use aa_jobs::Task;
use aa_lane::Answered;
use aa_machine::Machine;
use aa_model::{Answer, Label, Request};
use std::alloc::{AllocError, Global};
use std::thread;
use std::thread::Threads;

/// How many bytes a line on an answer has at least: two digits, the verdict, and a label of one byte.
const LEAST_LINE: usize = 21;

/// What can be made by itself, whichever thread does it.
trait Making {
    // What making the item of that number leaves of it.
    ghost is_made: { ℕ → Self → Self → Type 0 };

    fn make(&mut self, number: u64)
        ensures { is_made number self.old self.new };
}

/// Makes all, in at most as many threads as there are workers. One worker is the calling thread.
fn make_all<T: Making + Send + Drop, R: Threads + Sync>(
    rt: &R,
    items: Vec<T>,
    workers: u32,
) -> Vec<T>
    ensures len { length result.items ≡ length items.items }
    ensures made { (n : ℕ) (d : T) → n < length items.items → T.is_made n (slice_index_or items.items n d) (slice_index_or result.items n d) }
{
    let mut items = items;
    let threads = workers.max(1) as usize;
    thread::for_each_mut(
        rt,
        items.as_mut_slice(),
        threads,
        &|n, item| item.make(n as u64),
    );
    items
}

/// A task's label and answers, and its lines, once they are made.
#[derive(Drop)]
struct TaskText<'r, 'q, M: Machine<State = Label, Request = Request, Answer = Answer>> {
    alloc: Global,
    several: bool,
    policies: &'r [Compiled],
    machine: &'q M,
    opening: Label,
    answers: &'r [Answered<Lent<'q, M>>],
    lines: Option<String>,
}

impl<'r, 'q, M: Machine<State = Label, Request = Request, Answer = Answer>> Making
    for TaskText<'r, 'q, M> {
    ghost use Rattle.aa_engine.specs.Texts.{IsMade};

    ghost is_made = { λ task before after. IsMade task before after };

    /// Makes the lines of a task, if there is memory.
    fn make(&mut self, number: u64) {
        self.lines = match lines_of(
            self.alloc,
            self.several,
            self.policies,
            number,
            self.opening,
            self.answers,
        ) {
            Ok(lines) => Some(lines),
            Err(AllocError) => None,
        };
    }
}

/// Each task with its label and answers, and without lines.
fn texts_to_make<'r, 'q, M: Machine<State = Label, Request = Request, Answer = Answer>>(
    alloc: Global,
    several: bool,
    policies: &'r [Compiled],
    tasks: &[Task],
    machine: &'q M,
    rows: &'r [Vec<Answered<Lent<'q, M>>>],
) -> Result<Vec<TaskText<'r, 'q, M>>, AllocError>
    requires known { first_unknown policies.now tasks.now ≡ None }
    requires len { length rows.now ≡ length tasks.now }
    ensures alike { IfOk result (λ v. All (λ t. (t.several ≡ several) × (t.policies.now ≡ policies.now)) v.items) }
    ensures labels { IfOk result (λ v. map (λ t. Some t.opening) v.items ≡ map (task_label policies.now) tasks.now) }
    ensures answers { IfOk result (λ v. map (λ t. t.answers.now) v.items ≡ map (λ row. row.items) rows.now) }
{
    let mut texts = Vec::with_capacity(alloc, tasks.len())?;
    for (n, task) in tasks.iter().enumerate() {
        let Some(opening) = opening_label(policies, task) else {
            unreachable!()
        };
        texts.push(TaskText {
            alloc,
            several,
            policies,
            machine,
            opening,
            answers: rows[n].as_slice(),
            lines: None,
        })?;
    }
    Ok(texts)
}

/// The lines of a task that opened with a label.
fn lines_of<M: Machine<State = Label, Request = Request, Answer = Answer>>(
    alloc: Global,
    several: bool,
    policies: &[Compiled],
    task: u64,
    opening: Label,
    answers: &[Answered<Lent<M>>],
) -> Result<String, AllocError>
    ensures { IfOk result (λ lines. string_bytes lines ≡ task_lines several policies.now task opening answers.now) }
{
    let mut lines = String::with_capacity(alloc, answers.len().saturating_mul(LEAST_LINE))?;
    push_task(&mut lines, alloc, several, policies, task, opening, answers)?;
    Ok(lines)
}

/// The lines of all, in the tasks' order. Where those of one aren't there, memory ran out.
fn taken<'q, M: Machine<State = Label, Request = Request, Answer = Answer>>(
    alloc: Global,
    texts: Vec<TaskText<'_, 'q, M>>,
) -> Result<Vec<String>, AllocError>
    ensures { IfOk result (λ parts. joined_lines texts.entry.items ≡ Some (flat_map string_bytes parts.items)) }
{
    let mut parts = Vec::with_capacity(alloc, texts.len())?;
    for text in texts {
        let Some(lines) = text.lines else {
            return Err(AllocError);
        };
        parts.push(lines)?;
    }
    Ok(parts)
}

/// The text of `run` for the tasks of a job, where a machine answers them so, lent their requests: a part for each task, in order. The
/// parts are made side by side, in at most as many threads as there are workers.
// Reading a job and printing take most of a run of short requests. Want of memory still comes before the first byte is written.
// The parts aren't joined: to copy them takes as long as four threads take to make them.
pub fn run_output<
    'q,
    M: Machine<State = Label, Request = Request, Answer = Answer> + Sync,
    R: Threads + Sync,
>(
    rt: &R,
    alloc: Global,
    several: bool,
    tasks: &[Task],
    policies: &[Compiled],
    machine: &'q M,
    rows: &[Vec<Answered<Lent<'q, M>>>],
    workers: u32,
) -> Result<Vec<String>, AllocError>
    requires { job_answers_by M.next M.reply machine.now policies.now tasks.now ≡ Some (map (λ row. row.items) rows.now) }
    ensures { IfOk result (λ parts. lines_from M.next M.reply machine.now several policies.now 0 tasks.now ≡ Some (flat_map string_bytes parts.items)) }
{
    let texts = texts_to_make(alloc, several, policies, tasks, machine, rows)?;
    taken(alloc, make_all(rt, texts, workers))
}
