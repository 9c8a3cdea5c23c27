//! Answers the tasks of a job one after the other on the calling thread, and makes their lines as they are answered.

ghost use Rattle.std.specs.Prelude.{◌≡◌, ◌++◌, None, OnOk, IfOk, Some};
ghost use Rattle.std.specs.String.{string_bytes};
ghost use Rattle.aa_lane.specs.Answers.{answered_from};
ghost use Rattle.aa_mediate.specs.Reply.{reply};
ghost use Rattle.aa_engine.specs.Answers.{asked, first_unknown, next_label};
ghost use Rattle.aa_engine.specs.Output.{run_text, task_lines};

use crate::lending::{Lent, LentRequest};
use crate::output::{push_audit, push_verdict};
use crate::tasks::opening_label;
use aa_compile::Compiled;
use aa_jobs::{Task, Work};
use aa_lane::Answered;
use aa_machine::Machine;
use aa_mediate::Mediator;
use aa_model::{Answer, Label, Request};
use std::alloc::{AllocError, Global};

/// A request that is lent, with its number and its answer.
fn answered_of<'q, 'p>(
    number: u64,
    request: &'q Request,
    answer: Answer,
) -> Answered<Lent<'q, Mediator<'p>>>
    ensures { result ≡ record { number = number; request = request.now; answer = answer } }
{
    Answered {
        number,
        request: LentRequest::new(request),
        answer,
    }
}

/// Decides the requests of a task from a label on, and appends the lines of their answers.
fn push_answers(
    out: &mut String,
    several: bool,
    policies: &[Compiled],
    task: u64,
    opening: Label,
    works: &[Work],
) -> Result<(), AllocError>
    ensures { OnOk result (string_bytes out.new ≡ string_bytes out.old ++ task_lines several policies.now task opening (answered_from next_label reply policies.now 0 opening (asked works.now))) }
{
    let mediator = Mediator::new(policies);
    let mut label = opening;
    for (n, work) in works.iter().enumerate() {
        let Work::Ask(request) = work else {
            return Ok(());
        };
        let before = label;
        let answer = mediator.step(&mut label, request);
        let answered = answered_of(n as u64, request, answer);
        push_verdict(out, several, policies, task, &answered)?;
        push_audit(out, policies, before, &answered)?;
    }
    Ok(())
}

/// Decides the requests of a task whose label names a profile, and appends the lines of their answers.
fn push_lines(
    out: &mut String,
    several: bool,
    policies: &[Compiled],
    number: u64,
    opening: Label,
    task: &Task,
) -> Result<(), AllocError>
    ensures { OnOk result (string_bytes out.new ≡ string_bytes out.old ++ task_lines several policies.now number opening (answered_from next_label reply policies.now 0 opening (asked task.now.requests))) }
{
    push_answers(
        out,
        several,
        policies,
        number,
        opening,
        task.requests.as_slice(),
    )
}

/// The text of `run` for tasks each of whose labels names a profile.
pub fn run_output_in_turn(
    alloc: Global,
    several: bool,
    policies: &[Compiled],
    tasks: &[Task],
) -> Result<String, AllocError>
    requires { first_unknown policies.now tasks.now ≡ None }
    ensures { IfOk result (λ text. run_text several policies.now tasks.now ≡ Some (string_bytes text)) }
{
    let mut out = String::new(alloc);
    for (n, task) in tasks.iter().enumerate() {
        let Some(opening) = opening_label(policies, task) else {
            unreachable!()
        };
        push_lines(&mut out, several, policies, n as u64, opening, task)?;
    }
    Ok(out)
}
