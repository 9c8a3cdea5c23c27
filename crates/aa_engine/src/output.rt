//! The lines that the commands write.

ghost use Rattle.std.specs.Prelude.{◌≡◌, ◌++◌, ◌^◌, ◌<◌, ◌*◌, OnOk, IfOk, true, codes, decimal, flat_map, length, map, option_map, sum_by};
ghost use Rattle.std.specs.String.{string_bytes};
ghost use Rattle.aa_compile.specs.Labels.{label_name, policy_number};
ghost use Rattle.aa_engine.specs.LineEnds.{IsLineEnd, SayTheSame};
ghost use Rattle.aa_engine.specs.Output.{verdict_word, policy_word, outcome_text, verdict_line, audit_lines, task_lines, keyword_text, profile_name, passed_over_line, counts_line, rules_of, policy_text, number_line, policies_from, check_text};

use crate::lending::Lent;
use aa_audit::push_audit_line;
use aa_base::{plain_text, push_value};
use aa_compile::{Compiled, name_of_label};
use aa_lane::Answered;
use aa_machine::Machine;
use aa_model::{Answer, Label, PassedOver, Policy, Profile, Request};
use itoa::{Buffer, Integer};
use std::alloc::{AllocError, Global};

pub(crate) fn push_integer<I: Integer>(out: &mut String, number: I) -> Result<(), AllocError>
    ensures { OnOk result (string_bytes out.new ≡ string_bytes out.old ++ I.text number) }
{
    let mut buffer = Buffer::new();
    out.push_str(buffer.format(number))
}

pub(crate) fn verdict(granted: bool) -> &'static str
    ensures { result.now ≡ verdict_word granted }
{
    if granted { " granted" } else { " denied" }
}

/// Appends the number of a label's policy, for a job that has a list of policies.
fn push_policy(out: &mut String, several: bool, label: Label) -> Result<(), AllocError>
    ensures { OnOk result (string_bytes out.new ≡ string_bytes out.old ++ policy_word several label) }
{
    if !several {
        return Ok(());
    }
    out.push_str(" policy=")?;
    push_integer(out, policy_of(label))
}

fn policy_of(label: Label) -> u16
    ensures { result ≡ policy_number label }
{
    match label {
        Label::Unconfined(policy) => policy,
        Label::Confined(policy, _) => policy,
    }
}

/// Appends what an answer says.
#[tactic(auto, unfolding(crate::specs::Output::outcome_text))]
pub(crate) fn push_outcome(
    out: &mut String,
    several: bool,
    policies: &[Compiled],
    answer: &Answer,
) -> Result<(), AllocError>
    ensures { OnOk result (string_bytes out.new ≡ string_bytes out.old ++ outcome_text several policies.now answer.now) }
{
    out.push_str(verdict(answer.granted))?;
    out.push_str(" label=")?;
    push_value(out, name_of_label(policies, answer.label))?;
    push_policy(out, several, answer.label)?;
    out.push_str(if answer.scrub { " scrub" } else { "" })
}

/// Appends the numbers of a task and of one of its requests.
fn push_numbers(out: &mut String, task: u64, number: u64) -> Result<(), AllocError>
    ensures { OnOk result (string_bytes out.new ≡ string_bytes out.old ++ (decimal task ++ (codes " " ++ decimal number))) }
{
    push_integer(out, task)?;
    out.push_str(" ")?;
    push_integer(out, number)
}

/// Appends the verdict on a request.
#[tactic(auto, unfolding(crate::specs::Output::verdict_line))]
pub(crate) fn push_verdict<M: Machine<State = Label, Request = Request, Answer = Answer>>(
    out: &mut String,
    several: bool,
    policies: &[Compiled],
    task: u64,
    answered: &Answered<Lent<M>>,
) -> Result<(), AllocError>
    ensures { OnOk result (string_bytes out.new ≡ string_bytes out.old ++ verdict_line several policies.now task answered.now) }
{
    push_numbers(out, task, answered.number)?;
    push_outcome(out, several, policies, &answered.answer)?;
    out.push_str("\n")
}

/// What the lines of a task begin with.
fn line_front(alloc: Global, task: u64) -> Result<String, AllocError>
    ensures { IfOk result (λ front. string_bytes front ≡ decimal task ++ codes " ") }
{
    let mut front = String::new(alloc);
    push_integer(&mut front, task)?;
    front.push_str(" ")?;
    Ok(front)
}

/// An answer, and what a line says of it behind its numbers: the same as of each answer that says the same.
#[derive(Drop)]
pub(crate) struct LineEnd {
    answer: Answer,
    text: String,
}

/// Whether lines say the same of both answers.
fn say_the_same(one: &Answer, other: &Answer) -> bool
    ensures { result ≡ true → SayTheSame one.now other.now }
{
    one.granted == other.granted && one.scrub == other.scrub && one.label == other.label
}

/// The end of a line on an answer.
fn line_end(
    alloc: Global,
    several: bool,
    policies: &[Compiled],
    answer: &Answer,
) -> Result<LineEnd, AllocError>
    ensures text { IfOk result (λ end. IsLineEnd several policies.now answer.now end) }
    ensures answer { IfOk result (λ end. end.answer ≡ answer.now) }
{
    let mut text = String::new(alloc);
    push_outcome(&mut text, several, policies, answer)?;
    text.push_str("\n")?;
    Ok(LineEnd {
        answer: *answer,
        text,
    })
}

/// Makes it the end of a line on another answer, unless it is that already.
fn turn_to(
    end: &mut LineEnd,
    alloc: Global,
    several: bool,
    policies: &[Compiled],
    answer: &Answer,
) -> Result<(), AllocError>
    requires { IsLineEnd several policies.now end.old.answer end.old }
    ensures own { OnOk result (IsLineEnd several policies.now end.new.answer end.new) }
    ensures turned { OnOk result (IsLineEnd several policies.now answer.now end.new) }
{
    if say_the_same(&end.answer, answer) {
        return Ok(());
    }
    *end = line_end(alloc, several, policies, answer)?;
    Ok(())
}

/// Appends the verdict on the request of that number, of whose line these are the front and the end.
fn push_numbered(
    out: &mut String,
    front: &str,
    number: u64,
    end: &LineEnd,
) -> Result<(), AllocError>
    ensures { OnOk result (string_bytes out.new ≡ string_bytes out.old ++ (front.now ++ (decimal number ++ string_bytes end.now.text))) }
{
    out.push_str(front)?;
    push_integer(out, number)?;
    out.push_str(end.text.as_str())
}

/// Appends the audit line of an answer, if it has one.
#[tactic(auto, unfolding(crate::specs::Output::audit_lines))]
pub(crate) fn push_audit<M: Machine<State = Label, Request = Request, Answer = Answer>>(
    out: &mut String,
    policies: &[Compiled],
    before: Label,
    answered: &Answered<Lent<M>>,
) -> Result<(), AllocError>
    ensures { OnOk result (string_bytes out.new ≡ string_bytes out.old ++ audit_lines policies.now before answered.now) }
{
    if push_audit_line(
        out,
        policies,
        before,
        answered.request.get(),
        &answered.answer,
    )? {
        out.push_str("\n")?;
    }
    Ok(())
}

/// Appends the lines of a task's answers, which have that front, from an end of a line on. (The task's number is for the contract.)
fn push_lines<M: Machine<State = Label, Request = Request, Answer = Answer>>(
    out: &mut String,
    alloc: Global,
    several: bool,
    policies: &[Compiled],
    task: u64,
    opening: Label,
    answers: &[Answered<Lent<M>>],
    front: &str,
    first: LineEnd,
) -> Result<(), AllocError>
    requires front { front.now ≡ decimal task ++ codes " " }
    requires end { IsLineEnd several policies.now first.answer first }
    ensures { OnOk result (string_bytes out.new ≡ string_bytes out.old ++ task_lines several policies.now task opening answers.now) }
{
    let mut end = first;
    let mut before = opening;
    for answered in answers {
        turn_to(&mut end, alloc, several, policies, &answered.answer)?;
        push_numbered(out, front, answered.number, &end)?;
        push_audit(out, policies, before, answered)?;
        before = answered.answer.label;
    }
    Ok(())
}

/// Appends the lines of a task that opened with a label.
// Mostly the same is said of request after request, so its text is kept.
pub(crate) fn push_task<M: Machine<State = Label, Request = Request, Answer = Answer>>(
    out: &mut String,
    alloc: Global,
    several: bool,
    policies: &[Compiled],
    task: u64,
    opening: Label,
    answers: &[Answered<Lent<M>>],
) -> Result<(), AllocError>
    ensures { OnOk result (string_bytes out.new ≡ string_bytes out.old ++ task_lines several policies.now task opening answers.now) }
{
    if answers.is_empty() {
        return Ok(());
    }
    let front = line_front(alloc, task)?;
    let first = line_end(alloc, several, policies, &answers[0].answer)?;
    push_lines(
        out,
        alloc,
        several,
        policies,
        task,
        opening,
        answers,
        front.as_str(),
        first,
    )
}

#[tactic(auto, unfolding(crate::specs::Output::keyword_text))]
fn push_keyword(out: &mut String, kind: &[u8]) -> Result<(), AllocError>
    ensures { OnOk result (string_bytes out.new ≡ string_bytes out.old ++ keyword_text kind.now) }
{
    match plain_text(kind) {
        Some(text) => out.push_str(text),
        None => push_value(out, kind),
    }
}

fn name_of_profile(profiles: &[Profile], number: u16) -> &[u8]
    ensures { result.now ≡ profile_name profiles.now number }
{
    match profiles.get(number as usize) {
        Some(profile) => profile.name.as_slice(),
        None => &[],
    }
}

/// Appends the line of a passed-over rule.
#[tactic(auto, unfolding(crate::specs::Output::passed_over_line))]
fn push_passed_over(
    out: &mut String,
    profiles: &[Profile],
    rule: &PassedOver,
) -> Result<(), AllocError>
    ensures { OnOk result (string_bytes out.new ≡ string_bytes out.old ++ passed_over_line profiles.now rule.now) }
{
    out.push_str("passed over ")?;
    push_value(out, name_of_profile(profiles, rule.profile))?;
    out.push_str(" ")?;
    push_keyword(out, rule.kind.as_slice())?;
    out.push_str("\n")?;
    Ok(())
}

#[tactic(auto, unfolding(crate::specs::Output::counts_line))]
fn push_counts(
    out: &mut String,
    profiles: u64,
    rules: u128,
    passed_over: u64,
) -> Result<(), AllocError>
    ensures { OnOk result (string_bytes out.new ≡ string_bytes out.old ++ counts_line profiles rules passed_over) }
{
    out.push_str("ok ")?;
    push_integer(out, profiles)?;
    out.push_str(" profiles ")?;
    push_integer(out, rules)?;
    out.push_str(" file rules ")?;
    push_integer(out, passed_over)?;
    out.push_str(" passed over\n")
}

/// Appends the lines of the passed-over rules.
fn push_all_passed_over(out: &mut String, policy: &Policy) -> Result<(), AllocError>
    ensures { OnOk result (string_bytes out.new ≡ string_bytes out.old ++ flat_map (passed_over_line policy.now.profiles) policy.now.passed_over) }
{
    for rule in policy.passed_over.as_slice() {
        push_passed_over(out, policy.profiles.as_slice(), rule)?;
    }
    Ok(())
}

/// How many file rules the profiles have.
// In 128 bits no bound on the profiles is wanted.
fn count_rules(profiles: &[Profile]) -> u128
    ensures { result ≡ rules_of profiles.now }
{
    let mut count = 0;
    for profile in profiles {
        count += profile.files.as_slice().len() as u128;
    }
    count
}

/// Appends what `check` writes of a policy.
fn push_policy_text(out: &mut String, policy: &Policy) -> Result<(), AllocError>
    ensures { OnOk result (string_bytes out.new ≡ string_bytes out.old ++ policy_text policy.now) }
{
    let profiles = policy.profiles.as_slice();
    let passed_over = policy.passed_over.as_slice();
    push_counts(
        out,
        profiles.len() as u64,
        count_rules(profiles),
        passed_over.len() as u64,
    )?;
    push_all_passed_over(out, policy)
}

/// Appends which policy of a list the lines behind it are about.
#[tactic(auto, unfolding(crate::specs::Output::number_line))]
fn push_number(out: &mut String, several: bool, number: u64) -> Result<(), AllocError>
    ensures { OnOk result (string_bytes out.new ≡ string_bytes out.old ++ number_line several number) }
{
    if !several {
        return Ok(());
    }
    out.push_str("policy ")?;
    push_integer(out, number)?;
    out.push_str("\n")
}

/// The text of `check` for policies that compile.
pub fn check_output(
    alloc: Global,
    several: bool,
    policies: &[Compiled],
) -> Result<String, AllocError>
    ensures { IfOk result (λ text. string_bytes text ≡ check_text several policies.now) }
{
    let mut out = String::new(alloc);
    for (number, compiled) in policies.iter().enumerate() {
        push_number(&mut out, several, number as u64)?;
        push_policy_text(&mut out, compiled.policy())?;
    }
    Ok(out)
}
