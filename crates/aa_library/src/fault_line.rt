//! What the commands say of a fault.

ghost use Rattle.std.specs.Prelude.{◌≡◌, ◌++◌, OnOk, IfOk, codes, decimal};
ghost use Rattle.std.specs.String.{string_bytes};
ghost use Rattle.aa_library.specs.Lines.{fault_line, job_fault_name, job_line, policy_number_word, refused_line, policy_line, task_line};

use aa_base::PolicyFault;
use aa_engine::RunFault;
use aa_jobs::JobFault;
use aa_policies::RefusedPolicy;
use itoa::{Buffer, Integer};
use std::alloc::{AllocError, Global};

fn push_integer<I: Integer>(out: &mut String, number: I) -> Result<(), AllocError>
    ensures { OnOk result (string_bytes out.new ≡ string_bytes out.old ++ I.text number) }
{
    let mut buffer = Buffer::new();
    out.push_str(buffer.format(number))
}

fn name_of_job_fault(fault: JobFault) -> &'static str
    ensures { result.now ≡ job_fault_name fault }
{
    match fault {
        JobFault::NoMemory => "NoMemory",
        JobFault::NotJson => "NotJson",
        JobFault::BadShape => "BadShape",
        JobFault::BadRequest => "BadRequest",
        JobFault::TooLarge => "TooLarge",
    }
}

#[tactic(auto, unfolding(crate::specs::Lines::job_line))]
fn push_job_line(out: &mut String, fault: JobFault) -> Result<(), AllocError>
    ensures { OnOk result (string_bytes out.new ≡ string_bytes out.old ++ job_line fault) }
{
    out.push_str("job ")?;
    push_integer(out, fault.number())?;
    out.push_str(" ")?;
    out.push_str(name_of_job_fault(fault))
}

/// Appends which policy it is, of all but the first.
#[tactic(auto, unfolding(crate::specs::Lines::policy_number_word))]
fn push_policy_number(out: &mut String, policy: u16) -> Result<(), AllocError>
    ensures { OnOk result (string_bytes out.new ≡ string_bytes out.old ++ policy_number_word policy) }
{
    if policy == 0 {
        return Ok(());
    }
    out.push_str("policy ")?;
    push_integer(out, policy)?;
    out.push_str(" ")
}

/// Appends where a fault lies.
fn push_spot(out: &mut String, fault: PolicyFault) -> Result<(), AllocError>
    ensures { OnOk result (string_bytes out.new ≡ string_bytes out.old ++ (decimal fault.at.file ++ (codes ":" ++ decimal fault.at.byte))) }
{
    push_integer(out, fault.at.file)?;
    out.push_str(":")?;
    push_integer(out, fault.at.byte)
}

#[tactic(auto, unfolding(crate::specs::Lines::refused_line))]
fn push_refused_line(out: &mut String, fault: PolicyFault) -> Result<(), AllocError>
    ensures { OnOk result (string_bytes out.new ≡ string_bytes out.old ++ refused_line fault) }
{
    out.push_str("refused ")?;
    push_integer(out, fault.kind.number())?;
    out.push_str(" ")?;
    out.push_str(fault.kind.name())?;
    out.push_str(" ")?;
    push_spot(out, fault)
}

fn push_policy_line(out: &mut String, refused: RefusedPolicy) -> Result<(), AllocError>
    ensures { OnOk result (string_bytes out.new ≡ string_bytes out.old ++ policy_line refused) }
{
    push_policy_number(out, refused.policy)?;
    push_refused_line(out, refused.fault)
}

#[tactic(auto, unfolding(crate::specs::Lines::task_line))]
fn push_task_line(out: &mut String, task: u64) -> Result<(), AllocError>
    ensures { OnOk result (string_bytes out.new ≡ string_bytes out.old ++ task_line task) }
{
    out.push_str("task ")?;
    push_integer(out, task)?;
    out.push_str(" has no profile")
}

fn push_fault(out: &mut String, fault: RunFault) -> Result<(), AllocError>
    ensures { OnOk result (string_bytes out.new ≡ string_bytes out.old ++ fault_line fault) }
{
    match fault {
        RunFault::NoMemory => out.push_str("no memory"),
        RunFault::Read => out.push_str("read failed"),
        RunFault::Write => out.push_str("write failed"),
        RunFault::Job(fault) => push_job_line(out, fault),
        RunFault::Policy(refused) => push_policy_line(out, refused),
        RunFault::UnknownProfile(task) => push_task_line(out, task as u64),
    }
}

/// The line on a fault, without its end.
pub fn line_of(alloc: Global, fault: RunFault) -> Result<String, AllocError>
    ensures { IfOk result (λ line. string_bytes line ≡ fault_line fault) }
{
    let mut line = String::new(alloc);
    push_fault(&mut line, fault)?;
    Ok(line)
}
