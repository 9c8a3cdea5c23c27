//! What is said of a part that is refused.

ghost use Rattle.std.specs.Prelude.{◌≡◌, ◌++◌, codes, IfOk};
ghost use Rattle.aa_merge.specs.Faults.{fault_name, fault_sentence, member_sentence, IsOfPart};

use crate::fault::{Member, PartFault};
use aa_text::{FaultReport, push_text};
use std::alloc::{AllocError, Global};

fn name_of(fault: PartFault) -> &'static str
    ensures { result.now ≡ fault_name fault }
{
    match fault {
        PartFault::NoMemory => "NoMemory",
        PartFault::NotJson => "NotJson",
        PartFault::NotAReport(_) => "NotAReport",
        PartFault::Answered => "AnsweredReport",
        PartFault::Unlike(_) => "UnlikeReport",
        PartFault::TooMany => "TooLarge",
    }
}

fn sentence(alloc: Global, text: &str) -> Result<Vec<u8>, AllocError>
    ensures { IfOk result (λ s. s.items ≡ text.now) }
{
    Vec::from_slice(alloc, text.as_bytes())
}

/// A sentence on a member.
fn of_member(alloc: Global, member: Member, end: &str) -> Result<Vec<u8>, AllocError>
    ensures { IfOk result (λ s. s.items ≡ member_sentence member end.now) }
{
    let mut text = sentence(alloc, "the member \"")?;
    push_text(&mut text, member.key())?;
    push_text(&mut text, end)?;
    Ok(text)
}

/// What is wrong, in one sentence.
fn sentence_of(alloc: Global, fault: PartFault) -> Result<Vec<u8>, AllocError>
    ensures { IfOk result (λ s. s.items ≡ fault_sentence fault) }
{
    match fault {
        PartFault::NoMemory => sentence(alloc, "no memory"),
        PartFault::NotJson => sentence(
            alloc,
            "a part holds one JSON object, as log --json prints it",
        ),
        PartFault::NotAReport(member) => of_member(
            alloc,
            member,
            "\" isn't there or isn't as log --json prints it",
        ),
        PartFault::Answered => sentence(
            alloc,
            "its requests are answered by a policy; a part is printed without --against",
        ),
        PartFault::Unlike(member) => of_member(
            alloc,
            member,
            "\" is in this part or in the first, and not in both",
        ),
        PartFault::TooMany => sentence(
            alloc,
            "all parts together have more than 1,000,000 distinct requests",
        ),
    }
}

/// What is said of a part that is refused.
pub(crate) fn report_of(
    alloc: Global,
    path: &[u8],
    fault: PartFault,
) -> Result<FaultReport, AllocError>
    ensures { IfOk result (λ r. IsOfPart path.now fault r) }
{
    Ok(FaultReport {
        kind: name_of(fault),
        path: Vec::from_slice(alloc, path)?,
        place: None,
        message: sentence_of(alloc, fault)?,
        excerpt: Vec::new(alloc),
        chain: Vec::new(alloc),
        further: Vec::new(alloc),
    })
}
