//! Why a log isn't read.

ghost use Rattle.std.specs.Prelude.{◌≡◌, codes, IfOk};
ghost use Rattle.aa_diagnostics.specs.Reports.{IsOfWhole};
ghost use Rattle.aa_command.specs.Printed.{printed};
ghost use Rattle.aa_command.specs.Refusals.{SaysFault};
ghost use Rattle.aa_log.specs.Refused.{too_many_requests, SaysTooMany, SaysUnreadLog};

use aa_base::Unread;
use aa_command::{Output, fault_refused, path_refused};
use aa_text::{FaultReport, NoMemory};
use std::alloc::{AllocError, Global};

#[tactic(auto, unfolding(crate::specs::Refused::too_many_requests))]
fn too_many_requests(alloc: Global) -> Result<Vec<u8>, AllocError>
    ensures { IfOk result (λ said. said.items ≡ too_many_requests) }
{
    Vec::from_slice(
        alloc,
        "the logs up to here ask more than 1,000,000 distinct requests".as_bytes(),
    )
}

/// What is said of the log that asks one request too many.
fn too_many(alloc: Global, path: &[u8]) -> Result<FaultReport, AllocError>
    ensures { IfOk result (λ r. IsOfWhole (codes "TooLarge") path.now too_many_requests r) }
{
    Ok(FaultReport {
        kind: "TooLarge",
        path: Vec::from_slice(alloc, path)?,
        place: None,
        message: too_many_requests(alloc)?,
        excerpt: Vec::new(alloc),
        chain: Vec::new(alloc),
        further: Vec::new(alloc),
    })
}

fn many_refused(alloc: Global, path: &[u8]) -> Result<Output, NoMemory>
    ensures { IfOk result (λ out. SaysTooMany path.now (printed out)) }
{
    let report = too_many(alloc, path)?;
    fault_refused(alloc, &report, 3)
}

/// Says why the log at a path can't be read, or that it asks one request too many.
pub fn log_refused(alloc: Global, path: &[u8], why: Unread) -> Result<Output, NoMemory>
    ensures { IfOk result (λ out. SaysUnreadLog path.now why (printed out)) }
{
    match why {
        Unread::TooLarge => many_refused(alloc, path),
        Unread::NoMemory
        | Unread::NotFound
        | Unread::NotAllowed
        | Unread::NotAFile
        | Unread::Failed => Ok(path_refused(alloc, path, why)?),
    }
}
