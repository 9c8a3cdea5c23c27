//! What is said of a unit that can't be read.

ghost use Rattle.std.specs.Prelude.{IfOk};
ghost use Rattle.aa_diagnostics.specs.Reports.{IsSaid};

use crate::described::unreadable;
use aa_files::UnitFault;
use aa_text::{FaultReport, NoMemory};
use std::alloc::Global;

/// The fault of a unit that can't be read, and whether that is why; none for want of memory.
pub fn fault_of_unit(alloc: Global, fault: UnitFault) -> Result<(FaultReport, bool), NoMemory>
    ensures { IfOk result (λ r. IsSaid fault r.0 r.1) }
{
    match fault {
        UnitFault::NoMemory => Err(NoMemory),
        UnitFault::At { path, why } => Ok((unreadable(alloc, path.as_slice(), why)?, true)),
        UnitFault::Ambiguous(fault) => Ok((fault, false)),
    }
}
