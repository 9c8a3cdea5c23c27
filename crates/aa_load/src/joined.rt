//! Texts that become one policy.

ghost use Rattle.std.specs.Prelude.{◌≢◌, IfOk, IfErr};
ghost use Rattle.aa_load.specs.Joining.{nothing, Joins};
ghost use Rattle.aa_load.specs.Refused.{IsFirstRefused};
ghost use Rattle.aa_load.specs.Loadings.{reading_data};

use crate::fault::LoadingFault;
use crate::reading::Reading;
use crate::texts::Texts;
use std::alloc::Global;

/// Reads texts, and joins the policies that they spell in their order. Refused for the first whose policy can't be read or joined.
pub(crate) fn join_all<'u>(alloc: Global, all: &'u [Texts<'u>]) -> Result<Reading<'u>, LoadingFault>
    ensures joined { IfOk result (λ r. Joins 0 nothing all.now (reading_data r)) }
    ensures cause { IfErr result (λ f. f ≢ LoadingFault.NoMemory → IsFirstRefused all.now f) }
{
    let mut reading = Reading::new(alloc);
    for (number, texts) in all.iter().enumerate() {
        match reading.add(alloc, number, *texts) {
            Ok(()) => {}
            Err(fault) => return Err(fault),
        }
    }
    Ok(reading)
}
