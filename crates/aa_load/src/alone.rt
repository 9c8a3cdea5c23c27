//! Texts that are compiled each by themselves.

ghost use Rattle.std.specs.Prelude.{◌≡◌, ◌≢◌, ◌≤◌, OnOk, IfOk, IfNone, IfErr, IfSome};
ghost use Rattle.aa_model.specs.Limits.{most_states};
ghost use Rattle.aa_base.specs.declared.fault.PolicyKind.TheVariants.{NoMemory};
ghost use Rattle.aa_load.specs.Spelled.{IsGood, AreGood, IsRefusedAlone};
ghost use Rattle.aa_load.specs.Refused.{IsFirstAlone};

use crate::fault::{LoadingFault, of_texts};
use crate::texts::Texts;
use aa_base::PolicyFault;
use aa_compile::Compiled;
use aa_policies::compile_text;
use std::alloc::Global;

/// Reads texts, and compiles them by themselves.
fn compile_alone(alloc: Global, texts: Texts<'_>, limit: u32) -> Result<Compiled, PolicyFault>
    requires some { 1 ≤ limit }
    requires bounded { limit ≤ most_states }
    ensures good { OnOk result (IsGood limit texts.entry) }
    ensures cause { IfErr result (λ e. e.kind ≢ NoMemory → IsRefusedAlone limit texts.entry e) }
{
    let sources = match texts.sources {
        Ok(sources) => sources,
        Err(fault) => return Err(*fault),
    };
    match compile_text(alloc, sources, texts.main, limit) {
        Ok(compiled) => Ok(compiled),
        Err(fault) => Err(fault),
    }
}

/// The fault of the first that are refused by themselves, if there are some.
pub(crate) fn first_alone(alloc: Global, all: &[Texts<'_>], limit: u32) -> Option<LoadingFault>
    requires some { 1 ≤ limit }
    requires bounded { limit ≤ most_states }
    ensures none { IfNone result (AreGood limit all.now) }
    ensures first { IfSome result (λ f. f ≢ LoadingFault.NoMemory → IsFirstAlone limit all.now f) }
{
    for (number, texts) in all.iter().enumerate() {
        match compile_alone(alloc, *texts, limit) {
            Ok(_) => {}
            Err(fault) => return Some(of_texts(number, fault)),
        }
    }
    None
}
