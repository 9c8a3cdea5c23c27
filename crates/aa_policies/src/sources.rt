//! The sources that policies may include.

ghost use Rattle.std.specs.Prelude.{◌≡◌, ◌≢◌, ◌⊎◌, [], IfOk, OnOk, IfErr};
ghost use Rattle.aa_base.specs.Kinds.{no_memory, at_start};
ghost use Rattle.aa_policies.specs.Policies.{sources_of, CanFollow, IsFaultOfSources};

use aa_base::{PolicyFault, PolicyKind};
use aa_words::{Include, Sources};
use std::alloc::Global;

/// The sources that are handed in. Refused as `Sources::add` refuses the first that can't be added.
pub fn gather_sources(alloc: Global, includes: &[Include]) -> Result<Sources, PolicyFault>
    ensures gathered { IfOk result (λ s. s ≡ sources_of includes.now) }
    ensures fit { OnOk result (CanFollow [] (sources_of includes.now)) }
    ensures cause { IfErr result (λ e. e.kind ≢ PolicyKind.NoMemory → CanFollow [] (sources_of includes.now) → ⊥) }
    ensures fault { IfErr result (λ e. e.kind ≢ PolicyKind.NoMemory → IsFaultOfSources (sources_of includes.now) e) }
{
    let mut sources = Sources::new(alloc);
    for include in includes {
        match sources.add(include.name.as_slice(), include.text.as_slice()) {
            Ok(()) => {}
            Err(fault) => return Err(fault),
        }
    }
    Ok(sources)
}
