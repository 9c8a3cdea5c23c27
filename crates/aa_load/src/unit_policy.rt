//! The policy of a unit.

ghost use Rattle.std.specs.Prelude.{◌≡◌, ◌≢◌, ◌++◌, [], option_map, option_to_list, OnOk, IfOk, IfErr};
ghost use Rattle.aa_base.specs.declared.fault.PolicyKind.TheVariants.{NoMemory};
ghost use Rattle.aa_policies.specs.Policies.{CanFollow, IsFaultOfSources};
ghost use Rattle.aa_files.specs.Numbers.{named_text, named_texts_at, named_texts};
ghost use Rattle.aa_load.specs.UnitPolicy.{limit_of, texts_of, IsRefusedOf, IsPolicyOfUnit, IsFaultOfUnit};

use aa_base::PolicyFault;
use aa_compile::Compiled;
use aa_files::{Source, Unit};
use aa_policies::compile_text;
use aa_words::Sources;
use std::alloc::Global;

fn add_found(sources: &mut Sources, source: Option<&Source>) -> Result<(), PolicyFault>
    ensures added { OnOk result (sources.new ≡ sources.old ++ option_to_list (option_map named_text (option_map (λ s. s.now) source.entry))) }
    ensures fits { OnOk result (CanFollow sources.old (option_to_list (option_map named_text (option_map (λ s. s.now) source.entry)))) }
    ensures cause { IfErr result (λ e. e.kind ≢ NoMemory → IsRefusedOf sources.old (option_to_list (option_map named_text (option_map (λ s. s.now) source.entry))) e) }
{
    match source {
        Some(source) => sources.add(source.name.as_slice(), source.text.as_slice()),
        None => Ok(()),
    }
}

fn add_source(sources: &mut Sources, all: &[Source], index: usize) -> Result<(), PolicyFault>
    ensures added { OnOk result (sources.new ≡ sources.old ++ named_texts_at all.now index) }
    ensures fits { OnOk result (CanFollow sources.old (named_texts_at all.now index)) }
    ensures cause { IfErr result (λ e. e.kind ≢ NoMemory → IsRefusedOf sources.old (named_texts_at all.now index) e) }
{
    add_found(sources, all.get(index))
}

/// The sources of these numbers, to be handed in. Refused by the first that can't be added behind those before it.
fn gather(alloc: Global, all: &[Source], order: &[usize]) -> Result<Sources, PolicyFault>
    ensures gathered { IfOk result (λ s. s ≡ named_texts order.now all.now) }
    ensures fit { OnOk result (CanFollow [] (named_texts order.now all.now)) }
    ensures cause { IfErr result (λ e. e.kind ≢ NoMemory → IsFaultOfSources (named_texts order.now all.now) e) }
{
    let mut sources = Sources::new(alloc);
    for index in order {
        match add_source(&mut sources, all, *index) {
            Ok(()) => {}
            Err(fault) => return Err(fault),
        }
    }
    Ok(sources)
}

/// The sources of a unit, numbered from 1 in byte order of their names. Refused by the first that can't be handed in behind those
/// before it.
pub fn sources_of(alloc: Global, unit: &Unit) -> Result<Sources, PolicyFault>
    ensures gathered { IfOk result (λ s. s ≡ texts_of unit.now) }
    ensures fit { OnOk result (CanFollow [] (texts_of unit.now)) }
    ensures cause { IfErr result (λ e. e.kind ≢ NoMemory → IsFaultOfSources (texts_of unit.now) e) }
{
    gather(alloc, unit.sources.as_slice(), unit.order.as_slice())
}

fn limit_of(states: u32) -> u32
    ensures { result ≡ limit_of states }
{
    states.clamp(1, 1_000_000)
}

/// The policy of a unit. An automaton of it may have at most so many states, which are 1 to 1,000,000.
///
/// Refused by the first fault: of its sources, of its words, of their grammar, or of compiling what they spell. `NoMemory` can come
/// at any point.
pub fn compile_unit(alloc: Global, unit: &Unit, states: u32) -> Result<Compiled, PolicyFault>
    ensures compiled { IfOk result (λ c. IsPolicyOfUnit (limit_of states) unit.now c) }
    ensures cause { IfErr result (λ e. e.kind ≢ NoMemory → IsFaultOfUnit (limit_of states) unit.now e) }
{
    let sources = match sources_of(alloc, unit) {
        Ok(sources) => sources,
        Err(fault) => return Err(fault),
    };
    match compile_text(alloc, &sources, unit.text.as_slice(), limit_of(states)) {
        Ok(compiled) => Ok(compiled),
        Err(fault) => Err(fault),
    }
}
