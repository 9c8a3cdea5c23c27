//! The one policy that files make.

ghost use Rattle.std.specs.Prelude.{◌≡◌, ◌≢◌, option_map, slice_get, IfOk, IfErr};
ghost use Rattle.aa_files.specs.Texts.{texts, slices};
ghost use Rattle.aa_command.specs.declared.decided.Decided.{Decided};
ghost use Rattle.aa_command.specs.Setting.{setting_of};
ghost use Rattle.aa_command.specs.Printed.{Printed, printed};
ghost use Rattle.aa_command.specs.Refusals.{SaysAlone, SaysRepeated, SaysTogether, SaysLoadingFault};
ghost use Rattle.aa_command.specs.Loads.{AreLoaded, IsFirstUnread};
ghost use Rattle.aa_command.specs.Policies.{AreGathered, AreTextsOf, IsPrintedBy, IsPrintedAt, IsPrintedFor};

use crate::decided::Decided;
use crate::output::Output;
use crate::placed::place_units;
use crate::refusals::{fault_refused, policy_refused, unit_refused};
use crate::roots::rooted;
use crate::settings::Settings;
use crate::warnings::behind_warnings;
use aa_base::{PolicyFault, PolicyKind};
use aa_diagnostics::{describe_repeated, describe_together};
use aa_files::{Tree, Unit, UnitFault, load};
use aa_load::{LoadingFault, RepeatedName, Texts, load_policy, sources_of};
use aa_text::NoMemory;
use aa_words::Sources;
use std::alloc::{AllocError, Global};

/// What is done with the policy of files.
pub trait Use {
    /// What is printed by a policy.
    ghost gives: { Self → Decided → Printed → Type 0 };

    fn use_policy(&self, alloc: Global, decided: Decided<'_>) -> Result<Output, NoMemory>
        ensures { IfOk result (λ out. gives self.now decided.entry (printed out)) };
}

/// Reads the files at these paths, with all that they include. Refused at the first that can't be read.
pub fn load_units<T: Tree>(
    alloc: Global,
    tree: &T,
    settings: &Settings<'_>,
    paths: &[Vec<u8>],
) -> Result<Vec<Unit>, UnitFault>
    ensures loaded { IfOk result (λ units. AreLoaded (setting_of (T.files tree.now) (T.taken tree.now) (T.input tree.now) settings.now) (texts paths.now) units.items) }
    ensures first { IfErr result (λ e. e ≢ UnitFault.NoMemory → IsFirstUnread (setting_of (T.files tree.now) (T.taken tree.now) (T.input tree.now) settings.now) (texts paths.now) e) }
{
    let mut units = Vec::new(alloc);
    for path in paths {
        match load(alloc, tree, settings.folders, path.as_slice()) {
            Ok(unit) => units.push(unit)?,
            Err(fault) => return Err(fault),
        }
    }
    Ok(units)
}

// Callers never have a number that no unit has. A condition on each would repeat what joining keeps, so such a number is
// answered with want of memory, which the contracts leave free.
fn unit_at(units: &[Unit], number: usize) -> Option<&Unit>
    ensures { option_map (λ u. u.now) result ≡ slice_get units.entry.now number }
{
    units.get(number)
}

/// Says that a profile has the name of one of an earlier unit.
fn say_repeated(alloc: Global, units: &[Unit], name: RepeatedName) -> Result<Output, NoMemory>
    ensures { IfOk result (λ out. SaysRepeated units.now name (printed out)) }
{
    match (unit_at(units, name.number), unit_at(units, name.earlier)) {
        (Some(unit), Some(earlier)) => {
            let fault = describe_repeated(alloc, unit, name.at, earlier, name.earlier_at)?;
            fault_refused(alloc, &fault, 1)
        }
        _ => Err(NoMemory),
    }
}

/// Says which limit units pass together, at the unit of that number.
fn say_together(
    alloc: Global,
    settings: &Settings<'_>,
    units: &[Unit],
    number: usize,
    kind: PolicyKind,
) -> Result<Output, NoMemory>
    ensures { IfOk result (λ out. SaysTogether settings.now.states units.now number kind (printed out)) }
{
    match unit_at(units, number) {
        Some(unit) => {
            let fault = describe_together(alloc, unit, kind, settings.states)?;
            fault_refused(alloc, &fault, 1)
        }
        None => Err(NoMemory),
    }
}

/// Says why the unit of that number is no policy.
fn say_alone(
    alloc: Global,
    settings: &Settings<'_>,
    units: &[Unit],
    number: usize,
    fault: PolicyFault,
) -> Result<Output, NoMemory>
    ensures { IfOk result (λ out. SaysAlone (slices settings.now.folders.now) settings.now.states units.now number fault (printed out)) }
{
    match unit_at(units, number) {
        Some(unit) => policy_refused(alloc, settings, unit, fault),
        None => Err(NoMemory),
    }
}

/// Says why units are no policy.
fn units_refused(
    alloc: Global,
    settings: &Settings<'_>,
    units: &[Unit],
    fault: LoadingFault,
) -> Result<Output, NoMemory>
    ensures { IfOk result (λ out. SaysLoadingFault (slices settings.now.folders.now) settings.now.states units.now fault (printed out)) }
{
    match fault {
        LoadingFault::NoMemory => Err(NoMemory),
        LoadingFault::OfTexts(number, fault) => say_alone(alloc, settings, units, number, fault),
        LoadingFault::Repeated(name) => say_repeated(alloc, units, name),
        LoadingFault::TooLarge(number) => {
            say_together(alloc, settings, units, number, PolicyKind::TooLarge)
        }
        LoadingFault::Together(fault) => say_together(alloc, settings, units, 0, fault.kind),
    }
}

/// The sources of each unit, or why they can't be handed in.
fn gather(alloc: Global, units: &[Unit]) -> Result<Vec<Result<Sources, PolicyFault>>, AllocError>
    ensures { IfOk result (λ gathered. AreGathered units.now gathered.items) }
{
    let mut gathered = Vec::new(alloc);
    for unit in units {
        gathered.push(sources_of(alloc, unit))?;
    }
    Ok(gathered)
}

/// The texts of units, each with its sources.
fn lend_texts<'u>(
    alloc: Global,
    units: &'u [Unit],
    gathered: &'u [Result<Sources, PolicyFault>],
) -> Result<Vec<Texts<'u>>, AllocError>
    requires { AreGathered units.now gathered.now }
    ensures { IfOk result (λ texts. AreTextsOf units.entry.now texts.items) }
{
    let mut texts = Vec::new(alloc);
    for (number, unit) in units.iter().enumerate() {
        let main = unit.text.as_slice();
        let sources = &gathered[number];
        texts.push(Texts { sources, main })?;
    }
    Ok(texts)
}

/// Compiles texts of these units as one policy, and does something with it.
fn with_texts<U: Use>(
    alloc: Global,
    settings: &Settings<'_>,
    units: &[Unit],
    texts: &[Texts<'_>],
    user: &U,
) -> Result<Output, NoMemory>
    requires { AreTextsOf units.now texts.now }
    ensures { IfOk result (λ out. IsPrintedBy (slices settings.now.folders.now) settings.now.states units.now (U.gives user.now) (printed out)) }
{
    match load_policy(alloc, texts, settings.states) {
        Ok(loaded) => {
            let placed = place_units(alloc, units)?;
            user.use_policy(
                alloc,
                Decided {
                    units: placed.as_slice(),
                    owners: loaded.owners.as_slice(),
                    policies: loaded.policies.as_slice(),
                    places: loaded.places.as_slice(),
                },
            )
        }
        Err(fault) => units_refused(alloc, settings, units, fault),
    }
}

/// Compiles units as one policy, and does something with it, or says why they are none.
pub fn with_units<U: Use>(
    alloc: Global,
    settings: &Settings<'_>,
    units: &[Unit],
    user: &U,
) -> Result<Output, NoMemory>
    ensures { IfOk result (λ out. IsPrintedBy (slices settings.now.folders.now) settings.now.states units.now (U.gives user.now) (printed out)) }
{
    let gathered = gather(alloc, units)?;
    let texts = lend_texts(alloc, units, gathered.as_slice())?;
    with_texts(alloc, settings, units, texts.as_slice(), user)
}

/// Compiles the files at these paths as one policy, and does something with it.
fn with_paths<T: Tree, U: Use>(
    alloc: Global,
    tree: &T,
    settings: &Settings<'_>,
    paths: &[Vec<u8>],
    user: &U,
) -> Result<Output, NoMemory>
    ensures { IfOk result (λ out. IsPrintedAt (setting_of (T.files tree.now) (T.taken tree.now) (T.input tree.now) settings.now) (texts paths.now) (U.gives user.now) (printed out)) }
{
    match load_units(alloc, tree, settings, paths) {
        Ok(units) => with_units(alloc, settings, units.as_slice(), user),
        Err(fault) => unit_refused(alloc, fault),
    }
}

/// Compiles the files of these arguments as one policy, and does something with it, or says why they are none.
pub fn with_policy<T: Tree, U: Use>(
    alloc: Global,
    tree: &T,
    settings: &Settings<'_>,
    arguments: &[Vec<u8>],
    user: &U,
) -> Result<Output, NoMemory>
    ensures { IfOk result (λ out. IsPrintedFor (setting_of (T.files tree.now) (T.taken tree.now) (T.input tree.now) settings.now) (texts arguments.now) (U.gives user.now) (printed out)) }
{
    match rooted(alloc, tree, settings.base, arguments) {
        Ok(roots) => {
            let own = with_paths(alloc, tree, settings, roots.paths.as_slice(), user)?;
            Ok(behind_warnings(alloc, roots.warnings.as_slice(), own)?)
        }
        Err(fault) => unit_refused(alloc, fault),
    }
}
