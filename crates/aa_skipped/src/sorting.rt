//! Which files are read, and which are skipped.

ghost use Rattle.std.specs.Prelude.{◌≡◌, ◌≢◌, ◌↔◌, ◌++◌, IsTrue, IfOk, OnOk};
ghost use Rattle.aa_base.specs.declared.fault.PolicyKind.TheVariants.{NoMemory as WantOfMemory};
ghost use Rattle.aa_files.specs.Texts.{texts};
ghost use Rattle.aa_files.specs.UnitFaults.{IsLoadFault};
ghost use Rattle.aa_load.specs.UnitPolicy.{limit_of, IsFaultOfUnit};
ghost use Rattle.aa_command.specs.Setting.{setting_of, IsLoaded};
ghost use Rattle.aa_skipped.specs.Sorting.{IsGood, IsRefusedUnit, IsUnreadable, IsFound, units_in, skipped_in, AreSorted};

use crate::heads::{nothing_known, unread_of};
use crate::skipped::{Found, Skipped, Sorted};
use aa_base::{PolicyFault, PolicyKind};
use aa_command::Settings;
use aa_diagnostics::{describe, fault_of_unit};
use aa_files::{Tree, Unit, UnitFault, load};
use aa_load::compile_unit;
use aa_text::NoMemory;
use std::alloc::{AllocError, Global};

fn is_want_of_memory(fault: PolicyFault) -> bool
    ensures { IsTrue result ↔ (fault.kind ≡ WantOfMemory) }
{
    fault.kind == PolicyKind::NoMemory
}

/// A file whose unit is refused with that fault; none for want of memory.
fn skip_unit<T: Tree>(
    alloc: Global,
    tree: &T,
    settings: &Settings<'_>,
    unit: &Unit,
    fault: PolicyFault,
    path: &[u8],
) -> Result<Skipped, NoMemory>
    ensures path { IfOk result (λ k. k.path.items ≡ path.now) }
    ensures refused { IfOk result (λ k. (fault.kind ≢ WantOfMemory → IsFaultOfUnit (limit_of settings.now.states) unit.now fault)
        → IsRefusedUnit (setting_of (T.files tree.now) (T.taken tree.now) (T.input tree.now) settings.now) unit.now k) }
{
    if is_want_of_memory(fault) {
        return Err(NoMemory);
    }
    let said = describe(alloc, settings.folders, settings.states, unit, fault)?;
    let unread = unread_of(alloc, unit)?;
    Ok(Skipped {
        path: Vec::from_slice(alloc, path)?,
        fault: said,
        unread,
    })
}

/// A file that can't be read.
fn skip_unreadable<T: Tree>(
    alloc: Global,
    tree: &T,
    settings: &Settings<'_>,
    fault: UnitFault,
    path: &[u8],
) -> Result<Skipped, NoMemory>
    ensures path { IfOk result (λ k. k.path.items ≡ path.now) }
    ensures unreadable { IfOk result (λ k. (fault ≢ UnitFault.NoMemory → IsLoadFault (T.files tree.now) (T.input tree.now) (setting_of (T.files tree.now) (T.taken tree.now) (T.input tree.now) settings.now).folders path.now fault)
        → IsUnreadable (setting_of (T.files tree.now) (T.taken tree.now) (T.input tree.now) settings.now) path.now k) }
{
    let (said, _) = fault_of_unit(alloc, fault)?;
    Ok(Skipped {
        path: Vec::from_slice(alloc, path)?,
        fault: said,
        unread: nothing_known(alloc),
    })
}

fn find_unit<T: Tree>(
    alloc: Global,
    tree: &T,
    settings: &Settings<'_>,
    unit: Unit,
    path: &[u8],
) -> Result<Found, NoMemory>
    ensures { IfOk result (λ f. IsLoaded (setting_of (T.files tree.now) (T.taken tree.now) (T.input tree.now) settings.now) path.now unit
        → IsFound (setting_of (T.files tree.now) (T.taken tree.now) (T.input tree.now) settings.now) path.now f) }
{
    match compile_unit(alloc, &unit, settings.states) {
        Ok(_) => Ok(Found::Read(unit)),
        Err(fault) => Ok(Found::Left(skip_unit(alloc, tree, settings, &unit, fault, path)?)),
    }
}

fn find<T: Tree>(
    alloc: Global,
    tree: &T,
    settings: &Settings<'_>,
    path: &[u8],
) -> Result<Found, NoMemory>
    ensures { IfOk result (λ f. IsFound (setting_of (T.files tree.now) (T.taken tree.now) (T.input tree.now) settings.now) path.now f) }
{
    match load(alloc, tree, settings.folders, path) {
        Ok(unit) => find_unit(alloc, tree, settings, unit, path),
        Err(fault) => Ok(Found::Left(skip_unreadable(alloc, tree, settings, fault, path)?)),
    }
}

pub(crate) fn put(sorted: &mut Sorted, found: Found) -> Result<(), AllocError>
    ensures units { OnOk result (sorted.new.units.items ≡ sorted.old.units.items ++ units_in found) }
    ensures skipped { OnOk result (sorted.new.skipped.items ≡ sorted.old.skipped.items ++ skipped_in found) }
{
    match found {
        Found::Read(unit) => sorted.units.push(unit)?,
        Found::Left(skipped) => sorted.skipped.push(skipped)?,
    }
    Ok(())
}

/// Reads the files at these paths, with all that they include. Those that are refused, for what cause ever, are skipped, with their fault
/// as `check` tells it.
pub fn sort_paths<T: Tree>(
    alloc: Global,
    tree: &T,
    settings: &Settings<'_>,
    paths: &[Vec<u8>],
) -> Result<Sorted, NoMemory>
    ensures { IfOk result (λ sorted. AreSorted (setting_of (T.files tree.now) (T.taken tree.now) (T.input tree.now) settings.now) (texts paths.now) sorted.units.items sorted.skipped.items) }
{
    let mut sorted = Sorted {
        units: Vec::new(alloc),
        skipped: Vec::new(alloc),
    };
    for path in paths {
        let found = find(alloc, tree, settings, path.as_slice())?;
        put(&mut sorted, found)?;
    }
    Ok(sorted)
}
