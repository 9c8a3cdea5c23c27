//! What `check` finds.

ghost use Rattle.std.specs.Prelude.{◌≡◌, ◌≢◌, ◌↔◌, ◌≤◌, ◌++◌, ◌∷◌, ℕ, List, [], None, false, length, count_by, sum_by, is_some, unwrap_or, option_map, codes, All, IsTrue, IfOk, OnOk};
ghost use Rattle.std.specs.List.{list_any};
ghost use Rattle.aa_base.specs.declared.fault.PolicyKind.TheVariants.{NoMemory as WantOfMemory};
ghost use Rattle.aa_files.specs.Texts.{texts, slices};
ghost use Rattle.aa_text.specs.declared.fault.FaultReport.{FaultReport};
ghost use Rattle.aa_diagnostics.specs.Reports.{IsDescribed};
ghost use Rattle.aa_check.specs.Counts.{CountsPolicy};
ghost use Rattle.aa_check.specs.Names.{IsFirst};
ghost use Rattle.aa_command.specs.Setting.{setting_of};
ghost use Rattle.aa_diagnostics.specs.Reports.{IsSaid};
ghost use Rattle.aa_faults.specs.Further.{AreFurther};
ghost use Rattle.aa_check.specs.Checked.{most_further, held_by, TellsHeld, is_untold, HasFault, HasOnly, IsFoundOf, IsFound, AreFound, CountsFiles, HasOneRefused, IsChecked};

use crate::counting::{PolicyCounts, count_policy};
use crate::naming::{FirstFiles, warned};
use crate::report::{CheckReport, FileReport};
use aa_base::{PolicyFault, PolicyKind};
use aa_command::{Settings, rooted};
use aa_compile::Compiled;
use aa_diagnostics::{describe, fault_of_unit, unreadable};
use aa_faults::further_faults;
use aa_files::{Tree, Unit, UnitFault, load};
use aa_load::compile_unit;
use aa_skipped::unread_of;
use aa_skipping::Unread;
use aa_text::{FaultReport, NoMemory};
use std::alloc::{AllocError, Global};
use std::collections::HashMap;

/// How many faults are told of a file behind its first, at most.
const MOST_FURTHER: usize = 19;

/// A file that is refused.
fn refused(
    alloc: Global,
    path: Vec<u8>,
    fault: FaultReport,
    further: Vec<FaultReport>,
    is_unread: bool,
    held: Option<usize>,
) -> FileReport
    ensures path { result.path ≡ path }
    ensures has { HasFault fault result }
    ensures further { result.further ≡ further }
    ensures unread { result.is_unread ≡ is_unread }
    ensures held { result.held ≡ held }
{
    FileReport {
        path,
        fault: Some(fault),
        further,
        is_unread,
        held,
        profiles: Vec::new(alloc),
        passed_over: Vec::new(alloc),
        warnings: Vec::new(alloc),
    }
}

/// A file that is accepted.
fn accepted(alloc: Global, path: Vec<u8>, counts: PolicyCounts) -> FileReport
    ensures path { result.path ≡ path }
    ensures fault { result.fault ≡ None }
    ensures further { result.further.items ≡ [] }
    ensures unread { result.is_unread ≡ false }
    ensures held { result.held ≡ None }
    ensures profiles { result.profiles ≡ counts.profiles }
    ensures passed_over { result.passed_over ≡ counts.passed_over }
{
    let PolicyCounts {
        profiles,
        passed_over,
    } = counts;
    FileReport {
        path,
        fault: None,
        further: Vec::new(alloc),
        is_unread: false,
        held: None,
        profiles,
        passed_over,
        warnings: Vec::new(alloc),
    }
}

fn is_want_of_memory(fault: PolicyFault) -> bool
    ensures { IsTrue result ↔ (fault.kind ≡ WantOfMemory) }
{
    fault.kind == PolicyKind::NoMemory
}

/// What is found of a unit that compiles to that policy.
fn count_unit(
    alloc: Global,
    unit: &Unit,
    compiled: &Compiled,
    path: Vec<u8>,
) -> Result<FileReport, NoMemory>
    ensures path { IfOk result (λ f. f.path ≡ path) }
    ensures counted { IfOk result (λ f. (f.fault ≡ None) × (f.further.items ≡ []) × (f.held ≡ None) × CountsPolicy unit.now compiled.now f.profiles.items f.passed_over.items) }
    ensures unread { IfOk result (λ f. f.is_unread ≡ false) }
{
    let counts = count_policy(alloc, unit, compiled)?;
    Ok(accepted(alloc, path, counts))
}

/// How many profiles heads tell.
fn held_by(unread: &Unread) -> Option<usize>
    ensures { result ≡ held_by unread.now }
{
    if unread.others {
        return None;
    }
    Some(unread.heads.as_slice().len())
}

/// How many profiles a unit seems to hold.
fn held_of(alloc: Global, unit: &Unit) -> Result<Option<usize>, NoMemory>
    ensures { IfOk result (λ held. TellsHeld unit.now held) }
{
    let unread = unread_of(alloc, unit)?;
    Ok(held_by(&unread))
}

/// What is found of a unit that is refused with that fault, and of those behind it; none for want of memory.
fn refuse_unit(
    alloc: Global,
    settings: &Settings<'_>,
    unit: Unit,
    fault: PolicyFault,
    path: Vec<u8>,
) -> Result<FileReport, NoMemory>
    ensures path { IfOk result (λ f. f.path ≡ path) }
    ensures told { IfOk result (λ f. (fault.kind ≢ WantOfMemory) × ((said : FaultReport) × IsDescribed unit (slices settings.now.folders.now) settings.now.states fault said × HasFault said f)
        × AreFurther (slices settings.now.folders.now) settings.now.states most_further unit fault f.further.items × TellsHeld unit f.held) }
    ensures unread { IfOk result (λ f. f.is_unread ≡ false) }
{
    if is_want_of_memory(fault) {
        return Err(NoMemory);
    }
    let (folders, states) = (settings.folders, settings.states);
    let said = describe(alloc, folders, states, &unit, fault)?;
    let held = held_of(alloc, &unit)?;
    let further = further_faults(alloc, folders, states, unit, fault, MOST_FURTHER)?;
    Ok(refused(alloc, path, said, further, false, held))
}

fn check_unit(
    alloc: Global,
    settings: &Settings<'_>,
    unit: Unit,
    path: Vec<u8>,
) -> Result<FileReport, NoMemory>
    ensures path { IfOk result (λ f. f.path ≡ path) }
    ensures found { IfOk result (λ f. IsFoundOf (slices settings.now.folders.now) settings.now.states unit f) }
    ensures unread { IfOk result (λ f. f.is_unread ≡ false) }
{
    match compile_unit(alloc, &unit, settings.states) {
        Ok(compiled) => count_unit(alloc, &unit, &compiled, path),
        Err(fault) => refuse_unit(alloc, settings, unit, fault, path),
    }
}

fn check_file<T: Tree>(
    alloc: Global,
    tree: &T,
    settings: &Settings<'_>,
    path: &[u8],
) -> Result<FileReport, NoMemory>
    ensures path { IfOk result (λ f. f.path.items ≡ path.now) }
    ensures found { IfOk result (λ f. IsFound (setting_of (T.files tree.now) (T.taken tree.now) (T.input tree.now) settings.now) path.now f) }
{
    let own = Vec::from_slice(alloc, path)?;
    match load(alloc, tree, settings.folders, path) {
        Ok(unit) => Ok(check_unit(alloc, settings, unit, own)?),
        Err(fault) => {
            let (fault, is_unread) = fault_of_unit(alloc, fault)?;
            Ok(refused(alloc, own, fault, Vec::new(alloc), is_unread, None))
        }
    }
}

/// Checks a file more, behind those that are checked. Of each name `first` keeps which file has it first.
fn check_next<T: Tree>(
    alloc: Global,
    tree: &T,
    settings: &Settings<'_>,
    path: &[u8],
    files: &mut Vec<FileReport>,
    first: &mut FirstFiles,
) -> Result<(), NoMemory>
    requires { IsFirst first.old files.old.items }
    ensures found { OnOk result ((paths : List (List ℕ)) → AreFound (setting_of (T.files tree.now) (T.taken tree.now) (T.input tree.now) settings.now) [] paths files.old.items
        → AreFound (setting_of (T.files tree.now) (T.taken tree.now) (T.input tree.now) settings.now) [] (paths ++ path.now ∷ []) files.new.items) }
    ensures first { OnOk result (IsFirst first.new files.new.items) }
{
    let found = check_file(alloc, tree, settings, path)?;
    let file = warned(alloc, files.as_slice(), found, first)?;
    files.push(file)?;
    Ok(())
}

/// What is found of the files at these paths, in order.
fn check_files<T: Tree>(
    alloc: Global,
    tree: &T,
    settings: &Settings<'_>,
    paths: &[Vec<u8>],
) -> Result<Vec<FileReport>, NoMemory>
    ensures { IfOk result (λ files. AreFound (setting_of (T.files tree.now) (T.taken tree.now) (T.input tree.now) settings.now) [] (texts paths.now) files.items) }
{
    let mut files = Vec::new(alloc);
    let mut first = HashMap::new(alloc);
    for path in paths {
        let path = path.as_slice();
        check_next(alloc, tree, settings, path, &mut files, &mut first)?;
    }
    Ok(files)
}

/// How many files are refused.
fn refused_of(files: &[FileReport]) -> usize
    ensures { result ≡ count_by (λ f. is_some f.fault) files.now }
{
    files.iter().filter(|file| file.fault.is_some()).count()
}

/// How many profiles they have. A file has at most 4,096, as any policy.
fn profiles_of(files: &[FileReport]) -> usize
    requires few { length files.now ≤ 4096 }
    requires each { All (λ f. length f.profiles.items ≤ 4096) files.now }
    ensures { result ≡ sum_by (λ f. length f.profiles.items) files.now }
{
    let mut count: usize = 0;
    for file in files {
        count += file.profiles.len();
    }
    count
}

/// How many profiles those that are refused seem to hold.
fn all_held(files: &[FileReport]) -> usize
    requires few { length files.now ≤ 4096 }
    requires each { All (λ f. unwrap_or f.held 0 ≤ 4096) files.now }
    ensures { result ≡ sum_by (λ f. unwrap_or f.held 0) files.now }
{
    let mut count: usize = 0;
    for file in files {
        count += file.held.unwrap_or(0);
    }
    count
}

/// Of how many files that are refused it isn't told.
fn untold_of(files: &[FileReport]) -> usize
    ensures { result ≡ count_by is_untold files.now }
{
    files
        .iter()
        .filter(|file| file.fault.is_some() && file.held.is_none())
        .count()
}

/// Whether one of them can't be read.
fn is_one_unread(files: &[FileReport]) -> bool
    ensures { result ≡ list_any (λ f. f.is_unread) files.now }
{
    files.iter().any(|file| file.is_unread)
}

/// What is found of these files, with what people should know of others.
fn report_of(files: Vec<FileReport>, warnings: Vec<Vec<u8>>) -> CheckReport
    requires few { length files.items ≤ 4096 }
    requires each { All (λ f. length f.profiles.items ≤ 4096) files.items }
    requires held { All (λ f. unwrap_or f.held 0 ≤ 4096) files.items }
    ensures files { result.files ≡ files }
    ensures warnings { result.warnings ≡ warnings }
    ensures counts { CountsFiles result }
{
    let refused = refused_of(files.as_slice());
    let profiles = profiles_of(files.as_slice());
    let held = all_held(files.as_slice());
    let untold = untold_of(files.as_slice());
    let is_unread = is_one_unread(files.as_slice());
    CheckReport {
        files,
        warnings,
        refused,
        profiles,
        held,
        untold,
        is_unread,
    }
}

/// What is found where the files can't be told.
fn untold(alloc: Global, fault: UnitFault) -> Result<CheckReport, NoMemory>
    ensures untold { IfOk result (HasOneRefused fault) }
    ensures counts { IfOk result (λ r. CountsFiles r) }
{
    let (fault, is_unread) = fault_of_unit(alloc, fault)?;
    let path = Vec::from_slice(alloc, fault.path.as_slice())?;
    let mut files = Vec::new(alloc);
    files.push(refused(alloc, path, fault, Vec::new(alloc), is_unread, None))?;
    Ok(report_of(files, Vec::new(alloc)))
}

/// Reads and compiles each file by itself.
pub fn check<T: Tree>(
    alloc: Global,
    tree: &T,
    settings: &Settings<'_>,
    arguments: &[Vec<u8>],
) -> Result<CheckReport, NoMemory>
    ensures { IfOk result (λ r. IsChecked (setting_of (T.files tree.now) (T.taken tree.now) (T.input tree.now) settings.now) (texts arguments.now) r) }
{
    match rooted(alloc, tree, settings.base, arguments) {
        Ok(roots) => {
            let files = check_files(alloc, tree, settings, roots.paths.as_slice())?;
            Ok(report_of(files, roots.warnings))
        }
        Err(fault) => untold(alloc, fault),
    }
}
