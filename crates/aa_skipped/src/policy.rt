//! The one policy of the files that aren't skipped.

ghost use Rattle.std.specs.Prelude.{List, IfOk};
ghost use Rattle.aa_command.specs.declared.decided.Decided.{Decided};
ghost use Rattle.aa_command.specs.Printed.{Printed, printed};
ghost use Rattle.aa_command.specs.Setting.{setting_of};
ghost use Rattle.aa_files.specs.Texts.{texts};
ghost use Rattle.aa_skipped.specs.declared.skipped.Skipped.{Skipped};
ghost use Rattle.aa_skipped.specs.Policies.{IsPrintedSkipping, IsPrintedOf};

use crate::repeated::part_repeated;
use crate::skipped::{Skipped, Sorted};
use crate::sorting::sort_paths;
use crate::telling::behind_skipped;
use aa_command::{
    Decided, Output, Settings, Use, behind_warnings, rooted, unit_refused, with_units,
};
use aa_files::Tree;
use aa_text::NoMemory;
use std::alloc::Global;

/// What is done with the policy of the files that aren't skipped.
pub trait UsePart {
    /// What is printed where these files are skipped, by the policy of the others.
    ghost gives: { Self → List Skipped → Decided → Printed → Type 0 };

    fn use_part(
        &self,
        alloc: Global,
        skipped: &[Skipped],
        decided: Decided<'_>,
    ) -> Result<Output, NoMemory>
        ensures { IfOk result (λ out. gives self.now skipped.now decided.entry (printed out)) };
}

/// What is done, where these files are skipped.
#[derive(Drop)]
struct Beside<'a, U: UsePart> {
    user: &'a U,
    skipped: &'a [Skipped],
}

impl<U: UsePart> Use for Beside<'_, U> {
    ghost gives = { λ b d out. U.gives b.user.now b.skipped.now d out };

    fn use_policy(&self, alloc: Global, decided: Decided<'_>) -> Result<Output, NoMemory> {
        self.user.use_part(alloc, self.skipped, decided)
    }
}

/// Compiles those of the files at these paths that aren't skipped, and does something with their policy.
fn with_read_paths<T: Tree, U: UsePart>(
    alloc: Global,
    tree: &T,
    settings: &Settings<'_>,
    paths: &[Vec<u8>],
    user: &U,
) -> Result<Output, NoMemory>
    ensures { IfOk result (λ out. IsPrintedSkipping (setting_of (T.files tree.now) (T.taken tree.now) (T.input tree.now) settings.now) (texts paths.now) (U.gives user.now) (printed out)) }
{
    let sorted = sort_paths(alloc, tree, settings, paths)?;
    let parted = part_repeated(alloc, sorted)?;
    let Sorted { units, skipped } = parted;
    let beside = Beside {
        user,
        skipped: skipped.as_slice(),
    };
    let own = with_units(alloc, settings, units.as_slice(), &beside)?;
    Ok(behind_skipped(alloc, skipped.as_slice(), own)?)
}

/// Compiles those of the files of these arguments that aren't refused as one policy, and does something with it. The others are skipped:
/// of each its fault is said, and which profiles it seems to hold.
pub fn with_read_policy<T: Tree, U: UsePart>(
    alloc: Global,
    tree: &T,
    settings: &Settings<'_>,
    arguments: &[Vec<u8>],
    user: &U,
) -> Result<Output, NoMemory>
    ensures { IfOk result (λ out. IsPrintedOf (setting_of (T.files tree.now) (T.taken tree.now) (T.input tree.now) settings.now) (texts arguments.now) (U.gives user.now) (printed out)) }
{
    match rooted(alloc, tree, settings.base, arguments) {
        Ok(roots) => {
            let own = with_read_paths(alloc, tree, settings, roots.paths.as_slice(), user)?;
            Ok(behind_warnings(alloc, roots.warnings.as_slice(), own)?)
        }
        Err(fault) => unit_refused(alloc, fault),
    }
}
