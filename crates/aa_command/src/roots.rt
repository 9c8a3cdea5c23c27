//! The files that arguments stand for, and what is warned of: others, and that there is none.

ghost use Rattle.std.specs.Prelude.{◌≡◌, ◌≤◌, ◌++◌, vec_len, IfOk, IfErr, IfSome};
ghost use Rattle.aa_files.specs.Texts.{texts};
ghost use Rattle.aa_files.specs.Roots.{root_paths, root_lines};
ghost use Rattle.aa_files.specs.RootFaults.{IsRootFault};
ghost use Rattle.aa_command.specs.Setting.{none_there};

use aa_files::{Roots, Tree, UnitFault, roots_of};
use std::alloc::{AllocError, Global};

/// Adds what is warned of where there is no file.
fn with_none_there(
    alloc: Global,
    paths: &[Vec<u8>],
    warnings: Vec<Vec<u8>>,
) -> Result<Vec<Vec<u8>>, AllocError>
    ensures { IfOk result (λ all. texts all.items ≡ texts warnings.items ++ none_there (texts paths.now)) }
{
    let mut all = warnings;
    if paths.is_empty() {
        let line = Vec::from_slice(alloc, "no file with profiles is there".as_bytes())?;
        all.push(line)?;
    }
    Ok(all)
}

/// The files that these arguments stand for, and what people should know of those that aren't read, or that there is none.
pub fn rooted<T: Tree>(
    alloc: Global,
    tree: &T,
    base: &[u8],
    arguments: &[Vec<u8>],
) -> Result<Roots, UnitFault>
    ensures few { IfOk result (λ roots. vec_len roots.paths ≤ 4096) }
    ensures paths { IfOk result (λ roots. IfSome (T.files tree.now) (λ f. IfSome (T.taken tree.now) (λ t. texts roots.paths.items ≡ root_paths f t base.now (texts arguments.now)))) }
    ensures warnings { IfOk result (λ roots. IfSome (T.files tree.now) (λ f. IfSome (T.taken tree.now) (λ t. texts roots.warnings.items ≡ root_lines f t base.now (texts arguments.now) ++ none_there (texts roots.paths.items)))) }
    ensures fault { IfErr result (IsRootFault (T.files tree.now) (T.taken tree.now) base.now (texts arguments.now)) }
{
    let Roots { paths, warnings } = roots_of(alloc, tree, base, arguments)?;
    let warnings = with_none_there(alloc, paths.as_slice(), warnings)?;
    Ok(Roots { paths, warnings })
}
