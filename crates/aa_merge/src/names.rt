//! The parts that a list names.

ghost use Rattle.std.specs.Prelude.{◌≡◌, ℕ, ◌∷◌, ◌++◌, [], List, map, OnOk, IfOk};
ghost use Rattle.aa_files.specs.Texts.{texts};
ghost use Rattle.aa_logs.specs.LogLines.{LogLine, log_line};
ghost use Rattle.aa_merge.specs.Wholes.{named_by, AreNames};

use aa_base::Unread;
use aa_logs::Lines;
use std::alloc::{AllocError, Global};

/// The paths of parts, one after another.
#[derive(Drop)]
pub(crate) struct Names {
    pub(crate) paths: Vec<Vec<u8>>,
}

impl Names {
    /// None yet.
    pub(crate) fn new(alloc: Global) -> Names
        ensures { AreNames result [] }
    {
        Names {
            paths: Vec::new(alloc),
        }
    }
}

fn push_name(paths: &mut Vec<Vec<u8>>, line: &[u8], alloc: Global) -> Result<(), AllocError>
    ensures { OnOk result (texts paths.new.items ≡ texts paths.old.items ++ named_by line.now) }
{
    if line.is_empty() {
        return Ok(());
    }
    paths.push(Vec::from_slice(alloc, line)?)?;
    Ok(())
}

impl Lines for Names {
    ghost use Rattle.std.specs.Prelude.{◌≡◌, List};
    ghost use Rattle.aa_files.specs.Texts.{texts};
    ghost use Rattle.aa_merge.specs.Wholes.{AreNames};

    ghost log = { λ n. 0 };

    ghost has_taken = { λ n lines. AreNames n lines };

    fn take_line(&mut self, alloc: Global, line: &[u8], _number: u64) -> Result<(), Unread> {
        Ok(push_name(&mut self.paths, line, alloc)?)
    }
}
