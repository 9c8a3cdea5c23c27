//! Pointers to patterns.

ghost use Rattle.std.specs.Prelude.{◌≡◌, ◌++◌, OnOk};
ghost use Rattle.aa_auto.specs.Nodes.{pointed};

use aa_pattern::Pattern;
use std::alloc::AllocError;

pub(crate) fn add_patterns<'p>(
    pointers: &mut Vec<&'p Pattern>,
    patterns: &'p [Pattern],
) -> Result<(), AllocError>
    ensures { OnOk result (pointed pointers.new.items ≡ pointed pointers.old.items ++ patterns.now) }
{
    for pattern in patterns {
        pointers.push(pattern)?;
    }
    Ok(())
}
