//! The pattern.

ghost use Rattle.std.specs.Prelude.{IfOk};
ghost use Rattle.aa_unclean_paths.specs.Told.{TellsUnclean, IsUncleanPattern};

use aa_pattern::{Item, Pattern};
use std::alloc::{AllocError, Global};

/// A pattern, made by hand as `**/{{,.,..}/**,.,..}`. Of the paths that can be asked for it matches those with a component that is `.` or `..`, or is
/// empty and not the last. Together with others it at most doubles their regions.
pub fn unclean_pattern(alloc: Global) -> Result<Pattern, AllocError>
    ensures tells { IfOk result TellsUnclean }
    ensures is { IfOk result IsUncleanPattern }
{
    let empty = Vec::new(alloc);
    let dot = Vec::from_array(alloc, [Item::Byte(b'.')])?;
    let dots = Vec::from_array(alloc, [Item::Byte(b'.'), Item::Byte(b'.')])?;
    let names = Vec::from_array(alloc, [empty, dot, dots])?;
    let within = Vec::from_array(alloc, [Item::Choice(names), Item::Byte(b'/'), Item::Deep])?;
    let last_dot = Vec::from_array(alloc, [Item::Byte(b'.')])?;
    let last_dots = Vec::from_array(alloc, [Item::Byte(b'.'), Item::Byte(b'.')])?;
    let behind = Vec::from_array(alloc, [within, last_dot, last_dots])?;
    let items = Vec::from_array(alloc, [Item::Deep, Item::Byte(b'/'), Item::Choice(behind)])?;
    Ok(Pattern { items })
}
