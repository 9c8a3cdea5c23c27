//! The positions of patterns.

ghost use Rattle.std.specs.Prelude.{◌<◌, IfOk, length};
ghost use Rattle.aa_auto.specs.Merged.{IsWhole};
ghost use Rattle.aa_auto.specs.Nodes.{pointed};
ghost use Rattle.aa_auto.specs.Positions.{AddsItem, AddsItems, AddsBranches, ArePositions};

use crate::merging::Merged;
use aa_pattern::{Item, Pattern};
use std::alloc::{AllocError, Global};

/// Adds the positions of these items, where they stand behind the source. The answer is the last one.
#[cycle(positions)]
fn add_items<'a>(
    alloc: Global,
    items: &'a [Item],
    source: usize,
    all: &mut Merged<'a>,
) -> Result<usize, AllocError>
    requires whole { IsWhole all.old }
    requires source { source < length all.old.nodes.items }
    ensures { IfOk result (λ n. AddsItems all.old all.new source items.now n) }
{
    let mut position = source;
    for item in items {
        let behind = add_item(alloc, item, position, all)?;
        position = behind;
    }
    Ok(position)
}

/// Adds the positions within an item that stands behind the source, and the one behind it, which is the answer.
#[cycle(positions)]
fn add_item<'a>(
    alloc: Global,
    item: &'a Item,
    source: usize,
    all: &mut Merged<'a>,
) -> Result<usize, AllocError>
    requires whole { IsWhole all.old }
    requires source { source < length all.old.nodes.items }
    ensures { IfOk result (λ n. AddsItem all.old all.new source item.now n) }
{
    if let Item::Choice(branches) = item {
        let ends = add_branches(alloc, branches.as_slice(), source, all)?;
        return all.join(ends);
    }
    all.after(source, item)
}

/// Adds the positions of the branches of a choice that stands behind the source. The answer is where they end.
#[cycle(positions)]
fn add_branches<'a>(
    alloc: Global,
    branches: &'a [Vec<Item>],
    source: usize,
    all: &mut Merged<'a>,
) -> Result<Vec<usize>, AllocError>
    requires whole { IsWhole all.old }
    requires source { source < length all.old.nodes.items }
    ensures { IfOk result (λ ends. AddsBranches all.old all.new source branches.now ends.items) }
{
    let mut ends = Vec::new(alloc);
    for branch in branches {
        all.same(source)?;
        let last = add_items(alloc, branch.as_slice(), source, all)?;
        ends.push(last)?;
    }
    Ok(ends)
}

/// The positions of the patterns, and where each pattern ends.
pub(crate) fn positions_of<'a>(
    alloc: Global,
    patterns: &'a [&'a Pattern],
) -> Result<(Merged<'a>, Vec<usize>), AllocError>
    ensures { IfOk result (λ r. ArePositions (pointed patterns.now) r.0 r.1.items) }
{
    let mut all = Merged::new(alloc);
    let mut ends = Vec::new(alloc);
    for pattern in patterns {
        let start = all.start()?;
        let last = add_items(alloc, pattern.items.as_slice(), start, &mut all)?;
        ends.push(all.end(last)?)?;
    }
    Ok((all, ends))
}
