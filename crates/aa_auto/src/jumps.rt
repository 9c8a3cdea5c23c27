//! Positions that are reached from others without a byte.

ghost use Rattle.std.specs.Prelude.{◌<◌, ◌≤◌, All, IfOk, OnOk, length, map};
ghost use Rattle.aa_auto.specs.Spots.{AddsToRows, AddsJumps, AreEmpty, AreJumps};
ghost use Rattle.aa_auto.specs.Nodes.{HasSources, HaveSources};

use crate::nodes::Node;
use aa_pattern::is_skippable;
use std::alloc::{AllocError, Global};

/// Adds a number to the rows of these positions.
fn add_to_rows(rows: &mut Vec<Vec<u32>>, positions: &[usize], number: u32) -> Result<(), AllocError>
    requires { All (λ p. p < length rows.old.items) positions.now }
    ensures { OnOk result (AddsToRows (map (λ v. v.items) rows.old.items) (map (λ v. v.items) rows.new.items) positions.now number) }
{
    for position in positions {
        rows[*position].push(number)?;
    }
    Ok(())
}

/// Adds the position to the rows of those that lead to it without a byte.
fn add_jumps(rows: &mut Vec<Vec<u32>>, node: &Node, position: u32) -> Result<(), AllocError>
    requires sources { HasSources node.now position }
    requires within { position < length rows.old.items }
    ensures { OnOk result (AddsJumps (map (λ v. v.items) rows.old.items) (map (λ v. v.items) rows.new.items) node.now position) }
{
    match node {
        Node::Start => Ok(()),
        Node::After(item) => {
            if is_skippable(item) {
                return add_to_rows(rows, &[position as usize - 1], position);
            }
            Ok(())
        }
        Node::Same(from) => add_to_rows(rows, &[*from], position),
        Node::Join(ends) => add_to_rows(rows, ends.as_slice(), position),
    }
}

/// Of each position, those that it leads to without a byte.
pub(crate) fn jumps_of(alloc: Global, nodes: &[Node]) -> Result<Vec<Vec<u32>>, AllocError>
    requires sources { HaveSources nodes.now }
    requires few { length nodes.now < 4294967296 }
    ensures { IfOk result (λ rows. AreJumps nodes.now (map (λ v. v.items) rows.items)) }
{
    let mut rows = empty_rows(alloc, nodes.len())?;
    for (position, node) in nodes.iter().enumerate() {
        add_jumps(&mut rows, node, position as u32)?;
    }
    Ok(rows)
}

/// So many empty rows.
fn empty_rows(alloc: Global, many: usize) -> Result<Vec<Vec<u32>>, AllocError>
    ensures { IfOk result (λ rows. AreEmpty (map (λ v. v.items) rows.items) many) }
{
    let mut rows = Vec::new(alloc);
    for _i in 0..many {
        rows.push(Vec::new(alloc))?;
    }
    Ok(rows)
}
