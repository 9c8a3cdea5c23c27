//! Where a byte leads from a position, and from a set of them.

ghost use Rattle.std.specs.Prelude.{◌↔◌, ◌<◌, ℕ, IsTrue, OnOk, Contains, None, [], length};
ghost use Rattle.std.specs.List.Sorted.{IsStrictlyIncreasing};
ghost use Rattle.aa_auto.specs.Sorted.{InsertsIf};
ghost use Rattle.aa_auto.specs.Spots.{AddsMoves, AreSeeds, MovesFrom, BeginsAt, ContinuesAt, IsStart, LeadsAlike, LeadAlike};

use crate::nodes::Node;
use crate::sorted::insert;
use aa_pattern::{begins, continues};
use std::alloc::AllocError;

/// Whether the item before the position may begin with the byte.
fn begins_at(nodes: &[Node], position: usize, byte: u8) -> bool
    ensures { IsTrue result ↔ BeginsAt nodes.now position byte }
{
    match nodes.get(position) {
        Some(Node::After(item)) => begins(item, byte),
        _ => false,
    }
}

/// Whether the item before the position may go on with the byte.
fn continues_at(nodes: &[Node], position: usize, byte: u8) -> bool
    ensures { IsTrue result ↔ ContinuesAt nodes.now position byte }
{
    match nodes.get(position) {
        Some(Node::After(item)) => continues(item, byte),
        _ => false,
    }
}

/// Whether nothing stands before the position.
fn is_start(node: &Node) -> bool
    ensures { IsTrue result ↔ IsStart node.now }
{
    match node {
        Node::Start => true,
        _ => false,
    }
}

/// Adds the value to rising numbers, where it is wanted and isn't there.
fn insert_if(set: &mut Vec<u32>, value: u32, wanted: bool) -> Result<(), AllocError>
    requires { IsStrictlyIncreasing set.old.items }
    ensures { OnOk result (InsertsIf set.old.items set.new.items value wanted) }
{
    if wanted {
        return insert(set, value);
    }
    Ok(())
}

/// Adds the positions that the byte leads to from this one.
fn move_from(nodes: &[Node], byte: u8, start: u32, set: &mut Vec<u32>) -> Result<(), AllocError>
    requires start { start < length nodes.now }
    requires few { length nodes.now < 4294967296 }
    requires rising { IsStrictlyIncreasing set.old.items }
    ensures { OnOk result (AddsMoves nodes.now byte start set.old.items set.new.items) }
{
    let stays = continues_at(nodes, start as usize, byte);
    insert_if(set, start, stays)?;
    let next = start + 1;
    let goes = begins_at(nodes, next as usize, byte);
    insert_if(set, next, goes)?;
    Ok(())
}

/// Makes `seeds` the positions that the byte leads to from those of the set.
pub(crate) fn moved(
    nodes: &[Node],
    byte: u8,
    old: &[u32],
    seeds: &mut Vec<u32>,
) -> Result<(), AllocError>
    requires within { (n : ℕ) → Contains old.now n → n < length nodes.now }
    requires few { length nodes.now < 4294967296 }
    ensures { OnOk result (MovesFrom nodes.now byte old.now seeds.new.items) }
{
    seeds.clear();
    for start in old {
        move_from(nodes, byte, *start, seeds)?;
    }
    Ok(())
}

/// Whether two bytes lead to the same positions from this one.
fn leads_alike(nodes: &[Node], a: u8, b: u8, start: u32) -> bool
    requires start { start < length nodes.now }
    requires few { length nodes.now < 4294967296 }
    ensures { IsTrue result → LeadsAlike nodes.now a b start }
{
    let next = start + 1;
    begins_at(nodes, next as usize, a) == begins_at(nodes, next as usize, b)
        && continues_at(nodes, start as usize, a) == continues_at(nodes, start as usize, b)
}

/// Whether two bytes lead to the same positions from each of the set.
pub(crate) fn lead_alike(nodes: &[Node], a: u8, b: u8, set: &[u32]) -> bool
    requires within { (n : ℕ) → Contains set.now n → n < length nodes.now }
    requires few { length nodes.now < 4294967296 }
    ensures { IsTrue result → LeadAlike nodes.now a b set.now }
{
    for start in set {
        if !leads_alike(nodes, a, b, *start) {
            return false;
        }
    }
    true
}

/// Makes `new` the positions that nothing stands before.
pub(crate) fn beginnings(nodes: &[Node], new: &mut Vec<u32>) -> Result<(), AllocError>
    requires { length nodes.now < 4294967296 }
    ensures { OnOk result (AreSeeds nodes.now None [] new.new.items) }
{
    new.clear();
    for (position, node) in nodes.iter().enumerate() {
        insert_if(new, position as u32, is_start(node))?;
    }
    Ok(())
}
