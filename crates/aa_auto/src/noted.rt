//! What the nodes before and behind a row's positions tell of bytes, by one look at each.

ghost use Rattle.std.specs.Prelude.{◌≡◌, ◌+◌, ◌<◌, ℕ, List, IsTrue, OnOk, Contains, length, slice_index_or};
ghost use Rattle.aa_auto.specs.declared.nodes.Node.TheVariants.{Start};
ghost use Rattle.aa_auto.specs.Noted.{IsFree, Notes, NotesNext, NotesOwn, NotesStars, AreNoted};
ghost use Rattle.aa_auto.specs.Spots.{LeadAlike};

use crate::moves::lead_alike;
use crate::nodes::Node;
use aa_pattern::Item;
use std::alloc::{AllocError, Global};

/// What was noted of a row's positions.
#[derive(Drop)]
pub(crate) struct Noted {
    /// Of each byte, the row's mark where it alone is the item behind one of the positions, or a star there tells it from others.
    // Marks of other rows mean nothing, so that nothing is wiped from one row to the next.
    pub(crate) named: Vec<u32>,
    /// The positions that a class of bytes stands behind.
    pub(crate) asked: Vec<u32>,
}

/// Notes the bytes that stars tell from others.
fn note_stars(mark: u32, named: &mut Vec<u32>)
    requires { length named.old.items ≡ 256 }
    ensures { NotesStars mark named.old.items named.new.items }
{
    named[0] = mark;
    named[b'/' as usize] = mark;
}

/// Notes the node before a position, in which a text may go on.
fn note_own(nodes: &[Node], start: u32, mark: u32, named: &mut Vec<u32>)
    requires { length named.old.items ≡ 256 }
    ensures { NotesOwn (slice_index_or nodes.now start Start) mark named.old.items named.new.items }
{
    let Some(Node::After(item)) = nodes.get(start as usize) else {
        return;
    };
    if let Item::Byte(_) = item {
        return;
    }
    note_stars(mark, named);
}

/// Notes the node behind a position.
fn note_node(
    node: &Node,
    start: u32,
    mark: u32,
    named: &mut Vec<u32>,
    asked: &mut Vec<u32>,
) -> Result<(), AllocError>
    requires { length named.old.items ≡ 256 }
    ensures { OnOk result (NotesNext node.now start mark named.old.items named.new.items asked.old.items asked.new.items) }
{
    let Node::After(item) = node else {
        return Ok(());
    };
    if let Item::Byte(own) = item {
        named[*own as usize] = mark;
        return Ok(());
    }
    if let Item::Class(_) = item {
        asked.push(start)?;
        return Ok(());
    }
    note_stars(mark, named);
    Ok(())
}

/// Notes what stands behind a position.
fn note_next(
    nodes: &[Node],
    start: u32,
    mark: u32,
    named: &mut Vec<u32>,
    asked: &mut Vec<u32>,
) -> Result<(), AllocError>
    requires { length named.old.items ≡ 256 }
    ensures { OnOk result (NotesNext (slice_index_or nodes.now (start + 1) Start) start mark named.old.items named.new.items asked.old.items asked.new.items) }
{
    match nodes.get(start as usize + 1) {
        Some(node) => note_node(node, start, mark, named, asked),
        None => Ok(()),
    }
}

/// Notes what stands before and behind a position.
fn note(
    nodes: &[Node],
    start: u32,
    mark: u32,
    named: &mut Vec<u32>,
    asked: &mut Vec<u32>,
) -> Result<(), AllocError>
    requires { length named.old.items ≡ 256 }
    ensures { OnOk result (Notes nodes.now start mark named.old.items named.new.items asked.old.items asked.new.items) }
{
    note_own(nodes, start, mark, named);
    note_next(nodes, start, mark, named, asked)?;
    Ok(())
}

/// Makes `named`, by this mark, and `asked` what stands before and behind the positions of a set tells of bytes.
pub(crate) fn note_set(
    nodes: &[Node],
    set: &[u32],
    mark: u32,
    named: &mut Vec<u32>,
    asked: &mut Vec<u32>,
) -> Result<(), AllocError>
    requires within { (n : ℕ) → Contains set.now n → n < length nodes.now }
    requires few { length nodes.now < 4294967296 }
    requires bytes { length named.old.items ≡ 256 }
    ensures { OnOk result (AreNoted nodes.now set.now mark named.new.items asked.new.items) }
{
    asked.clear();
    for start in set {
        note(nodes, *start, mark, named, asked)?;
    }
    Ok(())
}

/// Whether no item names the byte alone there, and no star tells it from others.
fn is_free(mark: u32, named: &[u32], byte: u8) -> bool
    requires { length named.now ≡ 256 }
    ensures { IsTrue result → IsFree mark named.now byte }
{
    named[byte as usize] != mark
}

/// Whether both bytes are.
fn are_free(mark: u32, named: &[u32], a: u8, b: u8) -> bool
    requires { length named.now ≡ 256 }
    ensures { IsTrue result → IsFree mark named.now a × IsFree mark named.now b }
{
    is_free(mark, named, a) && is_free(mark, named, b)
}

impl Noted {
    ghost use Rattle.std.specs.Prelude.{◌≡◌, ◌<◌, ℕ, List, IfOk, IsTrue, Contains, length};
    ghost use Rattle.aa_auto.specs.Noted.{AreNoted};
    ghost use Rattle.aa_auto.specs.Spots.{LeadAlike};

    /// Nothing noted.
    pub(crate) fn new(alloc: Global) -> Result<Noted, AllocError>
        ensures { IfOk result (λ t. length t.named.items ≡ 256) }
    {
        Ok(Noted {
            named: vec![in alloc; 0; 256]?,
            asked: Vec::new(alloc),
        })
    }

    /// Whether two bytes lead to the same positions from those that were noted. It may be false of bytes that items name, and of
    /// the byte 0 and `/` where there is a star.
    pub(crate) fn lead_alike(&self, nodes: &[Node], mark: u32, a: u8, b: u8) -> bool
        requires named { length self.now.named.items ≡ 256 }
        requires asked { (n : ℕ) → Contains self.now.asked.items n → n < length nodes.now }
        requires few { length nodes.now < 4294967296 }
        ensures { IsTrue result → (set : List ℕ) → AreNoted nodes.now set mark self.now.named.items self.now.asked.items → LeadAlike nodes.now a b set }
    {
        are_free(mark, self.named.as_slice(), a, b)
            && lead_alike(nodes, a, b, self.asked.as_slice())
    }
}
