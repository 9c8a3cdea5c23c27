//! Positions with the same head are one.

ghost use Rattle.std.specs.Prelude.{◌↔◌, ◌<◌, ℕ, IsTrue};
ghost use Rattle.aa_auto.specs.Merged.{AgreeOn, IsAlike, IsAt, IsBehind, IsJoin, HasStart};

use crate::nodes::Node;
use aa_pattern::{Item, begins, continues, is_skippable};
use indexmap::IndexMap;
use std::alloc::{AllocError, Global};

/// Positions of patterns, of which those with the same head are one. Where the next position goes on from another than the last one,
/// that one is named before it as the same.
// Items are added one by one, so that memory is taken for what is kept alone.
#[derive(Drop)]
pub(crate) struct Merged<'a> {
    /// What stands before each position.
    pub(crate) nodes: Vec<Node<'a>>,
    /// Of each position, the number of one of the patterns' positions with its head.
    pub(crate) firsts: Vec<u32>,
    /// How many positions the patterns so far have.
    many: u32,
    /// Where a head may be found that doesn't stand right behind its source's position.
    memo: IndexMap<u64, usize>,
}

/// Whether both items allow the byte at the beginning, or neither does, and so behind it.
fn agree(a: &Item, b: &Item, byte: u8) -> bool
    ensures { IsTrue result ↔ AgreeOn a.now b.now byte }
{
    begins(a, byte) == begins(b, byte) && continues(a, byte) == continues(b, byte)
}

fn agree_on_all(a: &Item, b: &Item) -> bool
    ensures { IsTrue result → (c : ℕ) → c < 256 → AgreeOn a.now b.now c }
{
    for byte in 0..256u16 {
        if !agree(a, b, byte as u8) {
            return false;
        }
    }
    true
}

/// Whether both are the same star, or question marks.
fn are_same_stars(a: &Item, b: &Item) -> bool
    ensures { IsTrue result → IsAlike a.now b.now }
{
    match a {
        Item::One => matches!(b, Item::One),
        Item::Run => matches!(b, Item::Run),
        Item::RunOne => matches!(b, Item::RunOne),
        Item::Deep => matches!(b, Item::Deep),
        Item::DeepOne => matches!(b, Item::DeepOne),
        _ => false,
    }
}

/// Whether the items, which are no choices, allow the same parts.
fn is_alike(a: &Item, b: &Item) -> bool
    ensures { IsTrue result → IsAlike a.now b.now }
{
    if let Item::Byte(own) = a {
        if let Item::Byte(other) = b {
            return own == other;
        }
    }
    are_same_stars(a, b) || is_skippable(a) == is_skippable(b) && agree_on_all(a, b)
}

/// Whether the position is the other, or is named as the same.
fn is_at(nodes: &[Node], position: usize, source: usize) -> bool
    ensures { IsTrue result → IsAt nodes.now position source }
{
    if position == source {
        return true;
    }
    match nodes.get(position) {
        Some(Node::Same(from)) => *from == source,
        _ => false,
    }
}

/// Whether an item that is alike stands between the source and the position.
fn is_behind(nodes: &[Node], position: usize, source: usize, item: &Item) -> bool
    ensures { IsTrue result → IsBehind nodes.now position source item.now }
{
    let Some(Node::After(other)) = nodes.get(position) else {
        return false;
    };
    position > 0 && is_at(nodes, position - 1, source) && is_alike(other, item)
}

/// Whether a choice stands before the position, whose branches end at these.
fn is_join(nodes: &[Node], position: usize, ends: &[usize]) -> bool
    ensures { IsTrue result → IsJoin nodes.now position ends.now }
{
    match nodes.get(position) {
        Some(Node::Join(others)) => others.as_slice() == ends,
        _ => false,
    }
}

/// Whether nothing stands before the first position.
fn has_start(nodes: &[Node]) -> bool
    ensures { IsTrue result → HasStart nodes.now }
{
    match nodes.get(0) {
        Some(Node::Start) => true,
        _ => false,
    }
}

/// A number that differs for most sets of bytes that items allow.
fn code_of_bytes(item: &Item) -> u64 {
    let mut code: u64 = 512;
    for byte in 0..256u16 {
        if begins(item, byte as u8) {
            code = code.wrapping_mul(31).wrapping_add(byte as u64);
        }
        if continues(item, byte as u8) {
            code = code.wrapping_mul(37).wrapping_add(byte as u64);
        }
    }
    code
}

/// A number that differs for most items.
fn code_of(item: &Item) -> u64 {
    match item {
        Item::Byte(byte) => *byte as u64,
        Item::One => 256,
        Item::Run => 257,
        Item::RunOne => 258,
        Item::Deep => 259,
        Item::DeepOne => 260,
        _ => code_of_bytes(item),
    }
}

/// Where a head with the source and the code may be found.
fn key_of(source: usize, code: u64) -> u64 {
    (source as u64).wrapping_mul(1000003).wrapping_add(code)
}

/// Where a choice that ends at these positions may be found.
fn key_of_ends(ends: &[usize]) -> u64 {
    let mut key: u64 = 11400714819323198485;
    for end in ends {
        key = key_of(*end, key.wrapping_mul(31));
    }
    key
}

/// Notes where the item behind the source may be found, unless it stands right behind it.
fn remember(
    memo: &mut IndexMap<u64, usize>,
    source: usize,
    item: &Item,
    new: usize,
) -> Result<(), AllocError> {
    if new > 0 && source < new - 1 {
        memo.insert(key_of(source, code_of(item)), new)?;
    }
    Ok(())
}

impl<'a> Merged<'a> {
    ghost use Rattle.std.specs.Prelude.{◌≡◌, ◌<◌, IfOk, IfSome, OnOk, length, []};
    ghost use Rattle.aa_pattern.specs.Steps.{IsSimple};
    ghost use Rattle.aa_auto.specs.Merged.{IsWhole, IsMerged, IsBehind, IsJoin, Counts, Pushes, Goes, AddsStart, AddsSimple, AddsSame, AddsJoin, AddsEnd};

    /// No positions.
    pub(crate) fn new(alloc: Global) -> Self
        ensures whole { IsWhole result }
        ensures merged { IsMerged [] result }
        ensures none { result.nodes.items ≡ [] }
    {
        Merged {
            nodes: Vec::new(alloc),
            firsts: Vec::new(alloc),
            many: 0,
            memo: IndexMap::new(alloc),
        }
    }

    /// Counts a position of the patterns.
    // So many positions take more than 64 GiB, so no run can tell that they are refused as want of memory.
    fn count(&mut self) -> Result<(), AllocError>
        ensures { OnOk result (Counts self.old self.new) }
    {
        if self.many == u32::MAX {
            return Err(AllocError);
        }
        self.many += 1;
        Ok(())
    }

    /// Adds a position.
    fn push(&mut self, node: Node<'a>, first: u32) -> Result<(), AllocError>
        ensures { OnOk result (Pushes self.old self.new node.entry first) }
    {
        self.nodes.push(node)?;
        self.firsts.push(first)?;
        Ok(())
    }

    /// A position where the item stands behind the source, if it is found.
    // Most stand right behind theirs, where they are looked for first and aren't noted.
    fn find_behind(&self, source: usize, item: &Item) -> Option<usize>
        requires { source < length self.now.nodes.items }
        ensures { IfSome result (λ n. IsBehind self.now.nodes.items n source item.now) }
    {
        let next = source + 1;
        if is_behind(self.nodes.as_slice(), next, source, item) {
            return Some(next);
        }
        let old = *self.memo.get(&key_of(source, code_of(item)))?;
        if is_behind(self.nodes.as_slice(), old, source, item) {
            return Some(old);
        }
        None
    }

    /// A position behind a choice that ends at these, if it is found.
    fn find_join(&self, key: u64, ends: &[usize]) -> Option<usize>
        ensures { IfSome result (λ n. IsJoin self.now.nodes.items n ends.now) }
    {
        let old = *self.memo.get(&key)?;
        if is_join(self.nodes.as_slice(), old, ends) {
            return Some(old);
        }
        None
    }

    /// The last position is then the source, or the same.
    fn go_to(&mut self, source: usize) -> Result<(), AllocError>
        requires whole { IsWhole self.old }
        requires source { source < length self.old.nodes.items }
        ensures { OnOk result (Goes self.old self.new source) }
    {
        if source + 1 == self.nodes.len() {
            return Ok(());
        }
        let first = self.firsts[source];
        self.push(Node::Same(source), first)
    }

    /// The position of the empty head, where a pattern begins.
    pub(crate) fn start(&mut self) -> Result<usize, AllocError>
        requires whole { IsWhole self.old }
        ensures { IfOk result (λ n. AddsStart self.old self.new n) }
    {
        let first = self.many;
        self.count()?;
        if has_start(self.nodes.as_slice()) {
            return Ok(0);
        }
        let new = self.nodes.len();
        self.push(Node::Start, first)?;
        Ok(new)
    }

    /// The position behind the source and an item, which is no choice.
    pub(crate) fn after(&mut self, source: usize, item: &'a Item) -> Result<usize, AllocError>
        requires whole { IsWhole self.old }
        requires source { source < length self.old.nodes.items }
        requires simple { IsSimple item.now }
        ensures { IfOk result (λ n. AddsSimple self.old self.new source item.now n) }
    {
        let first = self.many;
        self.count()?;
        if let Some(old) = self.find_behind(source, item) {
            return Ok(old);
        }
        self.go_to(source)?;
        let new = self.nodes.len();
        self.push(Node::After(item), first)?;
        remember(&mut self.memo, source, item, new)?;
        Ok(new)
    }

    /// Passes over the position where a branch begins, which has the head of the source.
    pub(crate) fn same(&mut self, source: usize) -> Result<(), AllocError>
        requires whole { IsWhole self.old }
        ensures { OnOk result (AddsSame self.old self.new source) }
    {
        self.count()
    }

    /// The position behind a choice whose branches end at these.
    pub(crate) fn join(&mut self, ends: Vec<usize>) -> Result<usize, AllocError>
        requires whole { IsWhole self.old }
        ensures { IfOk result (λ n. AddsJoin self.old self.new ends.items n) }
    {
        let first = self.many;
        self.count()?;
        let key = key_of_ends(ends.as_slice());
        if let Some(old) = self.find_join(key, ends.as_slice()) {
            return Ok(old);
        }
        let new = self.nodes.len();
        self.push(Node::Join(ends), first)?;
        self.memo.insert(key, new)?;
        Ok(new)
    }

    /// The positions, and the numbers of their heads.
    pub(crate) fn into_parts(self) -> (Vec<Node<'a>>, Vec<u32>)
        ensures nodes { result.0 ≡ self.entry.nodes }
        ensures firsts { result.1 ≡ self.entry.firsts }
    {
        let Merged { nodes, firsts, .. } = self;
        (nodes, firsts)
    }

    /// Adds a position for the end of a pattern, which no other pattern has.
    pub(crate) fn end(&mut self, source: usize) -> Result<usize, AllocError>
        requires whole { IsWhole self.old }
        requires source { source < length self.old.nodes.items }
        ensures { IfOk result (λ n. AddsEnd self.old self.new source n) }
    {
        let first = self.firsts[source];
        let new = self.nodes.len();
        self.push(Node::Same(source), first)?;
        Ok(new)
    }
}
