//! Patterns, compiled position by position, and the set of positions after one more byte.

ghost use Rattle.std.specs.Prelude.{◌≡◌, ◌<◌, ◌≤◌, All, IfOk, OnOk, length, map};
ghost use Rattle.std.specs.List.Sorted.{IsStrictlyIncreasing};
ghost use Rattle.aa_pattern.specs.Limits.{most_patterns};
ghost use Rattle.aa_auto.specs.Finals.{AreFinals};
ghost use Rattle.aa_auto.specs.Nets.{IsNetOf, patterns_of};
ghost use Rattle.aa_auto.specs.Nodes.{HaveSources, pointed};
ghost use Rattle.aa_auto.specs.Spots.{AreJumps};

use crate::classes::{Classes, classes_of};
use crate::closing::closed;
use crate::finals::{finals_of, numbers_at};
use crate::jumps::jumps_of;
use crate::moves::{beginnings, moved};
use crate::nodes::Node;
use crate::noted::{Noted, note_set};
use crate::positions::positions_of;
use aa_pattern::Pattern;
use std::alloc::{AllocError, Global};

/// Patterns, compiled position by position.
#[derive(Drop)]
pub(crate) struct Net<'a> {
    /// The patterns that it is of.
    pub(crate) patterns: &'a [&'a Pattern],
    /// What stands before each position, where those of the patterns with the same head are one.
    pub(crate) nodes: Vec<Node<'a>>,
    /// Of each position, the number of one of the patterns' positions with its head.
    pub(crate) firsts: Vec<u32>,
    /// The positions that each one leads to without a byte.
    pub(crate) jumps: Vec<Vec<u32>>,
    /// The number of the pattern that ends at each position.
    pub(crate) finals: Vec<Option<u16>>,
}

/// Vectors for the set that is looked for, which keep their room from one to the next.
#[derive(Drop)]
pub(crate) struct Scratch {
    /// Where the byte leads, before what is reached without one.
    pub(crate) seeds: Vec<u32>,
    /// Of each position of the set, where it was put.
    pub(crate) indexes: Vec<usize>,
    /// The positions of the set.
    pub(crate) set: Vec<u32>,
    /// The numbers of the patterns that match there.
    pub(crate) numbers: Vec<u16>,
}

impl Scratch {
    pub(crate) fn new(alloc: Global) -> Self {
        Scratch {
            seeds: Vec::new(alloc),
            indexes: Vec::new(alloc),
            set: Vec::new(alloc),
            numbers: Vec::new(alloc),
        }
    }
}

/// The most positions that there can be.
// Positions are kept as `u32`. So many take more than 64 GiB, so no run can tell that they are refused as want of memory.
const POSITIONS: usize = 4294967295;

/// Compiles the patterns.
pub(crate) fn net_of<'a>(alloc: Global, patterns: &'a [&'a Pattern]) -> Result<Net<'a>, AllocError>
    requires { length patterns.now ≤ most_patterns }
    ensures net { IfOk result IsNetOf }
    ensures patterns { IfOk result (λ net. patterns_of net ≡ pointed patterns.now) }
{
    let (all, ends) = positions_of(alloc, patterns)?;
    let (nodes, firsts) = all.into_parts();
    let (jumps, finals) = links_of(alloc, nodes.as_slice(), ends.as_slice())?;
    Ok(Net {
        patterns,
        nodes,
        firsts,
        jumps,
        finals,
    })
}

/// Where positions lead without a byte, and the number of the pattern that ends at each. Refused where there are too many.
fn links_of(
    alloc: Global,
    nodes: &[Node],
    ends: &[usize],
) -> Result<(Vec<Vec<u32>>, Vec<Option<u16>>), AllocError>
    requires sources { HaveSources nodes.now }
    requires rising { IsStrictlyIncreasing ends.now }
    requires within { All (λ e. e < length nodes.now) ends.now }
    requires few { length ends.now ≤ most_patterns }
    ensures many { OnOk result (length nodes.now < 4294967296) }
    ensures jumps { IfOk result (λ r. AreJumps nodes.now (map (λ v. v.items) r.0.items)) }
    ensures finals { IfOk result (λ r. AreFinals ends.now (length ends.now) (length nodes.now) r.1.items) }
{
    if nodes.len() > POSITIONS {
        return Err(AllocError);
    }
    let jumps = jumps_of(alloc, nodes)?;
    let finals = finals_of(alloc, ends, nodes.len())?;
    Ok((jumps, finals))
}

impl Net<'_> {
    ghost use Rattle.std.specs.Prelude.{ℕ, ◌≡◌, ◌<◌, IfOk, OnOk, IsTrue, List, Some, None, [], Contains, length};
    ghost use Rattle.aa_auto.specs.Nets.{IsNetOf, patterns_of};
    ghost use Rattle.aa_auto.specs.Explored.{Follows, Lists};
    ghost use Rattle.aa_auto.specs.Noted.{AreNoted};
    ghost use Rattle.aa_auto.specs.Spots.{LeadAlike};
    ghost use Rattle.aa_auto.specs.Division.{AreClassesOf};

    /// The classes of the bytes that no item of the patterns tells apart.
    pub(crate) fn classes(&self, alloc: Global) -> Result<Classes, AllocError>
        requires { IsNetOf self.now }
        ensures { IfOk result (λ c. AreClassesOf (patterns_of self.now) c.of.items c.bytes.items) }
    {
        classes_of(alloc, self.nodes.as_slice())
    }

    /// Makes `scratch.set` the positions where the empty text stands.
    pub(crate) fn start(&self, scratch: &mut Scratch) -> Result<(), AllocError>
        requires { IsNetOf self.now }
        ensures { OnOk result (Follows self.now None [] scratch.new.set.items) }
    {
        beginnings(self.nodes.as_slice(), &mut scratch.seeds)?;
        closed(
            self.jumps.as_slice(),
            scratch.seeds.as_slice(),
            &mut scratch.indexes,
            &mut scratch.set,
        )
    }

    /// Makes `scratch.set` the positions where a text stands that ends in the byte, where `old` is where it stands without.
    pub(crate) fn next(
        &self,
        byte: u8,
        old: &[u32],
        scratch: &mut Scratch,
    ) -> Result<(), AllocError>
        requires net { IsNetOf self.now }
        requires old { (n : ℕ) → Contains old.now n → n < length self.now.nodes.items }
        ensures { OnOk result (Follows self.now (Some byte) old.now scratch.new.set.items) }
    {
        moved(self.nodes.as_slice(), byte, old, &mut scratch.seeds)?;
        closed(
            self.jumps.as_slice(),
            scratch.seeds.as_slice(),
            &mut scratch.indexes,
            &mut scratch.set,
        )
    }

    /// Notes the positions of a set by this mark, in place of what was noted before.
    pub(crate) fn note(&self, set: &[u32], mark: u32, noted: &mut Noted) -> Result<(), AllocError>
        requires net { IsNetOf self.now }
        requires set { (n : ℕ) → Contains set.now n → n < length self.now.nodes.items }
        requires bytes { length noted.old.named.items ≡ 256 }
        ensures { OnOk result (AreNoted self.now.nodes.items set.now mark noted.new.named.items noted.new.asked.items) }
    {
        note_set(
            self.nodes.as_slice(),
            set,
            mark,
            &mut noted.named,
            &mut noted.asked,
        )
    }

    /// Whether two bytes lead to the same positions from those that were noted by this mark.
    pub(crate) fn lead_alike(&self, mark: u32, a: u8, b: u8, noted: &Noted) -> bool
        requires net { IsNetOf self.now }
        requires named { length noted.now.named.items ≡ 256 }
        requires asked { (n : ℕ) → Contains noted.now.asked.items n → n < length self.now.nodes.items }
        ensures { IsTrue result → (set : List ℕ) → AreNoted self.now.nodes.items set mark noted.now.named.items noted.now.asked.items → LeadAlike self.now.nodes.items a b set }
    {
        noted.lead_alike(self.nodes.as_slice(), mark, a, b)
    }

    /// Makes `scratch.numbers` those of the patterns that match a text that stands at the positions of `scratch.set`, rising.
    pub(crate) fn numbers(&self, scratch: &mut Scratch) -> Result<(), AllocError>
        requires net { IsNetOf self.now }
        requires set { (n : ℕ) → Contains scratch.old.set.items n → n < length self.now.nodes.items }
        ensures { OnOk result (Lists self.now scratch.old.set.items scratch.new.numbers.items) }
    {
        numbers_at(
            self.finals.as_slice(),
            scratch.set.as_slice(),
            &mut scratch.numbers,
        )
    }
}
