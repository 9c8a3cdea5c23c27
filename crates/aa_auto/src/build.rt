//! How all sets of positions that some text stands at are found, row by row.

ghost use Rattle.std.specs.Prelude.{◌≡◌, ◌+◌, ◌*◌, ◌<◌, ◌≤◌, ◌++◌, ℕ, Contains, IfOk, IfErr, OnOk, Err, length, slice_get, slice_index_or, [], None, Some};
ghost use Rattle.aa_pattern.specs.Limits.{most_states};
ghost use Rattle.aa_auto.specs.Apart.{IsApart};
ghost use Rattle.aa_auto.specs.Explored.{AreReached, AreFilled, AreListed, Follows, Goes, Extends, IsExplored, TakesSet};
ghost use Rattle.aa_auto.specs.Listed.{IsListing};
ghost use Rattle.aa_auto.specs.Nets.{IsNetOf, patterns_of};
ghost use Rattle.aa_auto.specs.Noted.{AreNoted};
ghost use Rattle.aa_auto.specs.Tables.{HasPlaces};

use crate::lists::Lists;
use crate::net::{Net, Scratch};
use crate::noted::Noted;
use crate::numbers::Numbers;
use crate::sets::Sets;
use std::alloc::{AllocError, AllocFailed, Global};
use thiserror::Error;

/// Why there is no automaton.
#[derive(Clone, Copy, Debug, PartialEq, Eq, Drop, Error)]
pub enum BuildFault {
    /// Memory was refused.
    #[error("no memory")]
    NoMemory,
    /// The patterns need more rows than the limit.
    #[error("too many states")]
    TooManyStates,
}

impl From<AllocError> for BuildFault {
    ghost use Rattle.std.specs.Prelude.{◌≡◌};
    ghost use Rattle.aa_auto.specs.declared.build.BuildFault.TheVariants.{NoMemory};

    ghost from_gives = { λ _ e. e ≡ NoMemory };

    fn from(_: AllocError) -> Self {
        BuildFault::NoMemory
    }
}

impl<T: Drop> From<AllocFailed<T>> for BuildFault {
    ghost use Rattle.std.specs.Prelude.{◌≡◌};
    ghost use Rattle.aa_auto.specs.declared.build.BuildFault.TheVariants.{NoMemory};

    ghost from_gives = { λ _ e. e ≡ NoMemory };

    fn from(_: AllocFailed<T>) -> Self {
        BuildFault::NoMemory
    }
}

/// The sets of positions that were found, with the patterns that match where a text stands at them.
#[derive(Drop)]
pub(crate) struct Found {
    pub(crate) sets: Sets,
    pub(crate) lists: Lists,
    scratch: Scratch,
}

impl Found {
    /// None yet, where `scratch` has the set of the empty text.
    fn started(alloc: Global, net: &Net) -> Result<Found, AllocError>
        requires { IsNetOf net.now }
        ensures sets { IfOk result (λ found. found.sets ≡ []) }
        ensures lists { IfOk result (λ found. found.lists ≡ record { lists = []; listed = [] }) }
        ensures set { IfOk result (λ found. Follows net.now None [] found.scratch.set.items) }
    {
        let mut scratch = Scratch::new(alloc);
        net.start(&mut scratch)?;
        Ok(Found {
            sets: Sets::new(alloc),
            lists: Lists::new(alloc),
            scratch,
        })
    }

    /// The set of the empty text alone.
    fn first(alloc: Global, net: &Net) -> Result<Found, BuildFault>
        requires { IsNetOf net.now }
        ensures reached { IfOk result (λ found. AreReached net.now found.sets) }
        ensures listed { IfOk result (λ found. AreListed net.now found.sets found.lists) }
        ensures one { IfOk result (λ found. length found.sets ≡ 1) }
        ensures err { IfErr result (λ e. e ≡ BuildFault.NoMemory) }
    {
        let mut found = Found::started(alloc, net)?;
        found.add(alloc, net)?;
        Ok(found)
    }

    /// Takes the set of `scratch`. The answer is its number.
    fn add(&mut self, alloc: Global, net: &Net) -> Result<usize, BuildFault>
        requires net { IsNetOf net.now }
        requires set { (n : ℕ) → Contains self.old.scratch.set.items n → n < length net.now.nodes.items }
        requires listing { IsListing self.old.lists }
        requires few { length self.old.lists.listed < 4294967295 }
        ensures found { IfOk result (λ next. slice_get self.new.sets next ≡ Some self.old.scratch.set.items) }
        ensures grows { OnOk result (TakesSet net.now self.old.scratch.set.items self.old.sets self.new.sets self.old.lists self.new.lists) }
        ensures apart { OnOk result (IsApart self.new.sets) }
        ensures err { IfErr result (λ e. e ≡ BuildFault.NoMemory) }
    {
        let (next, is_new) = self.sets.add(alloc, self.scratch.set.as_slice())?;
        if is_new {
            net.numbers(&mut self.scratch)?;
            self.lists.add(alloc, self.scratch.numbers.as_slice())?;
        }
        Ok(next)
    }
}

/// The number of the set that the byte leads to, which is added where it isn't there.
fn next_row(
    alloc: Global,
    net: &Net,
    limit: usize,
    row: usize,
    byte: u8,
    found: &mut Found,
) -> Result<usize, BuildFault>
    requires net { IsNetOf net.now }
    requires reached { AreReached net.now found.old.sets }
    requires listed { AreListed net.now found.old.sets found.old.lists }
    requires row { row < length found.old.sets }
    requires few { length found.old.sets ≤ limit }
    requires limit { limit ≤ most_states }
    ensures reached { OnOk result (AreReached net.now found.new.sets) }
    ensures listed { OnOk result (AreListed net.now found.new.sets found.new.lists) }
    ensures goes { IfOk result (λ next. Goes net.now found.new.sets row byte next) }
    ensures extends { OnOk result (Extends found.old.sets found.new.sets) }
    ensures few { OnOk result (length found.new.sets ≤ limit) }
    ensures too_many { result ≡ Err BuildFault.TooManyStates → HasPlaces (patterns_of net.now) (limit + 1) }
{
    let Some(old) = found.sets.get(row) else {
        unreachable!()
    };
    net.next(byte, old, &mut found.scratch)?;
    let next = found.add(alloc, net)?;
    if found.sets.len() > limit {
        return Err(BuildFault::TooManyStates);
    }
    Ok(next)
}

/// The byte that a row's others are compared with: no text in UTF-8 has it, so that few patterns name it.
const USUAL: u8 = 255;

/// Notes a row's positions, in place of those of the row before.
fn note_row(net: &Net, row: usize, sets: &Sets, noted: &mut Noted) -> Result<(), AllocError>
    requires net { IsNetOf net.now }
    requires reached { AreReached net.now sets.now }
    requires row { row < length sets.now }
    requires number { row < 4294967296 }
    requires bytes { length noted.old.named.items ≡ 256 }
    ensures { OnOk result (AreNoted net.now.nodes.items (slice_index_or sets.now row []) row noted.new.named.items noted.new.asked.items) }
{
    let Some(set) = sets.get(row) else {
        unreachable!()
    };
    net.note(set, row as u32, noted)
}

/// The number of the set that the byte leads to: `next` where it leads as the usual byte does, else as in `next_row`.
fn cell_of(
    alloc: Global,
    net: &Net,
    limit: usize,
    row: usize,
    byte: u8,
    next: usize,
    noted: &Noted,
    found: &mut Found,
) -> Result<usize, BuildFault>
    requires net { IsNetOf net.now }
    requires reached { AreReached net.now found.old.sets }
    requires listed { AreListed net.now found.old.sets found.old.lists }
    requires row { row < length found.old.sets }
    requires few { length found.old.sets ≤ limit }
    requires limit { limit ≤ most_states }
    requires usual { Goes net.now found.old.sets row 255 next }
    requires noted { AreNoted net.now.nodes.items (slice_index_or found.old.sets row []) row noted.now.named.items noted.now.asked.items }
    ensures reached { OnOk result (AreReached net.now found.new.sets) }
    ensures listed { OnOk result (AreListed net.now found.new.sets found.new.lists) }
    ensures goes { IfOk result (λ cell. Goes net.now found.new.sets row byte cell) }
    ensures extends { OnOk result (Extends found.old.sets found.new.sets) }
    ensures few { OnOk result (length found.new.sets ≤ limit) }
    ensures too_many { result ≡ Err BuildFault.TooManyStates → HasPlaces (patterns_of net.now) (limit + 1) }
{
    if net.lead_alike(row as u32, USUAL, byte, noted) {
        return Ok(next);
    }
    next_row(alloc, net, limit, row, byte, found)
}

/// Adds the cells of a row, one for each class of bytes.
fn fill_row(
    alloc: Global,
    net: &Net,
    bytes: &[u8],
    limit: usize,
    row: usize,
    noted: &mut Noted,
    found: &mut Found,
    cells: &mut Numbers,
) -> Result<(), BuildFault>
    requires net { IsNetOf net.now }
    requires reached { AreReached net.now found.old.sets }
    requires listed { AreListed net.now found.old.sets found.old.lists }
    requires row { row < length found.old.sets }
    requires few { length found.old.sets ≤ limit }
    requires limit { limit ≤ most_states }
    requires filled { AreFilled net.now found.old.sets bytes.now cells.old }
    requires cells { length cells.old ≡ length bytes.now * row }
    requires noted { length noted.old.named.items ≡ 256 }
    ensures reached { OnOk result (AreReached net.now found.new.sets) }
    ensures listed { OnOk result (AreListed net.now found.new.sets found.new.lists) }
    ensures filled { OnOk result (AreFilled net.now found.new.sets bytes.now cells.new) }
    ensures cells { OnOk result (length cells.new ≡ length bytes.now * (row + 1)) }
    ensures row { OnOk result (row < length found.new.sets) }
    ensures noted { OnOk result (length noted.new.named.items ≡ 256) }
    ensures few { OnOk result (length found.new.sets ≤ limit) }
    ensures too_many { result ≡ Err BuildFault.TooManyStates → HasPlaces (patterns_of net.now) (limit + 1) }
{
    let usual = next_row(alloc, net, limit, row, USUAL, found)?;
    note_row(net, row, &found.sets, noted)?;
    for byte in bytes {
        let next = cell_of(alloc, net, limit, row, *byte, usual, noted, found)?;
        cells.push(alloc, next as u32)?;
    }
    Ok(())
}

/// The cells of all rows, where `found` takes the sets that they lead to.
fn fill_rows(
    alloc: Global,
    net: &Net,
    bytes: &[u8],
    limit: usize,
    found: &mut Found,
) -> Result<Numbers, BuildFault>
    requires net { IsNetOf net.now }
    requires some { 0 < limit }
    requires limit { limit ≤ most_states }
    requires reached { AreReached net.now found.old.sets }
    requires listed { AreListed net.now found.old.sets found.old.lists }
    requires few { length found.old.sets ≤ limit }
    ensures explored { IfOk result (λ cells. IsExplored net.now found.new.sets bytes.now cells found.new.lists) }
    ensures few { OnOk result (length found.new.sets ≤ limit) }
    ensures too_many { result ≡ Err BuildFault.TooManyStates → HasPlaces (patterns_of net.now) (limit + 1) }
{
    let mut cells = Numbers::new(alloc);
    let mut noted = Noted::new(alloc)?;
    for row in 0..limit {
        if row == found.sets.len() {
            return Ok(cells);
        }
        fill_row(alloc, net, bytes, limit, row, &mut noted, found, &mut cells)?;
    }
    Ok(cells)
}

/// All sets of positions that some text stands at, with their cells for the bytes.
pub(crate) fn explore(
    alloc: Global,
    net: &Net,
    bytes: &[u8],
    limit: usize,
) -> Result<(Found, Numbers), BuildFault>
    requires net { IsNetOf net.now }
    requires some { 0 < limit }
    requires limit { limit ≤ most_states }
    ensures explored { IfOk result (λ r. IsExplored net.now r.0.sets bytes.now r.1 r.0.lists) }
    ensures few { IfOk result (λ r. length r.0.sets ≤ limit) }
    ensures too_many { result ≡ Err BuildFault.TooManyStates → HasPlaces (patterns_of net.now) (limit + 1) }
{
    let mut found = Found::first(alloc, net)?;
    let cells = fill_rows(alloc, net, bytes, limit, &mut found)?;
    Ok((found, cells))
}
