//! How the pairs of rows that texts lead to in two automata are found, one after another.

ghost use Rattle.std.specs.Prelude.{◌≡◌, ◌+◌, ◌*◌, ◌<◌, ◌≤◌, ℕ, IfOk, OnOk, Err, length, slice_index};
ghost use Rattle.aa_pattern.specs.Limits.{most_states};
ghost use Rattle.aa_auto.specs.Pairs.{pair, first, second, settled, pair_after, class_pair, AreCells, AreMet, ArePairs, ExtendsKeys, GoesTo, HasPairs, AreSides, IsPair};

use crate::automaton::Automaton;
use crate::build::BuildFault;
use crate::keys::Keys;
use crate::numbers::Numbers;
use std::alloc::{AllocError, Global};

/// What tells the pairs of numbers apart.
const PAIRS: u64 = 4_294_967_296;

/// Two numbers as one.
pub(crate) fn pair(one: u32, other: u32) -> u64
    ensures { result ≡ pair one other }
{
    PAIRS * one as u64 + other as u64
}

/// The first of them.
pub(crate) fn first(key: u64) -> usize
    ensures { result ≡ first key }
{
    (key / PAIRS) as usize
}

/// The second.
pub(crate) fn second(key: u64) -> usize
    ensures { result ≡ second key }
{
    (key % PAIRS) as usize
}

/// The pair of two rows, where that of the other automaton isn't the dead one.
fn settled(dead: Option<u32>, one: u32, other: u32) -> u64
    ensures { result ≡ settled dead one other }
{
    match dead {
        Some(dead) if dead == other => pair(0, other),
        _ => pair(one, other),
    }
}

/// The pair that the byte leads to.
fn pair_after(one: &Automaton, other: &Automaton, dead: Option<u32>, key: u64, byte: u8) -> u64
    requires { IsPair one.now other.now key }
    ensures { result ≡ pair_after dead one.now other.now key byte }
{
    settled(
        dead,
        one.cell(first(key), byte),
        other.cell(second(key), byte),
    )
}

/// What tells bytes of different classes in one of the automata apart.
pub(crate) fn class_pairs(
    alloc: Global,
    one: &Automaton,
    other: &Automaton,
) -> Result<Vec<u32>, AllocError>
    ensures many { IfOk result (λ keys. length keys.items ≡ 256) }
    ensures each { IfOk result (λ keys. (b : ℕ) → b < 256 → slice_index keys.items b ≡ class_pair one.now other.now b) }
{
    one.law();
    other.law();
    let mut keys = Vec::with_capacity(alloc, 256)?;
    for byte in 0..256u16 {
        let class = 256 * one.class_of(byte as u8) + other.class_of(byte as u8);
        keys.push(class as u32)?;
    }
    Ok(keys)
}

/// The pair of the empty text.
fn first_pair(
    alloc: Global,
    one: &Automaton,
    other: &Automaton,
    dead: Option<u32>,
) -> Result<Keys, AllocError>
    requires { AreSides dead one.now other.now }
    ensures met { IfOk result (λ keys. AreMet dead one.now other.now keys) }
    ensures single { IfOk result (λ keys. length keys ≡ 1) }
{
    let mut keys = Keys::new(alloc);
    keys.add(settled(dead, 0, 0))?;
    Ok(keys)
}

/// The number of the pair that the byte leads to from a row's, which is added where it isn't there.
fn next_pair(
    one: &Automaton,
    other: &Automaton,
    dead: Option<u32>,
    limit: usize,
    row: usize,
    byte: u8,
    next: u64,
    keys: &mut Keys,
) -> Result<usize, BuildFault>
    requires sides { AreSides dead one.now other.now }
    requires met { AreMet dead one.now other.now keys.old }
    requires row { row < length keys.old }
    requires few { length keys.old ≤ limit }
    requires limit { limit ≤ most_states }
    requires next { next ≡ pair_after dead one.now other.now (slice_index keys.old row) byte }
    ensures met { OnOk result (AreMet dead one.now other.now keys.new) }
    ensures goes { IfOk result (λ n. GoesTo dead one.now other.now keys.new row byte n) }
    ensures extends { OnOk result (ExtendsKeys keys.old keys.new) }
    ensures few { OnOk result (length keys.new ≤ limit) }
    ensures too_many { result ≡ Err BuildFault.TooManyStates → HasPairs dead one.now other.now (limit + 1) }
{
    let number = keys.add(next)?;
    if keys.len() > limit {
        return Err(BuildFault::TooManyStates);
    }
    Ok(number)
}

/// The byte whose pair a row's others are compared with: no text in UTF-8 has it, so that few patterns name it.
const USUAL: u8 = 255;

/// The number of the pair that the byte leads to from a row's: `number` where that is the usual one, else as in `next_pair`.
fn cell_of(
    one: &Automaton,
    other: &Automaton,
    dead: Option<u32>,
    limit: usize,
    row: usize,
    byte: u8,
    key: u64,
    usual: u64,
    number: usize,
    keys: &mut Keys,
) -> Result<usize, BuildFault>
    requires sides { AreSides dead one.now other.now }
    requires met { AreMet dead one.now other.now keys.old }
    requires row { row < length keys.old }
    requires few { length keys.old ≤ limit }
    requires limit { limit ≤ most_states }
    requires key { key ≡ slice_index keys.old row }
    requires within { number < length keys.old }
    requires usual { slice_index keys.old number ≡ usual }
    ensures met { OnOk result (AreMet dead one.now other.now keys.new) }
    ensures goes { IfOk result (λ n. GoesTo dead one.now other.now keys.new row byte n) }
    ensures extends { OnOk result (ExtendsKeys keys.old keys.new) }
    ensures few { OnOk result (length keys.new ≤ limit) }
    ensures too_many { result ≡ Err BuildFault.TooManyStates → HasPairs dead one.now other.now (limit + 1) }
{
    let next = pair_after(one, other, dead, key, byte);
    if next == usual {
        return Ok(number);
    }
    next_pair(one, other, dead, limit, row, byte, next, keys)
}

/// Adds the cells of a row, one for each class of bytes.
fn fill_row(
    alloc: Global,
    one: &Automaton,
    other: &Automaton,
    dead: Option<u32>,
    bytes: &[u8],
    limit: usize,
    row: usize,
    keys: &mut Keys,
    cells: &mut Numbers,
) -> Result<(), BuildFault>
    requires sides { AreSides dead one.now other.now }
    requires met { AreMet dead one.now other.now keys.old }
    requires row { row < length keys.old }
    requires few { length keys.old ≤ limit }
    requires limit { limit ≤ most_states }
    requires filled { AreCells dead one.now other.now keys.old bytes.now cells.old }
    requires cells { length cells.old ≡ length bytes.now * row }
    ensures met { OnOk result (AreMet dead one.now other.now keys.new) }
    ensures filled { OnOk result (AreCells dead one.now other.now keys.new bytes.now cells.new) }
    ensures cells { OnOk result (length cells.new ≡ length bytes.now * (row + 1)) }
    ensures row { OnOk result (row < length keys.new) }
    ensures few { OnOk result (length keys.new ≤ limit) }
    ensures too_many { result ≡ Err BuildFault.TooManyStates → HasPairs dead one.now other.now (limit + 1) }
{
    let key = keys.as_slice()[row];
    let usual = pair_after(one, other, dead, key, USUAL);
    let number = next_pair(one, other, dead, limit, row, USUAL, usual, keys)?;
    for byte in bytes {
        let next = cell_of(
            one, other, dead, limit, row, *byte, key, usual, number, keys,
        )?;
        cells.push(alloc, next as u32)?;
    }
    Ok(())
}

/// The cells of all rows, where `keys` takes the pairs that they lead to.
fn fill_rows(
    alloc: Global,
    one: &Automaton,
    other: &Automaton,
    dead: Option<u32>,
    bytes: &[u8],
    limit: usize,
    keys: &mut Keys,
) -> Result<Numbers, BuildFault>
    requires some { 0 < limit }
    requires limit { limit ≤ most_states }
    requires sides { AreSides dead one.now other.now }
    requires met { AreMet dead one.now other.now keys.old }
    requires few { length keys.old ≤ limit }
    ensures pairs { IfOk result (λ cells. ArePairs dead one.now other.now keys.new bytes.now cells) }
    ensures few { OnOk result (length keys.new ≤ limit) }
    ensures too_many { result ≡ Err BuildFault.TooManyStates → HasPairs dead one.now other.now (limit + 1) }
{
    let mut cells = Numbers::new(alloc);
    for row in 0..limit {
        if row == keys.len() {
            return Ok(cells);
        }
        fill_row(alloc, one, other, dead, bytes, limit, row, keys, &mut cells)?;
    }
    Ok(cells)
}

/// All pairs of rows that texts lead to, with their cells for the bytes.
pub(crate) fn pairs_of(
    alloc: Global,
    one: &Automaton,
    other: &Automaton,
    dead: Option<u32>,
    bytes: &[u8],
    limit: usize,
) -> Result<(Keys, Numbers), BuildFault>
    requires some { 0 < limit }
    requires limit { limit ≤ most_states }
    requires sides { AreSides dead one.now other.now }
    ensures pairs { IfOk result (λ r. ArePairs dead one.now other.now r.0 bytes.now r.1) }
    ensures few { IfOk result (λ r. length r.0 ≤ limit) }
    ensures too_many { result ≡ Err BuildFault.TooManyStates → HasPairs dead one.now other.now (limit + 1) }
{
    let mut keys = first_pair(alloc, one, other, dead)?;
    let cells = fill_rows(alloc, one, other, dead, bytes, limit, &mut keys)?;
    Ok((keys, cells))
}
