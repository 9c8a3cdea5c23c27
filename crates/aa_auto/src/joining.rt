//! The lists of pairs of rows, each pair of lists joined once.

ghost use Rattle.std.specs.Prelude.{◌≡◌, ◌+◌, ◌<◌, ◌≤◌, All, IfOk, length, map};
ghost use Rattle.aa_pattern.specs.Limits.{most_states};
ghost use Rattle.aa_auto.specs.Pairs.{joined, list_of_pair, list_pair, AreListPairs, ArePairsIn, AreListsIn, CanMove, IsPair};

use crate::automaton::Automaton;
use crate::keys::Keys;
use crate::numbers::Numbers;
use crate::pairs::{first, pair, second};
use std::alloc::{AllocError, Global};

/// The numbers of the lists of a pair's rows.
fn list_pair(one: &Automaton, other: &Automaton, key: u64) -> u64
    requires { IsPair one.now other.now key }
    ensures { result ≡ list_pair one.now other.now key }
{
    pair(one.list_number(first(key)), other.list_number(second(key)))
}

/// The pairs of lists that pairs of rows have, and of each pair of rows the number of its pair of lists.
pub(crate) fn list_pairs(
    alloc: Global,
    one: &Automaton,
    other: &Automaton,
    keys: &[u64],
) -> Result<(Keys, Numbers), AllocError>
    requires pairs { ArePairsIn one.now other.now keys.now }
    requires few { length keys.now ≤ most_states }
    ensures { IfOk result (λ r. AreListPairs one.now other.now keys.now (length keys.now) r.0 r.1) }
{
    let mut numbers = Keys::new(alloc);
    let mut listed = Numbers::new(alloc);
    for key in keys {
        let number = numbers.add(list_pair(one, other, *key))?;
        listed.push(alloc, number as u32)?;
    }
    listed.shrink_to_fit();
    Ok((numbers, listed))
}

/// The numbers of the one list, and behind them those of the other, moved up.
fn joined(alloc: Global, moved: u16, xs: &[u16], ys: &[u16]) -> Result<Vec<u16>, AllocError>
    requires { All (λ n. moved + n < 65536) ys.now }
    ensures { IfOk result (λ zs. zs.items ≡ joined moved xs.now ys.now) }
{
    let mut zs = Vec::from_slice(alloc, xs)?;
    for number in ys {
        zs.push(moved + *number)?;
    }
    Ok(zs)
}

/// The lists of the pairs of lists.
pub(crate) fn joined_lists(
    alloc: Global,
    one: &Automaton,
    other: &Automaton,
    moved: u16,
    numbers: &[u64],
) -> Result<Vec<Vec<u16>>, AllocError>
    requires pairs { AreListsIn one.now other.now numbers.now }
    requires moved { CanMove moved other.now.lists }
    ensures { IfOk result (λ lists. map (λ v. v.items) lists.items ≡ map (list_of_pair moved one.now other.now) numbers.now) }
{
    let mut lists = Vec::with_capacity(alloc, numbers.len())?;
    for key in numbers {
        lists.push(joined(
            alloc,
            moved,
            one.list(first(*key)),
            other.list(second(*key)),
        )?)?;
    }
    Ok(lists)
}
