//! The automaton of two lists of patterns together, made of that of each.

ghost use Rattle.std.specs.Prelude.{◌≡◌, ◌+◌, ◌<◌, ◌≤◌, ◌++◌, ◌∷◌, [], IfOk, Err, List, length};
ghost use Rattle.aa_pattern.specs.Limits.{most_states};
ghost use Rattle.aa_pattern.specs.declared.pattern.Pattern.{Pattern};
ghost use Rattle.aa_auto.specs.Pairs.{AreSides, CanMove, HasPairs, IsBuilt, IsDeadIf, IsNarrowed, IsProduct};
ghost use Rattle.aa_auto.specs.Tables.{HasPlaces, rows_of};

use crate::automaton::Automaton;
use crate::build::BuildFault;
use crate::classes::{Classes, divide};
use crate::joining::{joined_lists, list_pairs};
use crate::pairs::{class_pairs, pairs_of};
use std::alloc::Global;

/// The automaton of the pairs of rows.
fn product(
    alloc: Global,
    one: &Automaton,
    other: &Automaton,
    dead: Option<u32>,
    moved: u16,
    limit: usize,
) -> Result<Automaton, BuildFault>
    requires some { 0 < limit }
    requires limit { limit ≤ most_states }
    requires dead { IsDeadIf other.now dead }
    requires moved { CanMove moved other.now.lists }
    ensures sides { AreSides dead one.now other.now }
    ensures product { IfOk result (IsProduct dead moved one.now other.now) }
    ensures within { IfOk result (λ a. rows_of a ≤ limit) }
    ensures too_many { result ≡ Err BuildFault.TooManyStates → HasPairs dead one.now other.now (limit + 1) }
{
    one.law();
    other.law();
    let keys = class_pairs(alloc, one, other)?;
    let Classes { of, bytes } = divide(alloc, keys.as_slice())?;
    let (pairs, mut cells) = pairs_of(alloc, one, other, dead, bytes.as_slice(), limit)?;
    let (numbers, listed) = list_pairs(alloc, one, other, pairs.as_slice())?;
    let lists = joined_lists(alloc, one, other, moved, numbers.as_slice())?;
    cells.shrink_to_fit();
    Ok(Automaton::of_tables(of, bytes.len(), cells, listed, lists))
}

/// The row that texts lead to which no pattern matches, and no longer text, if it is the one of this byte.
fn dead_row(automaton: &Automaton) -> Option<u32>
    ensures { IsDeadIf automaton.now result }
{
    automaton.law();
    let row = automaton.cell(0, 0);
    if !automaton.at_row(row as usize).is_empty() {
        return None;
    }
    for byte in 0..256u16 {
        if automaton.cell(row as usize, byte as u8) != row {
            return None;
        }
    }
    Some(row)
}

impl Automaton {
    /// The automaton of the patterns of both, those of the second behind those of the first, which are `count`. It has at most
    /// `limit` rows. The errors are `TooManyStates` where the patterns need more, and `NoMemory`.
    pub fn beside(
        alloc: Global,
        one: &Automaton,
        count: u16,
        other: &Automaton,
        limit: usize,
    ) -> Result<Automaton, BuildFault>
        requires some { 0 < limit }
        requires limit { limit ≤ most_states }
        requires moved { CanMove count other.now.lists }
        ensures automaton { IfOk result (λ a. (ps qs : List Pattern) → IsBuilt ps one.now → IsBuilt qs other.now → length ps ≡ count → IsBuilt (ps ++ qs) a) }
        ensures within { IfOk result (λ a. rows_of a ≤ limit) }
        ensures too_many { result ≡ Err BuildFault.TooManyStates → (ps qs : List Pattern) → IsBuilt ps one.now → IsBuilt qs other.now → HasPlaces (ps ++ qs) (limit + 1) }
    {
        product(alloc, one, other, None, count, limit)
    }

    /// The same of patterns and one more behind them, for the texts that this one matches: all others may lead to one row. So it has
    /// few rows where few texts are matched.
    pub fn narrowed(
        alloc: Global,
        one: &Automaton,
        count: u16,
        last: &Automaton,
        limit: usize,
    ) -> Result<Automaton, BuildFault>
        requires some { 0 < limit }
        requires limit { limit ≤ most_states }
        requires moved { CanMove count last.now.lists }
        ensures narrowed { IfOk result (λ a. (ps : List Pattern) (q : Pattern) → IsBuilt ps one.now → IsBuilt (q ∷ []) last.now → length ps ≡ count → IsNarrowed ps q a) }
        ensures within { IfOk result (λ a. rows_of a ≤ limit) }
        ensures too_many { result ≡ Err BuildFault.TooManyStates → (ps : List Pattern) (q : Pattern) → IsBuilt ps one.now → IsBuilt (q ∷ []) last.now → HasPlaces (ps ++ q ∷ []) (limit + 1) }
    {
        product(alloc, one, last, dead_row(last), count, limit)
    }
}
