//! Regions: the texts of a kind that the same patterns match.

ghost use Rattle.std.specs.Prelude.{◌≡◌, ◌+◌, ◌<◌, ◌≤◌, ◌∷◌, [], List, IfOk, OnOk, Err, length};
ghost use Rattle.aa_pattern.specs.Limits.{most_patterns, most_states};
ghost use Rattle.aa_auto.specs.Apart.{IsApart};
ghost use Rattle.aa_auto.specs.Nodes.{pointed};
ghost use Rattle.aa_auto.specs.Pairs.{IsNarrowed};
ghost use Rattle.aa_auto.specs.Tables.{HasPlaces, IsAutomaton, list_at, list_number, rows_of};
ghost use Rattle.aa_pattern.specs.declared.pattern.Pattern.{Pattern};
ghost use Rattle.aa_regions.specs.Automata.{AreRegionsBy, ArePathRegionsWithin, HasLists, HaveShort};
ghost use Rattle.aa_regions.specs.Steps.{step_at, text_at, AreSpelled, AreEarlier, AreNumbered, AreRowsIn, IsRising};
ghost use Rattle.aa_regions.specs.Regions.{AreRegions, AreTextRegions, ArePathRegions, AreCollected};

use crate::search::trail_of;
use crate::spelling::spelled;
use crate::steps::Step;
use aa_auto::{Automaton, BuildFault};
use aa_base::{Seq, Text};
use aa_pattern::Pattern;
use std::alloc::{AllocError, Global};

/// The patterns that match all texts of a region, by their numbers, rising, and a shortest of these texts.
#[derive(Drop)]
pub struct Region {
    pub numbers: Seq<u16>,
    pub witness: Text,
}

/// The regions that were met, and the numbers of their lists.
#[derive(Drop)]
struct Collected {
    taken: Vec<bool>,
    regions: Vec<Region>,
}

impl Collected {
    fn new(
        alloc: Global,
        automaton: &Automaton,
        head: &[u8],
        steps: &[Step],
    ) -> Result<Collected, AllocError>
        ensures { IfOk result (λ c. AreCollected automaton.now head.now steps.now 0 c.taken.items c.regions.items) }
    {
        Ok(Collected {
            taken: vec![in alloc; false; automaton.lists()]?,
            regions: Vec::new(alloc),
        })
    }

    /// Takes the region of a step, where it isn't there.
    fn add(
        &mut self,
        alloc: Global,
        automaton: &Automaton,
        head: &[u8],
        steps: &[Step],
        number: usize,
    ) -> Result<(), AllocError>
        requires within { number < length steps.now }
        requires earlier { AreEarlier steps.now }
        requires rows { AreRowsIn automaton.now steps.now }
        requires rising { IsRising steps.now }
        requires numbered { AreNumbered automaton.now steps.now }
        requires apart { IsApart automaton.now.lists }
        requires collected { AreCollected automaton.now head.now steps.now number self.old.taken.items self.old.regions.items }
        ensures { OnOk result (AreCollected automaton.now head.now steps.now (number + 1) self.new.taken.items self.new.regions.items) }
    {
        let list = automaton.list_of(steps[number].row);
        if self.taken[list] {
            return Ok(());
        }
        let items = automaton.list(list);
        let copy = Vec::from_slice(alloc, items)?;
        let numbers = Seq::from_vec(copy);
        let witness = spelled(alloc, head, steps, number)?;
        self.regions.push(Region { numbers, witness })?;
        self.taken[list] = true;
        Ok(())
    }

    fn into_regions(self) -> Vec<Region>
        ensures { result.items ≡ self.regions.items }
    {
        let Collected { regions, .. } = self;
        regions
    }
}

/// A region for each list of the steps' rows, with the text of the first step to it.
fn collect_all(
    alloc: Global,
    automaton: &Automaton,
    head: &[u8],
    steps: &[Step],
) -> Result<Collected, AllocError>
    requires earlier { AreEarlier steps.now }
    requires rows { AreRowsIn automaton.now steps.now }
    requires rising { IsRising steps.now }
    requires numbered { AreNumbered automaton.now steps.now }
    requires apart { IsApart automaton.now.lists }
    ensures { IfOk result (λ c. AreCollected automaton.now head.now steps.now (length steps.now) c.taken.items c.regions.items) }
{
    let mut found = Collected::new(alloc, automaton, head, steps)?;
    for number in 0..steps.len() {
        found.add(alloc, automaton, head, steps, number)?;
    }
    Ok(found)
}

/// The regions of the texts that begin with `head`, go on with bytes of at least `low`, and have at most `max` bytes, by the lists of
/// the automaton, in the order of their shortest texts.
fn regions_by(
    alloc: Global,
    automaton: &Automaton,
    head: &[u8],
    low: u8,
    max: usize,
) -> Result<Vec<Region>, AllocError>
    requires lists { HasLists automaton.now }
    requires head { length head.now ≤ max }
    requires low { low ≤ 97 }
    ensures regions { IfOk result (λ rs. AreRegionsBy automaton.now head.now low max rs.items) }
    ensures short { OnOk result (length head.now + rows_of automaton.now ≤ max → HaveShort automaton.now head.now low max) }
{
    let trail = trail_of(alloc, automaton, head, low, max)?;
    let found = collect_all(alloc, automaton, head, trail.steps.as_slice())?;
    Ok(found.into_regions())
}

/// The regions of the texts that begin with `head`, go on with bytes of at least `low`, and have at most `max` bytes, in the
/// order of their shortest texts. The errors are `TooManyStates`, just where the patterns need an automaton of more rows than
/// the limit, and `NoMemory`.
pub fn regions_of(
    alloc: Global,
    patterns: &[&Pattern],
    limit: usize,
    head: &[u8],
    low: u8,
    max: usize,
) -> Result<Vec<Region>, BuildFault>
    requires patterns { length patterns.now ≤ most_patterns }
    requires some { 0 < limit }
    requires limit { limit ≤ most_states }
    requires head { length head.now ≤ max }
    requires low { low ≤ 97 }
    ensures regions { IfOk result (λ rs. AreRegions (pointed patterns.now) head.now low max rs.items) }
    ensures too_many { result ≡ Err BuildFault.TooManyStates → HasPlaces (pointed patterns.now) (limit + 1) }
    ensures fits { IfOk result (λ rs. HasPlaces (pointed patterns.now) (limit + 1) → ⊥) }
{
    let automaton = Automaton::of(alloc, patterns, limit)?;
    let regions = regions_by(alloc, &automaton, head, low, max)?;
    Ok(regions)
}

/// The longest path that can be asked for.
const MAX_PATH: usize = 4095;

/// The regions of the paths that can be asked for: those that begin with `/`, hold no zero byte and have at most 4,095 bytes. The
/// errors are as above.
pub fn path_regions(
    alloc: Global,
    patterns: &[&Pattern],
    limit: usize,
) -> Result<Vec<Region>, BuildFault>
    requires patterns { length patterns.now ≤ most_patterns }
    requires some { 0 < limit }
    requires limit { limit ≤ most_states }
    ensures regions { IfOk result (λ rs. ArePathRegions (pointed patterns.now) rs.items) }
    ensures too_many { result ≡ Err BuildFault.TooManyStates → HasPlaces (pointed patterns.now) (limit + 1) }
    ensures fits { IfOk result (λ rs. HasPlaces (pointed patterns.now) (limit + 1) → ⊥) }
{
    regions_of(alloc, patterns, limit, b"/", 1, MAX_PATH)
}

/// The regions of the paths that can be asked for, by the lists of the automaton.
fn path_regions_by(alloc: Global, automaton: &Automaton) -> Result<Vec<Region>, AllocError>
    requires { HasLists automaton.now }
    ensures { IfOk result (λ rs. AreRegionsBy automaton.now (47 ∷ []) 1 4095 rs.items) }
{
    regions_by(alloc, automaton, b"/", 1, MAX_PATH)
}

/// The regions of the paths that can be asked for, by the patterns of the automaton.
pub fn path_regions_of(alloc: Global, automaton: &Automaton) -> Result<Vec<Region>, AllocError>
    requires { HasLists automaton.now }
    ensures { IfOk result (λ rs. (ps : List Pattern) → IsAutomaton ps automaton.now → ArePathRegions ps rs.items) }
{
    path_regions_by(alloc, automaton)
}

/// The regions of all texts, by the patterns of the automaton, in the order of their shortest texts.
pub fn text_regions_of(alloc: Global, automaton: &Automaton) -> Result<Vec<Region>, AllocError>
    requires { HasLists automaton.now }
    ensures { IfOk result (λ rs. (ps : List Pattern) → IsAutomaton ps automaton.now → AreTextRegions ps rs.items) }
{
    // (no text needs more bytes than there are rows)
    regions_by(alloc, automaton, b"", 0, automaton.rows())
}

/// The regions of the paths that can be asked for and that the last pattern of the narrowed automaton matches, and some of others.
pub fn path_regions_within(alloc: Global, automaton: &Automaton) -> Result<Vec<Region>, AllocError>
    requires { HasLists automaton.now }
    ensures { IfOk result (λ rs. (ps : List Pattern) (q : Pattern) → IsNarrowed ps q automaton.now → ArePathRegionsWithin ps q rs.items) }
{
    path_regions_by(alloc, automaton)
}
