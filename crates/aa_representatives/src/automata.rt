//! The automata of the patterns by which paths are answered at a label, made of those that compiled policies hold.

ghost use Rattle.std.specs.Prelude.{◌≡◌, ◌↔◌, ◌+◌, ◌*◌, ◌<◌, ◌≤◌, ◌++◌, ◌∷◌, [], Err, IfOk, IsTrue, List, length};
ghost use Rattle.std.specs.List.{slice_get};
ghost use Rattle.aa_pattern.specs.Limits.{most_patterns, most_states};
ghost use Rattle.aa_pattern.specs.declared.pattern.Pattern.{Pattern};
ghost use Rattle.aa_auto.specs.Pairs.{IsBuilt};
ghost use Rattle.aa_auto.specs.Tables.{HasPlaces, rows_of};
ghost use Rattle.aa_regions.specs.Automata.{ArePathRegionsWithin};
ghost use Rattle.aa_compile.specs.Checks.{attached_patterns};
ghost use Rattle.aa_compile.specs.Transitions.{children, tops};
ghost use Rattle.aa_representatives.specs.Alike.{deciding, deciding_at};
ghost use Rattle.aa_representatives.specs.Automata.{IsOfSome};

use aa_auto::{Automaton, BuildFault};
use aa_compile::Compiled;
use aa_model::Label;
use aa_pattern::Pattern;
use aa_regions::{Region, path_regions_of, path_regions_within};
use std::alloc::Global;

/// The automaton of one pattern.
pub(crate) fn of_one(
    alloc: Global,
    pattern: &Pattern,
    limit: usize,
) -> Result<Automaton, BuildFault>
    requires some { 0 < limit }
    requires limit { limit ≤ most_states }
    ensures built { IfOk result (IsBuilt (pattern.now ∷ [])) }
    ensures within { IfOk result (λ a. rows_of a ≤ limit) }
    ensures too_many { result ≡ Err BuildFault.TooManyStates → HasPlaces (pattern.now ∷ []) (limit + 1) }
{
    let mut pointers = Vec::new(alloc);
    pointers.push(pattern)?;
    Automaton::of(alloc, pointers.as_slice(), limit)
}

/// The automaton of no pattern.
pub(crate) fn of_none(alloc: Global, limit: usize) -> Result<Automaton, BuildFault>
    requires some { 0 < limit }
    requires limit { limit ≤ most_states }
    ensures built { IfOk result (IsBuilt []) }
    ensures within { IfOk result (λ a. rows_of a ≤ limit) }
    ensures too_many { result ≡ Err BuildFault.TooManyStates → HasPlaces [] (limit + 1) }
{
    let pointers: Vec<&Pattern> = Vec::new(alloc);
    Automaton::of(alloc, pointers.as_slice(), limit)
}

/// Whether all pairs of rows are no more than the limit.
fn is_few(one: &Automaton, other: &Automaton, limit: usize) -> bool
    ensures { IsTrue result → rows_of one.now * rows_of other.now ≤ limit }
{
    match one.rows().checked_mul(other.rows()) {
        Some(pairs) => pairs <= limit,
        None => false,
    }
}

/// The regions of the paths that can be asked for and that the pattern matches, by the patterns of the automaton, which are `count`, and
/// this one, and some of other paths.
// Only the texts that the pattern matches are looked at, unless its rows and those of the others could be more than the limit together.
pub(crate) fn regions_within(
    alloc: Global,
    automaton: &Automaton,
    count: usize,
    pattern: &Pattern,
    limit: usize,
) -> Result<Vec<Region>, BuildFault>
    requires some { 0 < limit }
    requires limit { limit ≤ most_states }
    requires few { count < most_patterns }
    requires built { IsOfSome count automaton.now }
    ensures regions { IfOk result (λ rs. (ps : List Pattern) → IsBuilt ps automaton.now → length ps ≡ count → ArePathRegionsWithin ps pattern.now rs.items) }
    ensures many_states { result ≡ Err BuildFault.TooManyStates → (ps : List Pattern) → IsBuilt ps automaton.now → HasPlaces (ps ++ pattern.now ∷ []) (limit + 1) }
    ensures few_states { IfOk result (λ _. (ps : List Pattern) → IsBuilt ps automaton.now → length ps ≡ count → HasPlaces (ps ++ pattern.now ∷ []) (limit + 1) → ⊥) }
{
    let last = of_one(alloc, pattern, limit)?;
    if is_few(automaton, &last, limit) {
        let narrowed = Automaton::narrowed(alloc, automaton, count as u16, &last, limit)?;
        return Ok(path_regions_within(alloc, &narrowed)?);
    }
    let whole = Automaton::beside(alloc, automaton, count as u16, &last, limit)?;
    let regions = path_regions_of(alloc, &whole)?;
    Ok(regions)
}

/// The regions of the paths that can be asked for by one pattern.
pub(crate) fn regions_of_one(
    alloc: Global,
    pattern: &Pattern,
    limit: usize,
) -> Result<Vec<Region>, BuildFault>
    requires some { 0 < limit }
    requires limit { limit ≤ most_states }
    ensures regions { IfOk result (λ rs. ArePathRegionsWithin [] pattern.now rs.items) }
    ensures many_states { result ≡ Err BuildFault.TooManyStates → HasPlaces (pattern.now ∷ []) (limit + 1) }
    ensures few_states { IfOk result (λ _. HasPlaces (pattern.now ∷ []) (limit + 1) → ⊥) }
{
    let automaton = of_one(alloc, pattern, limit)?;
    let regions = path_regions_of(alloc, &automaton)?;
    Ok(regions)
}

/// Whether there is a profile of that number.
pub(crate) fn has_profile(compiled: &Compiled, number: u16) -> bool
    ensures { IsTrue result ↔ (number < length compiled.now.profiles) }
{
    (number as usize) < compiled.policy().profiles.as_slice().len()
}

/// How many patterns decide in a profile; none where it isn't there.
fn count_in_profile(compiled: &Compiled, number: u16) -> usize
    ensures { result ≡ length (deciding_at compiled.now.profiles number (slice_get compiled.now.profiles number)) }
{
    if has_profile(compiled, number) {
        return compiled.file_patterns(number)
            + compiled.top_patterns()
            + compiled.child_patterns(number);
    }
    0
}

/// How many patterns decide at a label.
pub(crate) fn deciding_count(policies: &[Compiled], label: Label) -> usize
    ensures { result ≡ length (deciding policies.now label) }
{
    let (policy, profile) = match label {
        Label::Unconfined(policy) => (policy, None),
        Label::Confined(policy, profile) => (policy, Some(profile)),
    };
    let Some(compiled) = policies.get(policy as usize) else {
        return 0;
    };
    match profile {
        Some(number) => count_in_profile(compiled, number),
        None => compiled.top_patterns(),
    }
}

/// Whether children of a profile have no attachment.
fn has_none_below(compiled: &Compiled, number: u16) -> bool
    requires { number < length compiled.now.profiles }
    ensures { IsTrue result → length (attached_patterns compiled.now.profiles (children compiled.now.profiles number)) ≡ 0 }
{
    compiled.child_patterns(number) == 0
}

/// The automaton of the patterns by which paths are answered in a profile that is there.
fn in_this_profile(
    alloc: Global,
    compiled: &Compiled,
    number: u16,
    limit: usize,
) -> Result<Automaton, BuildFault>
    requires some { 0 < limit }
    requires limit { limit ≤ most_states }
    requires there { number < length compiled.now.profiles }
    requires few { length (deciding_at compiled.now.profiles number (slice_get compiled.now.profiles number)) ≤ most_patterns }
    ensures built { IfOk result (IsBuilt (deciding_at compiled.now.profiles number (slice_get compiled.now.profiles number))) }
    ensures within { IfOk result (λ a. rows_of a ≤ limit) }
    ensures too_many { result ≡ Err BuildFault.TooManyStates → HasPlaces (deciding_at compiled.now.profiles number (slice_get compiled.now.profiles number)) (limit + 1) }
{
    let files = compiled.file_patterns(number);
    let tops = compiled.top_patterns();
    let above = Automaton::beside(
        alloc,
        compiled.file_automaton(number),
        files as u16,
        compiled.top_automaton(),
        limit,
    )?;
    if has_none_below(compiled, number) {
        return Ok(above);
    }
    Automaton::beside(
        alloc,
        &above,
        (files + tops) as u16,
        compiled.child_automaton(number),
        limit,
    )
}

/// The same; of no pattern where the profile isn't there.
fn in_profile(
    alloc: Global,
    compiled: &Compiled,
    number: u16,
    limit: usize,
) -> Result<Automaton, BuildFault>
    requires some { 0 < limit }
    requires limit { limit ≤ most_states }
    requires few { length (deciding_at compiled.now.profiles number (slice_get compiled.now.profiles number)) ≤ most_patterns }
    ensures built { IfOk result (IsBuilt (deciding_at compiled.now.profiles number (slice_get compiled.now.profiles number))) }
    ensures within { IfOk result (λ a. rows_of a ≤ limit) }
    ensures too_many { result ≡ Err BuildFault.TooManyStates → HasPlaces (deciding_at compiled.now.profiles number (slice_get compiled.now.profiles number)) (limit + 1) }
{
    if has_profile(compiled, number) {
        return in_this_profile(alloc, compiled, number, limit);
    }
    of_none(alloc, limit)
}

/// The automaton of the attachments of the top-level profiles.
fn of_tops(alloc: Global, compiled: &Compiled, limit: usize) -> Result<Automaton, BuildFault>
    requires some { 0 < limit }
    requires limit { limit ≤ most_states }
    requires few { length (attached_patterns compiled.now.profiles (tops compiled.now.profiles)) ≤ most_patterns }
    ensures built { IfOk result (IsBuilt (attached_patterns compiled.now.profiles (tops compiled.now.profiles))) }
    ensures within { IfOk result (λ a. rows_of a ≤ limit) }
    ensures too_many { result ≡ Err BuildFault.TooManyStates → HasPlaces (attached_patterns compiled.now.profiles (tops compiled.now.profiles)) (limit + 1) }
{
    let none = of_none(alloc, limit)?;
    Automaton::beside(alloc, &none, 0, compiled.top_automaton(), limit)
}

/// The automaton of the patterns by which paths are answered at a label.
pub(crate) fn deciding_automaton(
    alloc: Global,
    policies: &[Compiled],
    label: Label,
    limit: usize,
) -> Result<Automaton, BuildFault>
    requires some { 0 < limit }
    requires limit { limit ≤ most_states }
    requires few { length (deciding policies.now label) ≤ most_patterns }
    ensures built { IfOk result (IsBuilt (deciding policies.now label)) }
    ensures within { IfOk result (λ a. rows_of a ≤ limit) }
    ensures too_many { result ≡ Err BuildFault.TooManyStates → HasPlaces (deciding policies.now label) (limit + 1) }
{
    let (policy, profile) = match label {
        Label::Unconfined(policy) => (policy, None),
        Label::Confined(policy, profile) => (policy, Some(profile)),
    };
    let Some(compiled) = policies.get(policy as usize) else {
        return of_none(alloc, limit);
    };
    match profile {
        Some(number) => in_profile(alloc, compiled, number, limit),
        None => of_tops(alloc, compiled, limit),
    }
}
