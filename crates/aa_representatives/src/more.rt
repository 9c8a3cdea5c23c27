//! The automata of the patterns by which paths are answered at a label, or at two, with one pattern more.

ghost use Rattle.std.specs.Prelude.{◌≡◌, ◌+◌, ◌<◌, ◌≤◌, ◌++◌, ◌∷◌, [], Err, IfOk, length};
ghost use Rattle.std.specs.List.{slice_get};
ghost use Rattle.aa_pattern.specs.Limits.{most_patterns, most_states};
ghost use Rattle.aa_auto.specs.Pairs.{IsBuilt};
ghost use Rattle.aa_auto.specs.Tables.{HasPlaces, rows_of};
ghost use Rattle.aa_representatives.specs.Alike.{deciding, filing, filing_at};
ghost use Rattle.aa_representatives.specs.Both.{deciding_both, filing_both};

use crate::automata::{deciding_automaton, deciding_count, has_profile, of_none, of_one};
use aa_auto::{Automaton, BuildFault};
use aa_compile::Compiled;
use aa_model::Label;
use aa_pattern::Pattern;
use std::alloc::Global;

/// How many patterns the file rules of a profile have; none where it isn't there.
fn filing_count_in(compiled: &Compiled, number: u16) -> usize
    ensures { result ≡ length (filing_at (slice_get compiled.now.profiles number)) }
{
    if has_profile(compiled, number) {
        return compiled.file_patterns(number);
    }
    0
}

/// How many patterns the file rules of the label's profile have.
pub(crate) fn filing_count(policies: &[Compiled], label: Label) -> usize
    ensures { result ≡ length (filing policies.now label) }
{
    let Label::Confined(policy, number) = label else {
        return 0;
    };
    match policies.get(policy as usize) {
        Some(compiled) => filing_count_in(compiled, number),
        None => 0,
    }
}

/// The automaton of the file rules of a profile; that of no pattern where the profile isn't there.
fn filing_in<'a>(compiled: &'a Compiled, number: u16, none: &'a Automaton) -> &'a Automaton
    requires { IsBuilt [] none.now }
    ensures { IsBuilt (filing_at (slice_get compiled.now.profiles number)) result.now }
{
    if has_profile(compiled, number) {
        return compiled.file_automaton(number);
    }
    none
}

/// The automaton of the file rules of the label's profile; that of no pattern where there is none.
fn filing_automaton<'a>(
    policies: &'a [Compiled],
    label: Label,
    none: &'a Automaton,
) -> &'a Automaton
    requires { IsBuilt [] none.now }
    ensures { IsBuilt (filing policies.now label) result.now }
{
    let Label::Confined(policy, number) = label else {
        return none;
    };
    match policies.get(policy as usize) {
        Some(compiled) => filing_in(compiled, number, none),
        None => none,
    }
}

/// The automaton of the file rules of the profiles of two labels, each in policies of its own.
pub(crate) fn filing_automaton_of_both(
    alloc: Global,
    one: &[Compiled],
    from: Label,
    other: &[Compiled],
    to: Label,
    limit: usize,
) -> Result<Automaton, BuildFault>
    requires some { 0 < limit }
    requires limit { limit ≤ most_states }
    requires few { length (filing_both one.now from other.now to) ≤ most_patterns }
    ensures built { IfOk result (IsBuilt (filing_both one.now from other.now to)) }
    ensures too_many { result ≡ Err BuildFault.TooManyStates → HasPlaces (filing_both one.now from other.now to) (limit + 1) }
{
    let none = of_none(alloc, limit)?;
    let count = filing_count(one, from);
    let before = filing_automaton(one, from, &none);
    let after = filing_automaton(other, to, &none);
    Automaton::beside(alloc, before, count as u16, after, limit)
}

/// The automaton of these, which are `count`, and one pattern behind them.
pub(crate) fn filing_automaton_of_both_and(
    alloc: Global,
    one: &[Compiled],
    from: Label,
    other: &[Compiled],
    to: Label,
    count: usize,
    more: &Pattern,
    limit: usize,
) -> Result<Automaton, BuildFault>
    requires some { 0 < limit }
    requires limit { limit ≤ most_states }
    requires count { length (filing_both one.now from other.now to) ≡ count }
    requires few { count < most_patterns }
    ensures built { IfOk result (IsBuilt (filing_both one.now from other.now to ++ more.now ∷ [])) }
    ensures too_many { result ≡ Err BuildFault.TooManyStates → HasPlaces (filing_both one.now from other.now to ++ more.now ∷ []) (limit + 1) }
{
    let both = filing_automaton_of_both(alloc, one, from, other, to, limit)?;
    let last = of_one(alloc, more, limit)?;
    Automaton::beside(alloc, &both, count as u16, &last, limit)
}

/// The automaton of a pattern and, behind it, those of the file rules of a profile that is there.
fn filing_in_this_and(
    alloc: Global,
    compiled: &Compiled,
    number: u16,
    more: &Pattern,
    limit: usize,
) -> Result<Automaton, BuildFault>
    requires some { 0 < limit }
    requires limit { limit ≤ most_states }
    requires there { number < length compiled.now.profiles }
    requires few { length (filing_at (slice_get compiled.now.profiles number)) < most_patterns }
    ensures built { IfOk result (IsBuilt (more.now ∷ filing_at (slice_get compiled.now.profiles number))) }
    ensures within { IfOk result (λ a. rows_of a ≤ limit) }
    ensures too_many { result ≡ Err BuildFault.TooManyStates → HasPlaces (more.now ∷ filing_at (slice_get compiled.now.profiles number)) (limit + 1) }
{
    let first = of_one(alloc, more, limit)?;
    Automaton::beside(alloc, &first, 1, compiled.file_automaton(number), limit)
}

/// The same; of the one pattern where the profile isn't there.
fn filing_in_and(
    alloc: Global,
    compiled: &Compiled,
    number: u16,
    more: &Pattern,
    limit: usize,
) -> Result<Automaton, BuildFault>
    requires some { 0 < limit }
    requires limit { limit ≤ most_states }
    requires few { length (filing_at (slice_get compiled.now.profiles number)) < most_patterns }
    ensures built { IfOk result (IsBuilt (more.now ∷ filing_at (slice_get compiled.now.profiles number))) }
    ensures within { IfOk result (λ a. rows_of a ≤ limit) }
    ensures too_many { result ≡ Err BuildFault.TooManyStates → HasPlaces (more.now ∷ filing_at (slice_get compiled.now.profiles number)) (limit + 1) }
{
    if has_profile(compiled, number) {
        return filing_in_this_and(alloc, compiled, number, more, limit);
    }
    of_one(alloc, more, limit)
}

/// The automaton of a pattern and, behind it, those of the file rules of the label's profile.
pub(crate) fn filing_automaton_and(
    alloc: Global,
    policies: &[Compiled],
    label: Label,
    more: &Pattern,
    limit: usize,
) -> Result<Automaton, BuildFault>
    requires some { 0 < limit }
    requires limit { limit ≤ most_states }
    requires few { length (filing policies.now label) < most_patterns }
    ensures built { IfOk result (IsBuilt (more.now ∷ filing policies.now label)) }
    ensures within { IfOk result (λ a. rows_of a ≤ limit) }
    ensures too_many { result ≡ Err BuildFault.TooManyStates → HasPlaces (more.now ∷ filing policies.now label) (limit + 1) }
{
    let Label::Confined(policy, number) = label else {
        return of_one(alloc, more, limit);
    };
    let Some(compiled) = policies.get(policy as usize) else {
        return of_one(alloc, more, limit);
    };
    filing_in_and(alloc, compiled, number, more, limit)
}

/// The automaton of a pattern and, behind it, those by which paths are answered at a label.
pub(crate) fn deciding_automaton_and(
    alloc: Global,
    policies: &[Compiled],
    label: Label,
    more: &Pattern,
    limit: usize,
) -> Result<Automaton, BuildFault>
    requires some { 0 < limit }
    requires limit { limit ≤ most_states }
    requires few { length (deciding policies.now label) < most_patterns }
    ensures built { IfOk result (IsBuilt (more.now ∷ deciding policies.now label)) }
    ensures within { IfOk result (λ a. rows_of a ≤ limit) }
    ensures too_many { result ≡ Err BuildFault.TooManyStates → HasPlaces (more.now ∷ deciding policies.now label) (limit + 1) }
{
    let first = of_one(alloc, more, limit)?;
    let others = deciding_automaton(alloc, policies, label, limit)?;
    Automaton::beside(alloc, &first, 1, &others, limit)
}

/// The automaton of the patterns by which paths are answered at one of two labels, each in policies of its own.
fn automaton_of_both(
    alloc: Global,
    one: &[Compiled],
    from: Label,
    other: &[Compiled],
    to: Label,
    limit: usize,
) -> Result<Automaton, BuildFault>
    requires some { 0 < limit }
    requires limit { limit ≤ most_states }
    requires few { length (deciding_both one.now from other.now to) ≤ most_patterns }
    ensures built { IfOk result (IsBuilt (deciding_both one.now from other.now to)) }
    ensures too_many { result ≡ Err BuildFault.TooManyStates → HasPlaces (deciding_both one.now from other.now to) (limit + 1) }
{
    let count = deciding_count(one, from);
    let before = deciding_automaton(alloc, one, from, limit)?;
    let after = deciding_automaton(alloc, other, to, limit)?;
    Automaton::beside(alloc, &before, count as u16, &after, limit)
}

/// The automaton of these, which are `count`, and one pattern behind them.
pub(crate) fn automaton_of_both_and(
    alloc: Global,
    one: &[Compiled],
    from: Label,
    other: &[Compiled],
    to: Label,
    count: usize,
    more: &Pattern,
    limit: usize,
) -> Result<Automaton, BuildFault>
    requires some { 0 < limit }
    requires limit { limit ≤ most_states }
    requires count { length (deciding_both one.now from other.now to) ≡ count }
    requires few { count < most_patterns }
    ensures built { IfOk result (IsBuilt (deciding_both one.now from other.now to ++ more.now ∷ [])) }
    ensures within { IfOk result (λ a. rows_of a ≤ limit) }
    ensures too_many { result ≡ Err BuildFault.TooManyStates → HasPlaces (deciding_both one.now from other.now to ++ more.now ∷ []) (limit + 1) }
{
    let both = automaton_of_both(alloc, one, from, other, to, limit)?;
    let last = of_one(alloc, more, limit)?;
    Automaton::beside(alloc, &both, count as u16, &last, limit)
}
