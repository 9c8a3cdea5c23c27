//! What the rules say of the objects at a row, for their owner or for others.

ghost use Rattle.std.specs.Prelude.{◌≡◌};
ghost use Rattle.std.specs.Option.{option_map_or};
ghost use Rattle.std.specs.List.{slice_get};
ghost use Rattle.aa_compile.specs.Rows.{choice_of, settled};
ghost use Rattle.aa_compile.specs.Gathered.{picked};
ghost use Rattle.aa_compile.specs.Sides.{earlier, choice_if, none_said, joined, one, side_by};

use crate::mark::{Mark, Way};
use crate::sets::RuleSets;

/// How a program is executed by the first of some rules, and whether one of them reports it.
#[derive(Clone, Copy, Debug, PartialEq, Eq)]
pub struct Chosen {
    pub way: Option<Way>,
    pub audited: bool,
}

/// What the rules that apply to an object say: its chosen rules on execution are those that match by a literal pattern, or
/// else all.
#[derive(Clone, Copy, Debug, PartialEq, Eq)]
pub struct Verdict {
    pub sets: RuleSets,
    pub chosen: Chosen,
}

/// What marks say together, before the literal ones are chosen.
#[derive(Clone, Copy, Debug, PartialEq, Eq)]
pub(crate) struct Side {
    pub(crate) sets: RuleSets,
    /// Of the allow rules on execution, those that match by a literal pattern.
    pub(crate) literal: Chosen,
    /// All of them.
    pub(crate) any: Chosen,
}

fn chosen_if(test: bool, mark: &Mark) -> Chosen
    ensures { result ≡ choice_if test mark.now }
{
    if test && mark.way.is_some() {
        Chosen {
            way: mark.way,
            audited: mark.audit,
        }
    } else {
        Chosen {
            way: None,
            audited: false,
        }
    }
}

impl Chosen {
    /// This one, or else that.
    fn or(self, other: Chosen) -> Chosen
        ensures { result ≡ earlier self other }
    {
        Chosen {
            way: self.way.or(other.way),
            audited: self.audited || other.audited,
        }
    }
}

impl Side {
    /// The literal choice, or else that of all.
    fn chosen(&self) -> Chosen
        ensures { result ≡ choice_of self.now }
    {
        if self.literal.way.is_some() {
            self.literal
        } else {
            self.any
        }
    }

    /// What is kept of them.
    pub(crate) fn settled(&self) -> Verdict
        ensures { result ≡ settled self.now }
    {
        Verdict {
            sets: self.sets,
            chosen: self.chosen(),
        }
    }

    fn none() -> Side
        ensures { result ≡ none_said }
    {
        Side {
            sets: RuleSets::none(),
            literal: Chosen {
                way: None,
                audited: false,
            },
            any: Chosen {
                way: None,
                audited: false,
            },
        }
    }

    fn of_mark(mark: &Mark, owned: bool) -> Side
        ensures { result ≡ one owned mark.now }
    {
        if !owned && mark.owner {
            return Side::none();
        }
        Side {
            sets: RuleSets::said(mark.audit, mark.deny, mark.perms),
            literal: chosen_if(!mark.deny && mark.literal, mark),
            any: chosen_if(!mark.deny, mark),
        }
    }

    // The join is associative, repeats don't matter, and an empty one is neutral: so what patterns give is what rules give.
    fn with(self, other: Side) -> Side
        ensures { result ≡ joined self other }
    {
        Side {
            sets: self.sets.with(other.sets),
            literal: self.literal.or(other.literal),
            any: self.any.or(other.any),
        }
    }

    /// What the rule of a pattern says.
    fn at(marks: &[Mark], number: u16, owned: bool) -> Side
        ensures { result ≡ option_map_or (one owned) (slice_get marks.now number) none_said }
    {
        match marks.get(number as usize) {
            Some(mark) => Side::of_mark(mark, owned),
            None => Side::none(),
        }
    }

    /// What the rules of these patterns say.
    pub(crate) fn of(marks: &[Mark], numbers: &[u16], owned: bool) -> Side
        ensures { result ≡ side_by owned (picked marks.now numbers.now) }
    {
        let mut side = Side::none();
        for number in numbers {
            side = side.with(Side::at(marks, *number, owned));
        }
        side
    }
}
