//! What marks say together, when rules are gone.

ghost use Rattle.std.specs.Prelude.{◌≡◌, ◌&&◌, false, true};
ghost use Rattle.std.specs.List.{slice_get};
ghost use Rattle.std.specs.Option.{option_map_or};
ghost use Rattle.aa_compile.specs.Gathered.{picked};
ghost use Rattle.aa_compile.specs.Said.{nothing};
ghost use Rattle.aa_compile.specs.Sides.{no_choice, earlier};
ghost use Rattle.aa_redundancy.specs.Without.{marked, gone_by};
ghost use Rattle.aa_redundancy.specs.Marks.{is_sort, sets_of, choice_of, sets_by, choice_by, chosen_by, choose, led, said_by};
ghost use Rattle.aa_redundancy.specs.Tables.{Equal, RowRelated};
ghost use Rattle.aa_redundancy.specs.Covering.{AreAmong, IsWithin, LeadsAlike, Within};

use crate::marks::RuleMark;
use crate::rights::{Rights, rights_of};
use aa_base::Perms;
use aa_compile::{Chosen, RuleSets, Way};
use bitflags::Flags;

/// What replies look at of what marks say together.
#[derive(Clone, Copy, Debug, PartialEq, Eq)]
pub struct Saying {
    pub rights: Rights,
    pub chosen: Chosen,
}

pub(crate) fn is_marked(flags: &[bool], number: usize) -> bool
    ensures { result ≡ marked flags.now number }
{
    match flags.get(number) {
        Some(flag) => *flag,
        None => false,
    }
}

/// Whether a rule is gone, where those that are marked are, or all others.
fn is_gone(flags: &[bool], gone: bool, rule: usize) -> bool
    ensures { result ≡ gone_by gone flags.now rule }
{
    let marked = is_marked(flags, rule);
    if gone { marked } else { !marked }
}

fn sets_of(mark: &RuleMark, owned: bool, flags: &[bool], gone: bool) -> RuleSets
    ensures { result ≡ sets_of (gone_by gone flags.now) owned mark.now }
{
    if !owned && mark.mark.owner || is_gone(flags, gone, mark.rule) {
        return RuleSets::none();
    }
    RuleSets::said(mark.mark.audit, mark.mark.deny, mark.mark.perms)
}

fn sets_at(marks: &[RuleMark], number: usize, owned: bool, flags: &[bool], gone: bool) -> RuleSets
    ensures { result ≡ option_map_or (sets_of (gone_by gone flags.now) owned) (slice_get marks.now number) nothing }
{
    match marks.get(number) {
        Some(mark) => sets_of(mark, owned, flags, gone),
        None => RuleSets::none(),
    }
}

fn sets_by(marks: &[RuleMark], row: &[usize], owned: bool, flags: &[bool], gone: bool) -> RuleSets
    ensures { result ≡ sets_by (gone_by gone flags.now) owned (picked marks.now row.now) }
{
    let mut sets = RuleSets::none();
    for number in row {
        sets = sets.with(sets_at(marks, *number, owned, flags, gone));
    }
    sets
}

fn no_choice() -> Chosen
    ensures { result ≡ no_choice }
{
    Chosen {
        way: None,
        audited: false,
    }
}

fn earlier(one: Chosen, other: Chosen) -> Chosen
    ensures { result ≡ earlier one other }
{
    Chosen {
        way: one.way.or(other.way),
        audited: one.audited || other.audited,
    }
}

fn is_sort(mark: &RuleMark, literal: bool) -> bool
    ensures { result ≡ is_sort literal mark.now }
{
    !literal || mark.mark.literal
}

fn choice_of(mark: &RuleMark, literal: bool, owned: bool, flags: &[bool], gone: bool) -> Chosen
    ensures { result ≡ choice_of (gone_by gone flags.now) literal owned mark.now }
{
    if !is_sort(mark, literal) || !owned && mark.mark.owner {
        return no_choice();
    }
    if mark.mark.deny || mark.mark.way.is_none() || is_gone(flags, gone, mark.rule) {
        return no_choice();
    }
    Chosen {
        way: mark.mark.way,
        audited: mark.mark.audit,
    }
}

fn choice_at(
    marks: &[RuleMark],
    number: usize,
    literal: bool,
    owned: bool,
    flags: &[bool],
    gone: bool,
) -> Chosen
    ensures { result ≡ option_map_or (choice_of (gone_by gone flags.now) literal owned) (slice_get marks.now number) no_choice }
{
    match marks.get(number) {
        Some(mark) => choice_of(mark, literal, owned, flags, gone),
        None => no_choice(),
    }
}

fn choice_by(
    marks: &[RuleMark],
    row: &[usize],
    literal: bool,
    owned: bool,
    flags: &[bool],
    gone: bool,
) -> Chosen
    ensures { result ≡ choice_by (gone_by gone flags.now) literal owned (picked marks.now row.now) }
{
    let mut choice = no_choice();
    for number in row {
        choice = earlier(
            choice,
            choice_at(marks, *number, literal, owned, flags, gone),
        );
    }
    choice
}

/// By the literal ones, or else by all.
fn chosen_by(marks: &[RuleMark], row: &[usize], owned: bool, flags: &[bool], gone: bool) -> Chosen
    ensures { result ≡ chosen_by (gone_by gone flags.now) owned (picked marks.now row.now) }
{
    let literal = choice_by(marks, row, true, owned, flags, gone);
    if literal.way.is_some() {
        return literal;
    }
    choice_by(marks, row, false, owned, flags, gone)
}

/// What the marks of a row say of the owner or of others, when rules are gone.
fn said_by(marks: &[RuleMark], row: &[usize], owned: bool, flags: &[bool], gone: bool) -> Saying
    ensures { result ≡ said_by (gone_by gone flags.now) owned (picked marks.now row.now) }
{
    let sets = sets_by(marks, row, owned, flags, gone);
    let chosen = if sets.deny.contains(Perms::EXEC) {
        no_choice()
    } else {
        chosen_by(marks, row, owned, flags, gone)
    };
    Saying {
        rights: rights_of(sets),
        chosen,
    }
}

fn same_way(one: Option<Way>, other: Option<Way>) -> bool
    ensures same { result ≡ true → one ≡ other }
    ensures differs { result ≡ false → one ≡ other → ⊥ }
{
    match (one, other) {
        (Some(one), Some(other)) => one == other,
        (None, None) => true,
        _ => false,
    }
}

fn same_rights(one: Rights, other: Rights) -> bool
    ensures same { result ≡ true → one ≡ other }
    ensures differs { result ≡ false → one ≡ other → ⊥ }
{
    one == other
}

/// Whether both are the same.
fn are_same(one: Saying, other: Saying) -> bool
    ensures same { result ≡ true → one ≡ other }
    ensures differs { result ≡ false → one ≡ other → ⊥ }
{
    let rights = same_rights(one.rights, other.rights);
    if !rights {
        return false;
    }
    if one.chosen.audited != other.chosen.audited {
        return false;
    }
    same_way(one.chosen.way, other.chosen.way)
}

/// Whether the marks of a row say the same of the owner or of others when rules are gone as when others are.
fn same_saying(
    marks: &[RuleMark],
    row: &[usize],
    owned: bool,
    gone: &[bool],
    others: &[bool],
) -> bool
    ensures same { result ≡ true → said_by (marked gone.now) owned (picked marks.now row.now) ≡ said_by (marked others.now) owned (picked marks.now row.now) }
    ensures differs { result ≡ false → said_by (marked gone.now) owned (picked marks.now row.now) ≡ said_by (marked others.now) owned (picked marks.now row.now) → ⊥ }
{
    let one = said_by(marks, row, owned, gone, true);
    let other = said_by(marks, row, owned, others, true);
    are_same(one, other)
}

/// Whether they say the same of both.
pub(crate) fn same_row(marks: &[RuleMark], row: &[usize], gone: &[bool], others: &[bool]) -> bool
    ensures same { result ≡ true → RowRelated Equal marks.now (marked gone.now) (marked others.now) row.now }
    ensures differs { result ≡ false → RowRelated Equal marks.now (marked gone.now) (marked others.now) row.now → ⊥ }
{
    let of_owner = same_saying(marks, row, true, gone, others);
    if !of_owner {
        return false;
    }
    same_saying(marks, row, false, gone, others)
}

/// Whether these permissions are among those.
fn are_among(these: Perms, those: Perms) -> bool
    ensures same { result ≡ true → AreAmong these those }
    ensures differs { result ≡ false → AreAmong these those → ⊥ }
{
    these.0 & those.0 == these.0
}

fn is_within(one: Rights, other: Rights) -> bool
    ensures same { result ≡ true → IsWithin one other }
    ensures differs { result ≡ false → IsWithin one other → ⊥ }
{
    let granted = are_among(one.granted, other.granted);
    if !granted {
        return false;
    }
    are_among(one.denied, other.denied)
}

/// Whether a way leads nowhere, or where the other leads.
fn leads_alike(one: Option<Way>, other: Option<Way>) -> bool
    ensures same { result ≡ true → LeadsAlike one other }
    ensures differs { result ≡ false → LeadsAlike one other → ⊥ }
{
    if one.is_none() {
        return true;
    }
    same_way(one, other)
}

/// Whether what is said is said by the others too.
fn is_said_by(one: Saying, other: Saying) -> bool
    ensures same { result ≡ true → Within one other }
    ensures differs { result ≡ false → Within one other → ⊥ }
{
    let rights = is_within(one.rights, other.rights);
    if !rights {
        return false;
    }
    leads_alike(one.chosen.way, other.chosen.way)
}

/// Whether what the marked rules of a row say of the owner or of others is said by those that aren't gone.
fn within_saying(
    marks: &[RuleMark],
    row: &[usize],
    owned: bool,
    only: &[bool],
    gone: &[bool],
) -> bool
    ensures same { result ≡ true → Within (said_by (gone_by false only.now) owned (picked marks.now row.now)) (said_by (marked gone.now) owned (picked marks.now row.now)) }
    ensures differs { result ≡ false → Within (said_by (gone_by false only.now) owned (picked marks.now row.now)) (said_by (marked gone.now) owned (picked marks.now row.now)) → ⊥ }
{
    let one = said_by(marks, row, owned, only, false);
    let other = said_by(marks, row, owned, gone, true);
    is_said_by(one, other)
}

/// Whether it is of both.
pub(crate) fn within_row(marks: &[RuleMark], row: &[usize], only: &[bool], gone: &[bool]) -> bool
    ensures same { result ≡ true → RowRelated Within marks.now (gone_by false only.now) (marked gone.now) row.now }
    ensures differs { result ≡ false → RowRelated Within marks.now (gone_by false only.now) (marked gone.now) row.now → ⊥ }
{
    let of_owner = within_saying(marks, row, true, only, gone);
    if !of_owner {
        return false;
    }
    within_saying(marks, row, false, only, gone)
}
