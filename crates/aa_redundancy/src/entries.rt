//! The tables of rules on capabilities and on sockets.

ghost use Rattle.std.specs.Prelude.{◌≡◌, ◌<◌, ◌/◌, ◌%◌, ◌++◌, ◌∷◌, [], IfOk, OnOk, if◌then◌else◌};
ghost use Rattle.aa_compile.specs.Holding.{holds, cap_holds, net_holds};
ghost use Rattle.aa_redundancy.specs.Without.{without};
ghost use Rattle.aa_redundancy.specs.Sameness.{SameCaps, SameNets};
ghost use Rattle.aa_redundancy.specs.Covering.{Within, CapsWithin, NetsWithin};
ghost use Rattle.aa_redundancy.specs.Tables.{Equal, Decides};
ghost use Rattle.aa_redundancy.specs.Plain.{cap_marks, net_marks, cap_row, net_row, HasRows};

use crate::marks::{RuleMark, plain_mark};
use crate::tables::Table;
use aa_base::Seq;
use aa_model::{CapRule, NetRule};
use std::alloc::{AllocError, Global};

/// How many capabilities there are.
const CAPS: usize = 41;

/// How many families of sockets there are.
const FAMILIES: usize = 44;

/// How many types of sockets there are.
const TYPES: usize = 6;

/// Adds a number, where its rule holds.
pub(crate) fn push_if(row: &mut Vec<usize>, number: usize, holds: bool) -> Result<(), AllocError>
    ensures { OnOk result (row.new.items ≡ row.old.items ++ (if holds then number ∷ [] else [])) }
{
    if holds {
        row.push(number)?;
    }
    Ok(())
}

fn holds_bit(bits: u64, number: usize) -> bool
    ensures { result ≡ holds bits number }
{
    if number >= 64 {
        return false;
    }
    (bits >> number) & 1 == 1
}

fn holds_cap(rule: &CapRule, cap: usize) -> bool
    ensures { result ≡ cap_holds cap rule.now }
{
    holds_bit(rule.caps.0, cap)
}

fn holds_net(rule: &NetRule, family: usize, kind: usize) -> bool
    ensures { result ≡ net_holds family kind rule.now }
{
    holds_bit(rule.families, family) && holds_bit(rule.kinds as u64, kind)
}

fn marks_of_caps(alloc: Global, rules: &[CapRule]) -> Result<Vec<RuleMark>, AllocError>
    ensures { IfOk result (λ marks. marks.items ≡ cap_marks 0 rules.now) }
{
    let mut marks = Vec::new(alloc);
    for (number, rule) in rules.iter().enumerate() {
        marks.push(plain_mark(number, rule.audit, rule.deny))?;
    }
    Ok(marks)
}

fn marks_of_nets(alloc: Global, rules: &[NetRule]) -> Result<Vec<RuleMark>, AllocError>
    ensures { IfOk result (λ marks. marks.items ≡ net_marks 0 rules.now) }
{
    let mut marks = Vec::new(alloc);
    for (number, rule) in rules.iter().enumerate() {
        marks.push(plain_mark(number, rule.audit, rule.deny))?;
    }
    Ok(marks)
}

/// The rules that name a capability.
fn row_of_cap(alloc: Global, rules: &[CapRule], cap: usize) -> Result<Seq<usize>, AllocError>
    ensures { IfOk result (λ row. row ≡ cap_row rules.now cap) }
{
    let mut row = Vec::new(alloc);
    for number in 0..rules.len() {
        push_if(&mut row, number, holds_cap(&rules[number], cap))?;
    }
    Ok(Seq::from_vec(row))
}

/// The rules that name a family and a type.
fn row_of_net(
    alloc: Global,
    rules: &[NetRule],
    family: usize,
    kind: usize,
) -> Result<Seq<usize>, AllocError>
    ensures { IfOk result (λ row. row ≡ net_row rules.now family kind) }
{
    let mut row = Vec::new(alloc);
    for number in 0..rules.len() {
        push_if(&mut row, number, holds_net(&rules[number], family, kind))?;
    }
    Ok(Seq::from_vec(row))
}

fn rows_of_caps(alloc: Global, rules: &[CapRule]) -> Result<Vec<Seq<usize>>, AllocError>
    ensures { IfOk result (λ rows. HasRows (cap_row rules.now) 41 rows.items) }
{
    let mut rows = Vec::new(alloc);
    for cap in 0..CAPS {
        rows.push(row_of_cap(alloc, rules, cap)?)?;
    }
    Ok(rows)
}

fn rows_of_nets(alloc: Global, rules: &[NetRule]) -> Result<Vec<Seq<usize>>, AllocError>
    ensures { IfOk result (λ rows. HasRows (λ n. net_row rules.now (n / 6) (n % 6)) 264 rows.items) }
{
    let mut rows = Vec::new(alloc);
    for number in 0..FAMILIES * TYPES {
        rows.push(row_of_net(alloc, rules, number / TYPES, number % TYPES)?)?;
    }
    Ok(rows)
}

/// A row for each capability.
pub(crate) fn table_of_caps(alloc: Global, rules: &[CapRule]) -> Result<Table, AllocError>
    ensures alike { IfOk result (λ t. Decides Equal t (λ gone others. SameCaps (without gone rules.now) (without others rules.now))) }
    ensures within { IfOk result (λ t. Decides Within t (λ gone others. CapsWithin (without gone rules.now) (without others rules.now))) }
{
    let marks = marks_of_caps(alloc, rules)?;
    let rows = rows_of_caps(alloc, rules)?;
    Ok(Table { marks, rows })
}

/// A row for each family and each type.
pub(crate) fn table_of_nets(alloc: Global, rules: &[NetRule]) -> Result<Table, AllocError>
    ensures alike { IfOk result (λ t. Decides Equal t (λ gone others. SameNets (without gone rules.now) (without others rules.now))) }
    ensures within { IfOk result (λ t. Decides Within t (λ gone others. NetsWithin (without gone rules.now) (without others rules.now))) }
{
    let marks = marks_of_nets(alloc, rules)?;
    let rows = rows_of_nets(alloc, rules)?;
    Ok(Table { marks, rows })
}
