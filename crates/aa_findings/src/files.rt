//! What is found of rules on files.

ghost use Rattle.std.specs.Prelude.{◌≡◌};
ghost use Rattle.std.specs.List.{list_any};
ghost use Rattle.aa_compile.specs.Said.{granted};
ghost use Rattle.aa_findings.specs.Files.{shares, applies_at, is_executed, is_unconfined_exec, is_written, is_written_exec, lacks, is_on_all, overrules, is_idle};
ghost use Rattle.aa_findings.specs.Places.{at_place, places};

use crate::exec::lets_free;
use crate::rows::Row;
use aa_base::Perms;
use aa_compile::{RuleSets, applies};
use aa_model::FileRule;
use bitflags::Flags;

/// To write and to append.
const WRITTEN: Perms = Perms(6);

fn shares(one: Perms, other: Perms) -> bool
    ensures { result ≡ shares one.0 other.0 }
{
    one.intersects(other)
}

fn granted(sets: RuleSets) -> Perms
    ensures { result.0 ≡ granted sets }
{
    sets.allow.difference(sets.deny)
}

fn applies_at(rule: &FileRule, row: &Row) -> bool
    ensures { result ≡ applies_at rule.now row.now }
{
    applies(rule, row.path.as_slice(), row.owned)
}

fn is_executed(row: &Row) -> bool
    ensures { result ≡ is_executed row.now }
{
    shares(granted(row.sets), Perms::EXEC)
}

/// Whether the rule and the profile let execute the file, and the execution may end unconfined.
pub(crate) fn is_unconfined_exec(rule: &FileRule, row: &Row) -> bool
    ensures { result ≡ is_unconfined_exec rule.now row.now }
{
    lets_free(rule) && is_executed(row) && applies_at(rule, row)
}

fn is_written(rule: &FileRule, row: &Row) -> bool
    ensures { result ≡ is_written rule.now row.now }
{
    shares(granted(row.sets), rule.perms.intersection(WRITTEN))
}

/// Whether the rule lets write the file, which may be executed in the same profile.
pub(crate) fn is_written_exec(rule: &FileRule, row: &Row) -> bool
    ensures { result ≡ is_written_exec rule.now row.now }
{
    !rule.deny && is_executed(row) && is_written(rule, row) && applies_at(rule, row)
}

fn lacks(rule: &FileRule, row: &Row) -> bool
    ensures { result ≡ lacks rule.now row.now }
{
    row.is_below && !applies(rule, row.path.as_slice(), true)
}

fn lacks_one(rows: &[Row], rule: &FileRule) -> bool
    ensures { result ≡ list_any (lacks rule.now) rows.now }
{
    rows.iter().any(|row| lacks(rule, row))
}

/// Whether the rule allows, and holds for all files.
pub(crate) fn is_on_all(rows: &[Row], rule: &FileRule) -> bool
    ensures { result ≡ is_on_all rows.now rule.now }
{
    !rule.deny && !lacks_one(rows, rule)
}

fn overrules(rule: &FileRule, row: &Row) -> bool
    ensures { result ≡ overrules rule.now row.now }
{
    shares(rule.perms, row.sets.allow) && applies_at(rule, row)
}

fn overrules_at(rows: &[Row], place: usize, rule: &FileRule) -> bool
    ensures { result ≡ at_place (overrules rule.now) rows.now place }
{
    match rows.get(place) {
        Some(row) => overrules(rule, row),
        None => false,
    }
}

fn overrules_among(rows: &[Row], applied: &[usize], rule: &FileRule) -> bool
    ensures { result ≡ list_any (at_place (overrules rule.now) rows.now) applied.now }
{
    applied.iter().any(|place| overrules_at(rows, *place, rule))
}

/// Whether the rule denies what another allows of one of the rows at which it applies.
fn overrules_one(rows: &[Row], applied: &[usize], rule: &FileRule) -> bool
    requires { applied.now ≡ places (applies_at rule.now) rows.now }
    ensures { result ≡ list_any (overrules rule.now) rows.now }
{
    overrules_among(rows, applied, rule)
}

/// Whether the rule denies, in a profile that doesn't complain, and nothing that another allows.
pub(crate) fn is_idle(complain: bool, rows: &[Row], applied: &[usize], rule: &FileRule) -> bool
    requires { applied.now ≡ places (applies_at rule.now) rows.now }
    ensures { result ≡ is_idle complain rows.now rule.now }
{
    !complain && rule.deny && !overrules_one(rows, applied, rule)
}
