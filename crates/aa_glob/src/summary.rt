//! What is known of the texts of a variable before any of them is built.

ghost use Rattle.std.specs.Prelude.{◌≡◌, ◌↔◌, ◌⊎◌, IsTrue, ◌<◌, ◌||◌, ℕ, suc, List, map, false, Some, IfOk, IfErr};
ghost use Rattle.aa_glob.specs.Variables.{Variable, values_of};
ghost use Rattle.aa_glob.specs.Expansions.{alone, outcome, outcome_of, is_reserved};
ghost use Rattle.aa_glob.specs.Settled.{Settled, AreEnds, times, plus};
ghost use Rattle.aa_glob.specs.Pieces.{Use, pieces};
ghost use Rattle.aa_glob.specs.Known.{IsKnown, AreKnown, AreTextsKnown, AreRight, found};
ghost use Rattle.aa_glob.specs.Parts.{piece_of};

use crate::pieces::{Part, next_part};
use aa_base::PolicyKind;
use std::alloc::Global;
use std::collections::BTreeMap;

/// How many texts a word or a variable may have.
pub(crate) const MAX_TEXTS: usize = 1024;

/// Of texts: how many there are, where more than 1,025 count as 1,025; whether they or a variable on the way have more than
/// 1,024; and whether it is known that none has a byte.
#[derive(Clone, Copy, Debug)]
pub(crate) struct Summary {
    pub count: usize,
    pub many: bool,
    pub blank: bool,
}

/// Of a variable: the summary of its texts, and how many texts each value has with those before it.
#[derive(Debug, Drop)]
pub(crate) struct VariableSummary {
    pub texts: Summary,
    pub ends: Vec<usize>,
}

/// The variables whose walk is done, and those on whose walk we are.
pub(crate) type Done<'t> = BTreeMap<&'t [u8], Option<VariableSummary>>;

impl Summary {
    /// Each text of the one followed by each of the other.
    fn times(self, other: Summary) -> Summary
        ensures { result ≡ times self other }
    {
        Summary {
            count: self.count.saturating_mul(other.count).min(MAX_TEXTS + 1),
            many: self.many || other.many,
            blank: self.blank && other.blank,
        }
    }

    /// The texts of the values so far and then those of one more.
    fn plus(self, other: Summary) -> Summary
        ensures { result ≡ plus self other }
    {
        Summary {
            count: self.count.saturating_add(other.count).min(MAX_TEXTS + 1),
            many: self.many || other.many,
            blank: self.blank && other.blank,
        }
    }
}

impl Summary {
    /// A variable counts its own texts.
    fn counted(self) -> Summary
        ensures count { result.count ≡ self.count }
        ensures many { IsTrue result.many ↔ (IsTrue self.many ⊎ (1024 < self.count)) }
        ensures blank { result.blank ≡ self.blank }
    {
        Summary {
            count: self.count,
            many: self.many || MAX_TEXTS < self.count,
            blank: self.blank,
        }
    }
}

/// The summary of a variable that is done.
pub(crate) fn known_summary<'d>(name: &[u8], done: &'d Done<'_>) -> &'d VariableSummary
    requires { IsKnown done.now.entries (Use name.now) }
    ensures { found name.now done.now.entries ≡ Some (Some result.now) }
{
    match done.get(name) {
        Some(Some(known)) => known,
        _ => unreachable!(),
    }
}

/// The summary of one part, a byte or a variable that is done.
#[tactic(auto, using(crate::proofs::Summaries::byte_alone))]
fn part_summary(part: Part<'_>, done: &Done<'_>) -> Summary
    requires { IsKnown done.now.entries (piece_of part) }
    ensures { (depth : ℕ) (vars : List Variable) → AreRight depth vars done.now.entries → Settled (alone (outcome depth vars) (piece_of part.entry)) result }
{
    match part {
        Part::Plain(_) => Summary {
            count: 1,
            many: false,
            blank: false,
        },
        Part::Use(name) => known_summary(name, done).texts,
        Part::Broken => unreachable!(),
    }
}

/// The summary of a text whose variables are all done.
pub(crate) fn text_summary(text: &[u8], done: &Done<'_>) -> Summary
    requires { AreKnown done.now.entries (pieces text.now) }
    ensures { (depth : ℕ) (vars : List Variable) → AreRight depth vars done.now.entries → Settled (outcome_of depth vars text.now) result }
{
    let mut rest = text;
    let mut kept = false;
    let mut summary = Summary {
        count: 1,
        many: false,
        blank: true,
    };
    while let Some((part, behind, keep)) = next_part(rest, kept) {
        summary = summary.times(part_summary(part, done));
        rest = behind;
        kept = keep;
    }
    summary
}

/// The summary of a variable with these values, whose variables are all done.
pub(crate) fn variable_summary(
    alloc: Global,
    values: &[Vec<u8>],
    done: &Done<'_>,
) -> Result<VariableSummary, PolicyKind>
    requires { AreTextsKnown done.now.entries (map (λ v. v.items) values.now) }
    ensures texts { IfOk result (λ s. (depth : ℕ) (vars : List Variable) (name : List ℕ) → AreRight depth vars done.now.entries → is_reserved name ≡ false
        → values_of vars name ≡ Some (map (λ v. v.items) values.now) → Settled (outcome (suc depth) vars name) s.texts) }
    ensures ends { IfOk result (λ s. (depth : ℕ) (vars : List Variable) → AreRight depth vars done.now.entries → AreEnds vars 0 (map (λ v. v.items) values.now) s.ends.items) }
    ensures err { IfErr result (λ e. e ≡ PolicyKind.NoMemory) }
{
    let mut ends: Vec<usize> = Vec::with_capacity(alloc, values.len())?;
    let mut summary = Summary {
        count: 0,
        many: false,
        blank: true,
    };
    for value in values {
        summary = summary.plus(text_summary(value.as_slice(), done));
        ends.push(summary.count)?;
    }
    Ok(VariableSummary {
        texts: summary.counted(),
        ends,
    })
}
