//! The automaton of a profile's file rules, and what they say at each of its lists.

ghost use Rattle.std.specs.Prelude.{◌≡◌, ◌+◌, ◌<◌, ◌≤◌, ◌++◌, IfOk, OnOk, Err, length};
ghost use Rattle.aa_pattern.specs.Limits.{most_patterns, most_states};
ghost use Rattle.aa_auto.specs.Nodes.{pointed};
ghost use Rattle.aa_auto.specs.Pairs.{TellsBytes};
ghost use Rattle.aa_auto.specs.Tables.{HasPlaces, IsAutomaton, list_at, place_of, rows_of as states_of};
ghost use Rattle.aa_compile.specs.Ways.{numbered, way_by};
ghost use Rattle.aa_compile.specs.Gathered.{picked};
ghost use Rattle.aa_compile.specs.Marks.{marks_by};
ghost use Rattle.aa_compile.specs.Rows.{row_by, rows_by, verdict_at, verdict_of, patterns_of, AreRowsOf, fault_of};
ghost use Rattle.aa_compile.specs.Patterns.{HasAutomaton};
ghost use Rattle.aa_compile.specs.FileRules.{Conflicts};

use crate::conflicts::has_conflict;
use crate::mark::{Mark, marks_of};
use crate::side::{Side, Verdict};
use crate::ways::ways_of;
use aa_auto::{Automaton, BuildFault};
use aa_model::FileRule;
use aa_pattern::Pattern;
use std::alloc::{AllocError, Global};
use std::marker::Model;

/// What the rules say where a path leads to a row with a list of patterns.
#[derive(Clone, Copy, Debug, PartialEq, Eq)]
pub struct Row {
    /// Of objects that the task's user owns.
    pub owned: Verdict,
    /// Of others.
    pub other: Verdict,
}

impl Row {
    fn of(marks: &[Mark], numbers: &[u16]) -> Row
        ensures { result ≡ row_by (picked marks.now numbers.now) }
    {
        Row {
            owned: Side::of(marks, numbers, true).settled(),
            other: Side::of(marks, numbers, false).settled(),
        }
    }

    fn verdict(&self, owned: bool) -> Verdict
        ensures { result ≡ verdict_of owned self.now }
    {
        if owned { self.owned } else { self.other }
    }
}

fn add_patterns<'a>(
    pointers: &mut Vec<&'a Pattern>,
    patterns: &'a [Pattern],
) -> Result<(), AllocError>
    ensures { OnOk result (pointed pointers.new.items ≡ pointed pointers.old.items ++ patterns.now) }
{
    for pattern in patterns {
        pointers.push(pattern)?;
    }
    Ok(())
}

/// The patterns of the rules, in order.
fn pointers_of(alloc: Global, rules: &[FileRule]) -> Result<Vec<&Pattern>, AllocError>
    ensures { IfOk result (λ pointers. pointed pointers.items ≡ patterns_of rules.now) }
{
    let mut pointers = Vec::new(alloc);
    for rule in rules {
        add_patterns(&mut pointers, rule.patterns.as_slice())?;
    }
    Ok(pointers)
}

/// The automaton of the rules' patterns.
fn automaton_of(alloc: Global, rules: &[FileRule], limit: usize) -> Result<Automaton, BuildFault>
    requires few { length (patterns_of rules.now) ≤ most_patterns }
    requires some { 0 < limit }
    requires limit { limit ≤ most_states }
    ensures automaton { IfOk result (IsAutomaton (patterns_of rules.now)) }
    ensures bytes { IfOk result (TellsBytes (patterns_of rules.now)) }
    ensures within { IfOk result (λ a. states_of a ≤ limit) }
    ensures too_many { result ≡ Err BuildFault.TooManyStates → HasPlaces (patterns_of rules.now) (limit + 1) }
{
    let pointers = pointers_of(alloc, rules)?;
    Automaton::of(alloc, pointers.as_slice(), limit)
}

/// The marks of the rules' patterns, in order.
fn marks_of_rules(alloc: Global, rules: &[FileRule]) -> Result<Vec<Mark>, AllocError>
    ensures { IfOk result (λ marks. marks.items ≡ marks_by rules.now (numbered (way_by rules.now) rules.now)) }
{
    let ways = ways_of(alloc, rules)?;
    marks_of(alloc, rules, ways.as_slice())
}

fn rows_of(alloc: Global, automaton: &Automaton, marks: &[Mark]) -> Result<Vec<Row>, AllocError>
    ensures { IfOk result (λ rows. rows.items ≡ rows_by marks.now automaton.now.lists) }
{
    let mut rows = Vec::new(alloc);
    for number in 0..automaton.lists() {
        rows.push(Row::of(marks, automaton.list(number)))?;
    }
    Ok(rows)
}

/// Why there are no rows.
#[derive(Clone, Copy, Debug, PartialEq, Eq)]
pub enum RowsFault {
    NoMemory,
    /// The patterns need more rows than the limit.
    TooManyStates,
    /// Two rules say differently how one text is executed.
    Conflict,
}

impl From<AllocError> for RowsFault {
    ghost use Rattle.std.specs.Prelude.{◌≡◌};
    ghost use Rattle.aa_compile.specs.declared.rows.RowsFault.TheVariants.{NoMemory};

    ghost from_gives = { λ _ e. e ≡ NoMemory };

    fn from(_: AllocError) -> Self {
        RowsFault::NoMemory
    }
}

impl From<BuildFault> for RowsFault {
    ghost use Rattle.std.specs.Prelude.{◌≡◌};
    ghost use Rattle.aa_compile.specs.Rows.{fault_of};

    ghost from_gives = { λ b e. e ≡ fault_of b };

    fn from(fault: BuildFault) -> Self {
        match fault {
            BuildFault::NoMemory => RowsFault::NoMemory,
            BuildFault::TooManyStates => RowsFault::TooManyStates,
        }
    }
}

/// Decides requests for files by the rules of a profile.
#[derive(Drop)]
pub struct FileRows {
    automaton: Automaton,
    /// One for each list.
    rows: Vec<Row>,
}

impl Model for FileRows {
    ghost use Rattle.std.specs.Prelude.{◌≡◌, length};
    ghost use Rattle.aa_compile.specs.Rows.{RowTable};

    ghost Value = { RowTable };

    ghost view = { λ r. record { table = r.automaton; rows = r.rows.items } };

    ghost invariant = { λ r. length r.rows.items ≡ length r.automaton.lists };
}

impl FileRows {
    /// The rows of these rules. The errors are `TooManyStates`, then `Conflict`; `NoMemory` may come before either.
    pub fn build(alloc: Global, rules: &[FileRule], limit: usize) -> Result<FileRows, RowsFault>
        requires few { length (patterns_of rules.now) ≤ most_patterns }
        requires some { 0 < limit }
        requires limit { limit ≤ most_states }
        ensures ok { IfOk result (λ r. AreRowsOf (way_by rules.now) rules.now r) }
        ensures automaton { IfOk result (λ r. IsAutomaton (patterns_of rules.now) r.table) }
        ensures bytes { IfOk result (λ r. TellsBytes (patterns_of rules.now) r.table) }
        ensures free { IfOk result (λ _. Conflicts rules.now → ⊥) }
        ensures conflict { result ≡ Err RowsFault.Conflict → Conflicts rules.now }
        ensures fits { IfOk result (λ _. HasAutomaton (patterns_of rules.now) limit) }
        ensures fitted { result ≡ Err RowsFault.Conflict → HasAutomaton (patterns_of rules.now) limit }
        ensures too_many { result ≡ Err RowsFault.TooManyStates → HasPlaces (patterns_of rules.now) (limit + 1) }
    {
        let automaton = automaton_of(alloc, rules, limit)?;
        let marks = marks_of_rules(alloc, rules)?;
        if has_conflict(&automaton, marks.as_slice()) {
            return Err(RowsFault::Conflict);
        }
        let rows = rows_of(alloc, &automaton, marks.as_slice())?;
        Ok(FileRows { automaton, rows })
    }

    /// The automaton of the rules' patterns.
    pub(crate) fn automaton(&self) -> &Automaton
        ensures { result.now ≡ self.now.table }
    {
        &self.automaton
    }

    /// How many rows the automaton of the rules has.
    pub fn states(&self) -> usize
        ensures { result ≡ states_of self.now.table }
    {
        self.automaton.rows()
    }

    /// The numbers of the rules' patterns that match the path, rising.
    pub(crate) fn matching(&self, path: &[u8]) -> &[u16]
        ensures { result.now ≡ list_at self.now.table (place_of self.now.table path.now) }
    {
        self.automaton.matching(path)
    }

    /// What the rules say of an object.
    pub fn verdict(&self, path: &[u8], owned: bool) -> Verdict
        ensures { result ≡ verdict_at self.now path.now owned }
    {
        let list = self.automaton.list_of(self.automaton.place(path));
        self.rows[list].verdict(owned)
    }
}
