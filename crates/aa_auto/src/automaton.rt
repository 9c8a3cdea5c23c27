//! The automaton: a table of rows over classes of bytes, and what it answers of a text.

ghost use Rattle.std.specs.Prelude.{◌≡◌, ◌+◌, ◌<◌, ◌≤◌, ◌∷◌, IfOk, IfErr, Err, [], length, map, slice_index, slice_index_or};
ghost use Rattle.aa_pattern.specs.Limits.{most_patterns, most_states};
ghost use Rattle.aa_pattern.specs.Places.{DecideNext};
ghost use Rattle.aa_auto.specs.Division.{AreClassesOf};
ghost use Rattle.aa_auto.specs.Explored.{IsExplored};
ghost use Rattle.aa_auto.specs.Nets.{IsNetOf, patterns_of};
ghost use Rattle.aa_auto.specs.Nodes.{pointed};
ghost use Rattle.aa_auto.specs.Pairs.{TellsBytes};
ghost use Rattle.aa_auto.specs.Tables.{IsAutomaton, IsTable, BytesLeadAlike, HasPlaces, rows_of, classes_of, row_after, place_of, list_number, list_at};

use crate::build::{BuildFault, Found, explore};
use crate::classes::Classes;
use crate::net::{Net, net_of};
use crate::numbers::{Kept, Numbers, Width};
use aa_pattern::Pattern;
use std::alloc::Global;
use std::marker::Model;

/// A deterministic automaton that says which patterns match a text.
// Contracts see a record of plain lists (`Table`). Callers cite what `IsAutomaton` says of it, and don't rest on the order of
// classes, rows or lists. A million rows may have five different lists, each of them some text's, so what callers answer is
// made once for each list. Rows aren't minimized: each is one set of places. A cell takes one byte where there are at most 256
// rows, and two where there are at most 65,536: thousands of automata are kept at a time.
#[derive(Drop)]
pub struct Automaton {
    /// The class of each byte.
    classes: Vec<u8>,
    /// How many classes there are.
    width: usize,
    /// The row after a byte of each class, row by row.
    cells: Numbers,
    /// Of each row, the number of its list.
    listed: Numbers,
    /// Lists of the patterns that match where a text leads to a row; rows with equal ones share it.
    lists: Vec<Vec<u16>>,
}

impl Model for Automaton {
    ghost use Rattle.std.specs.Prelude.{map};
    ghost use Rattle.aa_auto.specs.Tables.{Table, IsTable};

    ghost Value = { Table };

    ghost view = { λ a. record { classes = a.classes.items; width = a.width; cells = a.cells; listed = a.listed; lists = map (λ v. v.items) a.lists.items } };

    ghost invariant = { λ a. IsTable (record { classes = a.classes.items; width = a.width; cells = a.cells; listed = a.listed; lists = map (λ v. v.items) a.lists.items }) };
}

impl Automaton {
    /// The automaton of the patterns, by subset construction, with at most `limit` rows. The errors are `TooManyStates`
    /// where the patterns need more rows, and `NoMemory`.
    pub fn build(alloc: Global, patterns: &[Pattern], limit: usize) -> Result<Automaton, BuildFault>
        requires patterns { length patterns.now ≤ most_patterns }
        requires some { 0 < limit }
        requires limit { limit ≤ most_states }
        ensures automaton { IfOk result (IsAutomaton patterns.now) }
        ensures bytes { IfOk result (TellsBytes patterns.now) }
        ensures within { IfOk result (λ a. rows_of a ≤ limit) }
        ensures too_many { result ≡ Err BuildFault.TooManyStates → HasPlaces patterns.now (limit + 1) }

        // Laws of the patterns.
        ensures places_stay { DecideNext patterns.now }
        ensures bytes_lead_alike { BytesLeadAlike patterns.now }
    {
        let mut pointers = Vec::new(alloc);
        for pattern in patterns {
            pointers.push(pattern)?;
        }
        Automaton::of(alloc, pointers.as_slice(), limit)
    }

    /// The same of patterns that lie apart.
    // A rule owns its patterns, and one automaton is made of those of many rules, so it takes pointers: a copy of items would
    // be recursive, with its laws in every proof above.
    pub fn of(alloc: Global, patterns: &[&Pattern], limit: usize) -> Result<Automaton, BuildFault>
        requires patterns { length patterns.now ≤ most_patterns }
        requires some { 0 < limit }
        requires limit { limit ≤ most_states }
        ensures automaton { IfOk result (IsAutomaton (pointed patterns.now)) }
        ensures bytes { IfOk result (TellsBytes (pointed patterns.now)) }
        ensures within { IfOk result (λ a. rows_of a ≤ limit) }
        ensures too_many { result ≡ Err BuildFault.TooManyStates → HasPlaces (pointed patterns.now) (limit + 1) }

        // Laws of the patterns.
        ensures places_stay { DecideNext (pointed patterns.now) }
        ensures bytes_lead_alike { BytesLeadAlike (pointed patterns.now) }
    {
        let net = net_of(alloc, patterns)?;
        Automaton::of_net(alloc, &net, limit)
    }

    /// The same of compiled patterns.
    fn of_net(alloc: Global, net: &Net, limit: usize) -> Result<Automaton, BuildFault>
        requires net { IsNetOf net.now }
        requires some { 0 < limit }
        requires limit { limit ≤ most_states }
        ensures automaton { IfOk result (IsAutomaton (patterns_of net.now)) }
        ensures bytes { IfOk result (TellsBytes (patterns_of net.now)) }
        ensures within { IfOk result (λ a. rows_of a ≤ limit) }
        ensures too_many { result ≡ Err BuildFault.TooManyStates → HasPlaces (patterns_of net.now) (limit + 1) }
    {
        let classes = net.classes(alloc)?;
        let (found, cells) = explore(alloc, net, classes.bytes.as_slice(), limit)?;
        Automaton::from_parts(alloc, net, classes, found, cells)
    }

    /// The automaton with these classes and cells, of the sets that were found.
    fn from_parts(
        alloc: Global,
        net: &Net,
        classes: Classes,
        found: Found,
        mut cells: Numbers,
    ) -> Result<Automaton, BuildFault>
        requires net { IsNetOf net.now }
        requires classes { AreClassesOf (patterns_of net.now) classes.of.items classes.bytes.items }
        requires explored { IsExplored net.now found.sets classes.bytes.items cells found.lists }
        requires few { length found.sets ≤ most_states }
        ensures automaton { IfOk result (IsAutomaton (patterns_of net.now)) }
        ensures bytes { IfOk result (TellsBytes (patterns_of net.now)) }
        ensures rows { IfOk result (λ a. rows_of a ≡ length found.sets) }
        ensures err { IfErr result (λ e. e ≡ BuildFault.NoMemory) }
    {
        let Found { lists, .. } = found;
        let (lists, listed) = lists.into_parts(alloc)?;
        cells.shrink_to_fit();
        let Classes { of, bytes } = classes;
        Ok(Automaton {
            classes: of,
            width: bytes.len(),
            cells,
            listed,
            lists,
        })
    }

    /// Does nothing: each automaton is such a table.
    pub(crate) fn law(&self)
        ensures { IsTable self.now }
    {
        let _ = &self.cells;
    }

    /// The automaton with these tables.
    pub(crate) fn of_tables(
        classes: Vec<u8>,
        width: usize,
        cells: Numbers,
        listed: Numbers,
        lists: Vec<Vec<u16>>,
    ) -> Automaton
        requires { IsTable (record { classes = classes.items; width = width; cells = cells; listed = listed; lists = map (λ v. v.items) lists.items }) }
        ensures { result ≡ record { classes = classes.items; width = width; cells = cells; listed = listed; lists = map (λ v. v.items) lists.items } }
    {
        Automaton {
            classes,
            width,
            cells,
            listed,
            lists,
        }
    }

    /// The numbers of the patterns that match, rising.
    pub fn matching(&self, text: &[u8]) -> &[u16]
        ensures { result.now ≡ list_at self.now (place_of self.now text.now) }
    {
        self.at_row(self.place(text))
    }

    /// The row of the text.
    pub fn place(&self, text: &[u8]) -> usize
        ensures place { result ≡ place_of self.now text.now }
        ensures within { result < rows_of self.now }
    {
        match self.cells.kept() {
            Kept::One(cells) => self.walk(cells.as_slice(), text),
            Kept::Two(cells) => self.walk(cells.as_slice(), text),
            Kept::Four(cells) => self.walk(cells.as_slice(), text),
        }
    }

    /// The same by the cells as they are kept: by how many bytes each takes is asked once, and not at each byte of the text.
    fn walk<W: Width>(&self, cells: &[W], text: &[u8]) -> usize
        requires { map W.number cells.now ≡ self.now.cells }
        ensures place { result ≡ place_of self.now text.now }
        ensures within { result < rows_of self.now }
    {
        let mut row = 0;
        for byte in text {
            let at = self.width * row + self.classes[*byte as usize] as usize;
            row = cells[at].number() as usize;
        }
        row
    }

    /// The row of a row's texts with this byte more.
    pub fn next(&self, row: usize, byte: u8) -> usize
        requires { row < rows_of self.now }
        ensures next { result ≡ row_after self.now row (byte ∷ []) }
        ensures within { result < rows_of self.now }
    {
        self.cell(row, byte) as usize
    }

    /// The same, as it is kept.
    pub(crate) fn cell(&self, row: usize, byte: u8) -> u32
        requires { row < rows_of self.now }
        ensures next { result ≡ row_after self.now row (byte ∷ []) }
        ensures within { result < rows_of self.now }
    {
        let at = self.width * row + self.class_of(byte);
        self.cells.get(at)
    }

    /// The class of the byte. Bytes of one class lead from each row to the same one.
    pub fn class_of(&self, byte: u8) -> usize
        ensures class { result ≡ slice_index self.now.classes byte }
        ensures within { result < classes_of self.now }
    {
        self.classes[byte as usize] as usize
    }

    /// What `matching` gives for the texts of the row.
    pub fn at_row(&self, row: usize) -> &[u16]
        requires { row < rows_of self.now }
        ensures { result.now ≡ list_at self.now row }
    {
        self.list(self.list_of(row))
    }

    /// The number of the row's list. Rows have one where `matching` gives the same for their texts.
    pub fn list_of(&self, row: usize) -> usize
        requires { row < rows_of self.now }
        ensures number { result ≡ list_number self.now row }
        ensures within { result < length self.now.lists }
    {
        self.list_number(row) as usize
    }

    /// The same, as it is kept.
    pub(crate) fn list_number(&self, row: usize) -> u32
        requires { row < rows_of self.now }
        ensures number { result ≡ list_number self.now row }
        ensures within { result < length self.now.lists }
    {
        self.listed.get(row)
    }

    /// How many different lists `matching` gives.
    pub fn lists(&self) -> usize
        ensures { result ≡ length self.now.lists }
    {
        self.lists.len()
    }

    /// The list with this number.
    pub fn list(&self, number: usize) -> &[u16]
        requires { number < length self.now.lists }
        ensures { result.now ≡ slice_index_or self.now.lists number [] }
    {
        self.lists[number].as_slice()
    }

    /// How many rows there are: one for each set of places that a text has, also for the empty one.
    pub fn rows(&self) -> usize
        ensures { result ≡ rows_of self.now }
    {
        self.listed.len()
    }

    /// How many classes of bytes the patterns tell apart.
    pub fn classes(&self) -> usize
        ensures count { result ≡ classes_of self.now }
        ensures some { 0 < result }
        ensures few { result ≤ 256 }
    {
        self.width
    }
}
