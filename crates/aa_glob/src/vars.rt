//! Variables and their values.

ghost use Rattle.std.specs.Prelude.{◌≡◌, ◌<◌, ◌↔◌, ◌⊎◌, List, [], ◌∷◌, ◌++◌, map, length, IsTrue, false, OnOk, OnErr, IfOk, IfErr, IsErrOf};
ghost use Rattle.std.specs.Prelude.{ℕ, suc, MatchOption, IfSome, is_some, Some, None};
ghost use Rattle.aa_glob.specs.NamePlaces.{place_of};
ghost use Rattle.aa_glob.specs.Variables.{Variable, variable, has_name, with_more, values_of};
ghost use Rattle.aa_glob.specs.Expansions.{is_reserved, outcome, Stops};

use aa_base::PolicyKind;
use std::alloc::{AllocError, Global};
use std::collections::BTreeMap;
use std::marker::Model;

/// A name and its values.
type Entry = (Vec<u8>, Vec<Vec<u8>>);

/// Variables in the order in which they were set. Names are looked up in their own order, so that it takes no longer with
/// names that their author chose.
#[derive(Drop)]
pub struct Vars {
    alloc: Global,
    table: Vec<Entry>,
    /// Where the variable of each name stands in the table.
    places: BTreeMap<Vec<u8>, usize>,
}

impl Model for Vars {
    ghost use Rattle.std.specs.Prelude.{List, map};
    ghost use Rattle.aa_glob.specs.NamePlaces.{ArePlaces};
    ghost use Rattle.aa_glob.specs.Variables.{Variable, variable};

    ghost Value = { List Variable };

    ghost view = { λ s. map variable s.table.items };

    ghost invariant = { λ s. ArePlaces s.places.entries s.table.items };
}

/// The values, copied.
fn copies(alloc: Global, values: &[&[u8]]) -> Result<Vec<Vec<u8>>, PolicyKind>
    ensures ok { IfOk result (λ v. map (λ x. x.items) v.items ≡ map (λ x. x.now) values.now) }
    ensures err { IfErr result (λ e. e ≡ PolicyKind.NoMemory) }
{
    let mut list: Vec<Vec<u8>> = Vec::new(alloc);
    for value in values {
        let copy = Vec::from_slice(alloc, value)?;
        list.push(copy)?;
    }
    Ok(list)
}

/// Adds the values at the end of those of the variable at a place.
fn add_values(
    table: &mut Vec<Entry>,
    place: usize,
    mut more: Vec<Vec<u8>>,
) -> Result<(), AllocError>
    requires { place < length table.old.items }
    ensures ok { OnOk result ((name : List ℕ) → place_of name (map variable table.old.items) ≡ Some place
        → map variable table.new.items ≡ with_more name (map (λ v. v.items) more.items) (map variable table.old.items)) }
    ensures err { OnErr result (map variable table.new.items ≡ map variable table.old.items) }
{
    table[place].1.append(&mut more)
}

impl Vars {
    /// No variables.
    pub fn new(alloc: Global) -> Vars
        ensures { result ≡ [] }
    {
        Vars {
            alloc,
            table: Vec::new(alloc),
            places: BTreeMap::new(alloc),
        }
    }

    /// Where the variable of that name stands.
    fn place_of(&self, name: &[u8]) -> Option<usize>
        ensures place { result ≡ place_of name.now self.now }
        ensures there { is_some result ≡ has_name name.now self.now }
        ensures within { IfSome result (λ i. i < length self.now) }
    {
        match self.places.get(name) {
            Some(place) => Some(*place),
            None => None,
        }
    }

    /// Gives a new variable its values (apparmor.d(5), "Variables"; the assignment `=`). Refused where the name is there
    /// (VariableTwice), else only for want of memory; the variables are then as before.
    pub fn set(&mut self, name: &[u8], values: &[&[u8]]) -> Result<(), PolicyKind>
        ensures ok { OnOk result (self.new ≡ self.old ++ record { name = name.now; values = map (λ v. v.now) values.now } ∷ []) }
        ensures err { OnErr result (self.new ≡ self.old) }
        ensures twice { IsErrOf result PolicyKind.VariableTwice ↔ IsTrue (has_name name.now self.old) }
        ensures only { IfErr result (λ e. (e ≡ PolicyKind.NoMemory) ⊎ (e ≡ PolicyKind.VariableTwice)) }
    {
        if self.place_of(name).is_some() {
            return Err(PolicyKind::VariableTwice);
        }
        let key = Vec::from_slice(self.alloc, name)?;
        let copy = Vec::from_slice(self.alloc, name)?;
        let list = copies(self.alloc, values)?;
        let place = self.table.len();
        self.table.push((copy, list))?;
        match self.places.insert(key, place) {
            Ok(_) => Ok(()),
            Err(_) => {
                let _ = self.table.pop();
                Err(PolicyKind::NoMemory)
            }
        }
    }

    /// Adds values at the end of a variable's (the assignment `+=`). Refused where the name isn't there (UndefinedVariable),
    /// else only for want of memory; the variables are then as before.
    pub fn add(&mut self, name: &[u8], values: &[&[u8]]) -> Result<(), PolicyKind>
        ensures ok { OnOk result (self.new ≡ with_more name.now (map (λ v. v.now) values.now) self.old) }
        ensures err { OnErr result (self.new ≡ self.old) }
        ensures missing { IsErrOf result PolicyKind.UndefinedVariable ↔ (has_name name.now self.old ≡ false) }
        ensures only { IfErr result (λ e. (e ≡ PolicyKind.NoMemory) ⊎ (e ≡ PolicyKind.UndefinedVariable)) }
    {
        let Some(place) = self.place_of(name) else {
            return Err(PolicyKind::UndefinedVariable);
        };
        let more = copies(self.alloc, values)?;
        add_values(&mut self.table, place, more)?;
        Ok(())
    }
}

fn is_reserved_name(name: &[u8]) -> bool
    ensures { result ≡ is_reserved name.now }
{
    name == b"exec_path".as_slice() || name == b"profile_name".as_slice()
}

impl Vars {
    fn get(&self, name: &[u8]) -> Option<&[Vec<u8>]>
        ensures { MatchOption result (values_of self.now name.now ≡ None) (λ vs. values_of self.now name.now ≡ Some (map (λ v. v.items) vs.now)) }
    {
        match self.place_of(name) {
            Some(place) => Some(self.table[place].1.as_slice()),
            None => None,
        }
    }

    /// The values of a variable that may be used.
    pub(crate) fn values(&self, name: &[u8]) -> Result<&[Vec<u8>], PolicyKind>
        ensures ok { IfOk result (λ vs. (is_reserved name.now ≡ false) × (values_of self.now name.now ≡ Some (map (λ v. v.items) vs.now))) }
        ensures err { IfErr result (λ e. (depth : ℕ) → outcome (suc depth) self.now name.now ≡ Stops e) }
    {
        if is_reserved_name(name) {
            return Err(PolicyKind::Unsupported);
        }
        match self.get(name) {
            Some(values) => Ok(values),
            None => Err(PolicyKind::UndefinedVariable),
        }
    }
}
