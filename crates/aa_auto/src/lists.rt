//! Lists of patterns' numbers, each of them kept once.

ghost use Rattle.std.specs.Prelude.{◌≡◌, ◌<◌, ◌++◌, ◌∷◌, [], if◌then◌else◌, length, map, Some, IfOk, OnOk, slice_get};
ghost use Rattle.aa_auto.specs.Apart.{IsApart};
ghost use Rattle.aa_auto.specs.Listed.{AddsRow, IsListing};

use crate::numbers::Numbers;
use indexmap::IndexSet;
use std::alloc::{AllocError, Global};
use std::marker::Model;

/// Different lists of numbers as they came, and of each row the number of its list.
// The `IndexSet` finds a list again by its whole content: a body that takes two for one because of their hash can't meet the
// contract of `insert`.
#[derive(Drop)]
pub(crate) struct Lists {
    keys: IndexSet<Vec<u16>>,
    listed: Numbers,
}

impl Model for Lists {
    ghost use Rattle.std.specs.Prelude.{map};
    ghost use Rattle.aa_auto.specs.Listed.{Listing};

    ghost Value = { Listing };

    ghost view = { λ l. record { lists = map (λ v. v.items) l.keys.keys; listed = l.listed } };
}

impl Lists {
    pub(crate) fn new(alloc: Global) -> Self
        ensures { result ≡ record { lists = []; listed = [] } }
    {
        Lists {
            keys: IndexSet::new(alloc),
            listed: Numbers::new(alloc),
        }
    }

    /// The number of the list, and whether it was added, since it wasn't there. It is copied only then.
    fn insert(&mut self, alloc: Global, numbers: &[u16]) -> Result<(usize, bool), AllocError>
        ensures found { IfOk result (λ r. slice_get self.new.lists r.0 ≡ Some numbers.now) }
        ensures grows { IfOk result (λ r. self.new.lists ≡ (if r.1 then self.old.lists ++ numbers.now ∷ [] else self.old.lists)) }
        ensures apart { OnOk result (IsApart self.new.lists) }
        ensures listed { self.new.listed ≡ self.old.listed }
    {
        let many = self.keys.len();
        if let Some(number) = self.keys.get_index_of(numbers) {
            return Ok((number, false));
        }
        let numbers = Vec::from_slice(alloc, numbers)?;
        self.keys.insert(numbers)?;
        Ok((many, true))
    }

    /// Adds a row with this list.
    pub(crate) fn add(&mut self, alloc: Global, numbers: &[u16]) -> Result<(), AllocError>
        requires listing { IsListing self.old }
        requires few { length self.old.listed < 4294967295 }
        ensures { OnOk result (AddsRow self.old self.new numbers.now) }
    {
        let (number, _) = self.insert(alloc, numbers)?;
        self.listed.push(alloc, number as u32)?;
        Ok(())
    }

    /// The lists, and of each row the number of its list, without spare room.
    pub(crate) fn into_parts(self, alloc: Global) -> Result<(Vec<Vec<u16>>, Numbers), AllocError>
        ensures lists { IfOk result (λ r. map (λ v. v.items) r.0.items ≡ self.lists) }
        ensures listed { IfOk result (λ r. r.1 ≡ self.listed) }
    {
        let Lists { keys, mut listed } = self;
        let mut lists = Vec::with_capacity(alloc, keys.len())?;
        for list in keys {
            let mut list = list;
            list.shrink_to_fit();
            lists.push(list)?;
        }
        listed.shrink_to_fit();
        Ok((lists, listed))
    }
}
