//! Sets of positions by their numbers.

ghost use Rattle.std.specs.Prelude.{◌≡◌, ◌++◌, ◌∷◌, [], if◌then◌else◌, length, Some, IfOk, OnOk, OnErr, slice_get};
ghost use Rattle.std.specs.Option.{option_copied};
ghost use Rattle.aa_auto.specs.Apart.{IsApart};

use indexmap::IndexSet;
use std::alloc::{AllocError, Global};
use std::marker::Model;

/// Different lists of numbers, numbered as they came.
// The `IndexSet` finds a list again by its whole content: a body that takes two for one because of their hash can't meet the
// contract of `add`.
#[derive(Drop)]
pub(crate) struct Sets {
    keys: IndexSet<Vec<u32>>,
}

impl Model for Sets {
    ghost use Rattle.std.specs.Prelude.{List, ℕ, map};

    ghost Value = { List (List ℕ) };

    ghost view = { λ s. map (λ v. v.items) s.keys.keys };
}

impl Sets {
    pub(crate) fn new(alloc: Global) -> Self
        ensures { result ≡ [] }
    {
        Sets {
            keys: IndexSet::new(alloc),
        }
    }

    pub(crate) fn len(&self) -> usize
        ensures { result ≡ length self.now }
    {
        self.keys.len()
    }

    pub(crate) fn get(&self, index: usize) -> Option<&[u32]>
        ensures { option_copied result ≡ slice_get self.now index }
    {
        let set = self.keys.get_index(index)?;
        Some(set.as_slice())
    }

    /// The number of the list, and whether it was added, since it wasn't there. It is copied only then.
    pub(crate) fn add(&mut self, alloc: Global, set: &[u32]) -> Result<(usize, bool), AllocError>
        ensures found { IfOk result (λ r. slice_get self.new r.0 ≡ Some set.now) }
        ensures grows { IfOk result (λ r. self.new ≡ (if r.1 then self.old ++ set.now ∷ [] else self.old)) }
        ensures apart { OnOk result (IsApart self.new) }
        ensures err { OnErr result (self.new ≡ self.old) }
    {
        let many = self.keys.len();
        if let Some(index) = self.keys.get_index_of(set) {
            return Ok((index, false));
        }
        let set = Vec::from_slice(alloc, set)?;
        self.keys.insert(set)?;
        Ok((many, true))
    }
}
