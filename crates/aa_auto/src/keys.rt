//! Numbers that differ, in the order in which they came.

ghost use Rattle.std.specs.Prelude.{◌≡◌, [], IfOk, length};
ghost use Rattle.aa_auto.specs.Pairs.{AddsKey};

use indexmap::IndexSet;
use std::alloc::{AllocError, Global};
use std::marker::Model;

/// Different numbers, numbered as they came.
#[derive(Drop)]
pub(crate) struct Keys {
    keys: IndexSet<u64>,
}

impl Model for Keys {
    ghost use Rattle.std.specs.Prelude.{List, ℕ};

    ghost Value = { List ℕ };

    ghost view = { λ k. k.keys.keys };
}

impl Keys {
    pub(crate) fn new(alloc: Global) -> Self
        ensures { result ≡ [] }
    {
        Keys {
            keys: IndexSet::new(alloc),
        }
    }

    pub(crate) fn len(&self) -> usize
        ensures { result ≡ length self.now }
    {
        self.keys.len()
    }

    pub(crate) fn as_slice(&self) -> &[u64]
        ensures { result.now ≡ self.now }
    {
        self.keys.as_slice()
    }

    /// Where the number stands; it is added where it isn't there.
    pub(crate) fn add(&mut self, key: u64) -> Result<usize, AllocError>
        ensures { IfOk result (λ n. AddsKey self.old self.new key n) }
    {
        let (number, _) = self.keys.insert_full(key)?;
        Ok(number)
    }
}
