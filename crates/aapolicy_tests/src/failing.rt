//! A tree of files in memory of which one look-up fails.

ghost use Rattle.std.specs.Prelude.{◌≡◌, Some};
ghost use Rattle.aapolicy_tests.specs.Planted.{files_of, taken_of};
ghost use Rattle.aapolicy_tests.specs.Failing.{known_by};

use crate::tree::MemoryTree;
use aa_base::Unread;
use aa_files::{Content, Tree};
use std::alloc::Global;
use std::cell::Cell;

/// A tree that answers as another does, but for the look-up of one number, which fails.
#[derive(Drop)]
pub struct FailingTree<'t> {
    pub tree: &'t MemoryTree,
    /// Which look-up fails, from 1, and why.
    pub failing: usize,
    pub why: Unread,
    /// How many look-ups there were.
    pub calls: Cell<usize>,
}

impl FailingTree<'_> {
    /// Whether this look-up, which is counted, is the one that fails.
    fn fails(&self) -> bool {
        let calls = self.calls.get().wrapping_add(1);
        self.calls.set(calls);
        calls == self.failing
    }
}

impl Tree for FailingTree<'_> {
    ghost files = { λ t. known_by t.why (files_of t.tree.now) };

    ghost taken = { λ t. known_by t.why (taken_of t.tree.now) };

    ghost input = { λ t. known_by t.why t.tree.now.input.items };

    fn content_at(&self, alloc: Global, path: &[u8]) -> Result<Content, Unread> {
        if self.fails() {
            return Err(self.why);
        }
        self.tree.content_at(alloc, path)
    }

    fn is_folder(&self, path: &[u8]) -> Result<bool, Unread> {
        if self.fails() {
            return Err(self.why);
        }
        self.tree.is_folder(path)
    }

    fn names_in(&self, alloc: Global, folder: &[u8]) -> Result<Vec<Vec<u8>>, Unread> {
        if self.fails() {
            return Err(self.why);
        }
        self.tree.names_in(alloc, folder)
    }

    fn is_taken(&self, path: &[u8]) -> Result<bool, Unread> {
        if self.fails() {
            return Err(self.why);
        }
        self.tree.is_taken(path)
    }

    fn input_text(&self, alloc: Global) -> Result<Vec<u8>, Unread> {
        if self.fails() {
            return Err(self.why);
        }
        self.tree.input_text(alloc)
    }
}
