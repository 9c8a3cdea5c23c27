//! Named texts that a policy may include.

ghost use Rattle.std.specs.Prelude.{◌≡◌, ◌+◌, ◌<◌, ◌≤◌, ◌↔◌, ◌⊎◌, [], ◌∷◌, ◌++◌, length, OnOk, OnErr, IfErr, IsErrOf, IsTrue, IfSome, IfNone, Some, None, false};
ghost use Rattle.aa_base.specs.Kinds.{at_start, no_memory};
ghost use Rattle.aa_words.specs.Sources.{has_name};
ghost use Rattle.aa_words.specs.Splits.{source_from};

use aa_base::{PolicyFault, PolicyKind};
use indexmap::IndexMap;
use std::alloc::{AllocError, Global};
use std::marker::Model;

/// The sources that a policy may include, in the order in which they were added. The first is file 1; file 0 is the
/// main text.
#[derive(Drop)]
pub struct Sources {
    texts: IndexMap<Vec<u8>, Vec<u8>>,
}

impl Model for Sources {
    ghost use Rattle.std.specs.Prelude.{List, ℕ, length, ◌≤◌};

    ghost Value = { List (List ℕ × List ℕ) };

    ghost use Rattle.aa_words.specs.Sources.{entries};

    ghost view = { λ s. entries s.texts.entries };

    ghost invariant = { λ s. length s.texts.entries ≤ 4095 };
}

/// The most bytes that a text may have.
pub(crate) const MAX_TEXT: usize = 1048576;

/// The most sources that may be added.
const MAX_NAMES: usize = 4095;

impl Sources {
    /// No sources yet.
    pub fn new(alloc: Global) -> Sources
        ensures { result ≡ [] }
    {
        Sources {
            texts: IndexMap::new(alloc),
        }
    }

    /// Adds a text under a name. Refused, in this order: TooLarge where the text has over 1,048,576 bytes or 4,095 names
    /// are there, Syntax where the name is there already, both at 0:0. A refused call leaves the sources as they were.
    pub fn add(&mut self, name: &[u8], text: &[u8]) -> Result<(), PolicyFault>
        ensures ok { OnOk result (self.new ≡ self.old ++ (name.now, text.now) ∷ []) }
        ensures err { OnErr result (self.new ≡ self.old) }
        ensures too_large { IsErrOf result (at_start PolicyKind.TooLarge)
            ↔ ((1048576 < length text.now) ⊎ (4095 ≤ length self.old)) }
        ensures twice { IsErrOf result (at_start PolicyKind.Syntax)
            ↔ ((length text.now ≤ 1048576) × (length self.old < 4095) × IsTrue (has_name name.now self.old)) }
        ensures only { IfErr result (λ e. (e ≡ no_memory) ⊎ (e ≡ at_start PolicyKind.TooLarge) ⊎ (e ≡ at_start PolicyKind.Syntax)) }
    {
        if text.len() > MAX_TEXT || self.texts.len() >= MAX_NAMES {
            return Err(PolicyFault::at_start(PolicyKind::TooLarge));
        }
        if self.texts.contains_key(name) {
            return Err(PolicyFault::at_start(PolicyKind::Syntax));
        }
        self.put(name, text)?;
        Ok(())
    }

    /// Puts a text under a new name behind the others, for which there is room.
    #[tactic(auto, using(crate::proofs::Named::many))]
    fn put(&mut self, name: &[u8], text: &[u8]) -> Result<(), AllocError>
        requires new { has_name name.now self.old ≡ false }
        requires room { length self.old < 4095 }
        ensures ok { OnOk result (self.new ≡ self.old ++ (name.now, text.now) ∷ []) }
        ensures err { OnErr result (self.new ≡ self.old) }
    {
        let alloc = *self.texts.allocator();
        let name = Vec::from_slice(alloc, name)?;
        let text = Vec::from_slice(alloc, text)?;
        let _ = self.texts.insert(name, text)?;
        Ok(())
    }

    /// The source of a name: its number and its text.
    pub(crate) fn find(&self, name: &[u8]) -> Option<(u16, &[u8])>
        ensures some { IfSome result (λ p. source_from 1 name.now self.now ≡ Some (p.0, p.1.now)) }
        ensures none { IfNone result (source_from 1 name.now self.now ≡ None) }
    {
        let (index, _, text) = self.texts.get_full(name)?;
        Some((index as u16 + 1, text.as_slice()))
    }
}
