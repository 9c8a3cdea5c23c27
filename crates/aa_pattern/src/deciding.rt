//! Which texts a pattern matches, decided.

ghost use Rattle.std.specs.Prelude.{◌≡◌, ◌↔◌, IsTrue, ℕ, List};
ghost use Rattle.aa_pattern.specs.declared.item.Item.{Item};
ghost use Rattle.aa_pattern.specs.Globs.{Matches};
ghost use Rattle.aa_pattern.specs.Matching.{is_match};

/// To decide whether items match a text is to decide whether the text can be cut so. It does nothing: its contract is a law.
pub fn matching_is_decided()
    ensures { (items : List Item) (text : List ℕ) → IsTrue (is_match items text) ↔ Matches items text }
{}
