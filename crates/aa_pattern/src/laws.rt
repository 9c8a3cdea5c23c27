//! What an item decides.

ghost use Rattle.aa_pattern.specs.Sameness.{SameItemsMatch};

/// A law and no work: the same items match the same texts.
pub fn same_items_match()
    ensures { SameItemsMatch }
{}
