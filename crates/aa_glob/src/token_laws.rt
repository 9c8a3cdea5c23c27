//! What a text decides.
//!
//! Equality in a contract would compare where the branches of two choices lie in memory too, so the law says that the items are
//! the same apart from that. A choice without branches, which no text spells, is spelled by itself.

ghost use Rattle.aa_pattern.specs.Sameness.{SameItemsMatch};
ghost use Rattle.aa_glob.specs.Reading.{TokensDecideItems};

/// A law and no work: items that are spelled by the same tokens are the same, and match the same texts. So the text alone
/// decides which items `read_pattern` gives.
pub fn tokens_decide_items()
    ensures items { TokensDecideItems }
    ensures matching { SameItemsMatch }
{}
