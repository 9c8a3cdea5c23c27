//! What variables and a word decide.

ghost use Rattle.aa_glob.specs.Expansions.{ExpandsOnce};

/// A law and no work: a word expands to the tokens of one list of patterns, or is refused for one fault. So variables and word
/// alone decide which patterns `expand` gives.
pub fn expands_once()
    ensures { ExpandsOnce }
{}
