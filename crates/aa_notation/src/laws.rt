//! The law of request words.

ghost use Rattle.aa_notation.specs.Again.{WordsAreRead};

/// The word of a request is read as that request, so two requests have two words. It does nothing: its contract is a law.
pub fn words_are_read()
    ensures { WordsAreRead }
{}
