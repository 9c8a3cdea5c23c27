//! The laws of what is written as JSON.

ghost use Rattle.aa_text.specs.Again.{TextsAreRead, ValuesAreRead};

/// A text that is written as JSON is read as that text. It does nothing: its contract is a law.
pub fn texts_are_read()
    ensures { TextsAreRead }
{}

/// A value and a line end that are written are read as that value, each object in the order of its keys. It does nothing: its
/// contract is a law.
pub fn values_are_read()
    ensures { ValuesAreRead }
{}
