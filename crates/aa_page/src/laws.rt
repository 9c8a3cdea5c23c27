//! What is read of texts on a page.

ghost use Rattle.aa_page.specs.Reading.{TextsEndAtMarks};

/// A law and no work: no text of a policy begins or ends a tag or an attribute's value, and it is read as it is.
pub fn texts_end_at_marks()
    ensures { TextsEndAtMarks }
{}
