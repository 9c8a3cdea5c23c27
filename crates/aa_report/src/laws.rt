//! What is read of texts in code spans.

ghost use Rattle.aa_report.specs.Reading.{SpansEndAtFences};

/// A law and no work: each text, as a code span, is read as it is, and nothing of it begins or ends anything else.
pub fn spans_end_at_fences()
    ensures { SpansEndAtFences }
{}
