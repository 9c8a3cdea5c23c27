//! What the rules that are named tell.

ghost use Rattle.aa_ask.specs.Telling.{ReasonsTellAnswers};

/// A law and no work: a task in a profile is granted what it asks exactly where the rules that are named of it don't deny it, and
/// leave nothing that no rule allows. In complain mode it is refused exactly where one of them denies it.
pub fn reasons_tell_answers()
    ensures { ReasonsTellAnswers }
{}
