//! What policies answer whose rules say the same.

ghost use Rattle.aa_redundancy.specs.Sameness.{SayingSameAnswersSame};
ghost use Rattle.aa_redundancy.specs.Kept.{KeptSaySame};
ghost use Rattle.aa_redundancy.specs.Spared.{SparedAnswersSame};
ghost use Rattle.aa_redundancy.specs.Unmatched.{BesideNoneMatchNothing};

/// Where the profiles of two policies say the same of whatever can be asked, both policies answer every list of requests the same,
/// one after another, at every label. It does nothing: its contract is a law of the definitions.
pub fn same_sayings_reply_alike()
    ensures { SayingSameAnswersSame }
{}

/// Profiles of which it can't be told what their rules say, and of which none goes, say the same of whatever can be asked beside the
/// others that do. It does nothing: its contract is a law of the definitions.
pub fn kept_profiles_say_the_same()
    ensures { KeptSaySame }
{}

/// A policy without the rules of a place that can go, or without those of all places that can go together, answers every list of
/// requests as the policy does, at every label. It does nothing: its contract is a law of the definitions.
pub fn spared_rules_change_no_reply()
    ensures { SparedAnswersSame }
{}

/// Rules of a place that are redundant beside no other match nothing that can be asked for. It does nothing: its contract is a law of the
/// definitions.
pub fn rules_beside_none_match_nothing()
    ensures { BesideNoneMatchNothing }
{}
