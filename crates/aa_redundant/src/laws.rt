//! What is so of redundant rules beside skipped files.

ghost use Rattle.aa_redundant.specs.Holding.{SparedAmongOthers};

use aa_redundancy::{kept_profiles_say_the_same, same_sayings_reply_alike};

/// A law and no work: the policy of all files answers every list of requests as it does without the rules that can go, in the profiles that
/// were read, whatever profiles the skipped files have, as long as they have the heads that are known.
pub fn redundant_rules_are_sound()
    ensures { SparedAmongOthers }
{
    same_sayings_reply_alike();
    kept_profiles_say_the_same()
}
