//! What skipped files don't change.

ghost use Rattle.aa_skipped.specs.Together.{EachDecides};

use aa_skipping::skipping_is_sound;

/// A request that profiles of none of some files could change is answered as by the policy of all of them, whatever their profiles are, as
/// long as they have the heads that are known and that policy is lawful. Its contract is a law of the definitions.
pub fn each_file_decides()
    ensures { EachDecides }
{
    skipping_is_sound()
}
