//! What skipped files don't change of what is answered to logs.

ghost use Rattle.aa_against.specs.Holding.{ReplaysHold};

use aa_skipping::skipping_is_sound;
use aa_undecided::answers_are_sound;

/// Whatever profiles the skipped files have, as long as they have the heads that are known and a policy of them and the read ones is lawful:
/// a request of logs that isn't undecided is answered now by that policy as is said. It does nothing: its contract is a law of the definitions.
pub fn replays_are_sound()
    ensures { ReplaysHold }
{
    answers_are_sound();
    skipping_is_sound()
}
