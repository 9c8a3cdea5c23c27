//! What skipped files don't change of what is answered.

ghost use Rattle.aa_undecided.specs.Holding.{AnswersHold, SequencesHold, ProgramsHold, NamesHold};

use aa_skipped::each_file_decides;
use aa_skipping::skipping_is_sound;

/// Whatever profiles the skipped files have, as long as they have the heads that are known and a policy of them and the read ones is lawful:
/// each verdict that isn't undecided tells what that policy answers, also of requests one after another; a program runs under the same
/// profile, where no skipped file could decide it; and a profile that is read has its name there too. It does nothing: its contract is a
/// law of the definitions.
pub fn answers_are_sound()
    ensures answers { AnswersHold }
    ensures sequences { SequencesHold }
    ensures programs { ProgramsHold }
    ensures names { NamesHold }
{
    skipping_is_sound();
    each_file_decides()
}
