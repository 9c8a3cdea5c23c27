//! What the printed words ask leads to the label, and holds whatever skipped files are.

ghost use Rattle.aa_reach.specs.Laws.{WordsLead};
ghost use Rattle.aa_reach.specs.Holding.{LabelsHold};
ghost use Rattle.aa_reach.specs.Enforced.{StepsEnforced, SearchesEnforced, EdgesEnforced};

use aa_differences::closed_labels_are_decided;
use aa_skipped::each_file_decides;

/// The words that are printed for a list of requests ask what can be asked, and lead from where that begins to the label to which it
/// leads; and `ask` reads each as that request, but for one to be decided by another policy, which no word asks. It does nothing: its
/// contract is a law.
pub fn words_lead()
    ensures { WordsLead }
{}

/// Whatever profiles the skipped files have, as long as they have the heads that are known and a policy of them and the read ones is lawful:
/// in that policy the same requests lead to each label that is reached; requests that lead on from no label that is named undecided lead
/// to no other; and where none is named so, no requests do. It does nothing: its contract is a law of the definitions.
pub fn labels_are_sound()
    ensures { LabelsHold }
{
    closed_labels_are_decided();
    each_file_decides()
}

/// Where complain mode moves no task, as `--as-enforced` wants it, a request leads where the mediator leads by the policies whose complain flags
/// are cleared, with the same labels, rules and attachments; so what is found by these as they are is the same, where no file is skipped. It
/// does nothing: its contract is a law of the definitions.
pub fn searches_are_enforced()
    ensures steps { StepsEnforced }
    ensures searches { SearchesEnforced }
    ensures edges { EdgesEnforced }
{}
