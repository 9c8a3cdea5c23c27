//! What lines tell, and what is so where there are none.

ghost use Rattle.aa_diff.specs.Lines.{KeepLines};
ghost use Rattle.aa_diff.specs.Telling.{LinesTellEntries, GainsAreGained, GainsArePrinted, GainsAreTold};
ghost use Rattle.aa_diff.specs.Holding.{ProfilesHold, FreeHold};

use aa_differences::closed_labels_are_decided;
use aa_skipped::each_file_decides;
use aa_skipping::skipping_is_sound;

/// A law and no work: each entry of a list of differences has a line that tells of it, at a clean path where the entry is at one, or one by
/// a single permission has that tells of it; each line is that of an entry; and of all profiles gains are shown exactly where an entry is one.
pub fn lines_tell_entries()
    ensures { LinesTellEntries }
{}

/// A law and no work: the findings and the rules that are printed, in their order, are just those that there are.
pub fn printing_keeps_lines()
    ensures { KeepLines }
{}

/// A law and no work: where no file is skipped and no finding is accepted, a gain is printed about a label only where a request that can
/// be asked gains there, and of all profiles wherever one does, but at labels at which differences can't be told; so where all are listed,
/// one is printed exactly where one request gains.
pub fn gains_are_told()
    ensures gained { GainsAreGained }
    ensures printed { GainsArePrinted }
    ensures told { GainsAreTold }
{}

/// A law and no work: where no line is about a profile, nothing is undecided there, and it is compared, the policies of all files of both
/// sides answer each request alike there, whatever profiles the skipped files have, as long as they have the heads that are known and
/// these policies are lawful; where no line at a clean path is, each request at one; so of tasks without a profile.
pub fn differences_are_sound()
    ensures profiles { ProfilesHold }
    ensures free { FreeHold }
{
    lines_tell_entries();
    closed_labels_are_decided();
    skipping_is_sound();
    each_file_decides()
}
