//! The law of the program's own lines.

ghost use Rattle.aa_round_trip_laws.specs.OwnLines.{OwnLinesAreRead};

/// The audit line of a request is read as that request, of the profile that asked and with what became of it; whose file it was
/// no line tells. It does nothing: its contract is a law.
pub fn own_lines_are_read()
    ensures { OwnLinesAreRead }
{}
