//! The laws of what is counted together.

ghost use Rattle.aa_log.specs.Apart.{KeysTell, LinesAskSo, RequestsTell};
ghost use Rattle.aa_log.specs.Whole.{LinesAreMerged};

/// Two requests that can be asked have one key only where they are one, became the same, and are of one profile. It does
/// nothing: its contract is a law.
pub fn keys_tell()
    ensures { KeysTell }
{}

/// What lines of bytes ask can be asked. It does nothing: its contract is a law.
pub fn lines_ask_so()
    ensures { LinesAskSo }
{}

/// So two requests of lines have one key, and are counted together, only where they are one. It does nothing: its contract is
/// a law.
pub fn requests_tell()
    ensures { RequestsTell }
{}

/// What is counted of two logs, put together, is what is counted of the second behind the first. It does nothing: its contract is a
/// law.
pub fn lines_are_merged()
    ensures { LinesAreMerged }
{}
