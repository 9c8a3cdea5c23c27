//! Why lines ask nothing, as it is printed.

ghost use Rattle.std.specs.Prelude.{◌≡◌};
ghost use Rattle.aa_logs.specs.Reasons.{rank, word_of};

use crate::line::Reason;

/// A reason's place in the order in which reasons are printed, and its name: of a rule that never decides, its keyword.
pub fn named(reason: Reason) -> (u8, &'static str)
    ensures rank { result.0 ≡ rank reason }
    ensures word { result.1.now ≡ word_of reason }
{
    match reason {
        Reason::Rule(keyword) => (0, keyword),
        Reason::NoProfile => (1, "no-profile"),
        Reason::Namespace => (2, "namespace"),
        Reason::Stacked => (3, "stacked"),
        Reason::NoNewPrivs => (4, "no-new-privs"),
        Reason::Path => (5, "path"),
        Reason::Mask => (6, "mask"),
        Reason::Name => (7, "name"),
        Reason::Capability => (8, "capability"),
        Reason::Socket => (9, "socket"),
        Reason::Operation => (10, "operation"),
        Reason::Status => (11, "status"),
        Reason::OldForm => (12, "old-form"),
        Reason::Broken => (13, "broken"),
    }
}
