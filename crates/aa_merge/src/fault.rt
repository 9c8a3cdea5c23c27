//! Why a part is refused.

ghost use Rattle.std.specs.Prelude.{◌≡◌};
ghost use Rattle.aa_merge.specs.Faults.{member_text};

use std::alloc::{AllocError, AllocFailed};

/// A member of a report.
#[derive(Clone, Copy, Debug)]
pub enum Member {
    Requests,
    Then,
    Profile,
    Request,
    Count,
    Path,
    Line,
    Skipped,
    Reason,
    SkippedLines,
    Lines,
    Asking,
    Other,
    LeftOut,
}

/// Why a part is no report that can be merged with those before it.
#[derive(Clone, Copy, Debug)]
pub enum PartFault {
    NoMemory,
    NotJson,
    /// The member isn't there, or is none that a report has.
    NotAReport(Member),
    /// A policy answered the requests.
    Answered,
    /// The member is in the first part and not in this one, or the other way round.
    Unlike(Member),
    /// There are more than 1,000,000 distinct requests.
    TooMany,
}

impl From<AllocError> for PartFault {
    ghost use Rattle.aa_merge.specs.declared.fault.PartFault.TheVariants.{NoMemory};

    ghost from_gives = { λ _ e. e ≡ NoMemory };

    fn from(_e: AllocError) -> PartFault {
        PartFault::NoMemory
    }
}

impl<T: Drop> From<AllocFailed<T>> for PartFault {
    ghost use Rattle.aa_merge.specs.declared.fault.PartFault.TheVariants.{NoMemory};

    ghost from_gives = { λ _ e. e ≡ NoMemory };

    fn from(_e: AllocFailed<T>) -> PartFault {
        PartFault::NoMemory
    }
}

impl Member {
    /// The member's key.
    pub fn key(self) -> &'static str
        ensures { result.now ≡ member_text self }
    {
        match self {
            Member::Requests => "requests",
            Member::Then => "then",
            Member::Profile => "profile",
            Member::Request => "request",
            Member::Count => "count",
            Member::Path => "path",
            Member::Line => "line",
            Member::Skipped => "skipped",
            Member::Reason => "reason",
            Member::SkippedLines => "skipped_lines",
            Member::Lines => "lines",
            Member::Asking => "asking",
            Member::Other => "other",
            Member::LeftOut => "left_out",
        }
    }
}
