//! Why claims aren't answered.

use std::alloc::{AllocError, AllocFailed};

/// What is wrong with a claim, at one of its words.
#[derive(Drop)]
pub enum Wrong {
    /// A quote is open where the line ends.
    Open,
    /// It begins otherwise than by `never` or `always`.
    NoClaim,
    /// It doesn't say what is claimed.
    Nothing,
    /// What it says is no request: why.
    NoRequest(Vec<u8>),
    /// The path of what it says is no pattern.
    NoPattern,
    /// A word stands where a clause begins, and begins none.
    NoClause,
    /// The same clause stands there before.
    Twice,
    /// Such a claim has no such clause.
    NotHere,
    /// A clause names nothing.
    NoName,
    /// It isn't said where a task begins that never comes somewhere.
    NoFrom,
    /// Where a task comes to is said, and what is claimed is neither an execution nor a change of profile.
    NoLead,
    /// No profile has such a name.
    NoProfile,
    /// No path that can be asked for is matched.
    NoPath,
    /// It is about no profile.
    Nobody,
    /// No profile has the name to which it would be changed.
    NoChange,
    /// What is claimed leads to none of the labels behind `to`, whatever the rules say.
    Elsewhere,
    /// It is about tasks without a profile alone, which are granted all that it says.
    Granted,
    /// Whoever it is about is at the one label that it names.
    There,
    /// There are more than 65,536 claims with it.
    TooMany,
}

/// Why claims aren't answered.
#[derive(Drop)]
pub enum ClaimFault {
    NoMemory,
    /// At that byte of the text something is wrong.
    At(usize, Wrong),
}

impl From<AllocError> for ClaimFault {
    ghost use Rattle.std.specs.Prelude.{◌≡◌};
    ghost use Rattle.aa_claims.specs.declared.fault.ClaimFault.TheVariants as fault;

    ghost from_gives = { λ _ e. e ≡ fault.NoMemory };

    fn from(_e: AllocError) -> ClaimFault {
        ClaimFault::NoMemory
    }
}

impl<T: Drop> From<AllocFailed<T>> for ClaimFault {
    ghost use Rattle.std.specs.Prelude.{◌≡◌};
    ghost use Rattle.aa_claims.specs.declared.fault.ClaimFault.TheVariants as fault;

    ghost from_gives = { λ _ e. e ≡ fault.NoMemory };

    fn from(_e: AllocFailed<T>) -> ClaimFault {
        ClaimFault::NoMemory
    }
}
