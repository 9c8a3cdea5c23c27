//! Why a policy is refused.

ghost use Rattle.std.specs.Prelude.{◌≡◌};
ghost use Rattle.aa_base.specs.Kinds.{kind_number, kind_name, at_start};

use std::alloc::{AllocError, AllocFailed};
use thiserror::Error;

/// A place in the sources: a byte of a file.
#[derive(Clone, Copy, Debug, PartialEq, Eq)]
pub struct Spot {
    /// The source's number: 0 is the main text, added ones are 1, 2, .. in order.
    pub file: u16,
    /// The byte, counted from 0.
    pub byte: u32,
}

/// The kinds of refusal, numbered from 1 in this order.
#[derive(Clone, Copy, Debug, PartialEq, Eq)]
pub enum PolicyKind {
    /// Memory ran out. Points at 0:0.
    NoMemory,
    /// An include names a source that is not there. Points at its first byte.
    MissingInclude,
    /// An include goes too deep. Points at its first byte.
    IncludeDepth,
    /// The text is no policy. Points at the word or byte at which it was found, or at the end.
    Syntax,
    /// A part of the language that is left out. Points like `Syntax`.
    Unsupported,
    /// A word that no table has. Points at it.
    UnknownWord,
    /// A mode that is none. Points at it.
    BadMode,
    /// A mode with both `w` and `a`. Points at it.
    WriteWithAppend,
    /// A pattern that is none. Points at the word that holds it.
    BadPattern,
    /// A variable that is not set. Points at the assignment, or the word that uses it.
    UndefinedVariable,
    /// A variable that is set twice. Points at the later assignment.
    VariableTwice,
    /// Variables that name each other in a circle. Points at the word that holds the pattern.
    VariableCircle,
    /// Over 1,024 expansions. Points at the word that holds the pattern.
    TooManyExpansions,
    /// A pattern that does not begin with `/`. Points at the word that holds it.
    RelativePath,
    /// Two profiles of one full name. Points at the later name.
    DuplicateProfile,
    /// Exec rules that meet and differ. Points at the name of the profile.
    ConflictingExec,
    /// An automaton over the limit. Points at the name of the profile.
    TooManyStates,
    /// A text or a count over its limit. Points at 0:0, in an expansion at the word that holds the pattern.
    TooLarge,
}

impl PolicyKind {
    /// The number under which the kind is printed.
    pub fn number(self) -> u8
        ensures { result ≡ kind_number self }
    {
        match self {
            PolicyKind::NoMemory => 1,
            PolicyKind::MissingInclude => 2,
            PolicyKind::IncludeDepth => 3,
            PolicyKind::Syntax => 4,
            PolicyKind::Unsupported => 5,
            PolicyKind::UnknownWord => 6,
            PolicyKind::BadMode => 7,
            PolicyKind::WriteWithAppend => 8,
            PolicyKind::BadPattern => 9,
            PolicyKind::UndefinedVariable => 10,
            PolicyKind::VariableTwice => 11,
            PolicyKind::VariableCircle => 12,
            PolicyKind::TooManyExpansions => 13,
            PolicyKind::RelativePath => 14,
            PolicyKind::DuplicateProfile => 15,
            PolicyKind::ConflictingExec => 16,
            PolicyKind::TooManyStates => 17,
            PolicyKind::TooLarge => 18,
        }
    }

    /// The name under which the kind is printed.
    pub fn name(self) -> &'static str
        ensures { result.now ≡ kind_name self }
    {
        match self {
            PolicyKind::NoMemory => "NoMemory",
            PolicyKind::MissingInclude => "MissingInclude",
            PolicyKind::IncludeDepth => "IncludeDepth",
            PolicyKind::Syntax => "Syntax",
            PolicyKind::Unsupported => "Unsupported",
            PolicyKind::UnknownWord => "UnknownWord",
            PolicyKind::BadMode => "BadMode",
            PolicyKind::WriteWithAppend => "WriteWithAppend",
            PolicyKind::BadPattern => "BadPattern",
            PolicyKind::UndefinedVariable => "UndefinedVariable",
            PolicyKind::VariableTwice => "VariableTwice",
            PolicyKind::VariableCircle => "VariableCircle",
            PolicyKind::TooManyExpansions => "TooManyExpansions",
            PolicyKind::RelativePath => "RelativePath",
            PolicyKind::DuplicateProfile => "DuplicateProfile",
            PolicyKind::ConflictingExec => "ConflictingExec",
            PolicyKind::TooManyStates => "TooManyStates",
            PolicyKind::TooLarge => "TooLarge",
        }
    }
}

/// Why a policy is refused, and where: printed as `refused 8 WriteWithAppend 0:15`, with number, kind, file and byte.
#[derive(Clone, Copy, Debug, PartialEq, Eq, Error)]
#[error("refused {} {} {}:{}", .kind.number(), .kind.name(), .at.file, .at.byte)]
pub struct PolicyFault {
    /// Why.
    pub kind: PolicyKind,
    /// Where.
    pub at: Spot,
}

impl PolicyFault {
    /// Memory ran out.
    pub const NO_MEMORY: PolicyFault = PolicyFault {
        kind: PolicyKind::NoMemory,
        at: Spot { file: 0, byte: 0 },
    };

    /// A fault that points at the start of the main text.
    pub fn at_start(kind: PolicyKind) -> PolicyFault
        ensures { result ≡ at_start kind }
    {
        PolicyFault {
            kind,
            at: Spot { file: 0, byte: 0 },
        }
    }
}

impl From<AllocError> for PolicyFault {
    ghost use Rattle.std.specs.Prelude.{◌≡◌};
    ghost use Rattle.aa_base.specs.Kinds.{no_memory};

    ghost from_gives = { λ _ e. e ≡ no_memory };

    fn from(_e: AllocError) -> PolicyFault {
        PolicyFault::NO_MEMORY
    }
}

impl<T: Drop> From<AllocFailed<T>> for PolicyFault {
    ghost use Rattle.std.specs.Prelude.{◌≡◌};
    ghost use Rattle.aa_base.specs.Kinds.{no_memory};

    ghost from_gives = { λ _ e. e ≡ no_memory };

    fn from(_e: AllocFailed<T>) -> PolicyFault {
        PolicyFault::NO_MEMORY
    }
}

impl From<AllocError> for PolicyKind {
    ghost use Rattle.std.specs.Prelude.{◌≡◌};
    ghost use Rattle.aa_base.specs.declared.fault.PolicyKind.TheVariants.{NoMemory};

    ghost from_gives = { λ _ e. e ≡ NoMemory };

    fn from(_e: AllocError) -> PolicyKind {
        PolicyKind::NoMemory
    }
}

impl<T: Drop> From<AllocFailed<T>> for PolicyKind {
    ghost use Rattle.std.specs.Prelude.{◌≡◌};
    ghost use Rattle.aa_base.specs.declared.fault.PolicyKind.TheVariants.{NoMemory};

    ghost from_gives = { λ _ e. e ≡ NoMemory };

    fn from(_e: AllocFailed<T>) -> PolicyKind {
        PolicyKind::NoMemory
    }
}
