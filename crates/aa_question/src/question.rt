//! What is asked of policy files in memory.

ghost use Rattle.std.specs.Prelude.{◌≡◌};
ghost use Rattle.aa_question.specs.Questions.{member_name};

use crate::memory::Texts;
use aa_base::Text;
use std::alloc::{AllocError, AllocFailed};

/// A member of a question.
#[derive(Clone, Copy, Debug, PartialEq, Eq)]
pub enum Member {
    Files,
    Includes,
    Base,
    Folders,
    States,
    Profile,
    Program,
    Owned,
    Sequence,
    Words,
    Old,
    New,
    Gains,
    Profiles,
}

impl Member {
    /// Its name in the text of a question.
    pub fn name(self) -> &'static str
        ensures { result.now ≡ member_name self }
    {
        match self {
            Member::Files => "files",
            Member::Includes => "includes",
            Member::Base => "base",
            Member::Folders => "folders",
            Member::States => "states",
            Member::Profile => "profile",
            Member::Program => "program",
            Member::Owned => "owned",
            Member::Sequence => "sequence",
            Member::Words => "words",
            Member::Old => "old",
            Member::New => "new",
            Member::Gains => "gains",
            Member::Profiles => "profiles",
        }
    }
}

/// Why bytes are no question. Of several faults the first counts; of members the first in the order above.
#[derive(Drop)]
pub enum QuestionFault {
    NoMemory,
    /// The bytes are no UTF-8, or no JSON that nests at most 127 deep.
    NotJson,
    NotObject,
    /// There is no such member; of several the first in byte order.
    Unknown(Text),
    /// The member is missing, or its value is of another kind or out of its range.
    Bad(Member),
    /// There is no such member of the object that the former member is.
    UnknownIn(Member, Text),
    /// The latter member of the object that the former is is missing, or its value is of another kind or out of its range.
    BadIn(Member, Member),
}

impl From<AllocError> for QuestionFault {
    ghost use Rattle.aa_question.specs.declared.question.QuestionFault.TheVariants.{NoMemory};

    ghost from_gives = { λ _ e. e ≡ NoMemory };

    fn from(_e: AllocError) -> QuestionFault {
        QuestionFault::NoMemory
    }
}

impl<T: Drop> From<AllocFailed<T>> for QuestionFault {
    ghost use Rattle.aa_question.specs.declared.question.QuestionFault.TheVariants.{NoMemory};

    ghost from_gives = { λ _ e. e ≡ NoMemory };

    fn from(_e: AllocFailed<T>) -> QuestionFault {
        QuestionFault::NoMemory
    }
}

/// The files that are asked, and what lies where.
#[derive(Drop)]
pub struct AskedFiles {
    /// The paths of the files that are asked, in order; one at least.
    pub paths: Vec<Vec<u8>>,
    /// Their texts, and those that may be included.
    pub texts: Texts,
}

/// Where includes are searched, and how large an automaton may be.
#[derive(Drop)]
pub struct AskedPlaces {
    pub base: Vec<u8>,
    /// The folders in which includes are searched before the base folder, in order.
    pub folders: Vec<Vec<u8>>,
    /// How many states an automaton may have.
    pub states: u32,
}

/// How requests are asked.
#[derive(Drop)]
pub struct AskedManner {
    pub profile: Option<Vec<u8>>,
    pub program: Option<Vec<u8>>,
    /// Whether every object is the task's user's.
    pub owned: bool,
    /// Whether the requests are one task's.
    pub is_sequence: bool,
}

/// A question.
#[derive(Drop)]
pub struct Question {
    pub files: AskedFiles,
    pub places: AskedPlaces,
    pub manner: AskedManner,
    /// What is asked.
    pub words: Vec<Vec<u8>>,
}

/// One side of a comparison.
#[derive(Drop)]
pub struct AskedSide {
    pub files: AskedFiles,
    pub places: AskedPlaces,
}

/// A question how two policies differ.
#[derive(Drop)]
pub struct DiffQuestion {
    pub old: AskedSide,
    pub new: AskedSide,
    /// Whether gains alone are wanted.
    pub gains: bool,
    /// The profiles whose lines are wanted; of all where there are none.
    pub profiles: Vec<Vec<u8>>,
}
