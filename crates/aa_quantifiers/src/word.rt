//! Words: sets of requests.

ghost use Rattle.std.specs.Prelude.{◌≡◌};
ghost use Rattle.aa_quantifiers.specs.Words.{asks_for};

use aa_base::{Perms, Seq};
use aa_model::Request;
use aa_pattern::Pattern;

/// Whose objects are asked for.
#[derive(Clone, Copy, Debug, PartialEq, Eq)]
pub enum Whose {
    /// Those of the task's user, and those of others.
    Both,
    /// Those of the task's user.
    Owner,
    /// Those of others.
    Others,
}

impl Whose {
    /// Whether objects of that owner are asked for.
    pub(crate) fn asks(self, owned: bool) -> bool
        ensures { result ≡ asks_for self owned }
    {
        match self {
            Whose::Both => true,
            Whose::Owner => owned,
            Whose::Others => !owned,
        }
    }
}

/// To use files: at each path that the pattern matches, by each of the masks.
#[derive(Drop)]
pub struct FilesWord {
    pub pattern: Pattern,
    pub masks: Seq<Perms>,
    pub whose: Whose,
}

/// To execute files: at each path that the pattern matches.
#[derive(Drop)]
pub struct ExecsWord {
    pub pattern: Pattern,
    pub whose: Whose,
}

/// A set of requests.
#[derive(Drop)]
pub enum Word {
    Files(FilesWord),
    Execs(ExecsWord),
    /// The one request.
    One(Request),
}
