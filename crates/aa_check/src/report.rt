//! What is found of files.

ghost use Rattle.std.specs.Prelude.{◌≡◌, ◌==◌, map, if◌then◌else◌};
ghost use Rattle.aa_check.specs.Counts.{told, counts_of};

use aa_text::FaultReport;

/// What is counted of a profile.
#[derive(Drop)]
pub struct ProfileReport {
    pub name: Vec<u8>,
    /// The line of its name in its file.
    pub line: usize,
    pub files: usize,
    pub caps: usize,
    pub nets: usize,
    pub patterns: usize,
    /// How many states the automaton of its file rules has.
    pub states: usize,
    pub passed_over: usize,
}

/// One of the counts of a profile, as it is told.
#[derive(Clone, Copy)]
pub(crate) struct Count {
    /// The key of its member in JSON.
    pub key: &'static str,
    /// The words behind the number in the line of the profile.
    pub words: &'static str,
    pub number: usize,
}

fn called(key: &'static str, words: &'static str, number: usize) -> Count
    ensures { told result ≡ record { key = key.now; words = words.now; number = number } }
{
    Count { key, words, number }
}

impl ProfileReport {
    /// What is counted of it, in the order in which text and JSON tell it.
    pub(crate) fn counts(&self) -> [Count; 6]
        ensures { map told result ≡ counts_of self.now }
    {
        [
            called("files", " file", self.files),
            called("caps", " capability", self.caps),
            called("nets", " network", self.nets),
            called("patterns", " patterns", self.patterns),
            called("states", " states", self.states),
            called("passed_over", " passed over", self.passed_over),
        ]
    }
}

/// How often a keyword comes whose rules never decide.
#[derive(Drop)]
pub struct Passed {
    pub keyword: Vec<u8>,
    pub count: usize,
}

/// What is found of a file.
#[derive(Drop)]
pub struct FileReport {
    pub path: Vec<u8>,
    /// Its first fault, if it is refused.
    pub fault: Option<FaultReport>,
    /// The faults behind that one, each of the text in which the rules and assignments at fault before it are white space.
    pub further: Vec<FaultReport>,
    /// Whether it can't be read.
    pub is_unread: bool,
    /// How many profiles it seems to hold, where it is refused and its heads can be read.
    pub held: Option<usize>,
    pub profiles: Vec<ProfileReport>,
    pub passed_over: Vec<Passed>,
    pub warnings: Vec<Vec<u8>>,
}

/// What is found of all files.
#[derive(Drop)]
pub struct CheckReport {
    pub files: Vec<FileReport>,
    pub warnings: Vec<Vec<u8>>,
    pub refused: usize,
    pub profiles: usize,
    /// How many profiles the files that are refused seem to hold.
    pub held: usize,
    /// Of how many of them that can't be told.
    pub untold: usize,
    /// Whether something couldn't be read.
    pub is_unread: bool,
}

impl CheckReport {
    /// The exit status: of all that is wrong, that something can't be read tells first.
    pub fn status(&self) -> u8
        ensures { result ≡ (if self.now.is_unread then 3 else (if self.now.refused == 0 then 0 else 1)) }
    {
        if self.is_unread {
            3
        } else if self.refused > 0 {
            1
        } else {
            0
        }
    }
}
