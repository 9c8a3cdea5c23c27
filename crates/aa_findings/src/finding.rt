//! What is found.

use aa_base::Text;

/// Why a rule or an attachment is found.
#[derive(Clone, Copy)]
pub enum Kind {
    /// What the rule lets execute may end unconfined.
    UnconfinedExec,
    /// What the rule lets write may be executed in the same profile.
    WrittenExec,
    /// The rule holds for all files.
    AllFiles,
    /// The rule lets change to each profile, and to none.
    AnyProfile,
    /// The rule says what an earlier one says.
    Duplicate,
    /// The rule denies what no rule allows.
    IdleDeny,
    /// An earlier profile is attached as strongly.
    Tie,
}

/// What it is found of: the attachments of a profile, or a rule by its number in its list.
#[derive(Clone, Copy)]
pub enum Subject {
    Attachments,
    File(usize),
    Cap(usize),
    Net(usize),
    Change(usize),
}

/// A finding of a profile.
#[derive(Drop)]
pub struct Finding {
    pub kind: Kind,
    pub subject: Subject,
    /// The number of the earlier rule in the same list that says the same, or of the earlier profile that ties.
    pub other: Option<usize>,
    /// A path at which it shows, of the shortest that there are.
    pub path: Option<Text>,
}
