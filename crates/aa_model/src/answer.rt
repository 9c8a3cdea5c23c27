//! What a request is answered.

use crate::label::Label;
use aa_base::Perms;

/// What an audit line says of a request.
#[derive(Clone, Copy, Debug, PartialEq, Eq)]
pub enum NoteWord {
    /// It was refused.
    Denied,
    /// It was granted, though the rules refuse it: its profile is in complain mode.
    Allowed,
    /// It was granted, and is reported since a rule or the profile asks for it.
    Audit,
}

/// What is reported of an answer, and the permissions that it is about.
#[derive(Clone, Copy, Debug, PartialEq, Eq)]
pub struct Note {
    pub word: NoteWord,
    pub perms: Perms,
}

/// The answer to a request.
#[derive(Clone, Copy, Debug, PartialEq, Eq)]
pub struct Answer {
    pub granted: bool,
    /// Whether the environment is to be scrubbed.
    pub scrub: bool,
    /// The label of the task from now on.
    pub label: Label,
    pub note: Option<Note>,
}
