//! What the words of a rule say as they are written, before any of it is given a meaning.
//!
//! Each tree with texts has a twin as plain data (`FileTree`, `FileData`): the trees' texts are slices of the words, which
//! differ by where they lie in memory too, and a meaning is a function of bytes. Places in the policy's text stand in both, for
//! the faults of the second pass.

use crate::modes::{ExecMode, Mode};
use aa_base::{Perms, Spot};
use aa_model::{CapRule, NetRule};

/// What stands before a rule (apparmor.d(5), "Qualifiers"). `allow` says what holds without it.
#[derive(Clone, Copy, Debug, PartialEq, Eq)]
pub struct Qualifiers {
    pub audit: bool,
    pub deny: bool,
}

/// How a rule lets a program be executed, as it is written.
#[derive(Clone, Copy, Debug)]
pub struct ExecTree<'s> {
    pub mode: ExecMode,
    /// The name behind the arrow, as its raw bytes.
    pub target: Option<&'s [u8]>,
}

/// What a file rule grants, and where, as it is written.
#[derive(Clone, Copy, Debug)]
pub struct EntryTree<'s> {
    /// Where the word stands that says the path.
    pub at: Spot,
    pub path: &'s [u8],
    pub mode: Mode,
}

/// A file rule as it is written.
#[derive(Drop)]
pub struct FileTree<'s> {
    pub qualifiers: Qualifiers,
    /// Whether `owner` stands before its path.
    pub owner: bool,
    /// Where its path stands, or `file` by itself.
    pub at: Spot,
    /// The path, as its raw bytes.
    pub path: &'s [u8],
    /// What its mode grants.
    pub perms: Perms,
    /// How its mode lets a program be executed, if it says how.
    pub exec: Option<ExecTree<'s>>,
}

/// The name behind an arrow, as it is written.
#[derive(Clone, Copy, Debug)]
pub struct NameTree<'s> {
    /// Where its word stands.
    pub at: Spot,
    /// Its raw bytes.
    pub text: &'s [u8],
}

/// A rule on changes of profile as it is written.
#[derive(Clone, Copy, Debug)]
pub struct ChangeTree<'s> {
    pub qualifiers: Qualifiers,
    /// The name behind its arrow; without one it holds for every name.
    pub name: Option<NameTree<'s>>,
}

/// A rule of a body as it is written.
#[derive(Drop)]
pub enum RuleTree<'s> {
    /// On files.
    File(FileTree<'s>),
    /// On capabilities.
    Cap(CapRule),
    /// On sockets.
    Net(NetRule),
    /// On changes of profile.
    Change(ChangeTree<'s>),
    /// One that is passed over, by its keyword.
    PassedOver(&'s [u8]),
}
