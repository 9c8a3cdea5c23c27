//! What the rules of a profile say.

use aa_base::{Caps, Perms, Seq, Text};
use aa_pattern::Pattern;

/// Under which profile a program runs on (apparmor.d(5), "Access Modes").
#[derive(Clone, Copy, Debug, PartialEq, Eq)]
pub enum ExecKind {
    /// The profile of the task that executes it.
    Inherit,
    /// None.
    Unconfined,
    /// A profile of the policy.
    Profile,
    /// A child profile.
    Child,
}

/// What an execution does where its profile isn't found.
#[derive(Clone, Copy, Debug, PartialEq, Eq)]
pub enum Fallback {
    /// It is refused.
    Refuse,
    /// It stays in its profile.
    Inherit,
    /// It leaves all profiles.
    Unconfined,
}

/// A rule on capabilities.
#[derive(Clone, Copy, Debug, PartialEq, Eq)]
pub struct CapRule {
    pub audit: bool,
    pub deny: bool,
    pub caps: Caps,
}

/// A rule on sockets.
#[derive(Clone, Copy, Debug, PartialEq, Eq)]
pub struct NetRule {
    pub audit: bool,
    pub deny: bool,
    /// Bit n stands for entry n of the table of families.
    pub families: u64,
    /// Bit n stands for entry n of the table of socket types.
    pub kinds: u8,
}

/// How a program may be executed.
#[derive(Drop)]
pub struct Exec {
    pub kind: ExecKind,
    /// Whether the environment is to be scrubbed.
    pub scrub: bool,
    pub fallback: Fallback,
    /// The profile that the rule names behind its arrow.
    pub target: Option<Text>,
}

/// A rule on files.
#[derive(Drop)]
pub struct FileRule {
    pub audit: bool,
    pub deny: bool,
    /// Whether it holds for objects alone that the task's user owns.
    pub owner: bool,
    pub perms: Perms,
    pub exec: Option<Exec>,
    /// The rule applies to a path that one of these matches.
    pub patterns: Seq<Pattern>,
}

/// A rule on changes of profile, by which a task asks for another profile by its name.
#[derive(Drop)]
pub struct ChangeRule {
    pub audit: bool,
    pub deny: bool,
    /// The rule holds for a name that this matches; without one it holds for every name.
    pub pattern: Option<Pattern>,
}
