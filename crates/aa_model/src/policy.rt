//! Profiles, and the policy that they make.

ghost use Rattle.aa_model.specs.Lawful.{IsLawful};
ghost use Rattle.std.proofs.Props.{props};

use crate::rule::{CapRule, ChangeRule, FileRule, NetRule};
use aa_base::{Seq, Spot, Text};
use aa_pattern::Pattern;

/// A profile with its rules.
#[derive(Drop)]
pub struct Profile {
    /// Where the word stands that names it.
    pub at: Spot,
    /// Its full name.
    pub name: Text,
    /// The number of the profile that holds it, if it is a child.
    pub parent: Option<u16>,
    /// A program whose path one of these matches runs under it.
    pub attachments: Seq<Pattern>,
    pub complain: bool,
    pub audit: bool,
    pub files: Seq<FileRule>,
    pub caps: Seq<CapRule>,
    pub nets: Seq<NetRule>,
    pub changes: Seq<ChangeRule>,
}

/// A rule that is read and never decides.
#[derive(Drop)]
pub struct PassedOver {
    /// The number of the profile whose body has it.
    pub profile: u16,
    /// Its keyword.
    pub kind: Text,
}

/// The profiles in the order of their first word, a parent before its children.
// What every policy keeps is a ghost field with at most one proof: two policies with the same profiles and rules passed over
// are one value. The limits stand in one record over the profiles, which what words spell cites too.
#[derive(Drop)]
pub struct Policy {
    pub profiles: Seq<Profile>,
    pub passed_over: Seq<PassedOver>,
    pub ghost lawful: { IsLawful profiles } by { Prim.hlevel props },
}
