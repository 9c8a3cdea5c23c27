//! What is known of profiles that weren't read.

use aa_base::{Seq, Text};
use aa_pattern::Pattern;

/// A top-level profile of which the head alone is known.
#[derive(Drop)]
pub struct Head {
    /// Its full name.
    pub name: Text,
    /// A program whose path one of these matches runs under it.
    pub attachments: Seq<Pattern>,
}

/// Top-level profiles that weren't read, nor their children.
#[derive(Drop)]
pub struct Unread {
    /// Those of which the head is known.
    pub heads: Seq<Head>,
    /// Whether there may be others, of which nothing is known.
    pub others: bool,
}
