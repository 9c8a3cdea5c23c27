//! What is answered where files are skipped.

use aa_ask::Verdict;
use aa_text::PlaceAt;

/// A skipped file, and where its fault lies.
#[derive(Drop)]
pub struct SkippedAt {
    pub path: Vec<u8>,
    /// The file in which the fault lies, itself or one that it includes.
    pub at: Vec<u8>,
    /// Where in that file, unless the fault is of the whole.
    pub place: Option<PlaceAt>,
}

/// A request that profiles of skipped files could decide otherwise.
#[derive(Drop)]
pub struct Doubt {
    /// The request as one word.
    pub word: Vec<u8>,
    /// The files that could; none where an earlier request of the task is undecided.
    pub files: Vec<SkippedAt>,
}

/// What is answered to a request.
#[derive(Drop)]
pub enum Answered {
    Decided(Verdict),
    Undecided(Doubt),
}
