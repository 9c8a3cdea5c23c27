//! Findings as they are told.

use aa_findings::Kind;
use aa_text::PlaceAt;

/// A place in a file.
#[derive(Drop)]
pub(crate) struct Site {
    pub(crate) path: Vec<u8>,
    pub(crate) place: PlaceAt,
}

/// A finding as it is told.
#[derive(Drop)]
pub(crate) struct Told {
    pub(crate) kind: Kind,
    pub(crate) at: Site,
    /// The full name of the profile.
    pub(crate) profile: Vec<u8>,
    /// Where the rule stands that is said again.
    pub(crate) earlier: Option<Site>,
    /// The full name of the profile that ties.
    pub(crate) other: Option<Vec<u8>>,
    /// A path that shows it.
    pub(crate) witness: Option<Vec<u8>>,
    /// How the rule reads, if it is one's.
    pub(crate) rule: Option<Vec<u8>>,
}
