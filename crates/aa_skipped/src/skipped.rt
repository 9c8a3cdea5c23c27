//! Files that are read, and files that are skipped.

use aa_files::Unit;
use aa_skipping::Unread;
use aa_text::FaultReport;

/// A file that is refused, with all that it includes, and so is skipped.
#[derive(Drop)]
pub struct Skipped {
    /// Its path, as the command line has it or its folder.
    pub path: Vec<u8>,
    /// Why.
    pub fault: FaultReport,
    /// What is known of its profiles.
    pub unread: Unread,
}

/// A file that is read, or skipped.
#[derive(Drop)]
pub(crate) enum Found {
    Read(Unit),
    Left(Skipped),
}

/// Those of some files that are read, and those that are skipped, each in their order.
#[derive(Drop)]
pub struct Sorted {
    pub units: Vec<Unit>,
    pub skipped: Vec<Skipped>,
}
