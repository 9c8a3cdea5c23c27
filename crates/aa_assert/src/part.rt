//! What claims are answered by.

use aa_command::Decided;
use aa_skipped::Skipped;

/// The one policy of the files that are read, the files that are skipped, and whether requests at unclean paths count as others.
#[derive(Clone, Copy)]
pub(crate) struct Part<'a> {
    pub(crate) decided: Decided<'a>,
    pub(crate) skipped: &'a [Skipped],
    pub(crate) unclean: bool,
}
