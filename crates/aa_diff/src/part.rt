//! What is compared.

use aa_command::Decided;
use aa_skipped::Skipped;

/// The one policy of the files of a side that are read, and the files that are skipped.
#[derive(Clone, Copy)]
pub(crate) struct Part<'a> {
    pub(crate) decided: Decided<'a>,
    pub(crate) skipped: &'a [Skipped],
}
