//! The policy that units are, and where its rules stand.

use crate::placed::PlacedUnit;
use aa_compile::Compiled;
use aa_explain::ProfilePlaces;

/// Units that are compiled as one policy, and where its rules stand.
#[derive(Clone, Copy)]
pub struct Decided<'u> {
    pub units: &'u [PlacedUnit<'u>],
    /// Of each profile, the number of its unit.
    pub owners: &'u [usize],
    /// The one policy that the units are.
    pub policies: &'u [Compiled],
    pub places: &'u [ProfilePlaces<'u>],
}
