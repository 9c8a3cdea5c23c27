//! What comparing two lists of policies gives.

use crate::at_labels::Difference;
use aa_model::Label;

/// What the patterns at labels have too much of.
#[derive(Clone, Copy, Debug, PartialEq, Eq)]
pub enum Excess {
    /// More patterns decide there than can be matched together.
    Patterns,
    /// The patterns need more states than the limit.
    States,
}

/// Labels that are called the same at which differences can't be told, and why.
#[derive(Clone, Copy, Debug, PartialEq, Eq)]
pub struct UntoldLabels {
    pub from: Label,
    pub to: Label,
    pub why: Excess,
}

/// The requests that are answered differently, and the labels at which that can't be told.
#[derive(Drop)]
pub struct Comparison {
    pub differences: Vec<Difference>,
    pub untold: Vec<UntoldLabels>,
}
