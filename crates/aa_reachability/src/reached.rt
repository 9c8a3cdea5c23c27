//! What is found of the labels that a task can get to.

use crate::trail::Arrival;
use aa_model::Label;

/// Why it isn't told to which labels requests lead from another.
#[derive(Clone, Copy, Debug, PartialEq, Eq)]
pub enum Why {
    /// More patterns decide there than can be matched together.
    TooManyPatterns,
    /// The patterns need more states than the limit.
    TooManyStates,
}

/// A label that a task can get to, the number (from 0) of its arrival, and why it isn't told where requests lead on from there.
#[derive(Clone, Copy, Debug, PartialEq, Eq)]
pub struct Untold {
    pub number: usize,
    pub label: Label,
    pub why: Why,
}

/// The labels that a task can get to, and those of them from which it isn't told where requests lead on, in the same order.
#[derive(Drop)]
pub struct Reached {
    /// Those with shorter lists of requests first.
    pub arrivals: Vec<Arrival>,
    pub untold: Vec<Untold>,
}
