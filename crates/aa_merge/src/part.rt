//! What a part says, as it lies in memory.

use aa_logs::Then;
use aa_model::Request;

/// A row of requests.
#[derive(Drop)]
pub struct PartRow {
    pub then: Then,
    pub profile: Vec<u8>,
    pub request: Request,
    pub count: u64,
    /// The log of the first line that asks it.
    pub path: Vec<u8>,
    /// That line, from 1.
    pub line: u64,
}

/// Lines that ask nothing, for one reason.
#[derive(Drop)]
pub struct PartSkipped {
    /// The reason's place in the order in which reasons are printed, and its name.
    pub reason: (u8, &'static str),
    pub count: u64,
    /// The log of the first such line.
    pub path: Vec<u8>,
    /// That line, from 1.
    pub line: u64,
}

/// How many lines aren't understood, and where the first is.
#[derive(Drop)]
pub struct PartUnclear {
    pub count: u64,
    pub path: Vec<u8>,
    pub line: u64,
}

/// A report of a part of logs.
#[derive(Drop)]
pub struct Part {
    pub requests: Vec<PartRow>,
    pub skipped: Vec<PartSkipped>,
    /// Each line that asks nothing, where these are listed.
    pub each: Option<Vec<PartSkipped>>,
    pub lines: u64,
    pub asking: u64,
    pub other: u64,
    /// How many lines aren't wanted, where not all are.
    pub left_out: Option<u64>,
    pub unclear: Option<PartUnclear>,
}
