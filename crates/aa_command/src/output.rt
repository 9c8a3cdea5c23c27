//! What is printed, and the exit status.

ghost use Rattle.std.specs.Prelude.{◌≡◌, []};

use std::alloc::Global;

/// What is printed, and the exit status.
#[derive(Drop)]
pub struct Output {
    /// For standard output.
    pub answers: Vec<u8>,
    /// For standard error.
    pub faults: Vec<u8>,
    /// The fault for which nothing is answered, as an object of JSON; empty where there is none.
    pub refusal: Vec<u8>,
    pub status: u8,
}

impl Output {
    /// Nothing is printed yet, and the status is that of success.
    pub fn new(alloc: Global) -> Output
        ensures answers { result.answers.items ≡ [] }
        ensures faults { result.faults.items ≡ [] }
        ensures refusal { result.refusal.items ≡ [] }
        ensures status { result.status ≡ 0 }
    {
        Output {
            answers: Vec::new(alloc),
            faults: Vec::new(alloc),
            refusal: Vec::new(alloc),
            status: 0,
        }
    }
}
