//! What a worker does for the thread that feeds, and that thread itself.
ghost use Rattle.std.specs.Prelude.{◌≡◌, ◌<◌};

use std::sync::ledger::{Ledger, Share};

/// What feeding all lanes once came to.
#[derive(Clone, Copy, PartialEq, Eq)]
pub enum Tended {
    /// An answer was collected, or a request sent.
    Fed,
    /// There was nothing to do, or another thread does it.
    Nothing,
    /// All owners have left.
    Finished,
}

/// Feeds lanes, for whoever asks.
pub trait Watch {
    /// Feeds each lane once, unless another thread is just at it.
    fn tend(&self) -> Tended;
}

/// Feeds lanes, for the thread that does nothing else.
pub trait Feeder<L: Ledger> {
    /// Feeds each lane once, unless another thread is just at it. That all owners have left counts.
    fn feed(&self, mine: &mut Share<L>) -> Tended
        requires part { 0 < mine.old.parts }
        ensures part { mine.new.parts ≡ mine.old.parts }
        ensures finished { result ≡ Tended.Finished → 0 < mine.new.amount };
}

/// Where nobody who serves is to feed.
#[derive(Drop)]
pub struct Unwatched;

impl Watch for Unwatched {
    fn tend(&self) -> Tended {
        Tended::Nothing
    }
}
