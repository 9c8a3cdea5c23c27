//! What the workers serve: a server beside its lane, or another thing that has turns and settles at last.
ghost use Rattle.std.specs.Prelude.{Bool};
ghost use Rattle.aa_pool.specs.Turns.{Turns};

/// What a turn came to.
#[derive(Drop)]
pub enum Turn<T> {
    /// There may be more to do.
    GoesOn(T),
    /// There is nothing to do any more.
    Settled(T),
}

/// What a worker serves, turn by turn. Where it belongs stays the same.
pub trait Serving {
    /// Where it belongs.
    type Place;

    ghost place: { Self → Self.Place };

    ghost is_settled: { Self → Bool };

    /// Serves for one turn, and says how many requests were answered in it.
    fn serve(self, did: &mut u64) -> Turn<Self>
        ensures { Turns place is_settled self result };
}
