//! What decides requests.
ghost use Rattle.std.specs.Prelude.{◌≡◌};

/// Decides requests one after another, from a state that each request may change.
///
/// The answer and the new state are a function of the machine, the state and the request: `reply` and `next`.
pub trait Machine {
    /// What the machine knows between two requests.
    type State: Copy;

    /// What is asked.
    type Request: Drop;

    /// What is answered.
    type Answer: Drop;

    // The state after a request, and the answer to it.
    ghost next: { Self → Self.State → Self.Request → Self.State };

    ghost reply: { Self → Self.State → Self.Request → Self.Answer };

    /// Answers a request, and moves the state on.
    fn step(&self, state: &mut Self::State, request: &Self::Request) -> Self::Answer
        ensures answer { result ≡ reply self.now state.old request.now }
        ensures state { state.new ≡ next self.now state.old request.now };
}
