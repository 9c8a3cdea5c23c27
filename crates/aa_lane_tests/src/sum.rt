//! A machine that adds numbers.
ghost use Rattle.std.specs.Prelude.{◌+◌, ◌%◌};

use aa_machine::Machine;

/// Adds the request to the state, modulo 1,000, and answers the new state.
#[derive(Drop)]
pub struct Sum;

impl Machine for Sum {
    type State = u64;

    type Request = u64;

    type Answer = u64;

    ghost next = { λ _ s q. (s % 1000 + q % 1000) % 1000 };

    ghost reply = { λ _ s q. (s % 1000 + q % 1000) % 1000 };

    fn step(&self, state: &mut u64, request: &u64) -> u64 {
        *state = (*state % 1000 + *request % 1000) % 1000;
        *state
    }
}

/// The sum of the numbers up to `last`, modulo 1,000, without adding them up.
pub fn sum_up_to(last: u64) -> u64 {
    (last % 2000).wrapping_mul(last.wrapping_add(1) % 2000) / 2 % 1000
}
