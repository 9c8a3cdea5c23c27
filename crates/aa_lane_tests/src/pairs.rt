//! A machine with two tasks whose requests wait for those of the other, so that one thread alone can't answer them.

use aa_machine::Machine;
use std::sync::atomic::{AtomicU64, Ordering};
use std::thread;

/// A request of one of the two tasks, its number there, and the number of that in the other task which it waits for.
#[derive(Clone, Copy)]
pub struct Numbered {
    pub is_first: bool,
    pub number: u64,
    pub awaited: u64,
}

/// How many requests of each task have begun. One that the other task keeps waiting for long gives up, as do all after it,
/// which is noted.
#[derive(Drop)]
pub struct Pairs {
    first: AtomicU64,
    second: AtomicU64,
    given_up: AtomicU64,
}

impl Pairs {
    pub fn new() -> Pairs {
        Pairs {
            first: AtomicU64::new(0),
            second: AtomicU64::new(0),
            given_up: AtomicU64::new(0),
        }
    }

    /// 1 where a request gave up, else 0.
    pub fn given_up(&self) -> u64 {
        self.given_up.load(Ordering::SeqCst)
    }
}

impl Machine for Pairs {
    type State = ();

    type Request = Numbered;

    type Answer = u64;

    ghost next = { λ _ s q. s };

    ghost reply = { λ _ s q. q.number };

    fn step(&self, _state: &mut (), request: &Numbered) -> u64 {
        let Numbered {
            number,
            awaited,
            ..
        } = *request;
        let (mine, other) = if request.is_first {
            (&self.first, &self.second)
        } else {
            (&self.second, &self.first)
        };
        mine.fetch_add(1, Ordering::SeqCst);
        for _ in 0..10_000_000u32 {
            if other.load(Ordering::SeqCst) > awaited || self.given_up() == 1 {
                return number;
            }
            thread::yield_now();
        }
        self.given_up.store(1, Ordering::SeqCst);
        number
    }
}
