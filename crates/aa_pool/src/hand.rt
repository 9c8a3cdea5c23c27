//! The rule of the pool's queue, and what its steps tell: each server that was handed in stands once, in the queue or with one pass.
ghost use Rattle.std.specs.Prelude.{◌≡◌, ◌+◌, ◌-◌, ◌≤◌, ◌++◌, [], ◌∷◌, false, length, map, List};
ghost use Rattle.std.specs.List.Sorted.{IsPermutation};
ghost use Rattle.aa_pool.specs.Once.{hand, all_parts, StandsOnce};

use crate::serving::Serving;
use crossbeam_queue::protocol::{Join, Lesson, Outcome, Protocol, Split};
use crossbeam_queue::{Pass, RuledArrayQueue};
use std::collections::LinkedList;

// What a pass knows: its parts of the right to know the whole, the places of what was handed in by it, and of what it holds. No
// value of it is made.
pub struct Hand<P> {
    pub parts: u64,
    pub handed: LinkedList<P>,
    pub held: LinkedList<P>,
}

pub struct Once;

impl<T: Serving> Protocol<T, Hand<T::Place>> for Once {
    ghost holds = { StandsOnce T.place };

    ghost first = { hand 17 [] [] };
}

// A pass with one part is cut off.
pub struct Part;

impl<P> Split<Hand<P>> for Part {
    ghost left = { λ v. hand (v.parts - 1) v.handed v.held };

    ghost right = { λ v. hand 1 [] [] };
}

impl<P> Join<Hand<P>> for Part {
    ghost both = { λ v w. hand (v.parts + w.parts) v.handed (v.held ++ w.held) };

    ghost spent = { hand 0 [] [] };
}

// Something is handed in.
pub struct HandsIn;

impl<T: Serving> Outcome<T, Hand<T::Place>> for HandsIn {
    ghost then = { λ v x w. w ≡ hand v.parts (v.handed ++ T.place x ∷ []) v.held };
}

impl<T: Serving> Lesson<T, Hand<T::Place>> for HandsIn {
    ghost fact = { λ v items. length v.held + length items ≤ length v.handed };
}

// A worker takes the first.
pub struct Takes;

impl<T: Serving> Outcome<T, Hand<T::Place>> for Takes {
    ghost then = { λ v x w. w ≡ hand v.parts v.handed (v.held ++ T.place x ∷ []) };
}

impl<T: Serving> Lesson<T, Hand<T::Place>> for Takes {
    ghost fact = { λ v items. Unit {0} };
}

// A worker puts back what it took last, which isn't settled.
pub struct Puts;

impl<T: Serving> Outcome<T, Hand<T::Place>> for Puts {
    ghost then = { λ v x w. (T.is_settled x ≡ false) × ((held : List T.Place) → v.held ≡ held ++ T.place x ∷ [] → w ≡ hand v.parts v.handed held) };
}

impl<T: Serving> Lesson<T, Hand<T::Place>> for Puts {
    ghost fact = { λ v items. Unit {0} };
}

// The pass that handed in takes the first of the rest, and finds nothing only where it holds all.
pub struct TakesRest;

impl<T: Serving> Outcome<T, Hand<T::Place>> for TakesRest {
    ghost then = { λ v x w. (w ≡ hand v.parts v.handed (v.held ++ T.place x ∷ [])) × (length w.held ≤ length v.handed) };
}

impl<T: Serving> Lesson<T, Hand<T::Place>> for TakesRest {
    ghost fact = { λ v items. IsPermutation v.handed (v.held ++ map T.place items) };
}

// The pass that handed in holds no more than that.
pub struct Room;

impl<T: Serving> Lesson<T, Hand<T::Place>> for Room {
    ghost fact = { λ v items. length v.held + length items ≤ length v.handed };
}

pub type Queue<T: Serving> = RuledArrayQueue<T, Hand<T::Place>, Once>;

pub type Hold<T: Serving> = Pass<T, Hand<T::Place>>;
