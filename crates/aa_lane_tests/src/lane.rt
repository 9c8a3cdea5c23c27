//! Tests of lanes and of their worlds, from outside: worked rows, schedules, threads, and growths that are refused.

pub(crate) mod bench;
mod generic;
mod happenings;
mod lanes;
mod memory;
mod scales;
mod threads;
mod worlds;
