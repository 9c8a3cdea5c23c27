//! Examples of the pool: what is opened and refused, what is shut, and lanes that several threads serve at once.

mod closing;
mod ends;
mod late;
mod opening;
mod pairs;
mod schedules;
mod serving;
