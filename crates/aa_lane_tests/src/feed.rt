//! Examples of tasks that are answered through lanes by one worker and by many.

mod answers;
mod rests;
mod tasks;
mod turns;
