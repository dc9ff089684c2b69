//! Whose turn it was in a run of a schedule.
//!
//! What is promised: the turns are those of the commands that send or receive and left no note, in order
//! ([`turns_of`]). Each of these made one event of the run, and no other command did. Memory is the only refusal.

mod turns;

pub use turns::{is_noted, turns_of};
