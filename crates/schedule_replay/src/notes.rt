//! The notes that a schedule's commands leave, with their explanations.
//!
//! What is promised of [`notes_of`]: the notes are those that the schedule's commands leave, in order. The note of a
//! receive that found nothing has, in addition, the line of a send: the first later send on the receive's lane that is
//! done, if there is one. Memory is the only refusal. The function passes over the commands once, and then once
//! backwards.

mod lanes;
mod notes;
mod words;

pub use notes::{Noted, notes_of};
