//! Shared parts of the readers of charts' and schedules' texts, which read a long text quickly.
//!
//! What is promised: a line's end is found many bytes at a time ([`next_line`]). Bytes that begin as expected continue
//! after that ([`behind`]). A word that was read before is recognized without a look at each of its bytes
//! ([`Guesses`]). What a word is, and what is wrong with it, is defined in `specs/Lines`.

mod guesses;
mod lines;

pub use guesses::Guesses;
pub use lines::{behind, next_line};
