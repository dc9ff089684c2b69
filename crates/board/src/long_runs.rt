//! Long runs: one board after another.
//!
//! The line of an instance has up to [`chart::MAX_EVENTS`] events. A longer run gathers its board, opens the next one,
//! and carries over to it what was left. [`carry_over`] sends again the messages that waited, each by its sender, and
//! closes again the lanes that were closed. Then each lane is as it was, and each board has a chart of its own.
//!
//! `specs/LongRuns/CarriedHistories.antt` defines the history that this makes, and `CarryingOver` what the call
//! answers. [`laws`] states what a caller needs: the result of [`crate::gather`] may be carried over (`premise_law`),
//! and the lanes stay as they were left (`carried_law`).

mod carrying;
pub mod laws;
mod steps;
mod untouched;

pub use carrying::{Carried, CarryCause, CarryError, carry_over};
