//! A law of layouts: a layout keeps the turns of a run.
//!
//! What is promised ([`kept_turns_law`], `specs/KeptTurns/Runs`): suppose that the turns are those of a run of the
//! chart. Then the rows of its layout, from the top, have the events in the run's order. Nothing here runs.

mod laws;

pub use laws::kept_turns_law;
