//! The laws of pictures: where the events of a chart are in its picture.
//!
//! What is promised:
//!
//! - The arrow of a message leads from the place of its send to that of its receive, if both are drawn. An event's
//!   place is on the line of its instance's column, at the height of its row ([`arrow_law`]).
//! - Each event that is drawn has one mark in the picture's text, at the event's place, and no other event has a mark
//!   ([`mark_law`]). No other marks are there ([`only_marks_law`]).
//! - In the picture of a chart beside its witness, both marked events are drawn on both sides, if their instance has a
//!   column. In the witness's picture they are the events of the same lanes and turns ([`witness_law`]).
#![tactic(auto)]

mod laws;

pub use laws::{arrow_law, mark_law, only_marks_law, witness_law};
