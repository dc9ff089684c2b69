//! The events of a chart's lines, by the numbers of instances and of events.
//!
//! What is promised: each function returns what the chart has at that place. Nothing here takes memory.

mod reading;

pub use reading::{event_at, events_at, events_of, len_of, line_of};
