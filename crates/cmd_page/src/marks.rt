//! The races of a page, and the events that it marks for each, as numbers.
//!
//! Unless an allocation is refused, there is a race for each range of earlier events in each receive's report
//! ([`pairs_of`]). [`marks_of`] returns all events that must come before a receive: a number of first events for each
//! line, and the earlier receives from its sender.

mod marks;
mod pairs;

pub use marks::{Marks, line_of, marks_of};
pub use pairs::{MOST_BYTES, MOST_EXPLAINED, RaceRange, explained_of, pairs_of, races_in};
