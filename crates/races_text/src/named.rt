//! Writes the races of a chart by the names of their messages. The form is words, with a line for each range of earlier
//! events, or JSON, with an object for each receive.
//!
//! [`write_races`] writes exactly the ranges of the chart's reports, for the instances of the query and the earlier
//! events that it shows. Each range is as long as possible, and has the names of its messages. If a put fails (F24), a
//! beginning of this text was written. Nothing here takes memory.
//!
//! The parts of these texts are public, for crates that write more about each range.

mod json;
mod kept;
mod listing;
mod plain;
mod stretches;
mod words;

pub use json::{add_message_and_sender, add_messages, add_number, add_range_front};
pub use kept::goes_on;
pub use listing::{Form, RaceQuery, either, is_among, passed_by, write_races};
pub use plain::{add_line, add_race, add_range, last_of};
pub use shown_races::event_at;
pub use stretches::KeptEvents;
pub(crate) use stretches::{behind, no_events};
pub use words::{Word, add_event_at, add_name, add_word};
