//! Writes the races of a recording, each with a word: luck, or the reason why it isn't luck. Of a schedule the word may
//! be `any`: it isn't decided. The form is words, with a line for each range of earlier events that have one word. Or
//! it is JSON, with an object for each receive.
//!
//! [`Verdicts`] gives each race its verdict. [`write_luck`] writes exactly the ranges of the chart's reports, for the
//! instances of the query and the earlier events that it shows. The events of a range have one verdict, and each range
//! is as long as possible. With `luck` only the ranges of luck and of `any` are written. If a put fails (F24), a
//! beginning of this text was written. Nothing here takes memory.
//!
//! The summary ([`RaceSummary`]) states whether a race of the query is shown, whether there is one, and whether one
//! isn't begun in the middle.
//!
//! [`LogVerdicts`] gives the verdicts of a log's recording. [`all_parts`] has the ranges of a receive in memory, and
//! [`add_race`] writes one of them. Other texts with the same ranges and words use both.

mod json;
mod listing;
mod log_verdicts;
mod part;
mod parts;
mod plain;
mod range_parts;
mod summary;
mod verdicts;

pub use listing::{VerdictQuery, write_luck};
pub use log_verdicts::LogVerdicts;
pub use part::Part;
pub use parts::{PartsLeft, next_part, parts_of};
pub use plain::add_race;
pub use range_parts::all_parts;
pub use summary::RaceSummary;
pub use verdicts::Verdicts;
