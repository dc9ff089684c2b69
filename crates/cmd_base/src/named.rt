//! Refusals that name an instance of the chart: the event that was asked for, what is missing, and the line.
//!
//! [`instance_named`] finds an instance by the bytes of its name. [`has_event`] finds out whether the instance's line
//! has an event of a number.
//!
//! What is promised ([`refused_at`], [`refused_missing`]): the line has the refusal's number and name, then the
//! instance's name, then a number, if there is one. The line was written, or a beginning of it if a put failed. Nothing
//! here takes memory.

mod asked;
mod line;
mod missing;

pub use asked::{has_event, instance_named};
pub use line::refused_at;
pub use missing::{Missing, missing_on, refused_missing};
