//! The warnings about a chart that was made from a log.
//!
//! [`write_diagnostics`] writes exactly the text of the warnings, or the beginning of it if a write fails. The
//! warnings count the lines that don't match. They list the skipped messages, the freed receives, the invented sends,
//! and the names that differ from their words. A line is named by its number, and also by its file if there are
//! several. [`write_claims`] adds that no race is claimed, if each is begun in the middle.

mod alike;
mod claims;
mod diagnostic_lines;
mod diagnostics;
mod events_read;
mod overtaking;

pub use alike::Alike;
pub(crate) use alike::add_all_alike;
pub use claims::write_claims;
pub(crate) use diagnostics::add_one_ended_note;
pub use diagnostics::{Diagnostics, write_diagnostics};
pub(crate) use events_read::{add_all_lined, add_all_lineless};
pub use overtaking::Overtaking;
