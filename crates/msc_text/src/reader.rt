//! Reads the texts of charts.
//!
//! Promises of [`read`], unless an allocation is refused:
//!
//! - Names and a chart are returned exactly if the bytes are their text within the limits. The bytes that are read are
//!   the text of what is returned, and each such text is read.
//! - For any other bytes the first fault is returned, in the order of `docs/reference/charts.md`.
//! - No two pairs of names and chart have the same text ([`laws`]).

mod ahead;
mod builder;
mod event_line;
mod last_word;
pub mod laws;
mod reading;
mod state;
mod step;

pub use reading::read;
