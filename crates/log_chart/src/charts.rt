//! The charts of logs.
//!
//! Promises of [`build`], unless an allocation is refused:
//!
//! - Each log of two hosts or more has a chart, unless a host has too many events, and the chart is possible.
//! - The events of a host are its lines, in their order, without the skipped lines and with the invented sends. All of
//!   these are listed.
//! - Each receive has the send that the rules of `log_chart` and `log_chart::cycles` give it.
//! - The chart puts the event of a line before that of another line only if the log does ([`chart_order_law`]).

mod building;
mod chart_lines;
mod laws;
mod listing;

pub use building::{BuildError, LogChart, build};
pub use laws::chart_order_law;
pub use listing::Overtaking;
