//! Logs whose events have vector time, and the messages that follow from their clocks.
//!
//! Promises of [`by_clocks`], unless an allocation is refused:
//!
//! - What is read is a function of a log's events and of their clocks.
//! - An event in words is read by its words. Any other event has a receive from each host whose entry grew and isn't
//!   implied by another entry that grew. The send is the event of that host with this entry.
//! - So each message that follows from clocks goes to an event whose clock has the event of its send.
//!
//! If clocks are vector time, an event comes before another one only if its clock is less. This holds in the log
//! ([`order_law`]), in what is read of it by clocks alone ([`read_law`]), and in its chart ([`clock_chart_law`]).

mod ends;
mod heard;
mod laws;
mod moment;
mod saying;
mod stamp;
mod tables;

pub use laws::{clock_chart_law, order_law, read_law};
pub use saying::{Timed, by_clocks};
