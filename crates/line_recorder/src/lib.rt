//! What an instance records of itself while it runs: its line, what it knows by vector time, and the races of each of
//! its receives, found as the message comes. Vector time is from Fidge 1988 and Mattern 1989. The races are those of
//! Alur, Holzmann, Peled 1996, in this project's profile.
//!
//! Promises:
//!
//! - A send adds exactly its event, and returns what is known with the event's own index ([`Recorder::send`]).
//!   Several sends are all recorded, or none is ([`Recorder::send_many`]).
//! - A receive's report is made only from its message's clock. The report is kept, and the clock is merged
//!   ([`Recorder::receive`]).
//! - The same holds for clocks that are given as differences from another clock. No clock is copied then
//!   ([`Recorder::begin_send`], [`Recorder::receive_over`]).
//! - For several sends, all steps that can be refused come before the first send ([`Recorder::ready_sends`]). The first
//!   send is then recorded, and each later one makes a difference of one entry ([`Recorder::send_ready`],
//!   [`Recorder::send_next`]).
//! - A full line (F7), and then a refused allocation (F6), leave everything as it was.
//! - [`Recorder::reserve`] makes room for events, and each event takes one place of it. With room, a send among up to
//!   eight instances isn't refused for lack of memory.
//! - If a recorder knows what its line has heard, the clock of its next send is what that send knows in the chart. The
//!   send has to be the line's last event, or the chart without a cycle ([`laws::knowledge_law`],
//!   [`laws::clock_law`]). If a message's clock is what its send knows, the report is the receive's
//!   ([`laws::report_law`]).
//! - Along any legal history these clocks are what the sends know ([`laws::history_law`]).
#![tactic(auto)]

mod error;
mod kept_reports;
pub mod laws;
mod recorder;
mod several;

pub use error::RecordError;
pub use recorder::Recorder;
