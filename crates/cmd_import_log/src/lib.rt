//! Whole logs of messages, and the output of `mscview import` for them.
//!
//! These are the promises of [`import`], given the matches of an expression and their groups:
//!
//! - With status 0 it wrote exactly the text of the log's chart, which some run has. The warnings on standard error
//!   list what the chart lacks of the log, and what the log lacks of the chart.
//! - With status 2 it wrote the refusal's line, or the beginning of it if standard error failed. Nothing was written
//!   to the output before, unless a write failed (F24).
//!
//! [`answers`] writes the warnings. [`recorded_luck_law`] states what luck means for the recording of texts
//! ([`recording_in`]). [`recorded_clock_law`] states when the chart of texts with vector time puts one of their events
//! before another.
#![tactic(auto)]

mod alike;
pub mod answers;
mod counting;
mod diagnostics;
mod entries;
mod error;
mod imported;
mod importing;
mod laws;
mod messages;
mod options;
mod reading;
mod recording;
mod refusing;
mod unread;

pub use error::LogImportError;
pub use imported::{ImportedLog, imported_log};
pub use importing::{LogWriteError, import};
pub use laws::{recorded_clock_law, recorded_luck_law};
pub use options::{Form, Options};
pub use recording::{LogRecording, recording_in};
pub use refusing::{refused_log, refused_one_end};
