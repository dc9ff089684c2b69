//! The laws of charts that are exported and imported again.
//!
//! What is promised:
//!
//! - A possible chart without coregions is exported for mscgen, in any rows that draw each of its received messages
//!   level. The import of this text has the same names and the same lines, whether the tool is named or detected
//!   ([`mscgen_law`]). A strict import does so too, if no receive has races: their notes would be skipped.
//! - If each message is received before the next one is sent, the chart's layout draws all of them level
//!   ([`level_law`]).
//! - There are such charts, with received messages and with lost ones ([`level_export_law`]).
#![tactic(auto)]

mod laws;

pub use laws::{level_export_law, level_law, mscgen_law};
