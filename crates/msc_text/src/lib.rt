//! Texts of charts, written and read (ITU-T Z.120 in this project's profile).
//!
//! Promises:
//!
//! - [`write`] writes exactly the chart's text, over any [`Out`]. If a put fails, a beginning of the text was written,
//!   exactly one put failed, and none was tried after it.
//! - [`reader`] reads exactly such texts. For any other text it returns the first fault.
//!
//! `texts` defines [`Out`] and its two implementations.
#![tactic(auto)]

mod chart_text;
mod race_text;
pub mod reader;

pub use chart_text::{add_chart, chart_name, write};
pub use race_text::{RaceLines, add_races};
pub use texts::{MemoryOut, Out, StreamOut};
