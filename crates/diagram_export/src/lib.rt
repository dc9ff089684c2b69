//! Charts as texts of other tools: mscgen, PlantUML and Mermaid, and as logs with vector clocks for ShiViz.
//!
//! What is promised:
//!
//! - [`write_export`] writes the text of the export and nothing else. A contract defines each byte of it
//!   (`specs/ExportText`): the participants, and then the rows of the layout from the top. The races of a receive are a
//!   note below its row, which names the earlier events by their messages.
//! - A level message is one arrow, and a message that waits is a lost arrow. If the ends of a message are in two rows,
//!   mscgen has a slanted arrow. The other tools have two notes, which state the two events.
//! - [`write_log`] writes each event on a line with its vector time ([`Log::of`]). Each instance counts its own events.
//!   A receive takes the greater of each two entries, its own and the message's.
//! - The input is that of the caller ([`Export::of`]): the chart, its layout, the ends of its messages and the reports
//!   of its receives.
//! - F24: if a put fails, a beginning of the text was written, and no other put is tried. F6: only [`Export::of`] and
//!   [`Log::of`] take memory, and they fail only if memory runs out.
#![tactic(auto)]

mod clocks;
mod earlier;
mod export;
mod log;
mod log_text;
mod part;
mod preparing;
mod saying;
mod source;
mod spelling;
mod word;
mod writing;

pub use export::Export;
pub use log::Log;
pub use log_text::write_log;
pub use saying::has_parted;
pub use source::ExportSource;
pub use writing::write_export;
