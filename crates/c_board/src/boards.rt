//! Copies of what a gathered board has, for another language: the text of its chart, its reports, and the messages that
//! wait on its lanes.
//!
//! Each call only reads the board, in the handle that keeps it. So several threads may read one board at once. If the
//! handle keeps no board, the call is a misuse. A call copies out as much as there is room for, and returns the whole
//! lengths.

mod left;
mod naming;
mod reports;
mod text;

pub use left::{LeftRefusal, Place, Waiting, waiting_at};
pub use naming::NamesRefusal;
pub use reports::{ReportRefusal, Reported, report_at};
pub use text::{TextRefusal, copy_text};
