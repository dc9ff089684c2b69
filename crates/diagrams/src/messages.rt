//! The chart of messages whose sends and receives are in rows.
//!
//! [`chart_of`] promises this, unless an allocation is refused: each message is a send and, unless it is lost, a
//! receive. Each of them is in its row, on the line of its instance (`specs/Messages/Turns`, `specs/Messages/Regions`).
//! If messages follow each other (`specs/Messages/Following`), the chart is possible.

mod end;
mod line;
mod lines;
mod message;

pub use end::End;
pub use lines::chart_of;
pub use message::Named;
