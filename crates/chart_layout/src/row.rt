//! Rows of a drawing.

use chart::EventNo;

/// A row of a drawing.
#[derive(Clone, Copy, Debug, PartialEq, Eq)]
pub enum Row {
    /// A message that is drawn level: its send and its receive are side by side.
    Message { send: EventNo, receive: EventNo },
    /// One event alone: a send whose receive is lower or whose message waits, or a receive whose send is higher.
    Event(EventNo),
}
