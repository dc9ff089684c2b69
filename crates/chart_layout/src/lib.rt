//! The rows of a chart's drawing: which events are in which row.
//!
//! Each row of a drawing has one thing: a message with its send and its receive side by side, or one event alone. The
//! usual tools draw message sequence charts in this way, and no two labels meet.
//!
//! What is promised, unless an allocation is refused ([`layout`]):
//!
//! - Each event of the chart is in one row, and nothing else is. The events of each line go down in their order.
//! - The ends of a message in one row belong together. A receive alone is lower than its send, so no receive is higher
//!   than its send.
//! - The rows come in the order of a run, if the caller has one: each event of the run has a row, and a receive that
//!   comes directly after its send is in the send's row. Otherwise they are picked from the top down: first a receive
//!   whose send has its row, then a level message, then a send alone.
//! - This leaves no choice: a chart has one layout for its turns ([`one_layout_law`]).
//! - The row of each event is found in constant time ([`Layout::row_of`]).
//!
//! [`kept_turns`] has the law that turns are kept. [`margin`] has the notes beside the rows.
#![tactic(auto)]

mod drawing;
mod ends;
mod finding;
pub mod kept_turns;
pub mod margin;
mod row;
mod rows;
mod turns;

pub use drawing::{layout, one_layout_law};
pub use ends::Ends;
pub use finding::event_in;
pub use row::Row;
pub use rows::Layout;
