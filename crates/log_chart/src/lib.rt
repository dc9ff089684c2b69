//! Logs of messages, and the lines of their hosts.
//!
//! Promises of [`host_lines`], unless an allocation is refused:
//!
//! - Each receive takes the first send of its lane with its id or, without an id, with its name that no receive above
//!   it took.
//! - Lost messages and messages that overtake are skipped, and nothing else. The fate of each line is listed by its
//!   number.
//! - A host's line has its events that stay, in their order, and an invented send for each receive without a send. The
//!   invented send directly follows the send of the last message above the receive on its lane that isn't skipped. If
//!   there is none, it is at the head of the line.
//! - On each lane the n-th message that is received is the n-th one that is sent ([`lane_law`]).
//!
//! [`cycles`] frees receives until no line comes before itself, [`charts`] builds the chart, and [`named`] makes
//! entries of lines with names.
#![tactic(auto)]

mod begun;
mod chains;
pub mod charts;
pub mod cycles;
mod entry;
mod fate;
mod host_line;
mod item;
mod lane_sends;
mod laws;
mod line_building;
mod losing;
mod matching;
mod name_order;
pub mod named;

pub use begun::Begun;
pub use entry::{Entry, Kind, Place};
pub use fate::Fate;
pub use item::{Item, MessageNo, message_of};
pub use lane_sends::LaneTable;
pub use laws::lane_law;
pub use line_building::{HostLine, HostLines, host_lines, kept_lines};
pub use matching::{LogLine, is_send};
