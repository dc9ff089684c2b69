//! The entries of logs, from lines with names.
//!
//! Promises of [`entries_of`], unless an allocation is refused:
//!
//! - Each host is the instance of its name, in the order in which the names come.
//! - Two messages of a lane are of one stream exactly if they have the same id or, if neither has an id, the same name.
//! - Lines are refused exactly if they have too many hosts, or a host that is its own peer.

mod entering;
mod host_event;
mod hosts;
mod stream;

pub use entering::{Log, LogError, entries_of};
pub use host_event::HostEvent;
