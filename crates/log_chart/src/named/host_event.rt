//! Lines of logs, by names.
use crate::Place;
use chart::Name;

/// What a line records: a host sent a message to a peer, or received one from it.
#[derive(Clone, Copy, Debug)]
pub struct HostEvent {
    pub host: Name,
    /// Whether it is a send. Otherwise it is a receive.
    pub sends: bool,
    pub peer: Name,
    /// The name of the message.
    pub name: Name,
    /// The number of its id. Different ids have different numbers.
    pub id: Option<usize>,
    pub place: Place,
}
