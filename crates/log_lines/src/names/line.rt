//! Lines of a log with names.
use crate::Place;
use chart::Name;

/// An event of a host, with names.
#[derive(Clone, Copy, Debug)]
pub struct NamedLine {
    pub host: Name,
    /// Whether it is a send. Otherwise it is a receive.
    pub sends: bool,
    pub peer: Name,
    /// The name of the message.
    pub name: Name,
    /// The number of its id, counted from 0. Different ids have different numbers.
    pub id: Option<usize>,
    pub place: Place,
}
