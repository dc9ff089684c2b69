//! The messages of a diagram.
use crate::place::Place;
use chart::{InstanceNo, Name};

/// A message: an arrow, or the events that notes state.
#[derive(Clone, Copy, Debug)]
pub struct Message {
    pub sender: InstanceNo,
    pub receiver: InstanceNo,
    /// The line at which the diagram draws its receive. `receiver` is another one if lines are joined.
    pub line: InstanceNo,
    /// The row in which it is sent.
    pub begins: u64,
    /// The row in which it is received, unless it is lost.
    pub ends: u64,
    /// Whether nobody receives it.
    pub is_lost: bool,
    /// The item that states the message, or its send: its place among the diagram's items, from 0.
    pub item: usize,
    pub place: Place,
    /// The line that completes the message: that of its arrow, or of the note that states its receive.
    pub whole: u64,
}

/// A message whose send a note states, while no note has stated its receive.
#[derive(Clone, Copy, Debug)]
pub(crate) struct Waiting {
    pub sender: InstanceNo,
    pub receiver: InstanceNo,
    pub name: Name,
    /// Its place among the messages.
    pub message: usize,
}
