//! A message more.

use chart::{InstanceNo, Name};

/// A message more: who sends it and behind how many events of its line, and who receives it and behind how many. It is
/// received outside of all coregions.
#[derive(Clone, Copy, Debug, PartialEq, Eq)]
pub struct Message {
    pub sender: InstanceNo,
    pub sent: usize,
    pub receiver: InstanceNo,
    pub received: usize,
    pub name: Name,
}
