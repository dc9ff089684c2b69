//! Messages that have names.
use chart::{InstanceNo, Name};

/// A message with its name.
#[derive(Clone, Copy, Debug)]
pub struct Named {
    pub sender: InstanceNo,
    pub receiver: InstanceNo,
    /// The row in which it is sent.
    pub begins: u64,
    /// The row in which it is received, unless it is lost.
    pub ends: u64,
    /// Whether nobody receives it.
    pub is_lost: bool,
    pub name: Name,
}
