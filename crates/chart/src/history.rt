//! The occurrences of a history, of all instances in one order, and the most messages that a lane holds.

use crate::instance::InstanceNo;
use crate::message::Message;

/// The most slots of a lane.
pub const MAX_CAPACITY: usize = 64;

const _: () = prove!(MAX_CAPACITY == 64);

/// What an instance did. Only contracts use histories, so no value of this type is made.
#[derive(Drop)]
pub enum Occurrence {
    /// The first instance sends the message to the second.
    Send(InstanceNo, InstanceNo, Message),
    /// The first instance receives from the second, in this coregion, or outside of a coregion if it is 0.
    Receive(InstanceNo, InstanceNo, u32),
    /// The first instance closes the lane to the second.
    Close(InstanceNo, InstanceNo),
}
