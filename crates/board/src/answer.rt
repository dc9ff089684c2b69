//! What calls answer.
use crate::error::TakeError;
use chart::{EventNo, InstanceNo, Message, Report};

/// A message was sent.
#[derive(Clone, Copy, Debug, PartialEq, Eq)]
pub struct Sent {
    /// The event of its send, on the sender's line. After a send of one message it is the last event of this line.
    pub event: EventNo,
}

/// A message that was received, with the races of its receive.
#[derive(Debug, Drop)]
pub struct Arrival {
    pub from: InstanceNo,
    pub message: Message,
    /// The report of the receive. After a receive of one message, this receive is the last event of the receiver's
    /// line.
    pub report: Report,
}

/// What a look at a lane finds.
#[derive(Clone, Copy, Debug, PartialEq, Eq)]
pub enum Peek {
    /// One message or more waits.
    Message,
    /// None waits, and the lane is open.
    Nothing,
    /// None waits, and the lane is closed: none will come.
    Ended,
}

/// What looks at the lanes from several instances find.
#[derive(Clone, Copy, Debug, PartialEq, Eq)]
pub enum Scan {
    /// A message waits on the lane from this instance, the first such lane.
    Message(InstanceNo),
    /// None waits on any, and one of them is open.
    Nothing,
    /// None waits on any, and all of them are closed: none will come.
    Ended,
}

/// What a receive finds.
#[derive(Debug, Drop)]
pub enum Taken {
    /// The first message that waited.
    Got(Arrival),
    /// None waits, and the lane is open.
    Nothing,
    /// None waits, and the lane is closed: none will come.
    Ended,
}

/// Why a receive of several messages takes no more.
#[derive(Clone, Copy, Debug, PartialEq, Eq)]
pub enum Stop {
    /// It got as many as it was asked for.
    Asked,
    /// It got all that waited when it looked.
    NoMore,
    /// The receive of the next message was refused with this. The message is still the first of its lane.
    Refused(TakeError),
}

/// What a receive of several messages finds.
#[derive(Debug, Drop)]
pub enum TakenMany {
    /// One message or more, the first that waited, in their order.
    Got { arrivals: Vec<Arrival>, stop: Stop },
    /// None waits, and the lane is open.
    Nothing,
    /// None waits, and the lane is closed: none will come.
    Ended,
}
