//! What a post keeps for its lanes.
use clock::Clock;

/// The sender's end of a lane.
#[derive(Debug, Drop)]
pub(crate) struct Outgoing {
    /// How many messages were sent.
    pub put: u64,
    /// How many the receiver had received when this end last looked.
    pub known_taken: u64,
    /// Whether the lane is closed.
    pub closed: bool,
    /// The clock of the last message that was sent. The next message carries its difference from this clock.
    pub base: Clock,
}

/// The receiver's end of a lane.
#[derive(Debug, Drop)]
pub(crate) struct Incoming {
    /// How many messages were received.
    pub taken: u64,
    /// How many the sender had sent when this end last looked.
    pub known_put: u64,
    /// The clock of the last message that was received. The next message carries its difference from this clock.
    pub base: Clock,
}
