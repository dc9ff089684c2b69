//! What an end finds by a load, and which step an end makes next.

/// What a sender finds by a load.
#[derive(Clone, Copy, Debug, PartialEq, Eq)]
pub enum Room {
    /// It claims at least one slot.
    Vacant,
    /// Each slot has a waiting message.
    Full,
}

/// What a receiver finds by a load.
#[derive(Clone, Copy, Debug, PartialEq, Eq)]
pub enum Found {
    /// At least one message waits.
    Message,
    /// No message waits, and the lane is open.
    Nothing,
    /// No message waits, and the lane is closed.
    Ended,
}

/// The next step of a sender that has a message to send.
#[derive(Clone, Copy, Debug, PartialEq, Eq)]
pub enum SenderStep {
    /// It loads a word.
    Load,
    /// It puts the message into the next slot.
    Fill,
    /// It publishes the messages that it has put into slots.
    Publish,
}

/// The next step of a receiver that is to receive a message.
#[derive(Clone, Copy, Debug, PartialEq, Eq)]
pub enum ReceiverStep {
    /// It loads a word.
    Look,
    /// It takes the message out of the next slot.
    Take,
    /// It frees the slots from which it has taken messages.
    Free,
}
