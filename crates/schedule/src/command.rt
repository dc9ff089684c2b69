//! Commands, and the notes of those that are refused.

use chart::{InstanceNo, Name};

/// An action of an instance.
#[derive(Clone, Copy, Debug, PartialEq, Eq)]
pub enum Action {
    /// Sends a message of this name, with an empty body.
    Send { to: InstanceNo, name: Name },
    /// Receives the first message that waits on the lane from this instance.
    Receive { from: InstanceNo },
    /// Receives from the first instance in scan order from which a message waits.
    Any,
    /// Closes the lane to this instance.
    Close { to: InstanceNo },
    /// Opens a coregion.
    Open,
    /// Ends the coregion that is open.
    Shut,
}

/// A command of a schedule.
#[derive(Clone, Copy, Debug, PartialEq, Eq)]
pub struct Command {
    /// The line of the schedule's text, from 1.
    pub line: u64,
    /// The instance that acts.
    pub actor: InstanceNo,
    pub action: Action,
}

/// The word of the note that a refused command leaves.
#[derive(Clone, Copy, Debug, PartialEq, Eq)]
pub enum Word {
    /// F11: as many messages wait on the lane as it has slots.
    Full,
    /// No message waits, and a lane that could carry one is open.
    Nothing,
    /// No message waits, and none can come: each lane that could carry one is closed.
    Ended,
    /// F12: the lane was closed before.
    Closed,
    /// F7: the line has the most events that a line may have.
    LineFull,
    /// F28: a coregion is open already.
    Open,
    /// F29: no coregion is open.
    NotOpen,
    /// F30: a send within a coregion.
    InCoregion,
}

/// A note: the command of this line of the schedule's text was refused, or found nothing.
#[derive(Clone, Copy, Debug, PartialEq, Eq)]
pub struct Note {
    /// From 1.
    pub line: u64,
    pub word: Word,
}
