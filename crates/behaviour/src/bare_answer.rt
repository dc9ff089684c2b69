//! Answers without messages and reports.
ghost use Rattle.std.specs.Prelude.{◌≡◌, ◌↔◌, IsTrue};

use board::{CloseError, RegionError, SendError, TakeError};
use chart::{EventNo, InstanceNo};

/// An [`crate::Answer`] by its kind and its event or refusal.
#[derive(Clone, Copy, Debug, PartialEq, Eq)]
pub enum BareAnswer {
    /// There was no act before.
    Start,
    /// The message was sent by this event.
    Sent(EventNo),
    /// The message wasn't sent.
    Unsent(SendError),
    /// A message from this instance was received, by this event.
    Got(InstanceNo, EventNo),
    /// No message waits, and one may still come.
    Nothing,
    /// No message waits, and none will come.
    Ended,
    /// No message was received.
    Unreceived(TakeError),
    /// The lane is closed now.
    NowClosed,
    /// The lane wasn't closed by this act.
    Unclosed(CloseError),
    /// The coregion was opened, or closed.
    Marked,
    /// No coregion was opened, and none was closed.
    Unmarked(RegionError),
}

impl BareAnswer {
    /// Whether the two answers are equal.
    pub fn is(&self, other: &BareAnswer) -> bool
        ensures { IsTrue result ↔ (self.now ≡ other.now) }
    {
        self == other
    }
}
