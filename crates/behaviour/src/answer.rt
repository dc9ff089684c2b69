//! The answers that a behaviour gets.
ghost use Rattle.std.specs.Prelude.{◌≡◌};
ghost use Rattle.behaviour.specs.Bare.{bare_answer};

use crate::bare_answer::BareAnswer;
use board::{Arrival, CloseError, RegionError, SendError, TakeError};
use chart::{EventNo, Message};

/// The answer to a behaviour's last act.
#[derive(Debug, Drop)]
pub enum Answer {
    /// There was no act before.
    Start,
    /// The message was sent. The send is this event, the last of the sender's line.
    Sent(EventNo),
    /// The message wasn't sent, and comes back.
    Unsent(Message, SendError),
    /// A message was received, with the races of its receive.
    Got(Arrival),
    /// No message waits, and one may still come.
    Nothing,
    /// No message waits, and none will come.
    Ended,
    /// No message was received.
    Unreceived(TakeError),
    /// The lane is closed now.
    NowClosed,
    /// The lane wasn't closed by this act.
    Unclosed(CloseError),
    /// The coregion was opened, or closed.
    Marked,
    /// No coregion was opened, and none was closed.
    Unmarked(RegionError),
}

impl Answer {
    /// The answer without its message and its report. Of a received message, only the sender and the receive remain.
    pub fn bare(&self) -> BareAnswer
        ensures { result ≡ bare_answer self.now }
    {
        match self {
            Answer::Start => BareAnswer::Start,
            Answer::Sent(event) => BareAnswer::Sent(*event),
            Answer::Unsent(_, error) => BareAnswer::Unsent(*error),
            Answer::Got(arrival) => BareAnswer::Got(arrival.from, arrival.report.receive()),
            Answer::Nothing => BareAnswer::Nothing,
            Answer::Ended => BareAnswer::Ended,
            Answer::Unreceived(error) => BareAnswer::Unreceived(*error),
            Answer::NowClosed => BareAnswer::NowClosed,
            Answer::Unclosed(error) => BareAnswer::Unclosed(*error),
            Answer::Marked => BareAnswer::Marked,
            Answer::Unmarked(error) => BareAnswer::Unmarked(*error),
        }
    }
}
