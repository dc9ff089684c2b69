//! The keywords of a schedule's text.
ghost use Rattle.std.specs.Prelude.{◌≡◌, bytes_eq};
ghost use Rattle.schedule.specs.Keywords.{written, is_written};

use chart::Keyword;

/// A keyword: it begins one of a schedule's first two lines, or follows an actor's name.
#[derive(Clone, Copy, Debug, PartialEq, Eq)]
pub(crate) enum ScheduleWord {
    /// Begins line 1.
    Instances,
    /// Begins line 2.
    Capacity,
    /// Sends a message.
    Send,
    /// Receives a message from a given instance.
    Receive,
    /// Receives a message from any instance.
    Any,
    /// Closes a lane.
    Close,
    /// Opens a coregion, as in a chart's text.
    Concurrent,
    /// Ends a coregion, as in a chart's text.
    EndConcurrent,
}

impl ScheduleWord {
    /// The spelling of the word.
    #[tactic(auto, unfolding(crate::specs::Keywords::written))]
    pub(crate) fn as_bytes(&self) -> &[u8]
        ensures { result.now ≡ written self.now }
    {
        match self {
            ScheduleWord::Instances => b"instances",
            ScheduleWord::Capacity => b"capacity",
            ScheduleWord::Send => b"send",
            ScheduleWord::Receive => b"receive",
            ScheduleWord::Any => b"any",
            ScheduleWord::Close => b"close",
            ScheduleWord::Concurrent => Keyword::Concurrent.as_bytes(),
            ScheduleWord::EndConcurrent => Keyword::EndConcurrent.as_bytes(),
        }
    }

    /// Whether the bytes are this word.
    #[tactic(auto, unfolding(crate::specs::Keywords::is_written))]
    pub(crate) fn is(&self, bytes: &[u8]) -> bool
        ensures { result ≡ is_written self.now bytes.now }
    {
        bytes == self.as_bytes()
    }
}
