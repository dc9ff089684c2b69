//! Verdicts on the races of a recording.

/// Whether a race of a recording was luck, and otherwise the first reason why it wasn't. Of a schedule it may be
/// undecided.
#[derive(Clone, Copy, Debug, PartialEq, Eq)]
pub enum Verdict {
    /// As far as is known, the earlier receive would have taken the later message if that had come first.
    Luck,
    /// The earlier event is a send: the instance chose to make it.
    EarlierIsSend,
    /// The earlier event is invented, or the message's send is, or an invented send comes before the receive. It isn't
    /// known whether this is a race.
    BegunInTheMiddle,
    /// The order of the log, with messages that the chart omits, puts the earlier event before the message's send.
    OrderedByLeftOut,
    /// The earlier receive would have taken from another sender, or another message.
    WouldNotTake,
    /// The message had arrived first, and the earlier receive passed it over.
    PassedOver,
    /// The earlier receive would have taken another message first, which the same sender sent before.
    BehindAnother,
    /// The earlier receive of a schedule was by the command `any`. Whether some run of its scripts has the other order
    /// isn't decided. No race of a log has this verdict.
    Any,
}

/// A verdict on a receive and each of some neighbouring events of its line.
#[derive(Clone, Copy, Debug, PartialEq, Eq)]
pub struct VerdictRun {
    pub verdict: Verdict,
    /// How many events have it, from the first on.
    pub count: usize,
}
