//! What the reader of a chart's text knows between two lines.

use chart::Name;

/// How far a coregion has come.
#[derive(Clone, Copy, Debug)]
pub enum Region {
    /// No coregion is open.
    Closed,
    /// A coregion is open, and has no receive yet.
    Empty,
    /// A coregion is open, and has a receive.
    Held,
}

/// The state of the reader between two lines: what it has read so far.
#[derive(Clone, Copy, Debug)]
pub enum State {
    /// Nothing.
    Start,
    /// The first line of the text, and whole instances.
    Outside,
    /// A part of the instance `own`, with this number of events.
    Inside {
        own: Name,
        events: usize,
        region: Region,
    },
    /// The last line of the text.
    Done,
}

/// What a line means.
#[derive(Clone, Copy, Debug)]
pub enum Saying {
    /// The chart begins.
    Begin,
    /// The instance with this name begins.
    Head(Name),
    /// A message with this name goes out.
    Send { to: Name, name: Name },
    /// A message with this name comes in.
    Receive { from: Name, name: Name },
    /// A coregion begins.
    Open,
    /// The coregion ends.
    Shut,
    /// The instance ends.
    Foot,
    /// The chart ends.
    End,
}
