//! Messages in a log.
ghost use Rattle.std.specs.Prelude.{◌≡◌};
ghost use Rattle.log_lines.specs.Places.{is_before};

/// What a host did with a message.
#[derive(Clone, Copy, Debug, PartialEq, Eq)]
pub enum Act {
    Send,
    Receive,
}

/// A host sent a message to a peer, or received one from it. All are words of the log.
#[derive(Clone, Copy, Debug)]
pub struct Event<'a> {
    pub host: &'a [u8],
    pub act: Act,
    pub peer: &'a [u8],
    pub name: &'a [u8],
    /// The common part of the message's send and receive, if the log has it.
    pub id: Option<&'a [u8]>,
}

/// A line of one of the texts.
#[derive(Clone, Copy, Debug, PartialEq, Eq)]
pub struct Place {
    /// The text, counted from 0.
    pub text: usize,
    /// The line, counted from 1.
    pub line: u64,
}

impl Place {
    /// Whether it is before the other one.
    pub fn is_before(&self, other: &Place) -> bool
        ensures { result ≡ is_before self.now other.now }
    {
        self.text < other.text || (self.text == other.text && self.line < other.line)
    }
}

/// An event, and its place in the log.
#[derive(Clone, Copy, Debug)]
pub struct LoggedEvent<'a> {
    pub event: Event<'a>,
    pub place: Place,
}

/// An event of a host with its vector time, in words of the log.
#[derive(Clone, Copy, Debug)]
pub struct Clocked<'a> {
    pub host: &'a [u8],
    pub clock: &'a [u8],
    pub event: &'a [u8],
}

/// An event with its vector time, and its place in the log.
#[derive(Clone, Copy, Debug)]
pub struct ClockedAt<'a> {
    pub clocked: Clocked<'a>,
    pub place: Place,
}

/// The meaning of a line.
#[derive(Clone, Copy, Debug)]
pub enum LineSays<'a> {
    Event(Event<'a>),
    Clocked(Clocked<'a>),
    /// The send of a message, together with its receive.
    Message(Event<'a>),
    /// Nothing: the line is ignored.
    Nothing,
    /// The line isn't read.
    Other,
}
