//! Recordings, as their reader lends them.
use log_chart::{HostLine, LogLine};

/// A sender and names of messages, as the log writes them. `*` stands for any sender. The names are one name, or `*`
/// for any name, or `PREFIX*` for all names with this prefix.
#[derive(Clone, Copy, Debug)]
pub struct Pattern<'a> {
    pub peer: &'a [u8],
    pub names: &'a [u8],
}

/// A pattern of messages that the receive of a line would have taken. A receive may have several patterns. It would
/// have taken a message that fits one of them.
#[derive(Clone, Copy, Debug)]
pub struct Taken<'a> {
    /// The number of the line, from 0.
    pub line: usize,
    pub pattern: Pattern<'a>,
}

/// The words of a line: its host, its peer, and the name of its message, as the log writes them.
#[derive(Clone, Copy, Debug)]
pub struct LineWords<'a> {
    pub host: &'a [u8],
    pub peer: &'a [u8],
    pub name: &'a [u8],
}

/// The arrival of a message at its receiver.
#[derive(Clone, Copy, Debug, PartialEq, Eq)]
pub struct Arrival {
    /// The stream, which the message shares with its lines: see [`log_chart::Entry`].
    pub stream: usize,
    /// How many lines of the log are before it.
    pub at: usize,
}

/// A log, with its observations besides messages.
#[derive(Clone, Copy)]
pub struct Recording<'a> {
    /// Its lines, each receive with the send that it takes. The line with number n is at index n.
    pub lines: &'a [LogLine],
    /// The events of each host, as in the chart.
    pub hosts: &'a [HostLine],
    /// The words of each line.
    pub words: &'a [LineWords<'a>],
    /// The patterns of receives, in the order of their lines. A receive without a pattern may have taken any message.
    pub taken: &'a [Taken<'a>],
    /// The arrivals, in the order of the log.
    pub arrivals: &'a [Arrival],
}
