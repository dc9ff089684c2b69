//! What a line of a log records.
use chart::{InstanceNo, Name};

/// What a host did with a message.
#[derive(Clone, Copy, Debug, PartialEq, Eq)]
pub enum Kind {
    Send,
    Receive,
    /// It received the message, and takes no send of the log: the log is taken to begin between the two.
    Freed,
}

/// A line of one of the files.
#[derive(Clone, Copy, Debug, PartialEq, Eq)]
pub struct Place {
    /// The file, from 0.
    pub file: usize,
    /// The line, from 1.
    pub line: u64,
}

/// What a line records: a host sent a message to a peer, or received one from it.
#[derive(Clone, Copy, Debug)]
pub struct Entry {
    pub host: InstanceNo,
    /// The name of the host. If one of several hosts has to come first, it is the first one by the bytes of its name.
    pub host_name: Name,
    pub kind: Kind,
    pub peer: InstanceNo,
    pub name: Name,
    /// The number of what a send and its receive have in common: their lane, and the message's id or, without an id,
    /// its name.
    pub stream: usize,
    pub place: Place,
}
