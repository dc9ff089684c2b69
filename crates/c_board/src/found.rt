//! What a receive over a handle finds.
use board::Stop;

/// The description of a received message, which stays in the handle. Another language reads this structure in place.
#[repr(C)]
#[derive(Clone, Copy)]
pub struct Arrived {
    /// The number of its sender, from 1.
    pub from: u32,
    /// The number of its receive on the line, from 1.
    pub event: u32,
    /// How many bytes its name has.
    pub name: usize,
    /// How many bytes its body has.
    pub body: usize,
    /// How many races its receive has.
    pub races: usize,
}

/// What a receive finds.
#[derive(Clone, Copy)]
pub enum Found {
    /// A message, which stays in the handle until the next one comes.
    Message(Arrived),
    /// None waits, and a lane is open.
    Nothing,
    /// None waits, and the lanes are closed: none will come.
    Ended,
}

/// What a receive of several messages finds.
#[derive(Clone, Copy)]
pub enum FoundMany {
    /// `count` messages, one or more, and why there are no more. They stay in the handle until the next ones come.
    Messages { count: usize, stop: Stop },
    /// None waits, and the lane is open.
    Nothing,
    /// None waits, and the lane is closed: none will come.
    Ended,
}

/// The description of an event on a post's line.
#[derive(Clone, Copy)]
pub struct EventInfo {
    /// Whether it is a receive.
    pub receives: bool,
    /// The number of the instance at the other end of the message, from 1.
    pub partner: u32,
    /// Its coregion, from 1, or 0 outside of one.
    pub region: u32,
    /// How many bytes the message's name has.
    pub name: usize,
}

/// The lengths of a message's name and body, in bytes.
#[repr(C)]
#[derive(Clone, Copy)]
pub struct MessageLengths {
    pub name: usize,
    pub body: usize,
}
