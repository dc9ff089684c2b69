//! The structures that C gets.

/// The description of an event on a post's line.
#[repr(C)]
#[derive(Clone, Copy)]
pub struct MscEvent {
    /// 1 for a receive, and 0 for a send.
    pub receives: u32,
    pub partner: u32,
    pub region: u32,
    pub name_length: usize,
}

/// The description of a report of a gathered board.
#[repr(C)]
#[derive(Clone, Copy)]
pub struct MscReport {
    pub instance: u32,
    pub event: u32,
    pub races: usize,
}

/// The description of a message that waits on a gathered board.
#[repr(C)]
#[derive(Clone, Copy)]
pub struct MscLeft {
    pub name_length: usize,
    pub body_length: usize,
}
