//! Why a call is refused.
ghost use Rattle.std.specs.Prelude.{◌≡◌};

use std::alloc::AllocError;
use thiserror::Error;

/// F6: a growth was refused.
#[derive(Clone, Copy, Debug, PartialEq, Eq, Error)]
#[error("out of memory")]
pub struct Memory;

/// Why no board is made: the first of these that applies.
#[derive(Clone, Copy, Debug, PartialEq, Eq, Error)]
pub enum BoardError {
    /// F8: fewer than 2 instances, or more than [`chart::MAX_INSTANCES`].
    #[error("a board has 2 to 32 instances")]
    Instances,
    /// F9: lanes of no slot, or of more than [`chart::MAX_CAPACITY`].
    #[error("a lane has 1 to 64 slots")]
    Capacity,
    /// F6: a growth was refused.
    #[error("out of memory")]
    Memory,
}

/// Why a board gives no posts: the first of these that applies.
#[derive(Clone, Copy, Debug, PartialEq, Eq, Error)]
pub enum PostsError {
    /// F10: they were asked for before.
    #[error("the posts of this board were asked for before")]
    PostsTaken,
    /// F6: a growth was refused.
    #[error("out of memory")]
    Memory,
}

/// Why nothing is sent: the first of these that applies.
#[derive(Clone, Copy, Debug, PartialEq, Eq, Error)]
pub enum SendError {
    /// F14: the receiver's number is greater than the board's size.
    #[error("the board has no such instance")]
    NoSuchInstance,
    /// F13: the receiver is the sender.
    #[error("an instance sends no message to itself")]
    ToItself,
    /// F30: a coregion is open.
    #[error("nothing is sent in a coregion")]
    InCoregion,
    /// F12: this post closed the lane.
    #[error("the lane is closed")]
    Closed,
    /// F27: more messages at once than the lane has slots. A send of one message is never refused with it.
    #[error("more messages than the lane has slots")]
    TooMany,
    /// F7: the line would get more than [`chart::MAX_EVENTS`] events.
    #[error("the line is full")]
    LineFull,
    /// F11: too many messages wait on the lane: these find no slots.
    #[error("the lane is full")]
    Full,
    /// F6: a growth was refused.
    #[error("out of memory")]
    Memory,
}

/// Why nothing is received: the first of these that applies.
#[derive(Clone, Copy, Debug, PartialEq, Eq, Error)]
pub enum TakeError {
    /// F14: the sender's number is greater than the board's size.
    #[error("the board has no such instance")]
    NoSuchInstance,
    /// F13: the sender is the receiver.
    #[error("an instance sends no message to itself")]
    ToItself,
    /// F7: a message waits, and the line has [`chart::MAX_EVENTS`] events.
    #[error("the line is full")]
    LineFull,
    /// F6: a message waits, and a growth was refused.
    #[error("out of memory")]
    Memory,
}

/// Why a lane isn't closed: the first of these that applies.
#[derive(Clone, Copy, Debug, PartialEq, Eq, Error)]
pub enum CloseError {
    /// F14: the receiver's number is greater than the board's size.
    #[error("the board has no such instance")]
    NoSuchInstance,
    /// F13: the receiver is the sender.
    #[error("an instance has no lane to itself")]
    ToItself,
    /// F12: this post closed the lane before.
    #[error("the lane is closed")]
    Closed,
}

/// Why a coregion is neither opened nor closed.
#[derive(Clone, Copy, Debug, PartialEq, Eq, Error)]
pub enum RegionError {
    /// F28: a coregion is open already.
    #[error("a coregion is open")]
    CoregionOpen,
    /// F29: no coregion is open.
    #[error("no coregion is open")]
    CoregionNotOpen,
}

/// Why posts don't meet.
#[derive(Clone, Copy, Debug, PartialEq, Eq, Error)]
pub enum MeetError {
    /// F15: there are no posts, or not all of their board.
    #[error("not all posts of the board")]
    NotAllPosts,
}

/// Why a board isn't gathered: the first of these that applies.
#[derive(Clone, Copy, Debug, PartialEq, Eq, Error)]
pub enum GatherCause {
    /// F15: there are no posts, or not all of their board.
    #[error("not all posts of the board")]
    NotAllPosts,
    /// F6: a growth was refused.
    #[error("out of memory")]
    Memory,
}

impl From<AllocError> for Memory {
    fn from(_e: AllocError) -> Memory {
        Memory
    }
}

impl From<AllocError> for BoardError {
    ghost use Rattle.board.specs.declared.error.BoardError.TheVariants.{Memory};

    ghost from_gives = { λ _ e. e ≡ Memory };

    fn from(_e: AllocError) -> BoardError {
        BoardError::Memory
    }
}

impl From<AllocError> for PostsError {
    ghost use Rattle.board.specs.declared.error.PostsError.TheVariants.{Memory};

    ghost from_gives = { λ _ e. e ≡ Memory };

    fn from(_e: AllocError) -> PostsError {
        PostsError::Memory
    }
}
