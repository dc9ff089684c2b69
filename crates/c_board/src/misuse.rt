//! Misuses: calls that the caller promised not to make.

/// What a caller did wrong. Then nothing has changed.
#[derive(Clone, Copy)]
pub enum Misuse {
    /// A handle keeps no post: it is empty, or was freed.
    NoPost,
    /// A handle keeps no board: it is empty, or was freed.
    NoBoard,
    /// A handle keeps something where it should be empty, or a post has done something where it should be new.
    InUse,
    /// A number, a count or lengths that don't fit the rest of the call.
    WrongNumber,
    /// The posts are of two boards.
    OtherBoard,
    /// The post has received no such message.
    NoMessage,
}

/// How misuses are numbered.
#[derive(Clone, Copy)]
pub enum Numbering {
    /// Each misuse is 100, as clients of version 1.0 know it.
    Alike,
    /// By their causes: from 101 to 105, and 100 for a misuse of none of these causes.
    ByCause,
}
