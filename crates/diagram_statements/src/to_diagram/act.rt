//! The actions of statements in branches that are taken.
use crate::{Arrow, End, NoteAt};
use diagrams::Kind;

/// An effect on a diagram: something is drawn or skipped.
#[derive(Clone, Copy, Debug)]
pub(crate) enum Effect<'a> {
    Name(End<'a>),
    Rename(End<'a>),
    Arrow(Arrow<'a>),
    Note(NoteAt<'a>, &'a [u8]),
    LeaveOut(Kind),
    /// It is skipped, and the next item is below the arrow above it.
    PassBy(Kind),
    /// The next item is below the arrow above it.
    CloseRow,
}

/// The action of a statement.
#[derive(Clone, Copy, Debug)]
pub(crate) enum Act<'a> {
    Draw(Effect<'a>),
    Activate,
    Deactivate,
    Return(&'a [u8], bool),
    ArrowsActivate(bool),
    EndGroup,
}
