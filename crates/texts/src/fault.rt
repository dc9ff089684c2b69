//! Why a text could not be read.
ghost use Rattle.std.specs.Prelude.{◌≡◌};
ghost use Rattle.texts.specs.declared.fault.TextError.TheVariants.{Memory};

use chart::NameError;
use std::alloc::{AllocError, AllocFailed};
use thiserror::Error;

/// What is wrong with a line: the first of its faults.
#[derive(Clone, Copy, Debug, PartialEq, Eq, Error)]
pub enum Cause {
    /// F1 to F4: a word is no name.
    #[error("{0}")]
    Name(NameError),
    /// F7: the instance's line would have more events than a line may have.
    #[error("an instance has too many events")]
    LineFull,
    /// F8: there are fewer than two instances, or more than the limit.
    #[error("there are too few instances, or too many")]
    Instances,
    /// F9: the capacity is outside 1 to 64.
    #[error("the capacity is not from 1 to 64")]
    Capacity,
    /// F13: an instance sends to itself.
    #[error("an instance sends to itself")]
    ToItself,
    /// F20: the line has no form that is allowed at its place.
    #[error("the line has no form that is allowed here")]
    Syntax,
    /// F22: an instance's name was given before.
    #[error("the instance was named before")]
    Duplicate,
    /// F23: a name is not that of an instance.
    #[error("there is no such instance")]
    UnknownInstance,
}

/// What is wrong with a text: the fault of the first line that has one.
#[derive(Clone, Copy, Debug, PartialEq, Eq, Error)]
pub enum Fault {
    /// The line with this number, from 1, and what is wrong with it.
    #[error("line {0}: {1}")]
    Line(u64, Cause),
    /// F21: the text ends too early.
    #[error("the text ends too early")]
    Unfinished,
}

/// Why a text was not read.
#[derive(Clone, Copy, Debug, PartialEq, Eq, Error)]
pub enum TextError {
    /// F6: a growth was refused.
    #[error("there is no memory left")]
    Memory,
    #[error("{0}")]
    Fault(Fault),
}

impl From<AllocError> for TextError {
    ghost from_gives = { λ _ e. e ≡ Memory };

    fn from(_e: AllocError) -> TextError {
        TextError::Memory
    }
}

impl<T: Drop> From<AllocFailed<T>> for TextError {
    ghost from_gives = { λ _ e. e ≡ Memory };

    fn from(_e: AllocFailed<T>) -> TextError {
        TextError::Memory
    }
}
