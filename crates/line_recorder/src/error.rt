//! Why an event isn't recorded.
ghost use Rattle.chart.specs.declared.line.LineError.{LineError};
ghost use Rattle.line_recorder.specs.declared.error.RecordError.TheVariants.{LineFull, Memory};
ghost use Rattle.std.specs.Prelude.{◌≡◌, ◌↔◌};

use chart::LineError;
use std::alloc::AllocError;
use thiserror::Error;

/// Why an event isn't recorded: the first of these that applies.
#[derive(Clone, Copy, Debug, PartialEq, Eq, Error)]
pub enum RecordError {
    /// F7: the line has no place for it: a line has at most [`chart::MAX_EVENTS`] events.
    #[error("the line is full")]
    LineFull,
    /// F6: a growth was refused.
    #[error("out of memory")]
    Memory,
}

impl From<AllocError> for RecordError {
    ghost from_gives = { λ _ e. e ≡ Memory };

    fn from(_e: AllocError) -> RecordError {
        RecordError::Memory
    }
}

/// The refusals of a line, except for its own instance as partner, which no call of a recorder gives it.
impl From<LineError> for RecordError {
    ghost use Rattle.chart.specs.declared.line.LineError.TheVariants as line;

    ghost from_gives = { λ e r. (r ≡ LineFull) ↔ (e ≡ line.LineFull) };

    fn from(e: LineError) -> RecordError {
        match e {
            LineError::LineFull => RecordError::LineFull,
            LineError::ToItself | LineError::Memory => RecordError::Memory,
        }
    }
}
