//! The refusals of logs.
ghost use Rattle.std.specs.Prelude.{◌≡◌};
ghost use Rattle.cmd_import_log.specs.declared.error.LogImportError.TheVariants.{Memory};

use chart::Name;
use log_formats::patterns::Fault;
use log_lines::{Others, Place};
use log_text::UnreadLine;
use std::alloc::{AllocError, AllocFailed};

/// The reason why a log has no chart: its first refusal, or no memory.
#[derive(Debug, Drop)]
pub enum LogImportError {
    /// F6: a growth was refused.
    Memory,
    /// F39: the expression has this fault. It begins at this place, counted in bytes from 1. For a fault of the whole
    /// expression this is the place after its end.
    BadPattern(usize, Fault),
    /// F38: none of the lines has a message. The fields are the number of lines of the files, the lines that don't
    /// match, and the first of these with a match of the expression that isn't read.
    NotALog(u64, Option<Others>, Option<UnreadLine>),
    /// F51: lines have messages, and none is a receive. The fields are the number of these lines, that of all lines
    /// of the files, the lines that don't match, and the first of these with a match of the expression that isn't read.
    NoReceive(u64, u64, Option<Others>, Option<UnreadLine>),
    /// F8: there are fewer than two hosts, or more than 32.
    Instances,
    /// F13: in this line a host is its own peer.
    ToItself(Place),
    /// F7: the instance of this name has more events than a line holds.
    LineFull(Name),
}

impl From<AllocError> for LogImportError {
    ghost from_gives = { λ _ e. e ≡ Memory };

    fn from(_e: AllocError) -> LogImportError {
        LogImportError::Memory
    }
}

impl<T: Drop> From<AllocFailed<T>> for LogImportError {
    ghost from_gives = { λ _ e. e ≡ Memory };

    fn from(_e: AllocFailed<T>) -> LogImportError {
        LogImportError::Memory
    }
}
