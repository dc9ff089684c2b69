//! Why a command line makes no request.
ghost use Rattle.std.specs.Prelude.{◌≡◌};
ghost use Rattle.cli.specs.Reading.{IsFault};
ghost use Rattle.cli.specs.declared.error.CommandLineError.TheVariants.{Memory};

use clap::Error;
use clap::error::ErrorKind;
use std::alloc::AllocError;

/// Why a command line makes no request.
#[derive(Clone, Copy, Debug, PartialEq, Eq)]
pub enum CommandLineError {
    /// G1: the program doesn't understand the command line.
    Usage,
    /// F6: a growth was refused.
    Memory,
}

/// The error of a command line that `clap` doesn't parse: a usage mistake, unless memory ran out.
pub(crate) fn fault(error: &Error) -> CommandLineError
    ensures { IsFault error.now result }
{
    match error.kind() {
        ErrorKind::OutOfMemory => CommandLineError::Memory,
        _ => CommandLineError::Usage,
    }
}

impl From<AllocError> for CommandLineError {
    ghost from_gives = { λ _ fault. fault ≡ Memory };

    fn from(_error: AllocError) -> CommandLineError {
        CommandLineError::Memory
    }
}
