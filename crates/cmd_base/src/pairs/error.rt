//! The refusals of the program.

use crate::ProgramError;
use crate::named::Missing;
use thiserror::Error;

/// Why the program did not do what was asked: the first of these causes that applies.
#[derive(Clone, Copy, Debug, PartialEq, Eq, Error)]
pub enum PairError {
    /// A refusal that `mscrun` has too: of the command line, the file, its text or chart, or a write.
    #[error(transparent)]
    Program(ProgramError),
    /// F31: the chart has no instance of this name, or its line has no event of one of these numbers.
    #[error("there is no such event")]
    NoSuchEvent(Missing),
    /// F32: the first event isn't earlier than the second.
    #[error("the first of the two isn't earlier")]
    NotEarlier,
    /// F32: the second event is a send. The field is its number.
    #[error("event {0} is a send")]
    NotAReceive(u64),
    /// F33: all runs that reverse the pair need more than 64 slots a lane. The field is how many they need at least.
    #[error("a run that turns the pair round needs {0} slots a lane")]
    ManySlots(u64),
}

impl From<ProgramError> for PairError {
    ghost use Rattle.std.specs.Prelude.{◌≡◌};
    ghost use Rattle.cmd_base.specs.declared.pairs.error.PairError.TheVariants.{Program};

    ghost from_gives = { λ cause e. e ≡ Program cause };

    fn from(cause: ProgramError) -> PairError {
        PairError::Program(cause)
    }
}
