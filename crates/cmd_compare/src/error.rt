//! The refusals of the program.

use chart::Name;
use cmd_base::ProgramError;
use thiserror::Error;

/// Why two recordings were not compared: the first cause that applies. A fault of a text comes first, then F40, and
/// then a chart that isn't possible.
#[derive(Clone, Copy, Debug, PartialEq, Eq, Error)]
pub enum CompareError {
    /// A refusal that `mscrun` has too: of the command line, a file, its text or chart, or a write.
    #[error(transparent)]
    Program(ProgramError),
    /// F40: this instance of one recording doesn't exist in the other.
    #[error("the two recordings have other instances")]
    OtherInstances(Name),
}

impl From<ProgramError> for CompareError {
    ghost use Rattle.std.specs.Prelude.{◌≡◌};
    ghost use Rattle.cmd_compare.specs.declared.error.CompareError.TheVariants.{Program};

    ghost from_gives = { λ cause e. e ≡ Program cause };

    fn from(cause: ProgramError) -> CompareError {
        CompareError::Program(cause)
    }
}
