//! The refusals.

use crate::ProgramError;
use thiserror::Error;

/// Why nothing was drawn, exported or shown: the first of these causes that applies.
#[derive(Clone, Copy, Debug, PartialEq, Eq, Error)]
pub enum ColumnError {
    /// A refusal that `mscrun` has too: of the command line, the file, its text or chart, or a write.
    #[error(transparent)]
    Program(ProgramError),
    /// F34: `--only` names an instance that the chart doesn't have, or names one twice.
    #[error("an instance is named that the chart doesn't have, or one twice")]
    NoSuchName,
}

impl From<ProgramError> for ColumnError {
    ghost use Rattle.std.specs.Prelude.{◌≡◌};
    ghost use Rattle.cmd_base.specs.declared.columns.error.ColumnError.TheVariants.{Program};

    ghost from_gives = { λ cause e. e ≡ Program cause };

    fn from(cause: ProgramError) -> ColumnError {
        ColumnError::Program(cause)
    }
}
