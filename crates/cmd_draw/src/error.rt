//! Why a picture is refused.

use cmd_base::ProgramError;
use cmd_base::columns::ColumnError;
use cmd_base::named::Missing;
use thiserror::Error;

/// Why a picture was not drawn: the first of these causes that applies.
#[derive(Clone, Copy, Debug, PartialEq, Eq, Error)]
pub enum DrawError {
    /// A cause that exports and races are refused for too.
    #[error(transparent)]
    Columns(ColumnError),
    /// F31: the chart has no instance of the name after `--around`, or the line of this instance has no such event.
    #[error("there is no such event")]
    NoSuchEvent(Missing),
}

impl From<ColumnError> for DrawError {
    ghost use Rattle.std.specs.Prelude.{◌≡◌};
    ghost use Rattle.cmd_draw.specs.declared.error.DrawError.TheVariants.{Columns};

    ghost from_gives = { λ cause e. e ≡ Columns cause };

    fn from(cause: ColumnError) -> DrawError {
        DrawError::Columns(cause)
    }
}

impl From<ProgramError> for DrawError {
    ghost use Rattle.std.specs.Prelude.{◌≡◌};
    ghost use Rattle.cmd_draw.specs.declared.error.DrawError.TheVariants.{Columns};
    ghost use Rattle.cmd_base.specs.declared.columns.error.ColumnError.TheVariants.{Program};

    ghost from_gives = { λ cause e. e ≡ Columns (Program cause) };

    fn from(cause: ProgramError) -> DrawError {
        DrawError::Columns(ColumnError::Program(cause))
    }
}

impl From<Missing> for DrawError {
    ghost use Rattle.std.specs.Prelude.{◌≡◌};
    ghost use Rattle.cmd_draw.specs.declared.error.DrawError.TheVariants.{NoSuchEvent};

    ghost from_gives = { λ missing e. e ≡ NoSuchEvent missing };

    fn from(missing: Missing) -> DrawError {
        DrawError::NoSuchEvent(missing)
    }
}
