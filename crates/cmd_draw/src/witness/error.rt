//! Why nothing was drawn.
ghost use Rattle.cmd_draw.specs.Witness.Answers.{picture_error_exit};

use cmd_base::columns::ColumnError;
use cmd_base::pairs::PairError;
use cmd_base::{Answer, ProgramError};
use texts::Out;

/// Why nothing was drawn: the first of these causes that applies.
#[derive(Debug, Drop)]
pub enum PictureError {
    /// The chart doesn't have a named instance, or one is named twice.
    Columns(ColumnError),
    /// A refusal of a witness.
    Pair(PairError),
}

impl From<ProgramError> for PictureError {
    ghost use Rattle.std.specs.Prelude.{◌≡◌};
    ghost use Rattle.cmd_base.specs.declared.pairs.error.PairError.TheVariants.{Program};
    ghost use Rattle.cmd_draw.specs.declared.witness.error.PictureError.TheVariants.{Pair};

    ghost from_gives = { λ cause e. e ≡ Pair (Program cause) };

    fn from(cause: ProgramError) -> PictureError {
        PictureError::Pair(PairError::Program(cause))
    }
}

impl From<PairError> for PictureError {
    ghost use Rattle.std.specs.Prelude.{◌≡◌};
    ghost use Rattle.cmd_draw.specs.declared.witness.error.PictureError.TheVariants.{Pair};

    ghost from_gives = { λ cause e. e ≡ Pair cause };

    fn from(cause: PairError) -> PictureError {
        PictureError::Pair(cause)
    }
}

/// Prints a refusal's line, with status 2.
impl Answer for PictureError {
    ghost exit = { picture_error_exit };

    fn status(&self) -> u8 {
        2
    }

    fn print_diagnostics<V: Out>(&self, err: &mut V) {
        match self {
            PictureError::Columns(error) => error.print_diagnostics(err),
            PictureError::Pair(error) => error.print_diagnostics(err),
        }
    }
}
