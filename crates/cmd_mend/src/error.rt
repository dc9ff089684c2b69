//! What the command refuses.

use chart::Name;
use cmd_base::ProgramError;
use cmd_base::pairs::PairError;
use thiserror::Error;

/// Why no message was looked for: the first of these that applies.
#[derive(Clone, Copy, Debug, PartialEq, Eq, Error)]
pub enum MendRefusal {
    /// What the commands refuse that ask about two events: the command line, the file, its text, the chart that it
    /// says, the two events (F31, F32), a write.
    #[error(transparent)]
    View(PairError),
    /// F7: the line of the instance of this name has no room for an event more.
    #[error("the line is full")]
    LineFull(Name),
}

impl From<ProgramError> for MendRefusal {
    ghost use Rattle.std.specs.Prelude.{◌≡◌};
    ghost use Rattle.cmd_mend.specs.Answers.{by_program};

    ghost from_gives = { λ cause e. e ≡ by_program cause };

    fn from(cause: ProgramError) -> MendRefusal {
        MendRefusal::View(PairError::Program(cause))
    }
}

impl From<PairError> for MendRefusal {
    ghost use Rattle.std.specs.Prelude.{◌≡◌};
    ghost use Rattle.cmd_mend.specs.declared.error.MendRefusal.TheVariants.{View};

    ghost from_gives = { λ cause e. e ≡ View cause };

    fn from(cause: PairError) -> MendRefusal {
        MendRefusal::View(cause)
    }
}
