//! Why a diagram whose lines are joined has no chart.
ghost use Rattle.std.specs.Prelude.{◌≡◌};
ghost use Rattle.diagram_join.specs.Building.{join_error};
ghost use Rattle.diagram_join.specs.declared.error.JoinError.TheVariants.{Memory};

use diagrams::BuildError;
use std::alloc::{AllocError, AllocFailed};
use thiserror::Error;

/// Why a diagram whose lines are joined has no chart.
#[derive(Clone, Copy, Debug, PartialEq, Eq, Error)]
pub enum JoinError {
    /// F6: a growth was refused.
    #[error("there is no memory left")]
    Memory,
    /// F34: a name of a line to join is that of no line, or occurs more than once.
    #[error("a line that is joined isn't there, or is joined twice")]
    NoSuchLine,
    /// F22: another instance already has the name of a join. This line of the text first names it.
    #[error("line {0}: another instance has the name")]
    Taken(u64),
    /// F8: there are fewer than two participants or instances, or more than a chart has.
    #[error("there are too few instances, or too many")]
    Instances,
    /// F37: no chart is possible with the arrow or note in this line.
    #[error("line {0}: no chart is possible with this")]
    NotPossible(u64),
    /// F7: the message in this line of the text gives an instance more events than a chart's line holds.
    #[error("line {0}: an instance has too many events")]
    LineFull(u64),
}

impl From<AllocError> for JoinError {
    ghost from_gives = { λ _ e. e ≡ Memory };

    fn from(_e: AllocError) -> JoinError {
        JoinError::Memory
    }
}

impl<T: Drop> From<AllocFailed<T>> for JoinError {
    ghost from_gives = { λ _ e. e ≡ Memory };

    fn from(_e: AllocFailed<T>) -> JoinError {
        JoinError::Memory
    }
}

/// The same refusal, for a diagram whose lines may be joined.
pub(crate) fn join_error(error: BuildError) -> JoinError
    ensures { result ≡ join_error error }
{
    match error {
        BuildError::Memory => JoinError::Memory,
        BuildError::Instances => JoinError::Instances,
        BuildError::LineFull(line) => JoinError::LineFull(line),
        BuildError::NotPossible(line) => JoinError::NotPossible(line),
    }
}
