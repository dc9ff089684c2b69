//! Why a race isn't mended.
ghost use Rattle.repair.specs.declared.error.MendError.TheVariants.{Memory};
ghost use Rattle.std.specs.Prelude.{◌≡◌};

use chart::InstanceNo;
use std::alloc::{AllocError, AllocFailed};
use thiserror::Error;

/// Why the chart with the message isn't made.
#[derive(Clone, Copy, Debug, PartialEq, Eq, Error)]
pub enum MendError {
    /// F7: this instance's line has no room for an event more.
    #[error("the line is full")]
    LineFull(InstanceNo),
    /// F6: a growth was refused.
    #[error("out of memory")]
    Memory,
}

impl From<AllocError> for MendError {
    ghost from_gives = { λ _ e. e ≡ Memory };

    fn from(_e: AllocError) -> MendError {
        MendError::Memory
    }
}

impl<T: Drop> From<AllocFailed<T>> for MendError {
    ghost from_gives = { λ _ e. e ≡ Memory };

    fn from(_e: AllocFailed<T>) -> MendError {
        MendError::Memory
    }
}
