//! Why a text was not read.
ghost use Rattle.std.specs.Prelude.{◌≡◌};
ghost use Rattle.diagram_mscgen.specs.declared.reading.error.ReadError.TheVariants.{Memory};

use diagrams::Place;
use std::alloc::{AllocError, AllocFailed};

/// Why a text isn't a diagram.
#[derive(Clone, Copy, Debug, PartialEq, Eq)]
pub enum Fault {
    /// F35: the text at this place can't be read.
    NotRead(Place),
    /// F21: the text ends too early.
    Unfinished,
    /// F8: it has fewer than 2 participants, or more than a chart has instances.
    Instances,
    /// F23: the arc that begins in the line with this number names an entity that doesn't exist.
    UnknownEntity(u64),
}

/// Why a text was not read.
#[derive(Clone, Copy, Debug, PartialEq, Eq)]
pub enum ReadError {
    /// F6: a growth was refused.
    Memory,
    Fault(Fault),
}

impl From<AllocError> for ReadError {
    ghost from_gives = { λ _ e. e ≡ Memory };

    fn from(_e: AllocError) -> ReadError {
        ReadError::Memory
    }
}

impl<T: Drop> From<AllocFailed<T>> for ReadError {
    ghost from_gives = { λ _ e. e ≡ Memory };

    fn from(_e: AllocFailed<T>) -> ReadError {
        ReadError::Memory
    }
}
