//! Why a diagram was not imported.
ghost use Rattle.std.specs.Prelude.{◌≡◌};
ghost use Rattle.diagram_import.specs.declared.error.ImportError.TheVariants.{Memory};

use diagram_join::JoinError;
use diagrams::Place;
use std::alloc::{AllocError, AllocFailed};

/// Why a diagram was not imported: its first refusal, or that memory ran out.
#[derive(Debug, Drop)]
pub enum ImportError {
    /// F6: a growth was refused.
    Memory,
    /// G1: a line to skip doesn't exist.
    Usage,
    /// F35: the words at this place can't be read, or may not be skipped. They are at most 40 bytes, with `?` for each
    /// byte that doesn't print.
    NotRead(Place, Vec<u8>),
    /// F21: the text ends too early.
    Unfinished,
    /// F23: in the line with this number an arc of mscgen names an entity that doesn't exist.
    UnknownInstance(u64),
    /// F7, F8, F22, F34 or F37: the diagram has no chart.
    NoChart(JoinError),
}

impl From<AllocError> for ImportError {
    ghost from_gives = { λ _ e. e ≡ Memory };

    fn from(_e: AllocError) -> ImportError {
        ImportError::Memory
    }
}

impl<T: Drop> From<AllocFailed<T>> for ImportError {
    ghost from_gives = { λ _ e. e ≡ Memory };

    fn from(_e: AllocFailed<T>) -> ImportError {
        ImportError::Memory
    }
}
