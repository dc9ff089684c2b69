//! Why a chart, or a list of reports, isn't right.
ghost use Rattle.closure.specs.declared.error.ChartError.TheVariants.{Memory};
ghost use Rattle.std.specs.Prelude.{◌≡◌};

use chart::EventNo;
use std::alloc::{AllocError, AllocFailed};
use thiserror::Error;

/// Why a chart is not possible: the first of these that applies, except for F6, which may come at any point.
#[derive(Clone, Copy, Debug, PartialEq, Eq, Error)]
pub enum ChartError {
    /// F16: the lane of this receive has fewer sends than receives up to it.
    #[error("a message is received that was not sent")]
    ReceiveWithoutSend(EventNo),
    /// F17: the send of this receive has another name.
    #[error("a message is received by another name than it was sent by")]
    NameMismatch(EventNo),
    /// F18: the enforced order puts an event before itself.
    #[error("an event comes before itself")]
    Cyclic,
    /// F6: a growth was refused.
    #[error("out of memory")]
    Memory,
}

impl From<AllocError> for ChartError {
    ghost from_gives = { λ _ e. e ≡ Memory };

    fn from(_e: AllocError) -> ChartError {
        ChartError::Memory
    }
}

impl<T: Drop> From<AllocFailed<T>> for ChartError {
    ghost from_gives = { λ _ e. e ≡ Memory };

    fn from(_e: AllocFailed<T>) -> ChartError {
        ChartError::Memory
    }
}

/// Why a list of reports isn't that of a chart: the first of these that applies.
#[derive(Clone, Copy, Debug, PartialEq, Eq, Error)]
pub enum AuditError {
    /// F16, F17 or F18: the chart is not possible. Or F6.
    #[error(transparent)]
    Chart(ChartError),
    /// F19: at the first place where the lists differ, the receive that belongs there or, past the end, the receive of
    /// the surplus report.
    #[error("a report is not that of its receive")]
    WrongReport(EventNo),
}
