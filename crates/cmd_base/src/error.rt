//! The refusals of the program.

use chart::Name;
use texts::Fault;
use thiserror::Error;

/// Why the program did not do what was asked.
#[derive(Clone, Copy, Debug, PartialEq, Eq, Error)]
pub enum ProgramError {
    /// G1: the command line doesn't parse, or asks for help.
    #[error("the command line doesn't parse")]
    Usage,
    /// G2: the file can't be opened or read, for a cause other than memory.
    #[error("the file can't be read")]
    File,
    /// F6: a growth was refused.
    #[error("out of memory")]
    Memory,
    /// F1 to F4, F7 to F9, F13, F20 to F23: the fault of the text.
    #[error("{0}")]
    Text(Fault),
    /// F16: on the lane of this receive fewer messages were sent than were received up to and including it.
    #[error("a message is received that was not sent")]
    ReceiveWithoutSend {
        /// The name of the receive's instance.
        instance: Name,
        /// The number of the receive on its line, from 1.
        index: u32,
    },
    /// F17: the send of this receive has another name.
    #[error("a message is received by another name than it was sent by")]
    NameMismatch {
        /// The name of the receive's instance.
        instance: Name,
        /// The number of the receive on its line, from 1.
        index: u32,
    },
    /// F18: the enforced order of the chart puts an event before itself.
    #[error("an event comes before itself")]
    Cyclic,
    /// F24: a write failed.
    #[error("the output could not be written")]
    Write,
}
